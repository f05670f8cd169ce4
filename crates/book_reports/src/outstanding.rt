//! The payments that the bank has not shown: of a matter, or of all.

ghost use Rattle.trust_store.specs.Calls.{IsRead};

use crate::watching::PaymentWatch;
use firm_rows::{MatterRow, MatterRowSink};
use std::alloc::{AllocError, Global};
use std::marker::Model;
use trust_base::{Day, EntryNo, MatterNo, StoreFault};
use trust_matter::{Entry, PaymentState};
use trust_store::Book;

// The day on which an entry was issued, if it is a payment that waits for the bank.
fn waits_since(entry: &Entry) -> Option<Day> {
    let Entry::Payment(payment) = entry else {
        return None;
    };
    match &payment.state {
        PaymentState::Issued(day) => Some(*day),
        PaymentState::Proposed
        | PaymentState::Declined
        | PaymentState::Cleared(_)
        | PaymentState::Voided(_) => None,
    }
}

/// Reports to `watch`, in the order of their numbers, the payments of a matter that were issued and that no line of
/// the bank has cleared. The book is unchanged. The contract does not say what `watch` is told.
///
/// Returns `Store` if the book's store failed, and `Memory` if memory ran out.
pub fn tell_outstanding<B: Book, V: PaymentWatch>(
    alloc: Global,
    book: &mut B,
    no: MatterNo,
    watch: &V,
) -> Result<(), StoreFault>
    ensures { IsRead result (B.seen book.old) (B.seen book.new) }
{
    let matter = book.matter(alloc, no)?;
    for kept in matter.kept() {
        if let Some(day) = waits_since(&kept.entry) {
            watch.outstanding(no, kept.number, day);
        }
    }
    Ok(())
}

// A payment that waits for the bank.
#[derive(Clone, Copy)]
struct WaitingPayment {
    matter: MatterNo,
    number: EntryNo,
    issued: Day,
}

// The payments that wait for the bank, of all matters, in the order of the rows.
//
// Contracts see nothing of it.
#[derive(Drop)]
struct WaitingPayments {
    payments: Vec<WaitingPayment>,
}

impl Model for WaitingPayments {
    ghost Value = { Unit };

    ghost view = { λ seen. tt };
}

impl WaitingPayments {
    fn new(alloc: Global) -> WaitingPayments {
        WaitingPayments {
            payments: Vec::new(alloc),
        }
    }
}

impl MatterRowSink for WaitingPayments {
    ghost taken = { λ seen row. seen };

    fn matter_row(&mut self, matter: MatterNo, row: MatterRow<'_>) -> Result<(), AllocError> {
        match row {
            MatterRow::Head(_head) => Ok(()),
            MatterRow::Seat(_seat) => Ok(()),
            MatterRow::Entry(number, entry) => {
                if let Some(issued) = waits_since(entry) {
                    self.payments.push(WaitingPayment {
                        matter,
                        number,
                        issued,
                    })?;
                }
                Ok(())
            }
        }
    }
}

/// Reports to `watch`, by matter and then by number, the payments of all matters that were issued and that no line of
/// the bank has cleared. The book is unchanged. The contract does not say what `watch` is told.
///
/// Returns `Store` if the book's store failed, and `Memory` if memory ran out.
pub fn tell_waiting<B: Book, V: PaymentWatch>(
    alloc: Global,
    book: &mut B,
    watch: &V,
) -> Result<(), StoreFault>
    ensures { IsRead result (B.seen book.old) (B.seen book.new) }
{
    let mut seen = WaitingPayments::new(alloc);
    book.each_row(&mut seen)?;
    for payment in &seen.payments {
        watch.outstanding(payment.matter, payment.number, payment.issued);
    }
    Ok(())
}
