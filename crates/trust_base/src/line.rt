// Lines of a bank statement.

ghost use Rattle.std.specs.Prelude.{◌≡◌, ◌↔◌, IsTrue, IfOk};
ghost use Rattle.trust_base.specs.LineOrder.{line_cmp};

use crate::{BankAmount, BankText, Day, LineText};
use std::alloc::AllocError;
use std::cmp::Ordering;

/// A line of a bank statement.
#[derive(Drop)]
pub struct Line {
    /// The day on which the bank booked it.
    pub date: Day,
    /// What the line is about: a matter and its entry, the firm, a balance (`OPEN`, `CLOSE`), or some other text.
    pub reference: BankText,
    /// The bank's own reference.
    pub bank_ref: BankText,
    /// The amount in cents, negative if the money went out. On a balance line it is the balance.
    pub amount: BankAmount,
    /// The bank's text for the line.
    pub text: LineText,
}

impl Line {
    /// A copy of the line. The only error is out of memory.
    pub fn copied(&self) -> Result<Line, AllocError>
        ensures { IfOk result (λ same. same ≡ self.now) }
    {
        let reference = self.reference.copied()?;
        let bank_ref = self.bank_ref.copied()?;
        let text = self.text.copied()?;
        Ok(Line {
            date: self.date,
            reference,
            bank_ref,
            amount: self.amount,
            text,
        })
    }

    /// Whether two lines are the same in all five fields.
    pub fn is_same(&self, other: &Line) -> bool
        ensures { IsTrue result ↔ (self.now ≡ other.now) }
    {
        self.date == other.date
            && self.amount == other.amount
            && self.reference.is_same(&other.reference)
            && self.bank_ref.is_same(&other.bank_ref)
            && self.text.is_same(&other.text)
    }

    /// Orders lines by day, reference, bank's reference, amount as a number, then text. Texts compare byte by byte.
    /// Lines compare as equal only if all five fields are the same.
    pub fn compare(&self, other: &Line) -> Ordering
        ensures { result ≡ line_cmp self.now other.now }
    {
        let by_date = self.date.get().cmp(&other.date.get());
        let by_reference = self.reference.as_slice().cmp(other.reference.as_slice());
        let by_bank_ref = self.bank_ref.as_slice().cmp(other.bank_ref.as_slice());
        let by_amount = self.amount.get().cmp(&other.amount.get());
        let by_text = self.text.as_slice().cmp(other.text.as_slice());
        by_date.then(by_reference.then(by_bank_ref.then(by_amount.then(by_text))))
    }
}
