// Collects what is known of a book, row by row.

ghost use Rattle.std.specs.Prelude.{◌≡◌, ◌++◌, ◌∷◌, List, IfOk, OnOk, OnErr, option_copied, []};
ghost use Rattle.firm_rows.specs.Firm.{EntryRow};
ghost use Rattle.trust_store.specs.Calls.{IsRead};
ghost use Rattle.statement_csv.specs.References.{reference_text};
ghost use Rattle.statement_lines.specs.Waiting.{Waiting, waiting_deposit, waiting_payment};
ghost use Rattle.statement_lines.specs.declared.booking.Booking.{Booking};
ghost use Rattle.statement_match.specs.Books.{booked_by, entry_bookings, entry_waiting};
ghost use Rattle.statement_match.specs.Entries.{book_entry, deposit_in, know_exception, know_own_line, know_row};
ghost use Rattle.statement_match.specs.Entries.{known_of, none_known, payment_in, since_of as since_day};
ghost use Rattle.statement_match.specs.Entries.{told_entries as entries_told};

use firm_rows::{FirmLine, MatterRow, MatterRowSink, RowSink};
use matter_rows::{Clearing, Deposit, DepositState, Entry, Payment, PaymentState};
use statement_lines::{BookEntry, BookedLines, Booking, EntryState, Held, Known, WaitingEntry};
use std::alloc::{AllocError, Global};
use std::marker::Model;
use trust_base::{BankText, Day, EntryNo, Label, Line, MatterNo, StoreFault};
use trust_store::Book;

// Writes the reference that names an entry, as bytes.
fn reference_bytes(alloc: Global, matter: MatterNo, entry: EntryNo) -> Result<Vec<u8>, AllocError>
    ensures { IfOk result (λ bytes. bytes.items ≡ reference_text matter entry) }
{
    let mut bytes = Vec::new(alloc);
    bytes.push(b'M')?;
    matter.write_to(&mut bytes)?;
    bytes.push(b'-')?;
    entry.write_to(&mut bytes)?;
    Ok(bytes)
}

// Returns the reference that names an entry.
fn reference_of(alloc: Global, matter: MatterNo, entry: EntryNo) -> Result<BankText, AllocError>
    ensures { IfOk result (λ reference. reference ≡ reference_text matter entry) }
{
    let bytes = reference_bytes(alloc, matter, entry)?;
    match BankText::from_vec(bytes) {
        Ok(reference) => Ok(reference),
        Err(_) => unreachable!(),
    }
}

// Returns a deposit as lines are compared with it: what it would be if it waited.
fn deposit_waiting(
    alloc: Global,
    d: &Deposit,
    matter: MatterNo,
    number: EntryNo,
) -> Result<WaitingEntry, AllocError>
    ensures { IfOk result (λ w. w
        ≡ waiting_deposit (reference_text matter number) d.now.amount d.now.source d.now.description) }
{
    let reference = reference_of(alloc, matter, number)?;
    WaitingEntry::deposit(
        alloc,
        reference,
        d.amount,
        d.source.as_slice(),
        d.description.as_slice(),
    )
}

// Returns a payment as lines are compared with it: what it would be if it had waited since this day.
fn payment_waiting(
    alloc: Global,
    p: &Payment,
    since: Day,
    matter: MatterNo,
    number: EntryNo,
) -> Result<WaitingEntry, AllocError>
    ensures { IfOk result (λ w. w
        ≡ waiting_payment (reference_text matter number) p.now.amount since p.now.instrument) }
{
    let reference = reference_of(alloc, matter, number)?;
    WaitingEntry::payment(alloc, reference, p.amount, since, p.instrument.as_slice())
}

// Returns the entry if it waits for the bank.
fn waiting_of(
    alloc: Global,
    matter: MatterNo,
    entry: &Entry,
    number: EntryNo,
) -> Result<Vec<WaitingEntry>, AllocError>
    ensures { IfOk result (λ found. found.items ≡ entry_waiting matter number entry.now) }
{
    let mut found = Vec::new(alloc);
    match entry {
        Entry::Deposit(d) => {
            if let DepositState::Held = &d.state {
                found.push(deposit_waiting(alloc, d, matter, number)?)?;
            }
        }
        Entry::Payment(p) => {
            if let PaymentState::Issued(day) = &p.state {
                found.push(payment_waiting(alloc, p, *day, matter, number)?)?;
            }
        }
        Entry::Fee(_) | Entry::Claim(_) => {}
    }
    Ok(found)
}

// Adds the bank line that the book has for an entry.
fn add_booking(found: &mut Vec<Booking>, clearing: &Clearing, amount: i64) -> Result<(), AllocError>
    ensures { OnOk result (found.new.items ≡ found.old.items ++ booked_by clearing.now amount ∷ []) }
{
    let bank_ref = clearing.bank_ref.copied()?;
    found.push(Booking {
        date: clearing.bank_day,
        bank_ref,
        amount,
    })?;
    Ok(())
}

// Adds the bank lines that are booked for an entry.
fn add_bookings(found: &mut Vec<Booking>, entry: &Entry) -> Result<(), AllocError>
    ensures { OnOk result (found.new.items ≡ found.old.items ++ entry_bookings entry.now) }
{
    match entry {
        Entry::Deposit(d) => {
            let amount = d.amount.get() as i64;
            match &d.state {
                DepositState::Cleared(clearing) => add_booking(found, clearing, amount),
                DepositState::Returned(back) => {
                    add_booking(found, &back.clearing, amount)?;
                    add_booking(found, &back.returning, -amount)
                }
                DepositState::Held | DepositState::Cancelled(_) => Ok(()),
            }
        }
        Entry::Payment(p) => match &p.state {
            PaymentState::Cleared(paid) => {
                add_booking(found, &paid.clearing, -(p.amount.get() as i64))
            }
            PaymentState::Proposed
            | PaymentState::Declined
            | PaymentState::Issued(_)
            | PaymentState::Voided(_) => Ok(()),
        },
        Entry::Fee(_) | Entry::Claim(_) => Ok(()),
    }
}

// Returns the bank lines that are booked for an entry.
fn bookings_of(alloc: Global, entry: &Entry) -> Result<Vec<Booking>, AllocError>
    ensures { IfOk result (λ found. found.items ≡ entry_bookings entry.now) }
{
    let mut found = Vec::new(alloc);
    add_bookings(&mut found, entry)?;
    Ok(found)
}

// The state of an entry, the day of the state, and the bank's reference of the line that reported it, if one did.
type StateOf<'a> = (EntryState, Day, Option<&'a BankText>);

fn deposit_state(d: &Deposit) -> StateOf<'_>
    ensures { (w : Waiting) (bookings : List Booking)
        → book_entry w result.0 result.1 (option_copied result.2) d.now.source bookings
        ≡ deposit_in w d.now d.now.state bookings }
{
    match &d.state {
        DepositState::Held => (EntryState::Held, d.book, None),
        DepositState::Cancelled(day) => (EntryState::Cancelled, *day, None),
        DepositState::Cleared(line) => (EntryState::Cleared, line.bank_day, Some(&line.bank_ref)),
        DepositState::Returned(back) => {
            let line = &back.returning;
            (EntryState::Returned, line.bank_day, Some(&line.bank_ref))
        }
    }
}

// The day since which a payment has waited. If it was never issued, the day on which it was booked.
fn since_of(p: &Payment) -> Day
    ensures { result ≡ since_day p.now p.now.state }
{
    match &p.state {
        PaymentState::Proposed | PaymentState::Declined => p.book,
        PaymentState::Issued(day) => *day,
        PaymentState::Cleared(paid) => paid.issued,
        PaymentState::Voided(voided) => voided.issued,
    }
}

fn payment_state(p: &Payment) -> StateOf<'_>
    ensures { (w : Waiting) (bookings : List Booking)
        → book_entry w result.0 result.1 (option_copied result.2) p.now.payee bookings
        ≡ payment_in w p.now p.now.state bookings }
{
    match &p.state {
        PaymentState::Issued(day) => (EntryState::Issued, *day, None),
        PaymentState::Proposed => (EntryState::Proposed, p.book, None),
        PaymentState::Declined => (EntryState::Declined, p.book, None),
        PaymentState::Voided(voided) => (EntryState::Voided, voided.undone, None),
        PaymentState::Cleared(paid) => {
            let line = &paid.clearing;
            (EntryState::Cleared, line.bank_day, Some(&line.bank_ref))
        }
    }
}

// Returns an entry with its state, its source or payee, and the bank lines that are booked for it.
fn told(
    entry: WaitingEntry,
    now: StateOf<'_>,
    party: &Label,
    bookings: BookedLines,
) -> Result<BookEntry, AllocError>
    ensures { IfOk result (λ e. e
        ≡ book_entry entry now.entry.0 now.entry.1 (option_copied now.entry.2) party.now bookings) }
{
    let (state, day, reported) = now;
    let bank_ref = match reported {
        Some(bank_ref) => Some(bank_ref.copied()?),
        None => None,
    };
    Ok(BookEntry {
        entry,
        state,
        day,
        bank_ref,
        party: party.copied()?,
        bookings,
    })
}

// Returns the entry if it is a deposit or a payment.
fn told_entries(
    alloc: Global,
    entry: &Entry,
    matter: MatterNo,
    number: EntryNo,
) -> Result<Vec<BookEntry>, AllocError>
    ensures { IfOk result (λ found. found.items ≡ entries_told matter number entry.now) }
{
    let mut found = Vec::new(alloc);
    let bookings = BookedLines::new(bookings_of(alloc, entry)?);
    match entry {
        Entry::Fee(_) | Entry::Claim(_) => {}
        Entry::Deposit(d) => {
            let waiting = deposit_waiting(alloc, d, matter, number)?;
            found.push(told(waiting, deposit_state(d), &d.source, bookings)?)?;
        }
        Entry::Payment(p) => {
            let waiting = payment_waiting(alloc, p, since_of(p), matter, number)?;
            found.push(told(waiting, payment_state(p), &p.payee, bookings)?)?;
        }
    }
    Ok(found)
}

/// Collects, from a firm's rows, what the lines of a statement are compared with, and all deposits and payments.
///
/// Contracts see it as what is known.
#[derive(Drop)]
struct KnownCollector {
    alloc: Global,
    entries: Vec<BookEntry>,
    waiting: Vec<WaitingEntry>,
    bookings: Vec<Booking>,
    exceptions: Vec<Line>,
}

impl Model for KnownCollector {
    ghost use Rattle.statement_lines.specs.Known.{Known};

    ghost Value = { Known };

    ghost view = { λ c. record {
      held = record { waiting = c.waiting.items; bookings = c.bookings.items };
      entries = c.entries.items;
      exceptions = c.exceptions.items;
    } };
}

impl KnownCollector {
    fn new(alloc: Global) -> KnownCollector
        ensures { result ≡ none_known }
    {
        KnownCollector {
            alloc,
            entries: Vec::new(alloc),
            waiting: Vec::new(alloc),
            bookings: Vec::new(alloc),
            exceptions: Vec::new(alloc),
        }
    }

    // Adds what is known of an entry, or nothing if memory runs out.
    fn add_entry(
        &mut self,
        matter: MatterNo,
        number: EntryNo,
        entry: &Entry,
    ) -> Result<(), AllocError>
        ensures ok { OnOk result (self.new ≡ know_row self.old (matter, EntryRow number entry.now)) }
        ensures err { OnErr result (self.new ≡ self.old) }
    {
        let mut told = told_entries(self.alloc, entry, matter, number)?;
        let mut waiting = waiting_of(self.alloc, matter, entry, number)?;
        let mut bookings = bookings_of(self.alloc, entry)?;
        let entries_before = self.entries.len();
        self.entries.append(&mut told)?;
        let waiting_before = self.waiting.len();
        if let Err(error) = self.waiting.append(&mut waiting) {
            self.entries.truncate(entries_before);
            return Err(error);
        }
        if let Err(error) = self.bookings.append(&mut bookings) {
            self.entries.truncate(entries_before);
            self.waiting.truncate(waiting_before);
            return Err(error);
        }
        Ok(())
    }

    // Returns what is known.
    fn finish(self) -> Known
        ensures { result ≡ self }
    {
        Known {
            held: Held::new(self.waiting, self.bookings),
            entries: self.entries,
            exceptions: self.exceptions,
        }
    }
}

impl MatterRowSink for KnownCollector {
    ghost taken = { know_row };

    fn matter_row(&mut self, matter: MatterNo, row: MatterRow<'_>) -> Result<(), AllocError> {
        match row {
            MatterRow::Head(_head) => Ok(()),
            MatterRow::Seat(_seat) => Ok(()),
            MatterRow::Entry(number, entry) => self.add_entry(matter, number, entry),
        }
    }
}

impl RowSink<Line> for KnownCollector {
    ghost taken = { know_exception };

    fn take(&mut self, line: &Line) -> Result<(), AllocError> {
        self.exceptions.push(line.copied()?)?;
        Ok(())
    }
}

impl RowSink<FirmLine> for KnownCollector {
    ghost taken = { know_own_line };

    fn take(&mut self, line: &FirmLine) -> Result<(), AllocError> {
        let bank_ref = line.bank_ref.copied()?;
        self.bookings.push(Booking {
            date: line.date,
            bank_ref,
            amount: line.amount.get(),
        })?;
        Ok(())
    }
}

/// Reads what is known of a book: what the lines of a statement are compared with, and what is reported about lines
/// that are left. The book is unchanged.
///
/// Returns `Store` if the book's store failed, and `Memory` if memory ran out.
pub(crate) fn known_in<B: Book>(alloc: Global, book: &mut B) -> Result<Known, StoreFault>
    ensures known { (B.seen book.new).clean → (B.seen book.old).stands
        → IfOk result (λ known. known ≡ known_of (B.seen book.old).firm) }
    ensures read { IsRead result (B.seen book.old) (B.seen book.new) }
{
    let mut collector = KnownCollector::new(alloc);
    book.each_row(&mut collector)?;
    book.each_firm_line(&mut collector)?;
    book.each_exception(&mut collector)?;
    Ok(collector.finish())
}
