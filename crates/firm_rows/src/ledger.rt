// The firm's own ledger, the balances that the bank reports, and the verdicts on their lines.

ghost use Rattle.std.specs.Prelude.{◌≡◌, ◌↔◌, List, [], ◌∷◌, ◌++◌, IsTrue, IfOk, OnOk, OnErr, ◌+ℤ◌};
ghost use Rattle.std.specs.List.{list_any};
ghost use Rattle.firm_rows.specs.declared.ledger.FirmLine.{FirmLine};
ghost use Rattle.firm_rows.specs.FirmLines.{balance_of, IsOwnBalance, is_own_balance, is_kept_as, is_bookable, firm_verdict, balance_verdict, as_firm_line};
ghost use Rattle.firm_rows.specs.FirmLines.{place_of, balance_cmp, balance_row, is_balance_on};

use crate::MAX_OWN;
use std::alloc::{AllocError, Global};
use std::cmp::Ordering;
use std::marker::Model;
use trust_base::{BankAmount, BankText, Day, Line, LineText};

/// A line of the firm's own ledger: the bank line without its reference. It is booked on its date.
#[derive(Drop)]
pub struct FirmLine {
    pub date: Day,
    pub bank_ref: BankText,
    pub amount: BankAmount,
    pub text: LineText,
}

/// The verdict on a line of the firm's own, or on a balance.
#[derive(Clone, Copy)]
pub enum Verdict {
    /// It is booked, or kept on file.
    Applied,
    /// The same is booked or on file already.
    Repeat,
    /// It can't be booked or kept, and becomes an exception.
    Unmatched,
}

/// An opening or a closing balance.
#[derive(Clone, Copy)]
pub enum BalanceKind {
    Opening,
    Closing,
}

/// A balance that the bank reported.
#[derive(Clone, Copy)]
pub struct BalanceRow {
    pub kind: BalanceKind,
    pub day: Day,
    pub amount: BankAmount,
}

impl FirmLine {
    /// The line as the firm's ledger stores it. The only error is out of memory.
    pub fn of(line: &Line) -> Result<FirmLine, AllocError>
        ensures { IfOk result (λ l. l ≡ as_firm_line line.now) }
    {
        let bank_ref = line.bank_ref.copied()?;
        let text = line.text.copied()?;
        Ok(FirmLine {
            date: line.date,
            bank_ref,
            amount: line.amount,
            text,
        })
    }

    /// A copy. The only error is out of memory.
    pub fn copied(&self) -> Result<FirmLine, AllocError>
        ensures { IfOk result (λ same. same ≡ self.now) }
    {
        let bank_ref = self.bank_ref.copied()?;
        let text = self.text.copied()?;
        Ok(FirmLine {
            date: self.date,
            bank_ref,
            amount: self.amount,
            text,
        })
    }

    // Whether it has the line's date, bank reference and amount.
    fn is_kept_as(&self, line: &Line) -> bool
        ensures { result ≡ is_kept_as line.now self.now }
    {
        self.date.get() == line.date.get()
            && self.bank_ref.is_same(&line.bank_ref)
            && self.amount.get() == line.amount.get()
    }
}

impl BalanceKind {
    // The sort key: openings before closings.
    fn place(self) -> u8
        ensures { result ≡ place_of self }
    {
        match self {
            BalanceKind::Opening => 0,
            BalanceKind::Closing => 1,
        }
    }
}

impl BalanceRow {
    /// The line as a balance of this kind. Allocates nothing.
    pub fn of(kind: BalanceKind, line: &Line) -> BalanceRow
        ensures { result ≡ balance_row kind line.now }
    {
        BalanceRow {
            kind,
            day: line.date,
            amount: line.amount,
        }
    }

    /// Orders balances: openings before closings, each by day.
    pub fn compare(&self, other: &BalanceRow) -> Ordering
        ensures { result ≡ balance_cmp self.now other.now }
    {
        let by_kind = self.kind.place().cmp(&other.kind.place());
        let by_day = self.day.get().cmp(&other.day.get());
        by_kind.then(by_day)
    }

    /// Whether it is the balance of this kind and day.
    pub fn is_on(&self, kind: BalanceKind, day: Day) -> bool
        ensures { result ≡ is_balance_on kind day self.now }
    {
        self.kind.place() == kind.place() && self.day.get() == day.get()
    }
}

/// The firm's own money in the account: its lines in the order of acceptance. They add up to between 0 and 50,000
/// cents.
///
/// Contracts see it as the list of its lines.
#[derive(Drop)]
pub struct FirmLedger {
    lines: Vec<FirmLine>,
    balance: i64,
}

impl Model for FirmLedger {
    ghost Value = { List FirmLine };

    ghost view = { λ l. l.lines.items };

    ghost invariant = { λ l. (l.balance ≡ balance_of l.lines.items) × IsOwnBalance l.balance };
}

/// Whether the firm may have this much as its own money, in cents.
pub fn is_own_balance(cents: i64) -> bool
    ensures value { result ≡ is_own_balance cents }
    ensures within { IsTrue result ↔ IsOwnBalance cents }
{
    0 <= cents && cents <= MAX_OWN as i64
}

impl FirmLedger {
    /// A ledger without lines.
    pub fn new(alloc: Global) -> FirmLedger
        ensures { result ≡ [] }
    {
        FirmLedger {
            lines: Vec::new(alloc),
            balance: 0,
        }
    }

    /// The sum of the lines, in cents.
    pub fn balance(&self) -> i64
        ensures value { result ≡ balance_of self.now }
        ensures within { IsOwnBalance result }
    {
        self.balance
    }

    /// The lines, in the order of acceptance.
    pub fn lines(&self) -> &[FirmLine]
        ensures { result.now ≡ self.now }
    {
        self.lines.as_slice()
    }

    /// A copy, made with the given allocator. The only error is out of memory.
    pub fn copied(&self, alloc: Global) -> Result<FirmLedger, AllocError>
        ensures { IfOk result (λ same. same ≡ self.now) }
    {
        let mut lines = Vec::new(alloc);
        for line in &self.lines {
            lines.push(line.copied()?)?;
        }
        Ok(FirmLedger {
            lines,
            balance: self.balance,
        })
    }

    /// Appends a line. If memory runs out, the ledger is unchanged and the line is lost.
    pub fn add(&mut self, line: FirmLine) -> Result<(), AllocError>
        requires { IsOwnBalance (balance_of self.old +ℤ line.amount) }
        ensures ok { OnOk result (self.new ≡ self.old ++ line ∷ []) }
        ensures err { OnErr result (self.new ≡ self.old) }
    {
        let balance = self.balance + line.amount.get();
        self.lines.push(line)?;
        self.balance = balance;
        Ok(())
    }
}

// Whether a line with this date, bank reference and amount is stored.
fn is_kept(lines: &[FirmLine], line: &Line) -> bool
    ensures { result ≡ list_any (is_kept_as line.now) lines.now }
{
    lines.iter().any(|l| l.is_kept_as(line))
}

// Whether the line may be booked on this day.
fn is_bookable(ledger: &FirmLedger, line: &Line, today: Day) -> bool
    ensures { result ≡ is_bookable ledger.now line.now today }
{
    let amount = line.amount.get();
    line.date.get() <= today.get() && amount != 0 && is_own_balance(ledger.balance() + amount)
}

/// The verdict on a line of the firm's own on a business day. It is a repeat if the ledger has a line with its date,
/// bank reference and amount. It is applied if it is not dated after the business day, moves something, and leaves the
/// ledger between 0 and 50,000 cents. Otherwise it is unmatched. Allocates nothing.
pub fn decide_firm_line(ledger: &FirmLedger, line: &Line, today: Day) -> Verdict
    ensures { result ≡ firm_verdict ledger.now line.now today }
{
    if is_kept(ledger.lines(), line) {
        return Verdict::Repeat;
    }
    if is_bookable(ledger, line, today) {
        Verdict::Applied
    } else {
        Verdict::Unmatched
    }
}

/// The verdict on a balance on a business day. `kept` is the amount on file for its kind and day, if any. It is a
/// repeat if that is the same amount. It is applied if none is on file and it is not dated after the business day.
/// Otherwise it is unmatched. Allocates nothing.
pub fn decide_balance(kept: Option<i64>, line: &Line, today: Day) -> Verdict
    ensures { result ≡ balance_verdict kept line.now today }
{
    match kept {
        Some(amount) if amount == line.amount.get() => Verdict::Repeat,
        None if line.date.get() <= today.get() => Verdict::Applied,
        _ => Verdict::Unmatched,
    }
}
