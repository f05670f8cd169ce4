// The payments issued in a period with who approved them, from rows that arrive one at a time.

ghost use Rattle.std.specs.Prelude.{◌≡◌, ◌&&◌, ℕ, IfOk, OnOk, OnErr, Some, cond, map, nat_eq, option_to_list};
ghost use Rattle.std.specs.HashMap.{get};
ghost use Rattle.std.specs.Ordering.{nat_cmp};
ghost use Rattle.firm_figures.specs.Doubles.{in_order};
ghost use Rattle.firm_rows.specs.Firm.{EntryRow};
ghost use Rattle.firm_periods.specs.Approvals.{ApprovalsKept, approvals_of, approved_by, approver_in, approves_in, is_issued_earlier, issued_of_entry, no_approvals, with_approval, with_issued_row};

use crate::purged::is_head_purged_within;
use firm_rows::{MatterAct, MatterRow, MatterRowSink, RowSink};
use std::alloc::{AllocError, Global};
use std::cmp::Ordering;
use std::collections::HashMap;
use std::marker::Model;
use trust_base::{Day, EntryNo, MatterNo, Period};
use trust_matter::{Caller, Deed, Entry, Payment};

/// An issued payment: its entry, the day of its issue, and who approved it; None if no act says so.
#[derive(Drop)]
pub struct IssuedPayment {
    pub matter: MatterNo,
    pub number: EntryNo,
    pub issued: Day,
    pub payment: Payment,
    pub approver: Option<Caller>,
}

impl IssuedPayment {
    // By the day of issue.
    fn compare(&self, other: &IssuedPayment) -> Ordering
        ensures { result ≡ nat_cmp self.now.issued other.now.issued }
    {
        self.issued.get().cmp(&other.issued.get())
    }
}

// Who approved each payment, by the numbers of its matter and its entry.
type Callers = HashMap<(u32, u16), Caller>;

// Adds who approved what to those of the acts before.
fn add_caller(callers: &mut Callers, act: &MatterAct) -> Result<(), AllocError>
    ensures { OnOk result ((m n : ℕ)
        → get (λ x y. nat_eq x.0 y.0 && nat_eq x.1 y.1) callers.new (m, n)
        ≡ cond (approves_in m n act.now) (Some act.now.act.caller)
        (get (λ x y. nat_eq x.0 y.0 && nat_eq x.1 y.1) callers.old (m, n))) }
{
    let Deed::Approved = &act.act.deed else {
        return Ok(());
    };
    let Some(number) = act.act.entry else {
        return Ok(());
    };
    let caller = act.act.caller.copied()?;
    callers.insert((act.matter.get(), number.get()), caller)?;
    Ok(())
}

// Who approved each payment, by acts.
fn callers_of(alloc: Global, acts: &[MatterAct]) -> Result<Callers, AllocError>
    ensures { IfOk result (λ callers. (m n : ℕ)
        → get (λ x y. nat_eq x.0 y.0 && nat_eq x.1 y.1) callers (m, n) ≡ approver_in acts.now m n) }
{
    let mut callers = HashMap::new(alloc);
    for act in acts {
        add_caller(&mut callers, act)?;
    }
    Ok(callers)
}

// A payment with who approved it.
fn with_approver(callers: &Callers, line: IssuedPayment) -> Result<IssuedPayment, AllocError>
    ensures { IfOk result (λ found. found ≡ record line {
      approver = get (λ x y. nat_eq x.0 y.0 && nat_eq x.1 y.1) callers.now (line.matter, line.number);
    }) }
{
    let approver = match callers.get(&(line.matter.get(), line.number.get())) {
        Some(caller) => Some(caller.copied()?),
        None => None,
    };
    Ok(IssuedPayment { approver, ..line })
}

// The payments with who approved each, by acts.
fn with_approvers(
    alloc: Global,
    acts: &[MatterAct],
    lines: Vec<IssuedPayment>,
) -> Result<Vec<IssuedPayment>, AllocError>
    ensures { IfOk result (λ found. found.items ≡ map (approved_by acts.now) lines.items) }
{
    let callers = callers_of(alloc, acts)?;
    let mut found = Vec::with_capacity(alloc, lines.len())?;
    for line in lines {
        found.push(with_approver(&callers, line)?)?;
    }
    Ok(found)
}

// The payments by the day of issue; those of one day stay in their order.
fn by_issue(lines: Vec<IssuedPayment>) -> Result<Vec<IssuedPayment>, AllocError>
    ensures { IfOk result (λ found. found.items ≡ in_order is_issued_earlier lines.items) }
{
    let mut all = lines;
    all.sort_by(|one, other| one.compare(other))?;
    Ok(all)
}

/// The payment of an entry if it was issued in a period, with nobody who approved it. The only error is out of memory.
pub(crate) fn issued_within(
    period: Period,
    matter: MatterNo,
    number: EntryNo,
    entry: &Entry,
) -> Result<Option<IssuedPayment>, AllocError>
    ensures { IfOk result (λ found. option_to_list found ≡ issued_of_entry period matter number entry.now) }
{
    let Entry::Payment(payment) = entry else {
        return Ok(None);
    };
    let Some(issued) = payment.state.issued_on() else {
        return Ok(None);
    };
    let day = issued.get();
    if day < period.from().get() || period.to().get() < day {
        return Ok(None);
    }
    let state = payment.state.copied()?;
    let payment = payment.restated(state)?;
    Ok(Some(IssuedPayment {
        matter,
        number,
        issued,
        payment,
        approver: None,
    }))
}

/// Payments by the day of issue, those of one day in their order, each with who approved it by acts. The only error is
/// out of memory.
pub(crate) fn approved_list(
    alloc: Global,
    acts: Vec<MatterAct>,
    lines: Vec<IssuedPayment>,
) -> Result<Vec<IssuedPayment>, AllocError>
    ensures { IfOk result (λ found. found.items
        ≡ in_order is_issued_earlier (map (approved_by acts.items) lines.items)) }
{
    let lines = with_approvers(alloc, acts.as_slice(), lines)?;
    by_issue(lines)
}

/// What a list of approvals has so far.
#[derive(Drop)]
pub(crate) struct ApprovalsBegun {
    pub(crate) period: Period,
    pub(crate) acts: Vec<MatterAct>,
    pub(crate) lines: Vec<IssuedPayment>,
    pub(crate) purged: bool,
}

/// Lists the payments issued in a period, each with who approved it: of the acts, and then the rows of a firm.
///
/// Contracts see it as the period, the acts of approval, the payments, and whether a purged matter may have had such a
/// payment.
#[derive(Drop)]
pub struct ApprovalsSink {
    period: Period,
    acts: Vec<MatterAct>,
    lines: Vec<IssuedPayment>,
    purged: bool,
}

impl Model for ApprovalsSink {
    ghost Value = { ApprovalsKept };

    ghost view = { λ s. record { period = s.period; acts = s.acts.items; lines = s.lines.items; purged = s.purged } };
}

impl ApprovalsSink {
    /// An empty list.
    pub fn new(alloc: Global, period: Period) -> ApprovalsSink
        ensures { result ≡ no_approvals period }
    {
        ApprovalsSink {
            period,
            acts: Vec::new(alloc),
            lines: Vec::new(alloc),
            purged: false,
        }
    }

    /// Whether a purged matter may have had a payment that was issued in the period: it was open in it. The list is
    /// then no longer complete.
    pub fn is_period_purged(&self) -> bool
        ensures { result ≡ self.now.purged }
    {
        self.purged
    }

    /// The payments by the day of issue, those of one day in their order, each with who approved it. The only error is
    /// out of memory.
    pub fn finish(self, alloc: Global) -> Result<Vec<IssuedPayment>, AllocError>
        ensures { IfOk result (λ found. found.items ≡ approvals_of self) }
    {
        approved_list(alloc, self.acts, self.lines)
    }

    /// What it has so far.
    pub(crate) fn into_begun(self) -> ApprovalsBegun
        ensures { (result.period ≡ self.period) × (result.acts.items ≡ self.acts)
            × (result.lines.items ≡ self.lines) × (result.purged ≡ self.purged) }
    {
        ApprovalsBegun {
            period: self.period,
            acts: self.acts,
            lines: self.lines,
            purged: self.purged,
        }
    }

    // Appends the payment of an entry if it was issued in the period. If memory runs out, nothing is appended.
    fn list_entry(
        &mut self,
        matter: MatterNo,
        number: EntryNo,
        entry: &Entry,
    ) -> Result<(), AllocError>
        ensures ok { OnOk result (self.new ≡ with_issued_row self.old (matter, EntryRow number entry.now)) }
        ensures err { OnErr result (self.new ≡ self.old) }
    {
        if let Some(line) = issued_within(self.period, matter, number, entry)? {
            self.lines.push(line)?;
        }
        Ok(())
    }
}

impl RowSink<MatterAct> for ApprovalsSink {
    ghost taken = { with_approval };

    fn take(&mut self, act: &MatterAct) -> Result<(), AllocError> {
        if let Deed::Approved = &act.act.deed {
            self.acts.push(act.copied()?)?;
        }
        Ok(())
    }
}

impl MatterRowSink for ApprovalsSink {
    ghost taken = { with_issued_row };

    fn matter_row(&mut self, matter: MatterNo, row: MatterRow<'_>) -> Result<(), AllocError> {
        match row {
            MatterRow::Head(head) => {
                self.purged = self.purged || is_head_purged_within(head, self.period);
                Ok(())
            }
            MatterRow::Seat(_seat) => Ok(()),
            MatterRow::Entry(number, entry) => self.list_entry(matter, number, entry),
        }
    }
}
