// The lines of a statement that are the firm's own, and what an import would do with them.

ghost use Rattle.std.specs.Prelude.{◌≡◌, OnOk};
ghost use Rattle.statement_match.specs.OwnLines.{is_own as is_own_line, own_misfit as own_misfit_told};
ghost use Rattle.statement_match.specs.OwnLines.{own_reason as own_reason_told, own_with};

use crate::reason::UnmatchedReason;
use firm_rows::{FirmLedger, FirmLine, Verdict, decide_firm_line};
use std::alloc::AllocError;
use trust_base::{Day, Line};

/// Whether it is a line of the firm's own.
pub(crate) fn is_own(line: &Line) -> bool
    ensures { result ≡ is_own_line line.now }
{
    line.reference.as_slice() == b"FIRM".as_slice()
}

/// Adds a line to the firm's own ledger, if it is one of the firm's own that an import would apply. The only error is
/// out of memory.
pub(crate) fn add_own(own: &mut FirmLedger, today: Day, line: &Line) -> Result<(), AllocError>
    ensures { OnOk result (own.new ≡ own_with today own.old line.now) }
{
    if !is_own(line) {
        return Ok(());
    }
    match decide_firm_line(own, line, today) {
        Verdict::Applied => own.add(FirmLine::of(line)?),
        Verdict::Repeat | Verdict::Unmatched => Ok(()),
    }
}

// Why an import would not apply a line of the firm's own.
fn own_misfit(today: Day, own: &FirmLedger, line: &Line) -> UnmatchedReason
    ensures { result ≡ own_misfit_told today own.now line.now }
{
    let amount = line.amount.get();
    if today.get() < line.date.get() {
        return UnmatchedReason::DatedAfter(today);
    }
    if amount == 0 {
        return UnmatchedReason::MovesNothing;
    }
    UnmatchedReason::OwnMoney(own.balance() + amount)
}

/// Why a line of the firm's own has to be looked at: an import would not apply it to this ledger.
#[tactic(auto, unfolding(crate::specs::OwnLines::own_reason))]
pub(crate) fn own_reason(today: Day, own: &FirmLedger, line: &Line) -> Option<UnmatchedReason>
    ensures { result ≡ own_reason_told today own.now line.now }
{
    match decide_firm_line(own, line, today) {
        Verdict::Applied | Verdict::Repeat => None,
        Verdict::Unmatched => Some(own_misfit(today, own, line)),
    }
}
