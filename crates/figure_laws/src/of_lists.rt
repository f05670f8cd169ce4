// The figures and lists of rows in memory.

ghost use Rattle.std.specs.Prelude.{◌≡◌, [], map, pos, ◌≤ℤ◌, IfOk, IfSome};
ghost use Rattle.std.specs.List.{AllByRecursion};
ghost use Rattle.std.specs.Option.{option_map};
ghost use Rattle.firm_rows.specs.Firm.{Firm};
ghost use Rattle.firm_rows.specs.FirmLines.{balance_of};
ghost use Rattle.firm_rows.specs.FirmSound.{IsInOrder, FirmSound};
ghost use Rattle.firm_rows.specs.Handing.{in_memory, row_pair};
ghost use Rattle.figure_laws.specs.Agree.{FiguresAgree};
ghost use Rattle.firm_figures.specs.Lists.{journal_of, last_sum, trial_lines, trial_total};
ghost use Rattle.firm_figures.specs.Reconciliations.{reconciliation_on, told};
ghost use Rattle.firm_figures.specs.Lists.{retention_list};

use crate::laws::{figures_agree, lists_agree};
use firm_figures::{
    JournalLine, JournalSink, Reconciliation, ReconciliationSink, RetentionLine, RetentionSink,
    TrialBalance, TrialSink,
};
use firm_rows::{BalanceRow, FirmLine, MatterRow, Movement, hand, hand_rows};
use std::alloc::{AllocError, Global};
use trust_base::{Day, Line, MatterNo};

/// The reconciliation as of a day of a sound firm whose rows are in memory, or None if no closing balance of the day is
/// among them. This is the plain way to ask for it; `ReconciliationSink` is for rows that arrive one at a time. If a
/// matter that was closed after the day was purged, the figures are those of the rows that are left. The only error is
/// out of memory.
pub fn reconcile_at(
    alloc: Global,
    day: Day,
    rows: &[(MatterNo, MatterRow<'_>)],
    movements: &[Movement],
    firm_lines: &[FirmLine],
    exceptions: &[Line],
    balances: &[BalanceRow],
) -> Result<Option<Reconciliation>, AllocError>
    ensures told { let firm = in_memory rows.now movements.now firm_lines.now exceptions.now balances.now in
        FirmSound firm → IfOk result (λ found. option_map told found ≡ reconciliation_on day firm) }

    // The journal equals the ledgers, and exceptions, early lines and the gap explain the difference.
    ensures agree { let firm = in_memory rows.now movements.now firm_lines.now exceptions.now balances.now in
        FirmSound firm → IfOk result (λ found. IfSome found (λ r. FiguresAgree r.figures)) }
{
    figures_agree();
    let mut sink = ReconciliationSink::new(alloc, day);
    hand_rows(rows, &mut sink)?;
    hand(movements, &mut sink)?;
    hand(firm_lines, &mut sink)?;
    hand(exceptions, &mut sink)?;
    hand(balances, &mut sink)?;
    sink.finish(alloc)
}

/// The trial balance of a sound firm whose rows and own lines are in memory. This is the plain way to ask for it;
/// `TrialSink` is for rows that arrive one at a time. The only error is out of memory.
pub fn trial_balance(
    alloc: Global,
    rows: &[(MatterNo, MatterRow<'_>)],
    firm_lines: &[FirmLine],
) -> Result<TrialBalance, AllocError>
    ensures lines { (firm : Firm) → firm.rows ≡ map row_pair rows.now → firm.firm_lines ≡ firm_lines.now
        → IsInOrder firm → IfOk result (λ balance. balance.lines.items ≡ trial_lines firm) }
    ensures own { (firm : Firm) → firm.rows ≡ map row_pair rows.now → firm.firm_lines ≡ firm_lines.now
        → IsInOrder firm → IfOk result (λ balance. balance.own ≡ balance_of firm.firm_lines) }
    ensures total { (firm : Firm) → firm.rows ≡ map row_pair rows.now → firm.firm_lines ≡ firm_lines.now
        → FirmSound firm → IfOk result (λ balance. balance.total ≡ trial_total firm) }
{
    let mut sink = TrialSink::new(alloc);
    hand_rows(rows, &mut sink)?;
    hand(firm_lines, &mut sink)?;
    Ok(sink.finish())
}

/// The journal of movements in memory: each with the sum so far, in the order of the slice. This is the plain way to
/// ask for it; `JournalSink` is for movements that arrive one at a time. The only error is out of memory.
pub fn journal_list(alloc: Global, movements: &[Movement]) -> Result<Vec<JournalLine>, AllocError>
    ensures lines { IfOk result (λ lines. lines.items ≡ journal_of movements.now) }

    // In a sound firm no sum so far is below zero, and the last one is the trial balance's TOTAL.
    ensures covered { (firm : Firm) → firm.movements ≡ movements.now → FirmSound firm
        → IfOk result (λ lines. AllByRecursion (λ l. pos 0 ≤ℤ l.sum) lines.items) }
    ensures total { (firm : Firm) → firm.movements ≡ movements.now → FirmSound firm
        → IfOk result (λ lines. last_sum (pos 0) lines.items ≡ trial_total firm) }
{
    lists_agree();
    let mut sink = JournalSink::new(alloc);
    hand(movements, &mut sink)?;
    Ok(sink.finish())
}

/// The retention list as of a business day of rows in memory: the closed matters that were not purged, in the order of
/// the slice. This is the plain way to ask for it; `RetentionSink` is for rows that arrive one at a time. The only
/// error is out of memory.
pub fn retention_list(
    alloc: Global,
    today: Day,
    rows: &[(MatterNo, MatterRow<'_>)],
) -> Result<Vec<RetentionLine>, AllocError>
    ensures { IfOk result (λ lines. lines.items ≡ retention_list today (in_memory rows.now [] [] [] [])) }
{
    let mut sink = RetentionSink::new(alloc, today);
    hand_rows(rows, &mut sink)?;
    Ok(sink.finish())
}
