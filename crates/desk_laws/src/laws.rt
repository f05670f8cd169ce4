//! Laws of whole runs. Each is the contract of a function that does nothing.

ghost use Rattle.trust_desk.specs.Isolation.{EachMatterOwn, SameByRowsAlone, SameForTheMatter};
ghost use Rattle.trust_desk.specs.FirmStep.{SoundRunsAreRuns};
ghost use Rattle.trust_desk.specs.NeverBelowZero.{NeverBelowZero, RunsNeverBelowZero};
ghost use Rattle.desk_laws.specs.Counts.{EveryItemIsCounted};
ghost use Rattle.desk_laws.specs.Matching.{FilledLinesAreApplied, FilledLinesAreInBook, SecondMatchFillsNothing};
ghost use Rattle.desk_laws.specs.Dismissed.{DismissedOnce, DismissingMovesNothing, RunsKeepDismissals, StepsKeepDismissals};
ghost use Rattle.desk_laws.specs.OnceOnly.{BalanceOnce, FirmLineOnce, LineOnceOnly, OnceOnly};
ghost use Rattle.desk_laws.specs.Purging.{PurgingChangesNoClient, PurgingChangesNoFigure};
ghost use Rattle.desk_laws.specs.ReasonsTold.{ReasonsAreVerdicts};
ghost use Rattle.desk_laws.specs.ToldOwn.{EachIsToldOwn};
ghost use Rattle.desk_laws.specs.Statuses.{RefusalsHaveTheirStatus};

/// In every run, each matter's replies, and its rows and acts afterwards, are those of its own machine.
#[tactic(auto, using(trust_desk::proofs::Own::own_laws))]
pub fn own_machine()
    ensures { EachMatterOwn }
{}

/// Two firms with the same rows and acts of a matter, which hear the same for it, give it the same replies and leave it
/// with the same rows and acts, whatever else they have and hear. Where nobody asks for the acts, the rows alone decide
/// the replies and the rows.
#[tactic(auto, using(trust_desk::proofs::Own::own_laws))]
pub fn two_firms()
    ensures whole { SameForTheMatter }
    ensures rows { SameByRowsAlone }
{}

/// Whatever a person asks of the desk, two firms that agree on the matters in which the person has a seat, and on the
/// acts of such a matter where these are asked for, give the same reply.
pub fn each_is_told_own()
    ensures { EachIsToldOwn }
{}

/// What an import would count an exception as is what its reason says: applied, repeated, or an exception still.
pub fn reasons_are_verdicts()
    ensures { ReasonsAreVerdicts }
{}

/// A sound firm is sound after every step and every item of an import, and no matter's ledger is ever below zero. This
/// holds in each run of the desk, whatever amounts are asked for and whatever stopped its steps, and in the firm's own
/// steps.
#[tactic(auto, using(trust_desk::proofs::AlwaysCovered::covered_laws))]
pub fn never_below_zero()
    ensures runs { RunsNeverBelowZero }
    ensures steps { NeverBelowZero }
{}

/// A run in which the firm is sound after each step is a run, so the other laws apply to it.
#[tactic(auto, using(trust_desk::proofs::Runs::run_laws))]
pub fn sound_runs_are_runs()
    ensures { SoundRunsAreRuns }
{}

/// A reply whose body is a refusal has the refusal's status, even if the store failed or memory ran out.
pub fn refusals_have_their_status()
    ensures { RefusalsHaveTheirStatus }
{}

/// An ask that makes an entry adds at most one, and a bank line that names an entry is applied at most once, however
/// often they are sent. What comes again leaves no act.
pub fn once_only()
    ensures asks { OnceOnly }
    ensures lines { LineOnceOnly }
{}

/// A line of the firm's own is applied at most once, however often it is sent. After that it is a repeat.
pub fn firm_line_once()
    ensures { FirmLineOnce }
{}

/// An opening or closing balance is applied at most once for its day, however often it is sent, and then stays on file.
/// Another of the same amount is a repeat, and one of another amount is an exception.
pub fn balance_once()
    ensures { BalanceOnce }
{}

/// Each item of an import is counted exactly once: as applied, repeated, an exception or unreadable.
pub fn every_item_is_counted()
    ensures { EveryItemIsCounted }
{}

/// Purging a matter of a sound firm at the desk changes no figure and no list of a day whose records are complete
/// afterwards, that is, no purged matter was closed after it. It changes no client's ledger as of a day, if no purged
/// matter was open as of it.
pub fn purging_changes_no_figure()
    ensures figures { PurgingChangesNoFigure }
    ensures clients { PurgingChangesNoClient }
{}

/// Dismissing a line from the exceptions moves nothing: the rows of all matters, the journal, the firm's own lines, the
/// balances and the acts are unchanged, whether it is dismissed or refused.
#[tactic(auto, using(crate::proofs::DismissedLines::dismissed_laws))]
pub fn dismissing_moves_nothing()
    ensures { DismissingMovesNothing }
{}

/// A dismissed line is not an exception any more. Dismissing it again is refused.
pub fn dismissed_once()
    ensures { DismissedOnce }
{}

/// What is dismissed is kept. A step of the firm adds the line that it dismisses, with the business day, behind the
/// dismissals that are there; no step takes one out, a purge neither. After all runs on whatever days, whatever stopped
/// their steps, the dismissals are those that were there, and behind them, in order and each with its day, the line of
/// each request to dismiss whose reply is no refusal.
pub fn dismissals_are_kept()
    ensures steps { StepsKeepDismissals }
    ensures runs { RunsKeepDismissals }
{}

/// Each line that a match writes and that had no reference of its own is applied if the output is imported on the same
/// day into the sound firm over which it was matched, whatever was written before it and whatever became of that.
#[tactic(auto, using(crate::proofs::FilledLines::filled_lines_are_applied))]
pub fn filled_lines_are_applied()
    ensures { FilledLinesAreApplied }
{}

/// Such a line is in the book already if the same lines are matched again after that import, on any day. It is neither
/// filled nor written a second time.
pub fn filled_lines_are_in_book()
    ensures { FilledLinesAreInBook }
{}

/// If no line has a reference, a second match of the same lines after that import, on the same day, fills nothing.
#[tactic(auto, using(crate::proofs::SecondMatch::second_match_fills_nothing))]
pub fn second_match_fills_nothing()
    ensures { SecondMatchFillsNothing }
{}
