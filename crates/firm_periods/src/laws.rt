//! Laws over the definitions. Each is the contract of a function that does nothing.

ghost use Rattle.firm_periods.specs.Month.{MonthsAreParted};
ghost use Rattle.firm_periods.specs.Named.{AlwaysListedOnce, EachStandsInOne, MovesAreEvents, NamedAreKept, NamesAreOfTheirMatter, PeriodsAgree, WaitsAlwaysAgree};
ghost use Rattle.firm_periods.specs.Named.{PurgeChangesNoPeriodLeft, PurgeChangesNoWaitingLeft};
ghost use Rattle.firm_periods.specs.Approvals.{ApprovalsAreKept, PurgeChangesNoApprovalLeft};
ghost use Rattle.firm_periods.specs.Accounts.{AccountsAreCovered, ClosingIsLedger, ClosingIsNextOpening, ClosingsAreLines, ClosingsAreTotal, EntriesInOrder, OpeningIsBefore, WholeAccountIsOfRows};

use matter_rows::laws::sound_is_covered;

/// In a sound firm the receipts and the disbursements of a period add up to the change of the journal over it. What
/// waits for the bank adds up to the figures of the reconciliation.
pub fn periods_agree()
    ensures moves { MovesAreEvents }
    ensures change { PeriodsAgree }
    ensures waits { WaitsAlwaysAgree }
{}

/// What the sink stores of a firm is the list that it was made for.
pub fn named_are_kept()
    ensures { NamedAreKept }
{}

/// What the sink of approvals stores of a firm are the payments issued in its period, each with who approved it.
pub fn approvals_are_kept()
    ensures { ApprovalsAreKept }
{}

/// In a sound firm each movement of the journal is named once, and nothing else is.
pub fn listed_once()
    ensures { AlwaysListedOnce }
{}

/// Each movement of a period stands in its receipts or in its disbursements, once, and nothing else does.
pub fn each_stands_in_one()
    ensures { EachStandsInOne }
{}

/// In a sound firm each line names the client of its matter, or none if that was purged.
pub fn names_are_of_their_matter()
    ensures { NamesAreOfTheirMatter }
{}

/// Of a firm's rows, movements and own lines the sink of the packet stores, part by part, what each part's own sink
/// stores of them.
pub fn months_are_parted()
    ensures { MonthsAreParted }
{}

/// Purging a matter of a sound firm changes nothing of the receipts, the disbursements and the approvals of a period
/// if no purged matter was open in it, nor of what waits as of a day if none was open then.
pub fn purging_changes_no_period()
    ensures periods { PurgeChangesNoPeriodLeft }
    ensures approvals { PurgeChangesNoApprovalLeft }
    ensures waiting { PurgeChangesNoWaitingLeft }
{
    sound_is_covered();
}

/// The account of a whole matter is that of its rows. It opens with what the entries had moved before its first day. It
/// closes with the ledger as of its last day, with which the next period opens. The movements of each entry stand in
/// their own order. In a sound firm no balance on it is below zero.
pub fn accounts_agree()
    ensures whole { WholeAccountIsOfRows }
    ensures opening { OpeningIsBefore }
    ensures closing { ClosingIsLedger }
    ensures next { ClosingIsNextOpening }
    ensures order { EntriesInOrder }
    ensures covered { AccountsAreCovered }
{}

/// The accounts of all matters that are open as of a day, for a period that ends on it, close with the ledgers in the
/// list of the clients of that day. With the firm's own lines by the day they add up to its TOTAL.
pub fn closings_are_clients()
    ensures lines { ClosingsAreLines }
    ensures total { ClosingsAreTotal }
{}
