//! Laws over the definitions. Each is the contract of a function that does nothing.

ghost use Rattle.firm_figures.specs.Clients.{LedgersAsOfCovered};
ghost use Rattle.figure_laws.specs.Agree.{AlwaysAgree, ClientsAlwaysAgree, LedgersAsOfAreMoved, ListedAreOpen, ListsAlwaysAgree};
ghost use Rattle.figure_laws.specs.Kept.{FiguresFit, FiguresKept, FiguresTold, IssuedIsKept, ListsKept, OpeningsKept, ReconciliationIsKept};
ghost use Rattle.figure_laws.specs.Kept.{ClientsAreKept, ClientsTotalIsKept, JournalIsKept, RetentionIsKept, TotalIsKept, TrialIsKept};
ghost use Rattle.figure_laws.specs.OfLists.{SinksGiveTheSame};
ghost use Rattle.figure_laws.specs.Purging.{PurgeChangesNoClientLeft, PurgeChangesNoFigure, PurgeChangesNoFigureLeft, PurgeChangesNoList, PurgeChangesNoListLeft};

use matter_rows::laws::sound_is_covered;

/// In a sound firm, as of any day, the journal equals the ledgers, and the difference to the bank is made up of the
/// exceptions, what came early, and the gap, whatever the closing balance.
pub fn figures_agree()
    ensures { AlwaysAgree }
{}

/// What a reconciler stores from a firm's rows gives the firm's figures, if each fits 128 bits.
pub fn reconciler_keeps_figures()
    ensures kept { FiguresKept }
    ensures fit { FiguresFit }
    ensures told { FiguresTold }
{}

/// What a lister stores from a firm's rows and exceptions is the firm's lists as of the day.
pub fn lister_keeps_lists()
    ensures { ListsKept }
{}

/// What is stored from a firm's balances gives the openings that differ from the closing before them.
pub fn openings_are_kept()
    ensures { OpeningsKept }
{}

/// What a reconciliation's sink stores from a sound, countable firm gives its reconciliation, and whether a matter that
/// was closed after the day was purged.
pub fn reconciliation_is_kept()
    ensures { ReconciliationIsKept }
{}

/// The payments stored from a firm's rows are those issued on or before the day, and not voided by then.
pub fn issued_is_kept()
    ensures { IssuedIsKept }
{}

/// Purging a matter of a sound firm changes no figure of the day on which it was closed or of a later day, and none of
/// the lists of deposits in transit, outstanding payments, what came early, and exceptions. The same is true of each
/// day whose records are complete afterwards, that is, if no purged matter was closed after it.
pub fn purging_changes_no_figure()
    ensures figures { PurgeChangesNoFigure }
    ensures lists { PurgeChangesNoList }
    ensures figures_left { PurgeChangesNoFigureLeft }
    ensures lists_left { PurgeChangesNoListLeft }
{
    sound_is_covered();
}

/// In a sound firm no running sum of the journal is negative, and the last one is the trial balance's TOTAL.
pub fn lists_agree()
    ensures { ListsAlwaysAgree }
{
    sound_is_covered();
}

/// The trial balance lists only open matters.
pub fn listed_are_open()
    ensures { ListedAreOpen }
{}

/// What the journal's sink stores from countable movements is the journal.
pub fn journal_is_kept()
    ensures { JournalIsKept }
{}

/// What the trial balance's sink stores from an ordered, countable firm is the open matters with their ledgers, and the
/// firm's own balance. If the firm is sound, they add up to TOTAL.
pub fn trial_is_kept()
    ensures lines { TrialIsKept }
    ensures total { TotalIsKept }
{}

/// What the retention sink stores from a firm's rows is the retention list.
pub fn retention_is_kept()
    ensures { RetentionIsKept }
{}

/// Of all rows of a sound, countable firm, `finish` of the four sinks gives what `reconcile_at`, `trial_balance`,
/// `journal_list` and `retention_list` give of the same rows in memory.
pub fn sinks_give_the_same()
    ensures { SinksGiveTheSame }
{}

/// In a sound firm, as of any day, the list of the clients' ledgers adds up to the ledgers and to the journal, and no
/// ledger is below zero.
pub fn clients_agree()
    ensures agree { ClientsAlwaysAgree }
    ensures covered { LedgersAsOfCovered }
    ensures moved { LedgersAsOfAreMoved }
    ensures purged { PurgeChangesNoClientLeft }
{
    sound_is_covered();
}

/// What the sink of the list of clients keeps of an ordered, countable firm is the list. If the firm is sound, its
/// lines add up to TOTAL.
pub fn clients_are_kept()
    ensures lines { ClientsAreKept }
    ensures total { ClientsTotalIsKept }
{
    sound_is_covered();
}
