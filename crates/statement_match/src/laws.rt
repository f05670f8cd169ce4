//! Laws over the definitions. Each is the contract of a function that does nothing.

ghost use Rattle.statement_match.specs.FirmLaws.{FilledWaits, NoneIsNamedTwiceByFirms, OtherMattersOnlyTakeAway};
ghost use Rattle.statement_match.specs.FirmLaws.{WaitApart};
ghost use Rattle.statement_match.specs.Laws.{FillsWhatIsSure, FillsWithWaiting, MoreOnlyTakesAway, NoneIsNamedTwice};
ghost use Rattle.statement_match.specs.Laws.{OnlyReferencesChange, TwoEntriesAreLeft, TwoLinesAreLeft, WritesWhatIsSure};
ghost use Rattle.statement_match.specs.StatementLaws.{HasLinesWritten, IsImported, ReadsBack};

/// A line is filled with an entry exactly if it is sure: the line has no reference, is not in the book already and is
/// not doubled; the book has no line beside it; it fits that entry and no other; no other open line fits the entry; and
/// no record has the entry's reference. Of a line without a reference nothing else is ever written.
pub fn what_is_sure_is_filled()
    ensures filled { FillsWhatIsSure }
    ensures written { WritesWhatIsSure }
{}

/// A line is only filled with an entry that waits for the bank and that the line fits.
pub fn filled_entries_wait()
    ensures { FillsWithWaiting }
{}

/// Lookalikes are never filled: neither a line that two entries fit, nor one that fits an entry which another open line
/// fits.
pub fn two_alike_are_left()
    ensures entries { TwoEntriesAreLeft }
    ensures lines { TwoLinesAreLeft }
{}

/// The output has the lines with a reference, each unchanged, and those without one that are sure of an entry, each
/// with the reference of that entry and otherwise unchanged. They keep their order.
pub fn only_references_change()
    ensures { OnlyReferencesChange }
{}

/// If no two entries share a reference, the reference that a line is filled with is not on any other line of the
/// output. Entries share none in a sound firm whose matters have valid numbers: no two of its waiting entries have the
/// same reference.
pub fn none_is_named_twice()
    ensures held { NoneIsNamedTwice }
    ensures apart { WaitApart }
    ensures over_firms { NoneIsNamedTwiceByFirms }
{}

/// Suppose a line is filled, and fits an entry among a part of the waiting entries. Then it is filled with the same
/// reference if only that part waits, and only a part of the booked lines is booked. So what others have can only take
/// a filling away.
pub fn more_only_takes_away()
    ensures { MoreOnlyTakesAway }
{}

/// The reference that a line is filled with over a firm is that of a held deposit or an issued payment. It is never
/// `FIRM` or a balance, and never a return.
pub fn filled_waits()
    ensures { FilledWaits }
{}

/// Other matters' rows can only take a filling away. If a line is filled over a firm, and fits an entry of a matter, it
/// is filled with the same reference over that firm with the rows of some matters only, if that matter is one of them.
pub fn other_matters_only_take_away()
    ensures { OtherMattersOnlyTakeAway }
{}

/// The statement that is written is read back as the header and the records that were written, field by field. An
/// import reads the items of these.
pub fn what_is_written_is_read()
    ensures records { ReadsBack }
    ensures items { IsImported }
{}

/// The lines of the written statement are what is written of each line, in order, if the reference of each entry that
/// waits is one that a record can have.
pub fn lines_are_written()
    ensures { HasLinesWritten }
{}
