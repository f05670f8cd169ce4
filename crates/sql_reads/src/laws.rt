//! A law over the definitions: the contract of a function that does nothing.

ghost use Rattle.sql_reads.specs.Parts.{PartsAreWhole};

/// If the rows stand for those of a sound firm, what the tables hold of a matter is all of it, with its totals.
pub fn parts_are_whole()
    ensures { PartsAreWhole }
{}
