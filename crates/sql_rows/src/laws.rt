//! Laws over the definitions. Each is the contract of a function that does nothing.

ghost use Rattle.sql_rows.specs.Scripts.{LineScriptsAreMeant, ScriptsAreMeant};
ghost use Rattle.sql_rows.specs.Standing.{DismissalsReadBack, EmptyTablesStand, EntriesReadBack};

use firm_rows::laws::firm_stays_sound;

/// Tables without rows stand for the firm without rows, which is sound.
#[tactic(auto, using(crate::proofs::Empty::empty_stands))]
pub fn empty_tables_stand()
    ensures { EmptyTablesStand }
{}

/// An entry read back from its columns is the one that was written, with its number and the amount left of it.
#[tactic(auto, using(crate::proofs::Back::entries_back))]
pub fn entries_read_back()
    ensures { EntriesReadBack }
{}

/// A dismissal read back from its columns is the one that was written, its day and its whole line: no two lines have
/// the same text.
#[tactic(auto, using(crate::proofs::Dismissals::dismissals_back))]
pub fn dismissals_read_back()
    ensures { DismissalsReadBack }
{}

/// The script for a bank line that is repeated, matches nothing or is dismissed, for a line of the firm's own, and for
/// a balance leaves tables that stand for the firm after the change, which is sound.
#[tactic(auto, using(crate::proofs::LineScripts::line_scripts))]
pub fn line_scripts_are_meant()
    ensures { LineScriptsAreMeant }
{
    firm_stays_sound();
}

/// The script for any change of the firm leaves tables that stand for the firm after the change, which is sound.
#[tactic(auto, using(crate::proofs::ScriptsMeant::scripts_meant))]
pub fn scripts_are_meant()
    ensures { ScriptsAreMeant }
{
    firm_stays_sound();
}
