//! Laws over the definitions. Each is the contract of a function that does nothing.

ghost use Rattle.trail_replay.specs.Follows.{ReplayedFollows, MisfitIsNotReplayed, ReplayedIsSigned};

/// A dossier is replayed exactly if each act in turn follows from the rows that those before it made, and all make its
/// rows. If an act does not follow, the dossier is not replayed. A replayed dossier of sound rows is signed.
pub fn replayed_is_followed()
    ensures follows { ReplayedFollows }
    ensures misfit { MisfitIsNotReplayed }
    ensures signed { ReplayedIsSigned }
{}
