//! Laws over the definitions. Each is the contract of a function that does nothing.

ghost use Rattle.firm_audit.specs.Flaws.{FlawedIsUnsound};
ghost use Rattle.firm_audit.specs.Trails.{FlawedIsNoTrail};

/// A firm that has a flaw, other than one of a matter as it was read, is not sound.
pub fn flawed_is_unsound()
    ensures { FlawedIsUnsound }
{}

/// A firm whose trail has a flaw has not its trail.
pub fn flawed_is_no_trail()
    ensures { FlawedIsNoTrail }
{}
