//! A law over the definitions. It is the contract of a function that does nothing.

ghost use Rattle.matter_parts.specs.Audit.{WholeIsSound};

/// A matter that is the whole of sound rows passes the test.
pub fn whole_is_sound()
    ensures { WholeIsSound }
{}
