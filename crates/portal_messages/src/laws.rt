//! Laws of the messages. Each is the contract of a function that does nothing.

ghost use Rattle.portal_messages.specs.Messages.{OneReading};

/// A stream of bytes has exactly one list of messages and one end.
pub fn one_reading()
    ensures { OneReading }
{}
