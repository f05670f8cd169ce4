// A limit used by both code and specs.

/// The most of its own money that the firm keeps in the account, in cents: 500.00 dollars.
pub const MAX_OWN: u64 = 50_000;
