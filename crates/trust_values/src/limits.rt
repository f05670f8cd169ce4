// Limits used by both code and specs.

/// The greatest amount, in cents: 999999999.99 dollars.
pub const MAX_AMOUNT: u64 = 99_999_999_999;

/// The greatest amount that a bank writes, positive or negative, in cents: sixteen digits before the point.
pub const MAX_BANK_AMOUNT: u64 = 999_999_999_999_999_999;

/// The highest matter number.
pub const MAX_MATTER: u32 = 999_999;

/// The highest entry number of a matter, and so the most entries that a matter has.
pub const MAX_ENTRY: u16 = 9_999;

/// The first year of a business or civil day.
pub const MIN_YEAR: u32 = 2000;

/// The last year of a business day.
pub const MAX_YEAR: u32 = 2199;

/// The last year of a civil day counted forward from a business day.
pub const MAX_CIVIL_YEAR: u32 = 9999;

/// The years for which the records of a closed matter are kept (ABA Model Rule 1.15(a)).
pub const YEARS_KEPT: u32 = 5;
