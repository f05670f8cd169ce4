// Limits used by both code and specs.

/// The greatest length of a sheet or of a bank's statement, in bytes.
pub const MAX_FILE_BYTES: usize = 4_194_304;

/// The greatest length of a person's name, in bytes.
pub const MAX_PERSON: usize = 32;

/// The greatest length of a label, in bytes.
pub const MAX_LABEL: usize = 80;

/// The greatest length of a reference on a bank line, in bytes.
pub const MAX_BANK_TEXT: usize = 64;

/// The greatest length of a bank line's text, in bytes.
pub const MAX_LINE_TEXT: usize = 1_000;
