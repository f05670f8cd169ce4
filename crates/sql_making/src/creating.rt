// The SQL script that creates the tables, and their version. Written by tools/book-tables.

/// The version of the tables.
pub(crate) const VERSION: i64 = 2;

/// Creates the tables and the version row. The order of creation fixes the layout.
pub(crate) const CREATING: &str = "\
    CREATE TABLE book (version INTEGER NOT NULL) STRICT; CREATE TABLE matter_v2 (no INTEGER NOT NULL \
    PRIMARY KEY, client TEXT NOT NULL, opened INTEGER NOT NULL, closed INTEGER NOT NULL, last \
    INTEGER NOT NULL, entries INTEGER NOT NULL, held INTEGER NOT NULL, available INTEGER NOT NULL, \
    disputed INTEGER NOT NULL, fees INTEGER NOT NULL, claims INTEGER NOT NULL, pending INTEGER NOT \
    NULL, purged INTEGER NOT NULL) STRICT; CREATE TABLE seat_v2 (matter INTEGER NOT NULL REFERENCES \
    matter_v2 (no), person TEXT NOT NULL, role INTEGER NOT NULL, PRIMARY KEY (matter, person)) \
    STRICT; CREATE TABLE entry_v2 (matter INTEGER NOT NULL REFERENCES matter_v2 (no), no INTEGER NOT \
    NULL, kind INTEGER NOT NULL, day INTEGER NOT NULL, amount INTEGER NOT NULL, state INTEGER NOT \
    NULL, fund INTEGER NOT NULL, of_no INTEGER NOT NULL, text_a TEXT NOT NULL, text_b TEXT NOT NULL, \
    text_c TEXT NOT NULL, day_done INTEGER NOT NULL, day_undone INTEGER NOT NULL, day_bank INTEGER \
    NOT NULL, bank_ref TEXT NOT NULL, part INTEGER NOT NULL, left_now INTEGER NOT NULL, PRIMARY KEY \
    (matter, no)) STRICT; CREATE TABLE journal (seq INTEGER NOT NULL PRIMARY KEY AUTOINCREMENT, \
    matter INTEGER NOT NULL, entry INTEGER NOT NULL, day INTEGER NOT NULL, amount INTEGER NOT NULL) \
    STRICT; CREATE TABLE firm_line (seq INTEGER NOT NULL PRIMARY KEY AUTOINCREMENT, day INTEGER NOT \
    NULL, bank_ref TEXT NOT NULL, amount INTEGER NOT NULL, text TEXT NOT NULL) STRICT; CREATE TABLE \
    exception (day INTEGER NOT NULL, reference TEXT NOT NULL, bank_ref TEXT NOT NULL, amount INTEGER \
    NOT NULL, text TEXT NOT NULL, PRIMARY KEY (day, reference, bank_ref, amount, text)) STRICT; \
    CREATE TABLE balance (kind INTEGER NOT NULL, day INTEGER NOT NULL, amount INTEGER NOT NULL, \
    PRIMARY KEY (kind, day)) STRICT; CREATE TABLE trail (seq INTEGER NOT NULL PRIMARY KEY \
    AUTOINCREMENT, matter INTEGER NOT NULL, entry INTEGER NOT NULL, day INTEGER NOT NULL, deed \
    INTEGER NOT NULL, caller TEXT NOT NULL, text TEXT NOT NULL, number INTEGER NOT NULL) STRICT; \
    INSERT INTO book (version) VALUES (2)";
