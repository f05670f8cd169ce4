// The SQL script that moves the rows of version 1. Written by tools/moving-tables.

/// Creates the three new tables and the trail, copies the rows of the old three into the new, empties the old and sets
/// the version.
pub(crate) const COPYING: &str = "\
    CREATE TABLE matter_v2 (no INTEGER NOT NULL PRIMARY KEY, client TEXT NOT NULL, opened INTEGER \
    NOT NULL, closed INTEGER NOT NULL, last INTEGER NOT NULL, entries INTEGER NOT NULL, held INTEGER \
    NOT NULL, available INTEGER NOT NULL, disputed INTEGER NOT NULL, fees INTEGER NOT NULL, claims \
    INTEGER NOT NULL, pending INTEGER NOT NULL, purged INTEGER NOT NULL) STRICT; CREATE TABLE \
    seat_v2 (matter INTEGER NOT NULL REFERENCES matter_v2 (no), person TEXT NOT NULL, role INTEGER \
    NOT NULL, PRIMARY KEY (matter, person)) STRICT; CREATE TABLE entry_v2 (matter INTEGER NOT NULL \
    REFERENCES matter_v2 (no), no INTEGER NOT NULL, kind INTEGER NOT NULL, day INTEGER NOT NULL, \
    amount INTEGER NOT NULL, state INTEGER NOT NULL, fund INTEGER NOT NULL, of_no INTEGER NOT NULL, \
    text_a TEXT NOT NULL, text_b TEXT NOT NULL, text_c TEXT NOT NULL, day_done INTEGER NOT NULL, \
    day_undone INTEGER NOT NULL, day_bank INTEGER NOT NULL, bank_ref TEXT NOT NULL, part INTEGER NOT \
    NULL, left_now INTEGER NOT NULL, PRIMARY KEY (matter, no)) STRICT; CREATE TABLE trail (seq \
    INTEGER NOT NULL PRIMARY KEY AUTOINCREMENT, matter INTEGER NOT NULL, entry INTEGER NOT NULL, day \
    INTEGER NOT NULL, deed INTEGER NOT NULL, caller TEXT NOT NULL, text TEXT NOT NULL, number \
    INTEGER NOT NULL) STRICT; INSERT INTO matter_v2 (no, client, opened, closed, last, entries, \
    held, available, disputed, fees, claims, pending, purged) SELECT no, client, opened, closed, \
    last, entries, held, available, disputed, fees, claims, pending, 0 FROM matter ORDER BY no; \
    INSERT INTO seat_v2 (rowid, matter, person, role) SELECT rowid, matter, person, role FROM seat \
    ORDER BY rowid; INSERT INTO entry_v2 (rowid, matter, no, kind, day, amount, state, fund, of_no, \
    text_a, text_b, text_c, day_done, day_undone, day_bank, bank_ref, part, left_now) SELECT rowid, \
    matter, no, kind, day, amount, state, fund, of_no, text_a, text_b, text_c, day_done, day_undone, \
    day_bank, bank_ref, part, left_now FROM entry ORDER BY rowid; DELETE FROM entry; DELETE FROM \
    seat; DELETE FROM matter; UPDATE book SET version = 2";
