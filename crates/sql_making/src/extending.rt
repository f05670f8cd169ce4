// The SQL statement that adds the trail to a book that has none. Written by tools/book-tables.

/// Creates the trail, without rows.
pub(crate) const EXTENDING: &str = "\
    CREATE TABLE trail (seq INTEGER NOT NULL PRIMARY KEY AUTOINCREMENT, matter INTEGER NOT NULL, \
    entry INTEGER NOT NULL, day INTEGER NOT NULL, deed INTEGER NOT NULL, caller TEXT NOT NULL, text \
    TEXT NOT NULL, number INTEGER NOT NULL) STRICT";
