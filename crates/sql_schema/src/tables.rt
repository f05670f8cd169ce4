//! The shapes of a book's tables. Written by tools/book-tables.

use crate::shapes::{ColumnShape, IndexShape, TableShape};
use sqlite_schema::schema::Kind;

// A table like another, but for its tree, its name and its columns.
macro_rules! table {
    ($like:expr, $tree:literal, $name:literal: $($kind:ident $column:literal),*) => {
        TableShape {
            name: $name,
            tree: $tree,
            columns: &[$(ColumnShape {
                name: $column,
                kind: Kind::$kind,
                is_strict: true,
                not_null: true,
            }),*],
            ..$like
        }
    };
}

// The index of a table's primary key, which is made right after the table.
macro_rules! index {
    ($name:literal, $table:expr, $columns:expr) => {
        IndexShape {
            name: $name,
            tree: $table.tree + 1,
            table: $table.tree,
            columns: $columns,
        }
    };
}

// No key.
const PLAIN: TableShape<'static> = TableShape {
    name: b"",
    tree: 0,
    columns: &[],
    key: None,
    primary: &[],
    is_indexed: false,
    has_parent: false,
    parent: b"",
    is_counted: false,
};

// The first column numbers the rows.
const NUMBERED: TableShape<'static> = TableShape {
    key: Some(0),
    primary: &[0],
    ..PLAIN
};

// The same, with AUTOINCREMENT.
const COUNTED: TableShape<'static> = TableShape {
    is_counted: true,
    ..NUMBERED
};

// A primary key of the first two columns.
const KEYED: TableShape<'static> = TableShape {
    primary: &[1, 2],
    is_indexed: true,
    ..PLAIN
};

// A column of the database's own table of AUTOINCREMENT counts.
const LOOSE: ColumnShape<'static> = ColumnShape {
    name: b"",
    kind: Kind::Any,
    is_strict: false,
    not_null: false,
};

const BOOK: TableShape<'static> = table![
    PLAIN, 0, b"book": Integer b"version"
];

const OLD_MATTER: TableShape<'static> = table![
    NUMBERED, 1, b"matter": Integer b"no", Text b"client", Integer b"opened", Integer b"closed", Integer b"last",
    Integer b"entries", Integer b"held", Integer b"available", Integer b"disputed", Integer b"fees",
    Integer b"claims", Integer b"pending"
];

const OLD_SEAT: TableShape<'static> = TableShape {
    has_parent: true,
    parent: b"matter",
    ..table![
        KEYED, 2, b"seat": Integer b"matter", Text b"person", Integer b"role"
    ]
};

const OLD_ENTRY: TableShape<'static> = TableShape {
    has_parent: true,
    parent: b"matter",
    ..table![
        KEYED, 4, b"entry": Integer b"matter", Integer b"no", Integer b"kind", Integer b"day", Integer b"amount",
        Integer b"state", Integer b"fund", Integer b"of_no", Text b"text_a", Text b"text_b", Text b"text_c",
        Integer b"day_done", Integer b"day_undone", Integer b"day_bank", Text b"bank_ref", Integer b"part",
        Integer b"left_now"
    ]
};

const MATTER: TableShape<'static> = table![
    NUMBERED, 1, b"matter_v2": Integer b"no", Text b"client", Integer b"opened", Integer b"closed",
    Integer b"last", Integer b"entries", Integer b"held", Integer b"available", Integer b"disputed",
    Integer b"fees", Integer b"claims", Integer b"pending", Integer b"purged"
];

const SEAT: TableShape<'static> = TableShape {
    name: b"seat_v2",
    parent: b"matter_v2",
    ..OLD_SEAT
};

const ENTRY: TableShape<'static> = TableShape {
    name: b"entry_v2",
    parent: b"matter_v2",
    ..OLD_ENTRY
};

const JOURNAL: TableShape<'static> = table![
    COUNTED, 6, b"journal": Integer b"seq", Integer b"matter", Integer b"entry", Integer b"day", Integer b"amount"
];

const FIRM_LINE: TableShape<'static> = table![
    COUNTED, 8, b"firm_line": Integer b"seq", Integer b"day", Text b"bank_ref", Integer b"amount", Text b"text"
];

const EXCEPTION: TableShape<'static> = TableShape {
    primary: &[1, 2, 3, 4, 5],
    ..table![
        KEYED, 9, b"exception": Integer b"day", Text b"reference", Text b"bank_ref", Integer b"amount", Text b"text"
    ]
};

const BALANCE: TableShape<'static> = table![
    KEYED, 11, b"balance": Integer b"kind", Integer b"day", Integer b"amount"
];

const ACT: TableShape<'static> = table![
    COUNTED, 13, b"trail": Integer b"seq", Integer b"matter", Integer b"entry", Integer b"day", Integer b"deed",
    Text b"caller", Text b"text", Integer b"number"
];

const SEQUENCE: TableShape<'static> = TableShape {
    name: b"sqlite_sequence",
    tree: 7,
    columns: &[
        ColumnShape {
            name: b"name",
            ..LOOSE
        },
        ColumnShape {
            name: b"seq",
            ..LOOSE
        },
    ],
    ..PLAIN
};

pub(crate) const MADE_TABLES: &[TableShape<'static>] = &[
    BOOK, MATTER, SEAT, ENTRY, JOURNAL, SEQUENCE, FIRM_LINE, EXCEPTION, BALANCE, ACT,
];

pub(crate) const MADE_INDEXES: &[IndexShape<'static>] = &[
    index!(b"sqlite_autoindex_seat_v2_1", SEAT, &[1, 2]),
    index!(b"sqlite_autoindex_entry_v2_1", ENTRY, &[1, 2]),
    index!(b"sqlite_autoindex_exception_1", EXCEPTION, &[1, 2, 3, 4, 5]),
    index!(b"sqlite_autoindex_balance_1", BALANCE, &[1, 2]),
];

const MOVED_MATTER: TableShape<'static> = TableShape { tree: 13, ..MATTER };

const MOVED_SEAT: TableShape<'static> = TableShape { tree: 14, ..SEAT };

const MOVED_ENTRY: TableShape<'static> = TableShape { tree: 16, ..ENTRY };

const MOVED_ACT: TableShape<'static> = TableShape { tree: 18, ..ACT };

pub(crate) const MOVED_TABLES: &[TableShape<'static>] = &[
    BOOK,
    OLD_MATTER,
    OLD_SEAT,
    OLD_ENTRY,
    JOURNAL,
    SEQUENCE,
    FIRM_LINE,
    EXCEPTION,
    BALANCE,
    MOVED_MATTER,
    MOVED_SEAT,
    MOVED_ENTRY,
    MOVED_ACT,
];

pub(crate) const MOVED_INDEXES: &[IndexShape<'static>] = &[
    index!(b"sqlite_autoindex_seat_1", OLD_SEAT, &[1, 2]),
    index!(b"sqlite_autoindex_entry_1", OLD_ENTRY, &[1, 2]),
    index!(b"sqlite_autoindex_exception_1", EXCEPTION, &[1, 2, 3, 4, 5]),
    index!(b"sqlite_autoindex_balance_1", BALANCE, &[1, 2]),
    index!(b"sqlite_autoindex_seat_v2_1", MOVED_SEAT, &[1, 2]),
    index!(b"sqlite_autoindex_entry_v2_1", MOVED_ENTRY, &[1, 2]),
];
