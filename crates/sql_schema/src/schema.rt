//! Checks whether a schema is a book's.

ghost use Rattle.std.specs.Prelude.{◌≡◌, ◌↔◌, Some, IsTrue};
ghost use Rattle.sql_schema.specs.Bare.{bare_schema};
ghost use Rattle.sql_schema.specs.Old.{old_schema};
ghost use Rattle.sql_schema.specs.Schema.{book_schema};
ghost use Rattle.sql_schema.specs.Shapes.{schema_of};

use crate::layout::Layout;
use crate::shapes::{IndexShape, TableShape, are_all};
use crate::tables::{MADE_INDEXES, MADE_TABLES, MOVED_INDEXES, MOVED_TABLES};
use sqlite_schema::schema::Schema;

// Whether the schema has tables and indexes of these shapes, and nothing else.
fn is_of(schema: &Schema, tables: &[TableShape<'_>], indexes: &[IndexShape<'_>]) -> bool
    ensures sound { IsTrue result → schema.now ≡ schema_of tables.now indexes.now }
    ensures complete { schema.now ≡ schema_of tables.now indexes.now → IsTrue result }
{
    are_all(schema.tables.as_slice(), tables)
        && are_all(schema.indexes.as_slice(), indexes)
        && schema.views.is_empty()
}

/// The tables of a book.
#[derive(Clone, Copy)]
pub enum BookTables {
    /// Those of this version, in this layout.
    Now(Layout),
    /// The same without the trail, which came later.
    Bare(Layout),
    /// Those of version 1, which keeps matters, their seats and their entries in three other tables.
    Old,
}

/// Returns the tables of a book that the schema has, or `None` if it is not exactly a book's, down to the last column:
/// names, kinds, NOT NULL, keys, references and indexes, created in this order, with no view and nothing else. Does
/// not allocate.
#[tactic(auto, using(crate::proofs::Apart::apart))]
pub fn book_tables(schema: &Schema) -> Option<BookTables>
    ensures now { (l : Layout) → (result ≡ Some (BookTables.Now l)) ↔ (schema.now ≡ book_schema l) }
    ensures bare { (l : Layout) → (result ≡ Some (BookTables.Bare l)) ↔ (schema.now ≡ bare_schema l) }
    ensures old { (result ≡ Some BookTables.Old) ↔ (schema.now ≡ old_schema) }
{
    if is_of(schema, MADE_TABLES, MADE_INDEXES) {
        Some(BookTables::Now(Layout::Made))
    } else if is_of(schema, MOVED_TABLES, MOVED_INDEXES) {
        Some(BookTables::Now(Layout::Moved))
    } else if is_of(schema, &MADE_TABLES[..9], MADE_INDEXES) {
        Some(BookTables::Bare(Layout::Made))
    } else if is_of(schema, &MOVED_TABLES[..12], MOVED_INDEXES) {
        Some(BookTables::Bare(Layout::Moved))
    } else if is_of(schema, &MOVED_TABLES[..9], &MOVED_INDEXES[..4]) {
        // A moved book has the tables of version 1, and after them the three that replaced the old ones, and the trail.
        Some(BookTables::Old)
    } else {
        None
    }
}
