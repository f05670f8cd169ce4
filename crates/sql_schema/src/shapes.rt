//! Shapes: what the tables, columns and indexes of a schema are compared with.

ghost use Rattle.std.specs.Prelude.{◌≡◌, [], ◌∷◌, IsTrue, map};
ghost use Rattle.sqlite_value.specs.Keys.{plain};
ghost use Rattle.sql_schema.specs.Schema.{reference_to};
ghost use Rattle.sql_schema.specs.Shapes.{one_if, column_of, table_of, index_of};

use sqlite_items::Items;
use sqlite_schema::schema::{Action, Column, Index, Kind, Reference, Table};
use sqlite_value::keys::{Collation, Order};
use sqlite_value::value::{Bytes, Value};

/// What a part of a schema is compared with: the part without what is the same in each of its kind. A `Table` owns its
/// names, so the code cannot have one as a literal; comparing with a shape does not allocate.
pub(crate) trait Shape {
    /// What it is the shape of.
    type Part;

    /// The part that has this shape.
    ghost shaped: { Self → Self.Part };

    /// Whether the part has this shape.
    fn is(&self, part: &Self::Part) -> bool
        ensures sound { IsTrue result → part.now ≡ shaped self.now }
        ensures complete { part.now ≡ shaped self.now → IsTrue result };
}

// Whether the parts have these shapes, one each and in order.
pub(crate) fn are_all<S: Shape>(parts: &[S::Part], shapes: &[S]) -> bool
    ensures sound { IsTrue result → parts.now ≡ map S.shaped shapes.now }
    ensures complete { parts.now ≡ map S.shaped shapes.now → IsTrue result }
{
    match (parts, shapes) {
        ([], []) => true,
        ([part, parts @ ..], [shape, shapes @ ..]) => shape.is(part) && are_all(parts, shapes),
        _ => false,
    }
}

/// What differs from column to column.
#[derive(Clone, Copy)]
pub struct ColumnShape<'a> {
    pub name: &'a [u8],
    pub kind: Kind,
    pub is_strict: bool,
    pub not_null: bool,
}

/// What differs from table to table.
#[derive(Clone, Copy)]
pub struct TableShape<'a> {
    pub name: &'a [u8],
    pub tree: u32,
    pub columns: &'a [ColumnShape<'a>],
    pub key: Option<usize>,
    pub primary: &'a [usize],
    /// Whether the primary key has an automatic index.
    pub is_indexed: bool,
    /// Whether the first column refers to the number of a row of another table.
    pub has_parent: bool,
    /// The name of that table, if there is one.
    pub parent: &'a [u8],
    pub is_counted: bool,
}

/// The index of a primary key of several columns.
#[derive(Clone, Copy)]
pub struct IndexShape<'a> {
    pub name: &'a [u8],
    pub tree: u32,
    pub table: u32,
    pub columns: &'a [usize],
}

fn is_name(name: &Bytes, wanted: &[u8]) -> bool
    ensures sound { IsTrue result → name.now ≡ wanted.now }
    ensures complete { name.now ≡ wanted.now → IsTrue result }
{
    name.as_slice() == wanted
}

fn are_places(places: &Items<usize>, wanted: &[usize]) -> bool
    ensures sound { IsTrue result → places.now ≡ wanted.now }
    ensures complete { places.now ≡ wanted.now → IsTrue result }
{
    places.as_slice() == wanted
}

fn are_uniques(uniques: &Items<Items<usize>>, wanted: &[usize], is_indexed: bool) -> bool
    ensures sound { IsTrue result → uniques.now ≡ one_if is_indexed wanted.now }
    ensures complete { uniques.now ≡ one_if is_indexed wanted.now → IsTrue result }
{
    match uniques.as_slice() {
        [] => !is_indexed,
        [places] => is_indexed && are_places(places, wanted),
        _ => false,
    }
}

fn are_orders(orders: &Items<Order>, is_indexed: bool) -> bool
    ensures sound { IsTrue result → orders.now ≡ one_if is_indexed plain }
    ensures complete { orders.now ≡ one_if is_indexed plain → IsTrue result }
{
    match orders.as_slice() {
        [] => !is_indexed,
        [order] => is_indexed && order.digits == 0,
        _ => false,
    }
}

fn is_one_name(names: &Items<Bytes>, wanted: &[u8]) -> bool
    ensures sound { IsTrue result → names.now ≡ wanted.now ∷ [] }
    ensures complete { names.now ≡ wanted.now ∷ [] → IsTrue result }
{
    match names.as_slice() {
        [name] => is_name(name, wanted),
        _ => false,
    }
}

fn is_reference_to(r: &Reference, parent: &[u8]) -> bool
    ensures sound { IsTrue result → r.now ≡ reference_to parent.now }
    ensures complete { r.now ≡ reference_to parent.now → IsTrue result }
{
    are_places(&r.columns, &[1])
        && is_name(&r.parent, parent)
        && is_one_name(&r.parent_columns, b"no")
        && r.on_delete == Action::NoAction
        && r.on_update == Action::NoAction
        && !r.is_deferred
}

fn are_references(references: &Items<Reference>, has_parent: bool, parent: &[u8]) -> bool
    ensures sound { IsTrue result → references.now ≡ one_if has_parent (reference_to parent.now) }
    ensures complete { references.now ≡ one_if has_parent (reference_to parent.now) → IsTrue result }
{
    match references.as_slice() {
        [] => !has_parent,
        [reference] => has_parent && is_reference_to(reference, parent),
        _ => false,
    }
}

impl Shape for ColumnShape<'_> {
    type Part = Column;

    ghost shaped = { column_of };

    fn is(&self, column: &Column) -> bool {
        column.kind == self.kind
            && column.is_strict == self.is_strict
            && column.not_null == self.not_null
            && is_name(&column.name, self.name)
            && column.collation == Collation::Binary
            && matches!(column.default, Value::Null)
    }
}

impl Shape for TableShape<'_> {
    type Part = Table;

    ghost shaped = { table_of };

    fn is(&self, table: &Table) -> bool {
        table.tree == self.tree
            && is_name(&table.name, self.name)
            && are_all(table.columns.as_slice(), self.columns)
            && table.key == self.key
            && are_places(&table.primary, self.primary)
            && are_uniques(&table.uniques, self.primary, self.is_indexed)
            && are_orders(&table.orders, self.is_indexed)
            && table.checks.roots.is_empty()
            && are_references(&table.references, self.has_parent, self.parent)
            && table.computed.is_empty()
            && table.stamps.places.is_empty()
            && table.stamps.terms.roots.is_empty()
            && table.stamps.formats.is_empty()
            && table.is_counted == self.is_counted
    }
}

impl Shape for IndexShape<'_> {
    type Part = Index;

    ghost shaped = { index_of };

    fn is(&self, index: &Index) -> bool {
        is_name(&index.name, self.name)
            && are_places(&index.columns, self.columns)
            && index.tree == self.tree
            && index.table == self.table
            && index.order.digits == 0
            && index.is_unique
    }
}
