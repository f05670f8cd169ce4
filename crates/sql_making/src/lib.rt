//! Making a book's tables in an empty database, and taking a database that already has them. A book of version 1 is
//! moved into the tables of this version, and one of this version that has no trail is given one.
//!
//! # What is promised
//!
//! By public call, with the clauses of its contract in brackets.
//!
//! - `make`, `adopt`, `version_of`: the tables without rows in an empty database, all or none, and settled; the layout
//!   of a database that has them, taken as it is; its version. What is no book is refused and kept as it was. After an
//!   Ok the connection is open (`serves`).
//! - `sql_making::adopt`: a book of version 1 becomes one of this version, settled, in a database that lists what it
//!   holds: if its tables stood for records, the new ones stand for the same, row by row, and the old three are empty;
//!   the tables that both have keep their rows. A book of this version without the trail gets one, without rows, and no
//!   row of another table changes (`taken`, `listed`). All of it or nothing: after an error that leaves the connection
//!   open all is as it was (`kept`), and what a crash may leave is what it might have left before, or, of a book of
//!   version 1 alone, the moved tables, or, of one without the trail alone, the same with it (`crash`). A book of this
//!   version with the trail is taken as it is; NotABook only of a database that is none of the three (`refused`); if
//!   nothing has to be moved or added, Store only if the store failed (`store`).
//!
//! For which firm these rows stand, `sql_rows` defines.
#![tactic(auto)]

mod copying;
mod creating;
mod extending;
mod making;
mod scripts;
mod taking;

pub use making::make;
pub use taking::{OpenFault, adopt, version_of};
