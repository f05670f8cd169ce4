//! Laws about what a stop leaves of a book. Each is the contract of a function that does nothing.

ghost use Rattle.firm_rows.specs.Firm.{Firm};
ghost use Rattle.sql_book.specs.Stops.{BooksAreTaken, StopsAreTaken, StopsInExtendingLeaveBooks, StopsInMakingLeaveBooks, StopsInMovingLeaveBooks, StopsLeaveBooks};

use sql_rows::laws::empty_tables_stand;
use sqlite::Alter;

/// If a book stands for a sound firm and a run stops during any call, then opening the files again finds a book:
/// `SqlBook::adopt` does not return `NotABook`. Its tables stand for the rows of a sound firm, among those that the
/// call says a crash may leave: the rows before it or after it, and only those after it if the call was acknowledged.
#[tactic(auto, using(crate::proofs::Stops::leaves_book))]
pub fn stops_leave_books<S: Alter + Drop, T: Alter + Drop>()
    ensures { StopsLeaveBooks S.Store T.Store }
{}

/// The book that is then taken stands, lasts and is settled. So what is promised for the calls of such a book holds
/// in the next run without further premises.
pub fn stops_are_taken<S: Alter + Drop, T: Alter + Drop>()
    ensures { StopsAreTaken S.Store T.Store }
{}

/// A stop in `SqlBook::make` leaves what was there before, or a book without rows, which can be taken.
pub fn stops_in_making_leave_books<T: Alter + Drop>()
    ensures { StopsInMakingLeaveBooks T.Store }
{
    empty_tables_stand();
}

/// If a run stops while it takes a version 1 database whose tables stand for a sound firm, opening the files again
/// finds that database, or a book of this version whose tables stand for the same firm. `SqlBook::adopt` does not
/// return `NotABook`.
pub fn stops_in_moving_leave_books<T: Alter + Drop>()
    ensures { StopsInMovingLeaveBooks T.Store }
{}

/// If a run stops while it takes a book of this version without the trail whose tables stood for a sound firm, opening
/// the files again finds that book, or one with the trail whose tables stand for the same firm. `SqlBook::adopt` does
/// not return `NotABook`.
pub fn stops_in_extending_leave_books<T: Alter + Drop>()
    ensures { StopsInExtendingLeaveBooks T.Store }
{}

/// If the tables of a database of either version, with the trail or without, stand for a sound firm, the book taken
/// from it stands for that firm, lasts and is settled. So what is promised for the calls of such a book holds without
/// further premises.
pub fn books_are_taken<T: Alter + Drop>()
    ensures { (firm : Firm) → BooksAreTaken T.Store firm }
{}
