//! Laws over the definitions. Each is the contract of a function that does nothing.

ghost use Rattle.cashier.specs.Sheet.{OwnRecordsAlone};

/// The lines that a sheet prints for the records of one matter depend only on its rows and these records.
pub fn own_records_alone()
    ensures { OwnRecordsAlone }
{}
