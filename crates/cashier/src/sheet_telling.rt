// Remarks about the records of a sheet as they are run.

use crate::file_line::line_of;
use crate::sighting::{EMPTY_MARK, Seen, Sighting, marked};
use cashier_remarks::{
    RefusedRecord, Remark, Remarks, caution_on, caution_on_number, payment_number,
};
use csv::ByteRecord;
use day_sheet::field_bytes;
use std::cell::RefCell;
use trust_desk::{Body, Reply};

/// Reports about the records of a sheet as it is run.
#[derive(Drop)]
pub struct SheetTelling<'a, M> {
    // The bytes of the sheet.
    sheet: &'a [u8],
    // Receives the remarks.
    remarks: &'a M,
    // The payments with a number that were proposed last.
    payments: RefCell<Seen>,
}

// Makes the marks of a payment that a record proposes by a check or another instrument with a number. None if it does
// not.
fn payment_in(line: u64, row: &ByteRecord) -> Option<Sighting> {
    let number = payment_number(row)?;
    let matter = marked(EMPTY_MARK, field_bytes(row, 1));
    Some(Sighting {
        line,
        name: marked(matter, field_bytes(row, 2)),
        mark: marked(EMPTY_MARK, number),
    })
}

// The line of the payment that was proposed before by the number of this accepted one. Notes this one.
fn same_number(payments: &RefCell<Seen>, line: u64, row: &ByteRecord) -> Option<u64> {
    let payment = payment_in(line, row)?;
    let Ok(mut payments) = payments.try_borrow_mut() else {
        return None;
    };
    let same = payments.same(&payment);
    payments.take(payment);
    match same {
        Some(before) if before.name != payment.name => Some(before.line),
        Some(_) | None => None,
    }
}

impl<'a, M: Remarks> SheetTelling<'a, M> {
    /// Makes it for a sheet with these bytes.
    pub fn new(sheet: &'a [u8], remarks: &'a M) -> SheetTelling<'a, M> {
        SheetTelling {
            sheet,
            remarks,
            payments: RefCell::new(Seen::new()),
        }
    }

    // Makes the remarks, if any, about an accepted record that begins on a line, and `rest` is the sheet from there.
    fn tell_accepted(&self, row: &ByteRecord, line: u64, rest: &[u8]) {
        if let Some(told) = caution_on(row, rest) {
            self.remarks.tell(&Remark::Accepted { line, told });
        }
        if let Some(before) = same_number(&self.payments, line, row) {
            let told = caution_on_number(row, before);
            self.remarks.tell(&Remark::Accepted { line, told });
        }
    }

    /// Makes the remarks, if any, about a record with this reply.
    pub fn tell(&self, row: &ByteRecord, reply: &Reply) {
        let (line, rest) = line_of(self.sheet, row);
        match &reply.body {
            Body::Json(_) | Body::Text(_) => self.tell_accepted(row, line, rest),
            Body::Refused(refusal) => {
                let told = RefusedRecord::new(row, *refusal);
                self.remarks.tell(&Remark::Refused { line, told });
            }
        }
    }
}
