// Remarks about a statement as it is imported.

use crate::applied_lines::AppliedLines;
use crate::file_records::FileRecords;
use crate::file_telling::{remark_on_first, tell_of_records};
use crate::item_remark::{reference_of, remark_on_exception};
use crate::read_bytes::{ReadBytes, ReplayReader};
use cashier_remarks::{LineRemark, Remark, Remarks};
use firm_rows::Owner;
use std::alloc::{AllocError, Global};
use std::cell::{Cell, Ref, RefCell};
use trust_base::{Day, Field, Line, Refusal, StoreFault};
use trust_desk::{ImportStop, ItemWatch, NotApplied};

/// Reports about the lines of a statement that is imported on a business day.
#[derive(Drop)]
pub struct StatementTelling<'a, M> {
    alloc: Global,
    read: &'a ReadBytes,
    today: Day,
    remarks: &'a M,
    applied: Option<&'a AppliedLines>,
    // The records in the bytes that were read so far.
    records: RefCell<FileRecords<ReplayReader<'a>>>,
    // Whether nothing more is told about the lines: nobody is told anything, or memory ran out.
    is_over: Cell<bool>,
}

impl<'a, M: Remarks> StatementTelling<'a, M> {
    /// Makes it for a statement whose bytes are kept in `read` as the import reads them.
    ///
    /// The lines that the import applies are kept in `applied`, if that is given.
    pub fn new(
        alloc: Global,
        read: &'a ReadBytes,
        today: Day,
        remarks: &'a M,
        applied: Option<&'a AppliedLines>,
    ) -> StatementTelling<'a, M> {
        StatementTelling {
            alloc,
            read,
            today,
            remarks,
            applied,
            records: RefCell::new(FileRecords::new(alloc, ReplayReader::new(read))),
            is_over: Cell::new(!remarks.are_told()),
        }
    }

    // Returns the bytes that were read so far. Fails if memory ran out for them, or nothing more is told.
    fn bytes(&self) -> Result<Ref<'_, Vec<u8>>, AllocError> {
        if self.is_over.get() {
            return Err(AllocError);
        }
        self.read.bytes()
    }

    // Ends what is told about the lines if memory ran out for it, and reports that once.
    fn settle(&self, told: Result<(), AllocError>) {
        if told.is_ok() || self.is_over.get() {
            return;
        }
        self.is_over.set(true);
        if let Some(applied) = self.applied {
            applied.forget();
        }
        self.remarks.tell(&Remark::LinesEnd);
    }

    // Returns the line on which the record with a number begins. Of the number after the last it is the line on which
    // the file ends.
    fn line_at(&self, number: u64) -> Result<u64, AllocError> {
        let Ok(bytes) = self.bytes() else {
            return Err(AllocError);
        };
        let Ok(mut records) = self.records.try_borrow_mut() else {
            return Err(AllocError);
        };
        records.has_read(number)?;
        Ok(records.found(bytes.as_slice()).line)
    }

    // Keeps a line that was applied, with the line of the file on which it begins.
    fn keep(
        &self,
        applied: &AppliedLines,
        number: u64,
        owner: Owner,
        line: &Line,
    ) -> Result<(), AllocError> {
        let start = self.line_at(number)?;
        applied.keep(number, start, owner, line);
        Ok(())
    }

    // Reports that the record that was read last, which begins on this line, is not a valid line.
    fn tell_unreadable(&self, line: u64) -> Result<(), AllocError> {
        let Ok(records) = self.records.try_borrow() else {
            return Err(AllocError);
        };
        self.remarks.tell(&Remark::Line {
            line,
            of: None,
            told: LineRemark::Unreadable(records.row()),
        });
        Ok(())
    }

    // Reports an item that was not applied.
    fn tell_item(&self, number: u64, told: &NotApplied<'_>) -> Result<(), AllocError> {
        let line = self.line_at(number)?;
        let Some(remark) = remark_on_exception(told, self.today) else {
            return self.tell_unreadable(line);
        };
        self.remarks.tell(&Remark::Line {
            line,
            of: reference_of(told),
            told: remark,
        });
        Ok(())
    }

    // Reports a record that the store or memory stopped.
    fn tell_not_run(&self, number: u64, fault: StoreFault) -> Result<(), AllocError> {
        let line = self.line_at(number)?;
        self.remarks.tell(&Remark::Line {
            line,
            of: None,
            told: LineRemark::NotRun(fault),
        });
        Ok(())
    }

    // Reports a wrong header.
    fn tell_header(&self) -> Result<(), AllocError> {
        let Ok(bytes) = self.bytes() else {
            return Err(AllocError);
        };
        let Ok(mut records) = self.records.try_borrow_mut() else {
            return Err(AllocError);
        };
        let is_there = records.has_read(0)?;
        let found = records.found(bytes.as_slice());
        self.remarks
            .tell(&Remark::Header(remark_on_first(found, is_there)));
        Ok(())
    }

    // Reports what only the bytes of the file show about its records. A record that was reported for the double quote
    // that is open in it is not reported again for its line ends.
    fn tell_of_file(&self) -> Result<(), AllocError> {
        let Ok(bytes) = self.bytes() else {
            return Err(AllocError);
        };
        tell_of_records(self.alloc, bytes.as_slice(), self.remarks, false)
    }
}

impl<M: Remarks> ItemWatch for StatementTelling<'_, M> {
    fn applied(&self, number: u64, owner: Owner, line: &Line) {
        if let Some(applied) = self.applied {
            self.settle(self.keep(applied, number, owner, line));
        }
    }

    fn not_applied(&self, number: u64, told: &NotApplied<'_>) {
        self.settle(self.tell_item(number, told));
    }

    fn ended(&self, taken: u64, end: &ImportStop) {
        let next = taken.saturating_add(1);
        match end {
            ImportStop::Limit => self.remarks.tell(&Remark::StatementTooLarge { taken }),
            ImportStop::Refused(Refusal::BadField(Field::Header)) => {
                self.settle(self.tell_header())
            }
            ImportStop::Refused(Refusal::Store) => {
                self.settle(self.tell_not_run(next, StoreFault::Store))
            }
            ImportStop::Refused(Refusal::Memory) => {
                self.settle(self.tell_not_run(next, StoreFault::Memory))
            }
            ImportStop::Done => self.settle(self.tell_of_file()),
            ImportStop::Refused(_) | ImportStop::ReadFault => (),
        }
    }
}
