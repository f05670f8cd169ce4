// The items of a statement, one at a time, from a reader that stops at the length limit.

ghost use Rattle.std.specs.Prelude.{◌≡◌, ◌≢◌, ◌↔◌, [], List, ℕ, Err, IfErr, IfOk, IsSome, is_none, IsTrue, None, Ok};
ghost use Rattle.std.specs.Prelude.{OnErr, OnOk, Option, Some, get_or, option_map, option_to_list, false, true};
ghost use Rattle.std.specs.Io.KnownBytes.{Consumes, IsAtEnd, Keeps};
ghost use Rattle.csv.specs.Records.{fields_of};
ghost use Rattle.statement_csv.specs.declared.item.ReadFault.{ReadFault};
ghost use Rattle.statement_csv.specs.declared.item.ReadFault.TheVariants.{BadHeader, Limit};
ghost use Rattle.statement_csv.specs.Headers.{is_header};
ghost use Rattle.statement_csv.specs.Items.{item_of, item_of_line as item_of_line_in, line_in};
ghost use Rattle.statement_csv.specs.Limits.{IsTooLong, IsWithin};
ghost use Rattle.statement_csv.specs.Lines.{line_of_texts as line_in_texts};
ghost use Rattle.statement_csv.specs.Reading.{Gives, LacksHeader};

use csv::{ByteRecord, Reader, ReaderBuilder};
use std::alloc::{AllocError, Global};
use std::io;
use std::io::{Error, ErrorKind, Read};
use std::marker::{Brand, Model, PhantomData};
use trust_base::{BankAmount, BankText, Day, EntryNo, Line, LineText, MAX_FILE_BYTES, MatterNo};
use trust_matter::BankLine;

/// What one record after the header of a statement means.

pub enum Item {
    /// The balance at the start of a day: the reference is `OPEN`.
    Opening(Line),
    /// The balance at the end of a day: the reference is `CLOSE`.
    Closing(Line),
    /// A line whose reference names an entry of a matter, such as `M000001-0001`.
    OfMatter(BankLine),
    /// A line of the firm's own money: the reference is `FIRM`.
    OfFirm(Line),
    /// A line with another reference.
    Stray(Line),
    /// A record that is not a line, with its number; the first record after the header has number 1.
    Unreadable(u64),
}

// Written by hand, so that a function that holds an item makes one call at each exit.
impl Drop for Item {
    fn drop(self) {
        match self {
            Item::Opening(_line) => (),
            Item::Closing(_line) => (),
            Item::OfMatter(_line) => (),
            Item::OfFirm(_line) => (),
            Item::Stray(_line) => (),
            Item::Unreadable(_number) => (),
        }
    }
}

impl Item {
    /// The line that it is. None for an unreadable record.
    pub fn into_line(self) -> Option<Line>
        ensures { result ≡ line_in self }
    {
        match self {
            Item::Opening(line) | Item::Closing(line) => Some(line),
            Item::OfMatter(named) => Some(named.line),
            Item::OfFirm(line) | Item::Stray(line) => Some(line),
            Item::Unreadable(_) => None,
        }
    }
}

/// The field at this index; empty if there is none.
#[tactic(auto, unfolding(csv::specs::Records::field_at), using(crate::proofs::FieldFacts::field_steps))]
pub fn field(row: &ByteRecord, place: usize) -> &[u8]
    ensures { result.now ≡ get_or (fields_of row.now) place [] }
{
    match row.get(place) {
        Some(field) => field,
        None => &[],
    }
}

/// The line from the texts of its five fields. None if any of them is invalid. The only error is out of memory.
#[tactic(auto, unfolding(crate::specs::Lines::line_of_texts))]
pub fn line_of_texts(
    alloc: Global,
    date: &[u8],
    reference: &[u8],
    bank_ref: &[u8],
    amount: &[u8],
    text: &[u8],
) -> Result<Option<Line>, AllocError>
    ensures { IfOk result (λ line. line ≡ line_in_texts date.now reference.now bank_ref.now amount.now text.now) }
{
    let Some(date) = Day::read(date) else {
        return Ok(None);
    };
    let Some(amount) = BankAmount::read(amount) else {
        return Ok(None);
    };
    let Some(reference) = BankText::read(alloc, reference)? else {
        return Ok(None);
    };
    let Some(bank_ref) = BankText::read(alloc, bank_ref)? else {
        return Ok(None);
    };
    let Some(text) = LineText::read(alloc, text)? else {
        return Ok(None);
    };
    Ok(Some(Line {
        date,
        reference,
        bank_ref,
        amount,
        text,
    }))
}

/// The item that a line in record `number` is.
#[tactic(auto, unfolding(crate::specs::References::owner_of, crate::specs::References::entry_named))]
pub fn item_of_line(line: Line, number: u64) -> Item
    ensures { result ≡ item_of_line_in number line }
{
    let reference = line.reference.as_slice();
    if reference == b"OPEN".as_slice() {
        return Item::Opening(line);
    }
    if reference == b"CLOSE".as_slice() {
        return Item::Closing(line);
    }
    if line.bank_ref.as_slice().is_empty() {
        return Item::Unreadable(number);
    }
    if reference == b"FIRM".as_slice() {
        return Item::OfFirm(line);
    }
    // An entry's reference is `M`, the six digits of the matter, `-`, and the four digits of the entry.
    if reference.len() != 12 || reference[0] != b'M' || reference[7] != b'-' {
        return Item::Stray(line);
    }
    match (
        MatterNo::read(&reference[1..7]),
        EntryNo::read(&reference[8..12]),
    ) {
        (Some(matter), Some(entry)) => Item::OfMatter(BankLine {
            matter,
            entry,
            line,
        }),
        _ => Item::Stray(line),
    }
}

/// The item of record `number`. The only error is out of memory.
#[tactic(auto, unfolding(crate::specs::Items::item_of))]
pub fn read_item(alloc: Global, row: &ByteRecord, number: u64) -> Result<Item, AllocError>
    ensures { IfOk result (λ item. item ≡ item_of number (fields_of row.now)) }
{
    if row.len() != 5 {
        return Ok(Item::Unreadable(number));
    }
    let read = line_of_texts(
        alloc,
        field(row, 0),
        field(row, 1),
        field(row, 2),
        field(row, 3),
        field(row, 4),
    )?;
    match read {
        Some(line) => Ok(item_of_line(line, number)),
        None => Ok(Item::Unreadable(number)),
    }
}

/// Why no item was returned.
#[derive(Clone, Copy, Debug, thiserror::Error)]
pub enum ReadFault {
    /// The first record is not the header of a statement, or there is no record.
    #[error("the first record is not the header of a statement")]
    BadHeader,
    /// The statement has more than 4,194,304 bytes.
    #[error("the statement has more than 4194304 bytes")]
    Limit,
    /// A read failed. An interrupted read counts as failed.
    #[error("a read failed")]
    Reader,
    /// Out of memory.
    #[error("memory ran out")]
    Memory,
}

/// The bytes of a whole statement, as its reader's contract gives them before the first read. None if they are unknown.
///
/// A proof chooses them at a call that passes `Brand`. Without a choice they are unknown.
pub trait Whole {
    ghost bytes: { Option (List ℕ) };
}

impl Whole for Brand {
    ghost use Rattle.std.specs.Prelude.{None};

    ghost bytes = { None };
}

// How the reading stands.
#[derive(Clone, Copy)]
enum Course {
    // More bytes may come.
    Open,
    // The inner reader ended.
    Ended,
    // This byte came after the last one that a statement may have.
    Longer(u8),
    // A read failed.
    Failed,
}

/// Reads a statement of at most 4,194,304 bytes. If one more byte comes, or a read of the inner reader fails, it
/// returns an error, and from then on it returns errors without reading.
///
/// Contracts see the remaining bytes, if they are known, and how the reading stands.
#[derive(Drop)]
pub(crate) struct Limited<R: Read, K: Whole> {
    inner: R,
    given: usize,
    course: Course,
    whole: PhantomData<K>,
}

impl<R: Read, K: Whole> Model for Limited<R, K> {
    ghost use Rattle.statement_csv.specs.Limits.{IsReading, Source, source_in};

    ghost Value = { Source };

    ghost view = { λ a. source_in a.course (R.remaining a.inner) };

    ghost invariant = { λ a. IsReading K.bytes (R.remaining a.inner) a.given a.course };
}

// The next byte of a reader. None at its end.
fn next_byte<R: Read>(inner: &mut R) -> io::Result<Option<u8>>
    ensures byte { IfOk result
        (λ next. Consumes (R.remaining inner.old) (R.remaining inner.new) (option_to_list next)) }
    ensures end { IfOk result (λ next. next ≡ None → IsAtEnd (R.remaining inner.new)) }
    ensures err { OnErr result (Keeps (R.remaining inner.old) (R.remaining inner.new)) }
{
    let mut one = [0u8];
    match inner.read(&mut one)? {
        0 => Ok(None),
        _ => Ok(Some(one[0])),
    }
}

impl<R: Read, K: Whole> Limited<R, K> {
    ghost use Rattle.statement_csv.specs.Limits.{IsHeldBack, IsTooLong, IsWithin, cause_of};
    ghost use Rattle.statement_csv.specs.declared.item.ReadFault.TheVariants.{BadHeader, Limit};
    ghost use Rattle.statement_csv.specs.declared.item.Course.TheVariants.{Ended, Open};

    /// A reader of a statement from its start.
    pub(crate) fn new(inner: R) -> Limited<R, K>
        requires { Keeps K.bytes (R.remaining inner) }
        ensures left { result.left ≡ R.remaining inner }
        ensures course { result.course ≡ Open }
    {
        Limited {
            inner,
            given: 0,
            course: Course::Open,
            whole: PhantomData,
        }
    }

    /// Whether the inner reader ended within the length limit. In either case no byte past the limit was returned.
    pub(crate) fn has_ended(&self) -> bool
        ensures value { IsTrue result ↔ (self.now.course ≡ Ended) }
        ensures within { IsTrue result → IsWithin K.bytes }
        ensures held { IsHeldBack K.bytes self.now.left }
    {
        matches!(self.course, Course::Ended)
    }

    /// Why reading cannot go on: a byte came past the length limit, a read failed, or otherwise memory ran out.
    pub(crate) fn cause(&self) -> ReadFault
        ensures value { result ≡ cause_of self.now.course }
        ensures limit { (result ≡ Limit) → IsTooLong K.bytes }
        ensures header { result ≢ BadHeader }
    {
        match self.course {
            Course::Longer(_) => ReadFault::Limit,
            Course::Failed => ReadFault::Reader,
            Course::Open | Course::Ended => ReadFault::Memory,
        }
    }
}

impl<R: Read, K: Whole> Read for Limited<R, K> {
    ghost use Rattle.statement_csv.specs.Limits.{left_of};

    ghost remaining = { left_of };

    fn read(&mut self, buf: &mut [u8]) -> io::Result<usize> {
        match self.course {
            Course::Open => {}
            Course::Ended => return Ok(0),
            Course::Longer(_) | Course::Failed => return Err(Error::from(ErrorKind::Other)),
        }
        let room = MAX_FILE_BYTES - self.given;
        if room > 0 {
            let most = room.min(buf.len());
            match self.inner.read(&mut buf[..most]) {
                Ok(0) => {
                    if most > 0 {
                        self.course = Course::Ended;
                    }
                    Ok(0)
                }
                Ok(n) => {
                    self.given += n;
                    Ok(n)
                }
                Err(e) => {
                    self.course = Course::Failed;
                    Err(e)
                }
            }
        } else {
            match next_byte(&mut self.inner) {
                Ok(None) => {
                    self.course = Course::Ended;
                    Ok(0)
                }
                Ok(Some(byte)) => {
                    self.course = Course::Longer(byte);
                    Err(Error::from(ErrorKind::Other))
                }
                Err(e) => {
                    self.course = Course::Failed;
                    Err(e)
                }
            }
        }
    }
}

// How far the reading has come.
#[derive(Clone, Copy)]
enum Stage {
    // The header comes next.
    Header,
    // Items come next.
    Items,
    // The end was reached.
    Ended,
    // A fault ended it.
    Stopped(ReadFault),
}

/// The items of a statement, read record by record through `csv`. It holds one record at a time, never the file.
///
/// Contracts see the fault that ended the reading, whether the end was reached, and the remaining items if the reader's
/// bytes are known. In a proof, `K` names the whole statement, so that `next` can speak about its length.
pub struct Lines<R: Read, K: Whole = Brand> {
    alloc: Global,
    records: Reader<Limited<R, K>>,
    row: ByteRecord,
    number: u64,
    stage: Stage,
}

impl<R: Read, K: Whole> Model for Lines<R, K> {
    ghost use Rattle.statement_csv.specs.Reading.{IsSound, Reading, reading_of};

    ghost Value = { Reading };

    ghost view = { λ a. reading_of a.stage a.number a.records };

    ghost invariant = { λ a. IsSound K.bytes a.stage a.number a.records };
}

// A single call, so that a caller's proof sees no fields when a value is dropped.
impl<R: Read + Drop, K: Whole> Drop for Lines<R, K> {
    fn drop(self) {
        let Self {
            alloc: _,
            records: _,
            row: _,
            number: _,
            stage: _,
        } = self;
    }
}

// Whether a record is the header of a statement.
#[tactic(auto, using(crate::proofs::HeaderFacts::is_header_fields))]
fn is_header(row: &ByteRecord) -> bool
    ensures { result ≡ is_header (fields_of row.now) }
{
    (row.len() == 5)
        & (field(row, 0) == b"date".as_slice())
        & (field(row, 1) == b"reference".as_slice())
        & (field(row, 2) == b"bank_ref".as_slice())
        & (field(row, 3) == b"amount".as_slice())
        & (field(row, 4) == b"text".as_slice())
}

impl<R: Read> Lines<R> {
    ghost use Rattle.statement_csv.specs.Items.{items};

    /// The items of a statement, from its start. Allocates nothing.
    pub fn new(alloc: Global, reader: R) -> Lines<R>
        ensures fault { result.fault ≡ None }
        ensures is_ended { result.is_ended ≡ false }
        ensures left { result.left ≡ option_map items (R.remaining reader) }
    {
        Lines::of_whole(alloc, reader)
    }
}

impl<R: Read, K: Whole> Lines<R, K> {
    ghost use Rattle.statement_csv.specs.Items.{items};
    ghost use Rattle.statement_csv.specs.Reading.{Gives, GivesWithin, LacksHeader};

    /// The same, if a proof names the statement's bytes by `K`. Allocates nothing.
    pub fn of_whole(alloc: Global, reader: R) -> Lines<R, K>
        requires { Keeps K.bytes (R.remaining reader) }
        ensures fault { result.fault ≡ None }
        ensures is_ended { result.is_ended ≡ false }
        ensures left { result.left ≡ option_map items (R.remaining reader) }
    {
        Lines {
            alloc,
            records: ReaderBuilder::new()
                .has_headers(false)
                .flexible(true)
                .from_reader(alloc, Limited::new(reader)),
            row: ByteRecord::new(alloc),
            number: 1,
            stage: Stage::Header,
        }
    }

    /// Returns the next item, or None at the end and from then on. After a fault it returns the same fault from then
    /// on: `BadHeader` if the first record is not `date,reference,bank_ref,amount,text` or is missing, `Limit` if there
    /// is a byte past 4,194,304, `Reader` if a read failed, `Memory` if memory ran out. Every item lies within the
    /// first 4,194,304 bytes.
    ///
    /// No clause says that `Reader` and `Memory` occur only then: the contract of `csv` says nothing about its reader
    /// after an error.
    pub fn next(&mut self) -> Result<Option<Item>, ReadFault>
        ensures next { IfOk result (λ found. Gives self.old.left self.new.left found) }
        ensures front { IfOk result (λ found. IsSome found → GivesWithin K.bytes self.new.left) }
        ensures within { (result ≡ Ok None) → IsWithin K.bytes }
        ensures course { IfOk result (λ found. (self.new.fault ≡ None) × (self.new.is_ended ≡ is_none found)) }
        ensures stays_ended { (self.old.is_ended ≡ true) → result ≡ Ok None }

        ensures fault { IfErr result (λ fault. self.new.fault ≡ Some fault) }
        ensures again { (fault : ReadFault) → self.old.fault ≡ Some fault → result ≡ Err fault }
        ensures header { (result ≡ Err BadHeader) → LacksHeader self.old.left }
        ensures limit { (result ≡ Err Limit) → IsTooLong K.bytes }
    {
        loop {
            let awaits_header = match self.stage {
                Stage::Header => true,
                Stage::Items => false,
                Stage::Ended => return Ok(None),
                Stage::Stopped(fault) => return Err(fault),
            };
            let read = self.records.read_byte_record(&mut self.row);
            let ended = self.records.get_ref().has_ended();
            let fault = match read {
                Ok(true) if awaits_header => {
                    if is_header(&self.row) {
                        self.stage = Stage::Items;
                        continue;
                    }
                    ReadFault::BadHeader
                }
                Ok(true) => match read_item(self.alloc, &self.row, self.number) {
                    Ok(item) => {
                        // Never overflows: a statement has fewer records than bytes.
                        if let Some(number) = self.number.checked_add(1) {
                            self.number = number;
                            return Ok(Some(item));
                        }
                        ReadFault::Memory
                    }
                    Err(_) => self.records.get_ref().cause(),
                },
                // `csv` finds no record only if its reader ended, but its contract does not say so.
                Ok(false) if ended => {
                    if !awaits_header {
                        self.stage = Stage::Ended;
                        return Ok(None);
                    }
                    ReadFault::BadHeader
                }
                _ => self.records.get_ref().cause(),
            };
            self.stage = Stage::Stopped(fault);
            return Err(fault);
        }
    }
}
