// The marks by which the words of a line may show an entry.

ghost use Rattle.std.specs.Prelude.{◌≡◌, ◌++◌, map, take, IfOk, OnOk};
ghost use Rattle.statement_lines.specs.Keys.{text_key as key_of_text};
ghost use Rattle.statement_lines.specs.Marks.{entry_marks, line_marks, marks_at, marks_from};
ghost use Rattle.statement_lines.specs.Marks.{reference_mark as mark_of_reference, window_marks};

use crate::book_entry::{BookEntry, WaitingEntry};
use crate::key::text_key;
use crate::number::Number;
use crate::statement_line::StatementLine;
use std::alloc::{AllocError, Global};

/// A mark of an entry, and the place of the entry.
pub type Mark = (u64, usize);

// The length in bytes of the references of a book.
const REFERENCE_LEN: usize = 12;

fn reference_mark(reference: &[u8]) -> u64
    ensures { result ≡ mark_of_reference reference.now }
{
    if reference.len() == REFERENCE_LEN {
        text_key(0, reference)
    } else {
        0
    }
}

// Adds the marks of numbers.
fn add_numbers(marks: &mut Vec<u64>, numbers: &[Number]) -> Result<(), AllocError>
    ensures { OnOk result (marks.new.items ≡ marks.old.items ++ map (key_of_text 0) numbers.now) }
{
    for number in numbers {
        marks.push(text_key(0, number.as_slice()))?;
    }
    Ok(())
}

// The first bytes of a text, as many as a reference has, or all if it is shorter.
fn window(text: &[u8]) -> &[u8]
    ensures { result.now ≡ take 12 text.now }
{
    if text.len() <= REFERENCE_LEN {
        text
    } else {
        &text[..REFERENCE_LEN]
    }
}

// Adds the marks of a text, which may contain references.
#[tactic(auto, using(crate::proofs::Marked::window_steps))]
fn add_windows(marks: &mut Vec<u64>, text: &[u8]) -> Result<(), AllocError>
    ensures { OnOk result (marks.new.items ≡ marks.old.items ++ window_marks text.now) }
{
    for place in 0..text.len() {
        marks.push(text_key(0, window(&text[place..])))?;
    }
    Ok(())
}

/// Returns the marks of a line. The only error is out of memory.
pub fn line_marks_of(alloc: Global, line: &StatementLine) -> Result<Vec<u64>, AllocError>
    ensures { IfOk result (λ marks. marks.items ≡ line_marks line.now) }
{
    let mut marks = Vec::new(alloc);
    marks.push(0)?;
    add_numbers(&mut marks, line.numbers())?;
    add_windows(&mut marks, line.line().text.as_slice())?;
    Ok(marks)
}

// Adds the marks of an entry at a place.
fn add_entry(marks: &mut Vec<Mark>, place: usize, entry: &WaitingEntry) -> Result<(), AllocError>
    ensures { OnOk result (marks.new.items ≡ marks.old.items ++ map (λ mark. (mark, place)) (entry_marks entry.now)) }
{
    marks.push((reference_mark(entry.reference.as_slice()), place))?;
    for number in &entry.numbers {
        marks.push((text_key(0, number.as_slice()), place))?;
    }
    Ok(())
}

// Adds the marks of an entry of a book.
fn add_entry_at(marks: &mut Vec<Mark>, place: usize, entry: &BookEntry) -> Result<(), AllocError>
    ensures { OnOk result (marks.new.items ≡ marks.old.items ++ marks_at place entry.now) }
{
    add_entry(marks, place, &entry.entry)
}

/// Returns the marks of entries. The only error is out of memory.
#[tactic(auto, using(crate::proofs::Marked::marks_more))]
pub fn marks_of(alloc: Global, entries: &[BookEntry]) -> Result<Vec<Mark>, AllocError>
    ensures { IfOk result (λ marks. marks.items ≡ marks_from 0 entries.now) }
{
    let mut marks = Vec::new(alloc);
    for place in 0..entries.len() {
        add_entry_at(&mut marks, place, &entries[place])?;
    }
    Ok(marks)
}
