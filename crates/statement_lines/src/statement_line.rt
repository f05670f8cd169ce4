// Lines of a statement, with what their words show.

ghost use Rattle.std.specs.Prelude.{◌≡◌, false, nat_eq, IfOk};
ghost use Rattle.std.specs.List.{list_any, starts_with};
ghost use Rattle.statement_lines.specs.Bookings.{booking_of, is_beside, is_same_booking};
ghost use Rattle.statement_lines.specs.Showing.{begins_with_reference as begins_with_reference_text, fits};
ghost use Rattle.statement_lines.specs.Showing.{has_reference as has_reference_text, is_charge as is_charge_word};
ghost use Rattle.statement_lines.specs.Showing.{is_correction as is_correction_word};
ghost use Rattle.statement_lines.specs.Showing.{is_other_business as is_other_line};
ghost use Rattle.statement_lines.specs.Showing.{is_other_word as is_other_word_text, shows};
ghost use Rattle.statement_lines.specs.Numbers.{is_among as is_among_numbers, line_numbers};
ghost use Rattle.statement_lines.specs.OpenLines.{is_named_like, is_open, is_open_fit, is_open_like};

use crate::book_entry::WaitingEntry;
use crate::number::{Number, is_among, line_numbers_of};
use crate::token::{byte_at, is_digit, tokens_of};
use byte_streams::OwnedBytes;
use std::alloc::{AllocError, Global};
use std::marker::Model;
use trust_base::{Day, Line};

/// A line of a statement, with what its words show, which is determined once.
///
/// Contracts see it as the line.
#[derive(Drop)]
pub struct StatementLine {
    line: Line,
    numbers: Vec<Number>,
    is_other_business: bool,
}

impl Model for StatementLine {
    ghost use Rattle.std.specs.Prelude.{◌≡◌};
    ghost use Rattle.trust_base.specs.declared.line.Line.{Line};
    ghost use Rattle.statement_lines.specs.Numbers.{line_numbers};
    ghost use Rattle.statement_lines.specs.Showing.{is_other_business as tells_other_business};

    ghost Value = { Line };

    ghost view = { λ l. l.line };

    ghost invariant = { λ l.
        (l.numbers.items ≡ line_numbers l.line) × (l.is_other_business ≡ tells_other_business l.line) };
}

// Whether a word speaks of a return or of a correction.
fn is_correction(word: &[u8]) -> bool
    ensures { result ≡ is_correction_word word.now }
{
    word.starts_with(b"return")
        || word.starts_with(b"rtn")
        || word.starts_with(b"revers")
        || word.starts_with(b"nsf")
        || word.starts_with(b"correct")
        || word.starts_with(b"adjust")
}

// Whether a word speaks of a charge.
fn is_charge(word: &[u8]) -> bool
    ensures { result ≡ is_charge_word word.now }
{
    word.starts_with(b"fee") || word.starts_with(b"charg") || word.starts_with(b"chg")
}

// Whether a word speaks of other business.
#[tactic(auto, unfolding(crate::specs::Showing::is_other_word))]
fn is_other_word(went_out: bool, word: &[u8]) -> bool
    ensures { result ≡ is_other_word_text went_out word.now }
{
    is_correction(word) || (went_out && is_charge(word))
}

// Whether a token speaks of other business.
fn has_other_word(went_out: bool, tokens: &[OwnedBytes]) -> bool
    ensures { result ≡ list_any (is_other_word_text went_out) tokens.now }
{
    tokens
        .iter()
        .any(|token| is_other_word(went_out, token.as_slice()))
}

// Whether the line is of other business than an entry's.
#[tactic(auto, unfolding(crate::specs::Showing::is_other_business))]
fn is_other_business(alloc: Global, line: &Line) -> Result<bool, AllocError>
    ensures { IfOk result (λ is. is ≡ is_other_line line.now) }
{
    let tokens = tokens_of(alloc, line.text.as_slice())?;
    Ok(has_other_word(line.amount.get() < 0, &tokens))
}

// Whether the text may begin with the reference, judging by the first byte of each.
fn begins_alike(reference: &[u8], text: &[u8]) -> bool
    ensures { result ≡ false → starts_with nat_eq text.now reference.now ≡ false }
{
    reference.is_empty() || byte_at(text, 0) == reference[0]
}

// Whether the text begins with the reference, not followed by a digit.
#[tactic(auto, unfolding(crate::specs::Showing::begins_with_reference))]
fn begins_with_reference(reference: &[u8], text: &[u8]) -> bool
    ensures { result ≡ begins_with_reference_text reference.now text.now }
{
    begins_alike(reference, text)
        && text.starts_with(reference)
        && !is_digit(byte_at(text, reference.len()))
}

// Whether the text contains the reference, not followed by a digit.
#[tactic(auto, using(crate::proofs::Parting::reference_steps))]
fn has_reference(reference: &[u8], text: &[u8]) -> bool
    ensures { result ≡ has_reference_text reference.now text.now }
{
    for place in 0..text.len() {
        if begins_with_reference(reference, &text[place..]) {
            return true;
        }
    }
    false
}

impl StatementLine {
    /// The line, with what its words show. The only error is out of memory.
    pub fn of(alloc: Global, line: Line) -> Result<StatementLine, AllocError>
        ensures { IfOk result (λ same. same ≡ line) }
    {
        let is_other_business = is_other_business(alloc, &line)?;
        let numbers = line_numbers_of(alloc, &line)?;
        Ok(StatementLine {
            line,
            numbers,
            is_other_business,
        })
    }

    /// The line.
    pub fn line(&self) -> &Line
        ensures { result.now ≡ self.now }
    {
        &self.line
    }

    /// Whether it has no reference.
    pub fn is_open(&self) -> bool
        ensures { result ≡ is_open self.now }
    {
        self.line.reference.as_slice().is_empty()
    }

    /// Whether another line has the same date and bank reference.
    pub fn is_beside(&self, other: &StatementLine) -> bool
        ensures { result ≡ is_beside (booking_of self.now) (booking_of other.now) }
    {
        self.line.date.get() == other.line.date.get()
            && self.line.bank_ref.is_same(&other.line.bank_ref)
    }

    /// Whether another line is open and has the same date, bank reference and amount.
    pub fn is_open_like(&self, other: &StatementLine) -> bool
        ensures { result ≡ is_open_like self.now other.now }
    {
        other.is_open()
            && (self.is_beside(other) && self.line.amount.get() == other.line.amount.get())
    }

    /// Whether an exception is this line with a reference.
    pub fn is_named_like(&self, exception: &Line) -> bool
        ensures { result ≡ is_named_like self.now exception.now }
    {
        self.line.date.get() == exception.date.get()
            && self.line.bank_ref.is_same(&exception.bank_ref)
            && self.line.amount.get() == exception.amount.get()
            && self.line.text.is_same(&exception.text)
            && !exception.reference.as_slice().is_empty()
    }

    /// The telling numbers of its text that are neither its dollars nor a day near its own.
    pub(crate) fn numbers(&self) -> &[Number]
        ensures { result.now ≡ line_numbers self.now }
    {
        &self.numbers
    }

    /// Whether its words speak of other business than an entry's.
    pub fn is_of_other_business(&self) -> bool
        ensures { result ≡ is_other_line self.now }
    {
        self.is_other_business
    }

    // Whether it has a number of the entry.
    fn has_number_of(&self, entry: &WaitingEntry) -> bool
        ensures { result ≡ list_any (is_among_numbers entry.now.numbers) (line_numbers self.now) }
    {
        self.numbers
            .iter()
            .any(|number| is_among(&entry.numbers, number))
    }

    /// Whether it shows the entry.
    #[tactic(auto, unfolding(crate::specs::Showing::shows))]
    pub(crate) fn shows(&self, entry: &WaitingEntry) -> bool
        ensures { result ≡ shows self.now entry.now }
    {
        self.has_number_of(entry)
            || has_reference(entry.reference.as_slice(), self.line.text.as_slice())
    }

    /// Whether it fits the entry on a business day.
    #[tactic(auto, unfolding(crate::specs::Showing::fits))]
    pub fn fits(&self, today: Day, entry: &WaitingEntry) -> bool
        ensures { result ≡ fits today self.now entry.now }
    {
        self.line.date.get() <= today.get()
            && self.line.amount.get() == entry.amount
            && entry.since <= self.line.date.get()
            && !self.is_other_business
            && self.shows(entry)
    }

    /// Whether it is an open line that fits the entry.
    pub fn is_open_fit(&self, today: Day, entry: &WaitingEntry) -> bool
        ensures { result ≡ is_open_fit today entry.now self.now }
    {
        self.is_open() && self.fits(today, entry)
    }
}
