// A report appended to a vector: the pieces that its lines are made of, and lines of a label and a sum, each padded to
// its width.

ghost use Rattle.std.specs.Prelude.{◌≡◌, [], ◌∷◌, ◌++◌, replicate, flat_map, encode_utf8, if◌then◌else◌, OnOk, OnErr};
ghost use Rattle.trust_base.specs.Texts.{amount_text, day_text, matter_text, signed_text};
ghost use Rattle.trust_reports.specs.Texts.{column, further, heading, left_in, or_dash, reference_text, right_in};
ghost use Rattle.trust_reports.specs.Texts.{place_text, shown, shown_text, words_shown};
ghost use Rattle.trust_reports.specs.Pieces.{further_piece, row_text, sum_text, text_of};

use arrayvec::ArrayVec;
use byte_streams::push_piece as push_text;
use firm_figures::Owner;
use itoa::Buffer;
use std::alloc::AllocError;
use std::marker::Model;
use std::mem;
use trust_base::{
    BankAmount, BankText, Cents, CentsOrZero, CivilDay, Day, EntryNo, Label, LineText, MatterNo,
    PersonId, day_bytes,
};
use trust_matter::Caller;

/// A report being appended to the content of a vector.
///
/// Contracts see it as that content, and the report so far.
#[derive(Drop)]
pub(crate) struct Page {
    bytes: Vec<u8>,
    kept: usize,
}

impl Model for Page {
    ghost use Rattle.std.specs.Prelude.{◌≤◌, length, take, drop};
    ghost use Rattle.trust_reports.specs.Pages.{Written};

    ghost Value = { Written };

    ghost view = { λ p. record { before = take p.kept p.bytes.items; text = drop p.kept p.bytes.items } };

    ghost invariant = { λ p. p.kept ≤ length p.bytes.items };
}

/// What is printed in a report.
pub(crate) trait Printed {
    ghost use Rattle.std.specs.Prelude.{ℕ, List};

    /// How it is printed.
    ghost printed: { Self → List ℕ };

    /// Appends it to a report.
    fn push_to(&self, page: &mut Page) -> Result<(), AllocError>
        ensures before { page.new.before ≡ page.old.before }
        ensures text { OnOk result (page.new.text ≡ page.old.text ++ printed self.now) };
}

impl Page {
    /// Appends bytes.
    pub(crate) fn push(&mut self, bytes: &[u8]) -> Result<(), AllocError>
        ensures before { self.new.before ≡ self.old.before }
        ensures text { OnOk result (self.new.text ≡ self.old.text ++ bytes.now) }
    {
        self.bytes.extend_from_slice(bytes)
    }

    /// Appends this many spaces.
    pub(crate) fn push_spaces(&mut self, count: usize) -> Result<(), AllocError>
        ensures before { self.new.before ≡ self.old.before }
        ensures text { OnOk result (self.new.text ≡ self.old.text ++ replicate count 32) }
    {
        for _space in 0..count {
            self.push(b" ")?;
        }
        Ok(())
    }

    /// Appends lines, one after the other.
    pub(crate) fn push_lines<T: Printed>(&mut self, lines: &[T]) -> Result<(), AllocError>
        ensures before { self.new.before ≡ self.old.before }
        ensures text { OnOk result (self.new.text ≡ self.old.text ++ flat_map T.printed lines.now) }
    {
        for line in lines {
            line.push_to(self)?;
        }
        Ok(())
    }
}

/// Appends a report to a vector. If memory runs out, the vector is unchanged.
pub(crate) fn append<T: Printed>(out: &mut Vec<u8>, report: &T) -> Result<(), AllocError>
    ensures ok { OnOk result (out.new.items ≡ out.old.items ++ T.printed report.now) }
    ensures err { OnErr result (out.new.items ≡ out.old.items) }
{
    let empty = Vec::new(*out.allocator());
    let bytes = mem::replace(out, empty);
    let kept = bytes.len();
    let mut page = Page { bytes, kept };
    let written = report.push_to(&mut page);
    *out = page.bytes;
    if written.is_err() {
        out.truncate(kept);
    }
    written
}

/// A sum in cents, or the negative of one.
#[derive(Clone, Copy)]
pub(crate) enum Sum {
    Of(i128),
    NegativeOf(i128),
}

// A printed sum, at most 44 bytes, on the stack.
type SumText = ArrayVec<u8, 44>;

// An amount with a leading minus sign if the sum is negative.
fn signed(below: bool, cents: u128) -> SumText
    ensures { result.items ≡ (if below then 45 ∷ amount_text cents else amount_text cents) }
{
    let mut text = SumText::new();
    if below {
        push_text(&mut text, b"-");
    }
    let mut buffer = Buffer::new();
    push_text(&mut text, buffer.format(cents / 100).as_bytes());
    let end = [
        b'.',
        b'0' + (cents % 100 / 10) as u8,
        b'0' + (cents % 100 % 10) as u8,
    ];
    push_text(&mut text, &end);
    text
}

impl Sum {
    // The sum as text, with a leading `-` if negative. Allocates nothing.
    fn text(self) -> SumText
        ensures { result.items ≡ sum_text self }
    {
        match self {
            Sum::Of(cents) => signed(cents < 0, cents.unsigned_abs()),
            Sum::NegativeOf(cents) => signed(cents > 0, cents.unsigned_abs()),
        }
    }
}

/// A piece of a line.
#[derive(Clone, Copy)]
pub(crate) enum Piece<'a> {
    /// A word of the report's own.
    Word(&'a str),
    Label(&'a Label),
    /// The bank's reference, unchanged.
    BankRef(&'a BankText),
    /// A reference, or `-` for an empty one.
    OrDash(&'a BankText),
    /// A bank line's text with each control character as a space, or `-` if it is empty.
    Words(&'a LineText),
    Day(Day),
    /// A day that may lie after 2199.
    LastDay(CivilDay),
    Amount(Cents),
    Part(CentsOrZero),
    /// What is left of an entry, in cents.
    Left(u64),
    /// A sum in cents.
    Sum(i128),
    /// A bank amount: what a line moved, or a balance.
    Bank(BankAmount),
    Matter(MatterNo),
    Entry(EntryNo),
    /// An entry of a matter.
    Reference(MatterNo, EntryNo),
    /// A matter, or an entry of it.
    Place(MatterNo, Option<EntryNo>),
    Owner(Owner),
    Person(&'a PersonId),
    /// Who did something.
    Caller(&'a Caller),
}

/// The six digits of a matter's number.
pub(crate) fn matter_digits(matter: MatterNo) -> [u8; 6]
    ensures { result ≡ matter_text matter }
{
    let n = matter.get();
    [
        b'0' + (n / 100_000 % 10) as u8,
        b'0' + (n / 10_000 % 10) as u8,
        b'0' + (n / 1_000 % 10) as u8,
        b'0' + (n / 100 % 10) as u8,
        b'0' + (n / 10 % 10) as u8,
        b'0' + (n % 10) as u8,
    ]
}

fn push_reference(page: &mut Page, matter: MatterNo, entry: EntryNo) -> Result<(), AllocError>
    ensures before { page.new.before ≡ page.old.before }
    ensures text { OnOk result (page.new.text ≡ page.old.text ++ reference_text matter entry) }
{
    page.push(b"M")?;
    page.push(&matter_digits(matter))?;
    page.push(b"-")?;
    page.push(&entry.digits())
}

fn push_place(page: &mut Page, matter: MatterNo, entry: Option<EntryNo>) -> Result<(), AllocError>
    ensures before { page.new.before ≡ page.old.before }
    ensures text { OnOk result (page.new.text ≡ page.old.text ++ place_text matter entry) }
{
    match entry {
        Some(entry) => push_reference(page, matter, entry),
        None => {
            page.push(b"M")?;
            page.push(&matter_digits(matter))
        }
    }
}

fn push_or_dash(page: &mut Page, text: &[u8]) -> Result<(), AllocError>
    ensures before { page.new.before ≡ page.old.before }
    ensures text { OnOk result (page.new.text ≡ page.old.text ++ or_dash text.now) }
{
    if text.is_empty() {
        return page.push(b"-");
    }
    page.push(text)
}

// Appends a character, or a space if it is a control character.
fn push_shown(page: &mut Page, character: char) -> Result<(), AllocError>
    ensures before { page.new.before ≡ page.old.before }
    ensures text { OnOk result (page.new.text ≡ page.old.text ++ encode_utf8 (shown character)) }
{
    if character.is_control() {
        return page.push(b" ");
    }
    let mut buffer = [0; 4];
    page.push(character.encode_utf8(&mut buffer).as_bytes())
}

fn push_shown_text(page: &mut Page, text: &str) -> Result<(), AllocError>
    ensures before { page.new.before ≡ page.old.before }
    ensures text { OnOk result (page.new.text ≡ page.old.text ++ shown_text text.now) }
{
    for character in text.chars() {
        push_shown(page, character)?;
    }
    Ok(())
}

fn push_words(page: &mut Page, words: &LineText) -> Result<(), AllocError>
    ensures before { page.new.before ≡ page.old.before }
    ensures text { OnOk result (page.new.text ≡ page.old.text ++ words_shown words.now) }
{
    let words = words.as_slice();
    if words.is_empty() {
        return page.push(b"-");
    }
    let Ok(text) = str::from_utf8(words) else {
        unreachable!()
    };
    push_shown_text(page, text)
}

/// Appends a day.
pub(crate) fn push_day(page: &mut Page, day: Day) -> Result<(), AllocError>
    ensures before { page.new.before ≡ page.old.before }
    ensures text { OnOk result (page.new.text ≡ page.old.text ++ day_text day) }
{
    page.push(&day_bytes(day.get()))
}

fn push_last_day(page: &mut Page, day: CivilDay) -> Result<(), AllocError>
    ensures before { page.new.before ≡ page.old.before }
    ensures text { OnOk result (page.new.text ≡ page.old.text ++ day_text day) }
{
    page.push(&day_bytes(day.get()))
}

fn push_cents(page: &mut Page, cents: u64) -> Result<(), AllocError>
    ensures before { page.new.before ≡ page.old.before }
    ensures text { OnOk result (page.new.text ≡ page.old.text ++ amount_text cents) }
{
    let text = Sum::Of(cents as i128).text();
    page.push(text.as_slice())
}

fn push_sum(page: &mut Page, cents: i128) -> Result<(), AllocError>
    ensures before { page.new.before ≡ page.old.before }
    ensures text { OnOk result (page.new.text ≡ page.old.text ++ signed_text cents) }
{
    let text = Sum::Of(cents).text();
    page.push(text.as_slice())
}

fn push_piece(page: &mut Page, piece: &Piece<'_>) -> Result<(), AllocError>
    ensures before { page.new.before ≡ page.old.before }
    ensures text { OnOk result (page.new.text ≡ page.old.text ++ text_of piece.now) }
{
    match piece {
        Piece::Word(word) => page.push(word.as_bytes()),
        Piece::Label(label) => page.push(label.as_slice()),
        Piece::BankRef(reference) => page.push(reference.as_slice()),
        Piece::OrDash(reference) => push_or_dash(page, reference.as_slice()),
        Piece::Words(words) => push_words(page, words),
        Piece::Day(day) => push_day(page, *day),
        Piece::LastDay(day) => push_last_day(page, *day),
        Piece::Amount(amount) => push_cents(page, amount.get()),
        Piece::Part(part) => push_cents(page, part.get()),
        Piece::Left(cents) => push_cents(page, *cents),
        Piece::Sum(cents) => push_sum(page, *cents),
        Piece::Bank(amount) => push_sum(page, amount.get() as i128),
        Piece::Matter(matter) => page.push(&matter_digits(*matter)),
        Piece::Entry(entry) => page.push(&entry.digits()),
        Piece::Reference(matter, entry) => push_reference(page, *matter, *entry),
        Piece::Place(matter, entry) => push_place(page, *matter, *entry),
        Piece::Owner(Owner::Matter { matter, entry }) => push_reference(page, *matter, *entry),
        Piece::Owner(Owner::Firm) => page.push(b"FIRM"),
        Piece::Person(person) => page.push(person.as_slice()),
        Piece::Caller(Caller::Cashier) => page.push(b"cashier"),
        Piece::Caller(Caller::Person(person)) => page.push(person.as_slice()),
    }
}

/// Appends a word after another field.
pub(crate) fn push_word(page: &mut Page, word: &str) -> Result<(), AllocError>
    ensures before { page.new.before ≡ page.old.before }
    ensures text { OnOk result (page.new.text ≡ page.old.text ++ further word.now) }
{
    page.push(b" ")?;
    page.push(word.as_bytes())
}

/// Appends fields after others.
pub(crate) fn push_fields(page: &mut Page, pieces: &[Piece<'_>]) -> Result<(), AllocError>
    ensures before { page.new.before ≡ page.old.before }
    ensures text { OnOk result (page.new.text ≡ page.old.text ++ flat_map further_piece pieces.now) }
{
    for piece in pieces {
        page.push(b" ")?;
        push_piece(page, piece)?;
    }
    Ok(())
}

/// Appends a line of fields separated by single spaces.
pub(crate) fn push_line(
    page: &mut Page,
    first: &Piece<'_>,
    others: &[Piece<'_>],
) -> Result<(), AllocError>
    ensures before { page.new.before ≡ page.old.before }
    ensures text { OnOk result (page.new.text ≡ page.old.text
        ++ (text_of first.now ++ (flat_map further_piece others.now ++ 10 ∷ []))) }
{
    push_piece(page, first)?;
    push_fields(page, others)?;
    page.push(b"\n")
}

/// Appends the first line of a report: its name and its day.
#[tactic(auto, unfolding(crate::specs::Texts::heading))]
pub(crate) fn push_heading(page: &mut Page, name: &str, day: Day) -> Result<(), AllocError>
    ensures before { page.new.before ≡ page.old.before }
    ensures text { OnOk result (page.new.text ≡ page.old.text ++ heading name.now day) }
{
    push_line(page, &Piece::Word(name), &[Piece::Day(day)])
}

/// Appends a left-aligned label and a right-aligned figure, each in its own width.
#[tactic(auto, unfolding(crate::specs::Texts::left_in, crate::specs::Texts::right_in))]
pub(crate) fn push_figure(
    page: &mut Page,
    label_places: usize,
    figure_places: usize,
    label: &[u8],
    figure: Sum,
) -> Result<(), AllocError>
    ensures before { page.new.before ≡ page.old.before }
    ensures text { OnOk result (page.new.text ≡ page.old.text
        ++ (left_in label_places label.now ++ right_in figure_places (sum_text figure))) }
{
    let text = figure.text();
    page.push(label)?;
    page.push_spaces(label_places.saturating_sub(label.len()))?;
    page.push_spaces(figure_places.saturating_sub(text.len()))?;
    page.push(text.as_slice())
}

/// Appends a line: a left-aligned label and a right-aligned figure, each in its own width.
pub(crate) fn push_column(
    page: &mut Page,
    label_places: usize,
    figure_places: usize,
    label: &[u8],
    figure: Sum,
) -> Result<(), AllocError>
    ensures before { page.new.before ≡ page.old.before }
    ensures text { OnOk result (page.new.text ≡ page.old.text
        ++ column label_places figure_places label.now (sum_text figure)) }
{
    push_figure(page, label_places, figure_places, label, figure)?;
    page.push(b"\n")
}

/// Appends a line for each label and figure.
pub(crate) fn push_columns(
    page: &mut Page,
    label_places: usize,
    figure_places: usize,
    rows: &[(&str, Sum)],
) -> Result<(), AllocError>
    ensures before { page.new.before ≡ page.old.before }
    ensures text { OnOk result (page.new.text ≡ page.old.text
        ++ flat_map (row_text label_places figure_places) rows.now) }
{
    for (label, figure) in rows {
        push_column(page, label_places, figure_places, label.as_bytes(), *figure)?;
    }
    Ok(())
}

/// A report that is a list: its name, its day and its lines.
#[derive(Drop)]
pub(crate) struct List<'a, T> {
    pub(crate) name: &'a str,
    pub(crate) today: Day,
    pub(crate) lines: &'a [T],
}

impl<T: Printed> Printed for List<'_, T> {
    ghost printed = { λ l. heading l.name.now l.today ++ flat_map T.printed l.lines.now };

    fn push_to(&self, page: &mut Page) -> Result<(), AllocError> {
        push_heading(page, self.name, self.today)?;
        page.push_lines(self.lines)
    }
}
