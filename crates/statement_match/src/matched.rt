// Matches a statement whose references may be empty against a book.

ghost use Rattle.std.specs.Prelude.{◌≡◌, ℕ, IfOk};
ghost use Rattle.trust_store.specs.Calls.{IsRead};
ghost use Rattle.statement_lines.specs.Held.{Held};
ghost use Rattle.statement_lines.specs.Records.{records_of};
ghost use Rattle.statement_match.specs.Matched.{is_left as has_left, matched, matched_by as matched_by_known};
ghost use Rattle.statement_match.specs.Rule.{outcomes as outcomes_told};
ghost use Rattle.statement_match.specs.Statements.{statement_text};

use crate::knowing::known_in;
use crate::rule::outcomes_by;
use crate::unmatched::{Unmatched, unmatched_of};
use firm_rows::FirmLedger;
use statement_lines::{Index, Known, LineOutcome, Records, records_in, write_statement};
use std::alloc::{AllocError, Global};
use std::marker::Model;
use trust_base::{Day, StoreFault};
use trust_store::Book;

/// The result of matching a statement whose references may be empty.
///
/// Contracts see it as the text and what is left.
#[derive(Drop)]
pub struct Matched {
    /// The statement for the import, in CSV: records with a reference unchanged, and records without one that are sure,
    /// with the reference of their entry.
    pub statement: Vec<u8>,
    /// The records that a person has to look at, each with its reason, and the counts.
    pub unmatched: Unmatched,
}

impl Model for Matched {
    ghost use Rattle.statement_match.specs.Matched.{Matched};

    ghost Value = { Matched };

    ghost view = { λ m. record { statement = m.statement.items; unmatched = m.unmatched } };
}

impl Matched {
    /// Whether a person has to look at a record.
    pub fn is_left(&self) -> bool
        ensures { result ≡ has_left self.now }
    {
        !self.unmatched.records.is_empty()
    }
}

// Returns the statement for the import. `records` are those of a statement whose references may be empty, and each line
// has an outcome.
fn statement_of(
    alloc: Global,
    records: &Records,
    outcomes: &[LineOutcome],
    statement: &[u8],
) -> Result<Vec<u8>, AllocError>
    requires { records.now ≡ records_of statement.now }
    ensures { (today : ℕ) (held : Held) → outcomes.now ≡ outcomes_told today held records.now.lines
        → IfOk result (λ text. text.items ≡ statement_text today held statement.now) }
{
    write_statement(alloc, statement, records, outcomes)
}

// Matches a statement with these records against what is known of a book, and the firm's own ledger in it.
fn matched_by(
    alloc: Global,
    today: Day,
    known: &Known,
    own: FirmLedger,
    statement: &[u8],
    records: &Records,
) -> Result<Matched, AllocError>
    requires { records.now ≡ records_of statement.now }
    ensures { IfOk result (λ found. found ≡ matched_by_known today known.now own statement.now) }
{
    let index = Index::of(alloc, &known.held, &records.lines)?;
    let outcomes = outcomes_by(alloc, today, &index)?;
    let text = statement_of(alloc, records, &outcomes, statement)?;
    let unmatched = unmatched_of(alloc, today, known, own, records, index, &outcomes)?;
    Ok(Matched {
        statement: text,
        unmatched,
    })
}

/// Matches a statement against a book on a business day. The book is unchanged. The first record of the statement is
/// taken as its header, whatever it says.
///
/// Returns `Store` if the book's store failed, and `Memory` if memory ran out.
#[tactic(auto, unfolding(crate::specs::Matched::matched))]
pub fn match_statement<B: Book>(
    alloc: Global,
    today: Day,
    book: &mut B,
    statement: &[u8],
) -> Result<Matched, StoreFault>
    ensures matched { (B.seen book.new).clean → (B.seen book.old).stands
        → IfOk result (λ found. found ≡ matched today (B.seen book.old).firm statement.now) }
    ensures read { IsRead result (B.seen book.old) (B.seen book.new) }
{
    let known = known_in(alloc, book)?;
    let own = book.firm(alloc)?;
    let records = records_in(alloc, statement)?;
    let found = matched_by(alloc, today, &known, own, statement, &records)?;
    Ok(found)
}
