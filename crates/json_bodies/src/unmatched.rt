// The body of what a match leaves: compact JSON, the keys of each object sorted by their bytes.

ghost use Rattle.std.specs.Prelude.{◌≡◌, IfOk};
ghost use Rattle.json_bodies.specs.UnmatchedBody.{candidate_object, candidates_object, exception_object, exceptions_object};
ghost use Rattle.json_bodies.specs.UnmatchedBody.{line_object, misfit_name as name_of_misfit};
ghost use Rattle.json_bodies.specs.UnmatchedBody.{reason_object, record_object, relation_name as name_of_relation};
ghost use Rattle.json_bodies.specs.UnmatchedBody.{sharers_object, unmatched_body, unmatched_object};

use crate::to_json::{ToJson, json_text, object};
use json::Writer;
use statement_match::{
    Candidate, Candidates, Misfit, NamedException, NamedExceptions, Relation, Sharers, Unmatched,
    UnmatchedReason, UnmatchedRecord,
};
use std::alloc::{AllocError, Global};
use trust_base::Line;

// An entry of the book.
impl ToJson for Candidate {
    ghost told = { candidate_object };

    fn write(&self, alloc: Global, out: &mut Writer) -> Result<(), AllocError> {
        object!(
            "amount": &self.amount,
            "bank_ref": &self.bank_ref,
            "day": self.day,
            "party": &self.party,
            "reference": &self.reference,
            "state": self.state.word(),
        )
        .write(alloc, out)
    }
}

// How many entries there are, and the first of them.
impl ToJson for Candidates {
    ghost told = { candidates_object };

    fn write(&self, alloc: Global, out: &mut Writer) -> Result<(), AllocError> {
        object!(
            "count": self.count,
            "listed": &self.listed,
        )
        .write(alloc, out)
    }
}

fn misfit_name(misfit: Misfit) -> &'static str
    ensures { result.now ≡ name_of_misfit misfit }
{
    match misfit {
        Misfit::NoEntry => "NoEntry",
        Misfit::OfNoEntry => "OfNoEntry",
        Misfit::Again => "Again",
        Misfit::DatedAfter(_) => "DatedAfter",
        Misfit::TakesBack => "TakesBack",
        Misfit::NotWaiting => "NotWaiting",
        Misfit::OfAnotherAmount => "OfAnotherAmount",
        Misfit::Fits => "Fits",
    }
}

// An exception: the entry of its reference, why it matches nothing, and the reference.
impl ToJson for NamedException {
    ghost told = { exception_object };

    fn write(&self, alloc: Global, out: &mut Writer) -> Result<(), AllocError> {
        object!(
            "entry": &self.entry,
            "misfit": misfit_name(self.misfit),
            "reference": &self.reference,
        )
        .write(alloc, out)
    }
}

// How many exceptions there are, and the first of them.
impl ToJson for NamedExceptions {
    ghost told = { exceptions_object };

    fn write(&self, alloc: Global, out: &mut Writer) -> Result<(), AllocError> {
        object!("count": self.count, "listed": &self.listed).write(alloc, out)
    }
}

// How many records there are, and the numbers of the first of them.
impl ToJson for Sharers {
    ghost told = { sharers_object };

    fn write(&self, alloc: Global, out: &mut Writer) -> Result<(), AllocError> {
        object!("count": self.count, "listed": &self.listed).write(alloc, out)
    }
}

fn relation_name(relation: Relation) -> &'static str
    ensures { result.now ≡ name_of_relation relation }
{
    match relation {
        Relation::Fitted => "Fitted",
        Relation::NotWaiting => "NotWaiting",
        Relation::IssuedAfter => "IssuedAfter",
        Relation::OfAnotherAmount => "OfAnotherAmount",
        Relation::OfItsAmount => "OfItsAmount",
        Relation::MaybeReturned => "MaybeReturned",
        Relation::Named => "Named",
        Relation::NamedAgain => "NamedAgain",
        Relation::NamedOfAnotherAmount => "NamedOfAnotherAmount",
        Relation::HeldOn(_) => "HeldOn",
    }
}

// A reason: its name, and what it tells.
impl ToJson for UnmatchedReason {
    ghost told = { reason_object };

    fn write(&self, alloc: Global, out: &mut Writer) -> Result<(), AllocError> {
        match self {
            UnmatchedReason::IsException(exceptions, candidates) => {
                object!("entries": candidates, "exceptions": exceptions, "name": "IsException").write(
                    alloc, out,
                )
            }
            UnmatchedReason::DatedAfter(today) => {
                object!("name": "DatedAfter", "today": *today).write(alloc, out)
            }
            UnmatchedReason::Doubled { records, booked } => {
                object!("booked": *booked, "name": "Doubled", "records": *records).write(alloc, out)
            }
            UnmatchedReason::BesideBooked => object!("name": "BesideBooked").write(alloc, out),
            UnmatchedReason::FitsSeveral(found) => {
                object!("entries": found, "name": "FitsSeveral").write(alloc, out)
            }
            UnmatchedReason::Claimed(reference) => {
                object!("name": "Claimed", "reference": reference).write(alloc, out)
            }
            UnmatchedReason::Shared(sharers, reference) => {
                object!("name": "Shared", "records": sharers, "reference": reference).write(
                    alloc, out,
                )
            }
            UnmatchedReason::OtherBusiness(found) => {
                object!("entries": found, "name": "OtherBusiness").write(alloc, out)
            }
            UnmatchedReason::Related(relation, found) => {
                object!("entries": found, "name": relation_name(*relation)).write(alloc, out)
            }
            UnmatchedReason::NoneOfItsAmount => {
                object!("name": "NoneOfItsAmount").write(alloc, out)
            }
            UnmatchedReason::Together(day, found) => {
                object!("day": *day, "entries": found, "name": "Together").write(alloc, out)
            }
            UnmatchedReason::OwnMoney(cents) => {
                object!("name": "OwnMoney", "sum": cents).write(alloc, out)
            }
            UnmatchedReason::MovesNothing => object!("name": "MovesNothing").write(alloc, out),
            UnmatchedReason::NamesNone => object!("name": "NamesNone").write(alloc, out),
        }
    }
}

// A line of the statement.
impl ToJson for Line {
    ghost told = { line_object };

    fn write(&self, alloc: Global, out: &mut Writer) -> Result<(), AllocError> {
        object!(
            "amount": self.amount,
            "bank_ref": &self.bank_ref,
            "date": self.date,
            "reference": &self.reference,
            "text": &self.text,
        )
        .write(alloc, out)
    }
}

// A record: its line, its number and its reason; of one that is no line the number alone.
impl ToJson for UnmatchedRecord {
    ghost told = { record_object };

    fn write(&self, alloc: Global, out: &mut Writer) -> Result<(), AllocError> {
        match self {
            UnmatchedRecord::Unreadable(number) => object!("number": *number).write(alloc, out),
            UnmatchedRecord::OfLine(number, line, reason) => {
                object!("line": line, "number": *number, "reason": reason).write(alloc, out)
            }
        }
    }
}

// All that a match leaves.
impl ToJson for Unmatched {
    ghost told = { unmatched_object };

    fn write(&self, alloc: Global, out: &mut Writer) -> Result<(), AllocError> {
        object!(
            "booked": self.booked,
            "records": &self.records,
            "written": self.written,
        )
        .write(alloc, out)
    }
}

/// The body that tells what a match leaves: the records that a person has to look at, each with its reason and with
/// what it may be, and the counts. The only error is out of memory.
#[tactic(auto, unfolding(crate::specs::UnmatchedBody::unmatched_body))]
pub fn unmatched_body(alloc: Global, unmatched: &Unmatched) -> Result<Vec<u8>, AllocError>
    ensures { IfOk result (λ bytes. bytes.items ≡ unmatched_body unmatched.now) }
{
    json_text(alloc, unmatched)
}
