// Remarks about refused records, and what to do.

use crate::fields::text_at;
use crate::record_fault::write_record_fault;
use crate::sentence::{write_four, write_one, write_three, write_two};
use csv::ByteRecord;
use day_sheet::{Verb, form_of};
use std::fmt;
use trust_base::{CivilDay, Dollars, EntryNo, Refusal};

/// A record that was refused.
#[derive(Clone, Copy)]
pub struct RefusedRecord<'a> {
    row: &'a ByteRecord,
    refusal: Refusal,
}

// Of a refusal that no such record meets.
const ELSEWHERE: &str = "this is refused: docs/REFUSALS.md tells why";

// A day that may lie far ahead, as 2026-03-16.
#[derive(Clone, Copy)]
struct FarDay(CivilDay);

impl fmt::Display for FarDay {
    fn fmt<W: fmt::Write>(&self, f: &mut fmt::Formatter<W>) -> fmt::Result {
        let number = self.0.get();
        let (year, month, day) = (number / 10_000, number / 100 % 100, number % 100);
        write!(f, "{year}-{month:02}-{day:02}")
    }
}

impl<'a> RefusedRecord<'a> {
    /// Makes the remark about a record with this refusal.
    pub fn new(row: &'a ByteRecord, refusal: Refusal) -> RefusedRecord<'a> {
        RefusedRecord { row, refusal }
    }

    // The verb; `None` if the record dismisses a line.
    fn verb(&self) -> Option<Verb> {
        form_of(self.row).map(|form| form.verb)
    }

    // The matter that the record names.
    fn matter(&self) -> &'a str {
        text_at(self.row, 1)
    }

    // The entry that has to exist: for a payment, the fee or claim that it is paid from.
    fn entry(&self) -> &'a str {
        match self.verb() {
            Some(Verb::Propose) => text_at(self.row, 5),
            Some(_) | None => text_at(self.row, 2),
        }
    }

    // Writes a sentence that names the matter.
    fn write_matter<W: fmt::Write>(&self, f: &mut fmt::Formatter<W>, words: &str) -> fmt::Result {
        write_one(f, words, &self.matter())
    }

    // Writes a sentence that names the matter twice.
    fn write_matter_twice<W: fmt::Write>(
        &self,
        f: &mut fmt::Formatter<W>,
        words: &str,
    ) -> fmt::Result {
        write_two(f, words, &self.matter(), &self.matter())
    }

    // Writes a sentence that names the entry that has to exist, and tells how to look at it.
    fn write_entry<W: fmt::Write>(&self, f: &mut fmt::Formatter<W>, words: &str) -> fmt::Result {
        write_three(f, words, &self.entry(), &self.matter(), &self.entry())
    }

    // Writes a sentence that names the person and the matter, the matter perhaps twice.
    fn write_person<W: fmt::Write>(&self, f: &mut fmt::Formatter<W>, words: &str) -> fmt::Result {
        write_three(
            f,
            words,
            &text_at(self.row, 3),
            &self.matter(),
            &self.matter(),
        )
    }

    // Writes about an entry that is not of the kind that the verb needs.
    fn write_kind<W: fmt::Write>(&self, f: &mut fmt::Formatter<W>) -> fmt::Result {
        match self.verb() {
            Some(Verb::Cancel) => self.write_entry(
                f,
                "entry {} is no deposit: a proposed payment is withdrawn, a lawyer voids an issued one, \
                and a client disputes a fee; look at it by entry,{},{}",
            ),
            Some(Verb::Withdraw) => self.write_entry(
                f,
                "entry {} is no payment: a deposit is cancelled, and a client disputes a fee; \
                look at it by entry,{},{}",
            ),
            Some(Verb::Award) => {
                self.write_entry(f, "entry {} is no claim: look at it by entry,{},{}")
            }
            Some(Verb::Propose) => {
                self.write_entry(
                    f,
                    "entry {} is no fund of that kind: look at it by entry,{},{}",
                )
            }
            Some(
                Verb::Open
                | Verb::Seat
                | Verb::Drop
                | Verb::Deposit
                | Verb::Claim
                | Verb::Close
                | Verb::Purge
                | Verb::Entry
                | Verb::Show,
            )
            | None => f.write_str(ELSEWHERE),
        }
    }

    // Writes about an entry or a matter that is not in the state that the verb needs.
    fn write_state<W: fmt::Write>(&self, f: &mut fmt::Formatter<W>) -> fmt::Result {
        match self.verb() {
            Some(Verb::Cancel) => self.write_entry(
                f,
                "deposit {} is not held any more: if it was cleared, only the bank's line \
                of the opposite amount takes it back; look at it by entry,{},{}",
            ),
            Some(Verb::Award) => {
                self.write_entry(f, "claim {} is settled: look at it by entry,{},{}")
            }
            Some(Verb::Propose) => {
                write_one(
                    f,
                    "claim {} is not settled yet: award it first",
                    &self.entry(),
                )
            }
            Some(Verb::Withdraw) => self.write_entry(
                f,
                "payment {} is not proposed any more: if it was issued, a lawyer voids it; \
                look at it by entry,{},{}",
            ),
            Some(Verb::Purge) => { self.write_matter(f, "matter {} is not closed: close it first") }
            Some(
                Verb::Open
                | Verb::Seat
                | Verb::Drop
                | Verb::Deposit
                | Verb::Claim
                | Verb::Close
                | Verb::Entry
                | Verb::Show,
            )
            | None => f.write_str(ELSEWHERE),
        }
    }

    // Writes about an entry that is missing, or about an exception that the list does not have.
    fn write_missing<W: fmt::Write>(&self, f: &mut fmt::Formatter<W>) -> fmt::Result {
        match self.verb() {
            Some(_) => {
                let words = "matter {} has no entry {}: look at the number";
                write_two(f, words, &self.matter(), &self.entry())
            }
            None => f.write_str(
                "no exception is this line, in all five fields: look at the list of exceptions; \
                a - there is an empty field, and a blank may be a tab or a line end",
            ),
        }
    }

    // Writes about an entry that is not the next one, which is given.
    fn write_wrong_number<W: fmt::Write>(
        &self,
        f: &mut fmt::Formatter<W>,
        next: EntryNo,
    ) -> fmt::Result {
        let number = text_at(self.row, 2);
        match EntryNo::read(number.as_bytes()) {
            Some(asked) if asked.get() > next.get() => {
                let words = "entry {} leaves a gap: the next free one is {}";
                write_two(f, words, &number, &next)
            }
            Some(_) | None => {
                let words = "entry {} is taken by something else: look at it by entry,{},{}, \
                    and only if that is not this one take the next free number, {}";
                write_four(f, words, &number, &self.matter(), &number, &next)
            }
        }
    }
}

impl fmt::Display for RefusedRecord<'_> {
    fn fmt<W: fmt::Write>(&self, f: &mut fmt::Formatter<W>) -> fmt::Result {
        match self.refusal {
            Refusal::BadField(field) => write_record_fault(f, self.row, field),
            Refusal::NoMatter => {
                self.write_matter(
                    f,
                    "matter {} was never opened: look at the number, or open it",
                )
            }
            Refusal::Purged => {
                self.write_matter(f, "matter {} was purged: its number is not used again")
            }
            Refusal::AlreadyOpen => self.write_matter_twice(
                f,
                "matter {} was opened before: show,{}, tells for whom; if that is this one, go on, \
                and else take another number",
            ),
            Refusal::Closed => {
                self.write_matter(
                    f,
                    "matter {} is closed: a new matter takes what comes later",
                )
            }
            Refusal::DateBackwards(last) => {
                let words = "matter {} has work of {}: --today is that day or a later one";
                write_two(f, words, &self.matter(), &last)
            }
            Refusal::WrongNumber(None) => {
                self.write_matter(f, "matter {} has entry 9999, the last: open another matter")
            }
            Refusal::WrongNumber(Some(next)) => self.write_wrong_number(f, next),
            Refusal::NoEntry => self.write_missing(f),
            Refusal::WrongKind => self.write_kind(f),
            Refusal::WrongState => self.write_state(f),
            Refusal::PayeeIsCash => f.write_str(
                "nobody is paid in cash from a trust account: name who gets the money",
            ),
            Refusal::WrongPayee => f.write_str(
                "this fund does not pay this payee: a fee pays FIRM, a claim its claimant, \
                and general anybody but FIRM",
            ),
            Refusal::BadSplit => {
                let words = "that is more than the claim: look at it by entry,{},{}";
                write_two(f, words, &self.matter(), &self.entry())
            }
            Refusal::Short(left) => {
                let words =
                    "this fund has only {} left: ask for no more, or wait for the bank's statement";
                write_one(f, words, &Dollars(left as i128))
            }
            Refusal::SeatTaken => self.write_person(
                f,
                "{} has a seat in matter {} already: show,{}, tells in which role; \
                to change it, drop the seat first",
            ),
            Refusal::NoSeat => {
                self.write_person(f, "{} has no seat in matter {}: look at the name")
            }
            Refusal::LastLawyer => self.write_person(
                f,
                "{} is the only lawyer of matter {}: seat the other lawyer first",
            ),
            Refusal::NotEmpty => self.write_matter_twice(
                f,
                "matter {} holds money, or a payment waits, as ledger {} shows: pay out what it has; \
                what is held or issued waits for the bank, or is cancelled or voided; \
                what is proposed is withdrawn or declined",
            ),
            Refusal::TooEarly(first) => {
                let words = "matter {} may be purged from {} on: wait for that day";
                write_two(f, words, &self.matter(), &FarDay(first))
            }
            Refusal::Store => f.write_str(
                "the store failed: this record and those after it were not run; send the whole sheet again",
            ),
            Refusal::Memory => f.write_str(
                "memory ran out: this record and those after it were not run; send the whole sheet again",
            ),
            Refusal::BadMessage
            | Refusal::LengthRequired
            | Refusal::TooLarge
            | Refusal::NoRoute
            | Refusal::BadMethod
            | Refusal::NoCaller
            | Refusal::NotAllowed(_)
            | Refusal::NoStatement
            | Refusal::PeriodPurged => f.write_str(ELSEWHERE),
        }
    }
}
