// Checks the book's rows.

ghost use Rattle.std.specs.Prelude.{◌≡◌, ◌≢◌, ◌⊎◌, ◌↔◌, ℕ, IfOk, IfSome, OnOk, Ok, Err, None, Some};
ghost use Rattle.std.specs.Io.KnownBytes.{Appends};
ghost use Rattle.trust_desk.specs.Answered.{IfServed};
ghost use Rattle.trust_desk.specs.Calls.{IsAny, KeepsBook};
ghost use Rattle.portal_http.specs.Output.{output_of};
ghost use Rattle.cashier.specs.Calls.{LeavesSame};
ghost use Rattle.cashier.specs.Check.{CheckEnds, IsCheckTrue, IsSaid, IsSaidRefused, IsTrueOf, PrintsCheck, check_text};
ghost use Rattle.cashier.specs.Check.{approvals_text, counts_text, flaw_text, found_outcome};
ghost use Rattle.cashier.specs.Check.{trail_flaw_text, unread_text};
ghost use Rattle.std.specs.Result.{result_err};
ghost use Rattle.firm_audit.specs.Flaws.{IsFlawOf};
ghost use Rattle.firm_audit.specs.Trails.{IsTrailFound};
ghost use Rattle.firm_rows.specs.Firm.{Firm};
ghost use Rattle.firm_rows.specs.FirmSound.{FirmSound};
ghost use Rattle.book_reports.specs.Checking.{AreCountsOf, AreReads};
ghost use Rattle.book_reports.specs.declared.checking.RowCounts.{RowCounts};

use crate::outcome::{Outcome, outcome_of_refusal, write_refusal};
use cashier_remarks::{Remark, Remarks};
use sql_schema::{
    ACT_TABLE, BALANCE_TABLE, ENTRY_TABLE, EXCEPTION_TABLE, FIRM_LINE_TABLE, JOURNAL_TABLE,
    MATTER_TABLE, SEAT_TABLE,
};
use std::alloc::Global;
use std::fmt;
use std::io::Write;
use trust_base::{Day, Refusal, StoreFault, send};
use trust_desk::{Checked, Desk, Flaw, RowCounts, TrailCounts, TrailFlaw, TrailFound, Unread};
use trust_store::Book;

/// The result of checking a book.
#[derive(Clone, Copy)]
pub enum CheckFound {
    /// The rows are those of a sound firm, and its trail fits them; these are the counts of both.
    Sound(RowCounts, TrailCounts),
    /// The rows are those of a sound firm, and these are their counts; its trail does not fit them, for this reason.
    Amiss(RowCounts, TrailFlaw),
    /// The rows are not sound, for this reason.
    Flawed(Flaw),
    /// A row is invalid, or a matter is not the whole of sound rows.
    Unreadable(Unread),
}

// The lines for how many rows of each kind there are.
#[derive(Clone, Copy)]
struct CountLines {
    counts: RowCounts,
}

impl fmt::Display for CountLines {
    ghost output = { λ lines. Some (counts_text lines.counts) };

    fn fmt<W: fmt::Write>(&self, f: &mut fmt::Formatter<W>) -> fmt::Result {
        let counts = self.counts;
        let (matters, entries, movements) = (counts.matters, counts.entries, counts.movements);
        let (own, exceptions, balances) = (counts.firm_lines, counts.exceptions, counts.balances);
        write!(
            f,
            "MATTERS {matters}\nENTRIES {entries}\nMOVEMENTS {movements}\n\
            FIRM LINES {own}\nEXCEPTIONS {exceptions}\nBALANCES {balances}\n"
        )
    }
}

// The lines for how many payments have their approval in the trail, and how many matters are older than their acts.
#[derive(Clone, Copy)]
struct ApprovalLines {
    counts: TrailCounts,
}

impl fmt::Display for ApprovalLines {
    ghost output = { λ lines. Some (approvals_text lines.counts) };

    fn fmt<W: fmt::Write>(&self, f: &mut fmt::Formatter<W>) -> fmt::Result {
        let (approved, earlier) = (self.counts.approved, self.counts.earlier);
        let matters = self.counts.matters;
        write!(
            f,
            "APPROVALS {approved}\nEARLIER APPROVALS {earlier}\nEARLIER MATTERS {matters}\n"
        )
    }
}

// The name of a flaw of the trail.
#[derive(Clone, Copy)]
struct TrailFlawName {
    flaw: TrailFlaw,
}

impl fmt::Display for TrailFlawName {
    ghost output = { λ name. Some (trail_flaw_text name.flaw) };

    fn fmt<W: fmt::Write>(&self, f: &mut fmt::Formatter<W>) -> fmt::Result {
        match self.flaw {
            TrailFlaw::Matter(matter) => write!(f, "TRAIL {matter}"),
            TrailFlaw::Act { matter, act } => write!(f, "TRAIL {matter} ACT {act}"),
            TrailFlaw::Entry { matter, entry } => write!(f, "TRAIL {matter}-{entry}"),
        }
    }
}

// The name of a flaw.
#[derive(Clone, Copy)]
struct FlawName {
    flaw: Flaw,
}

impl fmt::Display for FlawName {
    ghost output = { λ name. Some (flaw_text name.flaw) };

    fn fmt<W: fmt::Write>(&self, f: &mut fmt::Formatter<W>) -> fmt::Result {
        match self.flaw {
            Flaw::Matter(matter) => write!(f, "MATTER {matter}"),
            Flaw::Entry { matter, entry } => write!(f, "ENTRY {matter}-{entry}"),
            Flaw::Journal(matter) => write!(f, "JOURNAL {matter}"),
            Flaw::Movement(number) => write!(f, "MOVEMENT {number}"),
            Flaw::OwnMovements => f.write_str("OWN MOVEMENTS"),
            Flaw::FirmLine(number) => write!(f, "FIRM LINE {number}"),
            Flaw::Exception(number) => write!(f, "EXCEPTION {number}"),
            Flaw::Balance(number) => write!(f, "BALANCE {number}"),
        }
    }
}

// The name of a row that can't be read.
#[derive(Clone, Copy)]
struct RowName {
    row: Unread,
}

impl fmt::Display for RowName {
    ghost output = { λ name. Some (unread_text name.row) };

    fn fmt<W: fmt::Write>(&self, f: &mut fmt::Formatter<W>) -> fmt::Result {
        match self.row {
            Unread::Matter(matter) => write!(f, "MATTER {matter}"),
            Unread::Head(None) => write!(f, "ROW {MATTER_TABLE} FIRST"),
            Unread::Head(Some(matter)) => write!(f, "ROW {MATTER_TABLE} AFTER {matter}"),
            Unread::Seat(matter) => write!(f, "ROW {SEAT_TABLE} OF {matter}"),
            Unread::Entry {
                matter,
                after: None,
            } => write!(f, "ROW {ENTRY_TABLE} FIRST OF {matter}"),
            Unread::Entry {
                matter,
                after: Some(entry),
            } => write!(f, "ROW {ENTRY_TABLE} AFTER {matter}-{entry}"),
            Unread::Movement(number) => write!(f, "ROW {JOURNAL_TABLE} {number}"),
            Unread::FirmLine(number) => write!(f, "ROW {FIRM_LINE_TABLE} {number}"),
            Unread::Exception(number) => write!(f, "ROW {EXCEPTION_TABLE} {number}"),
            Unread::Balance(number) => write!(f, "ROW {BALANCE_TABLE} {number}"),
            Unread::Act(number) => write!(f, "ROW {ACT_TABLE} {number}"),
            Unread::Dismissal(number) => write!(f, "ROW dismissal {number}"),
            Unread::Elsewhere => f.write_str("ROW ELSEWHERE"),
        }
    }
}

impl fmt::Display for CheckFound {
    ghost output = { λ found. Some (check_text found) };

    fn fmt<W: fmt::Write>(&self, f: &mut fmt::Formatter<W>) -> fmt::Result {
        match *self {
            CheckFound::Sound(counts, trail) => {
                let lines = CountLines { counts };
                let approvals = ApprovalLines { counts: trail };
                write!(f, "SOUND\n{lines}{approvals}")
            }
            CheckFound::Amiss(counts, flaw) => {
                let lines = CountLines { counts };
                let name = TrailFlawName { flaw };
                write!(f, "SOUND\n{lines}{name}\n")
            }
            CheckFound::Flawed(flaw) => {
                let name = FlawName { flaw };
                write!(f, "UNSOUND\n{name}\n")
            }
            CheckFound::Unreadable(row) => {
                let name = RowName { row };
                write!(f, "UNSOUND\n{name}\n")
            }
        }
    }
}

// The result of a check in which all rows could be read.
fn found_of(checked: Checked) -> CheckFound
    ensures { (firm : Firm) (before after : ℕ) → (result_err checked.found ≡ None ↔ FirmSound firm)
        → IfSome (result_err checked.found) (IsFlawOf firm) → AreCountsOf firm checked.counts
        → IfOk checked.found (IsTrailFound firm) → IsTrueOf firm before after result }
{
    let Checked { counts, found } = checked;
    match found {
        Ok(TrailFound::Fits(trail)) => CheckFound::Sound(counts, trail),
        Ok(TrailFound::Flawed(flaw)) => CheckFound::Amiss(counts, flaw),
        Err(flaw) => CheckFound::Flawed(flaw),
    }
}

// Checks the rows of a desk's book on a business day.
#[tactic(auto, using(book_reports::proofs::ReadCalls::reads_of_read))]
fn find_flaw<B: Book>(
    alloc: Global,
    desk: &mut Desk<B>,
    today: Day,
) -> Result<CheckFound, StoreFault>
    ensures sound { (B.seen desk.new).clean → (B.seen desk.old).readable
        → IfOk result (IsTrueOf (B.seen desk.old).firm (B.seen desk.old).refusals (B.seen desk.new).refusals) }
    ensures reads { AreReads (B.seen desk.old) (B.seen desk.new) }
    ensures serves { (B.seen desk.new).sure → OnOk result (B.seen desk.new).clean }
{
    match desk.check(alloc) {
        Ok(checked) => Ok(found_of(checked)),
        Err(StoreFault::Memory) => Err(StoreFault::Memory),
        Err(StoreFault::Store) => {
            let unread = desk.find_unread(alloc, today)?;
            Ok(CheckFound::Unreadable(unread))
        }
    }
}

// The outcome for a result.
fn outcome_of_found(found: &CheckFound) -> Outcome
    ensures { result ≡ found_outcome found.now }
{
    match found {
        CheckFound::Sound(_, _) => Outcome::Done,
        CheckFound::Amiss(_, _) | CheckFound::Flawed(_) | CheckFound::Unreadable(_) =>
            Outcome::Refused,
    }
}

// Prints the line for the fault that kept the book from being read.
fn print_fault<W: Write>(writer: &mut W, fault: StoreFault) -> Outcome
    ensures began { result ≢ Outcome.CommandLine }
    ensures prints { PrintsCheck (Err fault) (output_of W.contents writer.old writer.new) result }
    ensures unsaid { result ≢ Outcome.Done }
    ensures unrefused { result ≢ Outcome.Refused }
{
    let refusal = Refusal::from(fault);
    let Ok(()) = write_refusal(writer, &refusal) else {
        return Outcome::OutputFault;
    };
    outcome_of_refusal(&refusal)
}

// Prints the result, or that there was no memory for its text.
fn print_told<W: Write>(alloc: Global, writer: &mut W, told: &CheckFound) -> Outcome
    ensures began { result ≢ Outcome.CommandLine }
    ensures prints { PrintsCheck (Ok told.now) (output_of W.contents writer.old writer.new) result
        ⊎ PrintsCheck (Err StoreFault.Memory) (output_of W.contents writer.old writer.new) result }
    ensures said { result ≡ Outcome.Done → IsSaid (Ok told.now) (output_of W.contents writer.old writer.new) }
    ensures refused { result ≡ Outcome.Refused
        → IsSaidRefused (Ok told.now) (output_of W.contents writer.old writer.new) }
{
    let Ok(text) = format!(in alloc; "{told}") else {
        return print_fault(writer, StoreFault::Memory);
    };
    let Ok(()) = send(writer, text.as_bytes()) else {
        return Outcome::OutputFault;
    };
    outcome_of_found(told)
}

// Prints the result, or the line for the fault that kept the book from being read.
fn print_found<W: Write>(
    alloc: Global,
    writer: &mut W,
    found: &Result<CheckFound, StoreFault>,
) -> Outcome
    ensures began { result ≢ Outcome.CommandLine }
    ensures prints { PrintsCheck found.now (output_of W.contents writer.old writer.new) result
        ⊎ PrintsCheck (Err StoreFault.Memory) (output_of W.contents writer.old writer.new) result }
    ensures said { result ≡ Outcome.Done → IsSaid found.now (output_of W.contents writer.old writer.new) }
    ensures refused { result ≡ Outcome.Refused → IsSaidRefused found.now (output_of W.contents writer.old writer.new) }
{
    match found {
        Ok(told) => print_told(alloc, writer, told),
        Err(fault) => print_fault(writer, *fault),
    }
}

// Reports the result to a person.
fn tell_found<M: Remarks>(remarks: &M, found: &Result<CheckFound, StoreFault>) {
    match found {
        Ok(CheckFound::Flawed(flaw)) => remarks.tell(&Remark::Flaw(*flaw)),
        Ok(CheckFound::Unreadable(row)) => remarks.tell(&Remark::Unread(*row)),
        Ok(CheckFound::Amiss(_, flaw)) => remarks.tell(&Remark::TrailFlaw(*flaw)),
        Ok(CheckFound::Sound(_, _)) | Err(_) => (),
    }
}

/// Checks all rows of a desk's book, and prints that they are those of a sound firm and how many there are, or what is
/// not sound in them; and whether the trail fits them. Remarks tell a person more. The store may hold anything that can
/// be read as rows. If the outcome is `Done`, the rows are those of a sound firm, whose trail fits them; if it is
/// `Refused`, the flaw that is printed is there, or the book refused to read the row that is, and counted that. The
/// book is unchanged.
///
/// The outcome is `Done` if the rows are sound and the trail fits, and `Refused` if not, or a row is invalid. If the
/// book could not be read or memory ran out, the line of that refusal was printed, and the outcome is `StoreFault` or
/// `MemoryFault`. If a write failed, it is `OutputFault`, and only a prefix of the text or line was written.
pub fn run_check<M: Remarks, W: Write, B: Book>(
    alloc: Global,
    remarks: &M,
    writer: &mut W,
    desk: &mut Desk<B>,
    today: Day,
) -> Outcome
    ensures sound { (B.seen desk.new).clean → (B.seen desk.old).readable
        → IsCheckTrue (B.seen desk.old) (B.seen desk.new) (output_of W.contents writer.old writer.new) result }
    ensures began { result ≢ Outcome.CommandLine }
    ensures ends { IfServed (B.seen desk.old) (B.seen desk.new)
        (CheckEnds (output_of W.contents writer.old writer.new) result) }
    ensures kept { KeepsBook IsAny (B.seen desk.old) (B.seen desk.new) }
    ensures serves { result ≡ Outcome.Done → (B.seen desk.new).sure → (B.seen desk.new).clean }
    ensures crash { (B.seen desk.new).clean → (B.seen desk.old).stands
        → LeavesSame (B.seen desk.old) (B.seen desk.new) }
{
    let found = find_flaw(alloc, desk, today);
    tell_found(remarks, &found);
    print_found(alloc, writer, &found)
}
