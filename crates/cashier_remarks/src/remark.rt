// Remarks: what a person is told during a run, in addition to what it prints and how it ends. They are told and
// forgotten: nothing compares them.

use crate::book_remark::BookRemark;
use crate::caution::Caution;
use crate::check::{write_flaw, write_trail_flaw, write_unread};
use crate::exception::ExceptionRemark;
use crate::file_remark::FileRemark;
use crate::header::HeaderRemark;
use crate::line::LineRemark;
use crate::path_text::PathText;
use crate::reference::Reference;
use crate::refused::RefusedRecord;
use crate::report_remark::ReportRemark;
use match_remarks::UnmatchedLine;
use std::fmt;
use trust_base::{Day, StoreFault};
use trust_desk::{Flaw, TrailFlaw, Unread};

/// What a person is told during a run.
#[derive(Clone, Copy)]
pub enum Remark<'a> {
    /// The record of a sheet that begins on this line was refused.
    Refused {
        line: u64,
        told: RefusedRecord<'a>,
    },
    /// The record of a sheet that begins on this line was accepted, but may not mean what was intended.
    Accepted {
        line: u64,
        told: Caution<'a>,
    },
    /// A sheet is above the size limit.
    SheetTooLarge,
    /// About the line of a statement that begins on this line of its file, and what it names, if that is known.
    Line {
        line: u64,
        of: Option<Reference<'a>>,
        told: LineRemark<'a>,
    },
    /// Something about the record that begins on this line that only the file of a statement shows.
    OfFile {
        line: u64,
        told: FileRemark,
    },
    /// A statement has another header.
    Header(HeaderRemark<'a>),
    /// A statement is above the size limit, after this many of its records were handled.
    StatementTooLarge {
        taken: u64,
    },
    /// Memory ran out for what is told about a statement's lines.
    LinesEnd,
    /// The lines that a book has before an import could not be read, because of this fault.
    EarlierEnd(StoreFault),
    /// A statement to be matched is above the size limit.
    MatchTooLarge,
    /// What was written of a matched statement is above the size limit of an import.
    MatchedTooLong,
    /// About a record that a match leaves.
    Unmatched(UnmatchedLine<'a>),
    /// How many records of a matched statement were written, were in the book already, and have to be looked at.
    MatchCounts {
        written: u64,
        booked: u64,
        left: u64,
    },
    /// About an exception: why it is one, or that an import would accept it.
    Exception(ExceptionRemark<'a>),
    /// About a report.
    Report(ReportRemark<'a>),
    /// About the book at this path.
    Book {
        path: &'a str,
        told: BookRemark,
    },
    /// This is not sound in the book's rows.
    Flaw(Flaw),
    /// In this the book's trail does not fit its rows.
    TrailFlaw(TrailFlaw),
    /// This can't be read in the book's rows.
    Unread(Unread),
    /// What was accepted is lost when the run ends.
    NothingKept,
    /// The business day is far ahead of the machine's clock.
    FarDay(Day),
}

impl fmt::Display for Remark<'_> {
    fn fmt<W: fmt::Write>(&self, f: &mut fmt::Formatter<W>) -> fmt::Result {
        match self {
            Remark::Refused { line, told } => write!(f, "line {line}: {told}"),
            Remark::Accepted { line, told } => write!(f, "line {line}: {told}"),
            Remark::SheetTooLarge => f.write_str(
                "the sheet has more than 4194304 bytes, and no record was run: send it in parts",
            ),
            Remark::Line {
                line,
                of: None,
                told,
            } => write!(f, "line {line}: {told}"),
            Remark::Line {
                line,
                of: Some(reference),
                told,
            } => { write!(f, "line {line}, {reference}: {told}") }
            Remark::OfFile { line, told } => write!(f, "line {line}: {told}"),
            Remark::Header(told) => told.fmt(f),
            Remark::StatementTooLarge { taken: 0 } => f.write_str(
                "the statement has more than 4194304 bytes, and no line was applied: \
                import it in parts, each with the first line",
            ),
            Remark::StatementTooLarge { taken } => write!(
                f,
                "the statement has more than 4194304 bytes, and was read up to record {taken}: \
                import it in parts, each with the first line"
            ),
            Remark::LinesEnd => {
                f.write_str("memory ran out: nothing more is told about the statement's lines")
            }
            Remark::EarlierEnd(fault) => write!(
                f,
                "{fault}: could not look for lines that an earlier import put on another entry"
            ),
            Remark::MatchTooLarge => f.write_str(
                "the statement has more than 4194304 bytes: match it in parts, each with the first line",
            ),
            Remark::MatchedTooLong => f.write_str(
                "what was written has more than 4194304 bytes, and an import refuses it: \
                match the bank's file in parts, each with the first line",
            ),
            Remark::Unmatched(line) => line.fmt(f),
            Remark::MatchCounts {
                written,
                booked,
                left,
            } => write!(
                f,
                "{written} records written, {booked} in the book already, {left} to be looked at"
            ),
            Remark::Exception(told) => told.fmt(f),
            Remark::Report(told) => told.fmt(f),
            Remark::Book { path, told } => {
                let (path, words) = (PathText(*path), (*told).words());
                write!(f, "{path} {words}")
            }
            Remark::Flaw(flaw) => write_flaw(f, flaw),
            Remark::TrailFlaw(flaw) => write_trail_flaw(f, flaw),
            Remark::Unread(unread) => write_unread(f, unread),
            Remark::NothingKept => f.write_str("nothing was kept: no --db was given"),
            Remark::FarDay(day) => write!(
                f,
                "{day} is more than 31 days ahead of this machine's clock: what is booked locks its \
                matters until then, and only a backup takes it back; look at --today"
            ),
        }
    }
}
