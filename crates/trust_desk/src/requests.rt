//! The requests that the desk takes, and its replies.

ghost use Rattle.std.specs.Prelude.{◌≡◌, IfOk, false};
ghost use Rattle.trust_desk.specs.Crashes.{is_fault_end};
ghost use Rattle.trust_desk.specs.ImportStep.{IsChecked, import_refusal, is_not_of_firm};
ghost use Rattle.trust_desk.specs.Replies.{is_fault_reply, reply_for, text_reply};
ghost use Rattle.trust_desk.specs.ReportStep.{told_report, told_trail};

use book_reports::{FoundReport, MatterTrail, Report};
use statement_csv::{Lines, ReadFault};
use std::alloc::Global;
use trust_base::{Field, Line, MAX_FILE_BYTES, MatterNo, OwnedBytes, Refusal, Rule};
use trust_matter::{Ask, Caller};

/// A list of what a caller may see of the matters: each that is not purged for the cashier, and for a person each in
/// which the person has a seat.
#[derive(Clone, Copy)]
pub enum CallerList {
    /// The matters: each with its client, its days, what the caller is in it, its sums and its counts.
    Matters,
    /// What waits in them for a person: each proposed payment, and each claim that is not settled.
    Waiting,
}

/// What is asked of a statement that is matched.
#[derive(Clone, Copy)]
pub enum MatchText {
    /// The statement for the import.
    Statement,
    /// The records that a person has to look at, each with its reason, and the counts.
    Unmatched,
}

/// A request to the desk.
pub enum Request {
    /// A caller asks something of one matter.
    Matter {
        no: MatterNo,
        caller: Caller,
        ask: Ask,
    },
    /// A caller sends in a statement of the bank, as bytes of any form.
    Import {
        caller: Caller,
        statement: OwnedBytes,
    },
    /// A caller dismisses an unmatched line, because the bank has no such line.
    Dismiss {
        caller: Caller,
        line: Line,
    },
    /// A caller sends in a statement whose references may be empty, and asks what matching it gives.
    Match {
        caller: Caller,
        statement: OwnedBytes,
        text: MatchText,
    },
    /// A caller asks for a report on the firm.
    Report(Caller, Report),
    /// A caller asks for the trail of a matter.
    Trail(Caller, MatterNo),
    /// A caller asks who did what in a matter.
    Acts(Caller, MatterNo),
    /// A caller asks for a list of the matters that it may see.
    Listed(Caller, CallerList),
    /// A caller asks for the exceptions of the firm, each with its reason.
    Reasons(Caller),
}

impl Drop for Request {
    fn drop(self) {
        match self {
            Request::Matter {
                no: _no,
                caller: _caller,
                ask: _ask,
            } => (),
            Request::Import {
                caller: _caller,
                statement: _statement,
            }
            | Request::Match {
                caller: _caller,
                statement: _statement,
                text: _,
            } => (),
            Request::Dismiss {
                caller: _caller,
                line: _line,
            } => (),
            Request::Report(_caller, _)
            | Request::Trail(_caller, _)
            | Request::Acts(_caller, _)
            | Request::Listed(_caller, _)
            | Request::Reasons(_caller) => (),
        }
    }
}

/// Whether the caller may not ask for what concerns the whole firm. Only the cashier may, whatever matters others have.
pub(crate) fn is_not_of_firm(caller: &Caller) -> bool
    ensures { result ≡ is_not_of_firm caller.now }
{
    matches!(caller, Caller::Person(_))
}

/// Checks why an import might be refused, in the order of the refusals' numbers: the statement is longer than 4,194,304
/// bytes, it has another header, or the caller is not the cashier. Returns `Memory` if memory ran out before the header
/// could be read.
pub(crate) fn check_import(alloc: Global, caller: &Caller, bytes: &[u8]) -> Result<(), Refusal>
    ensures { IsChecked (import_refusal caller.now bytes.now) result }
{
    if bytes.len() > MAX_FILE_BYTES {
        return Err(Refusal::TooLarge);
    }
    match Lines::new(alloc, bytes).next() {
        Ok(_) => (),
        Err(ReadFault::BadHeader) => return Err(Refusal::BadField(Field::Header)),
        // Reading bytes in memory can only fail by running out of memory.
        Err(ReadFault::Limit | ReadFault::Reader | ReadFault::Memory) => {
            return Err(Refusal::Memory);
        }
    }
    if is_not_of_firm(caller) {
        return Err(Refusal::NotAllowed(Rule::Firm));
    }
    Ok(())
}

/// The body of a reply.
#[derive(Drop)]
pub enum Body {
    /// For an accepted request: the compact text of a JSON object.
    Json(OwnedBytes),
    /// For an accepted request for a report: lines of plain text, in UTF-8.
    Text(OwnedBytes),
    /// For a refused request: the refusal.
    Refused(Refusal),
}

/// The reply to a request: its HTTP status (RFC 9110, section 15) and its body.
#[derive(Drop)]
pub struct Reply {
    pub status: u16,
    pub body: Body,
}

impl Reply {
    ghost use Rattle.trust_desk.specs.Replies.{refused};

    /// The reply to a refused request.
    pub fn refused(refusal: Refusal) -> Reply
        ensures { result ≡ refused refusal }
    {
        Reply {
            status: refusal.status(),
            body: Body::Refused(refusal),
        }
    }
}

/// The reply that tells a report, unless it is refused.
pub(crate) fn tell_report(found: FoundReport) -> Result<Reply, Refusal>
    ensures says { reply_for result ≡ text_reply (told_report found.limits found.text.items) }
    ensures plain { IfOk result (λ reply. is_fault_reply reply ≡ false) }
    ensures fine { is_fault_end result ≡ false }
{
    if found.limits.lacks_statement {
        return Err(Refusal::NoStatement);
    }
    if found.limits.is_purged {
        return Err(Refusal::PeriodPurged);
    }
    Ok(Reply {
        status: 200,
        body: Body::Text(OwnedBytes::new(found.text)),
    })
}

/// The reply that tells the trail of a matter, unless it is refused.
pub(crate) fn tell_trail(trail: MatterTrail) -> Result<Reply, Refusal>
    ensures says { reply_for result
        ≡ text_reply (told_trail trail.is_missing trail.is_purged trail.text.items) }
    ensures plain { IfOk result (λ reply. is_fault_reply reply ≡ false) }
    ensures fine { is_fault_end result ≡ false }
{
    if trail.is_missing {
        return Err(Refusal::NoMatter);
    }
    if trail.is_purged {
        return Err(Refusal::Purged);
    }
    Ok(Reply {
        status: 200,
        body: Body::Text(OwnedBytes::new(trail.text)),
    })
}

/// How a run of requests ended.
#[derive(Clone, Copy)]
pub enum End {
    /// Each request was answered.
    Done,
    /// Memory for another reply ran out. The requests after the last reply were not begun.
    Memory,
}

/// The replies of a run, in the order of their requests, and how it ended.
#[derive(Drop)]
pub struct RunEnd {
    pub replies: Vec<Reply>,
    pub end: End,
}
