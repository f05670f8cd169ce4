//! What an accepted ask, or an applied bank line, is remembered as.

ghost use Rattle.std.specs.Prelude.{◌≡◌, IfOk, Some};
ghost use Rattle.trust_matter.specs.Acts.{act_by, deed_of};
ghost use Rattle.trust_matter.specs.LineStep.{line_act};

use crate::ask::Ask;
use crate::bank_line::BankLine;
use matter_parts::Edit;
use matter_rows::{Act, Against, Caller, Deed, Entry};
use std::alloc::AllocError;
use trust_base::Day;

// What is done by the ask. None if it only reads, and of a purge. The only error is out of memory.
fn deed_of(ask: &Ask) -> Result<Option<Deed>, AllocError>
    ensures { IfOk result (λ d. d ≡ deed_of ask.now) }
{
    match ask {
        Ask::OpenMatter(asked) => Ok(Some(Deed::Opened(asked.lawyer.copied()?))),
        Ask::AddSeat(seat) => Ok(Some(Deed::Seated(seat.copied()?))),
        Ask::DropSeat(person) => Ok(Some(Deed::Unseated(person.copied()?))),
        Ask::Deposit(_) => Ok(Some(Deed::Deposited)),
        Ask::CancelDeposit(_) => Ok(Some(Deed::Cancelled)),
        Ask::Propose(_) => Ok(Some(Deed::Proposed)),
        Ask::Approve(_) => Ok(Some(Deed::Approved)),
        Ask::Decline(_) => Ok(Some(Deed::Declined)),
        Ask::Withdraw(_) => Ok(Some(Deed::Withdrawn)),
        Ask::VoidPayment(_) => Ok(Some(Deed::Voided)),
        Ask::EarnFee(_) => Ok(Some(Deed::Earned)),
        Ask::RaiseClaim(asked) => match &asked.against {
            Against::General(_) => Ok(Some(Deed::Claimed)),
            Against::Fee(_) => Ok(Some(Deed::Disputed)),
        },
        Ask::Offer(asked) => Ok(Some(Deed::Offered(asked.to_client))),
        Ask::Accept(_) => Ok(Some(Deed::Accepted)),
        Ask::Award(_) => Ok(Some(Deed::Awarded)),
        Ask::CloseMatter => Ok(Some(Deed::Closed)),
        Ask::Purge => Ok(None),
        Ask::Show => Ok(None),
        Ask::ShowEntries => Ok(None),
        Ask::Accounting => Ok(None),
        Ask::Account(_) => Ok(None),
        Ask::ShowEntry(_) => Ok(None),
    }
}

// What an ask is remembered as that makes this edit. The only error is out of memory.
pub(crate) fn act_by(
    edit: &Edit,
    caller: &Caller,
    ask: &Ask,
    day: Day,
) -> Result<Option<Act>, AllocError>
    ensures { IfOk result (λ a. a ≡ act_by edit.now (record { caller = caller.now; ask = ask.now; day = day })) }
{
    if let Edit::Nothing = edit {
        return Ok(None);
    }
    let Some(deed) = deed_of(ask)? else {
        return Ok(None);
    };
    Ok(Some(Act {
        entry: ask.number(),
        day,
        caller: caller.copied()?,
        deed,
    }))
}

// What an applied line is remembered as that names this entry.
pub(crate) fn line_act(entry: &Entry, line: &BankLine, today: Day) -> Act
    ensures { result ≡ line_act (Some entry.now) line.now today }
{
    let deed = if entry.is_return(&line.line) {
        Deed::Returned
    } else {
        Deed::Cleared
    };
    Act {
        entry: Some(line.entry),
        day: today,
        caller: Caller::Cashier,
        deed,
    }
}
