// Whether two acts, and two matters, are the same.

ghost use Rattle.std.specs.Prelude.{◌≡◌, ◌↔◌, IsTrue};
ghost use Rattle.matter_parts.specs.Audit.{rows_kept};
ghost use Rattle.matter_parts.specs.Parts.{entries_kept};

use matter_rows::{
    Act, Against, Caller, ClaimState, Clearing, Deed, DepositState, Entry, Fund, Head, Holder,
    PaymentState, Role, Seat,
};
use trust_base::{Day, EntryNo};
use trust_matter::{Kept, Matter};

pub(crate) fn is_same_role(role: Role, other: Role) -> bool
    ensures { IsTrue result ↔ role ≡ other }
{
    match role {
        Role::Client => matches!(other, Role::Client),
        Role::Lawyer => matches!(other, Role::Lawyer),
    }
}

pub(crate) fn is_same_seat(seat: &Seat, other: &Seat) -> bool
    ensures { IsTrue result ↔ seat.now ≡ other.now }
{
    seat.person.is_same(&other.person) && is_same_role(seat.role, other.role)
}

fn is_same_caller(caller: &Caller, other: &Caller) -> bool
    ensures { IsTrue result ↔ caller.now ≡ other.now }
{
    match caller {
        Caller::Cashier => matches!(other, Caller::Cashier),
        Caller::Person(person) => match other {
            Caller::Cashier => false,
            Caller::Person(another) => person.is_same(another),
        },
    }
}

fn is_same_entry_no(number: Option<EntryNo>, other: Option<EntryNo>) -> bool
    ensures { IsTrue result ↔ number ≡ other }
{
    match number {
        None => other.is_none(),
        Some(number) => match other {
            None => false,
            Some(another) => number.get() == another.get(),
        },
    }
}

fn is_same_deed(deed: &Deed, other: &Deed) -> bool
    ensures { IsTrue result ↔ deed.now ≡ other.now }
{
    match deed {
        Deed::Opened(lawyer) => match other {
            Deed::Opened(another) => lawyer.is_same(another),
            _ => false,
        },
        Deed::Seated(seat) => match other {
            Deed::Seated(another) => is_same_seat(seat, another),
            _ => false,
        },
        Deed::Unseated(person) => match other {
            Deed::Unseated(another) => person.is_same(another),
            _ => false,
        },
        Deed::Offered(part) => match other {
            Deed::Offered(another) => part.get() == another.get(),
            _ => false,
        },
        Deed::Closed => matches!(other, Deed::Closed),
        Deed::Deposited => matches!(other, Deed::Deposited),
        Deed::Cancelled => matches!(other, Deed::Cancelled),
        Deed::Cleared => matches!(other, Deed::Cleared),
        Deed::Returned => matches!(other, Deed::Returned),
        Deed::Proposed => matches!(other, Deed::Proposed),
        Deed::Approved => matches!(other, Deed::Approved),
        Deed::Declined => matches!(other, Deed::Declined),
        Deed::Withdrawn => matches!(other, Deed::Withdrawn),
        Deed::Voided => matches!(other, Deed::Voided),
        Deed::Earned => matches!(other, Deed::Earned),
        Deed::Disputed => matches!(other, Deed::Disputed),
        Deed::Claimed => matches!(other, Deed::Claimed),
        Deed::Accepted => matches!(other, Deed::Accepted),
        Deed::Awarded => matches!(other, Deed::Awarded),
    }
}

/// Whether two acts are the same.
pub(crate) fn is_same_act(act: &Act, other: &Act) -> bool
    ensures { IsTrue result ↔ act.now ≡ other.now }
{
    is_same_entry_no(act.entry, other.entry)
        && act.day.get() == other.day.get()
        && is_same_caller(&act.caller, &other.caller)
        && is_same_deed(&act.deed, &other.deed)
}

fn is_same_clearing(by: &Clearing, other: &Clearing) -> bool
    ensures { IsTrue result ↔ by.now ≡ other.now }
{
    by.bank_day.get() == other.bank_day.get() && by.bank_ref.is_same(&other.bank_ref)
}

fn is_same_day(day: Option<Day>, other: Option<Day>) -> bool
    ensures { IsTrue result ↔ day ≡ other }
{
    match day {
        None => other.is_none(),
        Some(day) => match other {
            None => false,
            Some(another) => day.get() == another.get(),
        },
    }
}

fn is_same_deposit_state(state: &DepositState, other: &DepositState) -> bool
    ensures { IsTrue result ↔ state.now ≡ other.now }
{
    match state {
        DepositState::Held => matches!(other, DepositState::Held),
        DepositState::Cleared(by) => match other {
            DepositState::Cleared(another) => is_same_clearing(by, another),
            _ => false,
        },
        DepositState::Cancelled(day) => match other {
            DepositState::Cancelled(another) => day.get() == another.get(),
            _ => false,
        },
        DepositState::Returned(back) => match other {
            DepositState::Returned(another) => {
                is_same_clearing(&back.clearing, &another.clearing)
                    && is_same_clearing(&back.returning, &another.returning)
                    && back.undone.get() == another.undone.get()
            }
            _ => false,
        },
    }
}

fn is_same_payment_state(state: &PaymentState, other: &PaymentState) -> bool
    ensures { IsTrue result ↔ state.now ≡ other.now }
{
    match state {
        PaymentState::Proposed => matches!(other, PaymentState::Proposed),
        PaymentState::Declined => matches!(other, PaymentState::Declined),
        PaymentState::Issued(day) => match other {
            PaymentState::Issued(another) => day.get() == another.get(),
            _ => false,
        },
        PaymentState::Cleared(cleared) => match other {
            PaymentState::Cleared(another) => {
                cleared.issued.get() == another.issued.get()
                    && is_same_clearing(&cleared.clearing, &another.clearing)
            }
            _ => false,
        },
        PaymentState::Voided(voided) => match other {
            PaymentState::Voided(another) => {
                voided.issued.get() == another.issued.get()
                    && voided.undone.get() == another.undone.get()
            }
            _ => false,
        },
    }
}

fn is_same_claim_state(state: &ClaimState, other: &ClaimState) -> bool
    ensures { IsTrue result ↔ state.now ≡ other.now }
{
    match state {
        ClaimState::Open => matches!(other, ClaimState::Open),
        ClaimState::Offered(part) => match other {
            ClaimState::Offered(another) => part.get() == another.get(),
            _ => false,
        },
        ClaimState::Settled(settled) => match other {
            ClaimState::Settled(another) => {
                settled.day.get() == another.day.get() && settled.part.get() == another.part.get()
            }
            _ => false,
        },
    }
}

fn is_same_fund(fund: Fund, other: Fund) -> bool
    ensures { IsTrue result ↔ fund ≡ other }
{
    fund.is_same(other)
}

fn is_same_against(against: &Against, other: &Against) -> bool
    ensures { IsTrue result ↔ against.now ≡ other.now }
{
    against.is_same(other)
}

/// Whether two entries are the same.
pub(crate) fn is_same_entry(entry: &Entry, other: &Entry) -> bool
    ensures { IsTrue result ↔ entry.now ≡ other.now }
{
    match entry {
        Entry::Deposit(one) => match other {
            Entry::Deposit(two) => {
                one.book.get() == two.book.get()
                    && one.amount.get() == two.amount.get()
                    && one.source.is_same(&two.source)
                    && one.description.is_same(&two.description)
                    && is_same_deposit_state(&one.state, &two.state)
            }
            _ => false,
        },
        Entry::Payment(one) => match other {
            Entry::Payment(two) => {
                one.book.get() == two.book.get()
                    && one.amount.get() == two.amount.get()
                    && is_same_fund(one.fund, two.fund)
                    && one.payee.is_same(&two.payee)
                    && one.purpose.is_same(&two.purpose)
                    && one.instrument.is_same(&two.instrument)
                    && is_same_payment_state(&one.state, &two.state)
            }
            _ => false,
        },
        Entry::Fee(one) => match other {
            Entry::Fee(two) => {
                one.book.get() == two.book.get()
                    && one.amount.get() == two.amount.get()
                    && one.description.is_same(&two.description)
            }
            _ => false,
        },
        Entry::Claim(one) => match other {
            Entry::Claim(two) => {
                one.book.get() == two.book.get()
                    && one.amount.get() == two.amount.get()
                    && is_same_against(&one.against, &two.against)
                    && one.reason.is_same(&two.reason)
                    && is_same_claim_state(&one.state, &two.state)
            }
            _ => false,
        },
    }
}

fn is_same_holder(holder: &Holder, other: &Holder) -> bool
    ensures { IsTrue result ↔ holder.now ≡ other.now }
{
    match holder {
        Holder::Client(client) => match other {
            Holder::Client(another) => client.is_same(another),
            Holder::Purged(_) => false,
        },
        Holder::Purged(day) => match other {
            Holder::Client(_) => false,
            Holder::Purged(another) => day.get() == another.get(),
        },
    }
}

/// Whether two heads are the same.
pub(crate) fn is_same_head(head: &Head, other: &Head) -> bool
    ensures { IsTrue result ↔ head.now ≡ other.now }
{
    is_same_holder(&head.holder, &other.holder)
        && head.opened.get() == other.opened.get()
        && is_same_day(head.closed, other.closed)
        && head.last.get() == other.last.get()
}

fn are_same_seats(seats: &[Seat], others: &[Seat]) -> bool
    ensures { IsTrue result ↔ seats.now ≡ others.now }
{
    if seats.len() != others.len() {
        return false;
    }
    for (place, seat) in seats.iter().enumerate() {
        if !is_same_seat(seat, &others[place]) {
            return false;
        }
    }
    true
}

fn are_same_entries(kept: &[Kept], others: &[Kept]) -> bool
    ensures { IsTrue result ↔ entries_kept kept.now ≡ entries_kept others.now }
{
    if kept.len() != others.len() {
        return false;
    }
    for (place, one) in kept.iter().enumerate() {
        if !is_same_entry(&one.entry, &others[place].entry) {
            return false;
        }
    }
    true
}

/// Whether two matters have the same rows.
pub(crate) fn are_same_rows(matter: &Matter, other: &Matter) -> bool
    ensures { IsTrue result ↔ rows_kept matter.now ≡ rows_kept other.now }
{
    let is_same = match (matter.head(), other.head()) {
        (None, None) => true,
        (Some(head), Some(another)) => is_same_head(head, another),
        _ => false,
    };
    is_same
        && are_same_seats(matter.seats(), other.seats())
        && are_same_entries(matter.kept(), other.kept())
}
