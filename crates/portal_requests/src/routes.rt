// The routes, and where they lead.

ghost use Rattle.std.specs.Prelude.{◌≡◌, IfErr};
ghost use Rattle.portal_requests.specs.Places.{method_of};
ghost use Rattle.portal_requests.specs.Routing.{place_of};
ghost use Rattle.portal_requests.specs.Table.{the_routes};

use matchit::{InsertError, Router};
use std::alloc::Global;
use std::marker::Model;
use trust_desk::{CallerList, DayReport, MatchText, PeriodReport, TodayReport};

/// What a route asks of a matter as a whole.
#[derive(Clone, Copy)]
pub(crate) enum MatterPlace {
    Show,
    Open,
    AddSeat,
    DropSeat,
    Close,
    Purge,
    Entries,
    Accounting,
    Account,
}

/// What a route asks of an entry.
#[derive(Clone, Copy)]
pub(crate) enum EntryPlace {
    Show,
    Deposit,
    Cancel,
    Propose,
    Approve,
    Decline,
    Withdraw,
    Void,
    Fee,
    Claim,
    Offer,
    Accept,
    Award,
}

/// Where a route leads.
#[derive(Clone, Copy)]
pub(crate) enum Place {
    /// To a matter.
    Matter(MatterPlace),
    /// To an entry of a matter.
    Entry(EntryPlace),
    /// To a list of the matters that the caller may see, or of what waits in them.
    Listed(CallerList),
    /// To a report on the firm on the business day.
    Today(TodayReport),
    /// To a report on the firm as of the day in the path.
    AsOf(DayReport),
    /// To a report on the firm of the period in the path.
    Within(PeriodReport),
    /// To the trail of the matter in the path.
    Trail,
    /// To the acts of the matter in the path.
    Acts,
    /// To the import of a bank statement.
    Import,
    /// To a text that matching a bank statement gives.
    Match(MatchText),
    /// To the exceptions of the firm with their reasons.
    Reasons,
    /// To the dismissal of a line from the exceptions.
    Dismissal,
}

/// Returns the only method of a place.
pub(crate) fn method(place: Place) -> &'static [u8]
    ensures { result.now ≡ method_of place }
{
    match place {
        Place::Matter(
            MatterPlace::Show
            | MatterPlace::Entries
            | MatterPlace::Accounting
            | MatterPlace::Account,
        )
        | Place::Entry(EntryPlace::Show)
        | Place::Listed(_)
        | Place::Today(_)
        | Place::AsOf(_)
        | Place::Within(_)
        | Place::Trail
        | Place::Acts
        | Place::Reasons => b"GET",
        Place::Matter(_) | Place::Entry(_) | Place::Import | Place::Match(_) | Place::Dismissal =>
            b"POST",
    }
}

// The paths that have a route, and the place to which each leads.
const TABLE: &[(&str, Place)] = &[
    ("/matters", Place::Listed(CallerList::Matters)),
    ("/waiting", Place::Listed(CallerList::Waiting)),
    ("/matters/{m}", Place::Matter(MatterPlace::Show)),
    ("/matters/{m}/open", Place::Matter(MatterPlace::Open)),
    ("/matters/{m}/seats", Place::Matter(MatterPlace::AddSeat)),
    (
        "/matters/{m}/seats/drop",
        Place::Matter(MatterPlace::DropSeat),
    ),
    ("/matters/{m}/close", Place::Matter(MatterPlace::Close)),
    ("/matters/{m}/purge", Place::Matter(MatterPlace::Purge)),
    (
        "/matters/{m}/accounting",
        Place::Matter(MatterPlace::Accounting),
    ),
    (
        "/matters/{m}/accounting/{from}/{to}",
        Place::Matter(MatterPlace::Account),
    ),
    ("/matters/{m}/trail", Place::Acts),
    ("/matters/{m}/entries", Place::Matter(MatterPlace::Entries)),
    ("/matters/{m}/entries/{e}", Place::Entry(EntryPlace::Show)),
    (
        "/matters/{m}/entries/{e}/deposit",
        Place::Entry(EntryPlace::Deposit),
    ),
    (
        "/matters/{m}/entries/{e}/cancel",
        Place::Entry(EntryPlace::Cancel),
    ),
    (
        "/matters/{m}/entries/{e}/propose",
        Place::Entry(EntryPlace::Propose),
    ),
    (
        "/matters/{m}/entries/{e}/approve",
        Place::Entry(EntryPlace::Approve),
    ),
    (
        "/matters/{m}/entries/{e}/decline",
        Place::Entry(EntryPlace::Decline),
    ),
    (
        "/matters/{m}/entries/{e}/withdraw",
        Place::Entry(EntryPlace::Withdraw),
    ),
    (
        "/matters/{m}/entries/{e}/void",
        Place::Entry(EntryPlace::Void),
    ),
    (
        "/matters/{m}/entries/{e}/fee",
        Place::Entry(EntryPlace::Fee),
    ),
    (
        "/matters/{m}/entries/{e}/claim",
        Place::Entry(EntryPlace::Claim),
    ),
    (
        "/matters/{m}/entries/{e}/offer",
        Place::Entry(EntryPlace::Offer),
    ),
    (
        "/matters/{m}/entries/{e}/accept",
        Place::Entry(EntryPlace::Accept),
    ),
    (
        "/matters/{m}/entries/{e}/award",
        Place::Entry(EntryPlace::Award),
    ),
    ("/firm/statements", Place::Import),
    ("/firm/statements/match", Place::Match(MatchText::Statement)),
    (
        "/firm/statements/unmatched",
        Place::Match(MatchText::Unmatched),
    ),
    ("/firm/exceptions", Place::Today(TodayReport::Exceptions)),
    ("/firm/exceptions/reasons", Place::Reasons),
    ("/firm/exceptions/dismiss", Place::Dismissal),
    ("/firm/trial-balance", Place::Today(TodayReport::Trial)),
    ("/firm/journal", Place::Today(TodayReport::Journal)),
    (
        "/firm/reconciliation/{day}",
        Place::AsOf(DayReport::Reconciliation),
    ),
    ("/firm/clients/{day}", Place::AsOf(DayReport::Clients)),
    (
        "/firm/outstanding/{day}",
        Place::AsOf(DayReport::Outstanding),
    ),
    (
        "/firm/receipts/{from}/{to}",
        Place::Within(PeriodReport::Receipts),
    ),
    (
        "/firm/disbursements/{from}/{to}",
        Place::Within(PeriodReport::Disbursements),
    ),
    (
        "/firm/approvals/{from}/{to}",
        Place::Within(PeriodReport::Approvals),
    ),
    ("/firm/month/{day}", Place::AsOf(DayReport::Month)),
    ("/firm/retention", Place::Today(TodayReport::Retention)),
    ("/firm/trail", Place::Today(TodayReport::Trail)),
    ("/firm/trail/{m}", Place::Trail),
];

/// The routes of the portal: paths, and the place to which each leads.
#[derive(Drop)]
pub struct Routes {
    router: Router<Place>,
}

impl Model for Routes {
    ghost use Rattle.std.specs.Prelude.{◌≡◌};
    ghost use Rattle.matchit.specs.Rows.{RowsOf};
    ghost use Rattle.matchit.specs.Router.{RouteOf};
    ghost use Rattle.portal_requests.specs.declared.routes.Place.{Place};
    ghost use Rattle.portal_requests.specs.Table.{the_routes};

    ghost Value = { RowsOf (RouteOf Place) };

    ghost view = { λ r. r.router };

    ghost invariant = { λ r. r.router ≡ the_routes };
}

impl Routes {
    /// Builds the router. Fails only if memory runs out: each path is valid, and no two of them conflict.
    pub fn new(alloc: Global) -> Result<Routes, InsertError>
        ensures memory { IfErr result (λ e. e ≡ InsertError.OutOfMemory) }
    {
        let mut router = Router::new(alloc);
        for &(path, place) in TABLE {
            router.insert(path, place)?;
        }
        Ok(Routes { router })
    }

    /// Returns where the route of a path leads. A path that is not UTF-8 has no route.
    pub(crate) fn place(&self, path: &[u8]) -> Option<Place>
        ensures { result ≡ place_of path.now }
    {
        let Ok(path) = str::from_utf8(path) else {
            return None;
        };
        match self.router.at(path) {
            Ok(found) => Some(*found.value),
            Err(_) => None,
        }
    }
}
