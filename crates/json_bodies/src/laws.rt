//! Laws over the definitions. Each is the contract of a function that does nothing.

ghost use Rattle.json_bodies.specs.BodyLaws.{ActsReadBack, EntriesReadBack, EntryReadsBack, ImportReadsBack, MatterReadsBack, PurgeReadsBack, ReceiptReadsBack};
ghost use Rattle.json_bodies.specs.ListLaws.{CashiersListIsTrial, ListedIsShown, LooksAreAlike, NothingPurged, PersonsListsAreOwn};

/// serde_json reads a body back as the object that it was written from. So no member is lost, and no key is repeated or
/// out of order.
#[tactic(auto, using(crate::proofs::BodiesRead::bodies_read))]
pub fn bodies_read_back()
    ensures matter { MatterReadsBack }
    ensures purge { PurgeReadsBack }
    ensures receipt { ReceiptReadsBack }
    ensures entry { EntryReadsBack }
    ensures entries { EntriesReadBack }
    ensures acts { ActsReadBack }
    ensures import { ImportReadsBack }
{}

/// What a person is listed, and what waits there, is a function of the rows of the matters in which the person has a
/// seat: two firms that agree on these give equal bytes, whatever else they have.
#[tactic(auto, using(crate::proofs::Own::list_laws))]
pub fn persons_lists_are_own()
    ensures { PersonsListsAreOwn }
{}

/// A matter is listed for a caller exactly if it was opened and the caller's look at it is answered.
#[tactic(auto, using(crate::proofs::Own::list_laws))]
pub fn listed_is_shown()
    ensures { ListedIsShown }
{}

/// Nothing is listed of a purged matter, for any caller.
pub fn nothing_purged()
    ensures { NothingPurged }
{}

/// The open matters of the cashier's list, with their ledgers, are the lines of the trial balance.
pub fn cashiers_list_is_trial()
    ensures { CashiersListIsTrial }
{}

/// A caller's look at a matter is answered alike on every day.
pub fn looks_are_alike()
    ensures { LooksAreAlike }
{}
