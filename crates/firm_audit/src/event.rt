// Whether movements of the journal are an entry's events.

ghost use Rattle.std.specs.Prelude.{◌≡◌, ◌↔◌, Some, slice_get, IsTrue};
ghost use Rattle.matter_rows.specs.Events.{events_of};
ghost use Rattle.firm_rows.specs.Journal.{is_of_entry, event_of, events_moved};

use firm_rows::{Movement, Owner};
use matter_rows::Entry;
use trust_base::{EntryNo, MatterNo};

// Whether the movement is event `place`, counted from 0, of the entry.
fn is_event(movement: &Movement, entry: &Entry, number: EntryNo, place: usize) -> bool
    ensures { IsTrue result ↔ slice_get (events_of entry.now) place ≡ Some (event_of movement.now) }
{
    match entry.event(number, place) {
        Some(event) => event.day.get() == movement.day.get() && event.amount == movement.amount,
        None => false,
    }
}

// Whether it is a movement of this entry of the matter.
fn is_of_entry(owner: &Owner, number: MatterNo, of: EntryNo) -> bool
    ensures { result ≡ is_of_entry number of owner.now }
{
    match owner {
        Owner::Matter { matter, entry } => {
            matter.get() == number.get() && entry.get() == of.get()
        }
        Owner::Firm => false,
    }
}

/// Whether the movements of this entry of the matter are its events, each once and in order.
pub(crate) fn is_moved(
    movements: &[Movement],
    matter: MatterNo,
    number: EntryNo,
    entry: &Entry,
) -> bool
    ensures { IsTrue result ↔ events_moved matter number movements.now ≡ events_of entry.now }
{
    let mut place = 0;
    for movement in movements {
        if is_of_entry(&movement.owner, matter, number) {
            if !is_event(movement, entry, number, place) {
                return false;
            }
            place += 1;
        }
    }
    match entry.event(number, place) {
        None => true,
        Some(_) => false,
    }
}
