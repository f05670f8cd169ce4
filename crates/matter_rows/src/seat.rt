//! The seats of a matter: who takes part in it.

ghost use Rattle.std.specs.Prelude.{◌≡◌, IfOk, OnOk, OnErr, ◌==◌};
ghost use Rattle.std.specs.List.{position};
ghost use Rattle.matter_rows.specs.Rows.{comes_before, role_in, seats_with, seats_without, has_other_lawyer, is_lawyer};
ghost use Rattle.matter_rows.specs.Sound.{AreInOrder};

use std::alloc::{AllocError, Global};
use trust_base::PersonId;

/// What a person is to a matter.
#[derive(Clone, Copy)]
pub enum Role {
    Client,
    Lawyer,
}

/// A person who takes part in a matter.
#[derive(Drop)]
pub struct Seat {
    pub person: PersonId,
    pub role: Role,
}

impl Seat {
    /// A deep copy. The only error is out of memory.
    pub fn copied(&self) -> Result<Seat, AllocError>
        ensures { IfOk result (λ s. s ≡ self.now) }
    {
        Ok(Seat {
            person: self.person.copied()?,
            role: self.role,
        })
    }
}

/// The role of a person. None if the person has no seat.
pub fn role_of(seats: &Vec<Seat>, person: &PersonId) -> Option<Role>
    ensures { result ≡ role_in seats.now.items person.now }
{
    let seat = seats.iter().find(|s| s.person.is_same(person))?;
    Some(seat.role)
}

fn is_lawyer(role: Role) -> bool
    ensures { result ≡ is_lawyer role }
{
    match role {
        Role::Client => false,
        Role::Lawyer => true,
    }
}

/// Whether someone other than this person has a lawyer's seat.
pub fn has_other_lawyer(seats: &Vec<Seat>, person: &PersonId) -> bool
    ensures { result ≡ has_other_lawyer seats.now.items person.now }
{
    seats
        .iter()
        .any(|s| !s.person.is_same(person) && is_lawyer(s.role))
}

/// Whether one person sorts before another, byte by byte.
pub fn comes_before(person: &PersonId, other: &PersonId) -> bool
    ensures { result ≡ comes_before person.now other.now }
{
    person.is_before(other)
}

/// The index of the first seat whose person sorts after this one.
fn first_after(seats: &Vec<Seat>, person: &PersonId) -> Option<usize>
    ensures { result ≡ position (λ s. comes_before person.now s.person) seats.now.items }
{
    seats.iter().position(|s| comes_before(person, &s.person))
}

/// Inserts a seat in its place by person. If memory runs out, the seats are unchanged.
#[tactic(auto, using(crate::proofs::Seating::seat_steps))]
pub fn add_seat(seats: &mut Vec<Seat>, new: Seat) -> Result<(), AllocError>
    ensures ok { OnOk result (AreInOrder seats.old.items → role_in seats.old.items new.person ≡ None
        → seats.new.items ≡ seats_with seats.old.items new) }
    ensures err { OnErr result (seats.new.items ≡ seats.old.items) }
{
    match first_after(seats, &new.person) {
        Some(place) => {
            seats.insert(place, new)?;
            Ok(())
        }
        None => {
            seats.push(new)?;
            Ok(())
        }
    }
}

/// Removes the seat of a person.
pub fn drop_seat(seats: &mut Vec<Seat>, person: &PersonId)
    ensures { seats.new.items ≡ seats_without seats.old.items person.now }
{
    seats.retain(|s| !s.person.is_same(person));
}

/// A deep copy of the seats. The only error is out of memory.
pub fn seats_copied(alloc: Global, seats: &[Seat]) -> Result<Vec<Seat>, AllocError>
    ensures { IfOk result (λ r. r.items ≡ seats.now) }
{
    let mut copies = Vec::new(alloc);
    for seat in seats {
        copies.push(seat.copied()?)?;
    }
    Ok(copies)
}
