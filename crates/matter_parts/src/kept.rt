//! The loaded entries of a matter, each with what is left of it.

ghost use Rattle.std.specs.Prelude.{◌≡◌, true, ◌+◌, ◌<◌, ◌≤◌, [], None, IfOk, OnOk, OnErr, ◌==◌, ◌↔◌, length, All, IsTrue};
ghost use Rattle.std.specs.Option.{option_copied};
ghost use Rattle.std.specs.List.{filter, position};
ghost use Rattle.matter_parts.specs.NamedEntries.{has_number};
ghost use Rattle.matter_parts.specs.Parts.{kept_in, AreNumbered};
ghost use Rattle.matter_parts.specs.Applied.{entry_put, other_written};

use crate::change::Left;
use crate::named_entries::NamedEntries;
use matter_rows::{Entry, MAX_TOTAL};
use std::alloc::{AllocError, Global};
use std::marker::Model;
use trust_base::EntryNo;

/// A loaded entry, and what is left of it in cents, if it is a fee or a claim on the general fund; otherwise 0.
#[derive(Drop)]
pub struct Kept {
    pub number: EntryNo,
    pub left: u64,
    pub entry: Entry,
}

impl Kept {
    // A copy.
    fn copied(&self) -> Result<Kept, AllocError>
        ensures { IfOk result (λ k. k ≡ self.now) }
    {
        Ok(Kept {
            entry: self.entry.copied()?,
            ..*self
        })
    }
}

/// The loaded entries. If they are known to have the numbers 1, 2 and so on, each is found at its index, without a
/// search.
///
/// Contracts see their list.
#[derive(Drop)]
pub struct KeptEntries {
    entries: Vec<Kept>,
    is_numbered: bool,
}

impl Model for KeptEntries {
    ghost use Rattle.std.specs.Prelude.{◌≡◌, true, List};
    ghost use Rattle.matter_parts.specs.declared.kept.Kept.{Kept};
    ghost use Rattle.matter_parts.specs.Parts.{AreNumbered};

    ghost Value = { List Kept };

    ghost view = { λ k. k.entries.items };

    ghost invariant = { λ k. k.is_numbered ≡ true → AreNumbered 1 k.entries.items };
}

impl KeptEntries {
    // No entries. Allocates nothing.
    pub(crate) fn none(alloc: Global) -> KeptEntries
        ensures { result ≡ [] }
    {
        KeptEntries {
            entries: Vec::new(alloc),
            is_numbered: true,
        }
    }

    // These entries, whatever their numbers.
    pub(crate) fn some(entries: Vec<Kept>) -> KeptEntries
        ensures { result ≡ entries.items }
    {
        KeptEntries {
            entries,
            is_numbered: false,
        }
    }

    // The entries, in order.
    pub(crate) fn as_slice(&self) -> &[Kept]
        ensures { result.now ≡ self.now }
    {
        self.entries.as_slice()
    }

    // Removes all entries.
    pub(crate) fn clear(&mut self)
        ensures { self.new ≡ [] }
    {
        self.entries.clear();
        self.is_numbered = true;
    }

    // Returns the index of the entry with this number, if it is loaded.
    fn place_of(&self, number: u16) -> Option<usize>
        ensures { result ≡ position (λ k. k.number == number) self.now }
    {
        if !self.is_numbered {
            return self.entries.iter().position(|k| k.number.get() == number);
        }
        if number >= 1 && number as usize <= self.entries.len() {
            Some(number as usize - 1)
        } else {
            None
        }
    }

    // Whether the entries are known to have all numbers from 1 up to the one before this.
    fn is_next(&self, number: EntryNo) -> bool
        ensures { result ≡ true → AreNumbered 1 self.now × (number ≡ 1 + length self.now) }
    {
        self.is_numbered && self.entries.len() + 1 == number.get() as usize
    }
}

/// Returns the entry with this number, if it is loaded.
pub(crate) fn found(kept: &KeptEntries, number: u16) -> Option<&Kept>
    ensures { option_copied result ≡ kept_in kept.now number }
{
    match kept.place_of(number) {
        None => None,
        Some(place) => Some(&kept.entries[place]),
    }
}

/// Copies the named entries. The only error is out of memory.
pub fn kept_of(
    alloc: Global,
    kept: &KeptEntries,
    named: NamedEntries,
) -> Result<KeptEntries, AllocError>
    ensures { IfOk result (λ r. r ≡ filter (λ k. has_number named k.number) kept.now) }
{
    let entries = kept.as_slice();
    let copies = if kept.is_numbered {
        copies_by_place(alloc, entries, named)?
    } else {
        copies_by_number(alloc, entries, named)?
    };
    Ok(KeptEntries::some(copies))
}

// Copies the named entries. Looks at every entry.
fn copies_by_number(
    alloc: Global,
    kept: &[Kept],
    named: NamedEntries,
) -> Result<Vec<Kept>, AllocError>
    ensures { IfOk result (λ r. r.items ≡ filter (λ k. has_number named k.number) kept.now) }
{
    let mut copies = Vec::new(alloc);
    for k in kept {
        if named.has(k.number) {
            copies.push(k.copied()?)?;
        }
    }
    Ok(copies)
}

// Copies the named entries of those that are numbered from 1. Looks at no other entry.
fn copies_by_place(
    alloc: Global,
    kept: &[Kept],
    named: NamedEntries,
) -> Result<Vec<Kept>, AllocError>
    requires { AreNumbered 1 kept.now }
    ensures { IfOk result (λ r. r.items ≡ filter (λ k. has_number named k.number) kept.now) }
{
    let mut copies = Vec::new(alloc);
    let mut place = named.next_place(0, kept.len());
    while place < kept.len() {
        copies.push(kept[place].copied()?)?;
        place = named.next_place(place + 1, kept.len());
    }
    Ok(copies)
}

/// Copies all entries. The only error is out of memory.
pub fn kept_copied(alloc: Global, kept: &KeptEntries) -> Result<KeptEntries, AllocError>
    ensures { IfOk result (λ r. r ≡ kept.now) }
{
    let entries = kept.as_slice();
    let mut copies = Vec::new(alloc);
    for one in entries {
        copies.push(one.copied()?)?;
    }
    Ok(KeptEntries {
        entries: copies,
        is_numbered: kept.is_numbered,
    })
}

/// Stores an entry, replacing the one with its number, if any. If memory runs out, the entries are unchanged.
pub fn put(kept: &mut KeptEntries, new: Kept) -> Result<(), AllocError>
    ensures ok { OnOk result (kept.new ≡ entry_put kept.old new) }
    ensures err { OnErr result (kept.new ≡ kept.old) }
{
    match kept.place_of(new.number.get()) {
        Some(i) => {
            kept.entries[i] = new;
            Ok(())
        }
        None => {
            let is_numbered = kept.is_next(new.number);
            kept.entries.push(new)?;
            kept.is_numbered = is_numbered;
            Ok(())
        }
    }
}

/// Sets what is left of the given entry, if one is given and it is loaded.
pub fn set_left(kept: &mut KeptEntries, given: Option<Left>)
    ensures { kept.new ≡ other_written kept.old given }
{
    let Some(given) = given else {
        return;
    };
    if let Some(i) = kept.place_of(given.number.get()) {
        kept.entries[i].left = given.left;
    }
}

// Whether what is left of each entry is in range.
pub(crate) fn are_small_lefts(kept: &[Kept]) -> bool
    ensures { IsTrue result ↔ All (λ k. k.left ≤ MAX_TOTAL) kept.now }
{
    kept.iter().all(|k| k.left <= MAX_TOTAL)
}
