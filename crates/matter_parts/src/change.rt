//! A change of a matter: its edit, the totals after it, its movement in the journal, and the act that it is remembered
//! by.

ghost use Rattle.std.specs.Prelude.{◌≡◌, ◌+◌, ◌-◌, ◌<◌, ◌≤◌, ◌≤ℤ◌, ◌-ℤ◌, ◌+ℤ◌, pos, IfOk, IfErr, IfSome, IfNone, OnErr, None};
ghost use Rattle.std.specs.Option.{option_copied};
ghost use Rattle.matter_parts.specs.Changes.{AreSmallTotals};
ghost use Rattle.matter_parts.specs.TotalsAfter.{IsSmallBefore, EntryMoved, EditMoved, IsMade, TheTotalsAfter};

use crate::edit::Edit;
use crate::figures::Figures;
use crate::matter::Matter;
use matter_rows::{Act, Entry, EntryMovement, Shares, moved, no_shares};
use std::marker::Model;
use trust_base::{Day, EntryNo, MAX_ENTRY, Refusal};

/// What is left of an entry, in cents.
#[derive(Clone, Copy)]
pub struct Left {
    pub number: EntryNo,
    pub left: u64,
}

/// What changes besides the rows: the totals after a change, then what is left of its entry, in cents, and of the entry
/// that this one names.
#[derive(Clone, Copy)]
pub struct TotalsAfter {
    pub figures: Figures,
    pub left: u64,
    pub other: Option<Left>,
}

/// A change of a matter: the edit, the matter's last day after it, the totals after it, its movement in the journal,
/// and the act that it is remembered by.
pub struct Change {
    edit: Edit,
    last: Day,
    moves: TotalsAfter,
    movement: Option<EntryMovement>,
    act: Option<Act>,
}

// Written by hand, so that a function that holds a change makes one call at each exit.
impl Drop for Change {
    fn drop(self) {
        let Change {
            edit: _edit,
            last: _last,
            moves: _moves,
            movement: _movement,
            act: _act,
        } = self;
    }
}

impl Model for Change {
    ghost use Rattle.matter_parts.specs.Changes.{MatterChange, AreSmallTotals};

    ghost Value = { MatterChange };

    ghost view = { λ c. record {
      edit = c.edit;
      last = c.last;
      moves = c.moves;
      movement = c.movement;
      act = c.act;
    } };

    ghost invariant = { λ c. AreSmallTotals c.moves };
}

impl Change {
    /// The edit: the one place in the rows that changes.
    pub fn edit(&self) -> &Edit
        ensures { result.now ≡ self.now.edit }
    {
        &self.edit
    }

    /// The matter's last day after the change.
    pub fn last(&self) -> Day
        ensures { result ≡ self.now.last }
    {
        self.last
    }

    /// The totals after the change, and what is then left of its entries.
    pub fn moves(&self) -> TotalsAfter
        ensures is { result ≡ self.now.moves }
        ensures small { AreSmallTotals result }
    {
        self.moves
    }

    /// The movement in the journal, if any.
    pub fn movement(&self) -> Option<EntryMovement>
        ensures { result ≡ self.now.movement }
    {
        self.movement
    }

    /// The act that the change is remembered by. None if nothing changes, and of a purge.
    pub fn act(&self) -> Option<&Act>
        ensures { option_copied result ≡ self.now.act }
    {
        self.act.as_ref()
    }
}

/// What an entry counted for before it is written: what it added to each total, what was left of it, what it was worth
// and what it drew on the entry that it names. All zero for a new entry.
#[derive(Clone, Copy)]
struct Before {
    shares: Shares,
    left: u64,
    worth: i64,
    draw: i64,
}

// Returns the totals, and what is left, after an entry that counted for `before` is written as `new`.
#[tactic(auto, using(crate::proofs::Moving::small_word))]
fn written(matter: &Matter, entries: u64, before: &Before, new: &Entry) -> Option<TotalsAfter>
    requires entries { entries ≤ MAX_ENTRY }
    requires before { IsSmallBefore before.now }
    ensures small { IfSome result (λ v. AreSmallTotals v) }
    ensures some { IfSome result (λ v. EntryMoved matter.now entries before.now new.now v) }
    ensures none { IfNone result
        ((v : TheTotalsAfter) → AreSmallTotals v → EntryMoved matter.now entries before.now new.now v → ⊥) }
{
    let old = matter.figures();
    let out = before.shares;
    let shares = new.shares();
    let figures = Figures {
        entries,
        pending: moved(old.pending, out.pending, shares.pending)?,
        held: moved(old.held, out.held, shares.held)?,
        available: moved(old.available, out.available, shares.available)?,
        disputed: moved(old.disputed, out.disputed, shares.disputed)?,
        fees: moved(old.fees, out.fees, shares.fees)?,
        claims: moved(old.claims, out.claims, shares.claims)?,
    };
    let left = moved(before.left, before.worth, new.worth())?;
    match new.target() {
        None => Some(TotalsAfter {
            figures,
            left,
            other: None,
        }),
        Some(number) => {
            let kept = matter.find(number)?;
            let left_of_named = moved(kept.left, new.draw(), before.draw)?;
            let other = Some(Left {
                number,
                left: left_of_named,
            });
            Some(TotalsAfter {
                figures,
                left,
                other,
            })
        }
    }
}

/// Returns the change that an edit makes, with the matter's last day after it, and the act that it is remembered by.
/// `Store` if a total or what is left would go out of range, or if an entry that is needed is not loaded.
pub fn change_of(
    matter: &Matter,
    edit: Edit,
    last: Day,
    act: Option<Act>,
) -> Result<Change, Refusal>
    ensures ok { IfOk result (λ c. IsMade matter.now edit last c) }
    ensures act { IfOk result (λ c. c.act ≡ act) }
    ensures err { IfErr result (λ r. r ≡ Refusal.Store) }
    ensures store { OnErr result ((v : TheTotalsAfter) → AreSmallTotals v → EditMoved matter.now edit v → ⊥) }
{
    let figures = matter.figures();
    let (moves, movement) = match &edit {
        Edit::Append(new) => {
            let entries = figures.entries + 1;
            if new.number.get() as u64 != entries {
                return Err(Refusal::Store);
            }
            let before = Before {
                shares: no_shares(),
                left: 0,
                worth: 0,
                draw: 0,
            };
            let moves = written(matter, entries, &before, &new.entry).ok_or(Refusal::Store)?;
            (moves, new.entry.event(new.number, 0))
        }
        Edit::Exchange(new) => {
            let kept = matter.find(new.number).ok_or(Refusal::Store)?;
            let old = &kept.entry;
            let before = Before {
                shares: old.shares(),
                left: kept.left,
                worth: old.worth(),
                draw: old.draw(),
            };
            let entries = figures.entries;
            let moves = written(matter, entries, &before, &new.entry).ok_or(Refusal::Store)?;
            // An entry makes at most two movements.
            let first = old.event(new.number, 0).is_some();
            let second = old.event(new.number, 1).is_some();
            let place = first as usize + second as usize;
            (moves, new.entry.event(new.number, place))
        }
        Edit::Purge(_) => {
            let purged = TotalsAfter {
                figures: Figures::none(),
                left: 0,
                other: None,
            };
            (purged, None)
        }
        Edit::Nothing | Edit::Open(_) | Edit::Seat(_) | Edit::Unseat(_) | Edit::Close(_) => {
            let unwritten = TotalsAfter {
                figures,
                left: 0,
                other: None,
            };
            (unwritten, None)
        }
    };
    Ok(Change {
        edit,
        last,
        moves,
        movement,
        act,
    })
}
