//! The trail of a firm, from acts, rows and dismissals that arrive one at a time.

ghost use Rattle.std.specs.Prelude.{◌≡◌, ℕ, IfOk, OnOk, Some, nat_eq, not};
ghost use Rattle.std.specs.HashMap.{get};
ghost use Rattle.std.specs.List.{list_any};
ghost use Rattle.matter_rows.specs.Rows.{is_gone};
ghost use Rattle.book_reports.specs.FirmTrails.{first_noted, is_late, is_older, note_of, nothing_told, with_note};
ghost use Rattle.book_reports.specs.FirmTrails.{with_act_told, with_dismissal_told, with_matter_there};

use firm_rows::{Dismissal, MatterAct, MatterRow, MatterRowSink, RowSink};
use std::alloc::{AllocError, Global};
use std::collections::HashMap;
use std::marker::Model;
use trust_base::MatterNo;
use trust_matter::{Deed, Head, Holder};
use trust_reports::{act_line, dismissal_line};

// What is noted of an act: its matter, and whether it opens it.
#[derive(Clone, Copy)]
struct ActNote {
    matter: MatterNo,
    is_opening: bool,
}

impl ActNote {
    fn of(act: &MatterAct) -> ActNote
        ensures { result ≡ note_of act.now }
    {
        ActNote {
            matter: act.matter,
            is_opening: matches!(&act.act.deed, Deed::Opened(_)),
        }
    }
}

// Whether the first act of a matter is its opening, by the matter's number.
type Openings = HashMap<u32, bool>;

// Adds a note to those of the acts before.
fn add_note(openings: &mut Openings, note: ActNote) -> Result<(), AllocError>
    ensures { OnOk result ((m : ℕ)
        → get nat_eq openings.new m ≡ with_note m (get nat_eq openings.old m) note) }
{
    let matter = note.matter.get();
    if openings.contains_key(&matter) {
        return Ok(());
    }
    openings.insert(matter, note.is_opening)?;
    Ok(())
}

// Whether the first act of each matter is its opening.
fn openings_of(alloc: Global, notes: &[ActNote]) -> Result<Openings, AllocError>
    ensures { IfOk result (λ openings. (m : ℕ) → get nat_eq openings m ≡ first_noted m notes.now) }
{
    let mut openings = HashMap::new(alloc);
    for note in notes {
        add_note(&mut openings, *note)?;
    }
    Ok(openings)
}

// Whether a matter is older than its acts.
fn is_older(openings: &Openings, matter: MatterNo) -> bool
    ensures { result ≡ is_older (get nat_eq openings.now matter) }
{
    match openings.get(&matter.get()) {
        Some(is_opening) => !*is_opening,
        None => true,
    }
}

// Whether one of these matters is older than its acts.
fn has_older(openings: &Openings, matters: &[MatterNo]) -> bool
    ensures { result ≡ list_any (λ m. is_older (get nat_eq openings.now m)) matters.now }
{
    for matter in matters {
        if is_older(openings, *matter) {
            return true;
        }
    }
    false
}

// Whether a matter with this head is there: it was not purged.
fn is_there(head: &Head) -> bool
    ensures { result ≡ not (is_gone (Some head.now)) }
{
    match &head.holder {
        Holder::Client(_) => true,
        Holder::Purged(_) => false,
    }
}

/// Writes a line for each act and each dismissal, and finds whether some matter is older than its acts: of all acts,
/// then all rows, then all dismissals of a firm.
///
/// Contracts see it as the lines, what is noted of the acts, and the matters that are there.
#[derive(Drop)]
pub struct TrailSink {
    lines: Vec<u8>,
    notes: Vec<ActNote>,
    matters: Vec<MatterNo>,
}

impl Model for TrailSink {
    ghost use Rattle.book_reports.specs.FirmTrails.{TrailKept};

    ghost Value = { TrailKept };

    ghost view = { λ s. record { lines = s.lines.items; notes = s.notes.items; matters = s.matters.items } };
}

impl TrailSink {
    /// No line so far.
    pub fn new(alloc: Global) -> TrailSink
        ensures { result ≡ nothing_told }
    {
        TrailSink {
            lines: Vec::new(alloc),
            notes: Vec::new(alloc),
            matters: Vec::new(alloc),
        }
    }

    /// Whether some matter that is there is older than its acts: they do not begin with its opening. The only error is
    /// out of memory.
    pub fn is_late(&self, alloc: Global) -> Result<bool, AllocError>
        ensures { IfOk result (λ late. late ≡ is_late self.now) }
    {
        let openings = openings_of(alloc, &self.notes)?;
        Ok(has_older(&openings, &self.matters))
    }

    /// Returns the lines.
    pub fn finish(self) -> Vec<u8>
        ensures { result.items ≡ self.lines }
    {
        self.lines
    }
}

impl RowSink<MatterAct> for TrailSink {
    ghost taken = { with_act_told };

    fn take(&mut self, act: &MatterAct) -> Result<(), AllocError> {
        self.notes.reserve(1)?;
        act_line(act, &mut self.lines)?;
        self.notes.push_reserved(ActNote::of(act));
        Ok(())
    }
}

impl MatterRowSink for TrailSink {
    ghost taken = { with_matter_there };

    fn matter_row(&mut self, matter: MatterNo, row: MatterRow<'_>) -> Result<(), AllocError> {
        match row {
            MatterRow::Head(head) => {
                if is_there(head) {
                    self.matters.push(matter)?;
                }
                Ok(())
            }
            MatterRow::Seat(_seat) => Ok(()),
            MatterRow::Entry(_number, _entry) => Ok(()),
        }
    }
}

impl RowSink<Dismissal> for TrailSink {
    ghost taken = { with_dismissal_told };

    fn take(&mut self, dismissal: &Dismissal) -> Result<(), AllocError> {
        dismissal_line(dismissal, &mut self.lines)
    }
}
