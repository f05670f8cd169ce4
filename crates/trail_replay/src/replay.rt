// Makes a matter again, by what its acts tell.

ghost use Rattle.std.specs.Prelude.{IfOk};
ghost use Rattle.matter_parts.specs.Audit.{rows_kept};
ghost use Rattle.matter_parts.specs.Changes.{IsChange};
ghost use Rattle.trust_matter.specs.Laws.{ALine};
ghost use Rattle.trail_laws.specs.Replayed.{asked_by, own_by};
ghost use Rattle.trail_replay.specs.Telling.{AreTaken, IsGood, IsMadeAs, IsReplayFound, IsTaken, dossier_of};

use crate::same::{are_same_rows, is_same_act};
use crate::told::{Told, what_is_told};
use matter_rows::Act;
use std::alloc::{AllocError, Global};
use trust_base::{MatterNo, Refusal, StoreFault};
use trust_matter::{Ask, BankLine, Change, LineVerdict, Matter, decide, decide_line};

// Makes a change, if it is remembered as this act.
fn make_as(matter: &mut Matter, change: &Change, act: &Act) -> Result<bool, AllocError>
    requires good { IsGood matter.old }
    requires change { IsChange (rows_kept matter.old) change.now }
    ensures { IfOk result (λ is. IsMadeAs matter.old change.now act.now is matter.new) }
{
    let is_it = match change.act() {
        None => false,
        Some(made) => is_same_act(made, act),
    };
    if is_it {
        matter.apply(change)?;
    }
    Ok(is_it)
}

// Makes what an ask changes, if it is accepted, and remembered as this act.
fn make_asked(matter: &mut Matter, ask: &Ask, act: &Act) -> Result<bool, AllocError>
    requires good { IsGood matter.old }
    ensures { IfOk result (λ is. IsTaken matter.old (asked_by act.now ask.now) act.now is matter.new) }
{
    match decide(matter, &act.caller, ask, act.day) {
        Ok(change) => make_as(matter, &change, act),
        Err(refusal) => match refusal {
            Refusal::Memory => Err(AllocError),
            _ => Ok(false),
        },
    }
}

// Makes what a line changes, if it is applied, and remembered as this act.
fn make_shown(matter: &mut Matter, line: &BankLine, act: &Act) -> Result<bool, AllocError>
    requires good { IsGood matter.old }
    ensures { IfOk result (λ is. IsTaken matter.old (ALine line.now act.now.day) act.now is matter.new) }
{
    let _number = line.entry.get();
    let verdict = match decide_line(matter, line, act.day) {
        Ok(verdict) => verdict,
        Err(StoreFault::Memory) => return Err(AllocError),
        Err(StoreFault::Store) => return Ok(false),
    };
    match &verdict {
        LineVerdict::Applied(change) => make_as(matter, change, act),
        LineVerdict::Repeat => Ok(false),
        LineVerdict::Unmatched(_) => Ok(false),
    }
}

// Makes what an act tells, if it follows: the matter takes it, and remembers it as this act.
fn follow(
    alloc: Global,
    number: MatterNo,
    end: &Matter,
    matter: &mut Matter,
    act: &Act,
) -> Result<bool, AllocError>
    requires good { IsGood matter.old }
    requires end { IsGood end.now }
    ensures { IfOk result (λ is. AreTaken matter.old (own_by number (rows_kept end.now)) act.now is matter.new) }
{
    let Some(told) = what_is_told(alloc, number, end, act)? else {
        return Ok(false);
    };
    match &told {
        Told::Asked(ask) => make_asked(matter, ask, act),
        Told::Shown(line) => make_shown(matter, line, act),
    }
}

/// What was found of a matter's acts.
pub enum Replay {
    /// They make the matter.
    Made,
    /// The act at this place, counted from 0, does not follow from what those before it made.
    Misfit(usize),
    /// Each follows, and they make another matter.
    Other,
}

/// Replays the acts of a matter from nothing.
pub fn replayed(
    alloc: Global,
    number: MatterNo,
    matter: &Matter,
    acts: &[Act],
) -> Result<Replay, AllocError>
    requires { IsGood matter.now }
    ensures { IfOk result (IsReplayFound number (dossier_of matter.now acts.now)) }
{
    let mut made = Matter::unopened(alloc);
    for (place, act) in acts.iter().enumerate() {
        if !follow(alloc, number, matter, &mut made, act)? {
            return Ok(Replay::Misfit(place));
        }
    }
    if are_same_rows(&made, matter) {
        Ok(Replay::Made)
    } else {
        Ok(Replay::Other)
    }
}
