// Whether a firm's trail fits its rows.

ghost use Rattle.std.specs.Prelude.{◌≡◌, ◌↔◌, ◌+◌, ◌-◌, ◌^◌, ◌&&◌, not, true, cond, min, None, Some, IfOk, IfSome, IsTrue, option_to_list};
ghost use Rattle.std.specs.List.{AllByRecursion, list_any};
ghost use Rattle.matter_rows.specs.Rows.{entry_at, is_gone, is_number};
ghost use Rattle.matter_parts.specs.Parts.{entries_kept};
ghost use Rattle.trust_store.specs.Kept.{Ascends, AreKeptWhole, IsKeptWhole, firm_of_all};
ghost use Rattle.trail_laws.specs.Replayed.{IsReplayed};
ghost use Rattle.trail_laws.specs.Signed.{approves, begins_with_opening, days_of_approval, days_of_issue, rule_done};
ghost use Rattle.trust_matter.specs.Policy.{Cashier, has, standing_in};
ghost use Rattle.firm_audit.specs.Trails.{AreEntriesFound, AreMattersFound, HasActsAlone, IsAmong};
ghost use Rattle.firm_audit.specs.Trails.{IsApprovedAs, IsMatterFlawed, IsMatterTrail, IsOfEntry, IsTrailFound};
ghost use Rattle.firm_audit.specs.Trails.{MayBeAllowed, dossier_kept, has_day};

use crate::grouped::acts_by_matter;
use firm_rows::MatterAct;
use matter_parts::Kept;
use matter_rows::{Act, Caller, Deed, Entry, Role};
use std::alloc::{AllocError, Global};
use trail_replay::{Replay, replayed};
use trust_base::{Day, EntryNo, MatterNo, Rule};
use trust_store::{AllRows, KeptMatter, matter_place};

/// The first thing found in which a firm's trail does not fit its rows. `specs/Trails` says what each is.
#[derive(Clone, Copy)]
pub enum TrailFlaw {
    /// The matter's acts do not fit its rows: it has none, since it was never opened or was purged; or each act follows
    /// from those before it, and they make another matter. Of a matter that is older than its acts: an act was not
    /// allowed to its caller, whatever the seats were.
    Matter(MatterNo),
    /// The act at this place among the matter's acts, counted from 1, is the first that does not follow from those
    /// before it: with what the rows say of it, the matter that they make refuses it, or remembers it as another act.
    Act { matter: MatterNo, act: u64 },
    /// Of a matter that is older than its acts: the entry's approvals are not the one of its issue, or the matter has
    /// acts of it and no such entry.
    Entry { matter: MatterNo, entry: EntryNo },
}

/// How many payments that are or were issued have an approval in the trail, and how many have none; and how many
/// matters are older than their acts.
#[derive(Clone, Copy)]
pub struct TrailCounts {
    /// The payments with an approval, up to 2^64 - 1.
    pub approved: u64,
    /// Those without, up to 2^64 - 1: they are of matters that are older than their acts.
    pub earlier: u64,
    /// The matters that are neither purged nor unopened and whose acts do not begin with their opening, up to 2^64 - 1:
    /// they were opened before the book had acts, or the act of their opening is gone.
    pub matters: u64,
}

/// What was found of a firm's trail.
#[derive(Clone, Copy)]
pub enum TrailFound {
    /// It fits the rows.
    Fits(TrailCounts),
    /// It does not.
    Flawed(TrailFlaw),
}

// The rule under which a deed is asked for.
fn rule_done(deed: &Deed) -> Rule
    ensures { result ≡ rule_done deed.now }
{
    match deed {
        Deed::Opened(_) | Deed::Seated(_) | Deed::Unseated(_) | Deed::Closed => Rule::Office,
        Deed::Deposited | Deed::Cancelled | Deed::Cleared | Deed::Returned => Rule::Office,
        Deed::Awarded => Rule::Office,
        Deed::Proposed | Deed::Withdrawn => Rule::Propose,
        Deed::Approved | Deed::Declined | Deed::Voided => Rule::Sign,
        Deed::Earned | Deed::Offered(_) => Rule::Sign,
        Deed::Disputed | Deed::Accepted => Rule::Dispute,
        Deed::Claimed => Rule::Claim,
    }
}

// Whether the policy allows it to the cashier.
fn is_cashiers(rule: Rule) -> bool
    ensures { result ≡ has Cashier rule }
{
    match rule {
        Rule::Read | Rule::Claim | Rule::Propose | Rule::Office | Rule::Firm => true,
        Rule::Dispute | Rule::Sign => false,
    }
}

// Whether the policy allows it to a person in this role.
fn is_in_role(role: Role, rule: Rule) -> bool
    ensures { result ≡ has (standing_in role) rule }
{
    match role {
        Role::Client => match rule {
            Rule::Read | Rule::Dispute => true,
            Rule::Claim | Rule::Propose | Rule::Sign | Rule::Office | Rule::Firm => false,
        },
        Role::Lawyer => match rule {
            Rule::Read | Rule::Claim | Rule::Propose | Rule::Sign => true,
            Rule::Dispute | Rule::Office | Rule::Firm => false,
        },
    }
}

// Whether the policy allows an act to its caller with some seats.
fn may_be_allowed(act: &Act) -> bool
    ensures { IsTrue result ↔ MayBeAllowed act.now }
{
    let rule = rule_done(&act.deed);
    match &act.caller {
        Caller::Cashier => is_cashiers(rule),
        Caller::Person(_) => is_in_role(Role::Client, rule) || is_in_role(Role::Lawyer, rule),
    }
}

// Whether this is so of each of these acts.
fn may_all_be_allowed(acts: &[Act]) -> bool
    ensures { IsTrue result ↔ AllByRecursion MayBeAllowed acts.now }
{
    for act in acts {
        if !may_be_allowed(act) {
            return false;
        }
    }
    true
}

// Whether the first act is the opening of the matter.
fn begins_with_opening(acts: &[Act]) -> bool
    ensures { result ≡ begins_with_opening acts.now }
{
    match acts.first() {
        Some(act) => matches!(act.deed, Deed::Opened(_)),
        None => false,
    }
}

// The day on which a payment was issued; none of anything else.
fn issue_day(entry: &Entry) -> Option<Day>
    ensures { option_to_list result ≡ days_of_issue (Some entry.now) }
{
    match entry {
        Entry::Payment(payment) => payment.state.issued_on(),
        Entry::Deposit(_) | Entry::Fee(_) | Entry::Claim(_) => None,
    }
}

// Whether an act approves an entry.
fn approves(act: &Act, number: EntryNo) -> bool
    ensures { result ≡ approves number act.now }
{
    match act.entry {
        Some(entry) => matches!(act.deed, Deed::Approved) && entry.get() == number.get(),
        None => false,
    }
}

// The days on which an entry was approved.
fn approval_days(alloc: Global, acts: &[Act], number: EntryNo) -> Result<Vec<Day>, AllocError>
    ensures { IfOk result (λ days. days.items ≡ days_of_approval number acts.now) }
{
    let mut days = Vec::new(alloc);
    for act in acts {
        if approves(act, number) {
            days.push(act.day)?;
        }
    }
    Ok(days)
}

// Whether these days are that of the issue, or are none where the acts may begin later.
fn is_approved(days: &[Day], issued: Option<Day>, is_whole: bool) -> bool
    ensures { IsTrue result ↔ IsApprovedAs is_whole days.now (option_to_list issued) }
{
    match issued {
        None => days.is_empty(),
        Some(day) => match days.first() {
            None => !is_whole,
            Some(first) => days.len() == 1 && first.get() == day.get(),
        },
    }
}

// The entry of which an act is, if the matter does not have it.
fn missing_entry(act: &Act, kept: &[Kept]) -> Option<EntryNo>
    ensures none { result ≡ None → IsOfEntry (entries_kept kept.now) act.now.entry }
    ensures some { IfSome result
        (λ n. (act.now.entry ≡ Some n) × (entry_at (entries_kept kept.now) n ≡ None)) }
{
    let number = act.entry?;
    if number.get() as usize > kept.len() {
        return Some(number);
    }
    None
}

// The first entry of which an act is, and which the matter does not have.
fn stray_entry(acts: &[Act], kept: &[Kept]) -> Option<EntryNo>
    ensures none { result ≡ None
        → AllByRecursion (λ act. IsOfEntry (entries_kept kept.now) act.entry) acts.now }
    ensures some { IfSome result
        (λ n. (entry_at (entries_kept kept.now) n ≡ None)
        × (list_any (λ act. is_number act.entry n) acts.now ≡ true)) }
{
    for act in acts {
        let found = missing_entry(act, kept);
        if found.is_some() {
            return found;
        }
    }
    None
}

fn has_approval(days: &[Day]) -> bool
    ensures { result ≡ has_day days.now }
{
    !days.is_empty()
}

// One more, up to the greatest number, if both are so.
fn one_more(count: u64, is_there: bool, is_so: bool) -> u64
    ensures { result ≡ min (count + cond (is_there && is_so) 1 0) (2 ^ 64 - 1) }
{
    if is_there && is_so {
        count.saturating_add(1)
    } else {
        count
    }
}

// What was found of the approvals of a matter's entries, counted on.
fn entries_found(
    alloc: Global,
    matter: MatterNo,
    kept: &[Kept],
    acts: &[Act],
    before: TrailCounts,
) -> Result<TrailFound, AllocError>
    ensures { IfOk result (AreEntriesFound matter kept.now acts.now before) }
{
    let is_whole = begins_with_opening(acts);
    let mut counts = before;
    for one in kept {
        let days = approval_days(alloc, acts, one.number)?;
        let issued = issue_day(&one.entry);
        if !is_approved(&days, issued, is_whole) {
            return Ok(TrailFound::Flawed(TrailFlaw::Entry {
                matter,
                entry: one.number,
            }));
        }
        let is_issued = issued.is_some();
        let is_approved = has_approval(&days);
        counts.approved = one_more(counts.approved, is_issued, is_approved);
        counts.earlier = one_more(counts.earlier, is_issued, !is_approved);
    }
    Ok(TrailFound::Fits(counts))
}

// What of a matter's acts, which begin with its opening, is no part of a replay that makes the matter again.
fn replay_flaw(
    alloc: Global,
    kept: &KeptMatter,
    acts: &[Act],
) -> Result<Option<TrailFlaw>, AllocError>
    requires whole { IsKeptWhole kept.now }
    requires begins { begins_with_opening acts.now ≡ true }
    ensures made { IfOk result
        (λ found. found ≡ None → IsReplayed kept.now.number (dossier_kept kept.now acts.now)) }
    ensures flaw { IfOk result (λ found. IfSome found (IsMatterFlawed kept.now acts.now)) }
{
    let matter = kept.number;
    Ok(match replayed(alloc, matter, &kept.matter, acts)? {
        Replay::Made => None,
        Replay::Misfit(place) => Some(TrailFlaw::Act {
            matter,
            act: place as u64 + 1,
        }),
        Replay::Other => Some(TrailFlaw::Matter(matter)),
    })
}

// What was found of a matter's acts, counted on.
fn matter_found(
    alloc: Global,
    kept: &KeptMatter,
    acts: &[Act],
    before: TrailCounts,
) -> Result<TrailFound, AllocError>
    requires { IsKeptWhole kept.now }
    ensures { IfOk result (IsMatterTrail kept.now acts.now before) }
{
    let matter = kept.number;
    if kept.matter.is_gone() {
        if !acts.is_empty() {
            return Ok(TrailFound::Flawed(TrailFlaw::Matter(matter)));
        }
    }
    if begins_with_opening(acts) {
        if let Some(flaw) = replay_flaw(alloc, kept, acts)? {
            return Ok(TrailFound::Flawed(flaw));
        }
    } else if !may_all_be_allowed(acts) {
        return Ok(TrailFound::Flawed(TrailFlaw::Matter(matter)));
    }
    let entries = kept.matter.kept();
    if let Some(entry) = stray_entry(acts, entries) {
        return Ok(TrailFound::Flawed(TrailFlaw::Entry { matter, entry }));
    }
    entries_found(alloc, matter, entries, acts, before)
}

// The first matter that has acts and no rows.
fn unowned(matters: &[KeptMatter], acts: &[MatterAct]) -> Option<MatterNo>
    requires { Ascends matters.now }
    ensures none { result ≡ None → AllByRecursion (λ a. IsAmong matters.now a.matter) acts.now }
    ensures some { IfSome result (HasActsAlone matters.now acts.now) }
{
    for act in acts {
        match matter_place(matters, act.matter) {
            Ok(_) => (),
            Err(_) => return Some(act.matter),
        }
    }
    None
}

// What was found of matters, each with its acts among all.
fn matters_found(
    alloc: Global,
    matters: &[KeptMatter],
    acts: &[MatterAct],
) -> Result<TrailFound, AllocError>
    requires { AreKeptWhole matters.now }
    ensures { IfOk result (AreMattersFound matters.now acts.now) }
{
    let groups = acts_by_matter(alloc, matters, acts)?;
    let mut counts = TrailCounts {
        approved: 0,
        earlier: 0,
        matters: 0,
    };
    for (place, kept) in matters.iter().enumerate() {
        let own = &groups[place];
        let is_there = !kept.matter.is_gone();
        counts.matters = one_more(counts.matters, is_there, !begins_with_opening(own));
        match matter_found(alloc, kept, own, counts)? {
            TrailFound::Fits(more) => counts = more,
            TrailFound::Flawed(flaw) => return Ok(TrailFound::Flawed(flaw)),
        }
    }
    Ok(TrailFound::Fits(counts))
}

/// Returns whether a firm's trail fits its rows, how many of its payments have their approval in it, and how many of
/// its matters are older than their acts; or the first flaw found. The flaw is there.
///
/// Of each matter whose acts begin with its opening, the rows say of each act what was asked, or what the bank showed,
/// and all of it, asked or shown again in order from nothing, makes the same rows and the same acts. So the policy
/// allowed each act to its caller with the seats of that moment, and each payment that is or was issued has exactly one
/// approval, on the day of its issue. Of a matter that is older than its acts, the policy allowed each act with some
/// seats, and an issued payment may have no approval. An act of an entry is of one that is there, and a matter without
/// records has no acts.
///
/// This takes one pass over all acts, and one over a matter's for each of its entries, and memory for a copy of all acts
/// and of one matter at a time. The only error is out of memory.
pub fn audit_trail(alloc: Global, rows: &AllRows) -> Result<TrailFound, AllocError>
    requires { AreKeptWhole rows.now.matters.items }
    ensures { IfOk result (IsTrailFound (firm_of_all rows.now)) }
{
    if let Some(matter) = unowned(&rows.matters, &rows.acts) {
        return Ok(TrailFound::Flawed(TrailFlaw::Matter(matter)));
    }
    matters_found(alloc, &rows.matters, &rows.acts)
}
