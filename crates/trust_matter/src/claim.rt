//! Asks about claims.

ghost use Rattle.std.specs.Prelude.{◌≡◌, IfOk, MatchResult, None, Some, pos};
ghost use Rattle.std.specs.Option.{option_copied};
ghost use Rattle.trust_base.specs.Limits.{IsAmount};
ghost use Rattle.matter_rows.specs.Shares.{against_no};
ghost use Rattle.matter_rows.specs.declared.act.Caller.{Caller as AnyCaller};
ghost use Rattle.matter_parts.specs.Parts.{kept_at, entry_in, left_kept};
ghost use Rattle.trust_matter.specs.Conditions.{against_left, is_claim_asked};
ghost use Rattle.trust_matter.specs.KeptFacts.{kept_facts};
ghost use Rattle.trust_matter.specs.ClaimTables.{against_conditions, split_conditions};
ghost use Rattle.trust_matter.specs.Step.{AnswersLateBy, first, settled, with_claim};

use crate::ask::Ask;
use crate::deciding::check_change;
use matter_parts::{Edit, Kept, Matter, Numbered};
use matter_rows::{Against, Claim, ClaimState, Entry, Settlement};
use std::alloc::AllocError;
use trust_base::{Cents, CentsOrZero, Day, EntryNo, Label, Refusal};

/// Asks to raise a claim under a number, on a fee or on what is available (ABA Model Rule 1.15(e)).
#[derive(Drop)]
pub struct ClaimAsk {
    pub number: EntryNo,
    pub amount: Cents,
    pub against: Against,
    pub reason: Label,
}

/// Asks that a part of a claim go to the client, as an offer, an acceptance or an award.
#[derive(Clone, Copy)]
pub struct SplitAsk {
    pub number: EntryNo,
    pub to_client: CentsOrZero,
}

impl SplitAsk {
    // The state of a claim settled on a day, with this part to the client.
    fn settled_on(&self, day: Day) -> ClaimState
        ensures { result ≡ settled day self.now.to_client }
    {
        ClaimState::Settled(Settlement {
            day,
            part: self.to_client,
        })
    }
}

// Whether the entry found is the claim asked for.
fn is_claim_asked(found: Option<&Kept>, asked: &ClaimAsk) -> bool
    ensures { result ≡ is_claim_asked (entry_in (option_copied found.entry)) asked.now }
{
    let Some(kept) = found else {
        return false;
    };
    match &kept.entry {
        Entry::Claim(c) => {
            c.amount.get() == asked.amount.get()
                && c.against.is_same(&asked.against)
                && c.reason.is_same(&asked.reason)
        }
        _ => false,
    }
}

// What is left of the fee, or, for a named claimant other than cash, what is available.
fn left_against(matter: &Matter, against: &Against) -> Result<u64, Refusal>
    ensures { MatchResult result
        (λ left.
        (first (against_conditions against.now (entry_in (kept_at matter.now (against_no against.now)))) ≡ None)
        × (pos left ≡ against_left against.now (pos matter.now.figures.available)
        (left_kept (kept_at matter.now (against_no against.now)))))
        (λ r.
        first (against_conditions against.now (entry_in (kept_at matter.now (against_no against.now)))) ≡ Some r) }
{
    match against {
        Against::General(claimant) => {
            if claimant.is_cash() {
                return Err(Refusal::PayeeIsCash);
            }
            Ok(matter.figures().available)
        }
        Against::Fee(number) => {
            let kept = matter.find(*number).ok_or(Refusal::NoEntry)?;
            let Entry::Fee(_) = &kept.entry else {
                return Err(Refusal::WrongKind);
            };
            Ok(kept.left)
        }
    }
}

// Decides to set a claim apart from its fee, or from what is available.
pub(crate) fn decide_claim(matter: &Matter, asked: &ClaimAsk, day: Day) -> Result<Edit, Refusal>
    ensures amount { IsAmount asked.now.amount }
    ensures answer { (c : AnyCaller) → AnswersLateBy (kept_facts matter.now (Ask.RaiseClaim asked.now))
        (record { caller = c; ask = Ask.RaiseClaim asked.now; day = day }) result }
{
    let amount = asked.amount.get();
    if is_claim_asked(matter.find(asked.number), asked) {
        return Ok(Edit::Nothing);
    }
    let number = asked.number;
    check_change(matter, Some(number), day)?;
    let left = left_against(matter, &asked.against)?;
    if left < amount {
        return Err(Refusal::Short(left));
    }
    let entry = Entry::Claim(Claim {
        book: day,
        amount: asked.amount,
        against: asked.against.copied()?,
        reason: asked.reason.copied()?,
        state: ClaimState::Open,
    });
    Ok(Edit::Append(Numbered { number, entry }))
}

// The claim to be split, if it is unsettled and covers the part asked for.
fn open_claim<'m>(matter: &'m Matter, asked: &SplitAsk) -> Result<&'m Claim, Refusal>
    ensures { MatchResult result
        (λ claim. (first (split_conditions (entry_in (kept_at matter.now asked.now.number)) asked.now.to_client) ≡ None)
        × (entry_in (kept_at matter.now asked.now.number) ≡ Some (Entry.Claim claim.now)))
        (λ r. first (split_conditions (entry_in (kept_at matter.now asked.now.number)) asked.now.to_client) ≡ Some r) }
{
    let kept = matter.find(asked.number).ok_or(Refusal::NoEntry)?;
    let Entry::Claim(claim) = &kept.entry else {
        return Err(Refusal::WrongKind);
    };
    if let ClaimState::Settled(_) = &claim.state {
        return Err(Refusal::WrongState);
    }
    if claim.amount.get() < asked.to_client.get() {
        return Err(Refusal::BadSplit);
    }
    Ok(claim)
}

// The edit that puts the claim in another state.
fn claim_restated(number: EntryNo, claim: &Claim, state: ClaimState) -> Result<Edit, AllocError>
    ensures { IfOk result (λ e. e ≡ with_claim number (Some (Entry.Claim claim.now)) state) }
{
    let entry = Entry::Claim(claim.restated(state)?);
    Ok(Edit::Exchange(Numbered { number, entry }))
}

// Decides to offer the client a part of an open claim. Replaces any earlier offer.
pub(crate) fn decide_offer(matter: &Matter, asked: &SplitAsk, day: Day) -> Result<Edit, Refusal>
    ensures { (c : AnyCaller) → AnswersLateBy (kept_facts matter.now (Ask.Offer asked.now))
        (record { caller = c; ask = Ask.Offer asked.now; day = day }) result }
{
    check_change(matter, None, day)?;
    let claim = open_claim(matter, asked)?;
    let edit = claim_restated(asked.number, claim, ClaimState::Offered(asked.to_client))?;
    Ok(edit)
}

// Decides to accept the offered part, which settles the claim.
pub(crate) fn decide_accept(matter: &Matter, asked: &SplitAsk, day: Day) -> Result<Edit, Refusal>
    ensures { (c : AnyCaller) → AnswersLateBy (kept_facts matter.now (Ask.Accept asked.now))
        (record { caller = c; ask = Ask.Accept asked.now; day = day }) result }
{
    check_change(matter, None, day)?;
    let kept = matter.find(asked.number).ok_or(Refusal::NoEntry)?;
    let Entry::Claim(claim) = &kept.entry else {
        return Err(Refusal::WrongKind);
    };
    let ClaimState::Offered(offered) = &claim.state else {
        return Err(Refusal::WrongState);
    };
    if offered.get() != asked.to_client.get() {
        return Err(Refusal::BadSplit);
    }
    let edit = claim_restated(asked.number, claim, asked.settled_on(day))?;
    Ok(edit)
}

// Decides to settle an open claim with a part to the client, offered or not.
pub(crate) fn decide_award(matter: &Matter, asked: &SplitAsk, day: Day) -> Result<Edit, Refusal>
    ensures { (c : AnyCaller) → AnswersLateBy (kept_facts matter.now (Ask.Award asked.now))
        (record { caller = c; ask = Ask.Award asked.now; day = day }) result }
{
    check_change(matter, None, day)?;
    let claim = open_claim(matter, asked)?;
    let edit = claim_restated(asked.number, claim, asked.settled_on(day))?;
    Ok(edit)
}
