//! Laws over the definitions. Each is the contract of a function that does nothing.

ghost use Rattle.trail_laws.specs.Added.{RefusalAddsNone, RepeatAddsNone, ReadingAddsNone, PurgeLeavesNone, AskAddsOne, LineAddsNone, LineAddsOne};
ghost use Rattle.trail_laws.specs.Replayed.{StepsKeepReplayed, StepsKeepComplete, LaterRunsAreReplayed, RunsAreReplayed};
ghost use Rattle.trail_laws.specs.Signed.{SeatsFollowActs, RuleIsOfAsk, ActsStayAllowed, LawyersApprove, IssuesAreApproved, NoActsAreSigned, StepsKeepSigned, RunsKeepSigned, RunsAreSigned};

/// An accepted ask that changes the matter adds exactly one act, of its caller, its day and its entry, and a bank line
/// that is applied adds its own. A refusal, a repeat, a reading and a line that is not applied add none, and a purge
/// leaves none of the matter's acts.
pub fn acts_are_added()
    ensures refused { RefusalAddsNone }
    ensures repeated { RepeatAddsNone }
    ensures read { ReadingAddsNone }
    ensures purged { PurgeLeavesNone }
    ensures asked { AskAddsOne }
    ensures unmatched { LineAddsNone }
    ensures applied { LineAddsOne }
{}

/// A matter's seats are those that its acts left, from where the acts begin. Each step keeps this so.
pub fn seats_follow_acts()
    ensures { SeatsFollowActs }
{}

/// The policy allowed each act to its caller, with the seats of that moment, under the rule of the ask of that deed.
/// Each step keeps this so. An approval is allowed only to a person who has a lawyer's seat.
pub fn acts_are_allowed()
    ensures rules { RuleIsOfAsk }
    ensures steps { ActsStayAllowed }
    ensures approvals { LawyersApprove }
{}

/// Each payment that is or was issued has exactly one act of approval, on the day of its issue, by a person who had a
/// lawyer's seat then. It holds after every run from a matter that was never opened; and where the acts begin later,
/// each step and each run of sound rows keeps it of the payments that were not issued before.
pub fn payments_are_signed()
    ensures approved { IssuesAreApproved }
    ensures begins { NoActsAreSigned }
    ensures steps { StepsKeepSigned }
    ensures later_runs { RunsKeepSigned }
    ensures runs { RunsAreSigned }
{}

/// Where a matter's acts begin with its opening, its rows say of each act what was asked, or what the bank showed, and
/// all of it, asked or shown again in order from nothing, makes the same rows and the same acts. After every run from a
/// matter that was never opened this is so of the matter unless it is gone; and after every run of sound rows that had
/// no acts, if it was opened in that run. Each step keeps it.
pub fn runs_are_replayed()
    ensures steps { StepsKeepReplayed }
    ensures complete { StepsKeepComplete }
    ensures later_runs { LaterRunsAreReplayed }
    ensures runs { RunsAreReplayed }
{}
