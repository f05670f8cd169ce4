//! Laws of a firm's acts and dismissals. Each is the contract of a function that does nothing.

ghost use Rattle.desk_trail.specs.Approvers.{ApproversAreNamed, EarlierApproversAreUnknown, IssuesAreListed, LaterApproversAreNamed};
ghost use Rattle.desk_trail.specs.AuditedRuns.{TrailsFit, OlderTrailsFit};
ghost use Rattle.desk_trail.specs.Dossiers.{EachActsOwn, OthersActsStay};
ghost use Rattle.desk_trail.specs.KeptTrails.{BegunTrailsAreWhole, FirstItemsKeepTrails, ItemsKeepTrails, OlderTrailsAreKept, RunStopsKeepTrails, RunsKeepTrails, StepsKeepTrails, StopsKeepTrails, TrailsGoOn, UnchangedKeepTrails};
ghost use Rattle.desk_trail.specs.ReplayedRuns.{RunsStayReplayed, RunsStayComplete, MattersAreReplayed, LaterMattersAreReplayed};
ghost use Rattle.desk_trail.specs.SignedRuns.{OlderFirmsAreSigned, RunsStaySigned, ActsAreAllowed, PaymentsAreApproved, LaterPaymentsAreApproved};
ghost use Rattle.desk_trail.specs.TellNothing.{StepsTellNothing, RunsTellNothing, MonthsTellNothing, without_acts, without_dismissals, shows_acts, shows_dismissals};

/// Acts tell nothing but what they say. Two firms that differ in their acts alone answer alike whatever they hear, but
/// for the trail, a matter's acts and the approvals, and differ in their acts alone afterwards. The packet of month's
/// end is refused alike, and the same but for its last part, the approvals.
pub fn acts_tell_nothing()
    ensures steps { StepsTellNothing without_acts shows_acts }
    ensures runs { RunsTellNothing without_acts shows_acts }
    ensures month { MonthsTellNothing }
{}

/// Dismissals tell nothing but what they say. Two firms that differ in their dismissals alone answer alike whatever
/// they hear, but for the firm's trail, and differ in their dismissals alone afterwards.
pub fn dismissals_tell_nothing()
    ensures steps { StepsTellNothing without_dismissals shows_dismissals }
    ensures runs { RunsTellNothing without_dismissals shows_dismissals }
{}

/// In every run each matter's acts are those of its own machine. What does not concern a matter leaves its acts.
pub fn acts_are_own()
    ensures own { EachActsOwn }
    ensures others { OthersActsStay }
{}

/// Each payment that is or was issued has exactly one act of approval among its matter's acts, on the day of its issue,
/// by a person who had a lawyer's seat then: in a book that was empty, after all runs on whatever days, whatever
/// stopped their steps. In a book that is older than its acts this is so of each payment that was not issued before.
/// In a book that was empty the policy allowed each act with the seats of its moment, and they left the matter's seats.
pub fn payments_are_signed()
    ensures begins { OlderFirmsAreSigned }
    ensures runs { RunsStaySigned }
    ensures allowed { ActsAreAllowed }
    ensures approved { PaymentsAreApproved }
    ensures later { LaterPaymentsAreApproved }
{}

/// The approvals of a period are the payments that were issued on its days, each once, in every sound firm. Each names
/// the person of its one act of approval, who had a lawyer's seat then: in a book that was empty, after all runs on
/// whatever days, whatever stopped their steps. In a book that is older than its acts this is so of each payment that
/// was not issued before. The others name nobody.
pub fn approvers_are_signers()
    ensures listed { IssuesAreListed }
    ensures named { ApproversAreNamed }
    ensures later { LaterApproversAreNamed }
    ensures earlier { EarlierApproversAreUnknown }
{}

/// A matter's rows say of each of its acts what was asked, or what the bank showed, and all of it, asked or shown again
/// in order from nothing, makes the same rows and the same acts. In a book that was empty, after all runs on whatever
/// days, whatever stopped their steps, this is so of each matter that was opened and not purged, and the others have no
/// acts. In a book that is older than its acts this is so of each matter whose acts begin with its opening.
pub fn matters_are_replayed()
    ensures runs { RunsStayReplayed }
    ensures complete { RunsStayComplete }
    ensures replayed { MattersAreReplayed }
    ensures later { LaterMattersAreReplayed }
{}

/// A book that only this program wrote passes the audit of its trail: each matter's acts fit its rows. This is so after
/// all runs on whatever days, whatever stopped their steps, of a book that was empty, and of one that is older than its
/// acts.
pub fn trails_pass_the_audit()
    ensures begun { TrailsFit }
    ensures older { OlderTrailsFit }
{}

/// Whatever the desk does in a sound firm keeps the trail: one request, message or record, whatever stopped it; one
/// item of a statement, and the first items of one; what a crash may leave of each; a run, and what a crash may leave
/// of one that has met no fault. So does one after another. A book that was empty, and whose trail was always kept, has
/// all that is said above of runs: its trail fits, each payment issued has its one approval, whose person the approvals
/// name, and the acts of each matter that is not gone make it again. One that is older than its acts has it of what was
/// not done before.
pub fn trails_are_kept()
    ensures steps { StepsKeepTrails }
    ensures items { ItemsKeepTrails }
    ensures first_items { FirstItemsKeepTrails }
    ensures stops { StopsKeepTrails }
    ensures runs { RunsKeepTrails }
    ensures run_stops { RunStopsKeepTrails }
    ensures unchanged { UnchangedKeepTrails }
    ensures onward { TrailsGoOn }
    ensures begun { BegunTrailsAreWhole }
    ensures older { OlderTrailsAreKept }
{}
