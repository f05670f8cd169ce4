//! Laws of the acts that the desk's runs leave in a firm, which say who did what in each matter, and of its dismissals.
//!
//! # What is promised
//!
//! Each law is the contract of a function that does nothing. They speak of the steps of `trust_desk`, and of the runs
//! that it promises. A matter's dossier is its rows with its acts, as in `trail_laws`.
//!
//! - `laws` `acts_tell_nothing`: two firms that differ in their acts alone answer alike whatever they hear that is not
//!   answered with acts, and differ in their acts alone afterwards (`steps`); so each run of the one in which nothing
//!   is answered with acts could be one of the other (`runs`). What is answered with acts is the trail, of the firm or
//!   of a matter, a matter's acts, and the approvals, of a period or at a month's end. The packet of month's end is
//!   refused alike, and the same but for its last part, the approvals (`month`).
//! - `laws` `dismissals_tell_nothing`: two firms that differ in their dismissals alone answer alike whatever they hear
//!   but a request for the firm's trail, and differ in their dismissals alone afterwards (`steps`); so each run of the
//!   one without such a request could be one of the other (`runs`).
//! - `laws` `acts_are_own`: **in every run each matter's acts afterwards are those of its own machine** if nothing that
//!   concerns it was stopped (`own`); a step that does not concern a matter leaves its acts (`others`). That two firms
//!   with the same rows and acts of a matter are told, and leave, the same is `two_firms` of `desk_laws`.
//! - `laws` `payments_are_signed`: **each payment that is or was issued has exactly one act of approval among its
//!   matter's acts, on the day of its issue, by a person who had a lawyer's seat then**, after all runs of a book that
//!   was empty (`approved`). In a book that is older than its acts this is so of each payment that was not issued
//!   before (`later`). After all runs of a book that was empty, **the policy allowed each act to its caller, with the
//!   seats of that moment**, and a matter's seats are those that its acts left (`allowed`). A matter without acts is
//!   signed from what its rows say (`begins`), and each run of a sound firm keeps each matter's dossier signed, which
//!   says all this (`runs`).
//! - `laws` `approvers_are_signers`: **each payment in the approvals of a period names the person of its one act of
//!   approval**, who had a lawyer's seat then, after all runs of a book that was empty (`named`). In a book that is
//!   older than its acts this is so of each payment that was not issued before (`later`). The others name nobody
//!   (`earlier`). In every sound firm the list has each payment that was issued on a day of the period, once, and
//!   nothing else (`listed`).
//! - `laws` `matters_are_replayed`: **a matter's rows say of each of its acts what was asked, or what the bank showed,
//!   and all of it, asked or shown again in order from nothing, makes the same rows and the same acts**, after all runs
//!   of a book that was empty, of each matter that was opened and not purged; the others have no acts (`replayed`). In
//!   a book that is older than its acts this is so of each matter whose acts begin with its opening (`later`). Each run
//!   of a sound firm keeps both (`runs`, `complete`).
//! - `laws` `trails_pass_the_audit`: **a book that only this program wrote passes the audit of its trail**, as each
//!   matter's acts fit its rows (`HasItsTrail` of `firm_audit`). It is so after all runs of a book that was empty
//!   (`begun`), and of one that is older than its acts (`older`). So `audit_trail` finds a flaw only in a book that
//!   something else wrote (`flawed_is_no_trail` of `firm_audit`).
//! - `laws` `trails_are_kept`: **whatever the desk does in a sound firm keeps the trail**: a request, message or
//!   record, whatever stopped it (`steps`), an item of a statement and the first items of one (`items`, `first_items`),
//!   what a crash may leave of each (`stops`), a run (`runs`), and what a crash may leave of a run that has met no
//!   fault before its last reply (`run_stops`). To keep it is to go on with what was so before: that the trail fits,
//!   that each matter's dossier is signed from where its acts began, that its acts are complete, and that they make it
//!   again. One thing after another keeps it too (`unchanged`, `onward`), as do the runs of the program (`trail` of
//!   `RanAtPath` in `cashier`). A book that was empty and whose trail was always kept has all that is said above of
//!   runs (`begun`), and one that is older than its acts has it of what was not done before (`older`).
#![tactic(auto)]

pub mod laws;
