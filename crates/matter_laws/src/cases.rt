//! Worked cases over the definitions. Each clause is one ask of a matter, and its answer.
#![tactic(auto, unfolding(crate::proofs::Unfolded::worked_cases))]

ghost use Rattle.std.specs.Prelude.{Some, pos, codes};
ghost use Rattle.matter_rows.specs.declared.deposit.DepositState.TheVariants as deposit;
ghost use Rattle.matter_rows.specs.declared.payment.PaymentState.TheVariants as payment;
ghost use Rattle.matter_rows.specs.Rows.{unopened};
ghost use Rattle.matter_rows.specs.Sound.{Sound};
ghost use Rattle.matter_laws.specs.Cases.{Accepts, Refuses, Repeats, HasBalances, sunday, monday, tuesday, lee, ada, bob, by_cashier, by_person, opening_for_ada, seat_for, no_seat_for, retainer, opened_for_ada, seated_for_ada, left_by_ada, retained, cancelled_for_ada, FullIsTold};
ghost use Rattle.matter_laws.specs.CasesClaims.{fee_asked, claim_asked, offer_asked, accept_asked, award_asked, roofers, in_cash, cleared_for_ada, fee_earned, fee_disputed, roof_claimed, settled_with, payment_asked, the_firm, the_client, roof_builders, firm_paid, roof_paid, voided_at_once};
ghost use Rattle.matter_laws.specs.CasesPayments.{cash, cash_company, check_for, clerk, clinic, covered, covered_with_check, covered_with_check_to, firm, friday, next_monday, settled_rows, settled_with_check, uncovered, uncovered_with_check, unsettled, wednesday};
ghost use Rattle.trust_matter.specs.Examples.{every_state, in_every_state, all_paid_out, closed_at_rest, Balance, at_rest, waiting};
ghost use Rattle.matter_laws.specs.CasesLines.{Clears, ComesAgain, Misses, ninth, tenth, eleventh, twelfth, thirteenth, in_words, line_for, out, b1, b2, cleared_on, deposit_in, returned_in, fourteenth, payment_in};
ghost use Rattle.matter_laws.specs.CasesPurging.{leap_day, last_kept, day_after_it, later_on, closed_on_leap_day, purged_in_march};

use matter_rows::{Against, ClaimState, Fund, PaymentState};
use trust_base::{Refusal, Rule};
use trust_matter::{Ask, Reason};

/// A matter is opened once, by the cashier.
pub fn openings()
    ensures opened { Accepts unopened (by_cashier opening_for_ada monday) opened_for_ada }
    ensures opened_again { Refuses opened_for_ada (by_cashier opening_for_ada tuesday) Refusal.AlreadyOpen }
    ensures by_lawyer { Refuses opened_for_ada (by_person lee opening_for_ada tuesday)
        (Refusal.NotAllowed Rule.Office) }
    ensures by_stranger { Refuses unopened (by_person lee opening_for_ada monday) Refusal.NoMatter }
    ensures shown { Accepts opened_for_ada (by_cashier Ask.Show tuesday) opened_for_ada }
    ensures shown_to_lawyer { Accepts opened_for_ada (by_person lee Ask.Show sunday) opened_for_ada }
    ensures unopened_is_not_shown { Refuses unopened (by_cashier Ask.Show monday) Refusal.NoMatter }
{}

/// To a person without a seat, an open matter looks like one that does not exist.
pub fn strangers()
    ensures opened { Refuses opened_for_ada (by_person bob Ask.Show monday) Refusal.NoMatter }
    ensures unopened { Refuses unopened (by_person bob Ask.Show monday) Refusal.NoMatter }
    ensures opened_entry { Refuses retained (by_person bob (Ask.ShowEntry 1) monday) Refusal.NoMatter }
    ensures unopened_entry { Refuses unopened (by_person bob (Ask.ShowEntry 1) monday) Refusal.NoMatter }
    ensures opened_deposit { Refuses opened_for_ada (by_person bob (retainer 1 50000) monday) Refusal.NoMatter }
    ensures unopened_deposit { Refuses unopened (by_person bob (retainer 1 50000) monday) Refusal.NoMatter }
{}

/// A deposit takes the next number, is held, and is booked once.
pub fn deposits()
    ensures booked { Accepts opened_for_ada (by_cashier (retainer 1 50000) monday) retained }
    ensures balances { HasBalances retained 50000 0 50000 }
    ensures booked_again { Repeats retained (by_cashier (retainer 1 50000) tuesday) }
    ensures booked_again_on_an_earlier_day { Repeats retained (by_cashier (retainer 1 50000) sunday) }
    ensures other_amount { Refuses retained (by_cashier (retainer 1 50001) tuesday) (Refusal.WrongNumber (Some 2)) }
    ensures number_left_out { Refuses retained (by_cashier (retainer 3 50000) tuesday) (Refusal.WrongNumber (Some 2)) }
    ensures by_lawyer { Refuses opened_for_ada (by_person lee (retainer 1 50000) monday)
        (Refusal.NotAllowed Rule.Office) }
    ensures on_an_earlier_day { Refuses opened_for_ada (by_cashier (retainer 1 50000) sunday)
        (Refusal.DateBackwards monday) }
{}

/// After 9,999 entries there is no next number.
pub fn last_number()
    ensures { FullIsTold }
{}

/// A held deposit is cancelled once.
pub fn cancellings()
    ensures cancelled { Accepts retained (by_cashier (Ask.CancelDeposit 1) tuesday) cancelled_for_ada }
    ensures balances { HasBalances cancelled_for_ada 0 0 0 }
    ensures cancelled_again { Refuses cancelled_for_ada (by_cashier (Ask.CancelDeposit 1) tuesday) Refusal.WrongState }
    ensures not_there { Refuses retained (by_cashier (Ask.CancelDeposit 2) tuesday) Refusal.NoEntry }
    ensures booked_again { Repeats cancelled_for_ada (by_cashier (retainer 1 50000) tuesday) }
{}

/// A person has at most one seat, seats are sorted by person, and one lawyer always stays.
pub fn seats()
    ensures taken { Refuses opened_for_ada (by_cashier (seat_for lee) monday) Refusal.SeatTaken }
    ensures none_to_drop { Refuses opened_for_ada (by_cashier (no_seat_for bob) monday) Refusal.NoSeat }
    ensures last_lawyer { Refuses opened_for_ada (by_cashier (no_seat_for lee) monday) Refusal.LastLawyer }
    ensures added { Accepts opened_for_ada (by_cashier (seat_for ada) tuesday) seated_for_ada }
    ensures dropped { Accepts seated_for_ada (by_cashier (no_seat_for ada) tuesday) left_by_ada }
    ensures on_an_earlier_day { Refuses opened_for_ada (by_cashier (seat_for ada) sunday)
        (Refusal.DateBackwards monday) }
    ensures shown_to_client { Accepts seated_for_ada (by_person ada Ask.Show tuesday) seated_for_ada }
    ensures client_does_not_book { Refuses seated_for_ada (by_person ada (retainer 1 50000) tuesday)
        (Refusal.NotAllowed Rule.Office) }
{}

/// Nothing changes in a closed matter, on any day.
pub fn closed_matters()
    ensures deposit { Refuses closed_at_rest (by_cashier (retainer 6 50000) 20260202) Refusal.Closed }
    ensures deposit_on_an_earlier_day { Refuses closed_at_rest (by_cashier (retainer 6 50000) monday) Refusal.Closed }
    ensures by_lawyer { Refuses closed_at_rest (by_person lee (retainer 6 50000) 20260202)
        (Refusal.NotAllowed Rule.Office) }
    ensures seat { Refuses closed_at_rest (by_cashier (seat_for bob) 20260202) Refusal.Closed }
    ensures cancelling { Refuses closed_at_rest (by_cashier (Ask.CancelDeposit 1) 20260202) Refusal.Closed }
    ensures opened_again { Refuses closed_at_rest (by_cashier opening_for_ada 20260202) Refusal.AlreadyOpen }
    ensures booked_again { Repeats closed_at_rest (by_cashier (retainer 2 7000) 20260202) }
    ensures shown { Accepts closed_at_rest (by_cashier Ask.Show 20260202) closed_at_rest }
{}

/// A matter is closed once, by the cashier, if its ledger is empty and no payment is proposed or issued.
pub fn closings()
    ensures closed { Accepts at_rest (by_cashier Ask.CloseMatter 20260112) closed_at_rest }
    ensures again { Refuses closed_at_rest (by_cashier Ask.CloseMatter 20260202) Refusal.Closed }
    ensures backwards { Refuses at_rest (by_cashier Ask.CloseMatter 20260108) (Refusal.DateBackwards 20260109) }
    ensures by_lawyer { Refuses at_rest (by_person lee Ask.CloseMatter 20260112) (Refusal.NotAllowed Rule.Office) }
    ensures not_opened { Refuses unopened (by_cashier Ask.CloseMatter 20260112) Refusal.NoMatter }
    ensures money_left { Refuses in_every_state (by_cashier Ask.CloseMatter 20260202) Refusal.NotEmpty }
    ensures payment_proposed { Refuses waiting (by_cashier Ask.CloseMatter 20260202) Refusal.NotEmpty }
{}

/// A closed matter is purged by the cashier, from the day after the last on which its records are kept. From then on it
/// does not exist for a person, and is reported to the cashier as purged. A bank line does not bring it back.
pub fn purgings()
    ensures too_early { Refuses closed_on_leap_day (by_cashier Ask.Purge last_kept) (Refusal.TooEarly day_after_it) }
    ensures purged { Accepts closed_on_leap_day (by_cashier Ask.Purge day_after_it) purged_in_march }
    ensures open { Refuses opened_for_ada (by_cashier Ask.Purge day_after_it) Refusal.WrongState }
    ensures not_opened { Refuses unopened (by_cashier Ask.Purge day_after_it) Refusal.NoMatter }
    ensures backwards { Refuses closed_on_leap_day (by_cashier Ask.Purge thirteenth) (Refusal.DateBackwards leap_day) }
    ensures by_lawyer { Refuses closed_on_leap_day (by_person lee Ask.Purge last_kept)
        (Refusal.NotAllowed Rule.Office) }
    ensures shown { Refuses purged_in_march (by_cashier Ask.Show later_on) Refusal.Purged }
    ensures opened_again { Refuses purged_in_march (by_cashier opening_for_ada later_on) Refusal.Purged }
    ensures purged_again { Refuses purged_in_march (by_cashier Ask.Purge later_on) Refusal.Purged }
    ensures shown_to_lawyer { Refuses purged_in_march (by_person lee Ask.Show later_on) Refusal.NoMatter }
    ensures line_again { Misses purged_in_march (line_for 1 twelfth b1 (pos 50000)) later_on Reason.NoMatter }
{}

/// An ask about an entry is refused by its kind first, then by its state.
pub fn kinds_and_states()
    ensures cleared { Refuses in_every_state (by_cashier (Ask.CancelDeposit 1) 20260202) Refusal.WrongState }
    ensures cancelled { Refuses in_every_state (by_cashier (Ask.CancelDeposit 3) 20260202) Refusal.WrongState }
    ensures fee { Refuses in_every_state (by_cashier (Ask.CancelDeposit 4) 20260202) Refusal.WrongKind }
    ensures claim { Refuses in_every_state (by_cashier (Ask.CancelDeposit 5) 20260202) Refusal.WrongKind }
    ensures payment { Refuses in_every_state (by_cashier (Ask.CancelDeposit 9) 20260202) Refusal.WrongKind }
    ensures fee_on_an_earlier_day { Refuses in_every_state (by_cashier (Ask.CancelDeposit 4) tuesday)
        (Refusal.DateBackwards 20260116) }
    ensures not_there { Refuses in_every_state (by_cashier (Ask.ShowEntry 15) 20260202) Refusal.NoEntry }
    ensures shown { Accepts in_every_state (by_cashier (Ask.ShowEntry 13) 20260202) in_every_state }
    ensures number_of_a_fee { Refuses in_every_state (by_cashier (retainer 4 30000) 20260202)
        (Refusal.WrongNumber (Some 15)) }
{}

/// A fee is set apart from what is available, and cannot exceed that.
pub fn fees()
    ensures earned { Accepts cleared_for_ada (by_person lee (fee_asked 2 20000) tuesday) fee_earned }
    ensures balances { Balance fee_earned.entries 0 30000 0 20000 0 50000 }
    ensures earned_again { Repeats fee_earned (by_person lee (fee_asked 2 20000) tuesday) }
    ensures too_much { Refuses cleared_for_ada (by_person lee (fee_asked 2 50001) tuesday) (Refusal.Short 50000) }
    ensures by_cashier { Refuses cleared_for_ada (by_cashier (fee_asked 2 20000) tuesday)
        (Refusal.NotAllowed Rule.Sign) }
    ensures number_left_out { Refuses cleared_for_ada (by_person lee (fee_asked 3 20000) tuesday)
        (Refusal.WrongNumber (Some 2)) }
{}

/// A client disputes a fee: the claim is taken out of the fee until the firm and the client agree on a part.
pub fn disputed_fees()
    ensures claimed { Accepts fee_earned (by_person ada (claim_asked 3 5000 (Against.Fee 2)) tuesday)
        (fee_disputed ClaimState.Open) }
    ensures claimed_balances { Balance (fee_disputed ClaimState.Open).entries 0 30000 5000 15000 0 50000 }
    ensures more_than_the_fee { Refuses fee_earned (by_person ada (claim_asked 3 20001 (Against.Fee 2)) tuesday)
        (Refusal.Short 20000) }
    ensures by_cashier { Refuses fee_earned (by_cashier (claim_asked 3 5000 (Against.Fee 2)) tuesday)
        (Refusal.NotAllowed Rule.Dispute) }
    ensures on_no_entry { Refuses fee_earned
        (by_person ada (claim_asked 3 5000 (Against.Fee 3)) tuesday) Refusal.NoEntry }
    ensures on_a_deposit { Refuses fee_earned
        (by_person ada (claim_asked 3 5000 (Against.Fee 1)) tuesday) Refusal.WrongKind }
    ensures not_offered { Refuses (fee_disputed ClaimState.Open)
        (by_person ada (accept_asked 3 0) tuesday) Refusal.WrongState }
    ensures offered { Accepts (fee_disputed ClaimState.Open) (by_person lee (offer_asked 3 2000) tuesday)
        (fee_disputed (ClaimState.Offered 2000)) }
    ensures offered_more { Refuses (fee_disputed ClaimState.Open)
        (by_person lee (offer_asked 3 5001) tuesday) Refusal.BadSplit }
    ensures offered_by_client { Refuses (fee_disputed ClaimState.Open) (by_person ada (offer_asked 3 5000) tuesday)
        (Refusal.NotAllowed Rule.Sign) }
    ensures offered_anew { Accepts (fee_disputed (ClaimState.Offered 2000)) (by_person lee (offer_asked 3 0) tuesday)
        (fee_disputed (ClaimState.Offered 0)) }
    ensures offered_balances { Balance (fee_disputed (ClaimState.Offered 2000)).entries 0 30000 5000 15000 0 50000 }
    ensures another_part { Refuses (fee_disputed (ClaimState.Offered 2000))
        (by_person ada (accept_asked 3 3000) tuesday) Refusal.BadSplit }
    ensures accepted { Accepts (fee_disputed (ClaimState.Offered 2000)) (by_person ada (accept_asked 3 2000) tuesday)
        (fee_disputed (settled_with 2000)) }
    ensures accepted_by_lawyer { Refuses (fee_disputed (ClaimState.Offered 2000))
        (by_person lee (accept_asked 3 2000) tuesday) (Refusal.NotAllowed Rule.Dispute) }
    ensures accepted_balances { Balance (fee_disputed (settled_with 2000)).entries 0 32000 0 18000 0 50000 }
    ensures accepted_again { Refuses (fee_disputed (settled_with 2000))
        (by_person ada (accept_asked 3 2000) tuesday) Refusal.WrongState }
    ensures claimed_again { Repeats (fee_disputed (settled_with 2000))
        (by_person ada (claim_asked 3 5000 (Against.Fee 2)) tuesday) }
    ensures more_than_is_left { Refuses (fee_disputed (settled_with 2000))
        (by_person ada (claim_asked 4 18001 (Against.Fee 2)) tuesday) (Refusal.Short 18000) }
{}

/// A claim on what is available is for a claimant; an award gives a part back to the client.
pub fn general_claims()
    ensures claimed { Accepts cleared_for_ada (by_cashier (claim_asked 2 12000 roofers) tuesday)
        (roof_claimed ClaimState.Open) }
    ensures claimed_balances { Balance (roof_claimed ClaimState.Open).entries 0 38000 0 0 12000 50000 }
    ensures claimed_by_lawyer { Accepts cleared_for_ada (by_person lee (claim_asked 2 12000 roofers) tuesday)
        (roof_claimed ClaimState.Open) }
    ensures claimed_by_client { Refuses cleared_for_ada (by_person ada (claim_asked 2 12000 roofers) tuesday)
        (Refusal.NotAllowed Rule.Claim) }
    ensures claimed_in_cash { Refuses cleared_for_ada
        (by_cashier (claim_asked 2 12000 in_cash) tuesday) Refusal.PayeeIsCash }
    ensures offered { Accepts (roof_claimed ClaimState.Open) (by_person lee (offer_asked 2 12000) tuesday)
        (roof_claimed (ClaimState.Offered 12000)) }
    ensures awarded { Accepts (roof_claimed ClaimState.Open) (by_cashier (award_asked 2 2000) tuesday)
        (roof_claimed (settled_with 2000)) }
    ensures awarded_over_an_offer { Accepts (roof_claimed (ClaimState.Offered 500))
        (by_cashier (award_asked 2 2000) tuesday) (roof_claimed (settled_with 2000)) }
    ensures awarded_balances { Balance (roof_claimed (settled_with 2000)).entries 0 40000 0 0 10000 50000 }
    ensures awarded_more { Refuses (roof_claimed ClaimState.Open)
        (by_cashier (award_asked 2 12001) tuesday) Refusal.BadSplit }
    ensures awarded_by_lawyer { Refuses (roof_claimed ClaimState.Open) (by_person lee (award_asked 2 2000) tuesday)
        (Refusal.NotAllowed Rule.Office) }
    ensures awarded_again { Refuses (roof_claimed (settled_with 2000))
        (by_cashier (award_asked 2 2000) tuesday) Refusal.WrongState }
    ensures awarded_a_deposit { Refuses (roof_claimed ClaimState.Open)
        (by_cashier (award_asked 1 2000) tuesday) Refusal.WrongKind }
    ensures awarded_no_entry { Refuses (roof_claimed ClaimState.Open)
        (by_cashier (award_asked 3 2000) tuesday) Refusal.NoEntry }
    ensures too_much { Refuses (roof_claimed (settled_with 2000)) (by_cashier (claim_asked 3 40001 roofers) tuesday)
        (Refusal.Short 40000) }
    ensures not_offered { Refuses (roof_claimed ClaimState.Open)
        (by_person ada (accept_asked 2 2000) tuesday) Refusal.WrongState }
    ensures accepted { Accepts (roof_claimed (ClaimState.Offered 2000)) (by_person ada (accept_asked 2 2000) tuesday)
        (roof_claimed (settled_with 2000)) }
{}

/// The firm is paid from a fee, but not from the disputed part until the claim is settled.
pub fn paid_fees()
    ensures proposed { Accepts (fee_disputed ClaimState.Open)
        (by_person lee (payment_asked 4 16000 (Fund.Fee 2) the_firm) tuesday)
        (firm_paid ClaimState.Open PaymentState.Proposed) }
    ensures to_another { Refuses (fee_disputed ClaimState.Open)
        (by_person lee (payment_asked 4 16000 (Fund.Fee 2) roof_builders) tuesday) Refusal.WrongPayee }
    ensures disputed { Refuses (firm_paid ClaimState.Open PaymentState.Proposed) (by_person lee (Ask.Approve 4) tuesday)
        (Refusal.Short 15000) }
    ensures issued { Accepts (firm_paid (settled_with 2000) PaymentState.Proposed)
        (by_person lee (Ask.Approve 4) tuesday) (firm_paid (settled_with 2000) (PaymentState.Issued tuesday)) }
    ensures issued_balances { Balance
        (firm_paid (settled_with 2000) (PaymentState.Issued tuesday)).entries 0 32000 0 2000 0 34000 }
    ensures voided { Accepts (firm_paid (settled_with 2000) (PaymentState.Issued tuesday))
        (by_person lee (Ask.VoidPayment 4) tuesday) (firm_paid (settled_with 2000) voided_at_once) }
    ensures voided_balances { Balance (firm_paid (settled_with 2000) voided_at_once).entries 0 32000 0 18000 0 50000 }
{}

/// Only the claimant is paid from a claim, and only once it is settled.
pub fn paid_claims()
    ensures not_settled { Refuses (roof_claimed ClaimState.Open)
        (by_cashier (payment_asked 3 10000 (Fund.Claim 2) roof_builders) tuesday) Refusal.WrongState }
    ensures from_a_deposit { Refuses (roof_claimed ClaimState.Open)
        (by_cashier (payment_asked 3 10000 (Fund.Claim 1) roof_builders) tuesday) Refusal.WrongKind }
    ensures to_another { Refuses (roof_claimed (settled_with 2000))
        (by_cashier (payment_asked 3 10000 (Fund.Claim 2) the_client) tuesday) Refusal.WrongPayee }
    ensures proposed { Accepts (roof_claimed (settled_with 2000))
        (by_cashier (payment_asked 3 10000 (Fund.Claim 2) roof_builders) tuesday) (roof_paid PaymentState.Proposed) }
    ensures issued { Accepts (roof_paid PaymentState.Proposed) (by_person lee (Ask.Approve 3) tuesday)
        (roof_paid (PaymentState.Issued tuesday)) }
    ensures issued_balances { Balance (roof_paid (PaymentState.Issued tuesday)).entries 0 40000 0 0 0 40000 }
    ensures too_much { Refuses (roof_paid (PaymentState.Issued tuesday))
        (by_cashier (claim_asked 4 40001 roofers) tuesday) (Refusal.Short 40000) }
{}

/// A payment is proposed without cover, and approved only against cleared deposits.
pub fn payments()
    ensures proposed { Accepts uncovered
        (by_person lee (check_for 2 10000 Fund.General clerk) friday) uncovered_with_check }
    ensures uncovered { Refuses uncovered_with_check (by_person lee (Ask.Approve 2) friday) (Refusal.Short 0) }
    ensures approved { Accepts (covered_with_check friday PaymentState.Proposed) (by_person lee (Ask.Approve 2) friday)
        (covered_with_check friday (PaymentState.Issued friday)) }
    ensures available { Balance (covered_with_check friday (PaymentState.Issued friday)).entries 0 40000 0 0 0 40000 }
    ensures approved_again { Refuses (covered_with_check friday (PaymentState.Issued friday))
        (by_person lee (Ask.Approve 2) friday) Refusal.WrongState }
    ensures voided { Accepts (covered_with_check friday (PaymentState.Issued friday))
        (by_person lee (Ask.VoidPayment 2) next_monday)
        (covered_with_check next_monday (PaymentState.Voided (record { issued = friday; undone = next_monday }))) }
    ensures given_back { Balance
        (covered_with_check next_monday
        (PaymentState.Voided (record { issued = friday; undone = next_monday }))).entries
        0 50000 0 0 0 50000 }
    ensures voided_again { Refuses
        (covered_with_check next_monday (PaymentState.Voided (record { issued = friday; undone = next_monday })))
        (by_person lee (Ask.VoidPayment 2) next_monday) Refusal.WrongState }
    ensures declined { Accepts (covered_with_check friday PaymentState.Proposed)
        (by_person lee (Ask.Decline 2) next_monday) (covered_with_check next_monday PaymentState.Declined) }
    ensures withdrawn_by_cashier { Accepts (covered_with_check friday PaymentState.Proposed)
        (by_cashier (Ask.Withdraw 2) next_monday) (covered_with_check next_monday PaymentState.Declined) }
    ensures client_does_not_withdraw { Refuses (covered_with_check friday PaymentState.Proposed)
        (by_person ada (Ask.Withdraw 2) next_monday) (Refusal.NotAllowed Rule.Propose) }
    ensures issued_is_not_withdrawn { Refuses (covered_with_check friday (PaymentState.Issued friday))
        (by_person lee (Ask.Withdraw 2) next_monday) Refusal.WrongState }
    ensures declined_is_not_approved { Refuses (covered_with_check next_monday PaymentState.Declined)
        (by_person lee (Ask.Approve 2) next_monday) Refusal.WrongState }
    ensures proposed_is_not_voided { Refuses (covered_with_check friday PaymentState.Proposed)
        (by_person lee (Ask.VoidPayment 2) friday) Refusal.WrongState }
    ensures proposed_again { Repeats (covered_with_check next_monday PaymentState.Declined)
        (by_cashier (check_for 2 10000 Fund.General clerk) wednesday) }
    ensures other_fund { Refuses (covered_with_check friday PaymentState.Proposed)
        (by_cashier (check_for 2 10000 (Fund.Fee 1) clerk) friday) (Refusal.WrongNumber (Some 3)) }
    ensures cashier_proposes { Accepts covered (by_cashier (check_for 2 10000 Fund.General clerk) friday)
        (covered_with_check friday PaymentState.Proposed) }
    ensures cashier_does_not_sign { Refuses (covered_with_check friday PaymentState.Proposed)
        (by_cashier (Ask.Approve 2) friday) (Refusal.NotAllowed Rule.Sign) }
    ensures client_does_not_propose { Refuses covered (by_person ada (check_for 2 10000 Fund.General clerk) friday)
        (Refusal.NotAllowed Rule.Propose) }
    ensures deposit_is_not_approved { Refuses covered (by_person lee (Ask.Approve 1) friday) Refusal.WrongKind }
    ensures missing_is_not_approved { Refuses covered (by_person lee (Ask.Approve 2) friday) Refusal.NoEntry }
{}

/// A fee pays the firm, a settled claim its claimant, and the general fund others. Nobody is paid in cash.
pub fn payees()
    ensures firm_from_general { Refuses covered
        (by_person lee (check_for 2 10000 Fund.General firm) friday) Refusal.WrongPayee }
    ensures cash { Refuses covered (by_person lee (check_for 2 10000 Fund.General cash) friday) Refusal.PayeeIsCash }
    ensures cash_company { Accepts covered (by_person lee (check_for 2 10000 Fund.General cash_company) friday)
        (covered_with_check_to cash_company friday PaymentState.Proposed) }
    ensures deposit_is_no_claim { Refuses covered
        (by_person lee (check_for 2 10000 (Fund.Claim 1) clerk) friday) Refusal.WrongKind }
    ensures deposit_is_no_fee { Refuses covered
        (by_person lee (check_for 2 10000 (Fund.Fee 1) firm) friday) Refusal.WrongKind }
    ensures not_there { Refuses covered
        (by_person lee (check_for 2 10000 (Fund.Claim 3) clerk) friday) Refusal.NoEntry }
    ensures own_number_is_not_there { Refuses covered
        (by_person lee (check_for 2 10000 (Fund.Fee 2) firm) friday) Refusal.NoEntry }
    ensures firm_from_fee { Accepts settled_rows (by_person lee (check_for 5 15000 (Fund.Fee 2) firm) friday)
        (settled_with_check 15000 (Fund.Fee 2) firm PaymentState.Proposed) }
    ensures fee_is_short { Refuses (settled_with_check 15001 (Fund.Fee 2) firm PaymentState.Proposed)
        (by_person lee (Ask.Approve 5) friday) (Refusal.Short 15000) }
    ensures clerk_from_fee { Refuses settled_rows
        (by_person lee (check_for 5 15000 (Fund.Fee 2) clerk) friday) Refusal.WrongPayee }
    ensures claimant { Accepts settled_rows (by_person lee (check_for 5 6000 (Fund.Claim 4) clinic) friday)
        (settled_with_check 6000 (Fund.Claim 4) clinic PaymentState.Proposed) }
    ensures claim_on_fee { Refuses settled_rows
        (by_person lee (check_for 5 5000 (Fund.Claim 3) clinic) friday) Refusal.WrongKind }
    ensures claim_is_short { Refuses (settled_with_check 6001 (Fund.Claim 4) clinic PaymentState.Proposed)
        (by_person lee (Ask.Approve 5) friday) (Refusal.Short 6000) }
    ensures unsettled_claim { Refuses unsettled
        (by_person lee (check_for 5 5000 (Fund.Claim 4) clinic) friday) Refusal.WrongState }
    ensures another_than_claimant { Refuses settled_rows
        (by_person lee (check_for 5 6000 (Fund.Claim 4) clerk) friday) Refusal.WrongPayee }
    ensures claim_covers { Accepts (settled_with_check 6000 (Fund.Claim 4) clinic PaymentState.Proposed)
        (by_person lee (Ask.Approve 5) friday)
        (settled_with_check 6000 (Fund.Claim 4) clinic (PaymentState.Issued friday)) }
    ensures claim_is_paid { Balance
        (settled_with_check 6000 (Fund.Claim 4) clinic (PaymentState.Issued friday)).entries
        0 24000 5000 15000 0 44000 }
{}

/// Sound rows exist with an entry of each kind in each state, and so do closed ones.
pub fn sound_rows()
    ensures every_state { Sound in_every_state }
    ensures balances { Balance every_state 5000 45500 10000 14000 24000 93500 }
    ensures closed { Sound closed_at_rest }
    ensures closed_balances { Balance all_paid_out 0 0 0 0 0 0 }
    ensures unopened { Sound unopened }
    ensures opened { Sound opened_for_ada }
{}

/// A line with a held deposit's amount clears it. The last day is then not before the line's date.
pub fn lines_of_deposits()
    ensures cleared { Clears (deposit_in tenth deposit.Held) (line_for 1 twelfth b1 (pos 50000)) twelfth
        (deposit_in twelfth (deposit.Cleared (cleared_on twelfth b1))) }
    ensures balances { HasBalances (deposit_in twelfth (deposit.Cleared (cleared_on twelfth b1))) 0 50000 50000 }
    ensures dated_before_the_booking { Clears (deposit_in tenth deposit.Held) (line_for 1 ninth b1 (pos 50000)) twelfth
        (deposit_in tenth (deposit.Cleared (cleared_on ninth b1))) }
    ensures less { Misses (deposit_in tenth deposit.Held)
        (line_for 1 twelfth b1 (pos 49999)) twelfth Reason.WrongAmount }
    ensures out_of_the_account { Misses (deposit_in tenth deposit.Held)
        (line_for 1 twelfth b1 (out 50000)) twelfth Reason.WrongAmount }
    ensures dated_tomorrow { Misses (deposit_in tenth deposit.Held)
        (line_for 1 twelfth b1 (pos 50000)) eleventh Reason.Future }
    ensures cancelled { Misses (deposit_in eleventh (deposit.Cancelled eleventh))
        (line_for 1 twelfth b1 (pos 50000)) twelfth Reason.WrongState }
    ensures not_there { Misses (deposit_in tenth deposit.Held)
        (line_for 2 twelfth b1 (pos 50000)) twelfth Reason.NoEntry }
    ensures not_opened { Misses unopened (line_for 1 twelfth b1 (pos 50000)) twelfth Reason.NoMatter }
    ensures not_opened_and_dated_tomorrow { Misses unopened (line_for 1 twelfth b1 (pos 50000)) eleventh Reason.Future }
{}

/// A line with the negative of an issued payment's amount clears it.
pub fn lines_of_payments()
    ensures cleared { Clears (payment_in eleventh (payment.Issued eleventh)) (line_for 2 twelfth b2 (out 10000)) twelfth
        (payment_in twelfth (payment.Cleared (record { issued = eleventh; clearing = cleared_on twelfth b2 }))) }
    ensures balances { HasBalances
        (payment_in twelfth (payment.Cleared (record { issued = eleventh; clearing = cleared_on twelfth b2 })))
        0 40000 40000 }
    ensures dated_before_the_issue { Clears (payment_in eleventh (payment.Issued eleventh))
        (line_for 2 ninth b2 (out 10000)) twelfth
        (payment_in eleventh (payment.Cleared (record { issued = eleventh; clearing = cleared_on ninth b2 }))) }
    ensures into_the_account { Misses (payment_in eleventh (payment.Issued eleventh))
        (line_for 2 twelfth b2 (pos 10000)) twelfth Reason.WrongAmount }
    ensures proposed { Misses (payment_in tenth payment.Proposed)
        (line_for 2 twelfth b2 (out 10000)) twelfth Reason.WrongState }
    ensures declined { Misses (payment_in eleventh payment.Declined)
        (line_for 2 twelfth b2 (out 10000)) twelfth Reason.WrongState }
    ensures voided { Misses (payment_in twelfth (payment.Voided (record { issued = eleventh; undone = twelfth })))
        (line_for 2 twelfth b2 (out 10000)) twelfth Reason.WrongState }
    ensures fee { Misses in_every_state (line_for 4 20260116 b1 (out 30000)) 20260202 Reason.WrongKind }
    ensures claim { Misses in_every_state (line_for 5 20260116 b1 (out 10000)) 20260202 Reason.WrongKind }
{}

/// A line with the negative of a cleared deposit's amount takes it back on the business day, if what is available
/// covers it and that day is not before the last day.
pub fn lines_of_returns()
    ensures returned { Clears (deposit_in twelfth (deposit.Cleared (cleared_on twelfth b1)))
        (line_for 1 thirteenth b2 (out 50000)) fourteenth (returned_in fourteenth fourteenth) }
    ensures balances { HasBalances (returned_in fourteenth fourteenth) 0 0 0 }
    ensures cleared_again { ComesAgain (returned_in fourteenth fourteenth)
        (line_for 1 twelfth b1 (pos 50000)) fourteenth }
    ensures returned_again { ComesAgain (returned_in fourteenth fourteenth)
        (line_for 1 thirteenth b2 (out 50000)) ninth }
    ensures other_of_returned { Misses (returned_in fourteenth fourteenth)
        (line_for 1 thirteenth b1 (out 50000)) fourteenth Reason.WrongState }
    ensures before_the_last_day { Misses (deposit_in fourteenth (deposit.Cleared (cleared_on twelfth b1)))
        (line_for 1 ninth b2 (out 50000)) thirteenth Reason.Uncovered }
    ensures paid_out { Misses (payment_in eleventh (payment.Issued eleventh))
        (line_for 1 eleventh b2 (out 50000)) twelfth Reason.Uncovered }
    ensures less { Misses (deposit_in twelfth (deposit.Cleared (cleared_on twelfth b1)))
        (line_for 1 thirteenth b2 (out 49999)) fourteenth Reason.WrongState }
    ensures dated_tomorrow { Misses (deposit_in twelfth (deposit.Cleared (cleared_on twelfth b1)))
        (line_for 1 fourteenth b2 (out 50000)) thirteenth Reason.Future }
    ensures of_closed_matter { Misses closed_at_rest (line_for 1 20260106 b1 (out 10000)) 20260202 Reason.Uncovered }
{}

/// A line that cleared an entry is a repeat on any business day and with any text. A line with another date, bank
/// reference or amount is not.
pub fn lines_again()
    ensures deposit { ComesAgain (deposit_in twelfth (deposit.Cleared (cleared_on twelfth b1)))
        (line_for 1 twelfth b1 (pos 50000)) twelfth }
    ensures deposit_on_a_later_day { ComesAgain (deposit_in twelfth (deposit.Cleared (cleared_on twelfth b1)))
        (line_for 1 twelfth b1 (pos 50000)) thirteenth }
    ensures deposit_on_an_earlier_day { ComesAgain (deposit_in twelfth (deposit.Cleared (cleared_on twelfth b1)))
        (line_for 1 twelfth b1 (pos 50000)) eleventh }
    ensures deposit_in_other_words { ComesAgain (deposit_in twelfth (deposit.Cleared (cleared_on twelfth b1)))
        (in_words (codes "wire in") 1 twelfth b1 (pos 50000)) twelfth }
    ensures deposit_of_another_day { Misses (deposit_in twelfth (deposit.Cleared (cleared_on twelfth b1)))
        (line_for 1 eleventh b1 (pos 50000)) twelfth Reason.WrongState }
    ensures deposit_of_another_reference { Misses (deposit_in twelfth (deposit.Cleared (cleared_on twelfth b1)))
        (line_for 1 twelfth b2 (pos 50000)) twelfth Reason.WrongState }
    ensures deposit_of_another_amount { Misses (deposit_in twelfth (deposit.Cleared (cleared_on twelfth b1)))
        (line_for 1 twelfth b1 (pos 49999)) twelfth Reason.WrongState }
    ensures payment { ComesAgain
        (payment_in twelfth (payment.Cleared (record { issued = eleventh; clearing = cleared_on twelfth b2 })))
        (line_for 2 twelfth b2 (out 10000)) thirteenth }
    ensures payment_back { Misses
        (payment_in twelfth (payment.Cleared (record { issued = eleventh; clearing = cleared_on twelfth b2 })))
        (line_for 2 twelfth b2 (pos 10000)) thirteenth Reason.WrongState }
    ensures of_closed_matter { ComesAgain closed_at_rest (line_for 1 20260106 (codes "88121") (pos 10000)) 20260202 }
    ensures other_of_closed_matter { Misses closed_at_rest
        (line_for 1 20260106 b1 (pos 10000)) 20260202 Reason.WrongState }
{}
