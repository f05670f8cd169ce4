//! Laws over the definitions. Each is the contract of a function that does nothing.

ghost use Rattle.std.specs.Prelude.{List};
ghost use Rattle.firm_rows.specs.declared.dismissal.Dismissal.{Dismissal};
ghost use Rattle.firm_rows.specs.declared.matter_act.MatterAct.{MatterAct};
ghost use Rattle.firm_rows.specs.Exceptions.{WithLineAdds, WithoutLineTakes, WithLineAgain};
ghost use Rattle.firm_rows.specs.Firm.{Firm, empty_firm};
ghost use Rattle.firm_rows.specs.FirmChange.{FirmChange};
ghost use Rattle.firm_rows.specs.FirmSound.{IsInOrder, FirmSound, ChangesOne, StaysSound, StaysInOrder, PurgedMovesNothing, PurgeLeavesOthers, ActsOfOneChange, ActsDecideNothing, DismissalsOfOneChange, DismissalsDecideNothing, LineFits, FirmLineFits, BalanceFits, SoundIsSolvent};
ghost use Rattle.firm_rows.specs.LinesStay.{FirmLineIsKept, FirmLinesStay, BalanceIsKept, BalancesStay};
ghost use Rattle.firm_rows.specs.Unsound.{SolventIsNotSound};

use matter_rows::laws::sound_is_covered;

/// A change of the firm changes the rows of the matter that it names, in the way that it says, and of no other matter.
/// A change that names no matter changes no matter's rows.
pub fn changes_one_matter()
    ensures { ChangesOne }
{}

/// A firm without rows is sound, and a change that fits keeps a sound firm sound.
pub fn firm_stays_sound()
    ensures empty { FirmSound empty_firm }
    ensures kept { StaysSound }
{
    sound_is_covered();
}

/// A firm without rows is in order, and every change keeps an ordered firm in order.
pub fn firm_stays_in_order()
    ensures empty { IsInOrder empty_firm }
    ensures kept { StaysInOrder }
{}

/// Purging a matter removes all its movements, and leaves those of every other matter as they were.
pub fn purging_takes_the_movements()
    ensures own { PurgedMovesNothing }
    ensures others { PurgeLeavesOthers }
{}

/// A change of a matter adds the act that it is remembered by to the acts of that matter, and a purge removes these. No
/// other matter's acts change.
pub fn acts_of_one_change()
    ensures { ActsOfOneChange }
{}

/// Acts decide nothing: whether a firm is sound, whether a change fits it, and what a change makes of all its other
/// rows, is the same whatever its acts are.
pub fn acts_decide_nothing()
    ensures { (acts : List MatterAct) (change : FirmChange) (firm : Firm) → ActsDecideNothing acts change firm }
{}

/// Dismissing a line adds it to the dismissals, with its day, behind those that are there. No other change adds one or
/// takes one out, a purge neither.
pub fn dismissals_of_one_change()
    ensures { DismissalsOfOneChange }
{}

/// Dismissals decide nothing: whether a firm is sound, whether a change fits it, and what a change makes of all its
/// other rows, is the same whatever its dismissals are.
pub fn dismissals_decide_nothing()
    ensures { (dismissals : List Dismissal) (change : FirmChange) (firm : Firm)
        → DismissalsDecideNothing dismissals change firm }
{}

/// Every verdict on a bank line is a change that fits, be it a line that names an entry, one of the firm's own, or a
/// balance.
pub fn verdicts_fit()
    ensures line { LineFits }
    ensures firm_line { FirmLineFits }
    ensures balance { BalanceFits }
{}

/// An applied line of the firm's own is stored, and so is an applied balance with its amount. What is stored stays
/// stored after any change that fits, even a purge.
pub fn applied_stays_kept()
    ensures firm_line { FirmLineIsKept }
    ensures firm_lines { FirmLinesStay }
    ensures balance { BalanceIsKept }
    ensures balances { BalancesStay }
{}

/// The exceptions are a set of whole lines. A line is added or removed on its own, and adding one that is already there
/// changes nothing.
pub fn exceptions_are_a_set()
    ensures with { WithLineAdds }
    ensures without { WithoutLineTakes }
    ensures again { WithLineAgain }
{}

/// In a sound firm the ledgers of all matters add up to at least zero, and to what was moved.
pub fn sound_is_solvent()
    ensures { SoundIsSolvent }
{
    sound_is_covered();
}

/// The converse is false: there is a solvent firm, in order, that is not sound. It has two matters, one with 200.00 and
/// one with 200.00 below zero, so that one client's money has paid another's debt.
pub fn solvent_is_not_sound()
    ensures { SolventIsNotSound }
{}
