//! Laws over the definitions. Each is the contract of a function that does nothing.

ghost use Rattle.matter_rows.specs.LeftLaws.{FeeLeft, ClaimLeft};
ghost use Rattle.trust_matter.specs.Laws.{SoundForEver, LinesKeepSound, LeastRefusal, NoneHolds, FirstReason, NoReason, MadeStays, MadeStaysOrGoes, LinesLeaveMade, PurgedStays, StubIsSound, AskUnchanged, AskRepeat, LineUnchanged, LineRepeat, FullTakesNone};
ghost use Rattle.matter_laws.specs.HeadLaws.{OpeningOpens, ClosingCloses, SeatIsAdded, SeatIsDropped, PurgingPurges, DayIsLast, ReadsChangeNothing};

pub use matter_rows::laws::sound_is_covered;

/// No ask with an amount in range, and no bank line, leaves a matter unsound.
pub fn sound_for_ever()
    ensures asks { SoundForEver }
    ensures lines { LinesKeepSound }
{}

/// A refusal has the least number whose condition holds. If nothing is refused, no condition holds, except those that
/// are not tried for a repeat.
pub fn least_refusal()
    ensures least { LeastRefusal }
    ensures none { NoneHolds }
{}

/// A bank line that matches no entry is given the first reason that holds. If it is applied, no reason holds.
pub fn first_reason_holds()
    ensures first { FirstReason }
    ensures none { NoReason }
{}

/// No ask except a purge, and no bank line, removes an entry or changes its kind, its day or what was asked. Entries
/// are only added and change state. After any ask this is so, or the matter is purged.
pub fn made_stays()
    ensures asks { MadeStays }
    ensures or_goes { MadeStaysOrGoes }
    ensures lines { LinesLeaveMade }
{}

/// Nothing changes a purged matter, and the stub of a sound closed matter is sound.
pub fn purging_is_last()
    ensures stays { PurgedStays }
    ensures stub { StubIsSound }
{}

/// If an ask that makes an entry was accepted, asking it again changes nothing, whatever asks and bank lines came in
/// between, even a purge. It is a repeat as long as the matter is not purged.
pub fn at_most_once()
    ensures unchanged { AskUnchanged }
    ensures repeat { AskRepeat }
{}

/// If a bank line was applied, the same line changes nothing, whatever asks and bank lines came in between, even a
/// purge. It is a repeat as long as the matter is not purged.
pub fn line_at_most_once()
    ensures unchanged { LineUnchanged }
    ensures repeat { LineRepeat }
{}

/// A matter with 9,999 entries takes no more. An ask that makes an entry and is no repeat is refused, without stating a
/// next number.
pub fn full_takes_none()
    ensures { FullTakesNone }
{}

/// The head and the seats of sound rows after an accepted ask: after opening, closing, adding a seat, dropping a seat,
/// and purging.
pub fn head_follows()
    ensures opening { OpeningOpens }
    ensures closing { ClosingCloses }
    ensures seated { SeatIsAdded }
    ensures unseated { SeatIsDropped }
    ensures purging { PurgingPurges }
{}

/// In sound rows, the day of an accepted change becomes the last day. An ask that only reads changes nothing.
pub fn last_day_follows()
    ensures changes { DayIsLast }
    ensures reads { ReadsChangeNothing }
{}

/// In sound rows, what is left of a fee, or of a claim on the general fund, is its amount less sums over the matter's
/// entries.
pub fn lefts_are_sums()
    ensures fees { FeeLeft }
    ensures claims { ClaimLeft }
{}
