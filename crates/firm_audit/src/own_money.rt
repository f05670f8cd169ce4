// Whether the firm's own money is sound.

ghost use Rattle.std.specs.Prelude.{◌≡◌, ◌↔◌, List, Some, None, IfSome, IsTrue, map, slice_get};
ghost use Rattle.firm_rows.specs.FirmLines.{StaysWithin};
ghost use Rattle.firm_rows.specs.Journal.{event_of, line_event, is_of_firm, firm_events};
ghost use Rattle.trust_base.specs.declared.line.Line.{Line};
ghost use Rattle.firm_rows.specs.declared.ledger.BalanceRow.{BalanceRow};
ghost use Rattle.trust_store.specs.declared.plain.KeptMatter.{KeptMatter};
ghost use Rattle.trust_store.specs.Kept.{firm_of};
ghost use Rattle.firm_audit.specs.Audited.{IsOwnMoney};
ghost use Rattle.firm_audit.specs.Flaws.{IsFlawOf, IsOutside};

use crate::Flaw;
use firm_rows::{FirmLine, MAX_OWN, Movement, Owner};

// Whether it is a movement of the firm's own money.
fn is_own(owner: &Owner) -> bool
    ensures { result ≡ is_of_firm owner.now }
{
    matches!(owner, Owner::Firm)
}

// Whether the line moved this.
fn is_line(movement: &Movement, line: &FirmLine) -> bool
    ensures { IsTrue result ↔ event_of movement.now ≡ line_event line.now }
{
    movement.day.get() == line.date.get() && movement.amount == line.amount.get()
}

// Whether the line at this position, counted from 0, moved this.
fn is_line_at(movement: &Movement, lines: &[FirmLine], place: usize) -> bool
    ensures { IsTrue result ↔ slice_get (map line_event lines.now) place ≡ Some (event_of movement.now) }
{
    if place >= lines.len() {
        return false;
    }
    let line = &lines[place];
    is_line(movement, line)
}

// Whether the movements of the firm's own money are the lines of its ledger, one each and in order.
fn are_lines(movements: &[Movement], lines: &[FirmLine]) -> bool
    ensures { IsTrue result ↔ firm_events movements.now ≡ map line_event lines.now }
{
    let mut place = 0;
    for movement in movements {
        if is_own(&movement.owner) {
            if !is_line_at(movement, lines, place) {
                return false;
            }
            place += 1;
        }
    }
    place >= lines.len()
}

// The position of the first line after which the firm's own money is out of range, counted from 1.
fn outside(lines: &[FirmLine]) -> Option<u64>
    ensures none { result ≡ None → StaysWithin lines.now }
    ensures some { IfSome result (IsOutside lines.now) }
{
    let mut place = 0;
    let mut balance = 0i64;
    for line in lines {
        place += 1;
        balance += line.amount.get();
        if balance < 0 || balance > MAX_OWN as i64 {
            return Some(place);
        }
    }
    None
}

/// The first flaw in the firm's own money. Whatever the other rows are, it is one of the firm.
pub(crate) fn own_flaw(movements: &[Movement], lines: &[FirmLine]) -> Option<Flaw>
    ensures sound { result ≡ None → IsOwnMoney movements.now lines.now }
    ensures flaw { (matters : List KeptMatter) (exceptions : List Line) (balances : List BalanceRow)
        → IfSome result (IsFlawOf (firm_of matters movements.now lines.now exceptions balances)) }
{
    if !are_lines(movements, lines) {
        return Some(Flaw::OwnMovements);
    }
    let place = outside(lines)?;
    Some(Flaw::FirmLine(place))
}
