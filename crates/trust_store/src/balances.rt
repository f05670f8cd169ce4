// The balances that the bank reported, as a sorted list.

ghost use Rattle.std.specs.Prelude.{◌≡◌, ◌≢◌, ◌≤◌, None, length, insert, IfOk, IfErr, OnOk, OnErr};
ghost use Rattle.std.specs.List.Sorted.{IsStrictlySortedBy};
ghost use Rattle.firm_rows.specs.FirmLines.{balance_cmp, kept_balance, with_balance};

use firm_rows::{BalanceKind, BalanceRow};
use std::alloc::AllocError;
use trust_base::Day;

// Where the balance would be inserted. Ok if one of its kind and day is already there.
fn place_of(rows: &[BalanceRow], row: &BalanceRow) -> Result<usize, usize>
    requires { IsStrictlySortedBy balance_cmp rows.now }
    ensures found { IfOk result (λ i. kept_balance row.now.kind row.now.day rows.now ≢ None) }
    ensures within { IfErr result (λ i. i ≤ length rows.now) }
    ensures absent { IfErr result (λ i. with_balance row.now rows.now ≡ insert rows.now i row.now) }
{
    rows.binary_search_by(|other| other.compare(row))
}

/// Inserts a balance in order; none of its kind and day may be there yet. If memory runs out, the balances are
/// unchanged.
pub fn add_balance(rows: &mut Vec<BalanceRow>, row: BalanceRow) -> Result<(), AllocError>
    requires order { IsStrictlySortedBy balance_cmp rows.old.items }
    requires absent { kept_balance row.kind row.day rows.old.items ≡ None }
    ensures ok { OnOk result (rows.new.items ≡ with_balance row rows.old.items) }
    ensures err { OnErr result (rows.new.items ≡ rows.old.items) }
{
    if let Err(place) = place_of(rows, &row) {
        rows.insert(place, row)?;
    }
    Ok(())
}

/// The amount of the balance of this kind and day, in cents. None if there is no such balance.
pub fn balance_kept(rows: &[BalanceRow], kind: BalanceKind, day: Day) -> Option<i64>
    ensures { result ≡ kept_balance kind day rows.now }
{
    for row in rows {
        if row.is_on(kind, day) {
            return Some(row.amount.get());
        }
    }
    None
}
