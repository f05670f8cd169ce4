// Passing rows in memory to a sink, one by one.

ghost use Rattle.std.specs.Prelude.{◌≡◌, OnOk, OnErr, map};
ghost use Rattle.trust_base.specs.Limits.{IsAmount};
ghost use Rattle.trust_matter.specs.Rows.{entry_amount};
ghost use Rattle.firm_rows.specs.Countable.{IsRowInRange};
ghost use Rattle.firm_rows.specs.Handing.{AreHanded, row_pair};

use crate::countable::Countable;
use crate::sink::{MatterRow, MatterRowSink, RowSink};
use std::alloc::AllocError;
use trust_base::MatterNo;
use trust_matter::Entry;

// An entry's amount is always in range.
fn has_an_amount(entry: &Entry)
    ensures { IsAmount (entry_amount entry.now) }
{
    let _amount = match entry {
        Entry::Deposit(deposit) => deposit.amount.get(),
        Entry::Payment(payment) => payment.amount.get(),
        Entry::Fee(fee) => fee.amount.get(),
        Entry::Claim(claim) => claim.amount.get(),
    };
}

// Passes a row to the sink.
fn hand_row<S: MatterRowSink>(
    row: &(MatterNo, MatterRow<'_>),
    sink: &mut S,
) -> Result<(), AllocError>
    ensures ok { OnOk result (sink.new ≡ S.taken sink.old (row_pair row.now)) }
    ensures err { OnErr result (sink.new ≡ sink.old) }
    ensures range { IsRowInRange (row_pair row.now) }
{
    match row.1 {
        MatterRow::Head(head) => sink.matter_row(row.0, MatterRow::Head(head)),
        MatterRow::Seat(seat) => sink.matter_row(row.0, MatterRow::Seat(seat)),
        MatterRow::Entry(number, entry) => {
            has_an_amount(entry);
            sink.matter_row(row.0, MatterRow::Entry(number, entry))
        }
    }
}

/// Passes each row of matters to the sink, in order. Stops if the sink runs out of memory.
pub fn hand_rows<S: MatterRowSink>(
    rows: &[(MatterNo, MatterRow<'_>)],
    sink: &mut S,
) -> Result<(), AllocError>
    ensures { AreHanded S.taken IsRowInRange (map row_pair rows.now) result sink.old sink.new }
{
    for row in rows {
        hand_row(row, sink)?;
    }
    Ok(())
}

/// Passes each row to the sink, in order. Stops if the sink runs out of memory.
pub fn hand<T: Countable, S: RowSink<T>>(rows: &[T], sink: &mut S) -> Result<(), AllocError>
    ensures { AreHanded S.taken T.IsInRange rows.now result sink.old sink.new }
{
    for row in rows {
        row.show_range();
        sink.take(row)?;
    }
    Ok(())
}
