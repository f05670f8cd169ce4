// A list of movements with their names, from rows that arrive one at a time.

ghost use Rattle.std.specs.Prelude.{◌≡◌, ◌++◌, ◌∷◌, [], ◌+◌, ◌<◌, ◌≤◌, cond, IfOk, OnErr, OnOk, vec_capacity, vec_len, pos, fold, option_to_list};
ghost use Rattle.std.specs.List.{flat_map};
ghost use Rattle.firm_figures.specs.Doubles.{in_order};
ghost use Rattle.firm_figures.specs.Reconciling.{added};
ghost use Rattle.firm_rows.specs.Firm.{EntryRow};
ghost use Rattle.firm_periods.specs.Named.{NamedKept, is_earlier, is_head_cut, named, named_sum, none_named, own_moved, own_named, own_pick, pick_of, with_named_own, with_named_row};
ghost use Rattle.firm_periods.specs.declared.moved.NamedMove.{NamedMove};

use crate::moved::{
    Cause, MoveNames, Moved, NamedMove, if_disbursed, if_received, moves_of, name_move,
};
use crate::purged::is_head_purged_within;
use firm_figures::{added, is_head_purged_at, is_in_transit, is_outstanding};
use firm_rows::{FirmLine, MatterRow, MatterRowSink, Owner, RowSink};
use std::alloc::{AllocError, Global};
use std::marker::Model;
use trust_base::{Day, EntryNo, Label, MatterNo, Period};
use trust_matter::{Entry, Head, Holder};

/// Which movements a list takes.
#[derive(Clone, Copy)]
pub enum Pick {
    /// The receipts of a period.
    Receipts(Period),
    /// The disbursements of a period.
    Disbursements(Period),
    /// The deposits in transit as of a day.
    Transit(Day),
    /// The outstanding payments as of a day.
    Outstanding(Day),
}

impl Pick {
    // What a list takes of an entry.
    #[tactic(auto, using(crate::proofs::Picks::picks))]
    fn of(self, entry: &Entry) -> (Option<Moved>, Option<Moved>)
        ensures { option_to_list result.0 ++ option_to_list result.1 ≡ pick_of self entry.now }
    {
        let (first, second) = moves_of(entry);
        match self {
            Pick::Receipts(period) => (if_received(first, period), if_received(second, period)),
            Pick::Disbursements(period) => {
                (if_disbursed(first, period), if_disbursed(second, period))
            }
            Pick::Transit(day) if is_in_transit(entry, day) => (first, None),
            Pick::Outstanding(day) if is_outstanding(entry, day) => (first, None),
            Pick::Transit(_) | Pick::Outstanding(_) => (None, None),
        }
    }

    // Whether a matter with this head was purged that may have had movements that a list takes.
    fn is_cut_by(self, head: &Head) -> bool
        ensures { result ≡ is_head_cut self head.now }
    {
        match self {
            Pick::Receipts(period) | Pick::Disbursements(period) => {
                is_head_purged_within(head, period)
            }
            Pick::Transit(day) | Pick::Outstanding(day) => is_head_purged_at(head, day),
        }
    }

    // Whether a list takes a line of the firm's own.
    fn takes(self, moved: &Moved) -> bool
        ensures { result ≡ own_pick self moved.now }
    {
        match self {
            Pick::Receipts(period) => moved.is_within(period) && !moved.is_disbursed(),
            Pick::Disbursements(period) => moved.is_within(period) && moved.is_disbursed(),
            Pick::Transit(_) | Pick::Outstanding(_) => false,
        }
    }
}

/// What a list takes of an entry: at most two movements with their names.
pub(crate) type Picked = (Option<NamedMove>, Option<NamedMove>);

/// What a list takes of an entry of a client, with the names.
#[tactic(auto, using(crate::proofs::Picks::picks))]
pub(crate) fn name_picked(
    pick: Pick,
    client: &Option<Label>,
    matter: MatterNo,
    number: EntryNo,
    entry: &Entry,
) -> Result<Picked, AllocError>
    ensures { IfOk result (λ found. option_to_list found.0 ++ option_to_list found.1
        ≡ flat_map (named client.now matter number entry.now) (pick_of pick entry.now)) }
{
    let (first, second) = pick.of(entry);
    let one = name_move(client, matter, number, entry, first)?;
    let other = name_move(client, matter, number, entry, second)?;
    Ok((one, other))
}

/// What a list takes of a line of the firm's own.
pub(crate) fn name_own(pick: Pick, line: &FirmLine) -> Result<Option<NamedMove>, AllocError>
    ensures { IfOk result (λ found. option_to_list found
        ≡ cond (own_pick pick (own_moved line.now)) (own_named line.now ∷ []) []) }
{
    let moved = Moved {
        day: line.date,
        amount: line.amount.get(),
        cause: Cause::Own,
    };
    if !pick.takes(&moved) {
        return Ok(None);
    }
    let bank_ref = line.bank_ref.copied()?;
    let text = line.text.copied()?;
    Ok(Some(NamedMove {
        owner: Owner::Firm,
        moved,
        names: MoveNames::Own { bank_ref, text },
    }))
}

/// Appends a movement, if there is one. There is room for it.
pub(crate) fn push_some(lines: &mut Vec<NamedMove>, line: Option<NamedMove>)
    requires { vec_len lines.old < vec_capacity lines.old }
    ensures items { lines.new.items ≡ lines.old.items ++ option_to_list line }
    ensures len { vec_len lines.new ≤ vec_len lines.old + 1 }
    ensures capacity { vec_capacity lines.new ≡ vec_capacity lines.old }
{
    if let Some(line) = line {
        lines.push_reserved(line);
    }
}

/// Appends what a list takes of an entry. There is room for it.
#[tactic(auto, using(crate::proofs::Picks::picks))]
pub(crate) fn push_picked(lines: &mut Vec<NamedMove>, picked: Picked)
    requires { vec_len lines.old + 1 < vec_capacity lines.old }
    ensures { lines.new.items ≡ lines.old.items ++ (option_to_list picked.0 ++ option_to_list picked.1) }
{
    push_some(lines, picked.0);
    push_some(lines, picked.1);
}

/// Appends a movement, if there is one. If memory runs out, it is not appended.
pub(crate) fn push_own(
    lines: &mut Vec<NamedMove>,
    line: Option<NamedMove>,
) -> Result<(), AllocError>
    ensures ok { OnOk result (lines.new.items ≡ lines.old.items ++ option_to_list line) }
    ensures err { OnErr result (lines.new.items ≡ lines.old.items) }
{
    if let Some(line) = line {
        lines.push(line)?;
    }
    Ok(())
}

// The lines by day; those of one day stay in their order.
fn by_day(lines: Vec<NamedMove>) -> Result<Vec<NamedMove>, AllocError>
    ensures { IfOk result (λ vs. vs.items ≡ in_order is_earlier lines.items) }
{
    let mut all = lines;
    all.sort_by(|one, other| one.compare(other))?;
    Ok(all)
}

// The sum of the amounts, in 128 bits.
fn sum_of(lines: &[NamedMove]) -> i128
    ensures { result ≡ fold (λ z (v : NamedMove). added z v.moved.amount) (pos 0) lines.now }
{
    let mut sum = 0;
    for line in lines {
        sum = added(sum, line.moved.amount);
    }
    sum
}

/// Movements with their names, by day, and the sum of their signed amounts in cents.
#[derive(Drop)]
pub struct NamedList {
    pub moves: Vec<NamedMove>,
    pub total: i128,
}

/// The movements by day, those of one day in their order, and their sum. The only error is out of memory.
pub(crate) fn named_list(lines: Vec<NamedMove>) -> Result<NamedList, AllocError>
    ensures moves { IfOk result (λ list. list.moves.items ≡ in_order is_earlier lines.items) }
    ensures total { IfOk result (λ list. list.total
        ≡ fold (λ z (v : NamedMove). added z v.moved.amount) (pos 0) lines.items) }
{
    let total = sum_of(lines.as_slice());
    let moves = by_day(lines)?;
    Ok(NamedList { moves, total })
}

/// Lists movements with their names: the receipts or the disbursements of a period, or what waits for the bank as of a
/// day.
///
/// Contracts see it as what it takes, the client of the last head, the lines, and whether a purged matter may have had
/// movements that it takes.
#[derive(Drop)]
pub struct NamedSink {
    pick: Pick,
    client: Option<Label>,
    lines: Vec<NamedMove>,
    purged: bool,
}

impl Model for NamedSink {
    ghost Value = { NamedKept };

    ghost view = { λ s. record { pick = s.pick; client = s.client; lines = s.lines.items; purged = s.purged } };
}

impl NamedSink {
    /// An empty list.
    pub fn new(alloc: Global, pick: Pick) -> NamedSink
        ensures { result ≡ none_named pick }
    {
        NamedSink {
            pick,
            client: None,
            lines: Vec::new(alloc),
            purged: false,
        }
    }

    /// Whether a purged matter may have had movements that the list takes: it was open in the period, or as of the day.
    /// The list is then no longer complete.
    pub fn is_period_purged(&self) -> bool
        ensures { result ≡ self.now.purged }
    {
        self.purged
    }

    /// The list: the movements by day, those of one day in their order, and their sum. The only error is out of memory.
    pub fn finish(self) -> Result<NamedList, AllocError>
        ensures moves { IfOk result (λ list. list.moves.items ≡ in_order is_earlier self.lines) }
        ensures total { IfOk result (λ list. list.total ≡ named_sum self) }
    {
        named_list(self.lines)
    }

    // Appends what is taken of an entry. If memory runs out, nothing is.
    fn list_entry(
        &mut self,
        matter: MatterNo,
        number: EntryNo,
        entry: &Entry,
    ) -> Result<(), AllocError>
        ensures ok { OnOk result (self.new ≡ with_named_row self.old (matter, EntryRow number entry.now)) }
        ensures err { OnErr result (self.new ≡ self.old) }
    {
        let picked = name_picked(self.pick, &self.client, matter, number, entry)?;
        self.lines.reserve(2)?;
        push_picked(&mut self.lines, picked);
        Ok(())
    }
}

impl MatterRowSink for NamedSink {
    ghost taken = { with_named_row };

    fn matter_row(&mut self, matter: MatterNo, row: MatterRow<'_>) -> Result<(), AllocError> {
        match row {
            MatterRow::Head(head) => match &head.holder {
                Holder::Client(client) => {
                    self.client = Some(client.copied()?);
                    Ok(())
                }
                Holder::Purged(_) => {
                    self.client = None;
                    self.purged = self.purged || self.pick.is_cut_by(head);
                    Ok(())
                }
            },
            MatterRow::Seat(_seat) => Ok(()),
            MatterRow::Entry(number, entry) => self.list_entry(matter, number, entry),
        }
    }
}

impl RowSink<FirmLine> for NamedSink {
    ghost taken = { with_named_own };

    fn take(&mut self, line: &FirmLine) -> Result<(), AllocError> {
        let own = name_own(self.pick, line)?;
        push_own(&mut self.lines, own)
    }
}
