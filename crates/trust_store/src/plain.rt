// A book in memory, made of lists.

ghost use Rattle.std.specs.Prelude.{◌≡◌, ◌↔◌, IsTrue, ◌≤◌, ◌++◌, ◌∷◌, [], ◌+ℤ◌, None, ℕ, length, fold, IfOk, IfSome, OnOk, OnErr, IsOk};
ghost use Rattle.matter_parts.specs.declared.edit.Edit.TheVariants.{Nothing};
ghost use Rattle.matter_parts.specs.Parts.{IsWhole, AreNumbered};
ghost use Rattle.matter_parts.specs.Changes.{IsChange, changed};
ghost use Rattle.firm_rows.specs.Countable.{IsActInRange, IsRowInRange, MOST_ROWS};
ghost use Rattle.firm_rows.specs.Firm.{empty_firm, headed, of, acts_left, acts_without, joined_act, joined_movement, kept_movements, moved_without, is_of_matter, pairs, head_pairs, seat_pairs, after_change, after_stray, after_match, own_movement, with_dismissal, with_firm_line, with_balance_row};
ghost use Rattle.firm_rows.specs.FirmLines.{IsOwnBalance, balance_of, as_firm_line, balance_row, kept_balance};
ghost use Rattle.firm_rows.specs.FirmSound.{FirmSound};
ghost use Rattle.firm_rows.specs.Handing.{AreHanded, FoldsFront};
ghost use Rattle.trust_store.specs.Named.{IsPartFor};
ghost use Rattle.trust_store.specs.MatterActs.{acts_in};
ghost use Rattle.trust_store.specs.Kept.{Ascends, AreKeptWhole, IsKeptAs, joined, kept_pairs, rows_kept, rows_in, seek};

use crate::Book;
use crate::all_rows::{AllRows, copies};
use crate::balances::{add_balance, balance_kept};
use crate::exceptions::{add_line, remove_line};
use crate::unread_act::UnreadAct;
use firm_rows::laws::{firm_stays_sound, verdicts_fit};
use firm_rows::{
    BalanceKind, BalanceRow, Dismissal, FirmLedger, FirmLine, MAX_OWN, MatterAct, MatterRow,
    MatterRowSink, Movement, Owner, RowSink, Verdict, hand,
};
use std::alloc::{AllocError, Global};
use std::marker::Model;
use trust_base::{Day, EntryNo, Line, MatterNo, StoreFault};
use trust_matter::{BankLine, Change, Edit, Kept, LineVerdict, Matter, Seat};

/// A matter with its number.
#[derive(Drop)]
pub struct KeptMatter {
    pub number: MatterNo,
    pub matter: Matter,
}

/// Stores everything in lists: whole matters by number, the movements, the firm's own ledger, the exceptions and the
/// balances, both sorted, the acts and the dismissals.
///
/// It never returns `Store`, and promises nothing about a crash.
#[derive(Drop)]
pub struct PlainBook {
    matters: Vec<KeptMatter>,
    movements: Vec<Movement>,
    own: FirmLedger,
    exceptions: Vec<Line>,
    balances: Vec<BalanceRow>,
    acts: Vec<MatterAct>,
    dismissals: Vec<Dismissal>,
}

impl Model for PlainBook {
    ghost use Rattle.firm_rows.specs.Firm.{Firm, with_trail};

    ghost Value = { Firm };

    ghost use Rattle.trust_store.specs.Kept.{firm_of, AreKept};

    ghost view = { λ b. with_trail b.acts.items b.dismissals.items
        (firm_of b.matters.items b.movements.items b.own b.exceptions.items b.balances.items) };

    ghost invariant = { λ b. AreKept b.matters.items b.movements.items b.own b.exceptions.items b.balances.items };
}

impl PlainBook {
    /// A book without rows. Allocates nothing.
    pub fn new(alloc: Global) -> PlainBook
        ensures empty { result ≡ empty_firm }
        ensures sound { FirmSound result }
        ensures clean { (⟦<PlainBook as Book>⟧.seen result).clean }
    {
        firm_stays_sound();
        PlainBook {
            matters: Vec::new(alloc),
            movements: Vec::new(alloc),
            own: FirmLedger::new(alloc),
            exceptions: Vec::new(alloc),
            balances: Vec::new(alloc),
            acts: Vec::new(alloc),
            dismissals: Vec::new(alloc),
        }
    }

    // Its rows are always those of a sound firm.
    fn is_sound(&self)
        ensures { FirmSound self.now }
    {
        let _matters = &self.matters;
    }

    // Makes one change of a matter, or none on an error.
    fn change(&mut self, alloc: Global, matter: MatterNo, change: &Change) -> Result<(), AllocError>
        requires { IsChange (of matter self.old) change.now }
        ensures ok { OnOk result (self.new ≡ after_change matter change.now self.old) }
        ensures err { OnErr result (self.new ≡ self.old) }
        ensures nothing { change.now.edit ≡ Nothing → IsOk result }
    {
        firm_stays_sound();
        if let Edit::Nothing = change.edit() {
            return Ok(());
        }
        write_with_act(
            alloc,
            &mut self.matters,
            &mut self.movements,
            &mut self.acts,
            matter,
            change,
        )?;
        Ok(())
    }

    // Books a line of the firm's own with what it moves. Nothing on an error, or if the firm may not own so much.
    fn book(&mut self, line: &Line) -> Result<(), AllocError>
        ensures ok { IsOwnBalance (balance_of (self.old).firm_lines +ℤ line.now.amount)
            → OnOk result (self.new ≡ with_firm_line (as_firm_line line.now) self.old) }
        ensures err { OnErr result (self.new ≡ self.old) }
    {
        if !may_own(self.own.balance(), line) {
            return Ok(());
        }
        book_line(&mut self.movements, &mut self.own, line)?;
        Ok(())
    }

    // Stores a balance. None of its kind and day may be there yet.
    fn keep(&mut self, kind: BalanceKind, line: &Line) -> Result<(), AllocError>
        requires { kept_balance kind line.now.date (self.old).balances ≡ None }
        ensures ok { OnOk result (self.new ≡ with_balance_row (balance_row kind line.now) self.old) }
        ensures err { OnErr result (self.new ≡ self.old) }
    {
        let row = BalanceRow::of(kind, line);
        add_balance(&mut self.balances, row)?;
        Ok(())
    }

    // Adds a line to the exceptions.
    fn except(&mut self, line: &Line) -> Result<(), AllocError>
        ensures ok { OnOk result (self.new ≡ after_stray line.now self.old) }
        ensures err { OnErr result (self.new ≡ self.old) }
    {
        add_line(&mut self.exceptions, line)?;
        Ok(())
    }

    // Adds a line to the dismissals, with the day.
    fn keep_dismissed(&mut self, day: Day, line: &Line) -> Result<(), AllocError>
        ensures ok { OnOk result (self.new ≡ with_dismissal (record { day = day; line = line.now }) self.old) }
        ensures err { OnErr result (self.new ≡ self.old) }
    {
        let line = line.copied()?;
        self.dismissals.push(Dismissal { day, line })?;
        Ok(())
    }

    // Removes a line from the exceptions. Allocates nothing.
    fn settle(&mut self, line: &Line)
        ensures { self.new ≡ after_match line.now self.old }
    {
        remove_line(&mut self.exceptions, line);
    }
}

impl Book for PlainBook {
    ghost seen = { λ b. record {
      firm = b;
      clean = Unit {0};
      sure = Unit {0};
      stands = FirmSound b;
      readable = Unit {0};
      lasts = Unit {0};
      leaves = λ _. ⊥;
      refusals = 0;
      sound = λ sound. sound;
      clean_is_sure = λ clean. clean;
    } };

    fn matter(&mut self, alloc: Global, matter: MatterNo) -> Result<Matter, StoreFault> {
        Ok(matter_of(alloc, &self.matters, matter)?)
    }

    fn matter_for(
        &mut self,
        alloc: Global,
        matter: MatterNo,
        entry: Option<EntryNo>,
        other: Option<EntryNo>,
    ) -> Result<Matter, StoreFault> {
        Ok(part_of(alloc, &self.matters, matter, entry, other)?)
    }

    fn opened_matters(&mut self, alloc: Global) -> Result<Vec<MatterNo>, StoreFault> {
        Ok(headed_among(alloc, &self.matters)?)
    }

    fn firm(&mut self, alloc: Global) -> Result<FirmLedger, StoreFault> {
        Ok(self.own.copied(alloc)?)
    }

    fn balance(&mut self, kind: BalanceKind, day: Day) -> Result<Option<i64>, StoreFault> {
        Ok(balance_kept(&self.balances, kind, day))
    }

    fn all_rows(&mut self, alloc: Global) -> Result<AllRows, StoreFault> {
        Ok(AllRows {
            matters: copies(alloc, &self.matters)?,
            movements: Vec::from_slice(alloc, &self.movements)?,
            firm_lines: copies(alloc, self.own.lines())?,
            exceptions: copies(alloc, &self.exceptions)?,
            balances: Vec::from_slice(alloc, &self.balances)?,
            acts: copies(alloc, &self.acts)?,
            dismissals: copies(alloc, &self.dismissals)?,
        })
    }

    fn each_row<S: MatterRowSink>(&mut self, sink: &mut S) -> Result<(), StoreFault> {
        Ok(hand_counted(&self.matters, sink)?)
    }

    fn each_movement<S: RowSink<Movement>>(&mut self, sink: &mut S) -> Result<(), StoreFault> {
        Ok(hand(&self.movements, sink)?)
    }

    fn each_firm_line<S: RowSink<FirmLine>>(&mut self, sink: &mut S) -> Result<(), StoreFault> {
        Ok(hand(self.own.lines(), sink)?)
    }

    fn each_exception<S: RowSink<Line>>(&mut self, sink: &mut S) -> Result<(), StoreFault> {
        Ok(hand(&self.exceptions, sink)?)
    }

    fn each_balance<S: RowSink<BalanceRow>>(&mut self, sink: &mut S) -> Result<(), StoreFault> {
        Ok(hand(&self.balances, sink)?)
    }

    fn each_act<S: RowSink<MatterAct>>(&mut self, sink: &mut S) -> Result<(), StoreFault> {
        Ok(hand(&self.acts, sink)?)
    }

    fn each_act_of<S: RowSink<MatterAct>>(
        &mut self,
        matter: MatterNo,
        sink: &mut S,
    ) -> Result<(), StoreFault> {
        Ok(hand_acts_of(&self.acts, matter, sink)?)
    }

    fn each_readable_act<S: RowSink<MatterAct>>(
        &mut self,
        alloc: Global,
        sink: &mut S,
    ) -> Result<Vec<UnreadAct>, StoreFault> {
        hand(&self.acts, sink)?;
        Ok(Vec::new(alloc))
    }

    fn unread_dismissals(&mut self, alloc: Global) -> Result<Vec<u64>, StoreFault> {
        Ok(Vec::new(alloc))
    }

    fn each_dismissal<S: RowSink<Dismissal>>(&mut self, sink: &mut S) -> Result<(), StoreFault> {
        Ok(hand(&self.dismissals, sink)?)
    }

    fn write_change(
        &mut self,
        alloc: Global,
        matter: MatterNo,
        change: &Change,
    ) -> Result<(), StoreFault> {
        self.is_sound();
        self.change(alloc, matter, change)?;
        self.is_sound();
        Ok(())
    }

    // The change comes first, since it may run out of memory. Removing the exception cannot, so it ends the write.
    fn write_line(
        &mut self,
        alloc: Global,
        line: &BankLine,
        verdict: &LineVerdict,
    ) -> Result<(), StoreFault> {
        self.is_sound();
        match verdict {
            LineVerdict::Applied(change) => self.change(alloc, line.matter, change)?,
            LineVerdict::Repeat => {}
            LineVerdict::Unmatched(_) => return self.write_stray(alloc, &line.line),
        }
        self.settle(&line.line);
        self.is_sound();
        Ok(())
    }

    fn write_firm(
        &mut self,
        alloc: Global,
        line: &Line,
        verdict: Verdict,
    ) -> Result<(), StoreFault> {
        self.is_sound();
        verdicts_fit();
        match verdict {
            Verdict::Applied => self.book(line)?,
            Verdict::Repeat => {}
            Verdict::Unmatched => return self.write_stray(alloc, line),
        }
        self.settle(line);
        self.is_sound();
        Ok(())
    }

    fn write_balance(
        &mut self,
        alloc: Global,
        kind: BalanceKind,
        line: &Line,
        verdict: Verdict,
    ) -> Result<(), StoreFault> {
        self.is_sound();
        verdicts_fit();
        match verdict {
            Verdict::Applied => self.keep(kind, line)?,
            Verdict::Repeat => {}
            Verdict::Unmatched => return self.write_stray(alloc, line),
        }
        self.settle(line);
        self.is_sound();
        Ok(())
    }

    fn write_stray(&mut self, _alloc: Global, line: &Line) -> Result<(), StoreFault> {
        self.except(line)?;
        self.is_sound();
        Ok(())
    }

    fn dismiss(&mut self, _alloc: Global, day: Day, line: &Line) -> Result<(), StoreFault> {
        self.is_sound();
        self.keep_dismissed(day, line)?;
        self.settle(line);
        self.is_sound();
        Ok(())
    }
}

// Whether the firm may own what it owns with this line, if its lines add up to `balance`.
fn may_own(balance: i64, line: &Line) -> bool
    requires { IsOwnBalance balance }
    ensures { IsTrue result ↔ IsOwnBalance (balance +ℤ line.now.amount) }
{
    let owned = balance + line.amount.get();
    0 <= owned && owned <= MAX_OWN as i64
}

/// The index of a matter in a list sorted by number, or where it would be inserted.
pub fn matter_place(kept: &[KeptMatter], matter: MatterNo) -> Result<usize, usize>
    requires { Ascends kept.now }
    ensures { result ≡ seek matter kept.now }
{
    kept.binary_search_by_key(&matter.get(), |k| k.number.get())
}

// A copy of a matter with all its entries.
fn matter_of(alloc: Global, kept: &[KeptMatter], matter: MatterNo) -> Result<Matter, AllocError>
    requires { AreKeptWhole kept.now }
    ensures { IfOk result (λ part. IsWhole part (rows_in matter kept.now)) }
{
    match matter_place(kept, matter) {
        Ok(place) => kept[place].matter.copied(alloc),
        Err(_) => Ok(Matter::unopened(alloc)),
    }
}

// The numbers of the matters that have a head.
fn headed_among(alloc: Global, kept: &[KeptMatter]) -> Result<Vec<MatterNo>, AllocError>
    ensures { IfOk result (λ numbers. numbers.items ≡ headed (joined kept.now)) }
{
    let mut numbers = Vec::new(alloc);
    for k in kept {
        if k.matter.head().is_some() {
            numbers.push(k.number)?;
        }
    }
    Ok(numbers)
}

// A copy of a matter with the named entries and those that they draw on.
fn part_of(
    alloc: Global,
    kept: &[KeptMatter],
    matter: MatterNo,
    entry: Option<EntryNo>,
    other: Option<EntryNo>,
) -> Result<Matter, AllocError>
    requires { AreKeptWhole kept.now }
    ensures { IfOk result (λ part. IsPartFor (rows_in matter kept.now) entry other part) }
{
    match matter_place(kept, matter) {
        Ok(place) => kept[place].matter.part(alloc, entry, other),
        Err(_) => Ok(Matter::unopened(alloc)),
    }
}

// Makes the change with what it moves and what it is remembered by, or nothing on an error.
fn write_with_act(
    alloc: Global,
    kept: &mut Vec<KeptMatter>,
    movements: &mut Vec<Movement>,
    acts: &mut Vec<MatterAct>,
    matter: MatterNo,
    change: &Change,
) -> Result<(), AllocError>
    requires whole { AreKeptWhole kept.old.items }
    requires change { IsChange (rows_in matter kept.old.items) change.now }
    ensures kept { OnOk result
        (IsKeptAs matter (changed change.now (rows_in matter kept.old.items)) kept.old.items kept.new.items) }
    ensures moved { OnOk result
        (movements.new.items ≡ kept_movements matter change.now.edit
        (movements.old.items ++ joined_movement matter change.now.movement)) }
    // The act is appended. If the matter is purged, its acts are removed.
    ensures acted { OnOk result
        (acts.new.items ≡ acts_left matter change.now.edit (acts.old.items ++ joined_act matter change.now.act)) }
    ensures err { OnErr result
        ((kept.new.items ≡ kept.old.items) × (movements.new.items ≡ movements.old.items)
        × (acts.new.items ≡ acts.old.items)) }
{
    let before = acts.len();
    push_act(acts, matter, change)?;
    match write_kept(alloc, kept, movements, matter, change) {
        Ok(()) => {
            drop_acts(acts, matter, change.edit());
            Ok(())
        }
        Err(error) => {
            acts.truncate(before);
            Err(error)
        }
    }
}

// Makes the change with what it moves, or nothing on an error.
fn write_kept(
    alloc: Global,
    kept: &mut Vec<KeptMatter>,
    movements: &mut Vec<Movement>,
    matter: MatterNo,
    change: &Change,
) -> Result<(), AllocError>
    requires whole { AreKeptWhole kept.old.items }
    requires change { IsChange (rows_in matter kept.old.items) change.now }
    ensures kept { OnOk result
        (IsKeptAs matter (changed change.now (rows_in matter kept.old.items)) kept.old.items kept.new.items) }
    // What the change moves is appended. If the matter is purged, its movements are removed.
    ensures moved { OnOk result
        (movements.new.items ≡ kept_movements matter change.now.edit
        (movements.old.items ++ joined_movement matter change.now.movement)) }
    ensures err { OnErr result ((kept.new.items ≡ kept.old.items) × (movements.new.items ≡ movements.old.items)) }
{
    let before = movements.len();
    push_movement(movements, matter, change)?;
    match change_kept(alloc, kept, matter, change) {
        Ok(()) => {
            drop_movements(movements, matter, change.edit());
            Ok(())
        }
        Err(error) => {
            movements.truncate(before);
            Err(error)
        }
    }
}

// Books a line of the firm's own with what it moves, or nothing on an error.
fn book_line(
    movements: &mut Vec<Movement>,
    own: &mut FirmLedger,
    line: &Line,
) -> Result<(), AllocError>
    requires { IsOwnBalance (balance_of own.old +ℤ line.now.amount) }
    ensures moved { OnOk result
        (movements.new.items ≡ movements.old.items ++ own_movement (as_firm_line line.now) ∷ []) }
    ensures booked { OnOk result (own.new ≡ own.old ++ as_firm_line line.now ∷ []) }
    ensures err { OnErr result ((movements.new.items ≡ movements.old.items) × (own.new ≡ own.old)) }
{
    let count = movements.len();
    let kept = FirmLine::of(line)?;
    movements.push(Movement {
        owner: Owner::Firm,
        day: line.date,
        amount: line.amount.get(),
    })?;
    match own.add(kept) {
        Ok(()) => Ok(()),
        Err(error) => {
            movements.truncate(count);
            Err(error)
        }
    }
}

// Removes a matter's movements, if the edit purges it.
fn drop_movements(movements: &mut Vec<Movement>, matter: MatterNo, edit: &Edit)
    ensures { movements.new.items ≡ kept_movements matter edit.now movements.old.items }
{
    match edit {
        Edit::Purge(_) => take_out(movements, matter),
        Edit::Nothing
        | Edit::Open(_)
        | Edit::Seat(_)
        | Edit::Unseat(_)
        | Edit::Close(_)
        | Edit::Append(_)
        | Edit::Exchange(_) => {}
    }
}

// Removes a matter's movements.
fn take_out(movements: &mut Vec<Movement>, matter: MatterNo)
    ensures { movements.new.items ≡ moved_without matter movements.old.items }
{
    movements.retain(|moved| !is_of_matter(&moved.owner, matter));
}

/// Whether it is a movement of this matter.
pub fn is_of_matter(owner: &Owner, number: MatterNo) -> bool
    ensures { result ≡ is_of_matter number owner.now }
{
    match owner {
        Owner::Matter { matter, entry: _ } => matter.get() == number.get(),
        Owner::Firm => false,
    }
}

// Appends what a change moves.
fn push_movement(
    movements: &mut Vec<Movement>,
    matter: MatterNo,
    change: &Change,
) -> Result<(), AllocError>
    ensures ok { OnOk result (movements.new.items ≡ movements.old.items ++ joined_movement matter change.now.movement) }
    ensures err { OnErr result (movements.new.items ≡ movements.old.items) }
{
    if let Some(moved) = change.movement() {
        movements.push(Movement {
            owner: Owner::Matter {
                matter,
                entry: moved.entry,
            },
            day: moved.day,
            amount: moved.amount,
        })?;
    }
    Ok(())
}

// Appends what a change is remembered by.
fn push_act(acts: &mut Vec<MatterAct>, matter: MatterNo, change: &Change) -> Result<(), AllocError>
    ensures ok { OnOk result (acts.new.items ≡ acts.old.items ++ joined_act matter change.now.act) }
    ensures err { OnErr result (acts.new.items ≡ acts.old.items) }
{
    if let Some(act) = change.act() {
        let act = act.copied()?;
        acts.push(MatterAct { matter, act })?;
    }
    Ok(())
}

// Removes a matter's acts, if the edit purges it.
fn drop_acts(acts: &mut Vec<MatterAct>, matter: MatterNo, edit: &Edit)
    ensures { acts.new.items ≡ acts_left matter edit.now acts.old.items }
{
    match edit {
        Edit::Purge(_) => take_out_acts(acts, matter),
        Edit::Nothing
        | Edit::Open(_)
        | Edit::Seat(_)
        | Edit::Unseat(_)
        | Edit::Close(_)
        | Edit::Append(_)
        | Edit::Exchange(_) => {}
    }
}

// Removes a matter's acts.
fn take_out_acts(acts: &mut Vec<MatterAct>, matter: MatterNo)
    ensures { acts.new.items ≡ acts_without matter acts.old.items }
{
    acts.retain(|act| act.matter.get() != matter.get());
}

// Changes the stored matter, or stores a new one.
fn change_kept(
    alloc: Global,
    kept: &mut Vec<KeptMatter>,
    matter: MatterNo,
    change: &Change,
) -> Result<(), AllocError>
    requires whole { AreKeptWhole kept.old.items }
    requires change { IsChange (rows_in matter kept.old.items) change.now }
    ensures ok { OnOk result
        (IsKeptAs matter (changed change.now (rows_in matter kept.old.items)) kept.old.items kept.new.items) }
    ensures err { OnErr result (kept.new.items ≡ kept.old.items) }
{
    match matter_place(kept, matter) {
        Ok(place) => {
            let found = &mut kept[place];
            found.matter.apply(change)
        }
        Err(place) => {
            let mut new = Matter::unopened(alloc);
            new.apply(change)?;
            kept.insert(
                place,
                KeptMatter {
                    number: matter,
                    matter: new,
                },
            )?;
            Ok(())
        }
    }
}

// Passes all rows to the sink. If there are 2^64 or more, passes none and reports out of memory.
fn hand_counted<S: MatterRowSink>(kept: &[KeptMatter], sink: &mut S) -> Result<(), AllocError>
    requires { AreKeptWhole kept.now }
    ensures { AreHanded S.taken IsRowInRange (joined kept.now) result sink.old sink.new }
{
    match row_count(kept) {
        Some(_) => hand_all(kept, sink),
        None => Err(AllocError),
    }
}

// How many rows there are. None if 2^64 or more.
fn row_count(kept: &[KeptMatter]) -> Option<u64>
    ensures value { IfSome result (λ n. n ≡ length (joined kept.now)) }
    ensures few { IfSome result (λ n. n ≤ MOST_ROWS) }
{
    let mut count: u64 = 0;
    for k in kept {
        let rows = rows_of(&k.matter)?;
        count = count.checked_add(rows)?;
    }
    Some(count)
}

// How many rows a matter has. None if 2^64 or more.
fn rows_of(matter: &Matter) -> Option<u64>
    ensures { IfSome result (λ n. (number : ℕ) → n ≡ length (pairs number (rows_kept matter.now))) }
{
    let seats = matter.seats().len() as u64;
    let entries = matter.kept().len() as u64;
    let others = seats.checked_add(entries)?;
    let all = others.checked_add(head_count(matter))?;
    Some(all)
}

fn head_count(matter: &Matter) -> u64
    ensures { (number : ℕ) → result ≡ length (head_pairs number matter.now.head) }
{
    match matter.head() {
        Some(_) => 1,
        None => 0,
    }
}

fn hand_all<S: MatterRowSink>(kept: &[KeptMatter], sink: &mut S) -> Result<(), AllocError>
    requires { AreKeptWhole kept.now }
    ensures all { OnOk result (sink.new ≡ fold S.taken sink.old (joined kept.now)) }
    ensures some { FoldsFront S.taken sink.old (joined kept.now) sink.new }
{
    for k in kept {
        hand_matter(k.number, &k.matter, sink)?;
    }
    Ok(())
}

fn hand_matter<S: MatterRowSink>(
    number: MatterNo,
    matter: &Matter,
    sink: &mut S,
) -> Result<(), AllocError>
    requires { AreNumbered 1 matter.now.kept }
    ensures all { OnOk result (sink.new ≡ fold S.taken sink.old (pairs number (rows_kept matter.now))) }
    ensures some { FoldsFront S.taken sink.old (pairs number (rows_kept matter.now)) sink.new }
{
    hand_head(number, matter, sink)?;
    hand_seats(number, matter.seats(), sink)?;
    hand_entries(number, matter.kept(), sink)
}

fn hand_head<S: MatterRowSink>(
    number: MatterNo,
    matter: &Matter,
    sink: &mut S,
) -> Result<(), AllocError>
    ensures ok { OnOk result (sink.new ≡ fold S.taken sink.old (head_pairs number matter.now.head)) }
    ensures err { OnErr result (sink.new ≡ sink.old) }
{
    match matter.head() {
        Some(head) => sink.matter_row(number, MatterRow::Head(head)),
        None => Ok(()),
    }
}

fn hand_seats<S: MatterRowSink>(
    number: MatterNo,
    seats: &[Seat],
    sink: &mut S,
) -> Result<(), AllocError>
    ensures all { OnOk result (sink.new ≡ fold S.taken sink.old (seat_pairs number seats.now)) }
    ensures some { FoldsFront S.taken sink.old (seat_pairs number seats.now) sink.new }
{
    for seat in seats {
        sink.matter_row(number, MatterRow::Seat(seat))?;
    }
    Ok(())
}

fn hand_entries<S: MatterRowSink>(
    number: MatterNo,
    kept: &[Kept],
    sink: &mut S,
) -> Result<(), AllocError>
    ensures all { OnOk result (sink.new ≡ fold S.taken sink.old (kept_pairs number kept.now)) }
    ensures some { FoldsFront S.taken sink.old (kept_pairs number kept.now) sink.new }
{
    for k in kept {
        sink.matter_row(number, MatterRow::Entry(k.number, &k.entry))?;
    }
    Ok(())
}

// Passes each act of a matter to the sink, in order.
fn hand_acts_of<S: RowSink<MatterAct>>(
    acts: &[MatterAct],
    matter: MatterNo,
    sink: &mut S,
) -> Result<(), AllocError>
    ensures { AreHanded S.taken IsActInRange (acts_in matter acts.now) result sink.old sink.new }
{
    for act in acts {
        if act.matter.get() == matter.get() {
            sink.take(act)?;
        }
    }
    Ok(())
}
