// The columns of an entry: written, and read back.

ghost use Rattle.std.specs.Prelude.{◌≡◌, ◌≤◌, ◌↔◌, pos, [], IsTrue, Ok, IfOk, IfErr};
ghost use Rattle.matter_rows.specs.declared.limits.TheConstants.{MAX_TOTAL};
ghost use Rattle.sql_tables.specs.Given.{entry_given};
ghost use Rattle.matter_rows.specs.declared.clearing.Clearing.{Clearing as Told};
ghost use Rattle.matter_rows.specs.declared.deposit.Deposit.{Deposit as Received};
ghost use Rattle.matter_rows.specs.declared.deposit.DepositState.{DepositState as ReceivedState};
ghost use Rattle.matter_rows.specs.declared.deposit.ReturnedDeposit.{ReturnedDeposit as Returned};
ghost use Rattle.matter_rows.specs.declared.payment.ClearedPayment.{ClearedPayment as Cleared};
ghost use Rattle.matter_rows.specs.declared.payment.VoidedPayment.{VoidedPayment as Voided};
ghost use Rattle.matter_rows.specs.declared.payment.Fund.{Fund as Source};
ghost use Rattle.matter_rows.specs.declared.payment.Payment.{Payment as Paid};
ghost use Rattle.matter_rows.specs.declared.payment.PaymentState.{PaymentState as PaidState};
ghost use Rattle.matter_rows.specs.declared.fee.Fee.{Fee as Earned};
ghost use Rattle.matter_rows.specs.declared.claim.Against.{Against as On};
ghost use Rattle.matter_rows.specs.declared.claim.Claim.{Claim as Claimed};
ghost use Rattle.matter_rows.specs.declared.claim.ClaimState.{ClaimState as ClaimedState};
ghost use Rattle.matter_rows.specs.declared.entry.Entry.{Entry as Written};
ghost use Rattle.matter_parts.specs.declared.kept.Kept.{Kept as KeptEntry};
ghost use Rattle.sql_rows.specs.Columns.{GivesBack};
ghost use Rattle.sql_rows.specs.Entries.{IsClearing, IsReturn, IsDepositState, IsDeposit};
ghost use Rattle.sql_rows.specs.Entries.{IsFund, IsPaymentState, IsPayment, IsFee};
ghost use Rattle.sql_rows.specs.Entries.{IsAgainst, IsClaimState, IsClaim, IsKept};
ghost use Rattle.sql_rows.specs.Entries.{HasClearing, HasReturn, HasDepositState, HasDeposit};
ghost use Rattle.sql_rows.specs.Entries.{HasFund, HasPaymentState, HasPayment, HasFee};
ghost use Rattle.sql_rows.specs.Entries.{HasAgainst, HasClaimState, HasClaim, HasForm, HasEntry};
ghost use Rattle.sql_rows.specs.Entries.{entry_columns, BeginsEntry};
ghost use Rattle.sql_rows.specs.Entries.{HasSamePlace, HasSameMoney, HasSameDays, HasSameTexts};
ghost use Rattle.sql_rows.specs.Entries.{plain_parts, fund_kind, fund_of, as_columns};

use crate::codes::{
    CLAIM_FUND, CLAIM_KIND, CLAIM_OFFERED, CLAIM_OPEN, CLAIM_SETTLED, DEPOSIT_CANCELLED,
    DEPOSIT_CLEARED, DEPOSIT_HELD, DEPOSIT_KIND, DEPOSIT_RETURNED, FEE_FUND, FEE_KIND,
    GENERAL_FUND, PAYMENT_CLEARED, PAYMENT_DECLINED, PAYMENT_ISSUED, PAYMENT_KIND,
    PAYMENT_PROPOSED, PAYMENT_VOIDED,
};
use crate::column::{amount_in, bank_text_in, day_in, entry_no_in, label_in, number_in, part_in};
use matter_parts::Kept;
use matter_rows::{
    Against, Claim, ClaimState, ClearedPayment, Clearing, Deposit, DepositState, Entry, Fee, Fund,
    MAX_TOTAL, Payment, PaymentState, ReturnedDeposit, Settlement, VoidedPayment,
};
use sql_tables::EntryColumns;
use std::alloc::Global;
use trust_base::{Cents, Day, EntryNo, MatterNo, StoreFault};

// The columns of an entry of this kind, day and amount. Those of its texts and its state are empty.
fn blank_columns<'a>(
    matter: MatterNo,
    no: EntryNo,
    left: u64,
    kind: i64,
    book: Day,
    amount: Cents,
) -> EntryColumns<'a>
    requires { left ≤ MAX_TOTAL }
    ensures { entry_given result
        ≡ record (as_columns matter no left (plain_parts 0 book amount 0 0 0 [] [] [])) { kind = kind } }
{
    EntryColumns {
        matter: matter.get() as i64,
        no: no.get() as i64,
        kind,
        day: book.get() as i64,
        amount: amount.get() as i64,
        state: 0,
        fund: 0,
        of_no: 0,
        text_a: b"",
        text_b: b"",
        text_c: b"",
        day_done: 0,
        day_undone: 0,
        day_bank: 0,
        bank_ref: b"",
        part: 0,
        left_now: left as i64,
    }
}

// The day and the reference of what the bank reported.
fn clearing_columns(c: &Clearing) -> (i64, &[u8])
    ensures day { result.0 ≡ pos c.now.bank_day }
    ensures reference { result.1.now ≡ c.now.bank_ref }
{
    (c.bank_day.get() as i64, c.bank_ref.as_slice())
}

// The columns of a deposit, given what is left of it in cents.
fn deposit_columns<'a>(matter: MatterNo, no: EntryNo, d: &'a Deposit, left: u64) -> EntryColumns<'a>
    requires { left ≤ MAX_TOTAL }
    ensures { entry_given result ≡ entry_columns matter no left (Entry.Deposit d.now) }
{
    let mut columns = blank_columns(matter, no, left, DEPOSIT_KIND, d.book, d.amount);
    (columns.text_a, columns.text_b) = (d.source.as_slice(), d.description.as_slice());
    match &d.state {
        DepositState::Held => columns.state = DEPOSIT_HELD,
        DepositState::Cleared(c) => {
            columns.state = DEPOSIT_CLEARED;
            (columns.day_bank, columns.bank_ref) = clearing_columns(c);
        }
        DepositState::Cancelled(day) => {
            columns.state = DEPOSIT_CANCELLED;
            columns.day_undone = day.get() as i64;
        }
        DepositState::Returned(back) => {
            columns.state = DEPOSIT_RETURNED;
            (columns.day_bank, columns.bank_ref) = clearing_columns(&back.clearing);
            (columns.day_done, columns.text_c) = clearing_columns(&back.returning);
            columns.day_undone = back.undone.get() as i64;
        }
    }
    columns
}

// The code of a fund, and the number of its fee or claim, or 0.
fn fund_columns(fund: &Fund) -> (i64, i64)
    ensures { result ≡ (pos (fund_kind fund.now), pos (fund_of fund.now)) }
{
    match fund {
        Fund::General => (GENERAL_FUND, 0),
        Fund::Fee(k) => (FEE_FUND, k.get() as i64),
        Fund::Claim(k) => (CLAIM_FUND, k.get() as i64),
    }
}

// The columns of a payment, given what is left of it in cents.
fn payment_columns<'a>(matter: MatterNo, no: EntryNo, p: &'a Payment, left: u64) -> EntryColumns<'a>
    requires { left ≤ MAX_TOTAL }
    ensures { entry_given result ≡ entry_columns matter no left (Entry.Payment p.now) }
{
    let mut columns = blank_columns(matter, no, left, PAYMENT_KIND, p.book, p.amount);
    (columns.fund, columns.of_no) = fund_columns(&p.fund);
    (columns.text_a, columns.text_b) = (p.payee.as_slice(), p.purpose.as_slice());
    columns.text_c = p.instrument.as_slice();
    match &p.state {
        PaymentState::Proposed => columns.state = PAYMENT_PROPOSED,
        PaymentState::Declined => columns.state = PAYMENT_DECLINED,
        PaymentState::Issued(day) => {
            columns.state = PAYMENT_ISSUED;
            columns.day_done = day.get() as i64;
        }
        PaymentState::Cleared(c) => {
            columns.state = PAYMENT_CLEARED;
            columns.day_done = c.issued.get() as i64;
            (columns.day_bank, columns.bank_ref) = clearing_columns(&c.clearing);
        }
        PaymentState::Voided(v) => {
            columns.state = PAYMENT_VOIDED;
            columns.day_done = v.issued.get() as i64;
            columns.day_undone = v.undone.get() as i64;
        }
    }
    columns
}

// The columns of a claim, given what is left of it in cents.
fn claim_columns<'a>(matter: MatterNo, no: EntryNo, c: &'a Claim, left: u64) -> EntryColumns<'a>
    requires { left ≤ MAX_TOTAL }
    ensures { entry_given result ≡ entry_columns matter no left (Entry.Claim c.now) }
{
    let mut columns = blank_columns(matter, no, left, CLAIM_KIND, c.book, c.amount);
    columns.text_b = c.reason.as_slice();
    match &c.against {
        Against::General(claimant) => {
            columns.fund = GENERAL_FUND;
            columns.text_a = claimant.as_slice();
        }
        Against::Fee(k) => {
            columns.fund = FEE_FUND;
            columns.of_no = k.get() as i64;
        }
    }
    match &c.state {
        ClaimState::Open => columns.state = CLAIM_OPEN,
        ClaimState::Offered(part) => {
            columns.state = CLAIM_OFFERED;
            columns.part = part.get() as i64;
        }
        ClaimState::Settled(s) => {
            columns.state = CLAIM_SETTLED;
            columns.day_done = s.day.get() as i64;
            columns.part = s.part.get() as i64;
        }
    }
    columns
}

/// Returns the columns of an entry of a matter, with its number and the cents left of it. A missing day or number is
/// 0, a missing text is empty.
pub fn entry_columns<'a>(
    matter: MatterNo,
    no: EntryNo,
    left: u64,
    entry: &'a Entry,
) -> EntryColumns<'a>
    requires { left ≤ MAX_TOTAL }
    ensures { entry_given result ≡ entry_columns matter no left entry.now }
{
    match entry {
        Entry::Deposit(d) => deposit_columns(matter, no, d, left),
        Entry::Payment(p) => payment_columns(matter, no, p, left),
        Entry::Fee(f) => EntryColumns {
            text_a: f.description.as_slice(),
            ..blank_columns(matter, no, left, FEE_KIND, f.book, f.amount)
        },
        Entry::Claim(c) => claim_columns(matter, no, c, left),
    }
}

// Reads what the bank reported of an entry, from the columns of its day and its reference.
fn clearing_in(alloc: Global, day: i64, reference: &[u8]) -> Result<Clearing, StoreFault>
    ensures { (c : Told) → IsClearing c → HasClearing c day reference.now → GivesBack c result }
{
    Ok(Clearing {
        bank_day: day_in(day)?,
        bank_ref: bank_text_in(alloc, reference)?,
    })
}

// Reads both bank lines of a returned deposit, and the day of its return.
fn returned_in(alloc: Global, columns: EntryColumns<'_>) -> Result<ReturnedDeposit, StoreFault>
    ensures { (r : Returned) → IsReturn r → HasReturn r (entry_given columns.entry) → GivesBack r result }
{
    Ok(ReturnedDeposit {
        clearing: clearing_in(alloc, columns.day_bank, columns.bank_ref)?,
        returning: clearing_in(alloc, columns.day_done, columns.text_c)?,
        undone: day_in(columns.day_undone)?,
    })
}

// Reads what became of a deposit.
fn deposit_state_in(alloc: Global, columns: EntryColumns<'_>) -> Result<DepositState, StoreFault>
    ensures { (s : ReceivedState) → IsDepositState s → HasDepositState s (entry_given columns.entry)
        → GivesBack s result }
{
    match columns.state {
        DEPOSIT_HELD => Ok(DepositState::Held),
        DEPOSIT_CLEARED => {
            let clearing = clearing_in(alloc, columns.day_bank, columns.bank_ref)?;
            Ok(DepositState::Cleared(clearing))
        }
        DEPOSIT_CANCELLED => Ok(DepositState::Cancelled(day_in(columns.day_undone)?)),
        DEPOSIT_RETURNED => Ok(DepositState::Returned(returned_in(alloc, columns)?)),
        _ => Err(StoreFault::Store),
    }
}

// Reads a deposit of a day and an amount from the other columns, copying its texts.
fn deposit_in(
    alloc: Global,
    book: Day,
    amount: Cents,
    columns: EntryColumns<'_>,
) -> Result<Entry, StoreFault>
    ensures { (d : Received) → IsDeposit d → HasDeposit d book amount (entry_given columns.entry)
        → GivesBack (Entry.Deposit d) result }
{
    Ok(Entry::Deposit(Deposit {
        source: label_in(alloc, columns.text_a)?,
        description: label_in(alloc, columns.text_b)?,
        state: deposit_state_in(alloc, columns)?,
        book,
        amount,
    }))
}

// Reads where a payment takes its money from.
fn fund_in(fund: i64, of_no: i64) -> Result<Fund, StoreFault>
    ensures back { (f : Source) → IsFund f → HasFund f fund of_no → result ≡ Ok f }
    ensures store { IfErr result (λ e. e ≡ StoreFault.Store) }
{
    match fund {
        GENERAL_FUND => Ok(Fund::General),
        FEE_FUND => Ok(Fund::Fee(entry_no_in(of_no)?)),
        CLAIM_FUND => Ok(Fund::Claim(entry_no_in(of_no)?)),
        _ => Err(StoreFault::Store),
    }
}

// Reads the day on which a payment was issued, and its bank line.
fn cleared_in(alloc: Global, columns: EntryColumns<'_>) -> Result<ClearedPayment, StoreFault>
    ensures { (s : Cleared) → IsPaymentState (PaymentState.Cleared s) → pos s.issued ≡ columns.entry.day_done
        → HasClearing s.clearing columns.entry.day_bank columns.entry.bank_ref.now → GivesBack s result }
{
    Ok(ClearedPayment {
        issued: day_in(columns.day_done)?,
        clearing: clearing_in(alloc, columns.day_bank, columns.bank_ref)?,
    })
}

// Reads the days on which a payment was issued and voided.
fn voided_in(columns: EntryColumns<'_>) -> Result<VoidedPayment, StoreFault>
    ensures back { (s : Voided) → IsPaymentState (PaymentState.Voided s) → pos s.issued ≡ columns.entry.day_done
        → pos s.undone ≡ columns.entry.day_undone → result ≡ Ok s }
    ensures store { IfErr result (λ e. e ≡ StoreFault.Store) }
{
    Ok(VoidedPayment {
        issued: day_in(columns.day_done)?,
        undone: day_in(columns.day_undone)?,
    })
}

// Reads what became of a payment.
fn payment_state_in(alloc: Global, columns: EntryColumns<'_>) -> Result<PaymentState, StoreFault>
    ensures { (s : PaidState) → IsPaymentState s → HasPaymentState s (entry_given columns.entry)
        → GivesBack s result }
{
    match columns.state {
        PAYMENT_PROPOSED => Ok(PaymentState::Proposed),
        PAYMENT_DECLINED => Ok(PaymentState::Declined),
        PAYMENT_ISSUED => Ok(PaymentState::Issued(day_in(columns.day_done)?)),
        PAYMENT_CLEARED => Ok(PaymentState::Cleared(cleared_in(alloc, columns)?)),
        PAYMENT_VOIDED => Ok(PaymentState::Voided(voided_in(columns)?)),
        _ => Err(StoreFault::Store),
    }
}

// Reads a payment of a day and an amount from the other columns, copying its texts.
fn payment_in(
    alloc: Global,
    book: Day,
    amount: Cents,
    columns: EntryColumns<'_>,
) -> Result<Entry, StoreFault>
    ensures { (p : Paid) → IsPayment p → HasPayment p book amount (entry_given columns.entry)
        → GivesBack (Entry.Payment p) result }
{
    Ok(Entry::Payment(Payment {
        fund: fund_in(columns.fund, columns.of_no)?,
        payee: label_in(alloc, columns.text_a)?,
        purpose: label_in(alloc, columns.text_b)?,
        instrument: label_in(alloc, columns.text_c)?,
        state: payment_state_in(alloc, columns)?,
        book,
        amount,
    }))
}

// Reads what a claim is made on: available money, by the named claimant, or a fee.
fn against_in(alloc: Global, columns: EntryColumns<'_>) -> Result<Against, StoreFault>
    ensures { (a : On) → IsAgainst a → HasAgainst a (entry_given columns.entry) → GivesBack a result }
{
    match columns.fund {
        GENERAL_FUND => Ok(Against::General(label_in(alloc, columns.text_a)?)),
        FEE_FUND => Ok(Against::Fee(entry_no_in(columns.of_no)?)),
        _ => Err(StoreFault::Store),
    }
}

// Reads the state of a claim. Returns `Store` for columns of none.
fn claim_state_in(columns: EntryColumns<'_>) -> Result<ClaimState, StoreFault>
    ensures back { (s : ClaimedState) → IsClaimState s → HasClaimState s (entry_given columns.entry)
        → result ≡ Ok s }
    ensures store { IfErr result (λ e. e ≡ StoreFault.Store) }
{
    match columns.state {
        CLAIM_OPEN => Ok(ClaimState::Open),
        CLAIM_OFFERED => Ok(ClaimState::Offered(part_in(columns.part)?)),
        CLAIM_SETTLED => {
            let day = day_in(columns.day_done)?;
            let part = part_in(columns.part)?;
            Ok(ClaimState::Settled(Settlement { day, part }))
        }
        _ => Err(StoreFault::Store),
    }
}

// Reads a claim of a day and an amount from the other columns, copying its texts.
fn claim_in(
    alloc: Global,
    book: Day,
    amount: Cents,
    columns: EntryColumns<'_>,
) -> Result<Entry, StoreFault>
    ensures { (c : Claimed) → IsClaim c → HasClaim c book amount (entry_given columns.entry)
        → GivesBack (Entry.Claim c) result }
{
    Ok(Entry::Claim(Claim {
        state: claim_state_in(columns)?,
        against: against_in(alloc, columns)?,
        reason: label_in(alloc, columns.text_b)?,
        book,
        amount,
    }))
}

// Reads a fee of a day and an amount from the other columns, copying its texts.
fn fee_in(
    alloc: Global,
    book: Day,
    amount: Cents,
    columns: EntryColumns<'_>,
) -> Result<Entry, StoreFault>
    ensures { (f : Earned) → IsFee f → HasFee f book amount (entry_given columns.entry)
        → GivesBack (Entry.Fee f) result }
{
    let description = label_in(alloc, columns.text_a)?;
    Ok(Entry::Fee(Fee {
        book,
        amount,
        description,
    }))
}

// Reads the columns that the kind and the state of an entry use; the others are not looked at.
fn entry_of_kind(
    alloc: Global,
    book: Day,
    amount: Cents,
    columns: EntryColumns<'_>,
) -> Result<Entry, StoreFault>
    ensures { (e : Written) → HasForm e → HasEntry e book amount (entry_given columns.entry) → GivesBack e result }
{
    match columns.kind {
        DEPOSIT_KIND => deposit_in(alloc, book, amount, columns),
        PAYMENT_KIND => payment_in(alloc, book, amount, columns),
        FEE_KIND => fee_in(alloc, book, amount, columns),
        CLAIM_KIND => claim_in(alloc, book, amount, columns),
        _ => Err(StoreFault::Store),
    }
}

// Whether both have the same matter, number, kind, state and amount left.
fn have_same_place(a: EntryColumns<'_>, b: EntryColumns<'_>) -> bool
    ensures { IsTrue result ↔ HasSamePlace (entry_given a.entry) (entry_given b.entry) }
{
    a.matter == b.matter
        && a.no == b.no
        && a.kind == b.kind
        && a.state == b.state
        && a.left_now == b.left_now
}

// Whether both have the same amount, part, fund and fund number.
fn have_same_money(a: EntryColumns<'_>, b: EntryColumns<'_>) -> bool
    ensures { IsTrue result ↔ HasSameMoney (entry_given a.entry) (entry_given b.entry) }
{
    a.amount == b.amount && a.part == b.part && a.fund == b.fund && a.of_no == b.of_no
}

// Whether both have the same days.
fn have_same_days(a: EntryColumns<'_>, b: EntryColumns<'_>) -> bool
    ensures { IsTrue result ↔ HasSameDays (entry_given a.entry) (entry_given b.entry) }
{
    a.day == b.day
        && a.day_done == b.day_done
        && a.day_undone == b.day_undone
        && a.day_bank == b.day_bank
}

// Whether both have the same texts.
fn have_same_texts(a: EntryColumns<'_>, b: EntryColumns<'_>) -> bool
    ensures { IsTrue result ↔ HasSameTexts (entry_given a.entry) (entry_given b.entry) }
{
    a.text_a == b.text_a && a.text_b == b.text_b && a.text_c == b.text_c && a.bank_ref == b.bank_ref
}

// Whether all columns are the same.
fn are_same(a: EntryColumns<'_>, b: EntryColumns<'_>) -> bool
    ensures { IsTrue result ↔ (entry_given a.entry ≡ entry_given b.entry) }
{
    have_same_place(a, b) && have_same_money(a, b) && have_same_days(a, b) && have_same_texts(a, b)
}

/// Reads an entry of a matter from its columns, copying its texts, with its number and the cents left of it. Returns
/// `Store` for columns of no entry, including a value in a column that the entry's kind and state leave empty.
/// `Memory`, if memory runs out, is possible only if matter, number, day, amount and what is left are in range.
pub fn entry_of(
    alloc: Global,
    matter: MatterNo,
    columns: EntryColumns<'_>,
) -> Result<Kept, StoreFault>
    ensures ok { IfOk result (λ k. entry_columns matter k.number k.left k.entry ≡ entry_given columns.entry) }
    ensures small { IfOk result (λ k. k.left ≤ MAX_TOTAL) }
    ensures back { (k : KeptEntry) → IsKept k → entry_columns matter k.number k.left k.entry ≡ entry_given columns.entry
        → GivesBack k result }
    ensures memory { IfErr result (λ e. e ≡ StoreFault.Memory → BeginsEntry matter (entry_given columns.entry)) }
{
    if columns.matter != matter.get() as i64 {
        return Err(StoreFault::Store);
    }
    let number = entry_no_in(columns.no)?;
    let left = number_in(columns.left_now, MAX_TOTAL)?;
    let book = day_in(columns.day)?;
    let amount = amount_in(columns.amount)?;
    let entry = entry_of_kind(alloc, book, amount, columns)?;
    // The columns that its kind and state leave empty are compared too.
    let written = entry_columns(matter, number, left, &entry);
    if !are_same(written, columns) {
        return Err(StoreFault::Store);
    }
    Ok(Kept {
        number,
        left,
        entry,
    })
}
