// The reason of one exception, as an object with a name and at most one more key.

ghost use Rattle.std.specs.Prelude.{◌≡◌, ◌++◌, ◌∷◌, [], true, OnOk};
ghost use Rattle.std.specs.Option.{option_copied};
ghost use Rattle.serde_json.specs.Data.{string as text_data};
ghost use Rattle.matter_rows.specs.Rows.{Rows};
ghost use Rattle.matter_rows.specs.Sound.{Sound};
ghost use Rattle.matter_parts.specs.Parts.{IsPart, entry_in};
ghost use Rattle.json_bodies.specs.Json.{amount_value, object_of, sum_value, value_tokens};
ghost use Rattle.trust_matter.specs.KeptFacts.{holds_for_line};
ghost use Rattle.trust_matter.specs.LineStep.{amount_in};
ghost use Rattle.json_bodies.specs.Reasons.{balance_reason, kind_word, matter_reason, named, named_sum, own_reason, reason_value, state_word};

use firm_rows::{FirmLedger, Verdict, decide_balance, decide_firm_line};
use json::Writer;
use matter_parts::{Kept, Matter};
use matter_rows::{DepositState, Entry, PaymentState};
use std::alloc::{AllocError, Global};
use trust_base::{Day, Dollars, Line};
use trust_matter::{BankLine, LineVerdict, Reason, decide_line};

/// Writes a sum in cents as a text.
pub(crate) fn write_sum(alloc: Global, out: &mut Writer, cents: i128) -> Result<(), AllocError>
    ensures before { out.new.before ≡ out.old.before }
    ensures tokens { OnOk result (out.new.tokens ≡ out.old.tokens ++ value_tokens (sum_value cents)) }
{
    let sum = Dollars(cents);
    out.string(format!(in alloc; "{sum}")?.as_str())
}

/// Writes a reason that is a name alone.
pub(crate) fn write_named(out: &mut Writer, name: &str) -> Result<(), AllocError>
    ensures before { out.new.before ≡ out.old.before }
    ensures tokens { OnOk result (out.new.tokens ≡ out.old.tokens ++ value_tokens (named name.now)) }
{
    out.begin_object()?;
    out.key("name")?;
    out.string(name)?;
    out.end_object()
}

// Writes a reason with a sum in cents, under a key that stands before `name`.
fn write_named_sum(
    alloc: Global,
    out: &mut Writer,
    key: &str,
    cents: i128,
    name: &str,
) -> Result<(), AllocError>
    ensures before { out.new.before ≡ out.old.before }
    ensures tokens { OnOk result
        (out.new.tokens ≡ out.old.tokens ++ value_tokens (named_sum key.now (sum_value cents) name.now)) }
{
    out.begin_object()?;
    out.key(key)?;
    write_sum(alloc, out, cents)?;
    out.key("name")?;
    out.string(name)?;
    out.end_object()
}

// The same with an amount in cents.
fn write_named_amount(
    alloc: Global,
    out: &mut Writer,
    key: &str,
    cents: u64,
    name: &str,
) -> Result<(), AllocError>
    ensures before { out.new.before ≡ out.old.before }
    ensures tokens { OnOk result
        (out.new.tokens ≡ out.old.tokens ++ value_tokens (named_sum key.now (amount_value cents) name.now)) }
{
    write_named_sum(alloc, out, key, cents as i128, name)
}

// Writes a reason as two texts.
fn write_pair(
    out: &mut Writer,
    key: &str,
    text: &str,
    other_key: &str,
    other: &str,
) -> Result<(), AllocError>
    ensures before { out.new.before ≡ out.old.before }
    ensures tokens { OnOk result (out.new.tokens ≡ out.old.tokens
        ++ value_tokens (object_of ((key.now, text_data text.now) ∷ (other_key.now, text_data other.now) ∷ []))) }
{
    out.begin_object()?;
    out.key(key)?;
    out.string(text)?;
    out.key(other_key)?;
    out.string(other)?;
    out.end_object()
}

// The word for the kind of an entry; empty if there is none.
fn kind_word(found: Option<&Kept>) -> &'static str
    ensures { result.now ≡ kind_word (entry_in (option_copied found.entry)) }
{
    match found {
        None => "",
        Some(kept) => match &kept.entry {
            Entry::Deposit(_) => "deposit",
            Entry::Payment(_) => "payment",
            Entry::Fee(_) => "fee",
            Entry::Claim(_) => "claim",
        },
    }
}

// The word for the state of a deposit or a payment; empty for any other entry and for none.
fn state_word(found: Option<&Kept>) -> &'static str
    ensures { result.now ≡ state_word (entry_in (option_copied found.entry)) }
{
    match found {
        None => "",
        Some(kept) => match &kept.entry {
            Entry::Deposit(deposit) => match &deposit.state {
                DepositState::Held => "held",
                DepositState::Cleared(_) => "cleared",
                DepositState::Cancelled(_) => "cancelled",
                DepositState::Returned(_) => "returned",
            },
            Entry::Payment(payment) => match &payment.state {
                PaymentState::Proposed => "proposed",
                PaymentState::Declined => "declined",
                PaymentState::Issued(_) => "issued",
                PaymentState::Cleared(_) => "cleared",
                PaymentState::Voided(_) => "voided",
            },
            Entry::Fee(_) | Entry::Claim(_) => "",
        },
    }
}

// The amount of an entry in cents; 0 if there is none.
fn amount_of(found: Option<&Kept>) -> u64
    ensures { result ≡ amount_in (entry_in (option_copied found.entry)) }
{
    match found {
        None => 0,
        Some(kept) => match &kept.entry {
            Entry::Deposit(deposit) => deposit.amount.get(),
            Entry::Payment(payment) => payment.amount.get(),
            Entry::Fee(fee) => fee.amount.get(),
            Entry::Claim(claim) => claim.amount.get(),
        },
    }
}

/// Writes the reason of a line that names an entry. The entry is loaded or does not exist, so the only error is out of
/// memory.
pub(crate) fn write_matter_reason(
    alloc: Global,
    out: &mut Writer,
    matter: &Matter,
    line: &BankLine,
    today: Day,
) -> Result<(), AllocError>
    ensures before { out.new.before ≡ out.old.before }
    ensures tokens { holds_for_line matter.now line.now.entry ≡ true → (rows : Rows) → Sound rows
        → IsPart matter.now rows → OnOk result
        (out.new.tokens ≡ out.old.tokens ++ value_tokens (reason_value (matter_reason rows line.now today))) }
{
    let Ok(verdict) = decide_line(matter, line, today) else {
        return Err(AllocError);
    };
    let found = matter.find(line.entry);
    match &verdict {
        LineVerdict::Applied(_) => write_named(out, "Applies"),
        LineVerdict::Repeat => write_named(out, "Repeat"),
        LineVerdict::Unmatched(reason) => match reason {
            Reason::Future => write_named(out, "Future"),
            Reason::NoMatter => write_named(out, "NoMatter"),
            Reason::NoEntry => write_named(out, "NoEntry"),
            Reason::WrongKind => { write_pair(out, "kind", kind_word(found), "name", "WrongKind") }
            Reason::WrongState => {
                write_pair(out, "name", "WrongState", "state", state_word(found))
            }
            Reason::WrongAmount => {
                write_named_amount(alloc, out, "amount", amount_of(found), "WrongAmount")
            }
            Reason::Uncovered => {
                let free = matter.figures().available;
                write_named_amount(alloc, out, "available", free, "Uncovered")
            }
        },
    }
}

/// Writes the reason of a line of the firm's own.
pub(crate) fn write_own_reason(
    alloc: Global,
    out: &mut Writer,
    ledger: &FirmLedger,
    line: &Line,
    today: Day,
) -> Result<(), AllocError>
    ensures before { out.new.before ≡ out.old.before }
    ensures tokens { OnOk result
        (out.new.tokens ≡ out.old.tokens ++ value_tokens (reason_value (own_reason ledger.now line.now today))) }
{
    match decide_firm_line(ledger, line, today) {
        Verdict::Applied => write_named(out, "Applies"),
        Verdict::Repeat => write_named(out, "Repeat"),
        Verdict::Unmatched => {
            if today.get() < line.date.get() {
                return write_named(out, "Future");
            }
            if line.amount.get() == 0 {
                return write_named(out, "Zero");
            }
            write_named_sum(alloc, out, "balance", ledger.balance() as i128, "Beyond")
        }
    }
}

/// Writes the reason of a balance, given the one that is kept of its kind and day, if any.
pub(crate) fn write_balance_reason(
    alloc: Global,
    out: &mut Writer,
    kept: Option<i64>,
    line: &Line,
    today: Day,
) -> Result<(), AllocError>
    ensures before { out.new.before ≡ out.old.before }
    ensures tokens { OnOk result
        (out.new.tokens ≡ out.old.tokens ++ value_tokens (reason_value (balance_reason kept line.now today))) }
{
    match decide_balance(kept, line, today) {
        Verdict::Applied => write_named(out, "Applies"),
        Verdict::Repeat => write_named(out, "Repeat"),
        Verdict::Unmatched => match kept {
            Some(kept) if line.date.get() <= today.get() => {
                write_named_sum(alloc, out, "kept", kept as i128, "OtherBalance")
            }
            _ => write_named(out, "Future"),
        },
    }
}
