// Why the exceptions that are one line with some reference match nothing, as the book is now.

ghost use Rattle.std.specs.Prelude.{◌≡◌, option_copied};
ghost use Rattle.statement_match.specs.Misfits.{misfit_of as misfit_told, misfit_with as misfit_told_with};

use crate::reason::names_entry;
use statement_lines::BookEntry;
use trust_base::{Day, Line};

/// Why an exception matches nothing, as an import would find now. Reasons are tried in the order of `misfit_with`.
#[derive(Clone, Copy)]
pub enum Misfit {
    /// No deposit or payment has its reference.
    NoEntry,
    /// Its reference is not of an entry's form.
    OfNoEntry,
    /// The book has it for the entry of its reference already.
    Again,
    /// It is dated after the business day, which is this.
    DatedAfter(Day),
    /// It would take back a cleared deposit, for which the matter may have too little.
    TakesBack,
    /// The entry of its reference does not wait for the bank.
    NotWaiting,
    /// The entry of its reference has another amount.
    OfAnotherAmount,
    /// Nothing is left of what it was an exception for: an import would apply it.
    Fits,
}

// Why an exception does not fit the entry of its reference.
#[tactic(auto, unfolding(crate::specs::Misfits::misfit_with))]
fn misfit_with(today: Day, exception: &Line, entry: &BookEntry) -> Misfit
    ensures { result ≡ misfit_told_with today exception.now entry.now }
{
    if entry.bookings.has(exception) {
        return Misfit::Again;
    }
    if today.get() < exception.date.get() {
        return Misfit::DatedAfter(today);
    }
    if entry.may_be_returned_by(exception) {
        return Misfit::TakesBack;
    }
    if !entry.state.is_waiting() {
        return Misfit::NotWaiting;
    }
    if !entry.has_amount_of(exception) {
        return Misfit::OfAnotherAmount;
    }
    Misfit::Fits
}

/// Why an exception matches nothing on a business day. The entry is that of its reference, if the book has one.
pub(crate) fn misfit_of(today: Day, exception: &Line, entry: Option<&BookEntry>) -> Misfit
    ensures { result ≡ misfit_told today exception.now (option_copied entry.entry) }
{
    match entry {
        Some(entry) => misfit_with(today, exception, entry),
        None if today.get() < exception.date.get() => Misfit::DatedAfter(today),
        None if names_entry(exception.reference.as_slice()) => Misfit::NoEntry,
        None => Misfit::OfNoEntry,
    }
}
