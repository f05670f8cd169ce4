//! The laws of a matter's own texts, each the contract of a function that does nothing.

ghost use Rattle.trust_reports.specs.TextsOfAccounts.{WholeAccountTextIsOfRows};
ghost use Rattle.trust_reports.specs.TextsOfLedgers.{WholeCardIsOfRows};

use firm_periods::laws::accounts_agree;

/// The ledger card of a matter with all entries of sound rows loaded is that of the rows: each entry under its number
/// with what is left of it, and the balances, all added up from the entries.
pub fn whole_card_is_of_rows()
    ensures { WholeCardIsOfRows }
{}

/// The statement of account of a matter with all entries of its rows loaded is that of the rows.
pub fn whole_account_is_of_rows()
    ensures { WholeAccountTextIsOfRows }
{
    accounts_agree();
}
