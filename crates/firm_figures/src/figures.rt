// The firm's figures as of a day, the sums that they are made of, and how these are added up.

ghost use Rattle.std.specs.Prelude.{◌≡◌};
ghost use Rattle.firm_figures.specs.Reconciling.{added, less};

/// The firm's ten figures as of a day, in cents.
#[derive(Clone, Copy)]
pub struct ReconciliationFigures {
    /// The bank's closing balance of the day.
    pub closing: i64,
    /// The deposits in transit: booked by the day, and not at the bank by then.
    pub transit: i128,
    /// The outstanding payments: issued by the day, and not at the bank by then.
    pub outstanding: i128,
    /// The adjusted bank balance: closing, plus transit, less outstanding.
    pub adjusted: i128,
    /// The journal's balance: the sum of all movements by the day.
    pub journal: i128,
    /// The ledgers of all matters and the firm's own, as of the day.
    pub ledgers: i128,
    /// Adjusted less journal.
    pub difference: i128,
    /// The sum of the exceptions dated by the day.
    pub exceptions: i128,
    /// The sum of the lines by the day that matched what was booked only later.
    pub early: i128,
    /// What no line explains: closing, less the matched lines, the firm's own and the exceptions by the day.
    pub gap: i128,
}

/// What the figures are made of: the day's closing balance, if it was reported, and sums in cents.
#[derive(Clone, Copy)]
pub(crate) struct Sums {
    pub(crate) closing: Option<i64>,
    pub(crate) transit: i128,
    pub(crate) outstanding: i128,
    pub(crate) journal: i128,
    pub(crate) entries: i128,
    pub(crate) own: i128,
    pub(crate) exceptions: i128,
    pub(crate) matched: i128,
    pub(crate) early: i128,
}

/// A sum in cents plus an amount, in 128 bits.
#[tactic(auto, unfolding(crate::specs::Reconciling::added))]
pub fn added(sum: i128, amount: i64) -> i128
    ensures { result ≡ added sum amount }
{
    sum.wrapping_add(amount as i128)
}

/// Two sums in cents added, in 128 bits.
#[tactic(auto, unfolding(crate::specs::Reconciling::added))]
pub(crate) fn together(a: i128, b: i128) -> i128
    ensures { result ≡ added a b }
{
    a.wrapping_add(b)
}

/// A sum minus another, in 128 bits.
#[tactic(auto, unfolding(crate::specs::Reconciling::less))]
pub(crate) fn less(sum: i128, amount: i128) -> i128
    ensures { result ≡ less sum amount }
{
    sum.wrapping_sub(amount)
}
