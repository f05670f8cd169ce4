// Rows of the trail that stand for no act.

use trust_base::MatterNo;

/// A row of a book's acts that stands for no act, as no program of this kind writes it.
#[derive(Clone, Copy)]
pub struct UnreadAct {
    /// Its number among the rows of acts, in the order of acceptance, from 1.
    pub number: u64,
    /// The matter that it names. None if it names none that there may be.
    pub matter: Option<MatterNo>,
}
