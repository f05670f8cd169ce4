//! The columns of each table, as the code passes them. Texts are any bytes.

/// The columns of a matter's head. Its number is the rowid.
#[derive(Clone, Copy)]
pub struct HeadColumns<'a> {
    pub no: i64,
    pub client: &'a [u8],
    pub opened: i64,
    pub closed: i64,
    pub last: i64,
    pub entries: i64,
    pub pending: i64,
    pub held: i64,
    pub available: i64,
    pub disputed: i64,
    pub fees: i64,
    pub claims: i64,
    pub purged: i64,
}

/// The columns of a head that each change of its matter sets: the totals and the last day.
#[derive(Clone, Copy)]
pub struct TotalsColumns {
    pub no: i64,
    pub held: i64,
    pub available: i64,
    pub disputed: i64,
    pub fees: i64,
    pub claims: i64,
    pub entries: i64,
    pub pending: i64,
    pub last: i64,
}

/// A matter, and a day to set in its head.
#[derive(Clone, Copy)]
pub struct MatterDay {
    pub matter: i64,
    pub day: i64,
}

/// The columns of a seat.
#[derive(Clone, Copy)]
pub struct SeatColumns<'a> {
    pub matter: i64,
    pub person: &'a [u8],
    pub role: i64,
}

/// The columns of an entry.
#[derive(Clone, Copy)]
pub struct EntryColumns<'a> {
    pub matter: i64,
    pub no: i64,
    pub kind: i64,
    pub day: i64,
    pub amount: i64,
    pub state: i64,
    pub fund: i64,
    pub of_no: i64,
    pub text_a: &'a [u8],
    pub text_b: &'a [u8],
    pub text_c: &'a [u8],
    pub day_done: i64,
    pub day_undone: i64,
    pub day_bank: i64,
    pub bank_ref: &'a [u8],
    pub part: i64,
    pub left_now: i64,
}

/// The matter and number of an entry, and what is left of it.
#[derive(Clone, Copy)]
pub struct LeftColumns {
    pub matter: i64,
    pub no: i64,
    pub left_now: i64,
}

/// The columns of a movement. The table numbers its rows itself.
#[derive(Clone, Copy)]
pub struct MovementColumns {
    pub matter: i64,
    pub entry: i64,
    pub day: i64,
    pub amount: i64,
}

/// The columns of an act of a matter. The table numbers its rows itself.
#[derive(Clone, Copy)]
pub struct ActColumns<'a> {
    pub matter: i64,
    pub entry: i64,
    pub day: i64,
    pub deed: i64,
    pub caller: &'a [u8],
    pub text: &'a [u8],
    pub number: i64,
}

/// The columns of a line of the firm's own ledger. The table numbers its rows itself.
#[derive(Clone, Copy)]
pub struct FirmLineColumns<'a> {
    pub day: i64,
    pub bank_ref: &'a [u8],
    pub amount: i64,
    pub text: &'a [u8],
}

/// The columns of a bank line that matched nothing.
#[derive(Clone, Copy)]
pub struct ExceptionColumns<'a> {
    pub day: i64,
    pub reference: &'a [u8],
    pub bank_ref: &'a [u8],
    pub amount: i64,
    pub text: &'a [u8],
}

/// The columns of an opening or closing balance.
#[derive(Clone, Copy)]
pub struct BalanceColumns {
    pub kind: i64,
    pub day: i64,
    pub amount: i64,
}

/// The matter and person that identify a seat.
#[derive(Clone, Copy)]
pub struct SeatName<'a> {
    pub matter: i64,
    pub person: &'a [u8],
}
