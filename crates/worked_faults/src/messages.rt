// Messages of a firm.

/// Shows the first matter.
pub(crate) const SHOW: &str = "GET /matters/000001 HTTP/1.1\r\nx-caller: cashier\r\n\r\n";

/// Shows its ledger card, and that of the second matter.
pub(crate) const CARD: &str =
    "GET /matters/000001/accounting HTTP/1.1\r\nx-caller: cashier\r\n\r\n";

pub(crate) const CARD_OTHER: &str =
    "GET /matters/000002/accounting HTTP/1.1\r\nx-caller: cashier\r\n\r\n";

/// Lists of the firm.
pub(crate) const JOURNAL: &str = "GET /firm/journal HTTP/1.1\r\nx-caller: cashier\r\n\r\n";

pub(crate) const TRIAL_BALANCE: &str =
    "GET /firm/trial-balance HTTP/1.1\r\nx-caller: cashier\r\n\r\n";

pub(crate) const EXCEPTIONS: &str = "GET /firm/exceptions HTTP/1.1\r\nx-caller: cashier\r\n\r\n";

/// The messages whose answers show the rows of a book.
pub(crate) const SHOWING: &[&str] = &[SHOW, CARD, CARD_OTHER, JOURNAL, TRIAL_BALANCE, EXCEPTIONS];

/// The cashier opens matter 000001 for Ada Chen with the lawyer lee.
pub(crate) const OPEN: &str = concat!(
    "POST /matters/000001/open HTTP/1.1\r\nx-caller: cashier\r\ncontent-length: 36\r\n\r\n",
    r#"{"client":"Ada Chen","lawyer":"lee"}"#
);

/// The cashier books a retainer of 500.00 as its first entry.
pub(crate) const BOOK: &str = concat!(
    "POST /matters/000001/entries/0001/deposit HTTP/1.1\r\nx-caller: cashier\r\ncontent-length: 64\r\n\r\n",
    r#"{"amount":"500.00","source":"Ada Chen","description":"retainer"}"#
);

/// The cashier proposes a payment of 100.00 as its second entry.
pub(crate) const PROPOSE: &str = concat!(
    "POST /matters/000001/entries/0002/propose HTTP/1.1\r\nx-caller: cashier\r\ncontent-length: 101\r\n\r\n",
    r#"{"amount":"100.00","from":"general","payee":"Court Clerk","purpose":"filing fee","instrument":"1001"}"#
);

/// The lawyer approves it.
pub(crate) const APPROVE: &str = concat!(
    "POST /matters/000001/entries/0002/approve HTTP/1.1\r\nx-caller: lee\r\ncontent-length: 2\r\n\r\n",
    r#"{}"#
);

/// The lawyer earns a fee of 100.00 as the matter's second entry.
pub(crate) const FEE: &str = concat!(
    "POST /matters/000001/entries/0002/fee HTTP/1.1\r\nx-caller: lee\r\ncontent-length: 43\r\n\r\n",
    r#"{"amount":"100.00","description":"January"}"#
);

/// The cashier opens matter 000002 for Zoé Roth with the same lawyer.
pub(crate) const OPEN_OTHER: &str = concat!(
    "POST /matters/000002/open HTTP/1.1\r\nx-caller: cashier\r\ncontent-length: 37\r\n\r\n",
    r#"{"client":"Zoé Roth","lawyer":"lee"}"#
);

pub(crate) const BOOK_OTHER: &str = concat!(
    "POST /matters/000002/entries/0001/deposit HTTP/1.1\r\nx-caller: cashier\r\ncontent-length: 65\r\n\r\n",
    r#"{"amount":"200.00","source":"Zoé Roth","description":"retainer"}"#
);

/// A statement with the line that clears the retainer.
pub(crate) const CLEAR: &str = concat!(
    "POST /firm/statements HTTP/1.1\r\nx-caller: cashier\r\ncontent-length: 71\r\n\r\n",
    "date,reference,bank_ref,amount,text\n",
    "2024-02-01,M000001-0001,B1,500.00,\n"
);

pub(crate) const CLEAR_OTHER: &str = concat!(
    "POST /firm/statements HTTP/1.1\r\nx-caller: cashier\r\ncontent-length: 71\r\n\r\n",
    "date,reference,bank_ref,amount,text\n",
    "2024-02-01,M000002-0001,B1,200.00,\n"
);

/// A statement with the lines that clear both retainers, and an unreadable record between them.
pub(crate) const CLEAR_BOTH: &str = concat!(
    "POST /firm/statements HTTP/1.1\r\nx-caller: cashier\r\ncontent-length: 114\r\n\r\n",
    "date,reference,bank_ref,amount,text\n",
    "2024-02-01,M000001-0001,B1,500.00,\n",
    "garbage\n",
    "2024-02-01,M000002-0001,B1,200.00,\n"
);

/// A statement with a line of the firm's own money.
pub(crate) const OWN_MONEY: &str = concat!(
    "POST /firm/statements HTTP/1.1\r\nx-caller: cashier\r\ncontent-length: 71\r\n\r\n",
    "date,reference,bank_ref,amount,text\n",
    "2024-02-01,FIRM,B2,10.00,own money\n"
);

/// A statement with a bank charge, which the firm's own money does not cover.
pub(crate) const CHARGE: &str = concat!(
    "POST /firm/statements HTTP/1.1\r\nx-caller: cashier\r\ncontent-length: 74\r\n\r\n",
    "date,reference,bank_ref,amount,text\n",
    "2024-02-01,FIRM,B3,-12.00,account fee\n"
);

/// A statement of a month: both balances, the firm's own money, and the line that belongs to nobody.
pub(crate) const MONTH_LINES: &str = concat!(
    "POST /firm/statements HTTP/1.1\r\nx-caller: cashier\r\ncontent-length: 163\r\n\r\n",
    "date,reference,bank_ref,amount,text\n",
    "2024-02-01,OPEN,,0.00,\n",
    "2024-02-01,FIRM,B2,10.00,own money\n",
    "2024-02-01,RENT,B4,-1200.00,standing order\n",
    "2024-02-01,CLOSE,,688.00,\n"
);

/// The cashier proposes a payment of 50.00 as its third entry.
pub(crate) const PROPOSE_THIRD: &str = concat!(
    "POST /matters/000001/entries/0003/propose HTTP/1.1\r\nx-caller: cashier\r\ncontent-length: 100\r\n\r\n",
    r#"{"amount":"50.00","from":"general","payee":"Court Clerk","purpose":"filing fee","instrument":"1001"}"#
);

/// The lawyer approves it.
pub(crate) const APPROVE_THIRD: &str =
    "POST /matters/000001/entries/0003/approve HTTP/1.1\r\nx-caller: lee\r\n\r\n";

/// The messages that lead to a firm with one matter: a cleared deposit, a payment, lines of the firm's own, balances
/// and an exception.
pub(crate) const HISTORY: &[&str] = &[OPEN, BOOK, CLEAR, OWN_MONEY, PROPOSE, APPROVE, MONTH_LINES];
