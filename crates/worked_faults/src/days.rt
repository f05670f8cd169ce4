// What is asked on several days of a book in memory, which answers as the program does over a file.

use crate::answers::{Answers, ask_each};
use crate::messages::{
    APPROVE_THIRD, BOOK, CARD, EXCEPTIONS, JOURNAL, OPEN, PROPOSE_THIRD, SHOW, TRIAL_BALANCE,
};
use sha2::{Digest, Sha256};
use std::alloc::Global;
use trust_base::Day;
use trust_desk::Desk;
use trust_store::PlainBook;

// Two lines of a day to come.
const TOO_EARLY: &str = concat!(
    "POST /firm/statements HTTP/1.1\r\nx-caller: cashier\r\ncontent-length: 126\r\n\r\n",
    "date,reference,bank_ref,amount,text\n",
    "2024-01-12,M000001-0001,B1,500.00,from Ada\n",
    "2024-01-12,M000001-0001,B1,500.00,from A. Chen\n"
);

// The first of them.
const CLEAR_NOTED: &str = concat!(
    "POST /firm/statements HTTP/1.1\r\nx-caller: cashier\r\ncontent-length: 79\r\n\r\n",
    "date,reference,bank_ref,amount,text\n",
    "2024-01-12,M000001-0001,B1,500.00,from Ada\n"
);

// The second.
const REPEAT_NOTED: &str = concat!(
    "POST /firm/statements HTTP/1.1\r\nx-caller: cashier\r\ncontent-length: 83\r\n\r\n",
    "date,reference,bank_ref,amount,text\n",
    "2024-01-12,M000001-0001,B1,500.00,from A. Chen\n"
);

// A list of the firm.
const RETENTION: &str = "GET /firm/retention HTTP/1.1\r\nx-caller: cashier\r\n\r\n";

// The reconciliation of the last day of January, and of the day before it.
const JANUARY: &str = "GET /firm/reconciliation/2024-01-31 HTTP/1.1\r\nx-caller: cashier\r\n\r\n";

const DAY_BEFORE: &str =
    "GET /firm/reconciliation/2024-01-30 HTTP/1.1\r\nx-caller: cashier\r\n\r\n";

// The first matter: its first entry, its end.
const ENTRY: &str = "GET /matters/000001/entries/0001 HTTP/1.1\r\nx-caller: cashier\r\n\r\n";

const CLOSE: &str = "POST /matters/000001/close HTTP/1.1\r\nx-caller: cashier\r\n\r\n";

const PURGE: &str = "POST /matters/000001/purge HTTP/1.1\r\nx-caller: cashier\r\n\r\n";

// A deposit of 300.00, its line, and one of 100.00 behind it.
const BOOK_LESS: &str = concat!(
    "POST /matters/000001/entries/0001/deposit HTTP/1.1\r\nx-caller: cashier\r\ncontent-length: 64\r\n\r\n",
    r#"{"amount":"300.00","source":"Ada Chen","description":"retainer"}"#
);

const CLEAR_LESS: &str = concat!(
    "POST /firm/statements HTTP/1.1\r\nx-caller: cashier\r\ncontent-length: 71\r\n\r\n",
    "date,reference,bank_ref,amount,text\n",
    "2024-01-12,M000001-0001,B1,300.00,\n"
);

const TOP_UP: &str = concat!(
    "POST /matters/000001/entries/0002/deposit HTTP/1.1\r\nx-caller: cashier\r\ncontent-length: 62\r\n\r\n",
    r#"{"amount":"100.00","source":"Ada Chen","description":"top up"}"#
);

// A statement of the month, with that line.
const MONTH: &str = concat!(
    "POST /firm/statements HTTP/1.1\r\nx-caller: cashier\r\ncontent-length: 120\r\n\r\n",
    "date,reference,bank_ref,amount,text\n",
    "2024-01-01,OPEN,,0.00,\n",
    "2024-01-12,M000001-0001,B1,300.00,\n",
    "2024-01-31,CLOSE,,300.00,\n"
);

// The line of a deposit of 500.00, and a statement where it is taken back, twice, before that line comes again.
const CLEAR_LATE: &str = concat!(
    "POST /firm/statements HTTP/1.1\r\nx-caller: cashier\r\ncontent-length: 71\r\n\r\n",
    "date,reference,bank_ref,amount,text\n",
    "2024-01-12,M000001-0001,B1,500.00,\n"
);

const TAKE_BACK: &str = concat!(
    "POST /firm/statements HTTP/1.1\r\nx-caller: cashier\r\ncontent-length: 159\r\n\r\n",
    "date,reference,bank_ref,amount,text\n",
    "2024-01-11,M000001-0001,B2,-500.00,returned\n",
    "2024-01-11,M000001-0001,B2,-500.00,returned\n",
    "2024-01-12,M000001-0001,B1,500.00,\n"
);

// A second matter and its deposit, and money of the firm.
const OPEN_SECOND: &str = concat!(
    "POST /matters/000002/open HTTP/1.1\r\nx-caller: cashier\r\ncontent-length: 35\r\n\r\n",
    r#"{"client":"Bo Lind","lawyer":"lee"}"#
);

const BOOK_SECOND: &str = concat!(
    "POST /matters/000002/entries/0001/deposit HTTP/1.1\r\nx-caller: cashier\r\ncontent-length: 62\r\n\r\n",
    r#"{"amount":"80.00","source":"Bo Lind","description":"retainer"}"#
);

const FIRMS_MONEY: &str = concat!(
    "POST /firm/statements HTTP/1.1\r\nx-caller: cashier\r\ncontent-length: 62\r\n\r\n",
    "date,reference,bank_ref,amount,text\n",
    "2024-01-12,FIRM,B1,10.00,\n"
);

// What is asked on each of some days.
type Days = &'static [(&'static str, &'static [&'static str])];

// Each as a case asks it, and the SHA-256 of what the program answers over a file, all days one after the other.
const ASKED: &[(&str, Days, &[u8; 32])] = &[
    (
        "only the line that is applied leaves the exceptions (cases/statements.txt)",
        &[
            ("2024-01-09", &[TOO_EARLY]),
            ("2024-01-10", &[OPEN, BOOK]),
            (
                "2024-01-12",
                &[CLEAR_NOTED, EXCEPTIONS, REPEAT_NOTED, EXCEPTIONS],
            ),
        ],
        b"\x2f\x48\x8d\x80\xe1\xcb\xac\xe8\xcf\x3f\xb6\x13\x7d\xe9\xb7\xc3\
          \x0e\x02\xd8\x95\x04\xb3\x1e\x06\x61\x32\x9f\x03\xc8\x3f\x90\xae",
    ),
    (
        "a month with a deposit in transit and a payment outstanding (cases/reconciliation.txt)",
        &[
            ("2024-01-10", &[OPEN, BOOK_LESS]),
            ("2024-01-12", &[CLEAR_LESS]),
            ("2024-01-30", &[TOP_UP, PROPOSE_THIRD, APPROVE_THIRD]),
            (
                "2024-02-01",
                &[
                    MONTH,
                    JANUARY,
                    TRIAL_BALANCE,
                    JOURNAL,
                    CARD,
                    EXCEPTIONS,
                    RETENTION,
                    DAY_BEFORE,
                ],
            ),
        ],
        b"\xe6\x8d\x00\x05\x1b\x24\x8d\x46\xd7\x8d\x1c\x3c\x65\x3d\x65\xcf\
          \xe1\x4e\x72\xac\x35\x39\xf8\xce\x14\xd2\x4c\x20\xb7\x30\xed\x3f",
    ),
    (
        "a deposit is taken back by the bank, and both of its lines come again (cases/returned-deposits.txt)",
        &[
            ("2024-01-10", &[OPEN, BOOK]),
            ("2024-01-12", &[CLEAR_LATE]),
            (
                "2024-01-13",
                &[
                    CLOSE, TAKE_BACK, ENTRY, CLOSE, CLOSE, SHOW, EXCEPTIONS, JOURNAL, CARD,
                ],
            ),
        ],
        b"\x87\xdb\x85\xec\x6f\x6a\x65\x3f\x0c\x6e\x75\x1b\x3f\xb9\x6f\xce\
          \xc7\x59\x21\x5a\x04\x9a\xe7\xee\x45\xe3\x68\x13\x3a\xa7\xf7\x74",
    ),
    (
        "a closed matter is purged after five years (cases/closing-and-purging.txt)",
        &[
            ("2024-01-10", &[OPEN, CLOSE]),
            ("2029-01-10", &[PURGE]),
            ("2029-01-11", &[PURGE, PURGE]),
        ],
        b"\x94\x0a\x26\x1d\x68\x1e\x9b\x5d\x79\xa5\xa0\x74\x60\xd9\xf4\x59\
          \xf5\x7e\x8b\x97\xb0\xfc\x83\x38\x1f\x40\x4b\xbb\xa1\x2b\x4f\x30",
    ),
    (
        "a closed matter is in the journal and in no trial balance (cases/reports.txt)",
        &[
            ("2024-01-10", &[OPEN, JOURNAL, OPEN_SECOND]),
            ("2024-01-30", &[BOOK_SECOND]),
            (
                "2024-01-31",
                &[
                    FIRMS_MONEY,
                    TRIAL_BALANCE,
                    CLOSE,
                    JOURNAL,
                    TRIAL_BALANCE,
                    RETENTION,
                ],
            ),
        ],
        b"\xd6\xa4\xb5\x3e\x0f\xcc\x59\xff\xc0\x09\xa8\x87\x37\x44\x3d\x0d\
          \xd3\x49\x41\xe4\xd5\x23\xb2\x05\x9c\x38\xa5\x5d\xaf\x1c\x31\x5a",
    ),
];

// Asks a book in memory on a day. A day that is none is not asked on.
fn ask_on(
    alloc: Global,
    desk: &mut Desk<PlainBook>,
    day: &str,
    messages: &[&str],
    answers: &mut Answers,
) {
    if let Some(day) = Day::read(day.as_bytes()) {
        ask_each(alloc, desk, day, messages, answers);
    }
}

// What a book in memory answers, all days one after the other.
fn answers_in_memory(alloc: Global, days: Days) -> Vec<u8> {
    let mut desk = Desk::new(PlainBook::new(alloc));
    let mut answers = Answers::new(alloc);
    for (day, messages) in days {
        ask_on(alloc, &mut desk, day, messages, &mut answers);
    }
    answers.bytes
}

#[test]
fn several_days_over_a_book_in_memory(rt: HostRuntime) {
    for (what, days, wanted) in ASKED {
        let answers = answers_in_memory(rt.alloc(), days);
        assert!(rt; Sha256::digest(answers) == **wanted, "{what}");
    }
}
