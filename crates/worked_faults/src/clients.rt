// Clients as data: what they do, and what is expected of their connections.

use portal_http::StreamEnd;

/// What a client sends: the number of times, the milliseconds before each time, and the bytes. Each read gets bytes of
/// only one time.
pub(crate) type Piece = (u64, u64, &'static [u8]);

/// A client, and how its connection is to go.
#[derive(Clone, Copy)]
pub(crate) struct Client {
    pub(crate) name: &'static str,
    /// What it sends, in order.
    pub(crate) sends: &'static [Piece],
    /// Whether it resets the connection after that, instead of closing its writing side.
    pub(crate) resets: bool,
    /// How many bytes of a write it accepts at most, and after how many milliseconds.
    pub(crate) takes: (usize, u64),
    pub(crate) end: StreamEnd,
    /// How many milliseconds pass until its connection is closed.
    pub(crate) passed: u64,
    /// How many of its bytes are read until then.
    pub(crate) read: u64,
    /// How often it is answered with `ANSWER` first, and with what after that.
    pub(crate) answered: (usize, &'static str),
}

// A message of a person who has no seat.
const MESSAGE: &[u8] = b"GET /matters/000001 HTTP/1.1\r\nx-caller: bob\r\n\r\n";

/// The answer to it.
pub(crate) const ANSWER: &str =
    "HTTP/1.1 404 Not Found\r\ncontent-type: application/json\r\ncontent-length: 31\r\n\r\n\
{\"name\":\"NoMatter\",\"refusal\":8}";

const BAD_MESSAGE: &str = "HTTP/1.1 400 Bad Request\r\ncontent-type: application/json\r\n\
content-length: 33\r\n\r\n{\"name\":\"BadMessage\",\"refusal\":1}";

const TOO_LARGE: &str = "HTTP/1.1 413 Payload Too Large\r\ncontent-type: application/json\r\n\
content-length: 31\r\n\r\n{\"name\":\"TooLarge\",\"refusal\":3}";

// A head without its last line end, and the head of a body that is too large.
const BEGUN: &[u8] = b"GET /matters/000001 HTTP/1.1\r\nx-caller: bob\r\n";

const LARGE: &[u8] = b"POST /matters/000001/open HTTP/1.1\r\ncontent-length: 9999999999\r\n\r\n";

const PART: &[u8] = b"AAAAAAAAAAAAAAAAAAAAAAAAAAAAAAAAAAAAAAAAAAAAAAAAAAAAAAAAAAAAAAAA";

// One that sends nothing, accepts everything it is sent, and ends.
const QUIET: Client = Client {
    name: "who sends nothing ends well",
    sends: &[],
    resets: false,
    takes: (1_000_000, 0),
    end: StreamEnd::Ended,
    passed: 0,
    read: 0,
    answered: (0, ""),
};

// One that sends a message and is answered.
const GOOD: Client = Client {
    name: "a message is answered",
    sends: &[(1, 0, MESSAGE)],
    read: 47,
    answered: (1, ""),
    ..QUIET
};

/// Clients that are served one after the other.
pub(crate) const CLIENTS: &[Client] = &[
    GOOD,
    Client {
        name: "who says nothing has ten seconds",
        sends: &[(1, 1_000_000, MESSAGE)],
        end: StreamEnd::ReadFault,
        passed: 10_000,
        ..QUIET
    },
    // The first byte comes within the silence, and the others have a minute.
    Client {
        name: "a byte a second has a minute",
        sends: &[(100, 1_000, b"G")],
        end: StreamEnd::ReadFault,
        passed: 61_000,
        read: 61,
        ..QUIET
    },
    Client {
        name: "a message has a minute",
        sends: &[(1, 0, BEGUN), (1, 60_001, b"\r\n")],
        end: StreamEnd::ReadFault,
        passed: 60_000,
        read: 45,
        ..QUIET
    },
    Client {
        name: "the last byte comes just in time",
        sends: &[(1, 0, BEGUN), (1, 60_000, b"\r\n")],
        passed: 60_000,
        ..GOOD
    },
    Client {
        name: "pauses between messages do not add up",
        sends: &[(20, 9_000, MESSAGE)],
        passed: 180_000,
        read: 940,
        answered: (20, ""),
        ..QUIET
    },
    Client {
        name: "who resets in the middle of a head ends its own connection alone",
        sends: &[(1, 0, b"GET /matters/0000")],
        resets: true,
        end: StreamEnd::ReadFault,
        read: 17,
        ..QUIET
    },
    GOOD,
    Client {
        name: "who takes nothing has a minute",
        takes: (1_000_000, 1_000_000),
        end: StreamEnd::WriteFault,
        passed: 60_000,
        answered: (0, ""),
        ..GOOD
    },
    Client {
        name: "a head that is taken slowly has a minute",
        takes: (1, 1_000),
        end: StreamEnd::WriteFault,
        passed: 60_000,
        answered: (
            0,
            "HTTP/1.1 404 Not Found\r\ncontent-type: application/json\r\ncont",
        ),
        ..GOOD
    },
    // It accepts each head and each body after 59 seconds.
    Client {
        name: "answers to one read do not share a minute",
        sends: &[(
            1,
            0,
            b"GET /matters/000001 HTTP/1.1\r\nx-caller: bob\r\n\r\n\
GET /matters/000001 HTTP/1.1\r\nx-caller: bob\r\n\r\n\
GET /matters/000001 HTTP/1.1\r\nx-caller: bob\r\n\r\n",
        )],
        takes: (1_000_000, 59_000),
        passed: 354_000,
        read: 141,
        answered: (3, ""),
        ..QUIET
    },
    // It sends more of a body than is dropped, and accepts its answer meanwhile.
    Client {
        name: "so many bytes are dropped",
        sends: &[(1, 0, LARGE), (70_000, 0, PART)],
        end: StreamEnd::BadFraming,
        read: 4_194_370,
        answered: (0, TOO_LARGE),
        ..QUIET
    },
    Client {
        name: "a second is what the close takes",
        sends: &[(1, 0, LARGE), (9, 300, PART)],
        end: StreamEnd::BadFraming,
        passed: 1_000,
        read: 258,
        answered: (0, TOO_LARGE),
        ..QUIET
    },
    Client {
        name: "the close ends with the client",
        sends: &[
            (1, 0, b"GET / HTTP/1.1\r\nbad header\r\n\r\n"),
            (3, 300, PART),
        ],
        end: StreamEnd::BadFraming,
        passed: 900,
        read: 222,
        answered: (0, BAD_MESSAGE),
        ..QUIET
    },
    GOOD,
];

/// Clients that are served one after the other while a clock can be read twice and no more.
pub(crate) const OF_A_FAILING_CLOCK: &[Client] = &[
    GOOD,
    Client {
        name: "a message in two pieces is not waited for",
        sends: &[(1, 0, b"GET /matters/000001 "), (1, 9_000, b"HTTP/1.1\r\n")],
        end: StreamEnd::ReadFault,
        read: 20,
        ..QUIET
    },
    Client {
        name: "an answer is not sent",
        end: StreamEnd::WriteFault,
        answered: (0, ""),
        ..GOOD
    },
    QUIET,
];
