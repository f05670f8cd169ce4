// Connections in virtual time.

use crate::clients::{ANSWER, CLIENTS, Client, OF_A_FAILING_CLOCK, Piece};
use portal_http::{Connection, StreamEnd, serve_connection};
use std::alloc::Global;
use std::cell::Cell;
use std::io;
use std::io::{Error, ErrorKind, Read, Write};
use std::net::{OpenStream, Shutdown};
use std::rt::Clock;
use std::time::Duration;
use trust_base::Day;
use trust_desk::Desk;
use trust_store::PlainBook;

// A clock that starts at 0. Its time passes only while a client keeps the server waiting. It also counts what is read.
#[derive(Drop)]
struct TrialClock {
    now: Cell<Duration>,
    /// How many more readings of it succeed.
    good: Cell<u64>,
    read: Cell<u64>,
}

impl TrialClock {
    // Waits for this many milliseconds or, if the limit comes first, until the limit, and then fails with
    // `WouldBlock`. Fails at once without a limit, so that no wait for a client is ever without one.
    fn wait(&self, millis: u64, limit: Option<Duration>) -> io::Result<()> {
        let Some(limit) = limit else {
            return Err(Error::from(ErrorKind::InvalidInput));
        };
        let time = Duration::from_millis(millis);
        self.now.set(self.now.get().saturating_add(time.min(limit)));
        if time > limit {
            Err(Error::from(ErrorKind::WouldBlock))
        } else {
            Ok(())
        }
    }
}

impl Clock for TrialClock {
    fn monotonic(&self) -> io::Result<Duration> {
        match self.good.get().checked_sub(1) {
            Some(left) => {
                self.good.set(left);
                Ok(self.now.get())
            }
            None => Err(Error::from(ErrorKind::Other)),
        }
    }

    fn since_1970(&self) -> io::Result<Duration> {
        self.monotonic()
    }
}

// The half of a connection on which a client sends.
#[derive(Drop)]
struct Sending<'c> {
    clock: &'c TrialClock,
    // What is still to come, and how often its first piece was sent already.
    pieces: &'static [Piece],
    times: u64,
    // The rest of what was sent last.
    rest: &'static [u8],
    resets: bool,
    limit: Cell<Option<Duration>>,
}

impl Sending<'_> {
    // Waits until the client sends this piece, which others follow.
    fn next_piece(&mut self, piece: Piece, behind: &'static [Piece]) -> io::Result<()> {
        let (times, after, bytes) = piece;
        self.clock.wait(after, self.limit.get())?;
        self.rest = bytes;
        self.times = self.times.saturating_add(1);
        if self.times >= times {
            self.times = 0;
            self.pieces = behind;
        }
        Ok(())
    }
}

impl Read for Sending<'_> {
    fn read(&mut self, buf: &mut [u8]) -> io::Result<usize> {
        if self.rest.is_empty() {
            match (self.pieces.split_first(), self.resets) {
                (Some((piece, behind)), _) => self.next_piece(*piece, behind)?,
                (None, true) => return Err(Error::from(ErrorKind::ConnectionReset)),
                (None, false) => return Ok(0),
            }
        }
        let n = self.rest.len().min(buf.len());
        let (front, back) = self.rest.split_at(n);
        buf[..n].copy_from_slice(front);
        self.rest = back;
        self.clock
            .read
            .set(self.clock.read.get().saturating_add(n as u64));
        Ok(n)
    }
}

impl OpenStream for Sending<'_> {
    fn set_read_timeout(&self, limit: Option<Duration>) -> io::Result<()> {
        self.limit.set(limit);
        Ok(())
    }
}

// The half on which it is answered.
#[derive(Drop)]
struct Taking<'c> {
    clock: &'c TrialClock,
    takes: (usize, u64),
    taken: Vec<u8>,
    limit: Cell<Option<Duration>>,
}

impl Write for Taking<'_> {
    fn write(&mut self, buf: &[u8]) -> io::Result<usize> {
        let (most, after) = self.takes;
        self.clock.wait(after, self.limit.get())?;
        let n = buf.len().min(most);
        match self.taken.extend_from_slice(&buf[..n]) {
            Ok(()) => Ok(n),
            Err(_) => Err(Error::from(ErrorKind::OutOfMemory)),
        }
    }

    fn flush(&mut self) -> io::Result<()> {
        Ok(())
    }
}

impl OpenStream for Taking<'_> {
    fn set_write_timeout(&self, limit: Option<Duration>) -> io::Result<()> {
        self.limit.set(limit);
        Ok(())
    }

    fn shutdown(&self, _how: Shutdown) -> io::Result<()> {
        Ok(())
    }
}

// Whether these bytes are what a client is to be answered.
fn is_answer(client: &Client, taken: &[u8]) -> bool {
    let (answers, behind) = client.answered;
    let mut rest = taken;
    for _ in 0..answers {
        match rest.strip_prefix(ANSWER.as_bytes()) {
            Some(more) => rest = more,
            None => return false,
        }
    }
    rest == behind.as_bytes()
}

// How a connection went: how its stream ended, the milliseconds that passed, the bytes that were read, and whether the
// client was answered as it should be.
type Went = (u8, u128, u64, bool);

fn went(
    alloc: Global,
    clock: &TrialClock,
    client: &Client,
    desk: &mut Desk<PlainBook>,
    day: Day,
) -> Went {
    let connection = Connection {
        reader: Sending {
            clock,
            pieces: client.sends,
            times: 0,
            rest: b"",
            resets: client.resets,
            limit: Cell::new(None),
        },
        writer: Taking {
            clock,
            takes: client.takes,
            taken: Vec::new(alloc),
            limit: Cell::new(None),
        },
    };
    clock.now.set(Duration::ZERO);
    clock.read.set(0);
    let answered = serve_connection(alloc, clock, connection, desk, &None, day);
    (
        answered.end as u8,
        clock.now.get().as_millis(),
        clock.read.get(),
        is_answer(client, answered.writer.taken.as_slice()),
    )
}

#[test]
fn each_connection_has_its_end(rt: HostRuntime) {
    let day = Day::read(b"2024-01-10").expect(&rt, "a day");
    let mut desk = Desk::new(PlainBook::new(rt.alloc()));
    for (clients, good) in [(CLIENTS, u64::MAX), (OF_A_FAILING_CLOCK, 2)] {
        let clock = TrialClock {
            now: Cell::new(Duration::ZERO),
            good: Cell::new(good),
            read: Cell::new(0),
        };
        for client in clients {
            assert_eq!(rt;
                went(rt.alloc(), &clock, client, &mut desk, day),
                (
                    client.end as u8,
                    u128::from(client.passed),
                    client.read,
                    true
                ),
                "{}",
                client.name
            );
        }
    }
}
