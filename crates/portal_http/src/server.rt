// Where clients come from, the network of the system among it; connections, one after the other, and how long each
// client may take.

ghost use Rattle.std.specs.Prelude.{◌≡◌, ◌+◌, ◌*◌, ◌≤◌, ℕ, IfErr, IfNone, IfOk, IfSome, ⊤};
ghost use Rattle.std.specs.Duration.{as_nanos};
ghost use Rattle.portal_http.specs.Clients.{Client, Comes, clients_of, comes_of};
ghost use Rattle.portal_http.specs.EndLines.{client_line};
ghost use Rattle.portal_http.specs.Output.{output_of};
ghost use Rattle.portal_http.specs.Served.{Served};
ghost use Rattle.portal_http.specs.ServedAll.{ServedAll};
ghost use Rattle.trust_desk.specs.Calls.{IsAny, KeepsBook};

use crate::stream::{StreamEnd, serve_routes, serve_stream};
use byte_streams::send;
use portal_requests::Routes;
use std::alloc::Global;
use std::cell::Cell;
use std::io;
use std::io::{Error, ErrorKind, Read, Write};
use std::net::{Ipv4Addr, Net, OpenListener, OpenStream, Shutdown, TcpListener};
use std::rt::Clock;
use std::time::{Duration, Instant};
use trust_base::Day;
use trust_desk::Desk;
use trust_store::Book;

/// A connection that was accepted, in two halves.
#[derive(Drop)]
pub struct Connection<R: Drop, W: Drop> {
    /// What the client sends.
    pub reader: R,
    /// What is sent to the client.
    pub writer: W,
}

/// Why an accept returned no connection.
#[derive(Clone, Copy, Debug, thiserror::Error)]
pub enum AcceptFault {
    /// The connection of one client could not be made: the client had closed it, or its halves could not be made.
    /// Other clients can still be accepted.
    #[error("the connection of a client could not be made")]
    Aborted,
    /// The network refused the accept. No client is accepted any more.
    #[error("the network refused an accept")]
    Network,
}

/// What clients connect to.
pub trait ClientListener {
    ghost use Rattle.std.specs.Prelude.{ℕ};
    ghost use Rattle.portal_http.specs.Clients.{Comes};

    /// The reading half of a connection.
    type Reader: Read + OpenStream + Drop;

    /// The writing half of a connection.
    type Writer: Write + OpenStream + Drop;

    /// What an accept may return, by how many come before it.
    ghost comes: { Self → ℕ → Comes Self.Writer → Type 0 };

    /// Waits for the next client.
    fn accept(&mut self) -> Result<Connection<Self::Reader, Self::Writer>, AcceptFault>
        ensures client { IfOk result
            (λ client. comes self.old 0 (Client (Self.Reader.remaining client.reader) client.writer)) }
        ensures fault { IfErr result (λ fault. comes self.old 0 (comes_of fault)) }
        ensures next { (k : ℕ) (c : Comes Self.Writer) → comes self.new k c → comes self.old (k + 1) c };
}

/// The ports that a command line can name.
pub trait Network {
    ghost use Rattle.portal_http.specs.Clients.{Ports};

    /// What clients of a port connect to.
    type Listener: ClientListener + Drop;

    /// What is known of the ports.
    ghost ports: { Self → Ports Self.Listener.Writer };

    /// Listens for clients at a port, for this machine only. Returns `None` if the port is not available.
    fn listen(&self, port: u16) -> Option<Self::Listener>
        ensures some { IfSome result (λ listener. (k : ℕ) (c : Comes Self.Listener.Writer)
            → Self.Listener.comes listener k c → (ports self.now port).comes k c) }
        ensures none { IfNone result (ports self.now port).refuses };
}

/// The network of the system, whose behaviour is not known. Its ports are those of the loopback address.
#[derive(Drop)]
pub struct SystemNetwork<'a, R> {
    /// The system.
    pub rt: &'a R,
}

/// A listening port of the system.
#[derive(Drop)]
pub struct SystemListener<L> {
    listener: L,
}

impl<R: Net> Network for SystemNetwork<'_, R> {
    type Listener = SystemListener<R::Listener>;

    ghost ports = { λ _ _. record { comes = λ _ _. ⊤; refuses = ⊤ } };

    fn listen(&self, port: u16) -> Option<SystemListener<R::Listener>> {
        match TcpListener::bind(self.rt, (Ipv4Addr::LOCALHOST, port)) {
            Ok(listener) => Some(SystemListener { listener }),
            Err(_) => None,
        }
    }
}

impl<L: OpenListener> ClientListener for SystemListener<L>
where
    L::Stream: Read + Write + OpenStream + Drop,
{
    type Reader = L::Stream;

    type Writer = L::Stream;

    ghost comes = { λ _ _ _. ⊤ };

    fn accept(&mut self) -> Result<Connection<L::Stream, L::Stream>, AcceptFault> {
        match self.listener.accept() {
            Ok((reader, _)) => {
                // An answer is two writes. Without this, the second would wait until the client acknowledges the
                // first.
                let _ = reader.set_nodelay(true);
                match reader.try_clone() {
                    Ok(writer) => Ok(Connection { reader, writer }),
                    // This closes the connection, but the port still listens.
                    Err(_) => Err(AcceptFault::Aborted),
                }
            }
            Err(error) => match error.kind() {
                ErrorKind::ConnectionAborted => Err(AcceptFault::Aborted),
                _ => Err(AcceptFault::Network),
            },
        }
    }
}

// How many seconds a client may be silent between messages.
const SILENCE_SECONDS: u64 = 10;

// How many seconds the bytes of a message may take, from the first one.
const MESSAGE_SECONDS: u64 = 60;

// How many seconds the client may take for the head or the body of an answer, from the first byte offered.
const TEXT_SECONDS: u64 = 60;

// What a connection is doing, kept in a cell that its two halves share.
//
// The halves alone decide where a message or an answer ends. A read after a write starts the silence between two
// messages, a write after a read ends a message, and a write that was accepted whole ends the head or the body of an
// answer. So the time between two calls of the halves, in which the desk works, is not counted.
#[derive(Clone, Copy)]
enum Phase {
    // Everything was written, and no byte has come since.
    Between,
    // The first byte of a message was just read.
    Begun,
    // A message is being read, since this time.
    Message(Instant),
    // The head or body of an answer is being written, since this time.
    Text(Instant),
}

// Returns what is left of a time span that began at `since`; `TimedOut` if nothing is left.
fn time_left(clock: &impl Clock, since: Instant, span: Duration) -> io::Result<Duration>
    ensures { IfOk result (λ left. as_nanos left ≤ as_nanos span) }
{
    let spent = since.elapsed(clock)?;
    match span.checked_sub(spent) {
        Some(left) if !left.is_zero() => Ok(left),
        _ => Err(Error::from(ErrorKind::TimedOut)),
    }
}

// The reading half of a connection. Each read may take what is left of the silence between messages, or of the
// message's time.
#[derive(Drop)]
struct PacedReader<'p, 'h, C, R> {
    clock: &'p C,
    phase: &'p Cell<Phase>,
    half: &'h mut R,
}

impl<C: Clock, R: Read + OpenStream> Read for PacedReader<'_, '_, C, R> {
    ghost remaining = { λ reader. R.remaining reader.half.now };

    // Fails with `TimedOut` if the time for the message is over. Also fails if the clock, which is asked after the
    // first byte of a message, cannot be read.
    fn read(&mut self, buf: &mut [u8]) -> io::Result<usize> {
        let whole = Duration::from_secs(MESSAGE_SECONDS);
        let left = match self.phase.get() {
            Phase::Between | Phase::Text(_) => {
                self.phase.set(Phase::Between);
                Duration::from_secs(SILENCE_SECONDS)
            }
            Phase::Begun => {
                self.phase.set(Phase::Message(Instant::now(self.clock)?));
                whole
            }
            Phase::Message(since) => time_left(self.clock, since, whole)?,
        };
        prove!(left.as_nanos() <= MESSAGE_SECONDS as u128 * 1_000_000_000);
        self.half.set_read_timeout(Some(left))?;
        let count = self.half.read(buf)?;
        if let Phase::Between = self.phase.get() {
            self.phase.set(Phase::Begun);
        }
        Ok(count)
    }
}

// The writing half of a connection. Each write may take what is left of the time for the text being written. What a
// write leaves of a text has to be offered to the next write.
#[derive(Drop)]
struct PacedWriter<'p, C, W> {
    clock: &'p C,
    phase: &'p Cell<Phase>,
    half: W,
}

impl<C: Clock, W: Write + OpenStream> Write for PacedWriter<'_, C, W> {
    ghost contents = { λ writer. W.contents writer.half };

    // Fails with `TimedOut` if the time for the text is over. Also fails if the clock cannot be read.
    fn write(&mut self, buf: &[u8]) -> io::Result<usize> {
        let whole = Duration::from_secs(TEXT_SECONDS);
        let left = match self.phase.get() {
            Phase::Text(since) => time_left(self.clock, since, whole)?,
            Phase::Between | Phase::Begun | Phase::Message(_) => {
                self.phase.set(Phase::Text(Instant::now(self.clock)?));
                whole
            }
        };
        prove!(left.as_nanos() <= TEXT_SECONDS as u128 * 1_000_000_000);
        self.half.set_write_timeout(Some(left))?;
        let taken = self.half.write(buf)?;
        if taken == buf.len() {
            self.phase.set(Phase::Between);
        }
        Ok(taken)
    }

    fn flush(&mut self) -> io::Result<()> {
        self.half.flush()
    }
}

// How many unread bytes are read and dropped before a connection is closed.
const MAX_DROPPED: usize = 4_194_304;

// How many seconds reading them may take in total.
const CLOSING_SECONDS: u64 = 1;

/// A connection whose stream was served.
#[derive(Drop)]
pub struct Answered<W: Drop> {
    /// How its stream ended.
    pub end: StreamEnd,
    /// What the answers were written to.
    pub writer: W,
}

/// What became of a client that was waited for.
#[derive(Clone, Copy)]
pub enum ClientEnd {
    /// Its stream was served, and ended like this.
    Served(StreamEnd),
    /// It was gone before it was accepted, or its connection could not be made. Nothing was read of it.
    Gone,
}

// Returns the line for a client: the name of its stream's end, or that it was gone.
fn line_of(end: ClientEnd) -> &'static [u8]
    ensures { result.now ≡ client_line end }
{
    match end {
        ClientEnd::Served(StreamEnd::Ended) => b"Ended\n",
        ClientEnd::Served(StreamEnd::BadFraming) => b"BadFraming\n",
        ClientEnd::Served(StreamEnd::Limit) => b"Limit\n",
        ClientEnd::Served(StreamEnd::ReadFault) => b"ReadFault\n",
        ClientEnd::Served(StreamEnd::WriteFault) => b"WriteFault\n",
        ClientEnd::Served(StreamEnd::NoMemory) => b"NoMemory\n",
        ClientEnd::Gone => b"Gone\n",
    }
}

/// How serving ended.
#[derive(Clone, Copy, PartialEq, Eq, Debug)]
pub enum ServeEnd {
    /// As many clients were served as requested.
    Done,
    /// The network refused an accept. The clients before it were served.
    NetworkFault,
    /// A line could not be written. Its client was served.
    WriteFault,
}

// Closes a connection on which an answer may stand before bytes that were not read. Closing a socket with unread
// bytes resets the connection, and the client could lose the answer, so what it still sends is read and dropped first.
fn close<C: Clock, R: Read + OpenStream, W: OpenStream>(
    clock: &C,
    reader: &mut R,
    writer: &W,
) -> io::Result<()> {
    writer.shutdown(Shutdown::Write)?;
    let start = Instant::now(clock)?;
    let mut part = [0u8; 8_192];
    let mut room = MAX_DROPPED;
    for _ in 0..MAX_DROPPED {
        let left = time_left(clock, start, Duration::from_secs(CLOSING_SECONDS))?;
        reader.set_read_timeout(Some(left))?;
        let most = part.len().min(room);
        let count = reader.read(&mut part[..most])?;
        if count == 0 {
            break;
        }
        room -= count;
    }
    Ok(())
}

/// Serves the stream of one connection, and closes it.
///
/// The client may be silent for 10 seconds between messages. The bytes of a message may take 60 seconds from the
/// first; the client may take 60 seconds to accept the head of an answer, and 60 more for its body. A client that
/// takes longer ends the stream with `ReadFault` or `WriteFault`, as does a clock that cannot be read. The time that
/// the desk works is not counted. So every connection ends, since a stream has at most 1,000 messages.
///
/// If an answer ended the stream, the client still gets it: before the close, up to 4,194,304 bytes or one second of
/// what it still sends are read and dropped. If no routes are given, they are made for this connection.
pub fn serve_connection<
    C: Clock + Drop,
    R: Read + OpenStream + Drop,
    W: Write + OpenStream + Drop,
    B: Book,
>(
    alloc: Global,
    clock: &C,
    client: Connection<R, W>,
    desk: &mut Desk<B>,
    routes: &Option<Routes>,
    day: Day,
) -> Answered<W>
    ensures { Served day (R.remaining client.reader)
        (W.contents client.writer) (B.seen desk.old) result.end (W.contents result.writer) (B.seen desk.new) }
{
    let Connection { mut reader, writer } = client;
    let phase = Cell::new(Phase::Between);
    let messages = PacedReader {
        clock,
        phase: &phase,
        half: &mut reader,
    };
    let mut answers = PacedWriter {
        clock,
        phase: &phase,
        half: writer,
    };
    let end = match routes {
        Some(routes) => serve_routes(alloc, messages, &mut answers, desk, routes, day),
        None => serve_stream(alloc, messages, &mut answers, desk, day),
    };
    let PacedWriter { half: writer, .. } = answers;
    match end {
        StreamEnd::BadFraming | StreamEnd::Limit | StreamEnd::NoMemory => {
            let _ = close(clock, &mut reader, &writer);
        }
        StreamEnd::Ended | StreamEnd::ReadFault | StreamEnd::WriteFault => (),
    }
    Answered { end, writer }
}

/// Serves `count` clients one after the other, each over the book that the one before it left. Writes a line for
/// each: the name of its stream's end, or `Gone` if it was gone before it was accepted, or its connection could not be
/// made. A fault of one connection ends only that connection. Stops early if the network refuses an accept, or if a
/// line cannot be written.
pub fn serve_connections<C: Clock + Drop, L: ClientListener, W: Write, B: Book>(
    alloc: Global,
    clock: &C,
    listener: &mut L,
    count: u32,
    writer: &mut W,
    desk: &mut Desk<B>,
    day: Day,
) -> ServeEnd
    ensures served { ServedAll B.seen (clients_of count L.Writer.contents (L.comes listener.old)) day
        (output_of W.contents writer.old writer.new) result desk.old desk.new }

    // A firm that was sound is still sound, as it is after each message of each client. Faults of the store are not
    // counted, since no replies are given here.
    ensures kept { KeepsBook IsAny (B.seen desk.old) (B.seen desk.new) }
{
    // Made once for all clients. If memory runs out here, each connection makes its own.
    let routes = Routes::new(alloc).ok();
    for _ in 0..count {
        let end = match listener.accept() {
            Ok(client) => ClientEnd::Served(
                serve_connection(alloc, clock, client, desk, &routes, day).end,
            ),
            Err(AcceptFault::Aborted) => ClientEnd::Gone,
            Err(AcceptFault::Network) => return ServeEnd::NetworkFault,
        };
        match send(writer, line_of(end)) {
            Ok(()) => (),
            Err(_) => return ServeEnd::WriteFault,
        }
    }
    ServeEnd::Done
}
