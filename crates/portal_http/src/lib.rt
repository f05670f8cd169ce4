//! Serves streams of messages: reads the messages of a stream, turns each into a request, and writes the bytes of its
//! reply.
//!
//! Connections are served one after the other. If a client is silent for too long, or takes too long to send a
//! message or to accept an answer, its connection is closed and the next client is served.
//!
//! # What is promised
//!
//! By public call, with the clauses of its contract in brackets.
//!
//! - `bytes_of`, `write_reply`: the bytes of a reply; at a fault of the writer a prefix of them was written (`ok`,
//!   `err`). `write_reply` takes no memory.
//! - `serve_stream`: over every book, reader and writer, however the reads are cut: there are messages with a reply to
//!   each, which are those that the stream's bytes have, or, if the stream was not served to its end, the first ones
//!   (`read`, `paired`); what was written is the bytes of the replies in order and then of the framing refusal, if
//!   there is one, which is BadMessage, LengthRequired or TooLarge, whatever the reader's contract says (`written`,
//!   `behind`). At WriteFault all answers except the last were written, and a prefix of that; a refusal after the
//!   replies is that of the bytes there, or out of memory (`read`). At NoMemory the replies were written, and then that
//!   refusal. The replies and the rows are those of the firm's steps, one after another, and **the firm is sound after
//!   each message** (`run`); **each matter's replies, and its rows and acts afterwards, are those of its own machine**
//!   (`own`); **no ledger is below zero** before, in and after each message and each item of an import (`covered`); a
//!   reply is Store only if a call of the book answered Store (`kept`). After a stop: if the store served as the stream
//!   began and at most the last reply is Store or Memory, a crash may leave what it might have left before, or the rows
//!   after some prefix of the messages with a part of the next; if no reply is either, a settled book is settled
//!   (`crash`). The replies before the first that is Store or Memory are those of a run of the first messages, even if
//!   a fault has shut the store since (`shut`); if there is no such reply, a store that served still serves, so that
//!   all of this is said of it (`serves`).
//! - `laws` `two_streams`: **in two sound firms that hold the same rows and acts of a matter, whatever else their
//!   streams carry, if what comes to the matter is the same, each message that names it is answered by the same bytes
//!   (`answers`), those of the matter's own machine (`own`), its rows end the same (`rows`, `own_rows`), and so do its
//!   acts, and no ledger of either firm is below zero before, in or after any message or item (`covered`,
//!   `also_covered`)** (`whole`); where nobody asks for the acts, the same rows suffice (`rows`); if the store or lack
//!   of memory stopped a message that concerns the matter, nothing is said.
//! - `laws` `canonical_phrases`: the phrase of each status that replies have is that of the crate `http`.
//!
//! The command `stream` serves standard input by `serve_stream`, and `serve` each connection of a socket. What is
//! written and which messages were read is said of every book; what the replies and the rows are, if the book's store
//! is clean as the call ends and stood for a sound firm as it began. Not said: when a read fails or memory is refused;
//! how often is read; which of the three refusals a framing fault has, for a reader whose contract does not say its
//! bytes; how much memory a message takes. That each path of the table finds its place is tested, since no proof
//! computes the router.
//!
//! - `serve_connection`: what `serve_stream` promises, of the client's own bytes and of the writer that is given back:
//!   so what this client was sent.
//! - `serve_connections`: each client's stream is served like that in turn, over the book that the client before left,
//!   and its answers are written to that client's own writer. A client that is gone, or for which the system can't make
//!   a connection, and no other, is told of as Gone and changes nothing. It ends early only if the network refused an
//!   accept, or a line could not be written. The operator gets a line for each client, or, if a line could not be
//!   written, some proper prefix of the lines, with nothing said of how long (`served`). A book that stood for a sound
//!   firm stands for one afterwards (`kept`).
//!
//! An accept gives a client with its bytes and its writer, or one that is gone, or a refusal; which of these is a
//! relation of the listener (`ClientListener::comes`), of which a system's listener says nothing. Not said: anything of
//! time (the limits are constants; `worked_faults` tries them in virtual time), that a system's listener listens.
#![tactic(auto)]

pub mod laws;
mod server;
mod stream;

pub use portal_messages::{Input, Message, Next, Stop, read_message};
pub use portal_requests::{Routes, request_of};
pub use server::{
    AcceptFault, Answered, ClientEnd, ClientListener, Connection, Network, ServeEnd,
    SystemListener, SystemNetwork, serve_connection, serve_connections,
};
pub use stream::{StreamEnd, bytes_of, serve_stream, write_reply};
pub use trust_desk::Desk;
