// Runs the program on the operating system.

ghost use Rattle.std.specs.Prelude.{None, ⊤};

use crate::folder::{Folder, Opened, Presence};
use crate::notice::{Notice, bare_notice_of, notice_of};
use crate::outcome::{Outcome, exit_of};
use crate::program::{Surroundings, run_called, texts_of};
use cashier_remarks::{Remark, Remarks};
use portal_http::SystemNetwork;
use std::cell::RefCell;
use std::fmt::Write;
use std::fs::{self, OpenFile};
use std::io::{self, ErrorKind};
use std::net::Net;
use std::os::unix::fs::MetadataExt;
use std::process::ExitCode;
use std::rt::{Clock, Env, Files};
use trust_store::Stores;

// The files of the system. Nothing is known about them.
#[derive(Drop)]
struct SystemFiles<'a, R> {
    rt: &'a R,
}

impl<R: Files> Folder for SystemFiles<'_, R> {
    type File = R::File;

    ghost files = { λ _ _. record { bytes = None; opens = λ _. ⊤ } };

    fn open(&self, path: &str) -> Option<Opened<R::File>> {
        let Ok(reader) = fs::open(self.rt, path) else {
            return None;
        };
        let length = match reader.metadata() {
            Ok(metadata) if metadata.is_file() => Some(metadata.len()),
            Ok(_) | Err(_) => None,
        };
        Some(Opened { reader, length })
    }

    fn presence(&self, path: &str) -> Presence {
        match fs::metadata(self.rt, path) {
            Ok(metadata) if metadata.is_file() && metadata.nlink() > 1 => Presence::TwoNames,
            Ok(metadata) if metadata.is_file() && metadata.len() == 0 => Presence::Empty,
            Err(error) if error.kind() == ErrorKind::NotFound => Presence::Missing,
            Ok(_) | Err(_) => Presence::There,
        }
    }
}

// The most bytes of remarks that are held. What is told after that many is shown at once.
const MAX_HELD: usize = 1_048_576;

// The bytes that are put aside before a run for remarks, so that they can be held when memory runs out.
const ROOM: usize = 4_096;

// The standard error of the system. Remarks are held until the run is over, so that the name of a fault comes first.
#[derive(Drop)]
struct SystemRemarks<'a, R> {
    rt: &'a R,
    // What is held. None once remarks are shown as they come.
    held: RefCell<Option<String>>,
}

impl<'a, R: Eprint + AllocGlobal> SystemRemarks<'a, R> {
    fn new(rt: &'a R) -> SystemRemarks<'a, R> {
        let held = String::with_capacity(rt.alloc(), ROOM).ok();
        SystemRemarks {
            rt,
            held: RefCell::new(held),
        }
    }

    // Adds a remark to what is held. Whether it could: not if it is too much, or if memory runs out. Then what is held
    // is shown, and nothing is held from then on.
    fn hold(&self, remark: &Remark<'_>) -> bool {
        let Ok(mut held) = self.held.try_borrow_mut() else {
            return false;
        };
        let Some(text) = held.as_mut() else {
            return false;
        };
        let length = text.len();
        if length < MAX_HELD && writeln!(text, "cashier: {remark}").is_ok() {
            return true;
        }
        // What was written of it is left out.
        let front = text.get(..length).unwrap_or("");
        let _ = eprint!(self.rt; "{front}");
        *held = None;
        false
    }
}

impl<R: Eprint + AllocGlobal> Remarks for SystemRemarks<'_, R> {
    fn tell(&self, remark: &Remark<'_>) {
        if !self.hold(remark) {
            let _ = eprintln!(self.rt; "cashier: {remark}");
        }
    }

    fn show_at_once(&self) {
        if let Ok(Some(text)) = self.held.try_replace(None) {
            let _ = eprint!(self.rt; "{text}");
        }
    }
}

// Prints a notice on standard error, if there is one.
fn tell(rt: &impl Eprint, notice: Option<Notice<'_>>) {
    if let Some(notice) = notice {
        let _ = eprintln!(rt; "{notice}");
    }
}

// Reports an outcome on standard error, with what the words have to do with it, if they are known.
fn tell_outcome(
    rt: &(impl Eprint + AllocGlobal),
    outcome: Outcome,
    called: &Result<Vec<String>, ErrorKind>,
) {
    let Ok(words) = called else {
        return tell(rt, bare_notice_of(outcome));
    };
    match texts_of(rt.alloc(), words.as_slice()) {
        Ok(texts) => tell(rt, notice_of(rt.alloc(), outcome, texts.as_slice())),
        Err(_) => tell(rt, bare_notice_of(outcome)),
    }
}

/// The whole program. Runs what the words that it was called with ask for, over standard input, standard output, the
/// system's files and ports and the books of `stores`. Reports a fault or invalid words on standard error, and then the
/// remarks of the run; those of clients of a port come at once. Returns the exit status.
///
/// It combines `run_called`, `notice_of` and `exit_of`, whose contracts say what a run does, what is reported about it
/// and how it ends. This function has no contract: nothing can be promised about what the operating system supplies.
pub fn run_on_system<S: Stores + Drop>(
    rt: &(impl Env + Input + Files + Print + Eprint + Clock + Net + Drop + AllocGlobal),
    stores: S,
) -> ExitCode {
    let remarks = SystemRemarks::new(rt);
    let around = Surroundings {
        folder: &SystemFiles { rt },
        clock: rt,
        network: &SystemNetwork { rt },
        remarks: &remarks,
    };
    let called: Result<Vec<String>, ErrorKind> = match std::env::args(rt) {
        Ok(words) => words
            .collect(rt.alloc())
            .map_err(|_| ErrorKind::OutOfMemory),
        Err(error) => Err(error.kind()),
    };
    let outcome = run_called(
        rt.alloc(),
        &called,
        &mut rt.reader(),
        around,
        stores,
        &mut io::writer(rt),
    );
    tell_outcome(rt, outcome, &called);
    remarks.show_at_once();
    exit_of(outcome)
}
