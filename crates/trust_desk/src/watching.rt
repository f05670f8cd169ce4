// Watchers, which are told of the items of a statement and of the exceptions.

use crate::importing::ImportStop;
use firm_rows::{BalanceKind, FirmLedger, Owner};
use trust_base::Line;
use trust_matter::{BankLine, Matter, Reason};

/// An item of a statement that was not applied, or an exception as an import would find it, with what was read of the
/// book before the decision.
#[derive(Clone, Copy)]
pub enum NotApplied<'a> {
    /// A line that names an entry, with what was loaded of its matter, and the first reason against it.
    OfMatter {
        line: &'a BankLine,
        matter: &'a Matter,
        reason: Reason,
    },
    /// A line of the firm's own.
    OfFirm {
        line: &'a Line,
        ledger: &'a FirmLedger,
    },
    /// A balance, with the amount on file for its kind and day, in cents, if there is one.
    OfBalance {
        kind: BalanceKind,
        line: &'a Line,
        kept: Option<i64>,
    },
    /// A line that names nothing.
    Stray {
        line: &'a Line,
    },
    /// A record that is not a valid line.
    Unreadable,
    /// An exception that an import would apply.
    WouldApply {
        line: &'a Line,
    },
    /// An exception that an import would count as a repeat.
    WouldRepeat {
        line: &'a Line,
    },
}

/// Is told of the items of a statement, or of the exceptions. Nothing depends on whether it succeeds.
pub trait ItemWatch {
    /// Called after a line was applied: it cleared its owner's entry or took it back, or was added to the firm's own.
    /// The number is that of its item; the first record after the header has number 1.
    fn applied(&self, number: u64, owner: Owner, line: &Line);

    /// Called after an item was not applied, with its number; the first record after the header has number 1. Also
    /// called for an exception, with its number in their list.
    fn not_applied(&self, number: u64, told: &NotApplied<'_>);

    /// Called when the import has ended, with how many items were handled and how it ended.
    fn ended(&self, taken: u64, end: &ImportStop);
}

/// Ignores all remarks.
#[derive(Clone, Copy)]
pub struct NoWatch;

impl ItemWatch for NoWatch {
    fn applied(&self, _number: u64, _owner: Owner, _line: &Line) {}

    fn not_applied(&self, _number: u64, _told: &NotApplied<'_>) {}

    fn ended(&self, _taken: u64, _end: &ImportStop) {}
}

/// A watcher, with the number of the item or exception to report.
#[derive(Drop)]
pub struct At<'a, V> {
    pub number: u64,
    pub watch: &'a V,
}

impl<V: ItemWatch> At<'_, V> {
    // Reports it to the watcher.
    pub(crate) fn tell(&self, told: &NotApplied<'_>) {
        self.watch.not_applied(self.number, told);
    }
}
