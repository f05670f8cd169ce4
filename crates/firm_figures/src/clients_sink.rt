// The list of the clients' ledgers as of a day, from rows that arrive one at a time.

ghost use Rattle.std.specs.Prelude.{◌≡◌, ℕ, OnErr, OnOk, fold};
ghost use Rattle.firm_rows.specs.Firm.{EntryRow, HeadRow};
ghost use Rattle.firm_figures.specs.Reconciling.{added, ledger_share_by};
ghost use Rattle.firm_figures.specs.Clients.{ClientsKept, add_to_last, clients_sum, no_clients, with_client_own, with_client_row};
ghost use Rattle.firm_figures.specs.declared.clients_sink.ClientLine.{ClientLine};

use crate::day_lists::EntryDays;
use crate::figures::{added, together};
use crate::heads::{is_head_purged_at, is_open_by};
use firm_rows::{FirmLine, MatterRow, MatterRowSink, RowSink};
use std::alloc::{AllocError, Global};
use std::marker::Model;
use trust_base::{Day, Label, MatterNo};
use trust_matter::{Entry, Head, Holder};

/// A matter that was open as of a day, its client, and its ledger as of that day, in cents.
#[derive(Drop)]
pub struct ClientLine {
    pub matter: MatterNo,
    pub client: Label,
    pub ledger: i128,
}

/// The clients' ledgers as of a day: the matters that were open, by number, the firm's own balance, and their sum, in
/// cents.
#[derive(Drop)]
pub struct ClientList {
    pub lines: Vec<ClientLine>,
    pub own: i128,
    pub total: i128,
}

/// Lists the clients' ledgers as of a day, and adds up the firm's own lines.
///
/// Contracts see it as the day, the lines, the firm's balance, and whether the list is no longer complete.
#[derive(Drop)]
pub struct ClientsSink {
    day: Day,
    own: i128,
    lines: Vec<ClientLine>,
    purged: bool,
}

impl Model for ClientsSink {
    ghost Value = { ClientsKept };

    ghost view = { λ s. record { day = s.day; own = s.own; lines = s.lines.items; purged = s.purged } };
}

impl ClientLine {
    fn add(&mut self, amount: i128)
        ensures { self.new ≡ record self.old { ledger = added self.old.ledger amount } }
    {
        self.ledger = together(self.ledger, amount);
    }
}

// Adds an amount to the last line, if that is of this matter.
fn add_to_last(lines: &mut [ClientLine], matter: MatterNo, amount: i128)
    ensures { lines.new ≡ add_to_last matter amount lines.old }
{
    if let Some(line) = lines.last_mut() {
        if line.matter == matter {
            line.add(amount);
        }
    }
}

// What an entry adds to the ledger of its matter as of a day.
fn ledger_share(entry: &Entry, day: Day) -> i128
    ensures { result ≡ ledger_share_by day entry.now }
{
    let days = EntryDays::by(entry, day);
    days.amount_left(days.booked, days.undone.or(days.returned))
}

// The sum of the ledgers and the firm's own balance.
fn total_of(lines: &[ClientLine], own: i128) -> i128
    ensures { result ≡ fold (λ z (l : ClientLine). added z l.ledger) own lines.now }
{
    let mut total = own;
    for line in lines {
        total = together(total, line.ledger);
    }
    total
}

impl ClientsSink {
    /// An empty list as of a day.
    pub fn new(alloc: Global, day: Day) -> ClientsSink
        ensures { result ≡ no_clients day }
    {
        ClientsSink {
            day,
            own: 0,
            lines: Vec::new(alloc),
            purged: false,
        }
    }

    /// Takes the head of a matter in. If memory runs out, nothing changes.
    pub fn see_head(&mut self, matter: MatterNo, head: &Head) -> Result<(), AllocError>
        ensures ok { OnOk result (self.new ≡ with_client_row self.old (matter, HeadRow head.now)) }
        ensures err { OnErr result (self.new ≡ self.old) }
    {
        if is_open_by(head, self.day) {
            if let Holder::Client(client) = &head.holder {
                let client = client.copied()?;
                self.lines.push(ClientLine {
                    matter,
                    client,
                    ledger: 0,
                })?;
            }
        }
        if is_head_purged_at(head, self.day) {
            self.purged = true;
        }
        Ok(())
    }

    /// Takes an entry of a matter in. Unlike the row by itself, it is never refused.
    pub fn see_entry(&mut self, matter: MatterNo, entry: &Entry)
        ensures { (n : ℕ) → self.new ≡ with_client_row self.old (matter, EntryRow n entry.now) }
    {
        let share = ledger_share(entry, self.day);
        add_to_last(&mut self.lines, matter, share);
    }

    /// Takes a line of the firm's own in. Unlike the row by itself, it is never refused.
    pub fn see_firm_line(&mut self, line: &FirmLine)
        ensures { self.new ≡ with_client_own self.old line.now }
    {
        let mut amount = 0;
        if line.date.get() <= self.day.get() {
            amount = line.amount.get();
        }
        self.own = added(self.own, amount);
    }

    /// Whether a matter that was open as of the day was purged. The list is then no longer complete.
    pub fn is_day_purged(&self) -> bool
        ensures { result ≡ self.now.purged }
    {
        self.purged
    }

    /// The list.
    pub fn finish(self) -> ClientList
        ensures lines { result.lines.items ≡ self.lines }
        ensures own { result.own ≡ self.own }
        ensures total { result.total ≡ clients_sum self }
    {
        let total = total_of(self.lines.as_slice(), self.own);
        ClientList {
            lines: self.lines,
            own: self.own,
            total,
        }
    }
}

impl MatterRowSink for ClientsSink {
    ghost taken = { with_client_row };

    fn matter_row(&mut self, matter: MatterNo, row: MatterRow<'_>) -> Result<(), AllocError> {
        match row {
            MatterRow::Head(head) => self.see_head(matter, head),
            MatterRow::Seat(_seat) => Ok(()),
            MatterRow::Entry(_, entry) => {
                self.see_entry(matter, entry);
                Ok(())
            }
        }
    }
}

impl RowSink<FirmLine> for ClientsSink {
    ghost taken = { with_client_own };

    fn take(&mut self, line: &FirmLine) -> Result<(), AllocError> {
        self.see_firm_line(line);
        Ok(())
    }
}
