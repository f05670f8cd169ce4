// What the packet of month's end wants of a firm's rows, from rows that arrive one at a time, once for all its parts.

ghost use Rattle.std.specs.Prelude.{◌≡◌, IfOk, OnErr, OnOk};
ghost use Rattle.firm_rows.specs.Firm.{EntryRow, HeadRow};
ghost use Rattle.firm_periods.specs.Approvals.{ApprovalsKept};
ghost use Rattle.firm_periods.specs.Month.{AreMonthParts, MonthKept, month_begun, with_month_movement, with_month_own, with_month_row};
ghost use Rattle.firm_periods.specs.MonthLists.{AreSharesOf, HasRoom, HaveSameItems, HaveTaken};
ghost use Rattle.firm_periods.specs.Named.{NamedKept, client_of};
ghost use Rattle.firm_periods.specs.declared.named_sink.Pick.TheVariants as pick;

use crate::approvals_sink::{
    ApprovalsBegun, ApprovalsSink, IssuedPayment, approved_list, issued_within,
};
use crate::moved::NamedMove;
use crate::named_sink::{
    NamedList, Pick, Picked, name_own, name_picked, named_list, push_picked, push_some,
};
use crate::purged::is_head_purged_within;
use firm_figures::{ClientsSink, ReconciliationSink, is_head_purged_at};
use firm_rows::{FirmLine, MatterAct, MatterRow, MatterRowSink, Movement, RowSink};
use std::alloc::{AllocError, Global};
use std::marker::Model;
use trust_base::{Day, EntryNo, Label, MatterNo, Period};
use trust_matter::{Entry, Head, Holder};

/// The lists of a packet, and the reconciliation and the clients that its other parts are made of.
#[derive(Drop)]
pub struct MonthParts {
    /// The reconciliation, which has to be handed the exceptions and the balances yet.
    pub reconciliation: ReconciliationSink,
    /// The clients' ledgers as of the day.
    pub clients: ClientsSink,
    /// The deposits in transit as of the day.
    pub transit: NamedList,
    /// The outstanding payments as of the day.
    pub outstanding: NamedList,
    /// The receipts of the month.
    pub receipts: NamedList,
    /// The disbursements of the month.
    pub disbursements: NamedList,
    /// The payments issued in the month, each with who approved it.
    pub approvals: Vec<IssuedPayment>,
    /// Whether a matter that was open in the month was purged. Its lists are then no longer complete.
    pub is_purged: bool,
}

// What is stored of the entries: the movements with their names, and the payments.
#[derive(Drop)]
struct Lists {
    transit: Vec<NamedMove>,
    outstanding: Vec<NamedMove>,
    receipts: Vec<NamedMove>,
    disbursements: Vec<NamedMove>,
    issued: Vec<IssuedPayment>,
}

// What each list takes of an entry.
struct Shares {
    transit: Picked,
    outstanding: Picked,
    receipts: Picked,
    disbursements: Picked,
    issued: Option<IssuedPayment>,
}

// Written by hand, so that a function that holds shares makes one call at each exit.
impl Drop for Shares {
    fn drop(self) {
        let Shares {
            transit: _transit,
            outstanding: _outstanding,
            receipts: _receipts,
            disbursements: _disbursements,
            issued: _issued,
        } = self;
    }
}

// Makes room in each list for what it may take of an entry.
fn make_room(lists: &mut Lists) -> Result<(), AllocError>
    ensures same { HaveSameItems lists.old lists.new }
    ensures room { OnOk result (HasRoom lists.new) }
{
    lists.transit.reserve(2)?;
    lists.outstanding.reserve(2)?;
    lists.receipts.reserve(2)?;
    lists.disbursements.reserve(2)?;
    lists.issued.reserve(1)?;
    Ok(())
}

impl Shares {
    // Appends to each list what it takes of the entry. There is room for it.
    fn push_to(self, lists: &mut Lists)
        requires { HasRoom lists.old }
        ensures { HaveTaken lists.old self lists.new }
    {
        let Shares {
            transit,
            outstanding,
            receipts,
            disbursements,
            issued,
        } = self;
        push_picked(&mut lists.transit, transit);
        push_picked(&mut lists.outstanding, outstanding);
        push_picked(&mut lists.receipts, receipts);
        push_picked(&mut lists.disbursements, disbursements);
        if let Some(line) = issued {
            lists.issued.push_reserved(line);
        }
    }
}

// The client of a matter; None if it was purged.
fn client_of(holder: &Holder) -> Result<Option<Label>, AllocError>
    ensures { IfOk result (λ client. client ≡ client_of holder.now) }
{
    match holder {
        Holder::Client(client) => Ok(Some(client.copied()?)),
        Holder::Purged(_) => Ok(None),
    }
}

/// Builds the packet of month's end as of a day: of the acts that were approvals before, then of the rows, the
/// movements and the firm's own lines of a firm, each given once.
///
/// Contracts see it as what its parts would store by themselves.
pub struct MonthSink {
    day: Day,
    month: Period,
    reconciliation: ReconciliationSink,
    clients: ClientsSink,
    // The client of the last head.
    client: Option<Label>,
    lists: Lists,
    // Whether a purged matter was open as of the day, and in the month.
    day_purged: bool,
    month_purged: bool,
    // The period and the acts of the approvals, and whether a purged matter was open in it.
    period: Period,
    acts: Vec<MatterAct>,
    period_purged: bool,
}

// Written by hand, so that a function that holds a sink makes one call at each exit.
impl Drop for MonthSink {
    fn drop(self) {
        let MonthSink {
            day: _day,
            month: _month,
            reconciliation: _reconciliation,
            clients: _clients,
            client: _client,
            lists: _lists,
            day_purged: _day_purged,
            month_purged: _month_purged,
            period: _period,
            acts: _acts,
            period_purged: _period_purged,
        } = self;
    }
}

impl Model for MonthSink {
    ghost Value = { MonthKept };

    ghost view = { λ s. record {
      reconciliation = s.reconciliation;
      clients = s.clients;
      transit = record {
        pick = pick.Transit s.day;
        client = s.client;
        lines = s.lists.transit.items;
        purged = s.day_purged;
      };
      outstanding = record {
        pick = pick.Outstanding s.day;
        client = s.client;
        lines = s.lists.outstanding.items;
        purged = s.day_purged;
      };
      receipts = record {
        pick = pick.Receipts s.month;
        client = s.client;
        lines = s.lists.receipts.items;
        purged = s.month_purged;
      };
      disbursements = record {
        pick = pick.Disbursements s.month;
        client = s.client;
        lines = s.lists.disbursements.items;
        purged = s.month_purged;
      };
      approvals = record {
        period = s.period;
        acts = s.acts.items;
        lines = s.lists.issued.items;
        purged = s.period_purged;
      };
    } };
}

// What each list takes of an entry.
fn shares_of(
    day: Day,
    month: Period,
    period: Period,
    client: &Option<Label>,
    matter: MatterNo,
    number: EntryNo,
    entry: &Entry,
) -> Result<Shares, AllocError>
    ensures { IfOk result (AreSharesOf day month period client.now matter number entry.now) }
{
    let transit = name_picked(Pick::Transit(day), client, matter, number, entry)?;
    let outstanding = name_picked(Pick::Outstanding(day), client, matter, number, entry)?;
    let receipts = name_picked(Pick::Receipts(month), client, matter, number, entry)?;
    let disbursements = name_picked(Pick::Disbursements(month), client, matter, number, entry)?;
    let issued = issued_within(period, matter, number, entry)?;
    Ok(Shares {
        transit,
        outstanding,
        receipts,
        disbursements,
        issued,
    })
}

impl MonthSink {
    /// Begins the packet as of a day with the acts of its approvals.
    pub fn new(alloc: Global, day: Day, approvals: ApprovalsSink) -> MonthSink
        ensures { result ≡ month_begun day approvals }
    {
        let ApprovalsBegun {
            period,
            acts,
            lines,
            purged,
        } = approvals.into_begun();
        MonthSink {
            day,
            month: Period::month_to(day),
            reconciliation: ReconciliationSink::new(alloc, day),
            clients: ClientsSink::new(alloc, day),
            client: None,
            lists: Lists {
                transit: Vec::new(alloc),
                outstanding: Vec::new(alloc),
                receipts: Vec::new(alloc),
                disbursements: Vec::new(alloc),
                issued: lines,
            },
            day_purged: false,
            month_purged: false,
            period,
            acts,
            period_purged: purged,
        }
    }

    // Takes the head of a matter in. If memory runs out, nothing changes.
    fn see_head(&mut self, matter: MatterNo, head: &Head) -> Result<(), AllocError>
        ensures ok { OnOk result (self.new ≡ with_month_row self.old (matter, HeadRow head.now)) }
        ensures err { OnErr result (self.new ≡ self.old) }
    {
        let client = client_of(&head.holder)?;
        self.clients.see_head(matter, head)?;
        self.reconciliation.see_head(head);
        self.client = client;
        self.day_purged = is_head_purged_at(head, self.day) | self.day_purged;
        self.month_purged = is_head_purged_within(head, self.month) | self.month_purged;
        self.period_purged = is_head_purged_within(head, self.period) | self.period_purged;
        Ok(())
    }

    // Takes an entry in. If memory runs out, nothing changes.
    fn see_entry(
        &mut self,
        matter: MatterNo,
        number: EntryNo,
        entry: &Entry,
    ) -> Result<(), AllocError>
        ensures ok { OnOk result (self.new ≡ with_month_row self.old (matter, EntryRow number entry.now)) }
        ensures err { OnErr result (self.new ≡ self.old) }
    {
        let shares = shares_of(
            self.day,
            self.month,
            self.period,
            &self.client,
            matter,
            number,
            entry,
        )?;
        make_room(&mut self.lists)?;
        self.reconciliation.see_entry(matter, number, entry)?;
        self.clients.see_entry(matter, entry);
        shares.push_to(&mut self.lists);
        Ok(())
    }

    /// The parts of the packet. The only error is out of memory.
    pub fn finish(self, alloc: Global) -> Result<MonthParts, AllocError>
        ensures { IfOk result (AreMonthParts self) }
    {
        let MonthSink {
            day: _day,
            month: _month,
            reconciliation,
            clients,
            client: _client,
            lists,
            day_purged: _day_purged,
            month_purged: _month_purged,
            period: _period,
            acts,
            period_purged,
        } = self;
        let Lists {
            transit,
            outstanding,
            receipts,
            disbursements,
            issued,
        } = lists;
        Ok(MonthParts {
            reconciliation,
            clients,
            transit: named_list(transit)?,
            outstanding: named_list(outstanding)?,
            receipts: named_list(receipts)?,
            disbursements: named_list(disbursements)?,
            approvals: approved_list(alloc, acts, issued)?,
            is_purged: period_purged,
        })
    }
}

impl MatterRowSink for MonthSink {
    ghost taken = { with_month_row };

    fn matter_row(&mut self, matter: MatterNo, row: MatterRow<'_>) -> Result<(), AllocError> {
        match row {
            MatterRow::Head(head) => self.see_head(matter, head),
            MatterRow::Seat(_seat) => Ok(()),
            MatterRow::Entry(number, entry) => self.see_entry(matter, number, entry),
        }
    }
}

impl RowSink<Movement> for MonthSink {
    ghost taken = { with_month_movement };

    fn take(&mut self, movement: &Movement) -> Result<(), AllocError> {
        self.reconciliation.take(movement)
    }
}

impl RowSink<FirmLine> for MonthSink {
    ghost taken = { with_month_own };

    fn take(&mut self, line: &FirmLine) -> Result<(), AllocError> {
        let receipt = name_own(Pick::Receipts(self.month), line)?;
        let disbursement = name_own(Pick::Disbursements(self.month), line)?;
        self.lists.receipts.reserve(1)?;
        self.lists.disbursements.reserve(1)?;
        self.reconciliation.take(line)?;
        self.clients.see_firm_line(line);
        push_some(&mut self.lists.receipts, receipt);
        push_some(&mut self.lists.disbursements, disbursement);
        Ok(())
    }
}
