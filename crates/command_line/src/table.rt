// The commands, and how each is typed.

ghost use Rattle.std.specs.Prelude.{◌≡◌, ◌≢◌, ◌⊎◌, IfNone, IfSome, true};
ghost use Rattle.command_line.specs.Program.{words_of};
ghost use Rattle.command_line.specs.Table.{are_operands_required, command_example, command_operands, command_text, command_usage};
ghost use Rattle.command_line.specs.declared.table.CommandName.{CommandName};

use trust_desk::{DayReport, PeriodReport, TodayReport};

/// The commands.
#[derive(Clone, Copy)]
pub enum CommandName {
    /// Run a day sheet.
    Sheet,
    /// Import a bank statement.
    Import,
    /// Match a bank statement against the book.
    Match,
    /// Serve the messages of standard input.
    Stream,
    /// Serve the clients of a port.
    Serve,
    /// Check the book's rows.
    Check,
    /// Print this report as of a day.
    AsOf(DayReport),
    /// Print this report of a period.
    Within(PeriodReport),
    /// Print this report on the business day. That of the firm's own ledger is `ledger`, which also prints a matter's
    /// card, and `trail` prints that of a matter too.
    Today(TodayReport),
    /// Print a client's statement of account for a period.
    Account,
}

/// The commands, in the order of the command line.
pub(crate) const COMMANDS: &[CommandName] = &[
    CommandName::Sheet,
    CommandName::Import,
    CommandName::Match,
    CommandName::Stream,
    CommandName::Serve,
    CommandName::Check,
    CommandName::AsOf(DayReport::Reconciliation),
    CommandName::AsOf(DayReport::Clients),
    CommandName::AsOf(DayReport::Outstanding),
    CommandName::Within(PeriodReport::Receipts),
    CommandName::Within(PeriodReport::Disbursements),
    CommandName::Within(PeriodReport::Approvals),
    CommandName::AsOf(DayReport::Month),
    CommandName::Today(TodayReport::Trial),
    CommandName::Today(TodayReport::Journal),
    CommandName::Today(TodayReport::Retention),
    CommandName::Today(TodayReport::Exceptions),
    CommandName::Today(TodayReport::OwnLedger),
    CommandName::Account,
    CommandName::Today(TodayReport::Trail),
];

const NO_OPERAND: &[&str] = &[];

const FILE: &[&str] = &["FILE"];

const PORT_AND_COUNT: &[&str] = &["PORT", "COUNT"];

const DAY: &[&str] = &["DAY"];

const PERIOD: &[&str] = &["FROM", "TO"];

const MATTER: &[&str] = &["MATTER"];

const MATTER_AND_PERIOD: &[&str] = &["MATTER", "FROM", "TO"];

/// How a command is typed.
#[derive(Clone, Copy)]
pub(crate) struct CommandForm<'a> {
    /// Its name.
    pub(crate) name: &'a str,
    /// The names of its operands.
    pub(crate) operands: &'a [&'a str],
    /// Whether they have to be given.
    pub(crate) are_required: bool,
    /// How a usage has it.
    pub(crate) usage: &'a str,
    /// The command as it may be typed.
    pub(crate) example: &'a str,
}

fn form<'a>(
    name: &'a str,
    operands: &'a [&'a str],
    usage: &'a str,
    example: &'a str,
) -> CommandForm<'a>
    ensures { result
        ≡ record {
          name = name.entry;
          operands = operands.entry;
          are_required = true;
          usage = usage.entry;
          example = example.entry;
        } }
{
    CommandForm {
        name,
        operands,
        are_required: true,
        usage,
        example,
    }
}

/// Returns how a command is typed.
pub(crate) fn form_of<'a>(command: CommandName) -> CommandForm<'a>
    ensures name { result.name.now ≡ command_text command }
    ensures operands { words_of result.operands.now ≡ command_operands command }
    ensures required { result.are_required ≡ are_operands_required command }
    ensures usage { result.usage.now ≡ command_usage (Some command) }
    ensures example { result.example.now ≡ command_example (Some command) }
{
    match command {
        CommandName::Sheet => form("sheet", NO_OPERAND, "sheet", "sheet < day.csv"),
        CommandName::Import => form("import", FILE, "import FILE", "import statement.csv"),
        CommandName::Match => form(
            "match",
            FILE,
            "match FILE",
            "match bank.csv > statement.csv",
        ),
        CommandName::Stream => form("stream", NO_OPERAND, "stream", "stream < messages.http"),
        CommandName::Serve => form(
            "serve",
            PORT_AND_COUNT,
            "serve PORT COUNT",
            "serve 8080 100",
        ),
        CommandName::Check => form("check", NO_OPERAND, "check", "check"),
        CommandName::AsOf(DayReport::Reconciliation) => form(
            "reconcile",
            DAY,
            "reconcile DAY",
            "reconcile 2026-03-31",
        ),
        CommandName::AsOf(DayReport::Clients) => form(
            "clients",
            DAY,
            "clients DAY",
            "clients 2026-03-31",
        ),
        CommandName::AsOf(DayReport::Outstanding) => form(
            "outstanding",
            DAY,
            "outstanding DAY",
            "outstanding 2026-03-31",
        ),
        CommandName::Within(PeriodReport::Receipts) => form(
            "receipts",
            PERIOD,
            "receipts FROM TO",
            "receipts 2026-03-01 2026-03-31",
        ),
        CommandName::Within(PeriodReport::Disbursements) => form(
            "disbursements",
            PERIOD,
            "disbursements FROM TO",
            "disbursements 2026-03-01 2026-03-31",
        ),
        CommandName::Within(PeriodReport::Approvals) => form(
            "approvals",
            PERIOD,
            "approvals FROM TO",
            "approvals 2026-03-01 2026-03-31",
        ),
        CommandName::AsOf(DayReport::Month) => form("month", DAY, "month DAY", "month 2026-03-31"),
        CommandName::Today(TodayReport::Trial) => form("trial", NO_OPERAND, "trial", "trial"),
        CommandName::Today(TodayReport::Journal) => form(
            "journal", NO_OPERAND, "journal", "journal",
        ),
        CommandName::Today(TodayReport::Retention) => form(
            "retention",
            NO_OPERAND,
            "retention",
            "retention",
        ),
        CommandName::Today(TodayReport::Exceptions) => form(
            "exceptions",
            NO_OPERAND,
            "exceptions",
            "exceptions",
        ),
        CommandName::Today(TodayReport::OwnLedger) => form(
            "ledger",
            MATTER,
            "ledger MATTER|FIRM",
            "ledger 000001",
        ),
        CommandName::Account => form(
            "account",
            MATTER_AND_PERIOD,
            "account MATTER FROM TO",
            "account 000001 2026-03-01 2026-03-31",
        ),
        CommandName::Today(TodayReport::Trail) => CommandForm {
            are_required: false,
            ..form("trail", MATTER, "trail [MATTER]", "trail 000001")
        },
    }
}

/// Returns the command with this name.
pub fn command_called(name: &str) -> Option<CommandName>
    ensures some { IfSome result (λ command. name.now ≡ command_text command) }
    ensures none { IfNone result ((command : CommandName) → name.now ≢ command_text command) }
{
    for command in COMMANDS {
        if form_of(*command).name == name {
            return Some(*command);
        }
    }
    None
}

/// Returns how a command is written after the options; without one, how each is.
pub(crate) fn usage_of(command: Option<CommandName>) -> &'static str
    ensures { result.now ≡ command_usage command }
{
    match command {
        None =>
            "(sheet | import FILE | match FILE | stream | serve PORT COUNT | reconcile DAY | clients DAY | \
            outstanding DAY | receipts FROM TO | disbursements FROM TO | approvals FROM TO | month DAY | \
            trial | journal | retention | exceptions | ledger MATTER|FIRM | \
            account MATTER FROM TO | trail [MATTER] | check)",
        Some(command) => form_of(command).usage,
    }
}

/// Returns an example of a command; without one, of that which is asked for most.
pub(crate) fn example_of(command: Option<CommandName>) -> &'static str
    ensures { result.now ≡ command_example command }
{
    match command {
        None => "reconcile 2026-03-31",
        Some(command) => form_of(command).example,
    }
}
