//! Builds the commands of the program.
ghost use Rattle.std.specs.Prelude.{◌≡◌, ◌++◌, [], ◌∷◌, IfOk, Ok, OnOk, codes, false};
ghost use Rattle.clap.specs.Simple.{on_top};
ghost use Rattle.clap.specs.Words.{app_of, new_app, new_rule, rule_of, with_rule};
ghost use Rattle.clap.specs.declared.builder.command.Command.{Command};
ghost use Rattle.clap.specs.declared.builder.command.Command.TheViews.{out-Command};
ghost use Rattle.fx_command_line.specs.CommandLine.{class_rule, file_rule, limit_rule, links_rule, network_alone, number_alone, once_app, over_answer, over_capture, over_documents, over_network, wants_command};

use crate::help_text;
use clap::{Arg, Command, value_parser};
use std::alloc::{AllocError, Global};

/// The help line of a traffic declaration.
const TRAFFIC: &str = "The traffic declaration (JSON)";

/// Returns the argument of a file that a command requires, with a help line.
fn file<'a>(alloc: Global, name: &'a str, help: &'a str) -> Arg<'a>
    ensures rule { rule_of result ≡ file_rule name.entry.now }
    ensures local { result.global ≡ false }
{
    Arg::new(alloc, name).required(true).help(help)
}

/// Returns the command with one more required file.
fn with_file<'a>(
    alloc: Global,
    command: Command<'a>,
    name: &'a str,
    help: &'a str,
) -> Result<Command<'a>, AllocError>
    requires { (out-Command command).has_globals ≡ false }
    ensures app { IfOk result (λ c. app_of c
        ≡ with_rule (app_of command.entry) (file_rule name.entry.now)) }
    ensures local { IfOk result (λ c. (out-Command c).has_globals ≡ false) }
{
    command.arg(file(alloc, name, help))
}

/// Returns the command with one more optional file.
fn with_choice<'a>(
    alloc: Global,
    command: Command<'a>,
    name: &'a str,
    help: &'a str,
) -> Result<Command<'a>, AllocError>
    requires { (out-Command command).has_globals ≡ false }
    ensures app { IfOk result (λ c. app_of c
        ≡ with_rule (app_of command.entry) (new_rule name.entry.now)) }
    ensures local { IfOk result (λ c. (out-Command c).has_globals ≡ false) }
{
    command.arg(Arg::new(alloc, name).help(help))
}

/// Returns a command that requires a network.
fn network_command<'a>(
    alloc: Global,
    name: &'a str,
    about: &'a str,
    more: &'a str,
) -> Result<Command<'a>, AllocError>
    ensures app { IfOk result (λ c. app_of c ≡ network_alone name.entry.now) }
    ensures local { IfOk result (λ c. (out-Command c).has_globals ≡ false) }
{
    let command = Command::new(alloc, name).about(about).after_help(more);
    with_file(alloc, command, "NETWORK", "The network document (JSON)")
}

/// Returns a command that requires a network and a second file.
fn over_network<'a>(
    alloc: Global,
    name: &'a str,
    about: &'a str,
    more: &'a str,
    second: &'a str,
    help: &'a str,
) -> Result<Command<'a>, AllocError>
    ensures app { IfOk result (λ c. app_of c
        ≡ over_network name.entry.now (file_rule second.entry.now)) }
    ensures local { IfOk result (λ c. (out-Command c).has_globals ≡ false) }
{
    let command = network_command(alloc, name, about, more)?;
    with_file(alloc, command, second, help)
}

/// Returns a command that requires a network and takes an optional traffic declaration.
fn over_traffic_if_given<'a>(
    alloc: Global,
    name: &'a str,
    about: &'a str,
    more: &'a str,
) -> Result<Command<'a>, AllocError>
    ensures app { IfOk result (λ c. app_of c
        ≡ over_network name.entry.now (new_rule (codes "TRAFFIC"))) }
    ensures local { IfOk result (λ c. (out-Command c).has_globals ≡ false) }
{
    let command = network_command(alloc, name, about, more)?;
    with_choice(alloc, command, "TRAFFIC", TRAFFIC)
}

/// Returns a command that requires a network, a traffic declaration and a third file.
fn over_documents<'a>(
    alloc: Global,
    name: &'a str,
    about: &'a str,
    more: &'a str,
    third: &'a str,
    help: &'a str,
) -> Result<Command<'a>, AllocError>
    ensures app { IfOk result (λ c. app_of c
        ≡ over_documents name.entry.now (file_rule third.entry.now)) }
    ensures local { IfOk result (λ c. (out-Command c).has_globals ≡ false) }
{
    let command = over_network(alloc, name, about, more, "TRAFFIC", TRAFFIC)?;
    with_file(alloc, command, third, help)
}

/// Returns the command `replay`.
fn replay_command<'a>(alloc: Global) -> Result<Command<'a>, AllocError>
    ensures app { IfOk result (λ c. app_of c
        ≡ over_documents (codes "replay") (file_rule (codes "RUN"))) }
    ensures local { IfOk result (λ c. (out-Command c).has_globals ≡ false) }
{
    over_documents(
        alloc,
        "replay",
        "Replays a run, and prints the collector's totals in its last state",
        help_text::REPLAY,
        "RUN",
        "The text of a run",
    )
}

/// Returns the command `collect`.
fn collect_command<'a>(alloc: Global) -> Result<Command<'a>, AllocError>
    ensures app { IfOk result (λ c. app_of c
        ≡ over_network (codes "collect") (file_rule (codes "STREAM"))) }
    ensures local { IfOk result (λ c. (out-Command c).has_globals ≡ false) }
{
    over_network(
        alloc,
        "collect",
        "Collects an IPFIX stream, and prints the totals of its flow records",
        help_text::COLLECT,
        "STREAM",
        "The IPFIX stream (messages in octets)",
    )
}

/// Returns the command `check`.
fn check_command<'a>(alloc: Global) -> Result<Command<'a>, AllocError>
    ensures app { IfOk result (λ c. app_of c
        ≡ over_documents (codes "check") (file_rule (codes "CERTIFICATE"))) }
    ensures local { IfOk result (λ c. (out-Command c).has_globals ≡ false) }
{
    over_documents(
        alloc,
        "check",
        "Checks a certificate that the collector's totals count every packet exactly once",
        help_text::CHECK,
        "CERTIFICATE",
        "The text of a certificate",
    )
}

/// Returns the command `confirm`.
fn confirm_command<'a>(alloc: Global) -> Result<Command<'a>, AllocError>
    ensures app { IfOk result (λ c.
        app_of c ≡ over_documents (codes "confirm") (file_rule (codes "REFUTATION"))) }
    ensures local { IfOk result (λ c. (out-Command c).has_globals ≡ false) }
{
    over_documents(
        alloc,
        "confirm",
        "Confirms that a run of one packet shows a wrong total",
        help_text::CONFIRM,
        "REFUTATION",
        "The text of a refutation",
    )
}

/// Returns the option `--limit`, a number from 1 to 1,000,000.
fn limit<'a>(alloc: Global) -> Arg<'a>
    ensures rule { rule_of result ≡ limit_rule }
    ensures local { result.global ≡ false }
{
    Arg::new(alloc, "limit")
        .long("limit")
        .value_name("N")
        .value_parser(value_parser!(u64).range(1..=1_000_000))
        .default_value("1000000")
        .help("The most split and leaf lines of a certificate")
}

/// Returns the command `audit`.
fn audit_command<'a>(alloc: Global) -> Result<Command<'a>, AllocError>
    ensures app { IfOk result (λ c.
        app_of c ≡ with_rule
        (over_network (codes "audit") (file_rule (codes "TRAFFIC"))) limit_rule) }
    ensures local { IfOk result (λ c. (out-Command c).has_globals ≡ false) }
{
    let command = over_network(
        alloc,
        "audit",
        "Searches for a certificate, or for a run of one packet that shows a wrong total",
        help_text::AUDIT,
        "TRAFFIC",
        TRAFFIC,
    )?;
    command.arg(limit(alloc))
}

/// Returns the option `--links`, the prefix of the names of the links' files.
fn links<'a>(alloc: Global) -> Arg<'a>
    ensures rule { rule_of result ≡ links_rule }
    ensures local { result.global ≡ false }
{
    Arg::new(alloc, "links")
        .long("links")
        .value_name("PREFIX")
        .help("Keeps the octets of each link in a file: PREFIX and the link's number")
}

/// Returns the command `run`.
fn run_command<'a>(alloc: Global) -> Result<Command<'a>, AllocError>
    ensures app { IfOk result (λ c. app_of c ≡ with_rule (over_capture (codes "run")) links_rule) }
    ensures local { IfOk result (λ c. (out-Command c).has_globals ≡ false) }
{
    let command = over_documents(
        alloc,
        "run",
        "Runs a network over a capture, and prints the totals of what it metered",
        help_text::RUN,
        "CAPTURE",
        "The capture of frames (pcap)",
    )?;
    let command = with_file(alloc, command, "SCHEDULE", "The text of a schedule")?;
    command.arg(links(alloc))
}

/// Returns the command `lint`.
fn lint_command<'a>(alloc: Global) -> Result<Command<'a>, AllocError>
    ensures app { IfOk result (λ c. app_of c
        ≡ over_network (codes "lint") (new_rule (codes "TRAFFIC"))) }
    ensures local { IfOk result (λ c. (out-Command c).has_globals ≡ false) }
{
    over_traffic_if_given(
        alloc,
        "lint",
        "Says whether a network document, and its traffic, have a fault, and which comes first",
        help_text::LINT,
    )
}

/// Returns the option `--class`, the name of the class whose paths are drawn.
fn class<'a>(alloc: Global) -> Arg<'a>
    ensures rule { rule_of result ≡ class_rule }
    ensures local { result.global ≡ false }
{
    Arg::new(alloc, "class")
        .long("class")
        .value_name("NAME")
        .help("Draws the paths of this class of the traffic alone")
}

/// Returns the command `draw`.
fn draw_command<'a>(alloc: Global) -> Result<Command<'a>, AllocError>
    ensures app { IfOk result (λ c. app_of c
        ≡ with_rule (over_answer (codes "draw")) class_rule) }
    ensures local { IfOk result (λ c. (out-Command c).has_globals ≡ false) }
{
    let command = over_traffic_if_given(
        alloc,
        "draw",
        "Draws a network, its traffic, and what a certificate or a refutation says of them",
        help_text::DRAW,
    )?;
    let command = with_choice(
        alloc,
        command,
        "ANSWER",
        "The text of a certificate or a refutation",
    )?;
    command.arg(class(alloc))
}

/// Returns the command `sum`.
fn sum_command<'a>(alloc: Global) -> Result<Command<'a>, AllocError>
    ensures app { IfOk result (λ c. app_of c
        ≡ over_network (codes "sum") (file_rule (codes "TOTALS"))) }
    ensures local { IfOk result (λ c. (out-Command c).has_globals ≡ false) }
{
    over_network(
        alloc,
        "sum",
        "Adds up totals of one report that were collected apart",
        help_text::SUM,
        "TOTALS",
        "The texts of totals, one after another",
    )
}

/// Returns the command `join`.
fn join_command<'a>(alloc: Global) -> Result<Command<'a>, AllocError>
    ensures app { IfOk result (λ c. app_of c
        ≡ over_documents (codes "join") (file_rule (codes "PARTS"))) }
    ensures local { IfOk result (λ c. (out-Command c).has_globals ≡ false) }
{
    over_documents(
        alloc,
        "join",
        "Joins certified parts of a network: decides whether they certify the whole",
        help_text::JOIN,
        "PARTS",
        "The bundles of the parts, one after another",
    )
}

/// Returns the command `explain`.
fn explain_command<'a>(alloc: Global) -> Result<Command<'a>, AllocError>
    ensures app { IfOk result (λ c. app_of c ≡ number_alone (codes "explain")) }
    ensures local { IfOk result (λ c. (out-Command c).has_globals ≡ false) }
{
    let command = Command::new(alloc, "explain")
        .about("Explains the refusals of a number, or lists all numbers")
        .after_help(help_text::EXPLAIN);
    with_file(
        alloc,
        command,
        "NUMBER",
        "A number as `refused` and `no` print it, or `all`",
    )
}

/// Returns the program without its commands.
fn program<'a>(alloc: Global) -> Command<'a>
    ensures { app_of result ≡ on_top wants_command (new_app (codes "once")) }
{
    Command::new(alloc, "once")
        .about("An auditor for IP flow metering")
        .version(help_text::VERSION)
        .after_help(help_text::PROGRAM)
        .subcommand_required(true)
}

/// Appends a command, or fails like the call that made it. Also fails if out of memory.
fn add<'a>(
    commands: &mut Vec<Command<'a>>,
    command: Result<Command<'a>, AllocError>,
) -> Result<(), AllocError>
    ensures { OnOk result ((added : Command) × (command.entry ≡ Ok added)
        × (commands.new.items ≡ commands.old.items ++ (added ∷ []))) }
{
    commands.push(command?)?;
    Ok(())
}

/// Returns the program with all its commands.
pub(crate) fn command_line<'a>(alloc: Global) -> Result<Command<'a>, AllocError>
    ensures { IfOk result (λ c. app_of c ≡ once_app) }
{
    let mut commands = Vec::new(alloc);
    add(&mut commands, replay_command(alloc))?;
    add(&mut commands, collect_command(alloc))?;
    add(&mut commands, check_command(alloc))?;
    add(&mut commands, confirm_command(alloc))?;
    add(&mut commands, audit_command(alloc))?;
    add(&mut commands, run_command(alloc))?;
    add(&mut commands, lint_command(alloc))?;
    add(&mut commands, draw_command(alloc))?;
    add(&mut commands, sum_command(alloc))?;
    add(&mut commands, join_command(alloc))?;
    add(&mut commands, explain_command(alloc))?;
    program(alloc).subcommands(commands)
}
