//! Parses the program's arguments.
ghost use Rattle.std.specs.Prelude.{◌≡◌, ◌⊎◌, ℕ, IfErr, IfOk, List, MatchResult, codes, map, option_map, string_bytes};
ghost use Rattle.clap.specs.Words.{fault_of, found_of, HasKind, kind_of, Text};
ghost use Rattle.fx_command_line.specs.CommandLine.{AreMatchesOf, once_app};
ghost use Rattle.fx_command_line.specs.Matches.{HoldsFile, HoldsLimit, HoldsOption, IsAuditOf, IsCheckOf, IsCollectOf, IsConfirmOf, IsDrawOf, HasFile, IsExplainOf, IsJoinOf, IsLintOf, IsReplayOf, IsRunCall, IsSumOf};
ghost use Rattle.fx_command_line.specs.Words.{Names, NamesNoCall};

use crate::commands::command_line;
use clap::error::ErrorKind;
use clap::{ArgMatches, Error};
use std::alloc::{AllocError, Global};

/// A command with its arguments.
#[derive(Debug)]
pub enum Call {
    /// Replays a run of a network over declared traffic.
    Replay {
        /// The network document.
        network: String,
        /// The traffic declaration.
        traffic: String,
        /// The run's text.
        run: String,
    },
    /// Collects an IPFIX stream for the report of a network.
    Collect {
        /// The network document.
        network: String,
        /// The IPFIX stream.
        stream: String,
    },
    /// Checks a certificate of a network over declared traffic.
    Check {
        /// The network document.
        network: String,
        /// The traffic declaration.
        traffic: String,
        /// The certificate's text.
        certificate: String,
    },
    /// Confirms that a refutation of a network over declared traffic shows a wrong total.
    Confirm {
        /// The network document.
        network: String,
        /// The traffic declaration.
        traffic: String,
        /// The refutation's text.
        refutation: String,
    },
    /// Audits a network over declared traffic.
    Audit {
        /// The network document.
        network: String,
        /// The traffic declaration.
        traffic: String,
        /// The most split and leaf lines of a certificate, from 1 to 1,000,000.
        limit: u64,
    },
    /// Runs a network over a capture, as a schedule says.
    Run {
        /// The network document.
        network: String,
        /// The traffic declaration.
        traffic: String,
        /// The capture of frames.
        capture: String,
        /// The schedule's text.
        schedule: String,
        /// The prefix of the names of the links' files, if the links are kept.
        links: Option<String>,
    },
    /// Reports whether a network document, and a traffic declaration for it if one is given, have a fault.
    Lint {
        /// The network document.
        network: String,
        /// The traffic declaration, if one is given.
        traffic: Option<String>,
    },
    /// Draws a network as a graph.
    Draw {
        /// The network document.
        network: String,
        /// The traffic declaration, if one is given.
        traffic: Option<String>,
        /// The text of a certificate or a refutation, if one is given.
        answer: Option<String>,
        /// The name of the class whose paths are drawn; if none is given, those of all classes are.
        class: Option<String>,
    },
    /// Adds totals up.
    Sum {
        /// The network document.
        network: String,
        /// The texts of totals, one after another.
        totals: String,
    },
    /// Joins certified parts of a network: decides whether they certify the whole.
    Join {
        /// The network document of the whole.
        network: String,
        /// The traffic declaration of the whole.
        traffic: String,
        /// The bundles of the parts, one after another.
        parts: String,
    },
    /// Explains the refusals of a number.
    Explain {
        /// The number in decimal digits, or `all`.
        number: String,
    },
}

impl Drop for Call {
    /// Drops its arguments here, so that each drop elsewhere is one call.
    fn drop(self) {
        match self {
            Call::Replay {
                network: _,
                traffic: _,
                run: _,
            } => {}
            Call::Collect {
                network: _,
                stream: _,
            } => {}
            Call::Check {
                network: _,
                traffic: _,
                certificate: _,
            } => {}
            Call::Confirm {
                network: _,
                traffic: _,
                refutation: _,
            } => {}
            Call::Audit {
                network: _,
                traffic: _,
                limit: _,
            } => {}
            Call::Run {
                network: _,
                traffic: _,
                capture: _,
                schedule: _,
                links: _,
            } => {}
            Call::Lint {
                network: _,
                traffic: _,
            } => {}
            Call::Draw {
                network: _,
                traffic: _,
                answer: _,
                class: _,
            } => {}
            Call::Sum {
                network: _,
                totals: _,
            } => {}
            Call::Join {
                network: _,
                traffic: _,
                parts: _,
            } => {}
            Call::Explain { number: _ } => {}
        }
    }
}

/// Returns the file name that is given for a required argument.
fn file_name(alloc: Global, matches: &ArgMatches<'_>, id: &str) -> Result<String, AllocError>
    requires { HasFile (found_of matches.now) id.now }
    ensures { IfOk result (λ name. HoldsFile (found_of matches.now) id.now (string_bytes name)) }
{
    String::from_str(alloc, matches.get_str(id).unwrap())
}

/// Returns the call of `replay`, given the matches of its arguments.
fn replay_call(alloc: Global, matches: &ArgMatches<'_>) -> Result<Call, AllocError>
    requires { HasFile (found_of matches.now) (codes "NETWORK")
        × HasFile (found_of matches.now) (codes "TRAFFIC")
        × HasFile (found_of matches.now) (codes "RUN") }
    ensures { IfOk result (IsReplayOf (found_of matches.now)) }
{
    Ok(Call::Replay {
        network: file_name(alloc, matches, "NETWORK")?,
        traffic: file_name(alloc, matches, "TRAFFIC")?,
        run: file_name(alloc, matches, "RUN")?,
    })
}

/// Returns the call of `collect`, given the matches of its arguments.
fn collect_call(alloc: Global, matches: &ArgMatches<'_>) -> Result<Call, AllocError>
    requires { HasFile (found_of matches.now) (codes "NETWORK")
        × HasFile (found_of matches.now) (codes "STREAM") }
    ensures { IfOk result (IsCollectOf (found_of matches.now)) }
{
    Ok(Call::Collect {
        network: file_name(alloc, matches, "NETWORK")?,
        stream: file_name(alloc, matches, "STREAM")?,
    })
}

/// Returns the call of `check`, given the matches of its arguments.
fn check_call(alloc: Global, matches: &ArgMatches<'_>) -> Result<Call, AllocError>
    requires { HasFile (found_of matches.now) (codes "NETWORK")
        × HasFile (found_of matches.now) (codes "TRAFFIC")
        × HasFile (found_of matches.now) (codes "CERTIFICATE") }
    ensures { IfOk result (IsCheckOf (found_of matches.now)) }
{
    Ok(Call::Check {
        network: file_name(alloc, matches, "NETWORK")?,
        traffic: file_name(alloc, matches, "TRAFFIC")?,
        certificate: file_name(alloc, matches, "CERTIFICATE")?,
    })
}

/// Returns the call of `confirm`, given the matches of its arguments.
fn confirm_call(alloc: Global, matches: &ArgMatches<'_>) -> Result<Call, AllocError>
    requires { HasFile (found_of matches.now) (codes "NETWORK")
        × HasFile (found_of matches.now) (codes "TRAFFIC")
        × HasFile (found_of matches.now) (codes "REFUTATION") }
    ensures { IfOk result (IsConfirmOf (found_of matches.now)) }
{
    Ok(Call::Confirm {
        network: file_name(alloc, matches, "NETWORK")?,
        traffic: file_name(alloc, matches, "TRAFFIC")?,
        refutation: file_name(alloc, matches, "REFUTATION")?,
    })
}

/// Returns the limit of an audit, given the matches of its arguments.
fn limit_of(matches: &ArgMatches<'_>) -> u64
    requires { (n : ℕ) × HoldsLimit (found_of matches.now) n }
    ensures { HoldsLimit (found_of matches.now) result }
{
    matches.get_one::<u64>("limit").unwrap()
}

/// Returns the call of `audit`, given the matches of its arguments.
fn audit_call(alloc: Global, matches: &ArgMatches<'_>) -> Result<Call, AllocError>
    requires { HasFile (found_of matches.now) (codes "NETWORK")
        × HasFile (found_of matches.now) (codes "TRAFFIC")
        × ((n : ℕ) × HoldsLimit (found_of matches.now) n) }
    ensures { IfOk result (IsAuditOf (found_of matches.now)) }
{
    Ok(Call::Audit {
        network: file_name(alloc, matches, "NETWORK")?,
        traffic: file_name(alloc, matches, "TRAFFIC")?,
        limit: limit_of(matches),
    })
}

/// Returns the text that is given for an optional argument, if it is set.
fn text_of(alloc: Global, matches: &ArgMatches<'_>, id: &str) -> Result<Option<String>, AllocError>
    ensures { IfOk result (λ text.
        HoldsOption (found_of matches.now) id.now (option_map string_bytes text)) }
{
    match matches.get_str(id) {
        Some(text) => Ok(Some(String::from_str(alloc, text)?)),
        None => Ok(None),
    }
}

/// Returns the call of `run`, given the matches of its arguments.
fn run_call(alloc: Global, matches: &ArgMatches<'_>) -> Result<Call, AllocError>
    requires { HasFile (found_of matches.now) (codes "NETWORK")
        × HasFile (found_of matches.now) (codes "TRAFFIC")
        × HasFile (found_of matches.now) (codes "CAPTURE")
        × HasFile (found_of matches.now) (codes "SCHEDULE") }
    ensures { IfOk result (IsRunCall (found_of matches.now)) }
{
    Ok(Call::Run {
        network: file_name(alloc, matches, "NETWORK")?,
        traffic: file_name(alloc, matches, "TRAFFIC")?,
        capture: file_name(alloc, matches, "CAPTURE")?,
        schedule: file_name(alloc, matches, "SCHEDULE")?,
        links: text_of(alloc, matches, "links")?,
    })
}

/// Returns the call of `lint`, given the matches of its arguments.
fn lint_call(alloc: Global, matches: &ArgMatches<'_>) -> Result<Call, AllocError>
    requires { HasFile (found_of matches.now) (codes "NETWORK") }
    ensures { IfOk result (IsLintOf (found_of matches.now)) }
{
    Ok(Call::Lint {
        network: file_name(alloc, matches, "NETWORK")?,
        traffic: text_of(alloc, matches, "TRAFFIC")?,
    })
}

/// Returns the call of `draw`, given the matches of its arguments.
fn draw_call(alloc: Global, matches: &ArgMatches<'_>) -> Result<Call, AllocError>
    requires { HasFile (found_of matches.now) (codes "NETWORK") }
    ensures { IfOk result (IsDrawOf (found_of matches.now)) }
{
    Ok(Call::Draw {
        network: file_name(alloc, matches, "NETWORK")?,
        traffic: text_of(alloc, matches, "TRAFFIC")?,
        answer: text_of(alloc, matches, "ANSWER")?,
        class: text_of(alloc, matches, "class")?,
    })
}

/// Returns the call of `sum`, given the matches of its arguments.
fn sum_call(alloc: Global, matches: &ArgMatches<'_>) -> Result<Call, AllocError>
    requires { HasFile (found_of matches.now) (codes "NETWORK")
        × HasFile (found_of matches.now) (codes "TOTALS") }
    ensures { IfOk result (IsSumOf (found_of matches.now)) }
{
    Ok(Call::Sum {
        network: file_name(alloc, matches, "NETWORK")?,
        totals: file_name(alloc, matches, "TOTALS")?,
    })
}

/// Returns the call of `join`, given the matches of its arguments.
fn join_call(alloc: Global, matches: &ArgMatches<'_>) -> Result<Call, AllocError>
    requires { HasFile (found_of matches.now) (codes "NETWORK")
        × HasFile (found_of matches.now) (codes "TRAFFIC")
        × HasFile (found_of matches.now) (codes "PARTS") }
    ensures { IfOk result (IsJoinOf (found_of matches.now)) }
{
    Ok(Call::Join {
        network: file_name(alloc, matches, "NETWORK")?,
        traffic: file_name(alloc, matches, "TRAFFIC")?,
        parts: file_name(alloc, matches, "PARTS")?,
    })
}

/// Returns the call of `explain`, given the matches of its arguments.
fn explain_call(alloc: Global, matches: &ArgMatches<'_>) -> Result<Call, AllocError>
    requires { HasFile (found_of matches.now) (codes "NUMBER") }
    ensures { IfOk result (IsExplainOf (found_of matches.now)) }
{
    Ok(Call::Explain {
        number: file_name(alloc, matches, "NUMBER")?,
    })
}

/// Returns the call that the matches of the program's arguments name.
fn call_of(alloc: Global, matches: &ArgMatches<'_>) -> Result<Call, AllocError>
    requires { (words : List Text) × AreMatchesOf words matches.now }
    ensures { (words : List Text) → AreMatchesOf words matches.now → IfOk result (Names words) }
{
    if let Some(collect) = matches.subcommand_matches("collect") {
        return collect_call(alloc, collect);
    }
    if let Some(check) = matches.subcommand_matches("check") {
        return check_call(alloc, check);
    }
    if let Some(confirm) = matches.subcommand_matches("confirm") {
        return confirm_call(alloc, confirm);
    }
    if let Some(audit) = matches.subcommand_matches("audit") {
        return audit_call(alloc, audit);
    }
    if let Some(run) = matches.subcommand_matches("run") {
        return run_call(alloc, run);
    }
    if let Some(lint) = matches.subcommand_matches("lint") {
        return lint_call(alloc, lint);
    }
    if let Some(draw) = matches.subcommand_matches("draw") {
        return draw_call(alloc, draw);
    }
    if let Some(sum) = matches.subcommand_matches("sum") {
        return sum_call(alloc, sum);
    }
    if let Some(join) = matches.subcommand_matches("join") {
        return join_call(alloc, join);
    }
    if let Some(explain) = matches.subcommand_matches("explain") {
        return explain_call(alloc, explain);
    }
    replay_call(alloc, matches.subcommand_matches("replay").unwrap())
}

/// Returns the call that the arguments name. The first of them is the program's own name.
///
/// Fails with clap's error, whose text is for the user, also if they ask for help. If the arguments name a call, it
/// fails only if out of memory (`ErrorKind::OutOfMemory`).
pub fn read_words(alloc: Global, words: &[String]) -> Result<Call, Error>
    ensures call { MatchResult result (Names (map string_bytes words.now))
        (λ e. (kind_of e ≡ ErrorKind.OutOfMemory)
        ⊎ NamesNoCall (map string_bytes words.now)) }
    ensures kinds { IfErr result (HasKind (fault_of once_app (map string_bytes words.now))) }
{
    let call = {
        let matches = command_line(alloc)?.try_get_matches_from(words)?;
        call_of(alloc, &matches)
    };
    Ok(call?)
}
