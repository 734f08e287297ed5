//! Checking of a certificate, line by line.
ghost use Rattle.std.specs.Prelude.{◌≡◌, ◌⊎◌, ◌≤◌, IfErr, OnOk, length};
ghost use Rattle.fx_base.specs.Fault.{IsMemory};
ghost use Rattle.fx_leaf.specs.PathTables.{HasProcessRoom};
ghost use Rattle.fx_leaf.specs.Tables.{AreTables};
ghost use Rattle.fx_machine.specs.Claim.{ExactlyOnce, OnceModulo};
ghost use Rattle.fx_base.specs.Lines.{Fails};
ghost use Rattle.fx_plan.specs.Tables.{net_of};
ghost use Rattle.fx_check.specs.Outcomes.{IsReportedBy, Accepts, MayBeAccepted, MayBeCertificate, MayBeRefused};
ghost use Rattle.fx_check.specs.Remaining.{goals, HasRooms, IsConsistent, IsReady};
ghost use Rattle.fx_traffic.specs.Targets.{targets_of};
ghost use Rattle.fx_check.specs.FirstRefusal.{whole};
ghost use Rattle.fx_check.specs.Stops.{IsStop, state_of};

use crate::checker::Checker;
use crate::progress::Progress;
use crate::watch::{CheckWatch, Unwatched};
use fx_base::{Fault, LineReader, Place, Source};
use fx_leaf::{PathScratch, Tables};
use fx_plan::Plan;
use fx_traffic::{Target, Traffic};
use std::alloc::Global;

/// Takes all lines, beginning with the first line of a certificate.
pub(crate) fn take_lines<'t, R: Source>(
    progress: &mut Progress,
    scratch: &mut PathScratch<'t>,
    tables: &Tables<'t>,
    targets: &[Target<'_>],
    lines: &mut LineReader<R>,
) -> Result<(), Fault>
    requires tables { AreTables tables.now }
    requires ready { IsReady tables.now targets.now progress.old scratch.old }
    requires consistent { IsConsistent targets.now progress.old }
    requires made { progress.old.made ≡ 0 }
    requires goals { goals targets.now progress.old ≡ whole targets.now }
    ensures ok { OnOk result (MayBeAccepted tables.now.net targets.now lines.old) }
    ensures err { IfErr result (λ e. Fails lines.old lines.new e
        ⊎ MayBeRefused tables.now.net targets.now lines.old lines.new e) }
    ensures stops { IfErr result (IsStop lines.old lines.new
        (state_of tables.now.net targets.now progress.new)) }
    ensures numbers { IfErr result (IsReportedBy lines.old) }
    ensures ready { IsReady tables.now targets.now progress.new scratch.new }
    ensures consistent { IsConsistent targets.now progress.new }
{
    'lines: loop {
        if !lines.advance()? {
            return progress.end(targets, lines.number());
        }
        if let Err(fault) = progress.take(scratch, tables, targets, &lines.line()) {
            return Err(Fault::at_line(fault.number(), lines.number()));
        }
    }
}

/// Makes room for the selection processes of each target's path. Fails with 900 if out of memory.
pub(crate) fn make_room(
    scratch: &mut PathScratch<'_>,
    tables: &Tables<'_>,
    targets: &[Target<'_>],
) -> Result<(), Fault>
    requires room { HasProcessRoom tables.now scratch.old }
    ensures rooms { OnOk result (HasRooms tables.now targets.now scratch.new) }
    ensures room { HasProcessRoom tables.now scratch.new }
    ensures err { IfErr result IsMemory }
{
    for index in 0..targets.len() {
        let target = &targets[index];
        scratch.reserve(tables, target.crossings)?;
    }
    Ok(())
}

/// Reports to an observer where a certificate is refused.
fn show_refusal<R: Source, W: CheckWatch>(
    checker: &Checker<'_>,
    lines: &LineReader<R>,
    outcome: &Result<(), Fault>,
    watch: &mut W,
) {
    let Err(fault) = outcome else {
        return;
    };
    let line = lines.line();
    let there = if fault.place == Place::Line(line.number) {
        Some(&line)
    } else {
        None
    };
    watch.on_refused(&checker.due(), there, fault);
}

/// Checks the text of a certificate, which begins with the reader's next line, and returns `Ok` if it is accepted. Then
/// each packet of the traffic, on any of its class's paths, is counted exactly once by every complete run of the
/// network, and never if its class is exempt.
///
/// The text is a line `once-certificate 1`; for each path of each class, in order, a line `class CLASS PATH` and a
/// tree; and a line `end`. A tree is a leaf, `L CROSSING POINT PROCESS`, or a split, `S AXIS AT`, followed by the tree
/// of the values below `AT` and that of the values from `AT` on. After a first line `once-certificate 2` the leaves of
/// exempt classes are `N`: none of the packets is counted.
///
/// The text is read once, a line at a time. All memory is allocated before the first line is read: 900, at no place,
/// leaves the reader as it was. Otherwise it fails at the first line where something is wrong, and the reader continues
/// after that line. Each line is checked for the following, in this order: 901, at no place, and 903 are the reader's;
/// 405 the text ends before `end`, or inside the line (at the text's end the place is the number of lines, plus 1); 411
/// a line after `end`; 401 the first line isn't the one above; 402 a later line is no item's text; 403 an item isn't in
/// its place, or a leaf is of another kind than its class requires; 414 more than 1,000,000 split and leaf lines; for a
/// split 412, deeper than 511, where the first has depth 0, then 404, not strictly inside its region; for a leaf 406,
/// 413, 409, 408 and 407, as [`fate`](fx_leaf::fate) returns them, then 410, another selection process than the one
/// that counts.
pub fn check<R: Source>(
    alloc: Global,
    plan: &Plan,
    traffic: &Traffic,
    lines: &mut LineReader<R>,
) -> Result<(), Fault>
    // Each packet is counted once, and those of exempt classes never.
    ensures once { OnOk result (ExactlyOnce (net_of plan.now) traffic.now) }
    // However large the sums are, the totals are the plain sums modulo 2 to the 64.
    ensures modulo { OnOk result (OnceModulo (net_of plan.now) traffic.now) }
    // The text is that of a sound certificate.
    ensures certificate { OnOk result (MayBeCertificate (net_of plan.now) traffic.now lines.old) }
    ensures ok { OnOk result (MayBeAccepted (net_of plan.now) (targets_of traffic.now) lines.old) }
    ensures err { IfErr result (λ e. (IsMemory e × (lines.new ≡ lines.old))
        ⊎ (Fails lines.old lines.new e
        ⊎ MayBeRefused (net_of plan.now) (targets_of traffic.now) lines.old lines.new e)) }
    // No such certificate is refused: if its text is read, only a lack of memory or a failed read stops the check.
    ensures accepts { IfErr result (Accepts (net_of plan.now) traffic.now lines.old lines.new) }
    // Whatever bytes the reader gives: 900 or 901, 903 at a line, or 401 to 415 at a line.
    ensures numbers { IfErr result (IsReportedBy lines.old) }
{
    check_watched(alloc, plan, traffic, lines, &mut Unwatched)
}

/// Checks the text of a certificate like [`check`], and reports to an observer where it is refused. The result is the
/// same for every observer.
pub fn check_watched<R: Source, W: CheckWatch>(
    alloc: Global,
    plan: &Plan,
    traffic: &Traffic,
    lines: &mut LineReader<R>,
    watch: &mut W,
) -> Result<(), Fault>
    ensures once { OnOk result (ExactlyOnce (net_of plan.now) traffic.now) }
    ensures modulo { OnOk result (OnceModulo (net_of plan.now) traffic.now) }
    ensures certificate { OnOk result (MayBeCertificate (net_of plan.now) traffic.now lines.old) }
    ensures ok { OnOk result (MayBeAccepted (net_of plan.now) (targets_of traffic.now) lines.old) }
    ensures err { IfErr result (λ e. (IsMemory e × (lines.new ≡ lines.old))
        ⊎ (Fails lines.old lines.new e
        ⊎ MayBeRefused (net_of plan.now) (targets_of traffic.now) lines.old lines.new e)) }
    ensures accepts { IfErr result (Accepts (net_of plan.now) traffic.now lines.old lines.new) }
    ensures numbers { IfErr result (IsReportedBy lines.old) }
{
    let mut checker = Checker::new(alloc, plan, traffic)?;
    let outcome = checker.take_all(lines);
    show_refusal(&checker, lines, &outcome, watch);
    outcome
}
