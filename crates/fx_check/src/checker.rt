//! A checker of certificates that reports what was due where it stops.
ghost use Rattle.std.specs.Prelude.{◌≡◌, ◌⊎◌, IfOk, IfErr, OnOk};
ghost use Rattle.fx_base.specs.Fault.{IsMemory};
ghost use Rattle.fx_base.specs.Lines.{Fails};
ghost use Rattle.fx_tables.specs.Ranks.{IsNetwork};
ghost use Rattle.fx_plan.specs.Tables.{net_of};
ghost use Rattle.fx_traffic.specs.Targets.{AreRegions, targets_of};
ghost use Rattle.fx_check.specs.Outcomes.{IsReportedBy, MayBeAccepted, MayBeRefused};
ghost use Rattle.fx_check.specs.Stops.{IsBeforeFirst, IsDue, IsStop};

use crate::checking::{make_room, take_lines};
use crate::due::Due;
use crate::progress::Progress;
use crate::tables::tables_of;
use fx_base::{Fault, LineReader, Source};
use fx_leaf::{PathScratch, Tables};
use fx_plan::Plan;
use fx_traffic::{Target, Traffic};
use std::alloc::Global;
use std::marker::Model;

/// A checker of one certificate. After a refusal it is as it was before the refused line, and [`due`](Checker::due)
/// returns what that line had to be.
pub struct Checker<'a> {
    tables: Tables<'a>,
    targets: Vec<Target<'a>>,
    scratch: PathScratch<'a>,
    progress: Progress,
}

impl Drop for Checker<'_> {
    /// Drops its parts here, so that each drop elsewhere is one call.
    fn drop(self) {
        let Self {
            tables: _,
            targets: _,
            scratch: _,
            progress: _,
        } = self;
    }
}

impl<'a> Model for Checker<'a> {
    ghost use Rattle.fx_leaf.specs.Tables.{AreTables};
    ghost use Rattle.fx_check.specs.Remaining.{IsConsistent, IsReady};
    ghost use Rattle.fx_check.specs.Stops.{CheckerState, state_of};

    ghost Value = { CheckerState };

    ghost view = { λ c. state_of c.tables.net c.targets.items c.progress };

    ghost invariant = { λ c. AreTables c.tables
        × IsReady c.tables c.targets.items c.progress c.scratch
        × IsConsistent c.targets.items c.progress };
}

impl<'a> Checker<'a> {
    /// Creates a checker for a certificate of this traffic, before its first line.
    ///
    /// Fails with 900, at no place, if out of memory. No later call allocates.
    pub fn new(alloc: Global, plan: &'a Plan, traffic: &'a Traffic) -> Result<Checker<'a>, Fault>
        ensures net { IfOk result (λ c. c.net ≡ net_of plan.now) }
        ensures targets { IfOk result (λ c. c.targets ≡ targets_of traffic.now) }
        ensures first { IfOk result IsBeforeFirst }
        ensures network { OnOk result (IsNetwork (net_of plan.now)) }
        ensures regions { OnOk result (AreRegions (targets_of traffic.now)) }
        ensures err { IfErr result IsMemory }
    {
        let tables = tables_of(plan);
        let targets = traffic.targets(alloc)?;
        let mut scratch = PathScratch::new(alloc, &tables)?;
        make_room(&mut scratch, &tables, targets.as_slice())?;
        let progress = Progress::new(alloc)?;
        Ok(Checker {
            tables,
            targets,
            scratch,
            progress,
        })
    }

    /// Takes all lines of a certificate, like [`check`](crate::check). The checker has taken none before.
    ///
    /// Fails as `check` does, but never with 900. The checker is then as it was before the line that is refused, and
    /// the reader is still at that line: [`due`](Checker::due) returns what the line had to be. If the text ends early,
    /// or if the reader itself fails, the reader's line is empty.
    pub fn take_all<R: Source>(&mut self, lines: &mut LineReader<R>) -> Result<(), Fault>
        requires { IsBeforeFirst self.old }
        ensures net { self.new.net ≡ self.old.net }
        ensures targets { self.new.targets ≡ self.old.targets }
        ensures ok { OnOk result (MayBeAccepted self.old.net self.old.targets lines.old) }
        ensures err { IfErr result (λ e. Fails lines.old lines.new e
            ⊎ MayBeRefused self.old.net self.old.targets lines.old lines.new e) }
        // What it waits for is what the line that stopped it had to be.
        ensures stops { IfErr result (IsStop lines.old lines.new self.new) }
        // 901 and 903 at a line are the reader's, and 401 to 415 at a line are the certificate's.
        ensures numbers { IfErr result (IsReportedBy lines.old) }
    {
        take_lines(
            &mut self.progress,
            &mut self.scratch,
            &self.tables,
            self.targets.as_slice(),
            lines,
        )
    }

    /// Returns what the next line must be.
    pub fn due(&self) -> Due<'_>
        ensures { IsDue self.now.goals result }
    {
        self.progress.due(self.targets.as_slice())
    }
}
