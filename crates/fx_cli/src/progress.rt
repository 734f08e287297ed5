//! The progress of a command, printed on standard error.
ghost use Rattle.std.specs.Prelude.{◌≡◌};

use crate::head::Head;
use fx_base::{Fault, Source};
use fx_search::Watch;
use std::rt::Clock;
use std::time::{Duration, Instant};

/// The minimum time between two lines, in seconds.
const PAUSE: u64 = 1;

/// The number of lines of a certificate between two readings of the clock, each of which takes as long as finding a few
/// lines.
const LINES_A_LOOK: u64 = 64;

/// The time of the last line of progress, or of the beginning; none if no lines are printed.
#[derive(Drop)]
pub struct Progress<'a, R> {
    rt: &'a R,
    last: Option<Instant>,
}

impl<'a, R: Eprint + Clock> Progress<'a, R> {
    /// Returns the progress of what begins now. Nothing is printed unless `asked` is true and the system has a clock.
    pub fn new(rt: &'a R, asked: bool) -> Progress<'a, R> {
        let last = if asked { Instant::now(rt).ok() } else { None };
        Progress { rt, last }
    }

    /// Returns whether a line is due now. If so, the next is due after another pause.
    fn is_due(&mut self) -> bool {
        let Some(last) = self.last else {
            return false;
        };
        let Ok(now) = Instant::now(self.rt) else {
            return false;
        };
        if now.duration_since(last) < Duration::from_secs(PAUSE) {
            return false;
        }
        self.last = Some(now);
        true
    }
}

/// A source that prints how many octets were read from it.
#[derive(Drop)]
pub struct ProgressSource<'a, R, S> {
    source: S,
    path: &'a str,
    octets: u64,
    head: Head,
    progress: Progress<'a, R>,
}

impl<'a, R: Eprint + Clock, S: Source> ProgressSource<'a, R, S> {
    /// Returns the source, which is the file at `path`.
    pub fn new(source: S, path: &'a str, progress: Progress<'a, R>) -> ProgressSource<'a, R, S>
        ensures { result.source ≡ source }
    {
        ProgressSource {
            source,
            path,
            octets: 0,
            head: Head::new(),
            progress,
        }
    }

    /// Returns the first octets that were read, at most the length of a capture's file header.
    pub fn head(&self) -> &[u8] {
        self.head.octets()
    }

    /// Counts the octets that were read, and prints the count if a line is due. Ignores a failed write.
    fn tell(&mut self, count: usize)
        ensures { self.new.source ≡ self.old.source }
    {
        self.octets = self.octets.saturating_add(count as u64);
        if self.progress.is_due() {
            let path = self.path;
            let octets = self.octets;
            let _written = eprintln!(self.progress.rt; "once: {octets} octets of {path} read");
        }
    }
}

impl<'a, R: Eprint + Clock, S: Source> Source for ProgressSource<'a, R, S> {
    ghost left = { λ s. S.left s.source };

    ghost failed = { λ s. S.failed s.source };

    ghost calls = { λ s. S.calls s.source };

    fn read(&mut self, buffer: &mut [u8]) -> Result<usize, Fault> {
        let count = self.source.read(buffer)?;
        self.head.keep(&buffer[..count]);
        self.tell(count);
        Ok(count)
    }
}

/// An observer of an audit's search that prints how many lines of a certificate were found.
#[derive(Drop)]
pub struct ProgressSearch<'a, R> {
    limit: u64,
    progress: Progress<'a, R>,
}

impl<'a, R: Eprint + Clock> ProgressSearch<'a, R> {
    /// Returns an observer of a search for a certificate of at most `limit` split and leaf lines.
    pub fn new(limit: u64, progress: Progress<'a, R>) -> ProgressSearch<'a, R> {
        ProgressSearch { limit, progress }
    }
}

impl<'a, R: Eprint + Clock> Watch for ProgressSearch<'a, R> {
    fn on_lines(&mut self, lines: u64) {
        if lines % LINES_A_LOOK == 0 && self.progress.is_due() {
            let limit = self.limit;
            let _written = eprintln!(self.progress.rt;
                "once: {lines} lines of a certificate found, of at most {limit}"
            );
        }
    }
}
