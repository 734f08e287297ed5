//! What a command is asked to print besides its answer, and what it notes about its files for that.
ghost use Rattle.std.specs.Prelude.{◌≡◌};

use crate::file_names::FileNames;
use crate::kept::{KeptSource, OctetCopy};
use crate::progress::Progress;
use crate::sentences::{Progressed, Sentences, Wanted};
use fx_audit::Answer;
use fx_base::{Fault, Source, refusals};
use std::alloc::{AllocError, Global};
use std::io;
use std::rt::Clock;

/// A note of the file that couldn't be opened, made or written, and why, if that is to be noted.
#[derive(Drop)]
pub struct FailedFile {
    alloc: Global,
    keeps: bool,
    description: Option<String>,
}

impl FailedFile {
    /// Returns a note of no file yet, which notes a file only if `keeps` is true.
    pub fn new(alloc: Global, keeps: bool) -> FailedFile {
        FailedFile {
            alloc,
            keeps,
            description: None,
        }
    }

    /// Notes a file that can't be opened or made.
    pub fn unopened(&mut self, path: &str, error: io::Error) {
        if self.keeps {
            self.description = sentence(self.alloc, path, error).ok();
        }
    }

    /// Notes a file that isn't written because the command reads it.
    pub fn read_too(&mut self, path: &str) {
        if self.keeps {
            self.description = format!(in self.alloc;
                "{path}: the command reads this file, and doesn't write over it"
            ).ok();
        }
    }

    /// Notes a file that can't be written, unless a file is noted already.
    pub fn unwritten(&mut self, path: &str) {
        if self.keeps && self.description.is_none() {
            self.description = String::from_str(self.alloc, path).ok();
        }
    }

    /// Notes that standard input can't be read.
    fn unread_input(&mut self) {
        if self.keeps {
            self.description = String::from_str(
                self.alloc,
                "standard input: it is closed, it is a directory, or a read of it failed",
            )
            .ok();
        }
    }

    /// Returns the file's name and the reason, if one is known; nothing if no file is noted.
    pub fn description(&self) -> Option<&str> {
        self.description.as_deref()
    }
}

/// What a command is asked to print besides its answer.
pub struct Extras<'a> {
    alloc: Global,
    progress: bool,
    /// The file that couldn't be opened, made or written.
    pub failed_file: FailedFile,
    /// The sentences after the answer.
    pub(crate) sentences: Sentences<'a>,
}

impl Drop for Extras<'_> {
    /// Drops its parts here, so that each drop elsewhere is one call.
    fn drop(self) {
        let Self {
            alloc: _,
            progress: _,
            failed_file: _,
            sentences: _,
        } = self;
    }
}

/// Returns a file's name and why it couldn't be opened or made.
///
/// Fails if out of memory.
fn sentence(alloc: Global, path: &str, error: io::Error) -> Result<String, AllocError> {
    let name = if path.is_empty() {
        "(a word without letters)"
    } else {
        path
    };
    let hint = if path == "-" {
        "; standard input is /dev/stdin"
    } else {
        ""
    };
    format!(in alloc; "{name}: {error}{hint}")
}

impl<'a> Extras<'a> {
    /// Returns empty notes for a command over files of these names. Progress is printed only if `progress` is true.
    pub(crate) fn new(
        alloc: Global,
        wanted: Wanted,
        names: FileNames<'a>,
        progress: bool,
    ) -> Extras<'a> {
        let sentences = Sentences::new(alloc, wanted, names);
        Extras {
            alloc,
            progress,
            failed_file: FailedFile::new(alloc, sentences.are_wanted()),
            sentences,
        }
    }

    /// Returns a note for the files that the command itself makes.
    pub fn failing_files(&self) -> FailedFile {
        FailedFile::new(self.alloc, self.sentences.are_wanted())
    }

    /// Returns the progress of what begins now, which is printed if that was asked for.
    pub fn progress<'b, R: Eprint + Clock>(&self, rt: &'b R) -> Progress<'b, R> {
        Progress::new(rt, self.progress)
    }

    /// Returns the source, with a copy of its octets kept if sentences are wanted.
    pub(crate) fn kept<R: Source>(&self, source: R) -> KeptSource<R>
        ensures { result.source ≡ source }
    {
        KeptSource::new(
            source,
            OctetCopy::new(self.alloc, self.sentences.are_wanted()),
        )
    }

    /// Notes that the command's files are open.
    pub(crate) fn opened(&mut self) {
        self.sentences.progressed = Progressed::Opened;
    }

    /// Notes that standard input can't be read, if that is why a bundle has no answer.
    pub(crate) fn unread_bundle(&mut self, answer: &Result<Answer, Fault>) {
        if let Err(fault) = answer {
            if fault.number == refusals::FAILED_READ {
                self.failed_file.unread_input();
            }
        }
    }
}
