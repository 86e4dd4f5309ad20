//! Real files and standard output: the trusted edge. They tell no bytes and no room.
ghost use Rattle.std.specs.Prelude.{◌≡◌, false, None, is_some, option_map, string_bytes};
ghost use Rattle.sp_outside.specs.Told.{untold};

use crate::counts::Counts;
use crate::input::{BeginError, Failed, Files};
use crate::output::Sink;
use std::alloc::Global;
use std::io::Read;
use std::{fs, rt};

/// The files of the system, by their paths.
#[derive(Drop)]
pub struct HostFiles<'a, R: rt::Files> {
    system: &'a R,
    asked: Option<String>,
    file: Option<R::File>,
    given: u64,
    counts: Counts,
}

impl<'a, R: rt::Files> HostFiles<'a, R> {
    /// No file is open yet.
    pub fn new(system: &'a R) -> HostFiles<'a, R>
        ensures untouched { (⟦<HostFiles<'a, R> as Files>⟧.asked result ≡ None)
            × (⟦<HostFiles<'a, R> as Files>⟧.begun result ≡ false) }
        ensures no_calls { (⟦<HostFiles<'a, R> as Files>⟧.calls result ≡ 0)
            × (⟦<HostFiles<'a, R> as Files>⟧.faults result ≡ 0) }
    {
        HostFiles {
            system,
            asked: None,
            file: None,
            given: 0,
            counts: Counts::new(),
        }
    }
}

impl<R: rt::Files> Files for HostFiles<'_, R> {
    ghost text_of = { λ _ _. untold };

    ghost asked = { λ files. option_map string_bytes files.asked };

    ghost begun = { λ files. is_some files.file };

    ghost at = { λ _. None };

    ghost given = { λ files. files.given };

    ghost faults = { λ files. files.counts.faults };

    ghost calls = { λ files. files.counts.calls };

    ghost failing = { λ _. None };

    fn begin(&mut self, alloc: Global, name: &str) -> Result<(), BeginError> {
        let Ok(asked) = String::from_str(alloc, name) else {
            return Err(BeginError::NoMemory);
        };
        self.counts.next_call();
        self.asked = Some(asked);
        self.given = 0;
        self.file = fs::open(self.system, name).ok();
        if self.file.is_none() {
            self.counts.fault();
            return Err(BeginError::Failed);
        }
        Ok(())
    }

    fn read(&mut self, piece: &mut [u8]) -> Result<usize, Failed> {
        self.counts.next_call();
        if let Some(file) = &mut self.file
            && let Ok(count) = file.read(piece)
        {
            self.given = self.given.saturating_add(count as u64);
            return Ok(count);
        }
        self.file = None;
        Err(self.counts.fault())
    }
}

/// Standard output. A write that takes no byte counts as an error.
#[derive(Drop)]
pub struct HostSink<'a, R> {
    system: &'a R,
    counts: Counts,
}

impl<'a, R: Print> HostSink<'a, R> {
    /// Nothing is written yet.
    pub fn new(system: &'a R) -> HostSink<'a, R>
        ensures { (⟦<HostSink<'a, R> as Sink>⟧.calls result ≡ 0)
            × (⟦<HostSink<'a, R> as Sink>⟧.faults result ≡ 0) }
    {
        HostSink {
            system,
            counts: Counts::new(),
        }
    }
}

impl<R: Print> Sink for HostSink<'_, R> {
    ghost written = { λ _. None };

    ghost room = { λ _. None };

    ghost faults = { λ sink. sink.counts.faults };

    ghost calls = { λ sink. sink.counts.calls };

    ghost failing = { λ _. None };

    fn write(&mut self, piece: &[u8]) -> Result<usize, Failed> {
        self.counts.next_call();
        match self.system.write_some(piece) {
            Ok(count) if count > 0 => Ok(count),
            _ => Err(self.counts.fault()),
        }
    }
}
