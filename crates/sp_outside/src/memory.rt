//! Files and a sink in memory. They tell all of their bytes, and fail where they are asked to.
ghost use Rattle.std.specs.Prelude.{◌≡◌, ℕ, List, ◌+◌, ◌-◌, ◌≤◌, true, false, if◌then◌else◌, [], MatchOption, min, length, take, Some, None, IfOk, option_map, string_bytes, vec_len, vec_capacity};
ghost use Rattle.sp_outside.specs.Told.{missing, held, bytes_left};
ghost use Rattle.sp_outside.specs.Memory.{told_in, is_open_at};

use crate::counts::Counts;
use crate::input::{BeginError, Failed, Files};
use crate::output::Sink;
use std::alloc::{AllocError, Global};

/// Files in memory, of which the calls with given numbers fail.
#[derive(Drop)]
pub struct MemoryFiles {
    texts: Vec<(String, Vec<u8>)>,
    asked: Option<String>,
    is_begun: bool,
    position: usize,
    fail: Vec<u64>,
    counts: Counts,
    // The name that is begun is held, and the position is within its text.
    ghost opened: { is_begun ≡ true → is_open_at texts.items asked position ≡ true },
}

impl MemoryFiles {
    /// Files with these names and texts; of one name the first counts. The calls whose numbers are
    /// in `fail` are `Failed`, counted from 1 over `begin` and `read`; a `begin` that wants memory
    /// has no number. Nothing is allocated here.
    pub fn new(_alloc: Global, texts: Vec<(String, Vec<u8>)>, fail: Vec<u64>) -> MemoryFiles
        ensures texts { (name : List ℕ) →
            ⟦<MemoryFiles as Files>⟧.text_of result name ≡ told_in texts.items name }
        ensures failing { ⟦<MemoryFiles as Files>⟧.failing result ≡ Some fail.items }
        ensures untouched { (⟦<MemoryFiles as Files>⟧.asked result ≡ None)
            × (⟦<MemoryFiles as Files>⟧.begun result ≡ false) }
        ensures no_calls { (⟦<MemoryFiles as Files>⟧.calls result ≡ 0)
            × (⟦<MemoryFiles as Files>⟧.faults result ≡ 0) }
    {
        MemoryFiles {
            texts,
            asked: None,
            is_begun: false,
            position: 0,
            fail,
            counts: Counts::new(),
        }
    }

    /// What is left of the text that is open.
    fn rest(&self) -> &[u8]
        requires { self.now.is_begun ≡ true }
        ensures { bytes_left (told_in self.now.texts.items) (option_map string_bytes self.now.asked)
            (Some self.now.position) ≡ Some result.now }
    {
        let Some(name) = &self.asked else {
            unreachable!()
        };
        let Some(text) = find_text(&self.texts, name.as_str()) else {
            unreachable!()
        };
        &text[self.position..]
    }
}

impl Files for MemoryFiles {
    ghost text_of = { λ files. told_in files.texts.items };

    ghost asked = { λ files. option_map string_bytes files.asked };

    ghost begun = { λ files. files.is_begun };

    ghost at = { λ files. if files.is_begun then Some files.position else None };

    ghost given = { λ files. files.position };

    ghost faults = { λ files. files.counts.faults };

    ghost calls = { λ files. files.counts.calls };

    ghost failing = { λ files. Some files.fail.items };

    fn begin(&mut self, alloc: Global, name: &str) -> Result<(), BeginError> {
        let Ok(asked) = String::from_str(alloc, name) else {
            return Err(BeginError::NoMemory);
        };
        let number = self.counts.next_call();
        self.is_begun = false;
        self.position = 0;
        self.asked = Some(asked);
        if self.fail.contains(&number) || find_text(&self.texts, name).is_none() {
            self.counts.fault();
            return Err(BeginError::Failed);
        }
        self.is_begun = true;
        Ok(())
    }

    #[tactic(auto, using(crate::proofs::Pieces::pieces))]
    fn read(&mut self, piece: &mut [u8]) -> Result<usize, Failed> {
        let number = self.counts.next_call();
        if self.fail.contains(&number) {
            self.is_begun = false;
            return Err(self.counts.fault());
        }
        let count = copy_front(self.rest(), piece);
        self.position += count;
        Ok(count)
    }
}

/// The text under a name: the first of that name.
fn find_text<'a>(texts: &'a [(String, Vec<u8>)], name: &str) -> Option<&'a [u8]>
    ensures { MatchOption result (told_in texts.now name.now ≡ missing)
        (λ text. told_in texts.now name.now ≡ held text.now) }
{
    let entry = texts.iter().find(|entry| entry.0.as_str() == name)?;
    Some(entry.1.as_slice())
}

/// Copies as many bytes as both have, and says how many.
fn copy_front(from: &[u8], to: &mut [u8]) -> usize
    ensures count { result ≡ min (length from.now) (length to.old) }
    ensures copied { take result to.new ≡ take result from.now }
{
    let count = from.len().min(to.len());
    to[..count].copy_from_slice(&from[..count]);
    count
}

/// A sink in memory with room for some bytes, of which the calls with given numbers fail.
#[derive(Drop)]
pub struct MemorySink {
    taken: Vec<u8>,
    room: usize,
    fail: Vec<u64>,
    counts: Counts,
    // What has room needs no memory.
    ghost reserved: { vec_len taken + room ≤ vec_capacity taken },
}

impl MemorySink {
    /// An empty sink that takes `room` bytes, which are reserved here. The writes whose numbers are
    /// in `fail` are `Failed`, counted from 1.
    pub fn new(alloc: Global, room: usize, fail: Vec<u64>) -> Result<MemorySink, AllocError>
        ensures empty { IfOk result (λ sink. ⟦<MemorySink as Sink>⟧.written sink ≡ Some []) }
        ensures room { IfOk result (λ sink. ⟦<MemorySink as Sink>⟧.room sink ≡ Some room) }
        ensures failing { IfOk result (λ sink. ⟦<MemorySink as Sink>⟧.failing sink ≡ Some fail.items) }
        ensures no_calls { IfOk result (λ sink.
            (⟦<MemorySink as Sink>⟧.calls sink ≡ 0) × (⟦<MemorySink as Sink>⟧.faults sink ≡ 0)) }
    {
        Ok(MemorySink {
            taken: Vec::with_capacity(alloc, room)?,
            room,
            fail,
            counts: Counts::new(),
        })
    }

    /// The bytes that were written.
    pub fn bytes(&self) -> &[u8]
        ensures { ⟦<MemorySink as Sink>⟧.written self.now ≡ Some result.now }
    {
        self.taken.as_slice()
    }
}

impl Sink for MemorySink {
    ghost written = { λ sink. Some sink.taken.items };

    ghost room = { λ sink. Some sink.room };

    ghost faults = { λ sink. sink.counts.faults };

    ghost calls = { λ sink. sink.counts.calls };

    ghost failing = { λ sink. Some sink.fail.items };

    fn write(&mut self, piece: &[u8]) -> Result<usize, Failed> {
        let number = self.counts.next_call();
        if self.fail.contains(&number) || self.room == 0 {
            return Err(self.counts.fault());
        }
        let count = piece.len().min(self.room);
        // Their room was reserved.
        self.taken.extend_from_slice(&piece[..count]).unwrap();
        self.room -= count;
        Ok(count)
    }
}
