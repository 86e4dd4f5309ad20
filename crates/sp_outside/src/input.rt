//! Reading whole files through any object that gives their bytes.
ghost use Rattle.std.specs.Prelude.{◌≡◌, ◌+◌, ◌<◌, ◌≤◌, ℕ, Bool, true, false, List, [], Option, Some, Result, is_ok, is_err, option_map, length, take, OnOk, IfOk, IsErr, MatchResult, vec_len, ◌⊎◌};
ghost use Rattle.std.specs.Io.KnownBytes.{Consumes, IsAtEnd};
ghost use Rattle.sp_outside.specs.Told.{Told, missing, is_missing, IfHeld, IsStart, bytes_left};
ghost use Rattle.sp_outside.specs.Counts.{raised, Rose, FailsExactly};
ghost use Rattle.sp_outside.specs.Begin.{IfAnswered};
ghost use Rattle.sp_outside.specs.Whole.{MatchFault};
ghost use Rattle.sp_outside.specs.declared.input.ReadError.TheVariants.{Fault, NoMemory};

use std::alloc::{AllocError, Global};
use thiserror::Error;

/// A read or a write failed; the object's count of faults rose.
#[derive(Clone, Copy, Debug, PartialEq, Eq, Error)]
#[error("a read or a write failed")]
pub struct Failed;

/// Why a name was not begun.
#[derive(Clone, Copy, Debug, PartialEq, Eq, Error)]
pub enum BeginError {
    /// The name can't be read; the object's count of faults rose.
    #[error("the file can't be opened")]
    Failed,
    /// Memory ran out, and nothing has changed.
    #[error("out of memory")]
    NoMemory,
}

/// Files that are read one at a time, each from its start.
pub trait Files {
    // What the object tells of the bytes under a name.
    ghost text_of: { Self → List ℕ → Told };

    // The name of the last `begin` that was not `NoMemory`, and whether that name is open.
    ghost asked: { Self → Option (List ℕ) };

    ghost begun: { Self → Bool };

    // The position in the begun name, where told, and how many bytes were given since its start.
    ghost at: { Self → Option ℕ };

    ghost given: { Self → ℕ };

    // How many calls failed, and how many there were but for `NoMemory`: kept counts.
    ghost faults: { Self → ℕ };

    ghost calls: { Self → ℕ };

    // The numbers of the calls that fail, counted from 1, where told.
    ghost failing: { Self → Option (List ℕ) };

    /// Opens a name at its start, in place of the name that was open. After `Failed` none is open.
    fn begin(&mut self, alloc: Global, name: &str) -> Result<(), BeginError>
        ensures name { IfAnswered result (asked self.new ≡ Some name.now) }
        ensures opened { IfAnswered result (begun self.new ≡ is_ok result) }
        ensures start { OnOk result (IsStart (text_of self.old name.now) (at self.new)) }
        ensures none_given { IfAnswered result (given self.new ≡ 0) }

        // A name without a text fails; where the failing calls are told, nothing else does.
        ensures no_text { text_of self.old name.now ≡ missing → IsErr result }
        ensures cause { IfAnswered result (FailsExactly (failing self.old) (calls self.new)
            (is_missing (text_of self.old name.now)) (is_err result)) }

        ensures fault { IfAnswered result (MatchResult result
            (λ _. faults self.new ≡ faults self.old)
            (λ _. Rose (faults self.old) (faults self.new))) }
        ensures counted { IfAnswered result (calls self.new ≡ raised (calls self.old) 1) }
        ensures no_memory { result ≡ Err BeginError.NoMemory → self.new ≡ self.old }
        ensures same_texts { text_of self.new ≡ text_of self.old }
        ensures same_failing { failing self.new ≡ failing self.old };

    /// Fills the front of `piece` with the next bytes and says how many: 0 only at the end. After
    /// `Failed` no name is open.
    fn read(&mut self, piece: &mut [u8]) -> Result<usize, Failed>
        requires is_open { begun self.old ≡ true }
        requires has_room { 0 < length piece.old }

        ensures within { IfOk result (λ count. count ≤ length piece.new) }
        ensures bytes { IfOk result (λ count. Consumes
            (bytes_left (text_of self.old) (asked self.old) (at self.old))
            (bytes_left (text_of self.new) (asked self.new) (at self.new)) (take count piece.new)) }
        ensures end { IfOk result (λ count. count ≡ 0 →
            IsAtEnd (bytes_left (text_of self.new) (asked self.new) (at self.new))) }
        ensures moved { IfOk result (λ count.
            at self.new ≡ option_map (λ position. position + count) (at self.old)) }
        ensures more_given { MatchResult result
            (λ count. given self.new ≡ raised (given self.old) count)
            (λ _. given self.new ≡ given self.old) }

        ensures same_name { asked self.new ≡ asked self.old }
        ensures stays_open { begun self.new ≡ is_ok result }
        ensures cause { FailsExactly (failing self.old) (calls self.new) false (is_err result) }
        ensures fault { MatchResult result (λ _. faults self.new ≡ faults self.old)
            (λ _. Rose (faults self.old) (faults self.new)) }
        ensures counted { calls self.new ≡ raised (calls self.old) 1 }
        ensures same_texts { text_of self.new ≡ text_of self.old }
        ensures same_failing { failing self.new ≡ failing self.old };
}

/// Why a file was not read whole.
#[derive(Clone, Copy, Debug, PartialEq, Eq, Error)]
pub enum ReadError {
    /// The name can't be read; the count of faults rose.
    #[error("the file can't be read")]
    Fault,
    /// More bytes came than were allowed.
    #[error("the file is too long")]
    TooLong,
    /// Memory ran out.
    #[error("out of memory")]
    NoMemory,
}

impl From<Failed> for ReadError {
    ghost from_gives = { λ _ error. error ≡ Fault };

    fn from(_failed: Failed) -> ReadError {
        ReadError::Fault
    }
}

impl From<AllocError> for ReadError {
    ghost from_gives = { λ _ error. error ≡ NoMemory };

    fn from(_error: AllocError) -> ReadError {
        ReadError::NoMemory
    }
}

/// How many bytes are read at once, at most: enough that the calls cost little beside the bytes.
const PIECE: usize = 65_536;

/// The bytes of a name, read in pieces, where there are at most `max`.
pub fn read_whole<F: Files>(
    alloc: Global,
    files: &mut F,
    name: &str,
    max: u64,
) -> Result<Vec<u8>, ReadError>
    // The bytes are all that came, and the text where it is told.
    ensures text { IfOk result (λ text.
        IfHeld (F.text_of files.old name.now) (λ bytes. text.items ≡ bytes)) }
    ensures all { IfOk result (λ text. vec_len text ≡ F.given files.new) }
    ensures fits { IfOk result (λ text. vec_len text ≤ max) }
    ensures opened { OnOk result ((F.asked files.new ≡ Some name.now) × (F.begun files.new ≡ true)) }

    // More than `max` bytes came exactly at `TooLong`.
    ensures too_many { result ≡ Err ReadError.TooLong → max < F.given files.new }
    ensures too_long { result ≡ Err ReadError.TooLong →
        IfHeld (F.text_of files.old name.now) (λ bytes. max < length bytes) }

    // A fault is of this name, and comes before more than `max` bytes.
    ensures fault { MatchFault result (Rose (F.faults files.old) (F.faults files.new))
        (F.faults files.new ≡ F.faults files.old) }
    ensures name { result ≡ Err ReadError.Fault →
        (F.asked files.new ≡ Some name.now) × (F.begun files.new ≡ false) × (F.given files.new ≤ max) }

    // A name without a text is a fault. Where the failing calls are told, there is no other fault
    // but at such a call, the last that was made.
    ensures no_text { F.text_of files.old name.now ≡ missing →
        (result ≡ Err ReadError.Fault) ⊎ (result ≡ Err ReadError.NoMemory) }
    ensures cause { result ≡ Err ReadError.Fault →
        FailsExactly (F.failing files.old) (F.calls files.new)
        (is_missing (F.text_of files.old name.now)) true }
    ensures unasked { F.failing files.old ≡ Some [] → result ≡ Err ReadError.Fault →
        F.text_of files.old name.now ≡ missing }

    // One `begin` and at most max + 1 reads.
    ensures few_calls { F.calls files.new ≤ F.calls files.old + max + 2 }
    ensures same_texts { F.text_of files.new ≡ F.text_of files.old }
    ensures same_failing { F.failing files.new ≡ F.failing files.old }
{
    match files.begin(alloc, name) {
        Ok(()) => {}
        Err(BeginError::Failed) => return Err(ReadError::Fault),
        Err(BeginError::NoMemory) => return Err(ReadError::NoMemory),
    }
    let mut buffer = new_buffer(alloc)?;
    let piece = buffer.as_mut_slice();
    let mut text = Vec::new(alloc);
    'pieces: loop {
        let count = files.read(piece)?;
        if count == 0 {
            return Ok(text);
        }
        if count as u64 > max - text.len() as u64 {
            return Err(ReadError::TooLong);
        }
        text.extend_from_slice(&piece[..count])?;
    }
}

/// Room for one piece. Its contents don't matter.
fn new_buffer(alloc: Global) -> Result<Vec<u8>, AllocError>
    ensures { IfOk result (λ buffer. vec_len buffer ≡ PIECE) }
{
    vec![in alloc; 0u8; PIECE]
}
