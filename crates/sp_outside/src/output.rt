//! Writing all of some bytes through any object that takes them.
ghost use Rattle.std.specs.Prelude.{◌≡◌, ◌+◌, ◌-◌, ◌<◌, ◌≤◌, ℕ, List, Option, Some, is_err, length, take, min, IsOk, OnOk, OnErr, IfOk, IfErr, IfSome, MatchResult, [], true};
ghost use Rattle.std.specs.Io.KnownBytes.{Appends, WriteAppends};
ghost use Rattle.sp_outside.specs.Told.{TakesRoom, is_full};
ghost use Rattle.sp_outside.specs.Counts.{raised, Rose, FailsExactly};

use crate::input::Failed;
use thiserror::Error;

/// What takes bytes, some of them at each call.
pub trait Sink {
    // The bytes taken so far, and how many more have room, where told.
    ghost written: { Self → Option (List ℕ) };

    ghost room: { Self → Option ℕ };

    // How many calls failed, and how many there were: kept counts.
    ghost faults: { Self → ℕ };

    ghost calls: { Self → ℕ };

    // The numbers of the calls that fail, counted from 1, where told.
    ghost failing: { Self → Option (List ℕ) };

    /// Takes one byte or more from the front of `piece` and says how many; takes none at `Failed`.
    fn write(&mut self, piece: &[u8]) -> Result<usize, Failed>
        requires { 0 < length piece.now }

        ensures some { IfOk result (λ count. (0 < count) × (count ≤ length piece.now)) }
        ensures bytes { WriteAppends (written self.old) (written self.new) result piece.now }

        // Where the room is told, what has room is taken.
        ensures less_room { MatchResult result
            (λ count. TakesRoom (room self.old) (room self.new) count)
            (λ _. room self.new ≡ room self.old) }
        ensures fills { IfOk result (λ count.
            IfSome (room self.old) (λ left. count ≡ min left (length piece.now))) }

        // Where the failing calls are told, nothing else fails but a write without room.
        ensures cause { FailsExactly (failing self.old) (calls self.new) (is_full (room self.old))
            (is_err result) }
        ensures fault { MatchResult result (λ _. faults self.new ≡ faults self.old)
            (λ _. Rose (faults self.old) (faults self.new)) }
        ensures counted { calls self.new ≡ raised (calls self.old) 1 }
        ensures same_failing { failing self.new ≡ failing self.old };
}

/// A write failed when `sent` bytes had gone out; the sink's count of faults rose.
#[derive(Clone, Copy, Debug, PartialEq, Eq, Error)]
#[error("a write failed after {sent} bytes")]
pub struct WriteFault {
    pub sent: usize,
}

/// Writes all the bytes in order, in as many calls as the sink takes. It takes no memory.
#[tactic(auto, using(crate::proofs::Pieces::pieces))]
pub fn write_whole<W: Sink>(out: &mut W, bytes: &[u8]) -> Result<(), WriteFault>
    ensures all { OnOk result (Appends (W.written out.old) (W.written out.new) bytes.now) }
    ensures front { IfErr result (λ fault.
        Appends (W.written out.old) (W.written out.new) (take fault.sent bytes.now)) }
    ensures less { IfErr result (λ fault. fault.sent < length bytes.now) }
    ensures less_room { MatchResult result
        (λ _. TakesRoom (W.room out.old) (W.room out.new) (length bytes.now))
        (λ fault. TakesRoom (W.room out.old) (W.room out.new) fault.sent) }

    // Where the failing calls are told, it ends early only at such a call or for want of room.
    ensures cause { OnErr result
        (FailsExactly (W.failing out.old) (W.calls out.new) (is_full (W.room out.new)) true) }
    ensures unasked { W.failing out.old ≡ Some [] → (left : ℕ) → W.room out.old ≡ Some left →
        length bytes.now ≤ left → IsOk result }

    ensures fault { MatchResult result (λ _. W.faults out.new ≡ W.faults out.old)
        (λ _. Rose (W.faults out.old) (W.faults out.new)) }
    ensures few_calls { W.calls out.new ≤ W.calls out.old + length bytes.now }
    ensures same_failing { W.failing out.new ≡ W.failing out.old }
{
    let mut sent = 0;
    'pieces: while sent < bytes.len() {
        match out.write(&bytes[sent..]) {
            Ok(count) => sent += count,
            Err(Failed) => return Err(WriteFault { sent }),
        }
    }
    Ok(())
}
