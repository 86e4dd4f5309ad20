//! The top call: from the words to the bytes written and the exit status.
ghost use Rattle.std.specs.Prelude.{◌≡◌, ◌≢◌, ◌<◌, ◌≤◌, ℕ, List, [], Some, Err, length, IfOk, IfErr};
ghost use Rattle.std.specs.List.{Contains};
ghost use Rattle.sp_outside.specs.Told.{missing};
ghost use Rattle.sp_front.specs.Sources.{most_files};
ghost use Rattle.sp_run_words.specs.Words.{Asked, asked_of, fits};
ghost use Rattle.sp_run_command.specs.Reading.{FailsAt};
ghost use Rattle.sp_run_command.specs.Answers.{WithoutSteps};
ghost use Rattle.sp_run_command.specs.Run.{Answers, Ends, IsWhole, IsWriting, IsDone, IsSteppedBy, IsSteppedAsked, bytes_of};
ghost use Rattle.sp_run_command.specs.declared.command.NoAnswer.TheVariants.{NoMemory};

use crate::analysis::answer_to;
use crate::reading::{Unread, read_sources};
use crate::refusals::refusal;
use crate::status::{Answer, Status};
use sp_front::MAX_FILES;
use sp_lattice::Steps;
use sp_outside::{Files, Sink, write_whole};
use sp_run_words::{Request, request_of};
use sp_tree::FaultKind;
use std::alloc::{AllocError, Global};
use std::sync::ledger::Ledger;

/// Why there is no answer.
#[derive(Clone, Copy)]
enum NoAnswer {
    /// A file can't be read.
    ReadFault,
    NoMemory,
}

impl From<AllocError> for NoAnswer {
    ghost from_gives = { λ _ reason. reason ≡ NoMemory };

    fn from(_error: AllocError) -> NoAnswer {
        NoAnswer::NoMemory
    }
}

/// The answer to what the words ask for.
fn answer_of<F: Files, L: Ledger>(
    alloc: Global,
    request: &Request,
    files: &mut F,
    steps: &mut Steps<L>,
) -> Result<Answer, NoAnswer>
    ensures answer { IfOk result (λ a. Answers (F.text_of files.old) (asked_of request.now)
        a.status a.text.items) }
    ensures done { IfOk result (λ a. IsDone a.status) }
    ensures refused { IfOk result (λ a. WithoutSteps a.status (steps.new ≡ steps.old)) }
    ensures steps { IsSteppedAsked (F.text_of files.old) (asked_of request.now)
        steps.old steps.new }
    ensures quiet { result ≢ Err NoAnswer.ReadFault → F.faults files.new ≡ F.faults files.old }
    ensures fault { result ≡ Err NoAnswer.ReadFault →
        (length (asked_of request.now).files ≤ most_files) × FailsAt (F.text_of files.old)
        (asked_of request.now).files (F.asked files.new) (F.begun files.new)
        (F.faults files.old) (F.faults files.new) }
    ensures still { result ≡ Err NoAnswer.ReadFault → steps.new ≡ steps.old }
    ensures unasked { most_files < length (asked_of request.now).files → files.new ≡ files.old }
    ensures reads { F.failing files.old ≡ Some [] →
        ((name : List ℕ) → Contains (asked_of request.now).files name →
        F.text_of files.old name ≢ missing) → result ≢ Err NoAnswer.ReadFault }
{
    if let Some(name) = request.files.get(MAX_FILES) {
        return Ok(refusal(alloc, name, FaultKind::TooManyFiles)?);
    }
    match read_sources(alloc, &request.files, files) {
        Ok(sources) => Ok(answer_to(alloc, request.task, &sources, steps)?),
        Err(Unread::TooLong(name)) => Ok(refusal(alloc, name, FaultKind::TextTooLong)?),
        Err(Unread::Fault) => Err(NoAnswer::ReadFault),
        Err(Unread::NoMemory) => Err(NoAnswer::NoMemory),
    }
}

const USAGE: &[u8] = b"usage: sparrow COMMAND [OPTION] WORD..\n";

/// Writes the bytes, and answers `status`, or `WriteFault` where a write failed.
fn write_out<W: Sink>(out: &mut W, bytes: &[u8], status: Status) -> Status
    requires { status ≢ Status.WriteFault }
    ensures quiet { result ≢ Status.WriteFault → W.faults out.new ≡ W.faults out.old }
    ensures room { W.failing out.old ≡ Some [] → (left : ℕ) → W.room out.old ≡ Some left →
        length bytes.now ≤ left → result ≡ status }
    ensures written { IsWriting result status bytes.now (W.written out.old) (W.written out.new)
        (W.faults out.old) (W.faults out.new) }
{
    match write_whole(out, bytes) {
        Ok(()) => status,
        Err(_) => Status::WriteFault,
    }
}

/// Does what the words say: reads the files, analyses their program or takes its indirect calls from
/// points-to, and writes the answer. The whole answer is made before its first byte is written.
///
/// `Ends` of `specs/Run.antt` says what each status means.
pub fn run<F: Files, W: Sink, L: Ledger>(
    alloc: Global,
    words: &[String],
    files: &mut F,
    out: &mut W,
    steps: &mut Steps<L>,
) -> Status
    ensures ends { Ends (bytes_of words.now) (F.text_of files.old)
        (record { asked = F.asked files.old; begun = F.begun files.old; at = F.at files.old; read_faults = F.faults files.old; written = W.written out.old; write_faults = W.faults out.old })
        (record { asked = F.asked files.new; begun = F.begun files.new; at = F.at files.new; read_faults = F.faults files.new; written = W.written out.new; write_faults = W.faults out.new })
        result }
    // The count of faults of the files rises only where a read of them ended the run, that of the
    // sink only where a write did.
    ensures quiet_files { result ≢ Status.ReadFault → F.faults files.new ≡ F.faults files.old }
    ensures quiet_sink { result ≢ Status.WriteFault → W.faults out.new ≡ W.faults out.old }

    ensures unmoved { WithoutSteps result (steps.new ≡ steps.old) }
    ensures steps { IsSteppedBy (bytes_of words.now) (F.text_of files.old) steps.old steps.new }

    // Where no call of the files is told to fail and each name has a text, they are read.
    ensures reads { F.failing files.old ≡ Some [] →
        ((request : Asked) → fits (bytes_of words.now) ≡ Some request → (name : List ℕ) →
        Contains request.files name → F.text_of files.old name ≢ missing) →
        result ≢ Status.ReadFault }
    // Where no call of the sink is told to fail and each answer to the words has room, it is written.
    ensures writes { W.failing out.old ≡ Some [] → (left : ℕ) → W.room out.old ≡ Some left →
        ((bytes : List ℕ) → IsWhole (bytes_of words.now) (F.text_of files.old) bytes →
        length bytes ≤ left) → result ≢ Status.WriteFault }
{
    let request = match request_of(alloc, words) {
        Ok(Some(request)) => request,
        Ok(None) => return write_out(out, USAGE, Status::Usage),
        Err(_) => return Status::NoMemory,
    };
    match answer_of(alloc, &request, files, steps) {
        Ok(answer) => write_out(out, &answer.text, answer.status),
        Err(NoAnswer::ReadFault) => Status::ReadFault,
        Err(NoAnswer::NoMemory) => Status::NoMemory,
    }
}
