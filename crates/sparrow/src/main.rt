//! Sparrow's program: a static analyser for C.
//!
//! The words of the command line go in. A report, a refusal or the usage line comes out, and an exit
//! status. `main` makes the real files, standard output and the words, and calls `run` of `sp_run_command`,
//! whose contract says what each status means.
#![tactic(auto)]

ghost use Rattle.std.specs.Prelude.{◌≡◌, ◌≢◌, ◌<◌, ◌≤◌, ℕ, List, [], Some, length};
ghost use Rattle.std.specs.List.{Contains};
ghost use Rattle.sp_outside.specs.Told.{missing};
ghost use Rattle.sp_run_words.specs.Words.{Asked, fits};
ghost use Rattle.sp_run_command.specs.Run.{Ends, IsWhole, bytes_of, exit_status};

use sp_lattice::Steps;
use sp_outside::{Files, HostFiles, HostSink, Sink};
use sp_run_command::{Status, run};
use std::alloc::{AllocError, Global};
use std::env;
use std::marker::Brand;
use std::process::ExitCode;
use std::sync::ledger::{Blank, Ledger};

/// The status where the runtime doesn't give the words.
const NO_WORDS: u8 = 7;

/// Runs with a counter of steps that stands at 0, and gives the exit status of `run`'s end. What `run` says
/// of files and sink that fail nowhere holds here too.
fn run_counted<F: Files, W: Sink, L: Ledger>(
    alloc: Global,
    words: &[String],
    files: &mut F,
    out: &mut W,
    blank: Blank,
) -> u8
    requires name { blank.name ≡ L.name }
    requires parts { blank.parts ≡ L.parts }
    requires some { 0 < L.parts }
    ensures ends { (status : Status) × (result ≡ exit_status status) × Ends (bytes_of words.now) (F.text_of files.old)
        (record { asked = F.asked files.old; begun = F.begun files.old; at = F.at files.old; read_faults = F.faults files.old; written = W.written out.old; write_faults = W.faults out.old })
        (record { asked = F.asked files.new; begun = F.begun files.new; at = F.at files.new; read_faults = F.faults files.new; written = W.written out.new; write_faults = W.faults out.new })
        status
        × (status ≢ Status.ReadFault → F.faults files.new ≡ F.faults files.old)
        × (status ≢ Status.WriteFault → W.faults out.new ≡ W.faults out.old)
        × (F.failing files.old ≡ Some [] →
        ((request : Asked) → fits (bytes_of words.now) ≡ Some request → (name : List ℕ) →
        Contains request.files name → F.text_of files.old name ≢ missing) →
        status ≢ Status.ReadFault)
        × (W.failing out.old ≡ Some [] → (left : ℕ) → W.room out.old ≡ Some left →
        ((bytes : List ℕ) → IsWhole (bytes_of words.now) (F.text_of files.old) bytes →
        length bytes ≤ left) → status ≢ Status.WriteFault) }
{
    let mut steps = Steps::<L>::new(blank);
    run(alloc, words, files, out, &mut steps).code()
}

/// The words behind the program's name.
fn words_of(alloc: Global, args: env::Args) -> Result<Vec<String>, AllocError> {
    args.skip(1).collect(alloc)
}

fn main(rt: HostRuntime) -> ExitCode {
    let Ok(args) = env::args(&rt) else {
        return ExitCode::from(NO_WORDS);
    };
    let Ok(words) = words_of(rt.alloc(), args) else {
        return ExitCode::from(Status::NoMemory.code());
    };
    let mut files = HostFiles::new(&rt);
    let mut out = HostSink::new(&rt);
    let status = run_counted::<_, _, Brand>(
        rt.alloc(),
        &words,
        &mut files,
        &mut out,
        Blank::new(1),
    );
    ExitCode::from(status)
}
