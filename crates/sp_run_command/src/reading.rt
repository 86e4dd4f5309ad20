//! The files of a command, read one after another.
ghost use Rattle.std.specs.Prelude.{◌≡◌, ◌≢◌, ◌≤◌, ℕ, List, [], Some, Err, map, length, IfOk, IfErr};
ghost use Rattle.std.specs.List.{Contains};
ghost use Rattle.sp_outside.specs.Told.{missing};
ghost use Rattle.sp_front.specs.Sources.{source_of, total_length, max_text};
ghost use Rattle.sp_run_command.specs.declared.reading.Unread.TheVariants.{NoMemory};
ghost use Rattle.sp_run_command.specs.Reading.{IfReadable, AreRead, IsCauseAt, Explains};

use sp_front::{MAX_TEXT, Source};
use sp_outside::{Files, ReadError, read_whole};
use std::alloc::{AllocError, AllocFailed, Global};

/// Why the files aren't read.
#[derive(Clone, Copy)]
pub(crate) enum Unread<'a> {
    /// With this one there are more bytes than are taken.
    TooLong(&'a str),
    /// One can't be read.
    Fault,
    NoMemory,
}

impl<'a> From<AllocError> for Unread<'a> {
    ghost from_gives = { λ _ reason. reason ≡ NoMemory };

    fn from(_error: AllocError) -> Unread<'a> {
        Unread::NoMemory
    }
}

impl<'a, T: Drop> From<AllocFailed<T>> for Unread<'a> {
    ghost from_gives = { λ _ reason. reason ≡ NoMemory };

    fn from(_error: AllocFailed<T>) -> Unread<'a> {
        Unread::NoMemory
    }
}

/// The file of a name, where its text has at most `room` bytes.
fn read_source<'a, F: Files>(
    alloc: Global,
    name: &'a str,
    room: u64,
    files: &mut F,
) -> Result<Source, Unread<'a>>
    ensures name { IfOk result (λ s. s.name.items ≡ name.now) }
    ensures text { IfOk result (λ s.
        IfReadable (F.text_of files.old name.now) (λ text. s.text.items ≡ text)) }
    ensures fits { IfOk result (λ s. length s.text.items ≤ room) }
    ensures error { IfErr result (IsCauseAt (F.text_of files.old) name.now room
        (F.asked files.new) (F.begun files.new) (F.faults files.old) (F.faults files.new)) }
    ensures quiet { result ≢ Err Unread.Fault → F.faults files.new ≡ F.faults files.old }
    ensures reads { F.failing files.old ≡ Some [] → result ≡ Err Unread.Fault →
        F.text_of files.old name.now ≡ missing }
    ensures same_texts { F.text_of files.new ≡ F.text_of files.old }
    ensures same_failing { F.failing files.new ≡ F.failing files.old }
{
    match read_whole(alloc, files, name, room) {
        Ok(text) => {
            let name = Vec::from_slice(alloc, name.as_bytes())?;
            Ok(Source { name, text })
        }
        Err(ReadError::TooLong) => Err(Unread::TooLong(name)),
        Err(ReadError::Fault) => Err(Unread::Fault),
        Err(ReadError::NoMemory) => Err(Unread::NoMemory),
    }
}

/// The files of these names, in order, where they have at most [`MAX_TEXT`] bytes together.
pub(crate) fn read_sources<'a, F: Files>(
    alloc: Global,
    names: &[&'a str],
    files: &mut F,
) -> Result<Vec<Source>, Unread<'a>>
    ensures read { IfOk result (λ sources. AreRead (F.text_of files.old)
        (map (λ n. n.now) names.now) (map source_of sources.items)) }
    ensures fits { IfOk result (λ sources. total_length (map source_of sources.items) ≤ max_text) }
    ensures error { IfErr result (Explains (F.text_of files.old) (map (λ n. n.now) names.now)
        (F.asked files.new) (F.begun files.new) (F.faults files.old) (F.faults files.new)) }
    ensures quiet { result ≢ Err Unread.Fault → F.faults files.new ≡ F.faults files.old }
    // Where no call of the files is told to fail and each name has a text, they are read.
    ensures reads { F.failing files.old ≡ Some [] →
        ((name : List ℕ) → Contains (map (λ n. n.now) names.now) name →
        F.text_of files.old name ≢ missing) → result ≢ Err Unread.Fault }
{
    let mut sources = Vec::new(alloc);
    let mut room = MAX_TEXT as u64;
    for name in names {
        let source = read_source(alloc, name, room, files)?;
        room -= source.text.len() as u64;
        sources.push(source)?;
    }
    Ok(sources)
}
