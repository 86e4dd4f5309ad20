//! The top call on files and a sink in memory.
use crate::fields::unescaped;
use sp_lattice::Steps;
use sp_outside::{MemoryFiles, MemorySink};
use sp_run_command::{Status, run};
use std::alloc::{AllocError, Global};
use std::sync::ledger::Ledger;

/// What a field lists, with blanks between; nothing where it is `-`.
fn listed(alloc: Global, field: &str) -> Result<Vec<String>, AllocError> {
    let mut found = Vec::new(alloc);
    if field != "-" {
        for word in field.split(' ') {
            found.push(String::from_str(alloc, word)?)?;
        }
    }
    Ok(found)
}

fn numbers(alloc: Global, field: &str) -> Result<Vec<u64>, AllocError> {
    let mut found = Vec::new(alloc);
    for word in listed(alloc, field)?.iter() {
        found.push(word.parse::<u64>().unwrap_or(0))?;
    }
    Ok(found)
}

/// The names and texts of the files that are left of a row's fields.
fn files_of(alloc: Global, fields: &[&str]) -> Result<Vec<(String, Vec<u8>)>, AllocError> {
    let mut files = Vec::new(alloc);
    for file in fields.chunks(2) {
        if let [name, text] = file {
            files.push((String::from_str(alloc, name)?, unescaped(alloc, text)?))?;
        }
    }
    Ok(files)
}

fn status_name(status: Status) -> &'static str {
    match status {
        Status::Clean => "clean",
        Status::Alarms => "alarms",
        Status::Refused => "refused",
        Status::Usage => "usage",
        Status::ReadFault => "read fault",
        Status::WriteFault => "write fault",
        Status::NoMemory => "out of memory",
    }
}

/// The bytes as text, with `|` for the end of a line.
fn shown(alloc: Global, status: Status, bytes: &[u8]) -> Result<String, AllocError> {
    let mut line = String::from_str(alloc, status_name(status))?;
    line.push_str(": ")?;
    for byte in bytes {
        line.push(if *byte == b'\n' {
            '|'
        } else {
            char::from(*byte)
        })?;
    }
    Ok(line)
}

/// The status of a run, and what it wrote.
pub fn run_on<L: Ledger>(
    alloc: Global,
    fields: &str,
    steps: &mut Steps<L>,
) -> Result<String, AllocError> {
    let mut parts = Vec::new(alloc);
    for field in fields.split('\t') {
        parts.push(field)?;
    }
    let [words, files_fail, room, sink_fails, files @ ..] = parts.as_slice() else {
        return format!(in alloc; "a row of too few fields");
    };
    let words = listed(alloc, words)?;
    let mut files = MemoryFiles::new(alloc, files_of(alloc, files)?, numbers(alloc, files_fail)?);
    let room = room.parse::<usize>().unwrap_or(0).min(1_000_000);
    let mut sink = MemorySink::new(alloc, room, numbers(alloc, sink_fails)?)?;
    let status = run(alloc, &words, &mut files, &mut sink, steps);
    shown(alloc, status, sink.bytes())
}
