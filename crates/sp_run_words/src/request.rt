//! What the words ask for.

ghost use Rattle.std.specs.Prelude.{◌≡◌, IfOk, map, option_map, string_bytes};
ghost use Rattle.sp_run_words.specs.Words.{asked_of, command_of, fits, read_by, read_of, task_by};

use crate::reader::{FILES, NODES, SHARP, VALUES, reader};
use clap::error::ErrorKind;
use std::alloc::{AllocError, Global};

/// The engine of the analysis.
#[derive(Clone, Copy, Debug, PartialEq, Eq)]
pub enum Engine {
    /// `analyse`
    Sparse,
    /// `dense`
    Dense,
}

/// What is wanted of the program of the files.
#[derive(Clone, Copy, Debug, PartialEq, Eq)]
pub enum Task {
    /// The report by an engine.
    Report {
        engine: Engine,
        /// Whether a run goes on behind an access as its check says, by `--sharp`.
        sharp: bool,
        /// Whether it goes on with values, by `--values`.
        values: bool,
        /// Whether it goes on with the alarms of each node, by `--nodes`.
        nodes: bool,
    },
    /// The indirect calls, by `calls`.
    Calls,
}

/// What the words ask for.
#[derive(Debug, Drop)]
pub struct Request<'a> {
    /// What is wanted.
    pub task: Task,
    /// The names of the files, in their order.
    pub files: Vec<&'a str>,
}

/// What the first word names.
#[derive(Clone, Copy)]
enum Command {
    Analysis(Engine),
    Calls,
}

fn command_of(word: &str) -> Option<Command>
    ensures { result ≡ command_of word.now }
{
    match word {
        "analyse" => Some(Command::Analysis(Engine::Sparse)),
        "dense" => Some(Command::Analysis(Engine::Dense)),
        "calls" => Some(Command::Calls),
        _ => None,
    }
}

/// What a command wants with these flags.
fn task_by(command: Command, sharp: bool, values: bool, nodes: bool) -> Option<Task>
    ensures { result ≡ task_by command sharp values nodes }
{
    match command {
        Command::Analysis(engine) => Some(Task::Report {
            engine,
            sharp,
            values,
            nodes,
        }),
        Command::Calls => {
            if sharp || values || nodes {
                None
            } else {
                Some(Task::Calls)
            }
        }
    }
}

/// The words behind the first: which flags stand, and the FILEs.
#[derive(Drop)]
struct Read<'a> {
    sharp: bool,
    values: bool,
    nodes: bool,
    files: Vec<&'a str>,
}

/// The words behind the first, or `None` where they don't fit.
fn read_words<'a>(alloc: Global, words: &'a [String]) -> Result<Option<Read<'a>>, AllocError>
    ensures { IfOk result (λ found.
        option_map read_of found ≡ read_by (map string_bytes words.now)) }
{
    let matches = match reader(alloc)?.try_get_matches_from(words) {
        Ok(matches) => matches,
        Err(error) if error.kind() == ErrorKind::OutOfMemory => return Err(AllocError),
        Err(_) => return Ok(None),
    };
    let sharp = matches.get_flag(SHARP);
    let values = matches.get_flag(VALUES);
    let nodes = matches.get_flag(NODES);
    let files = Vec::from_slice(alloc, matches.get_strs(FILES).unwrap_or(&[]))?;
    Ok(Some(Read {
        sharp,
        values,
        nodes,
        files,
    }))
}

/// What the words after the program's name ask for, or `None` where they don't fit.
pub fn request_of<'a>(alloc: Global, words: &'a [String]) -> Result<Option<Request<'a>>, AllocError>
    ensures { IfOk result (λ request.
        option_map asked_of request ≡ fits (map string_bytes words.now)) }
{
    let [first, words @ ..] = words else {
        return Ok(None);
    };
    let Some(command) = command_of(first.as_str()) else {
        return Ok(None);
    };
    let Some(found) = read_words(alloc, words)? else {
        return Ok(None);
    };
    let Read {
        sharp,
        values,
        nodes,
        files,
    } = found;
    match task_by(command, sharp, values, nodes) {
        Some(task) => Ok(Some(Request { task, files })),
        None => Ok(None),
    }
}
