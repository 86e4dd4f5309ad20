//! Files: each is scanned, parsed and checked before the next.
ghost use Rattle.std.specs.Prelude.{◌+◌, ◌-◌, ◌^◌, ◌<◌, ◌≤◌, ◌≡◌, [], length, map, All, IfOk};
ghost use Rattle.sp_parse_tokens.specs.Ended.{IsEnded};
ghost use Rattle.sp_front.specs.Sources.{source_of, IsOfBytes, AreWithin};
ghost use Rattle.sp_front.specs.inner.Steps.{Scans, GivesUnit, ReadsFile, ReadsFiles};

use crate::front::FrontError;
use crate::sources::Source;
use sp_base_checked::CheckedUnit;
use sp_decl_check::check_unit;
use sp_decl_parser::parse_unit;
use sp_lexer::scan;
use sp_tree::{Names, Token};
use std::alloc::Global;

/// The most tokens of all files, their ends not counted.
const MAX_TOKENS: u64 = 2_000_000;

/// A file that is a unit, and how many tokens the files after it may have.
#[derive(Drop)]
pub struct ReadFile {
    pub unit: CheckedUnit,
    pub room: u64,
}

/// Bytes are below 256: a clause knows it of a slice, but not of a field. The call does nothing.
fn are_bytes(bytes: &[u8])
    ensures { All (λ b. b < 256) bytes.now }
{}

/// The same of a file's name and text.
fn is_of_bytes(source: &Source)
    ensures { IsOfBytes (source_of source.now) }
{
    are_bytes(&source.name);
    are_bytes(&source.text);
}

/// The tokens of a file, before which the names are these, and which may have so many.
fn tokens_of(
    alloc: Global,
    source: &Source,
    room: u64,
    names: &mut Names,
) -> Result<Vec<Token>, FrontError>
    requires { length names.old + length (source_of source.now).text + 1 < 2 ^ 32 - 1 }
    ensures answer { Scans (record { names = names.old; room = room }) (source_of source.now)
        names.new result }
    ensures ended { IfOk result (λ tokens. IsEnded tokens.items) }
    ensures few { IfOk result (λ tokens. length tokens.items ≤ room + 1) }
    ensures count { length names.new ≤ length names.old + length (source_of source.now).text + 1 }
{
    is_of_bytes(source);
    let number = names.add(&source.name)?;
    let tokens = scan(alloc, &source.text, number, room, names)?;
    Ok(tokens)
}

/// The unit that the tokens of a file are. They are dropped once they are parsed, so that what is
/// typed can take their place in memory.
fn unit_of(alloc: Global, tokens: Vec<Token>, names: &Names) -> Result<CheckedUnit, FrontError>
    requires { IsEnded tokens.items }
    ensures { GivesUnit tokens.items names.now result }
{
    let unit = parse_unit(alloc, &tokens)?;
    drop(tokens);
    let checked = check_unit(alloc, unit, names)?;
    Ok(checked)
}

/// How many tokens may come after these, of which the end isn't counted.
fn room_after(room: u64, tokens: &[Token]) -> u64
    requires ended { IsEnded tokens.now }
    requires few { length tokens.now ≤ room + 1 }
    ensures { result + length tokens.now ≡ room + 1 }
{
    let count = tokens.len() - 1;
    room - count as u64
}

/// The unit of a file, before which the names are these, and which may have so many tokens.
fn read_file(
    alloc: Global,
    source: &Source,
    room: u64,
    names: &mut Names,
) -> Result<ReadFile, FrontError>
    requires { length names.old + length (source_of source.now).text + 1 < 2 ^ 32 - 1 }
    ensures answer { ReadsFile (record { names = names.old; room = room }) (source_of source.now)
        names.new result }
    ensures count { length names.new ≤ length names.old + length (source_of source.now).text + 1 }
{
    let tokens = tokens_of(alloc, source, room, names)?;
    let room = room_after(room, &tokens);
    let unit = unit_of(alloc, tokens, names)?;
    Ok(ReadFile { unit, room })
}

/// The units of files, in their order.
pub(crate) fn read_files(
    alloc: Global,
    sources: &[Source],
    names: &mut Names,
) -> Result<Vec<CheckedUnit>, FrontError>
    requires empty { names.old ≡ [] }
    requires within { AreWithin (map source_of sources.now) }
    ensures { ReadsFiles (map source_of sources.now) names.new result }
{
    let mut units = Vec::new(alloc);
    let mut room = MAX_TOKENS;
    'files: for source in sources {
        let file = read_file(alloc, source, room, names)?;
        room = file.room;
        units.push(file.unit)?;
    }
    Ok(units)
}
