//! The program of files, and its lowering.
ghost use Rattle.std.specs.Prelude.{◌≡◌, [], map};
ghost use Rattle.sp_types.specs.Programs.{program_of};
ghost use Rattle.sp_front.specs.Sources.{source_of, AreWithin};
ghost use Rattle.sp_front.specs.Answers.{Answers};
ghost use Rattle.sp_front.specs.inner.Steps.{MakesProgram};

use crate::files::read_files;
use crate::front::FrontError;
use crate::sources::Source;
use sp_front_laws::programs_are_typed;
use sp_ir::Lowered;
use sp_link_units::link;
use sp_lower::lower;
use sp_tree::{Names, Place};
use sp_types::Program;
use std::alloc::Global;

/// Where the first file begins: its name is the first of all.
const START: Place = Place {
    name: 0,
    line: 1,
    column: 1,
};

/// The program of files.
fn program_of(alloc: Global, sources: &[Source], names: &mut Names) -> Result<Program, FrontError>
    requires empty { names.old ≡ [] }
    requires within { AreWithin (map source_of sources.now) }
    ensures { MakesProgram (map source_of sources.now) names.new result }
{
    let units = read_files(alloc, sources, names)?;
    let program = link(alloc, &units, START, names)?;
    Ok(program)
}

/// The lowering of the program that files make, or the first fault.
/// `names` then holds the names of the program, or at a fault those so far.
pub fn lowered_of(
    alloc: Global,
    sources: &[Source],
    names: &mut Names,
) -> Result<Lowered, FrontError>
    requires empty { names.old ≡ [] }
    requires within { AreWithin (map source_of sources.now) }
    ensures { Answers (map source_of sources.now) names.new result }
{
    programs_are_typed();
    let program = program_of(alloc, sources, names)?;
    let lowered = lower(alloc, &program, names)?;
    Ok(lowered)
}
