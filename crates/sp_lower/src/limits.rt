//! The limits of a lowered program.
ghost use Rattle.std.specs.Prelude.{◌≡◌, map, IfOk};
ghost use Rattle.sp_types.specs.Programs.{program_of};
ghost use Rattle.sp_ir.specs.Programs.{object_of};
ghost use Rattle.sp_lower_draft.specs.Draft.{left};
ghost use Rattle.sp_lower_draft.specs.View.{draft_of};
ghost use Rattle.sp_lower_functions.specs.View.{part_of};
ghost use Rattle.sp_lower.specs.Programs.{lowered_with};
ghost use Rattle.sp_lower.specs.Answers.{EndsAt};

use crate::building::whole;
use sp_ir::{Lowered, Object};
use sp_lower_functions::Functions;
use sp_lower_objects::{MAX_REGIONS, regions_fit};
use sp_tree::FaultKind;
use sp_types::Program;
use std::alloc::{AllocError, Global};

/// The most nodes, as many as the analysis has room for.
pub const MAX_NODES: usize = 500_000;

/// How a lowering ends.
#[derive(Drop)]
pub enum Outcome {
    Whole(Lowered),
    /// It is past a limit.
    Past(FaultKind),
}

/// The program of these objects and functions, if it is within the limits.
pub fn ended(
    alloc: Global,
    program: &Program,
    objects: Vec<Object>,
    functions: Functions,
) -> Result<Outcome, AllocError>
    ensures { IfOk result (λ o. EndsAt (lowered_with (program_of program.now)
        (map object_of objects.items)
        (left (map part_of functions.parts.items) (draft_of functions.draft))) o) }
{
    if functions.draft.nodes.len() > MAX_NODES {
        return Ok(Outcome::Past(FaultKind::TooManyNodes));
    }
    if !regions_fit(
        alloc,
        program.structs.as_slice(),
        objects.as_slice(),
        MAX_REGIONS,
    )? {
        return Ok(Outcome::Past(FaultKind::TooManyRegions));
    }
    Ok(Outcome::Whole(whole(alloc, program, objects, functions)?))
}
