//! The lowering of a program.
ghost use Rattle.std.specs.Prelude.{◌≡◌, ℕ, ◌+◌, map, IfOk};
ghost use Rattle.sp_types.specs.Programs.{program_of};
ghost use Rattle.sp_lower_draft.specs.Draft.{left};
ghost use Rattle.sp_lower_draft.specs.View.{draft_of};
ghost use Rattle.sp_lower_body.specs.View.{initial_view};
ghost use Rattle.sp_lower_functions.specs.Functions.{lower_functions};
ghost use Rattle.sp_lower_functions.specs.View.{part_of};
ghost use Rattle.sp_lower_objects.specs.Initials.{initials_from};
ghost use Rattle.sp_lower.specs.Programs.{
  context_with,
  program_context,
  defined,
  first_local,
  local_count,
  site_count,
  start_due,
  beginning,
  IsNumberedBy,
};
ghost use Rattle.sp_lower.specs.Answers.{Lowers, Ends};

use crate::building::{is_due, objects};
use crate::limits::{Outcome, ended};
use crate::passes::{Known, START, are_same, behind_locals, counts_of, find_known, pass};
use sp_ir::Lowered;
use sp_lower_functions::Functions;
use sp_tree::{Fault, Names};
use sp_types::Program;
use std::alloc::{AllocError, Global};

/// Why a program isn't lowered.
#[derive(Debug, Drop)]
pub enum LowerError {
    /// It is past a limit.
    Fault(Fault),
    NoMemory,
}

/// What is known before, with whether a pointer from outside may come to `main`.
#[derive(Drop)]
struct Begun {
    known: Known,
    due: bool,
}

/// Functions that are lowered, with the number of the first site that a node has.
#[derive(Drop)]
struct Numbered {
    functions: Functions,
    first_site: u32,
}

fn begin(alloc: Global, program: &Program, names: &Names) -> Result<Begun, AllocError>
    ensures context { IfOk result (λ b. (n : ℕ) → context_with (program_of program.now)
        b.known.routines.items b.known.pointers.items n ≡
        program_context (program_of program.now) names.now n) }
    ensures initials { IfOk result (λ b. map initial_view b.known.initials.items ≡
        initials_from (program_of program.now).structs 0 (program_of program.now).objects) }
    ensures due { IfOk result (λ b. b.due ≡ start_due (program_of program.now) names.now) }
{
    let known = find_known(alloc, program, names)?;
    let due = is_due(alloc, program, &known);
    Ok(Begun { known, due })
}

/// Where the sites of nodes begin, where functions have so many temporaries.
fn first_site(
    alloc: Global,
    program: &Program,
    due: bool,
    counts: &[usize],
) -> Result<u32, AllocError>
    ensures { IfOk result (λ n. n ≡ first_local (program_of program.now)
        + local_count 0 (defined (program_of program.now)) counts.now + site_count due) }
{
    let first = behind_locals(alloc, program, counts)?;
    if !due {
        return Ok(first);
    }
    match first.checked_add(1) {
        Some(first) => Ok(first),
        None => Err(AllocError),
    }
}

/// The functions, lowered where they have so many temporaries.
fn lowering(
    alloc: Global,
    program: &Program,
    begun: &Begun,
    counts: &[usize],
) -> Result<Numbered, AllocError>
    ensures site { IfOk result (λ n. n.first_site ≡ first_local (program_of program.now)
        + local_count 0 (defined (program_of program.now)) counts.now + site_count begun.now.due) }
    ensures functions { IfOk result (λ n. left (map part_of n.functions.parts.items)
        (draft_of n.functions.draft) ≡ lower_functions (context_with (program_of program.now)
        begun.now.known.routines.items begun.now.known.pointers.items n.first_site)
        (map initial_view begun.now.known.initials.items) 0 (first_local (program_of program.now))
        (defined (program_of program.now)) counts.now beginning) }
{
    let first_site = first_site(alloc, program, begun.due, counts)?;
    let functions = pass(alloc, program, &begun.known, first_site, counts)?;
    Ok(Numbered {
        functions,
        first_site,
    })
}

/// The functions, lowered under the numbering that their own temporaries make. Objects are numbered
/// by the counts of a first pass, and the second has as many: were it not so, it would want memory.
fn number_functions(alloc: Global, program: &Program, begun: &Begun) -> Result<Numbered, AllocError>
    ensures { IfOk result (λ n. IsNumberedBy (program_of program.now)
        begun.now.known.routines.items begun.now.known.pointers.items
        (map initial_view begun.now.known.initials.items) begun.now.due n.first_site
        (left (map part_of n.functions.parts.items) (draft_of n.functions.draft))) }
{
    let first = lowering(alloc, program, begun, &[])?;
    let counts = counts_of(alloc, first.functions.parts.as_slice())?;
    let second = lowering(alloc, program, begun, counts.as_slice())?;
    let again = counts_of(alloc, second.functions.parts.as_slice())?;
    if are_same(counts.as_slice(), again.as_slice()) {
        Ok(second)
    } else {
        Err(AllocError)
    }
}

fn lowered(alloc: Global, program: &Program, names: &Names) -> Result<Outcome, AllocError>
    ensures { IfOk result (λ o. Ends (program_of program.now) names.now o) }
{
    let begun = begin(alloc, program, names)?;
    let numbered = number_functions(alloc, program, &begun)?;
    let objects = objects(
        alloc,
        program,
        names,
        &begun.known,
        numbered.first_site,
        begun.due,
        &numbered.functions,
    )?;
    ended(alloc, program, objects, numbered.functions)
}

/// Lowers a checked program: its nodes and edges, objects, regions and functions. Refused are
/// programs of more than 500,000 nodes, and of others those of more than 200,000 regions.
pub fn lower(alloc: Global, program: &Program, names: &Names) -> Result<Lowered, LowerError>
    ensures { Lowers (program_of program.now) names.now result }
{
    match lowered(alloc, program, names) {
        Ok(Outcome::Whole(lowered)) => Ok(lowered),
        Ok(Outcome::Past(kind)) => Err(LowerError::Fault(Fault { kind, place: START })),
        Err(_) => Err(LowerError::NoMemory),
    }
}
