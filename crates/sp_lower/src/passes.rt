//! Passes over the functions, and the counts of temporaries by which objects are numbered.
ghost use Rattle.std.specs.Prelude.{◌≡◌, ◌+◌, IsTrue, map, length, IfOk};
ghost use Rattle.sp_types.specs.View.{struct_of};
ghost use Rattle.sp_types.specs.Programs.{program_of, object_of, function_of};
ghost use Rattle.sp_base_layouts.specs.Layouts.{pointers_of};
ghost use Rattle.sp_lower_draft.specs.Draft.{left};
ghost use Rattle.sp_lower_draft.specs.View.{context_of, draft_of};
ghost use Rattle.sp_lower_body.specs.View.{initial_view};
ghost use Rattle.sp_lower_functions.specs.Functions.{lower_functions, temporary_counts, result_count};
ghost use Rattle.sp_lower_functions.specs.View.{part_of};
ghost use Rattle.sp_lower_objects.specs.Codes.{number_in};
ghost use Rattle.sp_lower_objects.specs.Seen.{seen_function};
ghost use Rattle.sp_lower_objects.specs.Initials.{initials_from};
ghost use Rattle.sp_lower_objects.specs.Routines.{routines_of};
ghost use Rattle.sp_lower.specs.Programs.{beginning, defined, first_local, local_count, context_with};

use sp_base_layouts::pointer_flags;
use sp_ir::{Command, Node, Routine};
use sp_lower_body::Initial;
use sp_lower_draft::{Draft, Scope, is_void, number_behind};
use sp_lower_functions::{Functions, Part, lower_functions};
use sp_lower_objects::{defined, initials_of, routines_of};
use sp_tree::{Names, Place};
use sp_types::{FunctionDef, Program};
use std::alloc::{AllocError, Global};

/// Where the first file begins.
pub const START: Place = Place {
    name: 0,
    line: 1,
    column: 1,
};

/// What is known of a program before its functions are lowered.
#[derive(Drop)]
pub struct Known {
    /// Of each function the routine that its name says.
    pub routines: Vec<Option<Routine>>,
    /// Of each struct whether it has a leaf of pointer type.
    pub pointers: Vec<bool>,
    /// Where the start values of objects go.
    pub initials: Vec<Initial>,
}

/// What is known before.
pub fn find_known(alloc: Global, program: &Program, names: &Names) -> Result<Known, AllocError>
    ensures routines { IfOk result (λ k. k.routines.items ≡
        routines_of names.now (program_of program.now).functions) }
    ensures pointers { IfOk result (λ k. k.pointers.items ≡
        pointers_of (program_of program.now).structs) }
    ensures initials { IfOk result (λ k. map initial_view k.initials.items ≡
        initials_from (program_of program.now).structs 0 (program_of program.now).objects) }
{
    Ok(Known {
        routines: routines_of(alloc, names, program.functions.as_slice())?,
        pointers: pointer_flags(alloc, program.structs.as_slice())?,
        initials: initials_of(
            alloc,
            program.structs.as_slice(),
            program.objects.as_slice(),
        )?,
    })
}

/// What lowering knows of a program where sites begin at this number.
pub fn scope_of<'a>(
    alloc: Global,
    program: &'a Program,
    known: &'a Known,
    first_site: u32,
) -> Scope<'a>
    ensures { context_of result ≡ context_with (program_of program.now) known.now.routines.items
        known.now.pointers.items first_site }
{
    Scope {
        alloc,
        structs: program.structs.as_slice(),
        objects: program.objects.as_slice(),
        functions: program.functions.as_slice(),
        routines: known.routines.as_slice(),
        pointers: known.pointers.as_slice(),
        function: 0,
        first_temporary: 0,
        first_site,
    }
}

/// A scope that isn't used any more.
pub fn end_scope(scope: Scope<'_>) {
    let Scope {
        alloc: _alloc,
        structs: _structs,
        objects: _objects,
        functions: _functions,
        routines: _routines,
        pointers: _pointers,
        function: _function,
        first_temporary: _first_temporary,
        first_site: _first_site,
    } = scope;
}

/// The start node alone.
fn beginning(alloc: Global) -> Result<Draft, AllocError>
    ensures { IfOk result (λ s. draft_of s ≡ beginning) }
{
    let mut nodes = Vec::new(alloc);
    nodes.push(Node {
        command: Command::Start,
        place: START,
        function: None,
    })?;
    Ok(Draft {
        nodes,
        edges: Vec::new(alloc),
        loose: Vec::new(alloc),
        temporaries: Vec::new(alloc),
        sites: Vec::new(alloc),
    })
}

/// The objects of the units and the functions.
pub fn first_local(program: &Program) -> Result<u32, AllocError>
    ensures { IfOk result (λ n. n ≡ first_local (program_of program.now)) }
{
    number_behind(
        number_behind(0, program.objects.len())?,
        program.functions.len(),
    )
}

/// The functions' nodes and edges, where they have so many temporaries and sites begin at this
/// number.
pub fn pass(
    alloc: Global,
    program: &Program,
    known: &Known,
    first_site: u32,
    counts: &[usize],
) -> Result<Functions, AllocError>
    ensures { IfOk result (λ fs. left (map part_of fs.parts.items) (draft_of fs.draft) ≡
        lower_functions (context_with (program_of program.now) known.now.routines.items
        known.now.pointers.items first_site) (map initial_view known.now.initials.items) 0
        (first_local (program_of program.now)) (defined (program_of program.now)) counts.now
        beginning) }
{
    let first = first_local(program)?;
    let draft = beginning(alloc)?;
    let scope = scope_of(alloc, program, known, first_site);
    let made = lower_functions(
        &scope,
        known.initials.as_slice(),
        first,
        program.definitions.as_slice(),
        counts,
        draft,
    );
    end_scope(scope);
    made
}

/// How many temporaries each function has.
pub fn counts_of(alloc: Global, parts: &[Part]) -> Result<Vec<usize>, AllocError>
    ensures { IfOk result (λ ns. ns.items ≡ temporary_counts (map part_of parts.now)) }
{
    let mut counts = Vec::new(alloc);
    for part in parts {
        counts.push(part.temporaries.len())?;
    }
    Ok(counts)
}

/// Whether these are the same counts.
pub fn are_same(counts: &[usize], others: &[usize]) -> bool
    ensures { IsTrue result → counts.now ≡ others.now }
{
    counts == others
}

fn count_at(counts: &[usize], place: usize) -> usize
    ensures { result ≡ number_in counts.now place }
{
    match counts.get(place) {
        Some(count) => *count,
        None => 0,
    }
}

fn result_count(function: &FunctionDef) -> usize
    ensures { result ≡ result_count (function_of function.now) }
{
    if is_void(function.of.result()) { 0 } else { 1 }
}

/// What is behind the objects of their own that these functions have, where they begin at `first`.
fn behind_each(first: u32, defined: &[&FunctionDef], counts: &[usize]) -> Result<u32, AllocError>
    ensures { IfOk result (λ n. n ≡ first + local_count 0 (map seen_function defined.now) counts.now) }
{
    let mut behind = first;
    for (k, function) in defined.iter().enumerate() {
        behind = number_behind(behind, count_at(counts, k))?;
        behind = number_behind(behind, result_count(function))?;
    }
    Ok(behind)
}

/// What is behind the functions' temporaries and results, with so many temporaries each.
pub fn behind_locals(alloc: Global, program: &Program, counts: &[usize]) -> Result<u32, AllocError>
    ensures { IfOk result (λ n. n ≡ first_local (program_of program.now)
        + local_count 0 (defined (program_of program.now)) counts.now) }
{
    let defined = defined(
        alloc,
        program.functions.as_slice(),
        program.definitions.as_slice(),
    )?;
    behind_each(first_local(program)?, defined.as_slice(), counts)
}
