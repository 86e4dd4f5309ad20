//! A lowered program put together.
ghost use Rattle.std.specs.Prelude.{◌≡◌, ◌++◌, length, map, option_map, slice_get, IfOk, OnOk};
ghost use Rattle.sp_types.specs.View.{type_of, struct_of};
ghost use Rattle.sp_types.specs.Programs.{program_of};
ghost use Rattle.sp_ir.specs.Programs.{object_of, code_of, lowered_of};
ghost use Rattle.sp_lower_draft.specs.Draft.{left};
ghost use Rattle.sp_lower_draft.specs.View.{context_of, draft_of};
ghost use Rattle.sp_lower_body.specs.View.{initial_view};
ghost use Rattle.sp_lower_functions.specs.View.{part_of};
ghost use Rattle.sp_lower_objects.specs.Objects.{takes_pointer};
ghost use Rattle.sp_lower_objects.specs.Owners.{codes_of, mark_at};
ghost use Rattle.sp_lower_objects.specs.Codes.{known_number, codes_from};
ghost use Rattle.sp_lower.specs.Seen.{seen_members};
ghost use Rattle.sp_lower.specs.Programs.{context_with, defined, first_local, declared_with, made_with, objects_with, lowered_with};

use crate::passes::{Known, end_scope, first_local, scope_of};
use sp_ir::{Code, Lowered, Object};
use sp_lower_draft::{Scope, number_behind};
use sp_lower_functions::{Functions, Part};
use sp_lower_objects::{
    add_functions, add_locals, add_program_objects, add_sites, codes_from, codes_of, defined,
    function_names, mark_at, owners_of, regions_of, start_site, takes_pointer,
};
use sp_tree::Names;
use sp_types::{CType, Program, StructType};
use std::alloc::{AllocError, Global};

/// Whether a pointer from outside may come to `main`.
pub fn is_due(alloc: Global, program: &Program, known: &Known) -> bool
    ensures { result ≡ takes_pointer (context_with (program_of program.now)
        known.now.routines.items known.now.pointers.items 0)
        (slice_get (program_of program.now).functions (program_of program.now).main) }
{
    let scope = scope_of(alloc, program, known, 0);
    let due = takes_pointer(&scope, program.functions.get(program.main as usize));
    end_scope(scope);
    due
}

/// The objects that stand in the program: those of the units, and functions.
fn add_declared(
    scope: &Scope<'_>,
    program: &Program,
    names: &Names,
    known: &Known,
    all: &mut Vec<Object>,
) -> Result<(), AllocError>
    requires { (context_of scope.now).objects ≡ (program_of program.now).objects }
    ensures { OnOk result (map object_of all.new.items ≡ map object_of all.old.items ++
        declared_with (program_of program.now) names.now (context_of scope.now)
        (map initial_view known.now.initials.items)) }
{
    let alloc = scope.alloc;
    let functions = program.functions.as_slice();
    let definitions = program.definitions.as_slice();
    let defined = defined(alloc, functions, definitions)?;
    let named = function_names(alloc, defined.as_slice())?;
    let owners = owners_of(alloc, program.objects.as_slice(), defined.as_slice())?;
    add_program_objects(
        scope,
        names,
        named.as_slice(),
        owners.as_slice(),
        known.initials.as_slice(),
        all,
    )?;
    let codes = codes_of(alloc, functions, definitions)?;
    add_functions(alloc, names, codes.as_slice(), functions, all)
}

/// The objects that lowering makes.
fn add_made(
    alloc: Global,
    program: &Program,
    names: &Names,
    due: bool,
    functions: &Functions,
    all: &mut Vec<Object>,
) -> Result<(), AllocError>
    ensures { OnOk result (map object_of all.new.items ≡ map object_of all.old.items ++
        made_with (program_of program.now) names.now due
        (left (map part_of functions.now.parts.items) (draft_of functions.now.draft))) }
{
    let defined = defined(
        alloc,
        program.functions.as_slice(),
        program.definitions.as_slice(),
    )?;
    add_locals(
        alloc,
        names,
        defined.as_slice(),
        functions.parts.as_slice(),
        all,
    )?;
    start_site(alloc, due, all)?;
    add_sites(alloc, functions.draft.sites.as_slice(), all)
}

/// The objects of a program whose functions are lowered.
pub fn objects(
    alloc: Global,
    program: &Program,
    names: &Names,
    known: &Known,
    first_site: u32,
    due: bool,
    functions: &Functions,
) -> Result<Vec<Object>, AllocError>
    ensures { IfOk result (λ os. map object_of os.items ≡ objects_with (program_of program.now)
        names.now (context_with (program_of program.now) known.now.routines.items
        known.now.pointers.items first_site) (map initial_view known.now.initials.items) due
        (left (map part_of functions.now.parts.items) (draft_of functions.now.draft))) }
{
    let mut all = Vec::new(alloc);
    let scope = scope_of(alloc, program, known, first_site);
    let declared = add_declared(&scope, program, names, known, &mut all);
    end_scope(scope);
    declared?;
    add_made(alloc, program, names, due, functions, &mut all)?;
    Ok(all)
}

/// Members once more.
fn copy_members(alloc: Global, members: &[(u32, CType)]) -> Result<Vec<(u32, CType)>, AllocError>
    ensures { IfOk result (λ copies. seen_members copies.items ≡ seen_members members.now) }
{
    let mut copies = Vec::new(alloc);
    for member in members {
        copies.push((member.0, member.1.copy(alloc)?))?;
    }
    Ok(copies)
}

/// A struct or a union once more.
fn copy_struct(alloc: Global, found: &StructType) -> Result<StructType, AllocError>
    ensures { IfOk result (λ copy. struct_of copy ≡ struct_of found.now) }
{
    let members = match &found.members {
        Some(members) => Some(copy_members(alloc, members.as_slice())?),
        None => None,
    };
    Ok(StructType {
        tag: found.tag,
        union: found.union,
        members,
        extent: found.extent,
        level: found.level,
        leaves: found.leaves,
        cells: found.cells,
    })
}

/// The table of structs once more.
fn copy_structs(alloc: Global, structs: &[StructType]) -> Result<Vec<StructType>, AllocError>
    ensures { IfOk result (λ copies. map struct_of copies.items ≡ map struct_of structs.now) }
{
    let mut copies = Vec::new(alloc);
    for found in structs {
        copies.push(copy_struct(alloc, found)?)?;
    }
    Ok(copies)
}

/// The function that the program starts with, among those that are defined.
fn main_of(alloc: Global, program: &Program) -> Result<u32, AllocError>
    ensures { IfOk result (λ n. n ≡ known_number (mark_at (codes_of
        (program_of program.now).functions (program_of program.now).definitions)
        (program_of program.now).main)) }
{
    let functions = program.functions.as_slice();
    let codes = codes_of(alloc, functions, program.definitions.as_slice())?;
    match mark_at(codes.as_slice(), program.main as usize) {
        Some(number) => Ok(number),
        None => Ok(0),
    }
}

/// The codes of the defined functions, of which these are the parts.
fn codes(alloc: Global, program: &Program, parts: &[Part]) -> Result<Vec<Code>, AllocError>
    ensures { IfOk result (λ cs. map code_of cs.items ≡ codes_from
        (length (program_of program.now).objects) (program_of program.now).definitions
        (map part_of parts.now) 0 (first_local (program_of program.now))
        (defined (program_of program.now))) }
{
    let definitions = program.definitions.as_slice();
    let defined = defined(alloc, program.functions.as_slice(), definitions)?;
    let before = number_behind(0, program.objects.len())?;
    codes_from(
        alloc,
        before,
        first_local(program)?,
        definitions,
        defined.as_slice(),
        parts,
    )
}

/// The lowered program of these objects and functions.
pub fn whole(
    alloc: Global,
    program: &Program,
    objects: Vec<Object>,
    functions: Functions,
) -> Result<Lowered, AllocError>
    ensures { IfOk result (λ l. lowered_of l ≡ lowered_with (program_of program.now)
        (map object_of objects.items)
        (left (map part_of functions.parts.items) (draft_of functions.draft))) }
{
    let structs = copy_structs(alloc, program.structs.as_slice())?;
    let regions = regions_of(alloc, structs.as_slice(), objects.as_slice())?;
    let codes = codes(alloc, program, functions.parts.as_slice())?;
    let main = main_of(alloc, program)?;
    let constants = Vec::from_slice(alloc, program.constants.as_slice())?;
    let Functions { draft, .. } = functions;
    Ok(Lowered {
        structs,
        objects,
        regions,
        functions: codes,
        nodes: draft.nodes,
        flow: draft.edges,
        constants,
        main,
    })
}
