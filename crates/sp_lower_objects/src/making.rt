//! The objects that lowering makes: temporaries, results and sites.
ghost use Rattle.std.specs.Prelude.{◌≡◌, ◌++◌, ◌+◌, ℕ, Option, Some, None, map, slice_get, option_map, IfOk, OnOk};
ghost use Rattle.sp_types.specs.Types.{result_of};
ghost use Rattle.sp_types.specs.View.{type_of, signature_of};
ghost use Rattle.sp_types.specs.Programs.{function_of};
ghost use Rattle.sp_ir.specs.Programs.{object_of};
ghost use Rattle.std.specs.List.{list_any};
ghost use Rattle.sp_lower_draft.specs.Context.{has_pointer, object_type};
ghost use Rattle.sp_lower_objects.specs.Names.{name_at};
ghost use Rattle.sp_lower_draft.specs.View.{context_of, site_of};
ghost use Rattle.sp_lower_functions.specs.View.{part_of};
ghost use Rattle.sp_lower_objects.specs.Seen.{seen_function};
ghost use Rattle.sp_lower_objects.specs.Objects.{
  plain_object,
  temporary_objects,
  result_objects,
  own_objects,
  local_objects,
  start_sites,
  site_object,
  takes_pointer,
};

use crate::codes::part_at;
use crate::naming::{foreign_name, heap_name, name_at, result_name, temporary_name};
use sp_ir::{Object, ObjectKind};
use sp_lower_draft::{Scope, Site, has_pointer, is_void};
use sp_lower_functions::Part;
use sp_tree::Names;
use sp_types::{CType, FunctionDef};
use std::alloc::{AllocError, Global};

/// An object without start values.
fn plain_object(
    alloc: Global,
    kind: ObjectKind,
    of: Option<CType>,
    name: Vec<u8>,
    function: Option<u32>,
) -> Object
    ensures { object_of result ≡ plain_object kind (option_map type_of of) name.items function }
{
    Object {
        kind,
        of,
        name,
        function,
        start: Vec::new(alloc),
        zero: Vec::new(alloc),
        code: None,
    }
}

/// Adds the temporaries of the function of this number.
fn add_temporaries(
    alloc: Global,
    function: &[u8],
    number: u32,
    temporaries: &[CType],
    all: &mut Vec<Object>,
) -> Result<(), AllocError>
    ensures { OnOk result (map object_of all.new.items ≡ map object_of all.old.items ++
        temporary_objects function.now number 1 (map type_of temporaries.now)) }
{
    for (k, of) in temporaries.iter().enumerate() {
        let name = temporary_name(alloc, function, k + 1)?;
        let of = of.copy(alloc)?;
        all.push(plain_object(alloc, ObjectKind::Temp, Some(of), name, Some(number)))?;
    }
    Ok(())
}

/// Adds the result of the function of this number, where it has one.
fn add_result(
    alloc: Global,
    function: &[u8],
    number: u32,
    of: &CType,
    all: &mut Vec<Object>,
) -> Result<(), AllocError>
    ensures { OnOk result (map object_of all.new.items ≡ map object_of all.old.items ++
        result_objects function.now number (type_of of.now)) }
{
    if !is_void(of) {
        let name = result_name(alloc, function)?;
        let of = of.copy(alloc)?;
        all.push(plain_object(alloc, ObjectKind::Result, Some(of), name, Some(number)))?;
    }
    Ok(())
}

/// Adds the temporaries and the result of a function.
fn add_own(
    alloc: Global,
    names: &Names,
    number: u32,
    function: &FunctionDef,
    part: &Part,
    all: &mut Vec<Object>,
) -> Result<(), AllocError>
    ensures { OnOk result (map object_of all.new.items ≡ map object_of all.old.items ++
        own_objects (name_at names.now (function_of function.now).name) number
        (function_of function.now) (part_of part.now).temporaries) }
{
    let name = name_at(names, function.name);
    add_temporaries(alloc, name, number, part.temporaries.as_slice(), all)?;
    add_result(alloc, name, number, function.of.result(), all)
}

/// Adds the temporaries and the results of the defined functions, of which these are the parts. A
/// part that isn't there is want of memory.
pub fn add_locals(
    alloc: Global,
    names: &Names,
    defined: &[&FunctionDef],
    parts: &[Part],
    all: &mut Vec<Object>,
) -> Result<(), AllocError>
    ensures { OnOk result (map object_of all.new.items ≡ map object_of all.old.items ++
        local_objects names.now 0 (map seen_function defined.now) (map part_of parts.now)) }
{
    for (k, function) in defined.iter().enumerate() {
        let Ok(number) = u32::try_from(k) else {
            return Err(AllocError);
        };
        add_own(alloc, names, number, function, part_at(parts, k)?, all)?;
    }
    Ok(())
}

/// Whether one of the formals of this function has a leaf of pointer type.
pub fn takes_pointer(scope: &Scope<'_>, function: Option<&FunctionDef>) -> bool
    ensures { result ≡ takes_pointer (context_of scope.now)
        (option_map (λ f. function_of f.now) function.entry) }
{
    match function {
        Some(function) => any_pointer(scope, function.formals.as_slice()),
        None => false,
    }
}

fn any_pointer(scope: &Scope<'_>, objects: &[u32]) -> bool
    ensures { result ≡ list_any (λ n. has_pointer (context_of scope.now).pointers
        (object_type (context_of scope.now) n)) objects.now }
{
    for object in objects {
        if object_points(scope, *object) {
            return true;
        }
    }
    false
}

fn object_points(scope: &Scope<'_>, object: u32) -> bool
    ensures { result ≡ has_pointer (context_of scope.now).pointers
        (object_type (context_of scope.now) object) }
{
    match scope.objects.get(object as usize) {
        Some(object) => has_pointer(scope.pointers, &object.of),
        None => false,
    }
}

/// Adds the site where a pointer from outside points at the start of the program.
pub fn start_site(alloc: Global, due: bool, all: &mut Vec<Object>) -> Result<(), AllocError>
    ensures { OnOk result (map object_of all.new.items ≡
        map object_of all.old.items ++ start_sites due) }
{
    if due {
        let name = foreign_name(alloc, 0)?;
        all.push(plain_object(alloc, ObjectKind::Foreign(0), None, name, None))?;
    }
    Ok(())
}

/// The object of a site.
fn site_object(alloc: Global, site: &Site) -> Result<Object, AllocError>
    ensures { IfOk result (λ o. object_of o ≡ site_object (site_of site.now)) }
{
    let of = match &site.of {
        Some(of) => Some(of.copy(alloc)?),
        None => None,
    };
    if site.heap {
        let name = heap_name(alloc, site.node)?;
        Ok(plain_object(alloc, ObjectKind::Heap(site.node), of, name, None))
    } else {
        let name = foreign_name(alloc, site.node)?;
        Ok(plain_object(alloc, ObjectKind::Foreign(site.node), of, name, None))
    }
}

/// Adds the objects of sites.
pub fn add_sites(alloc: Global, sites: &[Site], all: &mut Vec<Object>) -> Result<(), AllocError>
    ensures { OnOk result (map object_of all.new.items ≡ map object_of all.old.items ++
        map site_object (map site_of sites.now)) }
{
    for site in sites {
        all.push(site_object(alloc, site)?)?;
    }
    Ok(())
}
