//! Which object is of which function, and which function has which code.
ghost use Rattle.std.specs.Prelude.{◌≡◌, map, slice_get, slice_set, option_map, Some, IfOk};
ghost use Rattle.sp_types.specs.Programs.{object_of, function_of};
ghost use Rattle.sp_lower_functions.specs.Functions.{functions_at};
ghost use Rattle.sp_lower_objects.specs.Seen.{seen_function};
ghost use Rattle.sp_lower_objects.specs.Owners.{marked, owned, nothing_for, owners_of, numbered, codes_of, mark_at};

use sp_types::{FunctionDef, ObjectDef};
use std::alloc::{AllocError, Global};

fn mark(marks: &mut Vec<Option<u32>>, place: u32, mark: u32)
    ensures { marks.new.items ≡ slice_set marks.old.items place (Some mark) }
{
    if let Some(old) = marks.get_mut(place as usize) {
        *old = Some(mark);
    }
}

/// Marks these places.
fn mark_all(marks: &mut Vec<Option<u32>>, places: &[u32], by: u32)
    ensures { marks.new.items ≡ marked by places.now marks.old.items }
{
    for place in places {
        mark(marks, *place, by);
    }
}

/// No mark for each object.
fn no_owners(alloc: Global, objects: &[ObjectDef]) -> Result<Vec<Option<u32>>, AllocError>
    ensures { IfOk result (λ marks. marks.items ≡ nothing_for (map object_of objects.now)) }
{
    let mut marks = Vec::new(alloc);
    for object in objects {
        let _object = object;
        marks.push(None)?;
    }
    Ok(marks)
}

/// No mark for each function.
fn no_codes(alloc: Global, functions: &[FunctionDef]) -> Result<Vec<Option<u32>>, AllocError>
    ensures { IfOk result (λ marks. marks.items ≡ nothing_for (map function_of functions.now)) }
{
    let mut marks = Vec::new(alloc);
    for function in functions {
        let _function = function;
        marks.push(None)?;
    }
    Ok(marks)
}

/// The functions of these numbers in the program. A number of no function gives none.
pub fn defined<'a>(
    alloc: Global,
    functions: &'a [FunctionDef],
    definitions: &[u32],
) -> Result<Vec<&'a FunctionDef>, AllocError>
    ensures { IfOk result (λ gs. map seen_function gs.items ≡
        functions_at (map function_of functions.now) definitions.now) }
{
    let mut defined = Vec::new(alloc);
    for definition in definitions {
        if let Some(function) = function_at(functions, *definition) {
            defined.push(function)?;
        }
    }
    Ok(defined)
}

fn function_at(functions: &[FunctionDef], number: u32) -> Option<&FunctionDef>
    ensures { option_map seen_function result ≡ slice_get (map function_of functions.now) number }
{
    functions.get(number as usize)
}

/// Of each object the defined function that lists it.
pub fn owners_of(
    alloc: Global,
    objects: &[ObjectDef],
    defined: &[&FunctionDef],
) -> Result<Vec<Option<u32>>, AllocError>
    ensures { IfOk result (λ marks. marks.items ≡ owners_of (map object_of objects.now)
        (map seen_function defined.now)) }
{
    let mut marks = no_owners(alloc, objects)?;
    for (k, function) in defined.iter().enumerate() {
        let Ok(number) = u32::try_from(k) else {
            return Err(AllocError);
        };
        mark_all(&mut marks, function.formals.as_slice(), number);
        mark_all(&mut marks, function.locals.as_slice(), number);
    }
    Ok(marks)
}

/// Of each function the number of its definition.
pub fn codes_of(
    alloc: Global,
    functions: &[FunctionDef],
    definitions: &[u32],
) -> Result<Vec<Option<u32>>, AllocError>
    ensures { IfOk result (λ marks. marks.items ≡
        codes_of (map function_of functions.now) definitions.now) }
{
    let mut marks = no_codes(alloc, functions)?;
    for (k, definition) in definitions.iter().enumerate() {
        let Ok(number) = u32::try_from(k) else {
            return Err(AllocError);
        };
        mark(&mut marks, *definition, number);
    }
    Ok(marks)
}

/// The mark of a place.
pub fn mark_at(marks: &[Option<u32>], place: usize) -> Option<u32>
    ensures { result ≡ mark_at marks.now place }
{
    match marks.get(place) {
        Some(mark) => *mark,
        None => None,
    }
}
