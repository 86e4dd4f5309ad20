//! What is kept of each defined function.
ghost use Rattle.std.specs.Prelude.{◌≡◌, ◌++◌, ◌+◌, map, IfOk, OnOk};
ghost use Rattle.sp_types.specs.Programs.{function_of};
ghost use Rattle.sp_ir.specs.Programs.{code_of};
ghost use Rattle.sp_lower_functions.specs.View.{part_of};
ghost use Rattle.sp_lower_objects.specs.Codes.{part_at, number_in, result_object, code_for, codes_from, first_behind};
ghost use Rattle.sp_lower_objects.specs.Seen.{seen_function};

use sp_ir::Code;
use sp_lower_draft::{is_void, number_behind};
use sp_lower_functions::Part;
use sp_types::FunctionDef;
use std::alloc::{AllocError, Global};

/// The part of this number; one that isn't there is want of memory.
pub fn part_at(parts: &[Part], number: usize) -> Result<&Part, AllocError>
    ensures { IfOk result (λ p. part_of p.now ≡ part_at (map part_of parts.now) number) }
{
    match parts.get(number) {
        Some(part) => Ok(part),
        None => Err(AllocError),
    }
}

pub fn number_in(numbers: &[u32], place: usize) -> u32
    ensures { result ≡ number_in numbers.now place }
{
    match numbers.get(place) {
        Some(number) => *number,
        None => 0,
    }
}

/// The object of a function's result, behind its temporaries.
fn result_object(first: u32, function: &FunctionDef, part: &Part) -> Result<Option<u32>, AllocError>
    ensures { IfOk result (λ n. n ≡
        result_object first (function_of function.now) (part_of part.now)) }
{
    if is_void(function.of.result()) {
        Ok(None)
    } else {
        Ok(Some(number_behind(first, part.temporaries.len())?))
    }
}

/// Where the objects behind those of a function begin.
fn first_behind(first: u32, function: &FunctionDef, part: &Part) -> Result<u32, AllocError>
    ensures { IfOk result (λ n. n ≡
        first_behind first (function_of function.now) (part_of part.now)) }
{
    let result = number_behind(first, part.temporaries.len())?;
    if is_void(function.of.result()) {
        Ok(result)
    } else {
        number_behind(result, 1)
    }
}

fn code_for(
    alloc: Global,
    object: u32,
    first: u32,
    function: &FunctionDef,
    part: &Part,
) -> Result<Code, AllocError>
    ensures { IfOk result (λ c. code_of c ≡
        code_for object first (function_of function.now) (part_of part.now)) }
{
    Ok(Code {
        entry: part.entry,
        exit: part.exit,
        formals: Vec::from_slice(alloc, function.formals.as_slice())?,
        result: result_object(first, function, part)?,
        object,
    })
}

/// The codes of the defined functions, whose own objects begin at `first`. These are their numbers
/// in the program, and their parts; so many objects stand before the functions of the program.
pub fn codes_from(
    alloc: Global,
    before: u32,
    first: u32,
    definitions: &[u32],
    defined: &[&FunctionDef],
    parts: &[Part],
) -> Result<Vec<Code>, AllocError>
    ensures { IfOk result (λ cs. map code_of cs.items ≡ codes_from before definitions.now
        (map part_of parts.now) 0 first (map seen_function defined.now)) }
{
    let mut codes = Vec::new(alloc);
    let mut first = first;
    for (k, function) in defined.iter().enumerate() {
        let part = part_at(parts, k)?;
        let Some(object) = before.checked_add(number_in(definitions, k)) else {
            return Err(AllocError);
        };
        codes.push(code_for(alloc, object, first, function, part)?)?;
        first = first_behind(first, function, part)?;
    }
    Ok(codes)
}
