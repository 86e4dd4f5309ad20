//! The functions of the library that have an effect of their own (C90 7.10, 7.11).
ghost use Rattle.std.specs.Prelude.{◌≡◌, map, IfOk};
ghost use Rattle.sp_types.specs.Programs.{function_of};
ghost use Rattle.sp_lower_objects.specs.Routines.{system_routine, string_routine, routine_of, routines_of};

use crate::naming::name_at;
use sp_ir::Routine;
use sp_tree::Names;
use sp_types::FunctionDef;
use std::alloc::{AllocError, Global};

/// Those of memory and of the program.
fn system_routine(name: &[u8]) -> Option<Routine>
    ensures { result ≡ system_routine name.now }
{
    if name == b"malloc".as_slice() {
        Some(Routine::Malloc)
    } else if name == b"calloc".as_slice() {
        Some(Routine::Calloc)
    } else if name == b"realloc".as_slice() {
        Some(Routine::Realloc)
    } else if name == b"free".as_slice() {
        Some(Routine::Free)
    } else if name == b"exit".as_slice() {
        Some(Routine::Exit)
    } else if name == b"abort".as_slice() {
        Some(Routine::Abort)
    } else {
        None
    }
}

/// Those of strings.
fn string_routine(name: &[u8]) -> Option<Routine>
    ensures { result ≡ string_routine name.now }
{
    if name == b"memset".as_slice() {
        Some(Routine::Memset)
    } else if name == b"memcpy".as_slice() {
        Some(Routine::Memcpy)
    } else if name == b"memmove".as_slice() {
        Some(Routine::Memmove)
    } else if name == b"strlen".as_slice() {
        Some(Routine::Strlen)
    } else if name == b"strcpy".as_slice() {
        Some(Routine::Strcpy)
    } else if name == b"strncpy".as_slice() {
        Some(Routine::Strncpy)
    } else if name == b"strcat".as_slice() {
        Some(Routine::Strcat)
    } else {
        None
    }
}

/// The routine that a name says.
fn routine_of(name: &[u8]) -> Option<Routine>
    ensures { result ≡ routine_of name.now }
{
    match system_routine(name) {
        Some(routine) => Some(routine),
        None => string_routine(name),
    }
}

/// Of each function the routine that its name says.
pub fn routines_of(
    alloc: Global,
    names: &Names,
    functions: &[FunctionDef],
) -> Result<Vec<Option<Routine>>, AllocError>
    ensures { IfOk result (λ rs. rs.items ≡ routines_of names.now (map function_of functions.now)) }
{
    let mut routines = Vec::new(alloc);
    for function in functions {
        routines.push(routine_of(name_at(names, function.name)))?;
    }
    Ok(routines)
}
