//! The objects and functions of the program.
ghost use Rattle.std.specs.Prelude.{◌≡◌, IfOk, map, option_map};
ghost use Rattle.sp_types.specs.TypedView.{typed_of, statement_of};
ghost use Rattle.sp_types.specs.Programs.{object_of, function_of};
ghost use Rattle.sp_link_renaming.specs.Renaming.{renamed_statement};
ghost use Rattle.sp_link_renaming.specs.View.{renaming_of};
ghost use Rattle.sp_link_entries.specs.Views.{object_entry_of, function_entry_of};
ghost use Rattle.sp_link_units.specs.Making as rules;

use crate::renamings::{completed, no_renaming, renaming_of_unit};
use sp_link_entries::{FunctionEntry, ObjectEntry, renumbered};
use sp_link_renaming::{Renaming, renamed, renamed_statement};
use sp_types::{FunctionDef, ObjectDef, TypedExpr, TypedStatement};
use std::alloc::{AllocError, Global};

/// Start values, with what they name in the program.
fn start_renamed(
    alloc: Global,
    start: &[(u64, TypedExpr)],
    to: &Renaming,
) -> Result<Vec<(u64, TypedExpr)>, AllocError>
    ensures { IfOk result (λ all. map (λ s. (s.0, typed_of s.1)) all.items ≡
        rules.start_renamed (renaming_of to.now) (map (λ s. (s.0, typed_of s.1)) start.now)) }
{
    let mut all = Vec::with_capacity(alloc, start.len())?;
    for value in start {
        all.push((value.0, renamed(alloc, &value.1, to)?))?;
    }
    Ok(all)
}

/// An object of the program, where its trees name these.
fn object_renamed(
    alloc: Global,
    entry: &ObjectEntry<'_>,
    to: &Renaming,
) -> Result<ObjectDef, AllocError>
    ensures { IfOk result (λ o. object_of o ≡
        rules.object_renamed (renaming_of to.now) (object_entry_of entry.now)) }
{
    let source = entry.source;
    Ok(ObjectDef {
        name: source.name,
        of: completed(alloc, &entry.of)?,
        storage: source.storage,
        linkage: source.linkage,
        start: start_renamed(alloc, &source.start, to)?,
        place: source.place,
    })
}

/// The objects of the program.
pub(crate) fn objects_made(
    alloc: Global,
    entries: &[ObjectEntry<'_>],
    renamings: &[Renaming],
) -> Result<Vec<ObjectDef>, AllocError>
    ensures { IfOk result (λ all. map object_of all.items ≡
        map (rules.object_made (map renaming_of renamings.now)) (map object_entry_of entries.now)) }
{
    let none = no_renaming(alloc);
    let mut all = Vec::with_capacity(alloc, entries.len())?;
    for entry in entries {
        let to = renaming_of_unit(renamings, entry.unit, &none);
        all.push(object_renamed(alloc, entry, to)?)?;
    }
    Ok(all)
}

/// A body, where there is one, with what it names in the program.
fn body_renamed(
    alloc: Global,
    body: &Option<TypedStatement>,
    to: &Renaming,
) -> Result<Option<TypedStatement>, AllocError>
    ensures { IfOk result (λ s. option_map statement_of s ≡
        option_map (renamed_statement (renaming_of to.now)) (option_map statement_of body.now)) }
{
    match body {
        Some(body) => Ok(Some(renamed_statement(alloc, body, to)?)),
        None => Ok(None),
    }
}

/// A function of the program, where its trees name these.
fn function_renamed(
    alloc: Global,
    entry: &FunctionEntry<'_>,
    to: &Renaming,
) -> Result<FunctionDef, AllocError>
    ensures { IfOk result (λ f. function_of f ≡
        rules.function_renamed (renaming_of to.now) (function_entry_of entry.now)) }
{
    let source = entry.source;
    Ok(FunctionDef {
        name: source.name,
        of: entry.of.clone()?,
        linkage: source.linkage,
        formals: renumbered(alloc, &to.objects, &source.formals)?,
        locals: renumbered(alloc, &to.objects, &source.locals)?,
        body: body_renamed(alloc, &source.body, to)?,
        place: source.place,
        end: source.end,
    })
}

/// The functions of the program.
pub(crate) fn functions_made(
    alloc: Global,
    entries: &[FunctionEntry<'_>],
    renamings: &[Renaming],
) -> Result<Vec<FunctionDef>, AllocError>
    ensures { IfOk result (λ all. map function_of all.items ≡
        map (rules.function_made (map renaming_of renamings.now))
        (map function_entry_of entries.now)) }
{
    let none = no_renaming(alloc);
    let mut all = Vec::with_capacity(alloc, entries.len())?;
    for entry in entries {
        let to = renaming_of_unit(renamings, entry.unit, &none);
        all.push(function_renamed(alloc, entry, to)?)?;
    }
    Ok(all)
}
