//! The functions that a unit has to define.
ghost use Rattle.std.specs.Prelude.{◌≡◌, ◌++◌, ℕ, IfOk, OnOk, map, nat_eq};
ghost use Rattle.std.specs.List.{list_any};
ghost use Rattle.sp_types.specs.Programs.{object_of, function_of};
ghost use Rattle.sp_check_mentions.specs.Undefined.{
  objects_mention,
  bodies_mention,
  is_internal,
  is_internal_without_body,
  first_undefined,
  undefined_function,
};

use crate::expressions::add_start;
use crate::statements::add_body;
use indexmap::IndexSet;
use sp_tree::Place;
use sp_types::{FunctionDef, Linkage, ObjectDef};
use std::alloc::{AllocError, Global};

/// Adds the functions that the start values of objects mention.
fn add_objects(found: &mut Vec<u32>, objects: &[ObjectDef]) -> Result<(), AllocError>
    ensures { OnOk result (found.new.items ≡
        found.old.items ++ objects_mention (map object_of objects.now)) }
{
    for object in objects {
        add_start(found, &object.start)?;
    }
    Ok(())
}

/// The same of the bodies of functions.
fn add_bodies(found: &mut Vec<u32>, functions: &[FunctionDef]) -> Result<(), AllocError>
    ensures { OnOk result (found.new.items ≡
        found.old.items ++ bodies_mention (map function_of functions.now)) }
{
    for function in functions {
        add_body(found, &function.body)?;
    }
    Ok(())
}

/// The set of these numbers.
fn set_of(alloc: Global, numbers: &[u32]) -> Result<IndexSet<usize>, AllocError>
    ensures { IfOk result (λ s. (k : ℕ) →
        list_any (nat_eq k) s.keys ≡ list_any (nat_eq k) numbers.now) }
{
    let mut set = IndexSet::new(alloc);
    for number in numbers {
        set.insert(*number as usize)?;
    }
    Ok(set)
}

fn is_internal(linkage: Linkage) -> bool
    ensures { result ≡ is_internal linkage }
{
    matches!(linkage, Linkage::Internal)
}

/// The place of the first function that is mentioned and lacks its definition.
fn first_undefined(mentioned: &IndexSet<usize>, functions: &[FunctionDef]) -> Option<Place>
    ensures { result ≡ first_undefined mentioned.now.keys 0 (map function_of functions.now) }
{
    'functions: for (i, function) in functions.iter().enumerate() {
        if is_internal(function.linkage) && function.body.is_none() && mentioned.contains(&i) {
            return Some(function.place);
        }
    }
    None
}

/// Whether a function with internal linkage has no body.
fn any_internal_without_body(functions: &[FunctionDef]) -> bool
    ensures { result ≡ list_any is_internal_without_body (map function_of functions.now) }
{
    'functions: for (i, function) in functions.iter().enumerate() {
        if is_internal(function.linkage) && function.body.is_none() {
            return true;
        }
    }
    false
}

/// The place of the first function with internal linkage that the unit mentions and doesn't define
/// (C90 6.7): where its first declaration names it.
#[tactic(auto, using(crate::proofs::Bodies::none_undefined))]
pub fn undefined_function(
    alloc: Global,
    objects: &[ObjectDef],
    functions: &[FunctionDef],
) -> Result<Option<Place>, AllocError>
    ensures { IfOk result (λ p. p ≡
        undefined_function (map object_of objects.now) (map function_of functions.now)) }
{
    // Where each function with internal linkage has its body, no tree has to be gone over.
    if !any_internal_without_body(functions) {
        return Ok(None);
    }
    let mut found = Vec::new(alloc);
    add_objects(&mut found, objects)?;
    add_bodies(&mut found, functions)?;
    let mentioned = set_of(alloc, &found)?;
    Ok(first_undefined(&mentioned, functions))
}
