//! The value of one leaf (C90 6.5.7), and the length that values give an array.
ghost use Rattle.std.specs.Prelude.{◌≡◌, map, IfSome};
ghost use Rattle.sp_parse_trees.specs.View.{tree_of, inits};
ghost use Rattle.sp_types.specs.Programs.{object_of};
ghost use Rattle.sp_types.specs.View.{type_of, struct_of};
ghost use Rattle.sp_types.specs.TypedView.{boxed_of};
ghost use Rattle.sp_base_checked.specs.Answers.{Answers, AnswersIn};
ghost use Rattle.sp_check_env.specs.Views.{env_of};
ghost use Rattle.sp_check_primaries.specs.Literals.{leaf_seen};
ghost use Rattle.sp_check_initialisers.specs.InitView.{init_of};
ghost use Rattle.sp_check_initialisers.specs.Initialisers.{
  leaf,
  leaf_added,
  leaf_given,
  one_given,
  only_given,
  is_aggregate,
  struct_whole,
  struct_given,
  array_given,
  last_leaf,
  how_many,
  measured,
  is_unmeasured,
};

use crate::Target;
use crate::static_values::is_static;
use crate::strings::{only_value, string_added, string_of};
use sp_base_checked::{CheckError, fault};
use sp_check_binary_rules::made_array;
use sp_check_env::Env;
use sp_check_operands::{converted, is_floating};
use sp_expr_check::check_expression;
use sp_parse_trees::{Expr, Init};
use sp_tree::{FaultKind, Names, Place};
use sp_types::{CType, ObjectDef, StructType, TypedExpr, convertible, leaves};
use std::alloc::Global;

/// The greatest length of an array.
const LONGEST: u64 = 2147483647;

/// The value of a scalar of this type, converted: FloatingType, NotConvertible and NotAConstant stand at its place.
fn leaf(
    alloc: Global,
    objects: &[ObjectDef],
    target: Target,
    at: Place,
    of: &CType,
    value: Box<TypedExpr>,
) -> Result<Box<TypedExpr>, CheckError>
    ensures { Answers boxed_of
        (leaf (map object_of objects.now) target at (type_of of.now) (boxed_of value)) result }
{
    if is_floating(of) {
        return fault(FaultKind::FloatingType, at);
    }
    if !convertible(value.of(), of) {
        return fault(FaultKind::NotConvertible, at);
    }
    if target.fixed && !is_static(&value, objects) {
        return fault(FaultKind::NotAConstant, at);
    }
    Ok(converted(alloc, of, value)?)
}

/// Puts it behind the others as that of this leaf.
fn leaf_added(
    alloc: Global,
    objects: &[ObjectDef],
    target: Target,
    at: Place,
    mut all: Vec<(u64, TypedExpr)>,
    of: &CType,
    from: u64,
    value: Box<TypedExpr>,
) -> Result<Vec<(u64, TypedExpr)>, CheckError>
    ensures { Answers (λ v. map leaf_seen v.items)
        (leaf_added (map object_of objects.now) target at (map leaf_seen all.items)
        (type_of of.now) from (boxed_of value)) result }
{
    let value = leaf(alloc, objects, target, at, of, value)?;
    all.push((from, Box::into_inner(value)))?;
    Ok(all)
}

/// The value that an expression gives a scalar.
#[tactic(auto, using(crate::proofs::Places::places))]
fn leaf_given(
    alloc: Global,
    env: &mut Env,
    names: &Names,
    target: Target,
    all: Vec<(u64, TypedExpr)>,
    of: &CType,
    from: u64,
    e: &Expr,
) -> Result<Vec<(u64, TypedExpr)>, CheckError>
    ensures { AnswersIn (λ v. map leaf_seen v.items)
        (leaf_given names.now (env_of env.old) target (map leaf_seen all.items) (type_of of.now)
        from (tree_of e.now))
        (env_of env.new) result }
{
    let value = check_expression(alloc, env, e, names)?;
    leaf_added(
        alloc,
        &env.tables().objects,
        target,
        e.place,
        all,
        of,
        from,
        value,
    )
}

/// An expression without braces for a part of this type: a string for an array of characters, else
/// the value of a scalar.
pub(crate) fn one_given(
    alloc: Global,
    env: &mut Env,
    names: &Names,
    target: Target,
    all: Vec<(u64, TypedExpr)>,
    of: &CType,
    from: u64,
    e: &Expr,
) -> Result<Vec<(u64, TypedExpr)>, CheckError>
    ensures { AnswersIn (λ v. map leaf_seen v.items)
        (one_given names.now (env_of env.old) target (map leaf_seen all.items) (type_of of.now)
        from (tree_of e.now))
        (env_of env.new) result }
{
    match string_of(of, e) {
        Some(text) => string_added(alloc, names, all, of, from, target.name, text),
        None => leaf_given(alloc, env, names, target, all, of, from, e),
    }
}

/// The one value between braces round a scalar: BadInitialiser stands at the name where there are more.
pub(crate) fn only_given(
    alloc: Global,
    env: &mut Env,
    names: &Names,
    target: Target,
    all: Vec<(u64, TypedExpr)>,
    of: &CType,
    from: u64,
    list: &[Init],
) -> Result<Vec<(u64, TypedExpr)>, CheckError>
    ensures { AnswersIn (λ v. map leaf_seen v.items)
        (only_given names.now (env_of env.old) target (map leaf_seen all.items) (type_of of.now)
        from (inits (map init_of list.now)))
        (env_of env.new) result }
{
    let Some(e) = only_value(list) else {
        return fault(FaultKind::BadInitialiser, target.name);
    };
    leaf_given(alloc, env, names, target, all, of, from, e)
}

/// Whether a list between braces goes to the parts of a type.
pub(crate) fn is_aggregate(of: &CType) -> bool
    ensures { result ≡ is_aggregate (type_of of.now) }
{
    matches!(of, CType::Array(_) | CType::Struct(_))
}

/// The value of a struct or a union as a whole, by one expression of its type.
fn struct_whole(
    alloc: Global,
    target: Target,
    at: Place,
    of: &CType,
    value: Box<TypedExpr>,
) -> Result<Vec<(u64, TypedExpr)>, CheckError>
    ensures { Answers (λ v. map leaf_seen v.items)
        (struct_whole target at (type_of of.now) (boxed_of value)) result }
{
    if !convertible(value.of(), of) {
        return fault(FaultKind::NotConvertible, at);
    }
    if target.fixed {
        return fault(FaultKind::NotAConstant, at);
    }
    let mut all = Vec::with_capacity(alloc, 1)?;
    all.push((0, Box::into_inner(value)))?;
    Ok(all)
}

/// The same, where the expression is checked first.
#[tactic(auto, using(crate::proofs::Places::places))]
pub(crate) fn struct_given(
    alloc: Global,
    env: &mut Env,
    names: &Names,
    target: Target,
    of: &CType,
    e: &Expr,
) -> Result<Vec<(u64, TypedExpr)>, CheckError>
    ensures { AnswersIn (λ v. map leaf_seen v.items)
        (struct_given names.now (env_of env.old) target (type_of of.now) (tree_of e.now))
        (env_of env.new) result }
{
    let value = check_expression(alloc, env, e, names)?;
    struct_whole(alloc, target, e.place, of, value)
}

/// A whole array by one expression, which is a string for characters.
pub(crate) fn array_given(
    alloc: Global,
    env: &mut Env,
    names: &Names,
    target: Target,
    of: &CType,
    e: &Expr,
) -> Result<Vec<(u64, TypedExpr)>, CheckError>
    ensures { AnswersIn (λ v. map leaf_seen v.items)
        (array_given names.now (env_of env.old) target (type_of of.now) (tree_of e.now))
        (env_of env.new) result }
{
    match string_of(of, e) {
        Some(text) => string_added(alloc, names, Vec::new(alloc), of, 0, target.name, text),
        None => fault(FaultKind::BadInitialiser, target.name),
    }
}

/// The leaf of the last value.
fn last_leaf(values: &[(u64, TypedExpr)]) -> u64
    ensures { result ≡ last_leaf (map leaf_seen values.now) }
{
    match values.get(values.len().saturating_sub(1)) {
        Some(value) => value.0,
        None => 0,
    }
}

/// How many elements reach to a leaf.
fn how_many(last: u64, each: u64) -> Option<u64>
    ensures { IfSome result (λ n. n ≡ how_many last each) }
{
    if each == 0 {
        return Some(1);
    }
    (last / each).checked_add(1)
}

/// The type of an object with these values: an array without a length gets the one that they give
/// it. BadLength stands at the declarator where it is too large.
pub(crate) fn measured(
    alloc: Global,
    structs: &[StructType],
    at: Place,
    values: &[(u64, TypedExpr)],
    of: CType,
) -> Result<CType, CheckError>
    ensures { Answers type_of
        (measured (map struct_of structs.now) at (map leaf_seen values.now) (type_of of)) result }
{
    match of {
        CType::Array(array) => match array.length {
            Some(_) => Ok(CType::Array(array)),
            None => {
                let each = leaves(&array.element, structs);
                let Some(length) = how_many(last_leaf(values), each) else {
                    return Err(CheckError::NoMemory);
                };
                if length > LONGEST {
                    return fault(FaultKind::BadLength, at);
                }
                made_array(alloc, structs, array.element.copy(alloc)?, Some(length), at)
            }
        },
        _ => Ok(of),
    }
}

/// Whether a type is an array without a length.
pub(crate) fn is_unmeasured(of: &CType) -> bool
    ensures { result ≡ is_unmeasured (type_of of.now) }
{
    matches!(of, CType::Array(array) if array.length.is_none())
}
