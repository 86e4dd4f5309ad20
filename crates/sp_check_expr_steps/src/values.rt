//! What typed parts give: a call or a comma of them, the length of an array, a constant of an
//! enumeration, a size.
ghost use Rattle.std.specs.Prelude.{◌≡◌, map, pos, unwrap_or, MatchResult, Err};
ghost use Rattle.sp_parse_trees.specs.View.{tree_of};
ghost use Rattle.sp_types.specs.Typed.{of, typed};
ghost use Rattle.sp_types.specs.Typed as tree;
ghost use Rattle.sp_types.specs.TypedView.{boxed_of, typed_list, typed_of};
ghost use Rattle.sp_types.specs.View.{type_of, shared_signature_of};
ghost use Rattle.sp_base_checked.specs.Answers.{Answers, AnswersIn, accepted};
ghost use Rattle.sp_check_binary_rules.specs.Rules.{called};
ghost use Rattle.sp_check_env.specs.Declaring.{LeadsTo};
ghost use Rattle.sp_check_env.specs.Views.{env_of};
ghost use Rattle.sp_check_primaries.specs.Literals.{size_checked};
ghost use Rattle.sp_check_expr_steps.specs.Expressions.{length_told, with_implicit};
ghost use Rattle.sp_check_expr_steps.specs.Specifiers.{enumerator_told};

use crate::specifiers::enumerator_told;
use sp_base_checked::CheckError;
use sp_base_kept::keeping;
use sp_check_binary_rules::length_given;
use sp_check_constants::constant;
use sp_check_env::Env;
use sp_check_primaries::{implicit_name, size_checked};
use sp_check_unary_rules::called;
use sp_parse_trees::{Expr, ExprForm};
use sp_tree::{Names, Place};
use sp_types::{CType, Signature, TypedExpr};
use std::alloc::Global;
use std::rc::Rc;

/// Declares the callee where it is a name that isn't declared (C90 6.3.2.2).
pub fn callee_declared(
    alloc: Global,
    env: &mut Env,
    names: &Names,
    callee: &Expr,
) -> Result<(), CheckError>
    ensures { LeadsTo (with_implicit names.now (env_of env.old) (tree_of callee.now))
        (env_of env.new) result }
{
    match &callee.form {
        ExprForm::Name(name) => implicit_name(alloc, env, names, *name, callee.place),
        _ => Ok(()),
    }
}

/// A call with its arguments (C90 6.3.2.2); the signature is that of its callee.
pub fn call_made(
    alloc: Global,
    env: &Env,
    place: Place,
    mark: Place,
    signature: Rc<Signature>,
    callee: Box<TypedExpr>,
    arguments: Result<Vec<TypedExpr>, CheckError>,
) -> Result<Box<TypedExpr>, CheckError>
    ensures { MatchResult arguments
        (λ arguments. Answers boxed_of
        (called (env_of env.now).tables.structs place mark (shared_signature_of signature)
        (boxed_of callee) (typed_list (map typed_of arguments.items))) result)
        (λ error. result ≡ Err error) }
{
    let (arguments, callee) = keeping(arguments, callee)?;
    called(
        alloc,
        env.structs(),
        place,
        mark,
        &signature,
        callee,
        arguments,
    )
}

/// `a, b`, which has the type of `b` (C90 6.3.17).
pub fn comma(
    alloc: Global,
    place: Place,
    mark: Place,
    a: Box<TypedExpr>,
    b: Box<TypedExpr>,
) -> Result<Box<TypedExpr>, CheckError>
    ensures { Answers boxed_of
        (accepted (typed (tree.comma (boxed_of a) (boxed_of b)) (of (boxed_of b)) place mark))
        result }
{
    let of = b.of().copy(alloc);
    let (of, (a, b)) = keeping(of, (a, b))?;
    Ok(TypedExpr::comma(alloc, a, b, of, place, mark)?)
}

/// The length that this expression gives; it goes to the constants of the tables.
fn length_of(env: &mut Env, value: &TypedExpr, at: Place) -> Result<u64, CheckError>
    ensures { AnswersIn (λ n. n) (length_told at (typed_of value.now) (env_of env.old))
        (env_of env.new) result }
{
    let number = length_given(constant(value), at)?;
    env.add_constant(number as i128)?;
    Ok(number)
}

/// The length of an array that this expression gives (C90 6.5.4.2); `at` is its place.
pub fn length_told(
    env: &mut Env,
    value: Result<Box<TypedExpr>, CheckError>,
    at: Place,
) -> Result<u64, CheckError>
    ensures { MatchResult value
        (λ value. AnswersIn (λ n. n) (length_told at (boxed_of value) (env_of env.old))
        (env_of env.new) result)
        (λ error. result ≡ Err error) }
{
    let value = value?;
    length_of(env, &value, at)
}

/// The value behind which the next constant follows, where this expression gives it.
fn enumerator_of(
    env: &mut Env,
    value: &TypedExpr,
    at: Place,
    name: u32,
    place: Place,
) -> Result<Option<i128>, CheckError>
    ensures { AnswersIn (λ z. unwrap_or z (pos 0))
        (enumerator_told (env_of env.old) (typed_of value.now) at name place)
        (env_of env.new) result }
{
    Ok(Some(enumerator_told(env, value, at, name, place)?))
}

/// An enumeration constant whose value this expression gives (C90 6.5.2.2), and the value of the
/// next; `at` is the place of the expression, `place` that of the name.
pub fn next_enumerator(
    env: &mut Env,
    value: Result<Box<TypedExpr>, CheckError>,
    at: Place,
    name: u32,
    place: Place,
) -> Result<Option<i128>, CheckError>
    ensures { MatchResult value
        (λ value. AnswersIn (λ z. unwrap_or z (pos 0))
        (enumerator_told (env_of env.old) (boxed_of value) at name place)
        (env_of env.new) result)
        (λ error. result ≡ Err error) }
{
    let value = value?;
    enumerator_of(env, &value, at, name, place)
}

/// The size of a type that is named (C90 6.3.3.4).
pub fn size_of_type(
    alloc: Global,
    env: &mut Env,
    place: Place,
    mark: Place,
    of: Result<CType, CheckError>,
) -> Result<Box<TypedExpr>, CheckError>
    ensures { MatchResult of
        (λ of. AnswersIn boxed_of (size_checked (env_of env.old) place mark (type_of of))
        (env_of env.new) result)
        (λ error. result ≡ Err error) }
{
    size_checked(alloc, env, place, mark, &of?)
}
