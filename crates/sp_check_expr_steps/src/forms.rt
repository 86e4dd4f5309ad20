//! What a form of expression gives once its parts are typed (C90 6.3): the last of them comes as
//! its answer, whose error is that of the whole.
ghost use Rattle.std.specs.Prelude.{◌≡◌, map, MatchResult, Err};
ghost use Rattle.sp_types.specs.View.{type_of, signature_of};
ghost use Rattle.sp_types.specs.TypedView.{boxed_of};
ghost use Rattle.sp_types.specs.Types.{parameters_of};
ghost use Rattle.sp_base_checked.specs.Answers.{Answers, AnswersIn};
ghost use Rattle.sp_check_binary_rules.specs.Rules.{told, cast_to, choice, argument_at, not_floating};
ghost use Rattle.sp_check_env.specs.Views.{env_of};
ghost use Rattle.sp_check_expr_steps.specs.Forms.{as_value, operated, paired};
ghost use Rattle.sp_check_expr_steps.specs.SyntaxView.{form_of};

use crate::values::comma;
use sp_base_checked::{CheckError, fault};
use sp_base_kept::keeping;
use sp_check_binary_rules::{assign, binary, cast_to, choice, not_floating};
use sp_check_env::Env;
use sp_check_operands::value;
use sp_check_primaries::size_checked;
use sp_check_unary_rules::{
    argument_at, arrow_taken, indexed, member_taken, stepped_after, takes_object, unary_object,
    unary_value,
};
use sp_parse_trees::{Expr, ExprForm};
use sp_tree::{FaultKind, Place};
use sp_types::{CType, Signature, TypedExpr};
use std::alloc::Global;

/// An expression as it stands.
pub fn as_it_stands(
    place: Place,
    e: Result<Box<TypedExpr>, CheckError>,
) -> Result<Box<TypedExpr>, CheckError>
    ensures { MatchResult e
        (λ e. Answers boxed_of (not_floating place (boxed_of e)) result)
        (λ error. result ≡ Err error) }
{
    not_floating(place, e?)
}

/// An expression as a value (C90 6.2.2.1).
pub fn as_value(
    alloc: Global,
    env: &Env,
    place: Place,
    e: Result<Box<TypedExpr>, CheckError>,
) -> Result<Box<TypedExpr>, CheckError>
    ensures { MatchResult e
        (λ e. AnswersIn boxed_of (as_value place (boxed_of e, env_of env.now))
        (env_of env.now) result)
        (λ error. result ≡ Err error) }
{
    let e = not_floating(place, e?)?;
    value(alloc, env.structs(), place, e)
}

/// Operators on one operand, and members.
#[tactic(auto, using(crate::proofs::Places::places))]
pub fn operated(
    alloc: Global,
    env: &mut Env,
    form: &ExprForm,
    place: Place,
    mark: Place,
    e: Result<Box<TypedExpr>, CheckError>,
) -> Result<Box<TypedExpr>, CheckError>
    ensures { MatchResult e
        (λ e. AnswersIn boxed_of
        (operated place mark (form_of form.now) (boxed_of e, env_of env.old))
        (env_of env.new) result)
        (λ error. result ≡ Err error) }
{
    let e = e?;
    match form {
        ExprForm::Member(_, name) => member_taken(alloc, env.structs(), *name, place, mark, e),
        ExprForm::Arrow(_, name) => arrow_taken(alloc, env.structs(), *name, place, mark, e),
        ExprForm::After(operator, operand) => {
            stepped_after(
                alloc,
                env.structs(),
                *operator,
                place,
                mark,
                operand.place,
                e,
            )
        }
        ExprForm::Unary(operator, operand) => {
            if takes_object(*operator) {
                unary_object(
                    alloc,
                    env.structs(),
                    *operator,
                    place,
                    mark,
                    operand.place,
                    e,
                )
            } else {
                unary_value(alloc, *operator, place, mark, e)
            }
        }
        ExprForm::SizeofExpr(_) => size_checked(alloc, env, place, mark, e.of()),
        _ => fault(FaultKind::BadOperand, place),
    }
}

/// Operators between two operands, assignments and commas; `a` is the first of the two.
#[tactic(auto, using(crate::proofs::Places::places))]
pub fn paired(
    alloc: Global,
    env: &Env,
    form: &ExprForm,
    place: Place,
    mark: Place,
    a: Box<TypedExpr>,
    b: Result<Box<TypedExpr>, CheckError>,
) -> Result<Box<TypedExpr>, CheckError>
    ensures { MatchResult b
        (λ b. AnswersIn boxed_of
        (paired place mark (form_of form.now) (boxed_of a) (boxed_of b, env_of env.now))
        (env_of env.now) result)
        (λ error. result ≡ Err error) }
{
    let (b, a) = keeping(b, a)?;
    match form {
        ExprForm::Index(_, _) => indexed(alloc, env.structs(), place, mark, a, b),
        ExprForm::Binary(operator, _, _) => {
            binary(alloc, env.structs(), *operator, place, mark, a, b)
        }
        ExprForm::Assign(operator, to, from) => {
            let (at, there) = (to.place, from.place);
            assign(
                alloc,
                env.structs(),
                *operator,
                place,
                mark,
                at,
                there,
                a,
                b,
            )
        }
        ExprForm::Comma(_, _) => comma(alloc, place, mark, a, b),
        _ => fault(FaultKind::BadOperand, place),
    }
}

/// `c ? a : b` (C90 6.3.15).
pub fn chosen(
    alloc: Global,
    place: Place,
    mark: Place,
    c: Box<TypedExpr>,
    a: Box<TypedExpr>,
    b: Result<Box<TypedExpr>, CheckError>,
) -> Result<Box<TypedExpr>, CheckError>
    ensures { MatchResult b
        (λ b. Answers boxed_of (choice place mark (boxed_of c) (boxed_of a) (boxed_of b)) result)
        (λ error. result ≡ Err error) }
{
    let (b, (c, a)) = keeping(b, (c, a))?;
    choice(alloc, place, mark, c, a, b)
}

/// `(to)e` (C90 6.3.4); `at` is the place of `e`.
pub fn cast_of(
    alloc: Global,
    to: CType,
    place: Place,
    mark: Place,
    at: Place,
    e: Result<Box<TypedExpr>, CheckError>,
) -> Result<Box<TypedExpr>, CheckError>
    ensures { MatchResult e
        (λ e. Answers boxed_of (cast_to (type_of to) place mark at (boxed_of e)) result)
        (λ error. result ≡ Err error) }
{
    let (e, to) = keeping(e, to)?;
    cast_to(alloc, to, place, mark, at, e)
}

/// The argument of this number (C90 6.3.2.2); `at` is its place.
pub fn argument_made(
    alloc: Global,
    signature: &Signature,
    number: usize,
    at: Place,
    e: Result<Box<TypedExpr>, CheckError>,
) -> Result<Box<TypedExpr>, CheckError>
    ensures { MatchResult e
        (λ e. Answers boxed_of
        (argument_at (told (parameters_of (signature_of signature.now))) number at
        (boxed_of e)) result)
        (λ error. result ≡ Err error) }
{
    argument_at(alloc, signature, number, at, e?)
}
