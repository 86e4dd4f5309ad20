//! Expressions by their uses: the cycle down the tree.
ghost use Rattle.std.specs.Prelude.{◌≡◌, IfOk, map, option_map};
ghost use Rattle.sp_types.specs.Typed.{of};
ghost use Rattle.sp_types.specs.View.{type_of};
ghost use Rattle.sp_types.specs.TypedView.{typed_of, typed_list};
ghost use Rattle.sp_ir.specs.Commands.{Expression};
ghost use Rattle.sp_ir.specs.View.{lvalue_of, expression_of};
ghost use Rattle.sp_lower_draft.specs.Draft.{left, evaluated, fork};
ghost use Rattle.sp_lower_draft.specs.Steps.{loaded};
ghost use Rattle.sp_lower_draft.specs.Expressions.{
  meaning,
  operand,
  operands,
  value_of,
  both,
  sides,
  conversion_value,
  prefix_value,
  prefix_place,
  circuit_branch,
  chosen_place,
  chosen_unused,
  step_unused,
  arguments,
  callee_and_arguments,
  called,
  call_place,
};
ghost use Rattle.sp_lower_draft.specs.View.{context_of, draft_of};
ghost use Rattle.sp_lower_draft.specs.Outcome.{Leaves, Gives, GivesEnds};
ghost use Rattle.std.specs.Prelude.{Vec};
ghost use Rattle.std.specs.declared.alloc.Global.{Global};
ghost use Rattle.sp_ir.specs.declared.expr.Expr.{Expr};
ghost use Rattle.sp_ir.specs.Formed.{is_struct};
ghost use Rattle.sp_lower_draft.specs.Context.{is_void};
ghost use Rattle.sp_lower_draft.specs.Operators.{prefix_of};
ghost use Rattle.sp_lower_expr.specs.Outcome.{GivesBoth, GivesSides, GivesCall};

use crate::leaves::{constant, function_at, nowhere, object_at};
use crate::walks::{adding, adding_behind, adds};
use sp_ir::{Expr, Lvalue};
use sp_lower_draft::{
    Circuit, Draft, Ends, Prefix, Scope, circuit_of, evaluated, fork, is_plain_assign, is_struct,
    is_void, joined, keep, keep_place, kind_of, met, operator_of, prefix_of, stored_at, truth,
};
use sp_lower_expr_steps::{
    addressed, arrow_taken, assigned, assigned_used, defined_called, followed, indexed, loaded,
    member_taken, negated, operated, result_place, stepped_used, undefined_called,
    undefined_callee, updated, updated_used,
};
use sp_tree::Punct;
use sp_types::{CType, IntKind, TypedExpr, TypedForm};
use std::alloc::AllocError;

/// The value of an expression, which is directly converted to this type, if it is.
#[cycle(uses)]
pub fn value(
    scope: &Scope<'_>,
    draft: &mut Draft,
    to: Option<&CType>,
    e: &TypedExpr,
) -> Result<Expr, AllocError>
    ensures { Gives expression_of result (draft_of draft.new)
        ((meaning (context_of scope.now) (typed_of e.now)).value
        (option_map (λ t. type_of t.now) to.entry)
        (draft_of draft.old)) }
{
    match &e.form {
        TypedForm::Number(number) => Ok(constant(e, i128::from(number.value))),
        TypedForm::Char(value) => Ok(constant(e, i128::from(*value))),
        TypedForm::Constant(value) => Ok(constant(e, value.get())),
        TypedForm::Object(_)
        | TypedForm::Function(_)
        | TypedForm::Index(..)
        | TypedForm::Member(..)
        | TypedForm::Arrow(..)
        | TypedForm::Choice(..) => value_at(scope, draft, e),
        TypedForm::Convert(a) => converted(scope, draft, e, a),
        TypedForm::Cast(a) => converted(scope, draft, e, a),
        TypedForm::Decay(a) => {
            let place = place(scope, draft, a)?;
            loaded(scope, a.of(), place)
        }
        TypedForm::Call(f, args) => {
            let place = call_place(scope, draft, e, to, f, args)?;
            loaded(scope, e.of(), place)
        }
        TypedForm::After(operator, a) => {
            let to = place(scope, draft, a)?;
            stepped_used(scope, draft, e, operator_of(*operator), to)
        }
        TypedForm::Unary(operator, a) => prefixed(scope, draft, *operator, e, a),
        TypedForm::Binary(operator, a, b) => match circuit_of(*operator) {
            Some(circuit) => {
                let ends = short_circuit(scope, draft, circuit, a, b)?;
                truth(scope, draft, e, ends)
            }
            None => {
                let (x, y) = both(scope, draft, a, b)?;
                operated(scope, *operator, e, a, b, x, y)
            }
        },
        TypedForm::Assign(operator, l, r) => {
            if is_plain_assign(*operator) {
                value_at(scope, draft, e)
            } else {
                let (to, value) = sides(scope, draft, l, r)?;
                let kind = kind_of(r.of());
                updated_used(scope, draft, e, operator_of(*operator), kind, to, value)
            }
        }
        TypedForm::Comma(a, b) => {
            unused(scope, draft, a)?;
            value(scope, draft, None, b)
        }
    }
}

/// The value at the place of an expression.
#[cycle(uses)]
fn value_at(scope: &Scope<'_>, draft: &mut Draft, e: &TypedExpr) -> Result<Expr, AllocError>
    ensures { IfOk result (λ v.
        (draft_of draft.new ≡ ((meaning (context_of scope.now) (typed_of e.now)).place
        (draft_of draft.old)).after)
        × (expression_of v ≡ loaded (context_of scope.now) (of (typed_of e.now))
        ((meaning (context_of scope.now) (typed_of e.now)).place (draft_of draft.old)).pure)) }
{
    let place = place(scope, draft, e)?;
    loaded(scope, e.of(), place)
}

/// The value of a conversion.
#[cycle(uses)]
fn converted(
    scope: &Scope<'_>,
    draft: &mut Draft,
    e: &TypedExpr,
    a: &TypedExpr,
) -> Result<Expr, AllocError>
    ensures { Gives expression_of result (draft_of draft.new)
        (conversion_value (context_of scope.now) (is_void (of (typed_of e.now)))
        (is_struct (of (typed_of e.now))) (typed_of e.now)
        (operand (context_of scope.now) (typed_of a.now)) (draft_of draft.old)) }
{
    if is_void(e.of()) {
        value(scope, draft, None, a)
    } else if is_struct(e.of()) {
        let place = place(scope, draft, a)?;
        loaded(scope, e.of(), place)
    } else {
        let value = value(scope, draft, Some(e.of()), a)?;
        let of = e.of().copy(scope.alloc)?;
        Expr::convert(scope.alloc, of, value)
    }
}

/// The value of an operator before its operand.
#[cycle(uses)]
fn prefixed(
    scope: &Scope<'_>,
    draft: &mut Draft,
    operator: Punct,
    e: &TypedExpr,
    a: &TypedExpr,
) -> Result<Expr, AllocError>
    ensures { Gives expression_of result (draft_of draft.new)
        (prefix_value (context_of scope.now) (prefix_of operator) operator (typed_of e.now)
        (operand (context_of scope.now) (typed_of a.now)) (draft_of draft.old)) }
{
    match prefix_of(operator) {
        Prefix::Address => {
            let place = place(scope, draft, a)?;
            let of = e.of().copy(scope.alloc)?;
            addressed(scope, of, place)
        }
        Prefix::Pointee => {
            let value = value(scope, draft, None, a)?;
            let place = followed(scope, e, value)?;
            loaded(scope, e.of(), place)
        }
        Prefix::Negation => {
            let value = value(scope, draft, None, a)?;
            negated(scope.alloc, value)
        }
        Prefix::Step => {
            let to = place(scope, draft, a)?;
            let one = Expr::number(1, IntKind::Int);
            updated_used(
                scope,
                draft,
                e,
                operator_of(operator),
                IntKind::Int,
                to,
                one,
            )
        }
        Prefix::Sign => {
            let value = value(scope, draft, None, a)?;
            Expr::unary(scope.alloc, operator, kind_of(e.of()), value)
        }
    }
}

/// The first operand's value, then the second's.
#[cycle(uses)]
fn both(
    scope: &Scope<'_>,
    draft: &mut Draft,
    a: &TypedExpr,
    b: &TypedExpr,
) -> Result<(Expr, Expr), AllocError>
    ensures { GivesBoth result (draft_of draft.new) (both (context_of scope.now)
        (operand (context_of scope.now) (typed_of a.now))
        (operand (context_of scope.now) (typed_of b.now)) (draft_of draft.old)) }
{
    let x = value(scope, draft, None, a)?;
    let x = keep(scope, draft, adds(b), a, x)?;
    let y = value(scope, draft, None, b)?;
    Ok((x, y))
}

/// Where the left side stands, then the right side's value.
#[cycle(uses)]
fn sides(
    scope: &Scope<'_>,
    draft: &mut Draft,
    l: &TypedExpr,
    r: &TypedExpr,
) -> Result<(Lvalue, Expr), AllocError>
    ensures { GivesSides result (draft_of draft.new) (sides (context_of scope.now)
        (operand (context_of scope.now) (typed_of l.now))
        (operand (context_of scope.now) (typed_of r.now)) (draft_of draft.old)) }
{
    let to = place(scope, draft, l)?;
    let to = keep_place(scope, draft, adds(r), l, to)?;
    let value = value(scope, draft, None, r)?;
    Ok((to, value))
}

/// The ends of `a && b` or `a || b`.
#[cycle(uses)]
fn short_circuit(
    scope: &Scope<'_>,
    draft: &mut Draft,
    circuit: Circuit,
    a: &TypedExpr,
    b: &TypedExpr,
) -> Result<Ends, AllocError>
    ensures { GivesEnds result (draft_of draft.new) (circuit_branch circuit
        (operand (context_of scope.now) (typed_of a.now))
        (operand (context_of scope.now) (typed_of b.now)) (draft_of draft.old)) }
{
    match circuit {
        Circuit::And => {
            let first = branch(scope, draft, a)?;
            draft.set_loose(first.yes);
            let second = branch(scope, draft, b)?;
            Ok(Ends {
                yes: second.yes,
                no: joined(first.no, second.no)?,
            })
        }
        Circuit::Or => {
            let first = branch(scope, draft, a)?;
            draft.set_loose(first.no);
            let second = branch(scope, draft, b)?;
            Ok(Ends {
                yes: joined(first.yes, second.yes)?,
                no: second.no,
            })
        }
    }
}

/// Where an expression stands.
#[cycle(uses)]
pub fn place(scope: &Scope<'_>, draft: &mut Draft, e: &TypedExpr) -> Result<Lvalue, AllocError>
    ensures { Gives lvalue_of result (draft_of draft.new)
        ((meaning (context_of scope.now) (typed_of e.now)).place (draft_of draft.old)) }
{
    match &e.form {
        TypedForm::Object(number) => object_at(scope, *number),
        TypedForm::Function(number) => function_at(scope, *number),
        TypedForm::Index(a, b) => {
            let (x, y) = both(scope, draft, a, b)?;
            indexed(scope, e, a, b, x, y)
        }
        TypedForm::Member(a, name) => {
            let whole = place(scope, draft, a)?;
            member_taken(scope, a, *name, whole)
        }
        TypedForm::Arrow(a, name) => {
            let value = value(scope, draft, None, a)?;
            arrow_taken(scope, e, a, *name, value)
        }
        TypedForm::Unary(operator, a) => match prefix_of(*operator) {
            Prefix::Pointee => {
                let value = value(scope, draft, None, a)?;
                followed(scope, e, value)
            }
            _ => nowhere(scope.alloc, e),
        },
        TypedForm::Convert(a) => {
            if is_struct(e.of()) {
                place(scope, draft, a)
            } else {
                nowhere(scope.alloc, e)
            }
        }
        TypedForm::Cast(a) => {
            if is_struct(e.of()) {
                place(scope, draft, a)
            } else {
                nowhere(scope.alloc, e)
            }
        }
        TypedForm::Choice(a, b, d) => chosen(scope, draft, e, a, b, d),
        TypedForm::Assign(operator, l, r) => {
            if is_plain_assign(*operator) {
                let (to, value) = sides(scope, draft, l, r)?;
                assigned_used(scope, draft, e, to, value)
            } else {
                nowhere(scope.alloc, e)
            }
        }
        TypedForm::Comma(a, b) => {
            unused(scope, draft, a)?;
            place(scope, draft, b)
        }
        TypedForm::Call(f, args) => call_place(scope, draft, e, None, f, args),
        TypedForm::Number(_)
        | TypedForm::Char(_)
        | TypedForm::Constant(_)
        | TypedForm::Decay(_)
        | TypedForm::After(..)
        | TypedForm::Binary(..) => nowhere(scope.alloc, e),
    }
}

/// `a ? b : d` of values: both go to one temporary.
#[cycle(uses)]
fn chosen(
    scope: &Scope<'_>,
    draft: &mut Draft,
    e: &TypedExpr,
    a: &TypedExpr,
    b: &TypedExpr,
    d: &TypedExpr,
) -> Result<Lvalue, AllocError>
    ensures { Gives lvalue_of result (draft_of draft.new) (chosen_place (context_of scope.now)
        (typed_of e.now) (operand (context_of scope.now) (typed_of a.now))
        (operand (context_of scope.now) (typed_of b.now))
        (operand (context_of scope.now) (typed_of d.now)) (draft_of draft.old)) }
{
    let Ends { yes, no } = branch(scope, draft, a)?;
    draft.set_loose(yes);
    let first = value(scope, draft, None, b)?;
    let to = draft.temporary(scope, e.of())?;
    let one = stored_at(scope, draft, e, &to, first)?;
    draft.set_loose(no);
    let second = value(scope, draft, None, d)?;
    let other = stored_at(scope, draft, e, &to, second)?;
    draft.set_loose(joined(one, other)?);
    Ok(to)
}

/// `a ? b : d`, unused.
#[cycle(uses)]
fn chosen_unused(
    scope: &Scope<'_>,
    draft: &mut Draft,
    a: &TypedExpr,
    b: &TypedExpr,
    d: &TypedExpr,
) -> Result<(), AllocError>
    ensures { Leaves result (draft_of draft.new) (chosen_unused
        (operand (context_of scope.now) (typed_of a.now))
        (operand (context_of scope.now) (typed_of b.now))
        (operand (context_of scope.now) (typed_of d.now)) (draft_of draft.old)) }
{
    let Ends { yes, no } = branch(scope, draft, a)?;
    draft.set_loose(yes);
    unused(scope, draft, b)?;
    let one = draft.take_loose(scope.alloc);
    draft.set_loose(no);
    unused(scope, draft, d)?;
    let other = draft.take_loose(scope.alloc);
    draft.set_loose(joined(one, other)?);
    Ok(())
}

/// `++` or `--`, unused.
#[cycle(uses)]
fn step_unused(
    scope: &Scope<'_>,
    draft: &mut Draft,
    operator: Punct,
    e: &TypedExpr,
    l: &TypedExpr,
) -> Result<(), AllocError>
    ensures { Leaves result (draft_of draft.new) (step_unused (context_of scope.now) operator
        (typed_of e.now) (operand (context_of scope.now) (typed_of l.now)) (draft_of draft.old)) }
{
    let to = place(scope, draft, l)?;
    let one = Expr::number(1, IntKind::Int);
    updated(
        scope,
        draft,
        e,
        operator_of(operator),
        IntKind::Int,
        to,
        one,
    )
}

/// An expression whose value isn't used.
#[cycle(uses)]
pub fn unused(scope: &Scope<'_>, draft: &mut Draft, e: &TypedExpr) -> Result<(), AllocError>
    ensures { Leaves result (draft_of draft.new)
        ((meaning (context_of scope.now) (typed_of e.now)).unused (draft_of draft.old)) }
{
    match &e.form {
        TypedForm::Number(_) | TypedForm::Char(_) | TypedForm::Constant(_) => Ok(()),
        TypedForm::Convert(a) => {
            if is_void(e.of()) {
                unused(scope, draft, a)
            } else {
                evaluation(scope, draft, e)
            }
        }
        TypedForm::Cast(a) => {
            if is_void(e.of()) {
                unused(scope, draft, a)
            } else {
                evaluation(scope, draft, e)
            }
        }
        TypedForm::Unary(operator, a) => match prefix_of(*operator) {
            Prefix::Address => unused(scope, draft, a),
            Prefix::Step => step_unused(scope, draft, *operator, e, a),
            _ => evaluation(scope, draft, e),
        },
        TypedForm::After(operator, a) => step_unused(scope, draft, *operator, e, a),
        TypedForm::Call(f, args) => {
            let _ = called(scope, draft, e, None, false, f, args)?;
            Ok(())
        }
        TypedForm::Binary(operator, a, b) => match circuit_of(*operator) {
            Some(circuit) => {
                let ends = short_circuit(scope, draft, circuit, a, b)?;
                met(draft, ends)
            }
            None => evaluation(scope, draft, e),
        },
        TypedForm::Choice(a, b, d) => chosen_unused(scope, draft, a, b, d),
        TypedForm::Assign(operator, l, r) => {
            let (to, value) = sides(scope, draft, l, r)?;
            if is_plain_assign(*operator) {
                assigned(scope, draft, e, to, value)
            } else {
                let kind = kind_of(r.of());
                updated(scope, draft, e, operator_of(*operator), kind, to, value)
            }
        }
        TypedForm::Comma(a, b) => {
            unused(scope, draft, a)?;
            unused(scope, draft, b)
        }
        TypedForm::Object(_)
        | TypedForm::Function(_)
        | TypedForm::Decay(_)
        | TypedForm::Index(..)
        | TypedForm::Member(..)
        | TypedForm::Arrow(..) => evaluation(scope, draft, e),
    }
}

/// The value of an expression, evaluated and not used.
#[cycle(uses)]
fn evaluation(scope: &Scope<'_>, draft: &mut Draft, e: &TypedExpr) -> Result<(), AllocError>
    ensures { Leaves result (draft_of draft.new) (evaluated (context_of scope.now) (typed_of e.now)
        ((meaning (context_of scope.now) (typed_of e.now)).value None (draft_of draft.old)).pure
        ((meaning (context_of scope.now) (typed_of e.now)).value None
        (draft_of draft.old)).after) }
{
    let value = value(scope, draft, None, e)?;
    evaluated(scope, draft, e, value)
}

/// The ends of the value of an expression, compared.
#[cycle(uses)]
fn comparison(scope: &Scope<'_>, draft: &mut Draft, e: &TypedExpr) -> Result<Ends, AllocError>
    ensures { GivesEnds result (draft_of draft.new) (fork (context_of scope.now) (typed_of e.now)
        ((meaning (context_of scope.now) (typed_of e.now)).value None (draft_of draft.old)).pure
        ((meaning (context_of scope.now) (typed_of e.now)).value None
        (draft_of draft.old)).after) }
{
    let value = value(scope, draft, None, e)?;
    fork(scope, draft, e, value)
}

/// The ends of a condition. None are loose then.
#[cycle(uses)]
pub fn branch(scope: &Scope<'_>, draft: &mut Draft, e: &TypedExpr) -> Result<Ends, AllocError>
    ensures { GivesEnds result (draft_of draft.new)
        ((meaning (context_of scope.now) (typed_of e.now)).branch (draft_of draft.old)) }
{
    match &e.form {
        TypedForm::Unary(operator, a) => match prefix_of(*operator) {
            Prefix::Negation => {
                let Ends { yes, no } = branch(scope, draft, a)?;
                Ok(Ends { yes: no, no: yes })
            }
            _ => comparison(scope, draft, e),
        },
        TypedForm::Binary(operator, a, b) => match circuit_of(*operator) {
            Some(circuit) => short_circuit(scope, draft, circuit, a, b),
            None => comparison(scope, draft, e),
        },
        TypedForm::Number(_)
        | TypedForm::Char(_)
        | TypedForm::Constant(_)
        | TypedForm::Object(_)
        | TypedForm::Function(_)
        | TypedForm::Convert(_)
        | TypedForm::Decay(_)
        | TypedForm::Index(..)
        | TypedForm::Call(..)
        | TypedForm::Member(..)
        | TypedForm::Arrow(..)
        | TypedForm::After(..)
        | TypedForm::Cast(_)
        | TypedForm::Choice(..)
        | TypedForm::Assign(..)
        | TypedForm::Comma(..) => comparison(scope, draft, e),
    }
}

/// The values of arguments, each kept where a later one adds nodes.
#[cycle(uses)]
fn arguments(
    scope: &Scope<'_>,
    draft: &mut Draft,
    args: &[TypedExpr],
) -> Result<Vec<Expr>, AllocError>
    ensures { Gives (λ (vs : Vec Expr Global). map expression_of vs.items) result
        (draft_of draft.new) (arguments (context_of scope.now)
        (operands (context_of scope.now) (typed_list (map typed_of args.now)))
        (draft_of draft.old)) }
{
    let mut values = Vec::new(scope.alloc);
    let mut later = adding(args);
    for arg in args {
        let value = value(scope, draft, None, arg)?;
        later = adding_behind(later, arg);
        let value = keep(scope, draft, later > 0, arg, value)?;
        values.push(value)?;
    }
    Ok(values)
}

/// The value of a callee, kept where an argument adds nodes; then those of the arguments.
#[cycle(uses)]
fn callee_and_arguments(
    scope: &Scope<'_>,
    draft: &mut Draft,
    f: &TypedExpr,
    args: &[TypedExpr],
) -> Result<(Expr, Vec<Expr>), AllocError>
    ensures { GivesCall result (draft_of draft.new) (callee_and_arguments (context_of scope.now)
        (operand (context_of scope.now) (typed_of f.now))
        (operands (context_of scope.now) (typed_list (map typed_of args.now)))
        (draft_of draft.old)) }
{
    let callee = value(scope, draft, None, f)?;
    let later = adding(args);
    let callee = keep(scope, draft, later > 0, f, callee)?;
    let values = arguments(scope, draft, args)?;
    Ok((callee, values))
}

/// A call, whose result is directly converted to this type, if it is: where the result is, if it
/// is used.
#[cycle(uses)]
fn called(
    scope: &Scope<'_>,
    draft: &mut Draft,
    e: &TypedExpr,
    to: Option<&CType>,
    used: bool,
    f: &TypedExpr,
    args: &[TypedExpr],
) -> Result<Option<Lvalue>, AllocError>
    ensures { Gives (option_map lvalue_of) result (draft_of draft.new)
        (called (context_of scope.now) (typed_of e.now)
        (option_map (λ t. type_of t.now) to.entry) used
        (operand (context_of scope.now) (typed_of f.now))
        (operands (context_of scope.now) (typed_list (map typed_of args.now)))
        (draft_of draft.old)) }
{
    match undefined_callee(scope, f) {
        Some(number) => {
            let values = arguments(scope, draft, args)?;
            undefined_called(scope, draft, number, e, to, used, args, values)
        }
        None => {
            let (callee, values) = callee_and_arguments(scope, draft, f, args)?;
            defined_called(scope, draft, e, used, callee, values)
        }
    }
}

/// Where a call's result is.
#[cycle(uses)]
fn call_place(
    scope: &Scope<'_>,
    draft: &mut Draft,
    e: &TypedExpr,
    to: Option<&CType>,
    f: &TypedExpr,
    args: &[TypedExpr],
) -> Result<Lvalue, AllocError>
    ensures { Gives lvalue_of result (draft_of draft.new) (call_place (context_of scope.now)
        (typed_of e.now) (option_map (λ t. type_of t.now) to.entry)
        (operand (context_of scope.now) (typed_of f.now))
        (operands (context_of scope.now) (typed_list (map typed_of args.now)))
        (draft_of draft.old)) }
{
    let result = called(scope, draft, e, to, true, f, args)?;
    result_place(scope.alloc, e.of(), result)
}
