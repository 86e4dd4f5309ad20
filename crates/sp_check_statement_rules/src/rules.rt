//! The rules, by the form of the statement.
ghost use Rattle.std.specs.Prelude.{◌≡◌};
ghost use Rattle.sp_types.specs.TypedView.{boxed_of, statement_form_of, statement_of, typed_of};
ghost use Rattle.sp_base_checked.specs.Answers.{Answers};
ghost use Rattle.sp_check_statement_rules.specs.Rules as rules;
ghost use Rattle.sp_check_statement_rules.specs.View.{around_of};

use crate::Around;
use crate::around::integer_kind;
use crate::cases::distinct_cases;
use crate::values::as_kind;
use sp_base_checked::{CheckError, fault};
use sp_check_constants::constant;
use sp_check_operands::{converted, is_scalar, promoted_type};
use sp_tree::{FaultKind, Place};
use sp_types::{IntKind, TypedExpr, TypedStatement, TypedStatementForm, convertible};
use std::alloc::Global;

/// The condition of an `if` or a loop is a scalar, else BadOperand at its place (C90 6.6.4.1, 6.6.5).
pub fn condition(at: Place, e: Box<TypedExpr>) -> Result<Box<TypedExpr>, CheckError>
    ensures { Answers boxed_of (rules.condition at (boxed_of e)) result }
{
    if !is_scalar(e.of()) {
        return fault(FaultKind::BadOperand, at);
    }
    Ok(e)
}

/// The value of a switch is an integer, which is promoted; else BadOperand at its place (C90 6.6.4.2).
pub fn switch_value(
    alloc: Global,
    at: Place,
    e: Box<TypedExpr>,
) -> Result<Box<TypedExpr>, CheckError>
    ensures { Answers boxed_of (rules.switch_value at (boxed_of e)) result }
{
    if integer_kind(e.of()).is_none() {
        return fault(FaultKind::BadOperand, at);
    }
    let to = promoted_type(alloc, e.of())?;
    Ok(converted(alloc, &to, e)?)
}

/// A switch, whose cases differ, else RepeatedCase (C90 6.6.4.2).
pub fn switch_made(
    alloc: Global,
    e: Box<TypedExpr>,
    body: TypedStatement,
) -> Result<TypedStatementForm, CheckError>
    ensures { Answers statement_form_of
        (rules.switch_made (boxed_of e) (statement_of body)) result }
{
    distinct_cases(alloc, &body)?;
    Ok(TypedStatementForm::switch_on(alloc, e, body)?)
}

/// The type of the switch in which a case or a default stands, else MisplacedJump (C90 6.6.1).
pub fn switch_around(around: &Around<'_>, place: Place) -> Result<IntKind, CheckError>
    ensures { Answers (λ k. k) (rules.switch_around (around_of around.now) place) result }
{
    match around.switch {
        Some(kind) => Ok(kind),
        None => fault(FaultKind::MisplacedJump, place),
    }
}

/// The value of a case in a switch on this type: an integer constant, else NotAConstant at its place (C90
/// 6.6.4.2).
pub fn case_value(kind: IntKind, at: Place, e: &TypedExpr) -> Result<i128, CheckError>
    ensures { Answers (λ z. z) (rules.case_value kind at (typed_of e.now)) result }
{
    match constant(e) {
        Some(value) => Ok(as_kind(kind, value)),
        None => fault(FaultKind::NotAConstant, at),
    }
}

/// `continue` stands in a loop, else MisplacedJump (C90 6.6.6.2).
pub fn continued(around: &Around<'_>, place: Place) -> Result<TypedStatementForm, CheckError>
    ensures { Answers statement_form_of (rules.continued (around_of around.now) place) result }
{
    if !around.in_loop {
        return fault(FaultKind::MisplacedJump, place);
    }
    Ok(TypedStatementForm::Continue)
}

/// `break` stands in a switch or a loop, else MisplacedJump (C90 6.6.6.3).
pub fn broken(around: &Around<'_>, place: Place) -> Result<TypedStatementForm, CheckError>
    ensures { Answers statement_form_of (rules.broken (around_of around.now) place) result }
{
    if around.switch.is_none() && !around.in_loop {
        return fault(FaultKind::MisplacedJump, place);
    }
    Ok(TypedStatementForm::Break)
}

/// What is returned converts to the type of the function's result, else NotConvertible at its place (C90
/// 6.6.6.4).
pub fn returned(
    alloc: Global,
    around: &Around<'_>,
    at: Place,
    e: Box<TypedExpr>,
) -> Result<Box<TypedExpr>, CheckError>
    ensures { Answers boxed_of (rules.returned (around_of around.now) at (boxed_of e)) result }
{
    if !convertible(e.of(), around.result) {
        return fault(FaultKind::NotConvertible, at);
    }
    Ok(converted(alloc, around.result, e)?)
}
