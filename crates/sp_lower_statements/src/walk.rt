//! The cycle down statements (C90 6.6).
ghost use Rattle.std.specs.Prelude.{◌≡◌, IfOk, map, option_map, OnOk};
ghost use Rattle.sp_types.specs.TypedView.{boxed_of, statement_list, statement_of};
ghost use Rattle.sp_lower_draft.specs.View.{context_of, draft_of};
ghost use Rattle.sp_lower_draft.specs.Outcome.{Leaves, GivesEnds};
ghost use Rattle.sp_lower_body.specs.Statements.{
  maybe_unused,
  maybe_branch,
  maybe_returned,
  lower_statement,
  lower_all,
};
ghost use Rattle.sp_lower_body.specs.View.{frame_of, body_of};

use crate::declarations::declare_all;
use crate::switches::{begin_switch, end_switch};
use sp_ir::{Command, Lvalue};
use sp_lower_body::{Body, Frame, has_default};
use sp_lower_draft::{Draft, Ends, Scope, stored};
use sp_lower_expr::{branch, unused, value};
use sp_tree::Place;
use sp_types::{TypedExpr, TypedStatement, TypedStatementForm};
use std::alloc::AllocError;

/// An expression of a `for`, unused, where it is there.
fn maybe_unused(
    scope: &Scope<'_>,
    draft: &mut Draft,
    e: &Option<Box<TypedExpr>>,
) -> Result<(), AllocError>
    ensures { Leaves result (draft_of draft.new) (maybe_unused (context_of scope.now)
        (option_map boxed_of e.now) (draft_of draft.old)) }
{
    match e {
        Some(e) => unused(scope, draft, e),
        None => Ok(()),
    }
}

/// The condition of a `for`; without one all ends are true.
fn maybe_branch(
    scope: &Scope<'_>,
    draft: &mut Draft,
    e: &Option<Box<TypedExpr>>,
) -> Result<Ends, AllocError>
    ensures { GivesEnds result (draft_of draft.new) (maybe_branch (context_of scope.now)
        (option_map boxed_of e.now) (draft_of draft.old)) }
{
    match e {
        Some(e) => branch(scope, draft, e),
        None => Ok(Ends {
            yes: draft.take_loose(scope.alloc),
            no: Vec::new(scope.alloc),
        }),
    }
}

/// The value of a `return`, which goes to the function's result.
fn maybe_returned(
    frame: &Frame<'_>,
    draft: &mut Draft,
    e: &Option<Box<TypedExpr>>,
    place: Place,
) -> Result<(), AllocError>
    ensures { Leaves result (draft_of draft.new) (maybe_returned (frame_of frame.now)
        (option_map boxed_of e.now) place (draft_of draft.old)) }
{
    match e {
        Some(e) => {
            let v = value(&frame.scope, draft, None, e)?;
            let of = frame.result_type.copy(frame.scope.alloc)?;
            let to = Lvalue::direct(frame.result, of);
            draft.add(&frame.scope, stored(to, frame.result_type, v), place)?;
            Ok(())
        }
        None => Ok(()),
    }
}

/// The statements of a block.
#[cycle(walk)]
fn statements(
    frame: &Frame<'_>,
    body: &mut Body,
    statements: &[TypedStatement],
) -> Result<(), AllocError>
    ensures { OnOk result (body_of body.new ≡ lower_all (frame_of frame.now)
        (statement_list (map statement_of statements.now)) (body_of body.old)) }
{
    for s in statements {
        statement(frame, body, s)?;
    }
    Ok(())
}

/// A statement.
#[cycle(walk)]
pub fn statement(frame: &Frame<'_>, body: &mut Body, s: &TypedStatement) -> Result<(), AllocError>
    ensures { OnOk result (body_of body.new ≡
        lower_statement (frame_of frame.now) (statement_of s.now) (body_of body.old)) }
{
    let scope = &frame.scope;
    match &s.form {
        TypedStatementForm::Label(label, inner) => {
            body.set_label(scope, *label, s.place)?;
            statement(frame, body, inner)
        }
        TypedStatementForm::Case(_, inner) => {
            body.set_case(scope, s.place)?;
            statement(frame, body, inner)
        }
        TypedStatementForm::Default(inner) => {
            body.set_default(scope, s.place)?;
            statement(frame, body, inner)
        }
        TypedStatementForm::Block(objects, inner) => {
            declare_all(frame, &mut body.draft, objects)?;
            statements(frame, body, inner)
        }
        TypedStatementForm::Empty => Ok(()),
        TypedStatementForm::Of(e) => unused(scope, &mut body.draft, e),
        TypedStatementForm::If(e, inner, None) => {
            let Ends { yes, no } = branch(scope, &mut body.draft, e)?;
            body.draft.set_loose(yes);
            statement(frame, body, inner)?;
            let one = body.draft.take_loose(scope.alloc);
            body.draft.set_loose(no);
            body.meet(scope, one)
        }
        TypedStatementForm::If(e, inner, Some(other)) => {
            let Ends { yes, no } = branch(scope, &mut body.draft, e)?;
            body.draft.set_loose(yes);
            statement(frame, body, inner)?;
            let one = body.draft.take_loose(scope.alloc);
            body.draft.set_loose(no);
            statement(frame, body, other)?;
            body.meet(scope, one)
        }
        TypedStatementForm::Switch(e, inner) => {
            let around = begin_switch(scope, body, e, s.place, inner)?;
            statement(frame, body, inner)?;
            end_switch(scope, body, has_default(inner), around)
        }
        TypedStatementForm::While(e, inner) => {
            let head = body.draft.add(scope, Command::Skip, s.place)?;
            let Ends { yes, no } = branch(scope, &mut body.draft, e)?;
            let outer = body.enter(scope, yes);
            statement(frame, body, inner)?;
            body.end_while(scope, head, no, outer)
        }
        TypedStatementForm::Do(inner, e) => {
            let head = body.draft.add(scope, Command::Skip, s.place)?;
            let ends = body.draft.take_loose(scope.alloc);
            let outer = body.enter(scope, ends);
            statement(frame, body, inner)?;
            body.end_inside(scope, s.place)?;
            let ends = branch(scope, &mut body.draft, e)?;
            body.end_do(head, ends, outer)
        }
        TypedStatementForm::For(first, test, step, inner) => {
            maybe_unused(scope, &mut body.draft, first)?;
            let head = body.draft.add(scope, Command::Skip, s.place)?;
            let Ends { yes, no } = maybe_branch(scope, &mut body.draft, test)?;
            let outer = body.enter(scope, yes);
            statement(frame, body, inner)?;
            body.end_inside(scope, s.place)?;
            maybe_unused(scope, &mut body.draft, step)?;
            body.end_for(scope, head, no, outer)
        }
        TypedStatementForm::Goto(label) => body.go_to(scope, *label),
        TypedStatementForm::Continue => body.go_on(scope),
        TypedStatementForm::Break => body.leave(scope),
        TypedStatementForm::Return(e) => {
            maybe_returned(frame, &mut body.draft, e, s.place)?;
            body.go_back(scope)
        }
    }
}
