//! The header of a `switch` (C90 6.6.4.2).
ghost use Rattle.std.specs.Prelude.{◌≡◌, ℕ, IfOk, Vec, OnOk, drop};
ghost use Rattle.std.specs.declared.alloc.Global.{Global};
ghost use Rattle.sp_types.specs.TypedView.{typed_of, statement_of};
ghost use Rattle.sp_ir.specs.View.{expression_of};
ghost use Rattle.sp_lower_draft.specs.Draft.{left};
ghost use Rattle.sp_lower_draft.specs.View.{context_of, draft_of};
ghost use Rattle.sp_lower_draft.specs.Outcome.{Gives};
ghost use Rattle.sp_lower_body.specs.Bodies.{out_of_switch};
ghost use Rattle.sp_lower_body.specs.Cases.{case_values};
ghost use Rattle.sp_lower_body.specs.Statements.{assume_each, begin_switch};
ghost use Rattle.sp_lower_body.specs.View.{body_of};

use sp_ir::{Command, Expr};
use sp_lower_body::{Body, case_values};
use sp_lower_draft::{Draft, Scope, kind_of};
use sp_lower_expr::value;
use sp_tree::{Place, Punct};
use sp_types::{IntKind, TypedExpr, TypedStatement};
use std::alloc::AllocError;

/// What a switch keeps of the body around it.
#[derive(Drop)]
pub struct Around {
    pub breaks: Vec<u32>,
    pub cases: Vec<u32>,
    pub next_case: usize,
    pub otherwise: u32,
}

/// From the same ends one node for each value: the nodes.
fn assume_each(
    scope: &Scope<'_>,
    draft: &mut Draft,
    value: &Expr,
    kind: IntKind,
    place: Place,
    ends: &[u32],
    values: &[i128],
) -> Result<Vec<u32>, AllocError>
    ensures { Gives (λ (ns : Vec ℕ Global). ns.items) result (draft_of draft.new)
        (assume_each (context_of scope.now) (expression_of value.now) kind place ends.now
        values.now (draft_of draft.old)) }
{
    let mut nodes = Vec::new(scope.alloc);
    for number in values {
        draft.set_loose(Vec::from_slice(scope.alloc, ends)?);
        let command = Command::Assume {
            left: value.copy(scope.alloc)?,
            op: Punct::EqualEqual,
            right: Expr::number(*number, kind),
        };
        let node = draft.add(scope, command, place)?;
        nodes.push(node)?;
    }
    Ok(nodes)
}

/// The header of a switch, and what is kept of the body around it.
pub fn begin_switch(
    scope: &Scope<'_>,
    body: &mut Body,
    e: &TypedExpr,
    place: Place,
    s: &TypedStatement,
) -> Result<Around, AllocError>
    ensures { IfOk result (λ around.
        (body_of body.new ≡ begin_switch (context_of scope.now) (typed_of e.now) place
        (case_values (statement_of s.now)) (body_of body.old))
        × (around.breaks.items ≡ body.old.breaks.items)
        × (drop around.next_case around.cases.items ≡ drop body.old.next_case body.old.cases.items)
        × (around.otherwise ≡ body.old.otherwise)) }
{
    let mut values = Vec::new(scope.alloc);
    case_values(&mut values, s)?;
    let v = value(scope, &mut body.draft, None, e)?;
    let ends = body.draft.copy_loose(scope.alloc)?;
    let kind = kind_of(e.of());
    let draft = &mut body.draft;
    let cases = assume_each(
        scope,
        draft,
        &v,
        kind,
        e.place(),
        ends.as_slice(),
        values.as_slice(),
    )?;
    body.draft.set_loose(ends);
    let otherwise = body.draft.add(scope, Command::Skip, place)?;
    body.draft.set_loose(Vec::new(scope.alloc));
    let around = Around {
        breaks: std::mem::replace(&mut body.breaks, Vec::new(scope.alloc)),
        cases: std::mem::replace(&mut body.cases, cases),
        next_case: body.next_case,
        otherwise: body.otherwise,
    };
    body.next_case = 0;
    body.otherwise = otherwise;
    Ok(around)
}

/// Behind a switch: without a default its node is loose too.
pub fn end_switch(
    scope: &Scope<'_>,
    body: &mut Body,
    has_default: bool,
    around: Around,
) -> Result<(), AllocError>
    ensures { OnOk result (body_of body.new ≡ out_of_switch around.breaks.items
        (drop around.next_case around.cases.items) around.otherwise has_default
        (body_of body.old)) }
{
    let Around {
        breaks,
        cases,
        next_case,
        otherwise,
    } = around;
    let mut ends = body.draft.take_loose(scope.alloc);
    ends.extend_from_slice(body.breaks.as_slice())?;
    if !has_default {
        ends.push(body.otherwise)?;
    }
    body.draft.set_loose(ends);
    body.breaks = breaks;
    body.cases = cases;
    body.next_case = next_case;
    body.otherwise = otherwise;
    Ok(())
}
