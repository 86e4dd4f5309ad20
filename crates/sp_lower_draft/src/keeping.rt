//! Nodes that conditions and kept values make.
ghost use Rattle.std.specs.Prelude.{◌≡◌, ◌++◌, ◌∷◌, [], length, IfOk};
ghost use Rattle.sp_types.specs.Typed.{of, place_of};
ghost use Rattle.sp_types.specs.View.{type_of};
ghost use Rattle.sp_types.specs.TypedView.{typed_of};
ghost use Rattle.sp_ir.specs.View.{command_of, lvalue_of, expression_of};
ghost use Rattle.sp_types.specs.Types.{pointer};
ghost use Rattle.sp_types.specs.declared.ctype.IntKind.TheVariants.{Int};
ghost use Rattle.sp_ir.specs.Commands.{assume, assign, through, read, number};
ghost use Rattle.sp_lower_draft.specs.Draft.{
  add,
  with_loose,
  struct_stored,
  condition,
  fork,
  stored,
  save,
  keep,
  keep_place,
  temporary,
  opposite,
  evaluated,
};
ghost use Rattle.sp_lower_draft.specs.Steps.{truth, met};
ghost use Rattle.sp_lower_draft.specs.View.{context_of, draft_of, branch_of};
ghost use Rattle.sp_lower_draft.specs.Outcome.{Leaves, Gives, GivesEnds};

use crate::{Draft, Ends, Scope};
use sp_base_kept::keeping;
use sp_ir::{Command, Expr, Lvalue};
use sp_tree::{Place, Punct};
use sp_types::{CType, IntKind, TypedExpr};
use std::alloc::{AllocError, Global};

fn opposite(relation: Punct) -> Punct
    ensures { result ≡ opposite relation }
{
    match relation {
        Punct::Less => Punct::GreaterEqual,
        Punct::LessEqual => Punct::Greater,
        Punct::Greater => Punct::LessEqual,
        Punct::GreaterEqual => Punct::Less,
        Punct::EqualEqual => Punct::NotEqual,
        _ => Punct::EqualEqual,
    }
}

/// The command that puts the value of a struct into an lvalue.
fn struct_stored(to: Lvalue, value: Expr) -> Command
    ensures { command_of result ≡ struct_stored (lvalue_of to) (expression_of value) }
{
    match value {
        Expr::Read(from) => Command::Copy { to, from },
        value @ (Expr::Number(..)
        | Expr::Address(_)
        | Expr::Decay(_)
        | Expr::Convert(..)
        | Expr::Unary(..)
        | Expr::Binary(..)
        | Expr::Move { .. }
        | Expr::Distance { .. }
        | Expr::Compare(..)) => Command::Assign { to, value },
    }
}

/// The command that puts a value into an lvalue.
pub fn stored(to: Lvalue, of: &CType, value: Expr) -> Command
    ensures { command_of result ≡
        stored (lvalue_of to) (type_of of.now) (expression_of value) }
{
    match of {
        CType::Struct(_) => struct_stored(to, value),
        _ => Command::Assign { to, value },
    }
}

/// A comparison.
#[derive(Drop)]
struct Comparison {
    left: Expr,
    relation: Punct,
    right: Expr,
}

/// A comparison as it is; any other value compared with 0.
fn condition(value: Expr) -> Comparison
    ensures first { expression_of result.left ≡ (condition (expression_of value)).lhs }
    ensures relation { result.relation ≡ (condition (expression_of value)).relation }
    ensures second { expression_of result.right ≡ (condition (expression_of value)).rhs }
{
    match value {
        Expr::Compare(relation, left, right) => Comparison {
            left: Box::into_inner(left),
            relation,
            right: Box::into_inner(right),
        },
        value @ (Expr::Number(..)
        | Expr::Address(_)
        | Expr::Decay(_)
        | Expr::Convert(..)
        | Expr::Unary(..)
        | Expr::Binary(..)
        | Expr::Move { .. }
        | Expr::Distance { .. }
        | Expr::Read(_)) => Comparison {
            left: value,
            relation: Punct::NotEqual,
            right: Expr::Number(0, IntKind::Int),
        },
    }
}

/// The value is evaluated, and not used.
pub fn evaluated(
    scope: &Scope<'_>,
    draft: &mut Draft,
    e: &TypedExpr,
    value: Expr,
) -> Result<(), AllocError>
    ensures { Leaves result (draft_of draft.new) (evaluated (context_of scope.now)
        (typed_of e.now) (expression_of value) (draft_of draft.old)) }
{
    draft.add(scope, Command::Eval(value), e.place())?;
    Ok(())
}

/// The same comparison once more.
fn copied(alloc: Global, of: &Comparison) -> Result<Comparison, AllocError>
    ensures { IfOk result (λ c. (expression_of c.left ≡ expression_of of.now.left)
        × (c.relation ≡ of.now.relation)
        × (expression_of c.right ≡ expression_of of.now.right)) }
{
    let left = of.left.copy(alloc)?;
    let (right, left) = keeping(of.right.copy(alloc), left)?;
    Ok(Comparison {
        left,
        relation: of.relation,
        right,
    })
}

/// The commands of a condition of this value: it holds, and it doesn't.
fn assumed(alloc: Global, value: Expr) -> Result<(Command, Command), AllocError>
    ensures { IfOk result (λ both.
        (command_of both.0 ≡ assume (condition (expression_of value)).lhs
        (condition (expression_of value)).relation (condition (expression_of value)).rhs)
        × (command_of both.1 ≡ assume (condition (expression_of value)).lhs
        (opposite (condition (expression_of value)).relation)
        (condition (expression_of value)).rhs)) }
{
    let first = condition(value);
    let (other, first) = keeping(copied(alloc, &first), first)?;
    let holds = Command::Assume {
        left: first.left,
        op: first.relation,
        right: first.right,
    };
    let fails = Command::Assume {
        left: other.left,
        op: opposite(other.relation),
        right: other.right,
    };
    Ok((holds, fails))
}

/// A node of its own, which is the only loose end, and is taken.
fn added(
    scope: &Scope<'_>,
    draft: &mut Draft,
    command: Command,
    place: Place,
) -> Result<Vec<u32>, AllocError>
    ensures { IfOk result (λ ends.
        (draft_of draft.new ≡ with_loose [] (add (context_of scope.now) (command_of command) place
        (draft_of draft.old)))
        × (ends.items ≡ length (draft_of draft.old).nodes ∷ [])) }
{
    draft.add(scope, command, place)?;
    Ok(draft.take_loose(scope.alloc))
}

/// The two nodes of a condition of this value: it holds, and it doesn't.
pub fn fork(
    scope: &Scope<'_>,
    draft: &mut Draft,
    e: &TypedExpr,
    value: Expr,
) -> Result<Ends, AllocError>
    ensures { GivesEnds result (draft_of draft.new) (fork (context_of scope.now)
        (typed_of e.now) (expression_of value) (draft_of draft.old)) }
{
    let (holds, fails) = assumed(scope.alloc, value)?;
    let (ends, (holds, fails)) = keeping(draft.copy_loose(scope.alloc), (holds, fails))?;
    let yes = added(scope, draft, holds, e.place());
    let (yes, fails) = keeping(yes, fails)?;
    draft.set_loose(ends);
    let no = added(scope, draft, fails, e.place())?;
    Ok(Ends { yes, no })
}

/// A new temporary of this type, and the same once more.
fn temporary(
    scope: &Scope<'_>,
    draft: &mut Draft,
    of: &CType,
) -> Result<(Lvalue, Lvalue), AllocError>
    ensures { IfOk result (λ both. (draft_of draft.new ≡
        (temporary (context_of scope.now) (type_of of.now) (draft_of draft.old)).after)
        × (lvalue_of both.0 ≡
        (temporary (context_of scope.now) (type_of of.now) (draft_of draft.old)).pure)
        × (lvalue_of both.1 ≡
        (temporary (context_of scope.now) (type_of of.now) (draft_of draft.old)).pure)) }
{
    let to = draft.temporary(scope, of)?;
    let (other, to) = keeping(to.copy(scope.alloc), to)?;
    Ok((to, other))
}

/// The value goes to a new temporary.
pub fn save(
    scope: &Scope<'_>,
    draft: &mut Draft,
    of: &CType,
    value: Expr,
    place: Place,
) -> Result<Lvalue, AllocError>
    ensures { Gives lvalue_of result (draft_of draft.new) (save (context_of scope.now)
        (type_of of.now) (expression_of value) place (draft_of draft.old)) }
{
    let ((to, result), value) = keeping(temporary(scope, draft, of), value)?;
    let node = draft.add(scope, stored(to, of, value), place);
    let (_, result) = keeping(node, result)?;
    Ok(result)
}

/// An earlier operand's value, kept where a later one adds nodes.
pub fn keep(
    scope: &Scope<'_>,
    draft: &mut Draft,
    later: bool,
    operand: &TypedExpr,
    value: Expr,
) -> Result<Expr, AllocError>
    ensures { Gives expression_of result (draft_of draft.new) (keep (context_of scope.now) later
        (typed_of operand.now) (expression_of value) (draft_of draft.old)) }
{
    if later && value.holds_read() {
        let saved = save(scope, draft, operand.of(), value, operand.place())?;
        return Ok(Expr::read(saved));
    }
    Ok(value)
}

/// What the pointer at this lvalue points to, an object of the operand's type.
fn behind(scope: &Scope<'_>, operand: &TypedExpr, pointer: Lvalue) -> Result<Lvalue, AllocError>
    ensures { IfOk result (λ to. lvalue_of to ≡ through (read (lvalue_of pointer))
        (of (typed_of operand.now)) (place_of (typed_of operand.now))) }
{
    let (of, pointer) = keeping(operand.of().copy(scope.alloc), pointer)?;
    Lvalue::through(scope.alloc, Expr::read(pointer), of, operand.place())
}

/// The type of a pointer to this one.
fn pointer_to(alloc: Global, of: &CType) -> Result<CType, AllocError>
    ensures { IfOk result (λ t. type_of t ≡ pointer (type_of of.now)) }
{
    CType::pointer(alloc, of.copy(alloc)?)
}

/// An earlier lvalue, whose address is kept where a later operand adds nodes.
pub fn keep_place(
    scope: &Scope<'_>,
    draft: &mut Draft,
    later: bool,
    operand: &TypedExpr,
    to: Lvalue,
) -> Result<Lvalue, AllocError>
    ensures { Gives lvalue_of result (draft_of draft.new) (keep_place (context_of scope.now) later
        (typed_of operand.now) (lvalue_of to) (draft_of draft.old)) }
{
    if later && to.holds_read() {
        let (pointer, to) = keeping(pointer_to(scope.alloc, operand.of()), to)?;
        let saved = save(scope, draft, &pointer, Expr::address(to), operand.place())?;
        return behind(scope, operand, saved);
    }
    Ok(to)
}

/// The ends of the first list, then those of the second.
pub fn joined(first: Vec<u32>, second: Vec<u32>) -> Result<Vec<u32>, AllocError>
    ensures { IfOk result (λ all. all.items ≡ first.items ++ second.items) }
{
    let mut all = first;
    all.extend_from_slice(second.as_slice())?;
    Ok(all)
}

/// The ends of a condition, all loose.
pub fn met(draft: &mut Draft, ends: Ends) -> Result<(), AllocError>
    ensures { Leaves result (draft_of draft.new) (met (branch_of ends (draft_of draft.old))) }
{
    let Ends { yes, no } = ends;
    let all = joined(yes, no)?;
    draft.set_loose(all);
    Ok(())
}

/// A node that puts a value there. It is the only loose end, and is taken.
pub fn stored_at(
    scope: &Scope<'_>,
    draft: &mut Draft,
    e: &TypedExpr,
    to: &Lvalue,
    value: Expr,
) -> Result<Vec<u32>, AllocError>
    ensures { IfOk result (λ ends.
        (draft_of draft.new ≡ with_loose [] (add (context_of scope.now)
        (stored (lvalue_of to.now) (of (typed_of e.now)) (expression_of value))
        (place_of (typed_of e.now)) (draft_of draft.old)))
        × (ends.items ≡ length (draft_of draft.old).nodes ∷ [])) }
{
    let (to, value) = keeping(to.copy(scope.alloc), value)?;
    added(scope, draft, stored(to, e.of(), value), e.place())
}

/// A node that puts a number there, behind these ends. It is the only loose end, and is taken.
fn marked(
    scope: &Scope<'_>,
    draft: &mut Draft,
    to: Lvalue,
    value: i128,
    ends: Vec<u32>,
    place: Place,
) -> Result<Vec<u32>, AllocError>
    ensures { IfOk result (λ made.
        (draft_of draft.new ≡ with_loose [] (add (context_of scope.now)
        (assign (lvalue_of to) (number value Int)) place
        (with_loose ends.items (draft_of draft.old))))
        × (made.items ≡ length (draft_of draft.old).nodes ∷ [])) }
{
    draft.set_loose(ends);
    let value = Expr::number(value, IntKind::Int);
    added(scope, draft, Command::Assign { to, value }, place)
}

/// The value of a short circuit: 1 on the true ends, 0 on the false ends.
pub fn truth(
    scope: &Scope<'_>,
    draft: &mut Draft,
    e: &TypedExpr,
    ends: Ends,
) -> Result<Expr, AllocError>
    ensures { Gives expression_of result (draft_of draft.new) (truth (context_of scope.now)
        (typed_of e.now) (branch_of ends (draft_of draft.old))) }
{
    let Ends { yes, no } = ends;
    let (to, other) = temporary(scope, draft, e.of())?;
    let (result, (to, other)) = keeping(to.copy(scope.alloc), (to, other))?;
    let one = marked(scope, draft, to, 1, yes, e.place());
    let (one, (other, result)) = keeping(one, (other, result))?;
    let zero = marked(scope, draft, other, 0, no, e.place());
    let (zero, result) = keeping(zero, result)?;
    let (ends, result) = keeping(joined(one, zero), result)?;
    draft.set_loose(ends);
    Ok(Expr::read(result))
}
