//! Whether expressions add nodes.
ghost use Rattle.std.specs.Prelude.{◌≡◌, map};
ghost use Rattle.sp_types.specs.TypedView.{typed_of};
ghost use Rattle.sp_lower_draft.specs.Adds.{adds, adds_unused};
ghost use Rattle.sp_lower_expr.specs.Adding.{adding, adding_behind};

use sp_lower_draft::{Prefix, circuit_of, is_void, prefix_of};
use sp_types::{TypedExpr, TypedForm};

/// Whether its value has nodes.
pub fn adds(e: &TypedExpr) -> bool
    ensures { result ≡ adds (typed_of e.now) }
{
    match &e.form {
        TypedForm::Number(_)
        | TypedForm::Char(_)
        | TypedForm::Constant(_)
        | TypedForm::Object(_)
        | TypedForm::Function(_) => false,
        TypedForm::Convert(a)
        | TypedForm::Decay(a)
        | TypedForm::Cast(a)
        | TypedForm::Member(a, _)
        | TypedForm::Arrow(a, _) => adds(a),
        TypedForm::Unary(operator, a) => match prefix_of(*operator) {
            Prefix::Step => true,
            _ => adds(a),
        },
        TypedForm::Binary(operator, a, b) => match circuit_of(*operator) {
            Some(_) => true,
            None => adds(a) || adds(b),
        },
        TypedForm::Index(a, b) => adds(a) || adds(b),
        TypedForm::Choice(..)
        | TypedForm::Assign(..)
        | TypedForm::After(..)
        | TypedForm::Call(..) => true,
        TypedForm::Comma(a, b) => adds_unused(a) || adds(b),
    }
}

/// Whether it has nodes where its value isn't used.
fn adds_unused(e: &TypedExpr) -> bool
    ensures { result ≡ adds_unused (typed_of e.now) }
{
    match &e.form {
        TypedForm::Number(_) | TypedForm::Char(_) | TypedForm::Constant(_) => false,
        TypedForm::Convert(a) | TypedForm::Cast(a) => {
            if is_void(&e.of) { adds_unused(a) } else { true }
        }
        TypedForm::Unary(operator, a) => match prefix_of(*operator) {
            Prefix::Address => adds_unused(a),
            _ => true,
        },
        TypedForm::Comma(a, b) => adds_unused(a) || adds_unused(b),
        TypedForm::Object(_)
        | TypedForm::Function(_)
        | TypedForm::Decay(_)
        | TypedForm::Index(..)
        | TypedForm::Call(..)
        | TypedForm::Member(..)
        | TypedForm::Arrow(..)
        | TypedForm::After(..)
        | TypedForm::Binary(..)
        | TypedForm::Choice(..)
        | TypedForm::Assign(..) => true,
    }
}

/// How many of these add nodes.
pub fn adding(args: &[TypedExpr]) -> usize
    ensures { result ≡ adding (map typed_of args.now) }
{
    let mut count = 0;
    for arg in args {
        if adds(arg) {
            count += 1;
        }
    }
    count
}

/// So many but one, where this one adds nodes.
pub fn adding_behind(count: usize, arg: &TypedExpr) -> usize
    ensures { result ≡ adding_behind count (typed_of arg.now) }
{
    if adds(arg) {
        count.saturating_sub(1)
    } else {
        count
    }
}
