//! The value of an expression in a store, and where an lvalue stands there.
ghost use Rattle.std.specs.Prelude.{◌≡◌, true, IfOk};
ghost use Rattle.sp_ir.specs.Programs.{lowered_of};
ghost use Rattle.sp_ir.specs.Terrain.{terrain_of};
ghost use Rattle.sp_ir.specs.View.{expression_of, lvalue_of};
ghost use Rattle.sp_value.specs.Locations.{cells_at};
ghost use Rattle.sp_value.specs.Slots.{known_of};
ghost use Rattle.sp_eval.specs.Evaluation.{address_of, value_of, is_proper, is_proper_lvalue};

use crate::numbers::{exactly, operated, relation_of, signed};
use crate::pointers::{comparison, distance, moved};
use crate::steps::{converted, elements_of, matched, members_of, read_at, whole_of};
use sp_ir::{Expr, Lowered, Lvalue};
use sp_value::{Locations, Target, Value, View, range_of};
use std::alloc::{AllocError, Global};

/// The value of an expression of a formed program in the store of a view.
#[cycle(evaluation)]
pub fn evaluate<V: View>(
    alloc: Global,
    lowered: &Lowered,
    locations: &Locations,
    expr: &Expr,
    view: &V,
) -> Result<Value, AllocError>
    requires { is_proper (expression_of expr.now) ≡ true }
    ensures { IfOk result (λ value. known_of value ≡
        value_of (terrain_of (lowered_of lowered.now))
        (cells_at locations.now.cells.items (V.store view.now)) (expression_of expr.now)) }
{
    match expr {
        Expr::Number(number, _) => Ok(Value::of_numbers(alloc, exactly(*number))),
        Expr::Address(of) => address_of(alloc, lowered, locations, of, view),
        Expr::Decay(of) => {
            let address = address_of(alloc, lowered, locations, of, view)?;
            let address = matched(alloc, lowered, of, address)?;
            elements_of(alloc, lowered, &address)
        }
        Expr::Read(of) => {
            let address = address_of(alloc, lowered, locations, of, view)?;
            let address = matched(alloc, lowered, of, address)?;
            read_at(alloc, lowered, locations, view, of.of(), &address)
        }
        Expr::Convert(to, operand) => {
            let operand = evaluate(alloc, lowered, locations, operand, view)?;
            converted(alloc, to, &operand)
        }
        Expr::Unary(op, kind, operand) => {
            let operand = evaluate(alloc, lowered, locations, operand, view)?;
            let numbers = signed(*op, range_of(*kind), operand.numbers);
            Ok(Value::of_numbers(alloc, numbers))
        }
        Expr::Binary(op, kind, left, right, _) => {
            let left = evaluate(alloc, lowered, locations, left, view)?;
            let right = evaluate(alloc, lowered, locations, right, view)?;
            let numbers = operated(*op, range_of(*kind), left.numbers, right.numbers);
            Ok(Value::of_numbers(alloc, numbers))
        }
        Expr::Compare(op, left, right) => {
            let left = evaluate(alloc, lowered, locations, left, view)?;
            let right = evaluate(alloc, lowered, locations, right, view)?;
            let numbers = comparison(relation_of(*op), &left, &right);
            Ok(Value::of_numbers(alloc, numbers))
        }
        Expr::Move {
            pointer,
            by,
            back,
            size,
        } => {
            let pointer = evaluate(alloc, lowered, locations, pointer, view)?;
            let by = evaluate(alloc, lowered, locations, by, view)?;
            moved(alloc, lowered, *back, *size, &pointer, &by)
        }
        Expr::Distance { left, right, size } => {
            let left = evaluate(alloc, lowered, locations, left, view)?;
            let right = evaluate(alloc, lowered, locations, right, view)?;
            let numbers = distance(alloc, lowered, *size, &left, &right)?;
            Ok(Value::of_numbers(alloc, numbers))
        }
    }
}

/// The address of an lvalue of a formed program in the store of a view: its targets are where the
/// lvalue stands, punned ones too.
#[cycle(evaluation)]
pub fn address_of<V: View>(
    alloc: Global,
    lowered: &Lowered,
    locations: &Locations,
    lvalue: &Lvalue,
    view: &V,
) -> Result<Value, AllocError>
    requires { is_proper_lvalue (lvalue_of lvalue.now) ≡ true }
    ensures { IfOk result (λ value. known_of value ≡
        address_of (terrain_of (lowered_of lowered.now))
        (cells_at locations.now.cells.items (V.store view.now)) (lvalue_of lvalue.now)) }
{
    match lvalue {
        Lvalue::Direct(object, _) => whole_of(alloc, lowered, lowered.root_of(*object)),
        Lvalue::Through(pointer, _, _) => evaluate(alloc, lowered, locations, pointer, view),
        Lvalue::Field(of, number, _) => {
            let address = address_of(alloc, lowered, locations, of, view)?;
            let address = matched(alloc, lowered, of, address)?;
            members_of(alloc, lowered, of.of(), *number, &address)
        }
    }
}

/// The targets that an lvalue of a formed program denotes in the store of a view, ascending by
/// region, punned ones too.
pub fn resolve<V: View>(
    alloc: Global,
    lowered: &Lowered,
    locations: &Locations,
    lvalue: &Lvalue,
    view: &V,
) -> Result<Vec<Target>, AllocError>
    requires { is_proper_lvalue (lvalue_of lvalue.now) ≡ true }
    ensures { IfOk result (λ targets. targets.items ≡
        (address_of (terrain_of (lowered_of lowered.now))
        (cells_at locations.now.cells.items (V.store view.now)) (lvalue_of lvalue.now)).targets) }
{
    let address = address_of(alloc, lowered, locations, lvalue, view)?;
    let mut targets = Vec::new(alloc);
    targets.extend_from_slice(address.targets.as_slice())?;
    Ok(targets)
}
