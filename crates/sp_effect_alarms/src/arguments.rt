//! What the arguments of a library call are worth.
ghost use Rattle.std.specs.Prelude.{◌≡◌, true, map, IfOk};
ghost use Rattle.sp_ir.specs.Programs.{lowered_of};
ghost use Rattle.sp_ir.specs.View.{expression_of};
ghost use Rattle.sp_value.specs.Locations.{cells_at};
ghost use Rattle.sp_value.specs.Slots.{known_of};
ghost use Rattle.sp_effect_alarms.specs.Library.{argument};
ghost use Rattle.sp_effect_alarms.specs.Commands.{values_of, are_proper};

use sp_eval::evaluate;
use sp_interval::Interval;
use sp_ir::{Expr, Lowered};
use sp_value::{Locations, Value, View};
use std::alloc::{AllocError, Global};

/// The first three arguments: no routine has more. Nothing is known of one that isn't there.
#[derive(Drop)]
pub struct Arguments {
    pub first: Value,
    pub second: Value,
    pub third: Value,
}

// The argument of a number.
fn argument<V: View>(
    alloc: Global,
    lowered: &Lowered,
    locations: &Locations,
    view: &V,
    args: &[Expr],
    number: usize,
) -> Result<Value, AllocError>
    requires { are_proper (map expression_of args.now) ≡ true }
    ensures { IfOk result (λ value. known_of value ≡ argument (values_of (lowered_of lowered.now)
        (cells_at locations.now.cells.items (V.store view.now)) (map expression_of args.now))
        number) }
{
    match args.get(number) {
        Some(arg) => evaluate(alloc, lowered, locations, arg, view),
        None => Ok(Value::of_numbers(alloc, Interval::Empty)),
    }
}

/// What the arguments of a call are worth.
pub fn arguments_of<V: View>(
    alloc: Global,
    lowered: &Lowered,
    locations: &Locations,
    view: &V,
    args: &[Expr],
) -> Result<Arguments, AllocError>
    requires { are_proper (map expression_of args.now) ≡ true }
    ensures { IfOk result (λ arguments. let values = values_of (lowered_of lowered.now)
        (cells_at locations.now.cells.items (V.store view.now)) (map expression_of args.now) in
        (known_of arguments.first ≡ argument values 0)
        × (known_of arguments.second ≡ argument values 1)
        × (known_of arguments.third ≡ argument values 2)) }
{
    let first = argument(alloc, lowered, locations, view, args, 0)?;
    let second = argument(alloc, lowered, locations, view, args, 1)?;
    let third = argument(alloc, lowered, locations, view, args, 2)?;
    Ok(Arguments {
        first,
        second,
        third,
    })
}
