//! Numbers and characters (C90 6.1.3), and the values of `sizeof` (6.3.3.4).
ghost use Rattle.std.specs.Prelude.{◌≡◌};
ghost use Rattle.sp_types.specs.TypedView.{boxed_of};
ghost use Rattle.sp_types.specs.View.{type_of};
ghost use Rattle.sp_base_checked.specs.Answers.{AnswersIn};
ghost use Rattle.sp_check_constants.specs.Constants.{literal_kind, first_that_holds};
ghost use Rattle.sp_check_env.specs.Views.{env_of};
ghost use Rattle.sp_check_primaries.specs.Literals.{number_checked, character_checked, size_checked};

use sp_base_checked::{CheckError, fault};
use sp_check_env::Env;
use sp_tree::{FaultKind, Number, Place};
use sp_types::{CType, IntKind, TypedExpr, TypedForm, WideInt, layout};
use std::alloc::Global;

const MAX_INT: u64 = 2147483647;

const MAX_UINT: u64 = 4294967295;

const MAX_LONG: u64 = 9223372036854775807;

/// The type of a number: the first of its list that holds it (C90 6.1.3.2).
fn literal_kind(number: Number) -> IntKind
    ensures { result ≡ literal_kind number }
{
    let value = number.value;
    let of_long = if value <= MAX_LONG {
        IntKind::Long
    } else {
        IntKind::ULong
    };
    if number.unsigned {
        if number.long || value > MAX_UINT {
            IntKind::ULong
        } else {
            IntKind::UInt
        }
    } else if number.long {
        of_long
    } else if value <= MAX_INT {
        IntKind::Int
    } else if !number.decimal && value <= MAX_UINT {
        IntKind::UInt
    } else {
        of_long
    }
}

/// A number as an expression.
pub fn number_checked(
    alloc: Global,
    env: &mut Env,
    number: Number,
    place: Place,
    mark: Place,
) -> Result<Box<TypedExpr>, CheckError>
    ensures { AnswersIn boxed_of (number_checked (env_of env.old) number place mark)
        (env_of env.new) result }
{
    env.add_constant(number.value as i128)?;
    let of = CType::Int(literal_kind(number));
    Ok(TypedExpr::boxed(alloc, TypedForm::Number(number), of, place, mark)?)
}

/// A character as an expression, by its value.
pub fn character_checked(
    alloc: Global,
    env: &mut Env,
    value: i64,
    place: Place,
    mark: Place,
) -> Result<Box<TypedExpr>, CheckError>
    ensures { AnswersIn boxed_of (character_checked (env_of env.old) value place mark)
        (env_of env.new) result }
{
    env.add_constant(value as i128)?;
    let of = CType::Int(IntKind::Int);
    Ok(TypedExpr::boxed(alloc, TypedForm::Char(value), of, place, mark)?)
}

/// The value of a `sizeof` of this type: IncompleteType where it isn't complete.
pub fn size_checked(
    alloc: Global,
    env: &mut Env,
    place: Place,
    mark: Place,
    of: &CType,
) -> Result<Box<TypedExpr>, CheckError>
    ensures { AnswersIn boxed_of (size_checked (env_of env.old) place mark (type_of of.now))
        (env_of env.new) result }
{
    let Some(extent) = layout(of, env.structs()) else {
        return fault(FaultKind::IncompleteType, place);
    };
    let size = extent.size as i128;
    env.add_constant(size)?;
    let kind = CType::Int(IntKind::ULong);
    Ok(TypedExpr::boxed(
        alloc,
        TypedForm::Constant(WideInt::new(size)),
        kind,
        place,
        mark,
    )?)
}
