//! What the operators take, and to which types they convert their operands (C90 6.3).
ghost use Rattle.std.specs.Prelude.{◌≡◌, IfOk, map, option_map, Some, None};
ghost use Rattle.sp_types.specs.View.{type_of, struct_of};
ghost use Rattle.sp_check_operands.specs.Operands.{
  integers,
  sum,
  difference,
  shift,
  relation,
  equality,
  logical,
  binary_balance,
  can_move,
  moves,
  are_moved_whole,
  choice_type,
  pointers_type,
  element_type,
  compound_type,
};
ghost use Rattle.sp_check_operands.specs.Balances.{balance_of};

use crate::conversions::{is_complete, is_object, is_scalar, is_void};
use sp_tree::Punct;
use sp_types::{CType, IntKind, StructType, common, compatible, promote};
use std::alloc::{AllocError, Global};

/// The types that two operands are converted to, and the type of the whole.
#[derive(Drop)]
pub struct Balance {
    pub left: CType,
    pub right: CType,
    pub result: CType,
}

fn integers(a: &CType, b: &CType) -> Option<Balance>
    ensures { option_map balance_of result ≡ integers (type_of a.now) (type_of b.now) }
{
    match (a, b) {
        (CType::Int(a), CType::Int(b)) => {
            let kind = common(*a, *b);
            Some(Balance {
                left: CType::Int(kind),
                right: CType::Int(kind),
                result: CType::Int(kind),
            })
        }
        _ => None,
    }
}

fn sum(alloc: Global, a: &CType, b: &CType) -> Result<Option<Balance>, AllocError>
    ensures { IfOk result (λ x. option_map balance_of x ≡ sum (type_of a.now) (type_of b.now)) }
{
    match (a, b) {
        (CType::Pointer(t), CType::Int(_)) => {
            if !is_object(t) {
                return Ok(None);
            }
            Ok(Some(Balance {
                left: a.copy(alloc)?,
                right: b.copy(alloc)?,
                result: a.copy(alloc)?,
            }))
        }
        (CType::Int(_), CType::Pointer(t)) => {
            if !is_object(t) {
                return Ok(None);
            }
            Ok(Some(Balance {
                left: a.copy(alloc)?,
                right: b.copy(alloc)?,
                result: b.copy(alloc)?,
            }))
        }
        _ => Ok(integers(a, b)),
    }
}

fn difference(alloc: Global, a: &CType, b: &CType) -> Result<Option<Balance>, AllocError>
    ensures { IfOk result (λ x. option_map balance_of x ≡
        difference (type_of a.now) (type_of b.now)) }
{
    match (a, b) {
        (CType::Pointer(t), CType::Int(_)) => {
            if !is_object(t) {
                return Ok(None);
            }
            Ok(Some(Balance {
                left: a.copy(alloc)?,
                right: b.copy(alloc)?,
                result: a.copy(alloc)?,
            }))
        }
        (CType::Pointer(t), CType::Pointer(u)) => {
            if !is_object(t) || !compatible(t, u) {
                return Ok(None);
            }
            Ok(Some(Balance {
                left: a.copy(alloc)?,
                right: b.copy(alloc)?,
                result: CType::Int(IntKind::Long),
            }))
        }
        _ => Ok(integers(a, b)),
    }
}

fn shift(a: &CType, b: &CType) -> Option<Balance>
    ensures { option_map balance_of result ≡ shift (type_of a.now) (type_of b.now) }
{
    match (a, b) {
        (CType::Int(a), CType::Int(b)) => Some(Balance {
            left: CType::Int(promote(*a)),
            right: CType::Int(promote(*b)),
            result: CType::Int(promote(*a)),
        }),
        _ => None,
    }
}

fn relation(alloc: Global, a: &CType, b: &CType) -> Result<Option<Balance>, AllocError>
    ensures { IfOk result (λ x. option_map balance_of x ≡
        relation (type_of a.now) (type_of b.now)) }
{
    match (a, b) {
        (CType::Int(a), CType::Int(b)) => {
            let kind = common(*a, *b);
            Ok(Some(Balance {
                left: CType::Int(kind),
                right: CType::Int(kind),
                result: CType::Int(IntKind::Int),
            }))
        }
        (CType::Pointer(_), CType::Pointer(_)) => Ok(Some(Balance {
            left: a.copy(alloc)?,
            right: b.copy(alloc)?,
            result: CType::Int(IntKind::Int),
        })),
        _ => Ok(None),
    }
}

fn equality(alloc: Global, a: &CType, b: &CType) -> Result<Option<Balance>, AllocError>
    ensures { IfOk result (λ x. option_map balance_of x ≡
        equality (type_of a.now) (type_of b.now)) }
{
    match (a, b) {
        (CType::Pointer(t), CType::Pointer(u)) => {
            if is_void(t) {
                return Ok(Some(Balance {
                    left: a.copy(alloc)?,
                    right: a.copy(alloc)?,
                    result: CType::Int(IntKind::Int),
                }));
            }
            if is_void(u) {
                return Ok(Some(Balance {
                    left: b.copy(alloc)?,
                    right: b.copy(alloc)?,
                    result: CType::Int(IntKind::Int),
                }));
            }
            relation(alloc, a, b)
        }
        (CType::Pointer(_), CType::Int(_)) => Ok(Some(Balance {
            left: a.copy(alloc)?,
            right: a.copy(alloc)?,
            result: CType::Int(IntKind::Int),
        })),
        (CType::Int(_), CType::Pointer(_)) => Ok(Some(Balance {
            left: b.copy(alloc)?,
            right: b.copy(alloc)?,
            result: CType::Int(IntKind::Int),
        })),
        _ => relation(alloc, a, b),
    }
}

fn logical(alloc: Global, a: &CType, b: &CType) -> Result<Option<Balance>, AllocError>
    ensures { IfOk result (λ x. option_map balance_of x ≡ logical (type_of a.now) (type_of b.now)) }
{
    if !is_scalar(a) || !is_scalar(b) {
        return Ok(None);
    }
    Ok(Some(Balance {
        left: a.copy(alloc)?,
        right: b.copy(alloc)?,
        result: CType::Int(IntKind::Int),
    }))
}

/// What the operator converts its operands to; `None` where it doesn't take them.
pub fn binary_balance(
    alloc: Global,
    operator: Punct,
    a: &CType,
    b: &CType,
) -> Result<Option<Balance>, AllocError>
    ensures { IfOk result (λ x. option_map balance_of x ≡
        binary_balance operator (type_of a.now) (type_of b.now)) }
{
    match operator {
        Punct::Plus => sum(alloc, a, b),
        Punct::Minus => difference(alloc, a, b),
        Punct::ShiftLeft | Punct::ShiftRight => Ok(shift(a, b)),
        Punct::Less | Punct::Greater | Punct::LessEqual | Punct::GreaterEqual => {
            relation(alloc, a, b)
        }
        Punct::EqualEqual | Punct::NotEqual => equality(alloc, a, b),
        Punct::AndAnd | Punct::OrOr => logical(alloc, a, b),
        _ => Ok(integers(a, b)),
    }
}

/// Whether a pointer of this type may be moved: what it points to has a size (C90 6.3.6). True of what is no pointer.
pub fn can_move(structs: &[StructType], of: &CType) -> bool
    ensures { result ≡ can_move (map struct_of structs.now) (type_of of.now) }
{
    match of {
        CType::Pointer(to) => is_complete(to, structs),
        _ => true,
    }
}

fn moves(operator: Punct) -> bool
    ensures { result ≡ moves operator }
{
    matches!(
        operator,
        Punct::Plus | Punct::Minus | Punct::PlusAssign | Punct::MinusAssign
    )
}

/// Whether each pointer that is moved points to a complete type.
pub fn are_moved_whole(structs: &[StructType], operator: Punct, a: &CType, b: &CType) -> bool
    ensures { result ≡
        are_moved_whole (map struct_of structs.now) operator (type_of a.now) (type_of b.now) }
{
    !moves(operator) || can_move(structs, a) && can_move(structs, b)
}

fn pointers_type(
    alloc: Global,
    left_null: bool,
    right_null: bool,
    t: &CType,
    u: &CType,
) -> Result<CType, AllocError>
    ensures { IfOk result (λ x. type_of x ≡
        pointers_type left_null right_null (type_of t.now) (type_of u.now)) }
{
    match (left_null, right_null) {
        (true, false) => CType::pointer(alloc, u.copy(alloc)?),
        (false, true) => CType::pointer(alloc, t.copy(alloc)?),
        _ => {
            if is_void(t) || is_void(u) {
                CType::pointer(alloc, CType::Void)
            } else {
                CType::pointer(alloc, t.copy(alloc)?)
            }
        }
    }
}

/// The type of `?:`, by its two operands, and whether each is a null pointer constant.
pub fn choice_type(
    alloc: Global,
    left_null: bool,
    right_null: bool,
    a: &CType,
    b: &CType,
) -> Result<Option<CType>, AllocError>
    ensures { IfOk result (λ x. option_map type_of x ≡
        choice_type left_null right_null (type_of a.now) (type_of b.now)) }
{
    match (a, b) {
        (CType::Int(a), CType::Int(b)) => Ok(Some(CType::Int(common(*a, *b)))),
        (CType::Pointer(_), CType::Int(_)) => Ok(Some(a.copy(alloc)?)),
        (CType::Int(_), CType::Pointer(_)) => Ok(Some(b.copy(alloc)?)),
        (CType::Pointer(t), CType::Pointer(u)) => {
            Ok(Some(pointers_type(alloc, left_null, right_null, t, u)?))
        }
        (CType::Struct(a), CType::Struct(b)) => {
            if a == b {
                Ok(Some(CType::Struct(*a)))
            } else {
                Ok(None)
            }
        }
        (CType::Void, CType::Void) => Ok(Some(CType::Void)),
        _ => Ok(None),
    }
}

/// The type of an element, by the two operands of `[ ]`.
pub fn element_type(alloc: Global, a: &CType, b: &CType) -> Result<Option<CType>, AllocError>
    ensures { IfOk result (λ x. option_map type_of x ≡
        element_type (type_of a.now) (type_of b.now)) }
{
    match (a, b) {
        (CType::Pointer(t), CType::Int(_)) | (CType::Int(_), CType::Pointer(t)) => {
            Ok(Some(t.copy(alloc)?))
        }
        _ => Ok(None),
    }
}

/// The type that the right side of an assignment with an operator is converted to.
pub fn compound_type(operator: Punct, a: &CType, b: &CType) -> Option<CType>
    ensures { option_map type_of result ≡ compound_type operator (type_of a.now) (type_of b.now) }
{
    match (operator, a, b) {
        (Punct::ShiftLeftAssign | Punct::ShiftRightAssign, CType::Int(_), CType::Int(b)) => {
            Some(CType::Int(promote(*b)))
        }
        (Punct::PlusAssign | Punct::MinusAssign, CType::Pointer(t), CType::Int(b)) => {
            if is_object(t) {
                Some(CType::Int(*b))
            } else {
                None
            }
        }
        (_, CType::Int(a), CType::Int(b)) => Some(CType::Int(common(*a, *b))),
        _ => None,
    }
}
