//! Integer constant expressions (C90 6.4).
ghost use Rattle.std.specs.Prelude.{
  ◌≡◌,
  option_map,
  int_le,
  ◌&&◌,
  if◌then◌else◌,
  Some,
  None,
  ℤ,
  pos,
  ◌+ℤ◌,
  ◌-ℤ◌,
  ◌*ℤ◌,
  ◌<◌,
  ◌^◌,
};
ghost use Rattle.std.specs.Int.{int_wrap, int_shr, w128};
ghost use Rattle.std.specs.Int.RustNames.{FitsSigned};
ghost use Rattle.std.specs.Bool.{FalseIff};
ghost use Rattle.sp_types.specs.Typed.{of};
ghost use Rattle.sp_types.specs.View.{type_of};
ghost use Rattle.sp_types.specs.TypedView.{typed_of, typed_form_of};
ghost use Rattle.sp_check_constants.specs.Constants.{
  constant_of,
  constant_value,
  form_value,
  is_constant_form,
  is_constant_operand,
  is_constant_operator,
  is_null_constant,
  is_void_pointer,
  is_cast_zero,
  is_zero_constant,
  operated,
  negated,
  within,
  is_signed,
  is_zero,
  truth,
  joined,
  chosen,
  quotient,
  remainder,
  amount,
  shifted,
  width,
};

use sp_check_operands::is_void;
use sp_tree::Punct;
use sp_types::{CType, IntKind, TypedExpr, TypedForm};

/// The value of an integer constant expression.
pub fn constant(expr: &TypedExpr) -> Option<i128>
    ensures { result ≡ constant_of (typed_of expr.now) }
{
    if is_constant_form(expr) {
        constant_value(expr)
    } else {
        None
    }
}

#[cycle(form)]
fn is_constant_form(e: &TypedExpr) -> bool
    ensures { result ≡ is_constant_form (typed_of e.now) }
{
    match &e.of {
        CType::Int(_) => is_constant_operand(&e.form),
        _ => false,
    }
}

#[cycle(form)]
fn is_constant_operand(form: &TypedForm) -> bool
    ensures { result ≡ is_constant_operand (typed_form_of form.now) }
{
    match form {
        TypedForm::Number(_) | TypedForm::Char(_) | TypedForm::Constant(_) => true,
        TypedForm::Convert(e) | TypedForm::Cast(e) => is_constant_form(e),
        TypedForm::Unary(operator, e) => is_constant_operator(*operator) && is_constant_form(e),
        TypedForm::Binary(_, a, b) => is_constant_form(a) && is_constant_form(b),
        TypedForm::Choice(c, a, b) => {
            is_constant_form(c) && is_constant_form(a) && is_constant_form(b)
        }
        _ => false,
    }
}

fn is_constant_operator(operator: Punct) -> bool
    ensures { result ≡ is_constant_operator operator }
{
    matches!(
        operator,
        Punct::Plus | Punct::Minus | Punct::Tilde | Punct::Exclamation
    )
}

#[cycle(value)]
fn constant_value(e: &TypedExpr) -> Option<i128>
    ensures { result ≡ constant_value (typed_of e.now) }
{
    match &e.of {
        CType::Int(kind) => form_value(*kind, &e.form),
        _ => None,
    }
}

#[cycle(value)]
fn form_value(kind: IntKind, form: &TypedForm) -> Option<i128>
    ensures { result ≡ form_value kind (typed_form_of form.now) }
{
    match form {
        TypedForm::Number(n) => within(kind, n.value as i128),
        TypedForm::Char(z) => within(kind, *z as i128),
        TypedForm::Constant(value) => within(kind, value.get()),
        TypedForm::Convert(e) | TypedForm::Cast(e) => within(kind, constant_value(e)?),
        TypedForm::Unary(operator, e) => negated(kind, *operator, constant_value(e)?),
        TypedForm::Binary(operator, a, b) => {
            joined(kind, *operator, constant_value(a), constant_value(b))
        }
        TypedForm::Choice(c, a, b) => {
            chosen(constant_value(c), constant_value(a), constant_value(b))
        }
        TypedForm::Object(_)
        | TypedForm::Function(_)
        | TypedForm::Decay(_)
        | TypedForm::Index(_, _)
        | TypedForm::Call(_, _)
        | TypedForm::Member(_, _)
        | TypedForm::Arrow(_, _)
        | TypedForm::After(_, _)
        | TypedForm::Assign(_, _, _)
        | TypedForm::Comma(_, _) => None,
    }
}

fn within(kind: IntKind, z: i128) -> Option<i128>
    ensures { result ≡ within kind z }
{
    match kind {
        IntKind::Char | IntKind::SChar => signed(z, -128, 127),
        IntKind::Short => signed(z, -32768, 32767),
        IntKind::Int => signed(z, -2147483648, 2147483647),
        IntKind::Long => signed(z, -9223372036854775808, 9223372036854775807),
        IntKind::UChar => Some(z.rem_euclid(256)),
        IntKind::UShort => Some(z.rem_euclid(65536)),
        IntKind::UInt => Some(z.rem_euclid(4294967296)),
        IntKind::ULong => Some(z.rem_euclid(18446744073709551616)),
    }
}

fn signed(z: i128, least: i128, greatest: i128) -> Option<i128>
    ensures { result ≡ (if int_le least z && int_le z greatest then Some z else None) }
{
    if least <= z && z <= greatest {
        Some(z)
    } else {
        None
    }
}

/// Whether the type is signed.
fn is_signed(kind: IntKind) -> bool
    ensures { result ≡ is_signed kind }
{
    match kind {
        IntKind::UChar | IntKind::UShort | IntKind::UInt | IntKind::ULong => false,
        _ => true,
    }
}

/// A result that is told modulo 2^128, and whether that isn't the exact one.
fn kept(kind: IntKind, told: (i128, bool)) -> Option<i128>
    ensures { (z : ℤ) → told.0 ≡
        int_wrap w128 z → FalseIff told.1 (FitsSigned w128 z) → result ≡ within kind z }
{
    if told.1 && is_signed(kind) {
        return None;
    }
    within(kind, told.0)
}

fn product(kind: IntKind, x: i128, y: i128) -> Option<i128>
    ensures { result ≡ within kind (x *ℤ y) }
{
    kept(kind, x.overflowing_mul(y))
}

fn sum(kind: IntKind, x: i128, y: i128) -> Option<i128>
    ensures { result ≡ within kind (x +ℤ y) }
{
    kept(kind, x.overflowing_add(y))
}

fn difference(kind: IntKind, x: i128, y: i128) -> Option<i128>
    ensures { result ≡ within kind (x -ℤ y) }
{
    kept(kind, x.overflowing_sub(y))
}

fn quotient(kind: IntKind, x: i128, y: i128) -> Option<i128>
    ensures { result ≡ quotient kind x y }
{
    if y == 0 {
        return None;
    }
    if y == -1 {
        return kept(kind, x.overflowing_neg());
    }
    within(kind, x / y)
}

fn remainder(kind: IntKind, x: i128, y: i128) -> Option<i128>
    ensures { result ≡ remainder kind x y }
{
    if y == 0 {
        return None;
    }
    within(kind, x.overflowing_rem(y).0)
}

fn width(kind: IntKind) -> i128
    ensures { result ≡ pos (width kind) }
{
    match kind {
        IntKind::Char | IntKind::SChar | IntKind::UChar => 8,
        IntKind::Short | IntKind::UShort => 16,
        IntKind::Int | IntKind::UInt => 32,
        IntKind::Long | IntKind::ULong => 64,
    }
}

/// The amount of a shift, where it is below the width.
fn amount(kind: IntKind, y: i128) -> Option<u32>
    ensures { result ≡ amount kind y }
{
    if 0 <= y && y < width(kind) {
        Some(y as u32)
    } else {
        None
    }
}

fn moved_left(kind: IntKind, x: i128, by: u32) -> Option<i128>
    requires { by < 64 }
    ensures { result ≡ within kind (x *ℤ pos (2 ^ by)) }
{
    product(kind, x, 2i128.pow(by))
}

fn moved_right(kind: IntKind, x: i128, by: u32) -> Option<i128>
    requires { by < 64 }
    ensures { result ≡ within kind (int_shr x by) }
{
    within(kind, x >> by)
}

fn negated(kind: IntKind, operator: Punct, z: i128) -> Option<i128>
    ensures { result ≡ negated kind operator z }
{
    match operator {
        Punct::Plus => Some(z),
        Punct::Minus => kept(kind, z.overflowing_neg()),
        Punct::Tilde => within(kind, -1 - z),
        Punct::Exclamation => Some((z == 0) as i128),
        _ => None,
    }
}

fn shifted(kind: IntKind, left: bool, x: i128, y: i128) -> Option<i128>
    ensures { result ≡ shifted kind left x y }
{
    let by = amount(kind, y)?;
    if left {
        moved_left(kind, x, by)
    } else {
        moved_right(kind, x, by)
    }
}

fn operated(kind: IntKind, operator: Punct, x: i128, y: i128) -> Option<i128>
    ensures { result ≡ operated kind operator x y }
{
    match operator {
        Punct::Star => product(kind, x, y),
        Punct::Slash => quotient(kind, x, y),
        Punct::Percent => remainder(kind, x, y),
        Punct::Plus => sum(kind, x, y),
        Punct::Minus => difference(kind, x, y),
        Punct::ShiftLeft => shifted(kind, true, x, y),
        Punct::ShiftRight => shifted(kind, false, x, y),
        Punct::Less => Some((x < y) as i128),
        Punct::Greater => Some((x > y) as i128),
        Punct::LessEqual => Some((x <= y) as i128),
        Punct::GreaterEqual => Some((x >= y) as i128),
        Punct::EqualEqual => Some((x == y) as i128),
        Punct::NotEqual => Some((x != y) as i128),
        Punct::Ampersand => within(kind, x & y),
        Punct::Bar => within(kind, x | y),
        Punct::Caret => within(kind, x ^ y),
        _ => None,
    }
}

/// `x op y`; of `&&` and `||` the right one counts only where it is evaluated.
fn joined(kind: IntKind, operator: Punct, x: Option<i128>, y: Option<i128>) -> Option<i128>
    ensures { result ≡ joined kind operator x y }
{
    match operator {
        Punct::AndAnd => {
            if x? == 0 {
                return Some(0);
            }
            Some((y? != 0) as i128)
        }
        Punct::OrOr => {
            if x? != 0 {
                return Some(1);
            }
            Some((y? != 0) as i128)
        }
        _ => operated(kind, operator, x?, y?),
    }
}

/// `c ? x : y`.
fn chosen(c: Option<i128>, x: Option<i128>, y: Option<i128>) -> Option<i128>
    ensures { result ≡ chosen c x y }
{
    if c? == 0 { y } else { x }
}

fn is_zero_constant(z: Option<i128>) -> bool
    ensures { result ≡ is_zero_constant z }
{
    match z {
        Some(z) => z == 0,
        None => false,
    }
}

/// Whether it is an integer constant expression of value 0 cast to `void*`.
pub fn is_null_constant(e: &TypedExpr) -> bool
    ensures { result ≡ is_null_constant (typed_of e.now) }
{
    is_void_pointer(&e.of) && is_cast_zero(&e.form)
}

fn is_void_pointer(of: &CType) -> bool
    ensures { result ≡ is_void_pointer (type_of of.now) }
{
    match of {
        CType::Pointer(to) => is_void(to),
        _ => false,
    }
}

fn is_cast_zero(form: &TypedForm) -> bool
    ensures { result ≡ is_cast_zero (typed_form_of form.now) }
{
    match form {
        TypedForm::Cast(e) => is_zero_constant(constant(e)),
        _ => false,
    }
}
