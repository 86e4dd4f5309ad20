//! Calls, and what their arguments convert to (C90 6.3.2.2).
ghost use Rattle.std.specs.Prelude.{◌≡◌, IfOk, map, option_map, Some, None, length, slice_get};
ghost use Rattle.sp_types.specs.Types.{parameters_of};
ghost use Rattle.sp_types.specs.View.{type_of, struct_of, signature_of, shared_signature_of, types};
ghost use Rattle.sp_types.specs.TypedView.{boxed_of, typed_list, typed_of};
ghost use Rattle.sp_base_checked.specs.Answers.{Answers};
ghost use Rattle.sp_check_binary_rules.specs.Rules.{
  call_type,
  callee_type,
  called_signature,
  function_type,
  argument,
  called,
  count_fits,
  told,
  wanted,
  behind_by,
  either,
  argument_at,
};

use sp_base_checked::{CheckError, fault};
use sp_check_operands::{converted, is_complete, is_floating, is_void, promoted_type};
use sp_tree::{FaultKind, Place};
use sp_types::{CType, Signature, StructType, TypedExpr, convertible};
use std::alloc::{AllocError, Global};
use std::rc::Rc;

/// What a pointer to a function says of it (C90 6.3.2.2).
fn callee_type(of: &CType) -> Option<&Rc<Signature>>
    ensures { option_map (λ s. shared_signature_of s.now) result ≡ callee_type (type_of of.now) }
{
    match of {
        CType::Pointer(to) => pointed_signature(to),
        _ => None,
    }
}

fn pointed_signature(of: &CType) -> Option<&Rc<Signature>>
    ensures { option_map (λ s. shared_signature_of s.now) result ≡ function_type (type_of of.now) }
{
    match of {
        CType::Function(signature) => Some(signature),
        _ => None,
    }
}

/// What the callee's type says of the function (C90 6.3.2.2); `at` is its place.
pub fn called_signature(at: Place, of: &CType) -> Result<Rc<Signature>, CheckError>
    ensures { Answers shared_signature_of (called_signature at (type_of of.now)) result }
{
    let Some(signature) = callee_type(of) else {
        return fault(FaultKind::NotAFunction, at);
    };
    Ok(signature.clone()?)
}

/// An argument for a parameter of this type.
fn argument(
    alloc: Global,
    to: &CType,
    at: Place,
    e: Box<TypedExpr>,
) -> Result<Box<TypedExpr>, CheckError>
    ensures { Answers boxed_of (argument (type_of to.now) at (boxed_of e)) result }
{
    if is_floating(to) {
        return fault(FaultKind::FloatingType, at);
    }
    if !convertible(e.of(), to) {
        return fault(FaultKind::NotConvertible, at);
    }
    Ok(converted(alloc, to, e)?)
}

/// Whether a call may have so many arguments.
#[tactic(auto, using(crate::proofs::Counts::counted))]
fn count_fits(signature: &Signature, count: usize) -> bool
    ensures { result ≡ count_fits (signature_of signature.now) count }
{
    match signature.params() {
        None => true,
        Some(params) => {
            let wanted = params.len();
            count == wanted || signature.variadic() && wanted < count
        }
    }
}

/// The type of a call with so many arguments.
fn call_type(
    alloc: Global,
    structs: &[StructType],
    place: Place,
    signature: &Signature,
    count: usize,
) -> Result<CType, CheckError>
    ensures { Answers type_of
        (call_type (map struct_of structs.now) place (signature_of signature.now) count) result }
{
    if !count_fits(signature, count) {
        return fault(FaultKind::ArgumentCount, place);
    }
    let of = signature.result();
    if !is_void(of) && !is_complete(of, structs) {
        return fault(FaultKind::IncompleteType, place);
    }
    Ok(of.copy(alloc)?)
}

/// A call (C90 6.3.2.2), its arguments converted.
#[tactic(auto, using(crate::proofs::Counts::counted))]
pub fn called(
    alloc: Global,
    structs: &[StructType],
    place: Place,
    mark: Place,
    signature: &Signature,
    callee: Box<TypedExpr>,
    arguments: Vec<TypedExpr>,
) -> Result<Box<TypedExpr>, CheckError>
    ensures { Answers boxed_of (called (map struct_of structs.now) place mark (signature_of signature.now) (boxed_of callee) (typed_list (map typed_of arguments.items))) result }
{
    let of = call_type(alloc, structs, place, signature, arguments.len())?;
    Ok(TypedExpr::call(alloc, callee, arguments, of, place, mark)?)
}

/// The type that the argument of this number converts to.
#[tactic(auto, using(crate::proofs::Parameters::wanted_here, crate::proofs::Parameters::wanted_none))]
fn wanted(
    alloc: Global,
    signature: &Signature,
    number: usize,
    of: &CType,
) -> Result<CType, AllocError>
    ensures { IfOk result (λ t. type_of t ≡ wanted (behind_by number (told (parameters_of (signature_of signature.now)))) (type_of of.now)) }
{
    match signature.params() {
        None => promoted_type(alloc, of),
        Some(params) => wanted_of(alloc, params, number, of),
    }
}

/// The type of the parameter of this number, or the promoted one.
fn wanted_of(
    alloc: Global,
    params: &[CType],
    number: usize,
    of: &CType,
) -> Result<CType, AllocError>
    ensures { IfOk result (λ t. type_of t ≡
        either (slice_get (map type_of params.now) number) (type_of of.now)) }
{
    match params.get(number) {
        Some(to) => to.copy(alloc),
        None => promoted_type(alloc, of),
    }
}

/// The argument of this number, converted.
pub fn argument_at(
    alloc: Global,
    signature: &Signature,
    number: usize,
    at: Place,
    e: Box<TypedExpr>,
) -> Result<Box<TypedExpr>, CheckError>
    ensures { Answers boxed_of (argument_at (told (parameters_of (signature_of signature.now))) number at (boxed_of e)) result }
{
    let to = wanted(alloc, signature, number, e.of())?;
    argument(alloc, &to, at, e)
}
