//! The composite of two compatible types (C90 6.1.2.6).
#![tactic(auto, using(crate::proofs::Pairwise::zipped))]

ghost use Rattle.std.specs.Prelude.{◌≡◌, IfOk, map, option_map};
ghost use Rattle.std.specs.Option.{option_copied};
ghost use Rattle.sp_types.specs.View.{type_of, signature_of, types};
ghost use Rattle.sp_check_primaries.specs.Composite.{
  composite,
  composite_signature,
  composites,
  composite_with,
  told_length,
};

use sp_types::{CType, Signature};
use std::alloc::{AllocError, Global};

/// The composite type of two compatible ones: a length and a list of parameters that only one of
/// them tells is told. Of types that aren't compatible it is the first, where they differ.
#[cycle(composite)]
pub fn composite(alloc: Global, left: &CType, right: &CType) -> Result<CType, AllocError>
    ensures { IfOk result (λ t. type_of t ≡ composite (type_of left.now) (type_of right.now)) }
{
    match (left, right) {
        (CType::Pointer(a), CType::Pointer(b)) => CType::pointer(alloc, composite(alloc, a, b)?),
        (CType::Array(a), CType::Array(b)) => {
            let element = composite(alloc, &a.element, &b.element)?;
            CType::array(alloc, element, told_length(a.length, b.length))
        }
        (CType::Function(a), CType::Function(b)) => {
            CType::function(alloc, composite_signature(alloc, a, b)?)
        }
        _ => left.copy(alloc),
    }
}

fn told_length(left: Option<u64>, right: Option<u64>) -> Option<u64>
    ensures { result ≡ told_length left right }
{
    match left {
        None => right,
        Some(length) => Some(length),
    }
}

/// The same of the types of two functions.
#[cycle(composite)]
pub fn composite_signature(
    alloc: Global,
    left: &Signature,
    right: &Signature,
) -> Result<Signature, AllocError>
    ensures { IfOk result (λ s. signature_of s ≡
        composite_signature (signature_of left.now) (signature_of right.now)) }
{
    let result = composite(alloc, &left.result, &right.result)?;
    let variadic = left.variadic || right.variadic;
    match (&left.params, &right.params) {
        (None, None) => Ok(Signature {
            result,
            params: None,
            variadic,
        }),
        (Some(a), Some(b)) => {
            let params = Some(composites(alloc, a, b)?);
            Ok(Signature {
                result,
                params,
                variadic,
            })
        }
        (Some(told), None) | (None, Some(told)) => {
            let params = Some(copy_all(alloc, told)?);
            Ok(Signature {
                result,
                params,
                variadic,
            })
        }
    }
}

fn copy_all(alloc: Global, types: &[CType]) -> Result<Vec<CType>, AllocError>
    ensures { IfOk result (λ all. map type_of all.items ≡ map type_of types.now) }
{
    let mut all = Vec::new(alloc);
    'types: for (i, t) in types.iter().enumerate() {
        all.push(t.copy(alloc)?)?;
    }
    Ok(all)
}

/// The composites of the parameters of two functions, as many as the first has.
#[cycle(composite)]
fn composites(alloc: Global, left: &[CType], right: &[CType]) -> Result<Vec<CType>, AllocError>
    ensures { IfOk result (λ all. types (map type_of all.items) ≡
        composites (types (map type_of left.now)) (types (map type_of right.now))) }
{
    let mut all = Vec::new(alloc);
    'parameters: for (i, t) in left.iter().enumerate() {
        all.push(composite_with(alloc, t, right.get(i))?)?;
    }
    Ok(all)
}

#[cycle(composite)]
fn composite_with(alloc: Global, left: &CType, right: Option<&CType>) -> Result<CType, AllocError>
    ensures { IfOk result (λ t. type_of t ≡
        composite_with (type_of left.now) (option_map type_of (option_copied right.entry))) }
{
    match right {
        None => left.copy(alloc),
        Some(right) => composite(alloc, left, right),
    }
}
