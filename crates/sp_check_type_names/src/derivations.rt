//! What declarators derive from a type (C90 6.5.4).
ghost use Rattle.std.specs.Prelude.{◌≡◌, ◌+◌, suc, max, IfOk, map};
ghost use Rattle.sp_types.specs.View.{type_of, signature_of, types, struct_of};
ghost use Rattle.sp_base_checked.specs.Answers.{Answers};
ghost use Rattle.sp_check_type_names.specs.Derivations.{
  derive,
  derived,
  derivations_in,
  derivations_in_signature,
  derivations_in_types,
  parts_in,
  parts_in_signature,
  parts_in_types,
  made,
};
ghost use Rattle.sp_check_type_names.specs.DerivationView.{derivation_of};

use sp_base_checked::{CheckError, fault};
use sp_check_binary_rules::made_array;
use sp_check_operands::{is_array, is_function};
use sp_tree::{FaultKind, Place};
use sp_types::{CType, Signature, StructType};
use std::alloc::{AllocError, Global};

/// How many derivations may lie inside one another in a type: calls of all layers are as deep.
pub const MAX_DERIVATIONS: u32 = 200;

/// How many parts the type of a declarator may have. Types share what they are derived from, but
/// whoever walks through one takes as many steps as it has parts.
pub const MAX_PARTS: u32 = 1000;

/// One step of a declarator.
#[derive(Drop)]
pub enum Derivation {
    /// A pointer to the type.
    Pointer,
    /// An array of the type, with its length where one is given, and the place of its declarator.
    Array(Option<u64>, Place),
    /// A function that returns the type: its parameters where they are told, whether `...` ends
    /// them, and the place of its declarator.
    Function(Option<Vec<CType>>, bool, Place),
}

/// What one derivation makes of a type.
fn derive(
    alloc: Global,
    structs: &[StructType],
    derivation: Derivation,
    of: CType,
) -> Result<CType, CheckError>
    ensures { Answers type_of
        (derive (map struct_of structs.now) (derivation_of derivation) (type_of of)) result }
{
    match derivation {
        Derivation::Pointer => Ok(CType::pointer(alloc, of)?),
        Derivation::Array(length, place) => made_array(alloc, structs, of, length, place),
        Derivation::Function(params, variadic, place) => {
            if is_array(&of) || is_function(&of) {
                return fault(FaultKind::BadOperand, place);
            }
            let signature = Signature {
                result: of,
                params,
                variadic,
            };
            Ok(CType::function(alloc, signature)?)
        }
    }
}

/// The type that derivations make of a base. IncompleteType stands at an array of an incomplete type, BadLength at
/// one of more than 2^40 bytes, BadOperand at a function that returns an array or a function.
fn derived(
    alloc: Global,
    structs: &[StructType],
    mut derivations: Vec<Derivation>,
    base: CType,
) -> Result<CType, CheckError>
    ensures { Answers type_of (derived (map struct_of structs.now)
        (map derivation_of derivations.items) (type_of base)) result }
{
    let mut of = base;
    'derivations: while let Some(derivation) = derivations.pop() {
        of = derive(alloc, structs, derivation, of)?;
    }
    Ok(of)
}

/// How many derivations lie inside one another in types, and how many parts these have: a type is
/// one, and has those of each type that it is derived from.
#[derive(Clone, Copy)]
struct Measure {
    derivations: u32,
    parts: u32,
}

/// That of a type that is derived from types of this measure. It fails, as memory that is wanting,
/// past 2^32 - 1 alone: no text within the limits has as many.
fn one_more(inside: Measure) -> Result<Measure, AllocError>
    ensures { IfOk result (λ m. (m.derivations ≡ suc inside.derivations) ×
        (m.parts ≡ suc inside.parts)) }
{
    let derivations = inside.derivations.checked_add(1).ok_or(AllocError)?;
    let parts = inside.parts.checked_add(1).ok_or(AllocError)?;
    Ok(Measure { derivations, parts })
}

/// That of both beside one another. It fails as [`one_more`] does.
fn together(a: Measure, b: Measure) -> Result<Measure, AllocError>
    ensures { IfOk result (λ m. (m.derivations ≡ max a.derivations b.derivations) ×
        (m.parts ≡ a.parts + b.parts)) }
{
    let parts = a.parts.checked_add(b.parts).ok_or(AllocError)?;
    Ok(Measure {
        derivations: a.derivations.max(b.derivations),
        parts,
    })
}

#[cycle(measured)]
fn measured(of: &CType) -> Result<Measure, AllocError>
    ensures { IfOk result (λ m. (m.derivations ≡ derivations_in (type_of of.now)) ×
        (m.parts ≡ parts_in (type_of of.now))) }
{
    match of {
        CType::Pointer(to) => one_more(measured(to)?),
        CType::Array(array) => one_more(measured(&array.element)?),
        CType::Function(signature) => one_more(signature_measured(signature)?),
        CType::Void | CType::Int(_) | CType::Float(_) | CType::Struct(_) => Ok(Measure {
            derivations: 0,
            parts: 1,
        }),
    }
}

#[cycle(measured)]
fn signature_measured(of: &Signature) -> Result<Measure, AllocError>
    ensures { IfOk result (λ m.
        (m.derivations ≡ derivations_in_signature (signature_of of.now)) ×
        (m.parts ≡ parts_in_signature (signature_of of.now))) }
{
    match &of.params {
        None => measured(&of.result),
        Some(params) => {
            let params = all_measured(params)?;
            together(measured(&of.result)?, params)
        }
    }
}

#[cycle(measured)]
fn all_measured(all: &[CType]) -> Result<Measure, AllocError>
    ensures { IfOk result (λ m.
        (m.derivations ≡ derivations_in_types (types (map type_of all.now))) ×
        (m.parts ≡ parts_in_types (types (map type_of all.now)))) }
{
    let mut sum = Measure {
        derivations: 0,
        parts: 0,
    };
    let mut left = all.len();
    'types: while left > 0 {
        left -= 1;
        sum = together(measured(&all[left])?, sum)?;
    }
    Ok(sum)
}

/// The type that the derivations of a whole declarator make of a base, or what [`derived`] refuses.
/// Behind that, NestingTooDeep stands at the declarator where more than 200 derivations lie inside one another,
/// and TooManyParts where the type has more than 1,000 parts.
pub fn made(
    alloc: Global,
    structs: &[StructType],
    place: Place,
    derivations: Vec<Derivation>,
    base: CType,
) -> Result<CType, CheckError>
    ensures { Answers type_of (made (map struct_of structs.now) place
        (map derivation_of derivations.items) (type_of base)) result }
{
    let of = derived(alloc, structs, derivations, base)?;
    let measure = measured(&of)?;
    if measure.derivations > MAX_DERIVATIONS {
        return fault(FaultKind::NestingTooDeep, place);
    }
    if measure.parts > MAX_PARTS {
        return fault(FaultKind::TooManyParts, place);
    }
    Ok(of)
}
