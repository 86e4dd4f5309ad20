//! Renamings, and types under them.
ghost use Rattle.std.specs.Prelude.{◌≡◌, true, IfOk, map};
ghost use Rattle.sp_types.specs.View.{type_of, signature_of, shared_signature_of, types};
ghost use Rattle.sp_link_renaming.specs.Renaming.{
  number_in,
  renamed_type,
  renamed_types,
  renamed_signature,
};

use sp_types::{CType, Signature};
use std::alloc::{AllocError, Global};
use std::rc::Rc;

/// The number in the program of each struct, object and function of a unit, and the type that each
/// object of the unit has there.
#[derive(Drop)]
pub struct Renaming {
    pub structs: Vec<u32>,
    pub objects: Vec<u32>,
    pub functions: Vec<u32>,
    pub types: Vec<CType>,
}

/// The new number of an old one; 0 where there is none.
pub(crate) fn number_in(numbers: &[u32], old: u32) -> u32
    ensures { result ≡ number_in numbers.now old }
{
    match numbers.get(old as usize) {
        Some(number) => *number,
        None => 0,
    }
}

/// Whether each struct in a type keeps its number: then the type stays as it is.
#[cycle(keeps)]
fn keeps(of: &CType, structs: &[u32]) -> bool
    ensures { result ≡ true → renamed_type structs.now (type_of of.now) ≡ type_of of.now }
{
    match of {
        CType::Pointer(to) => keeps(to, structs),
        CType::Array(array) => keeps(&array.element, structs),
        CType::Struct(number) => number_in(structs, *number) == *number,
        CType::Function(of) => keeps_signature(of, structs),
        CType::Void | CType::Int(_) | CType::Float(_) => true,
    }
}

#[cycle(keeps)]
fn keeps_signature(of: &Signature, structs: &[u32]) -> bool
    ensures { result ≡ true →
        renamed_signature structs.now (signature_of of.now) ≡ signature_of of.now }
{
    if !keeps(&of.result, structs) {
        return false;
    }
    match &of.params {
        None => true,
        Some(params) => keeps_all(params, structs),
    }
}

#[cycle(keeps)]
fn keeps_all(these: &[CType], structs: &[u32]) -> bool
    ensures { result ≡ true → renamed_types structs.now (types (map type_of these.now)) ≡
        types (map type_of these.now) }
{
    let mut left = these.len();
    'these: while left > 0 {
        left -= 1;
        if !keeps(&these[left], structs) {
            return false;
        }
    }
    true
}

/// A type, with its structs renamed, made anew.
#[cycle(types)]
fn type_anew(alloc: Global, of: &CType, structs: &[u32]) -> Result<CType, AllocError>
    ensures { IfOk result (λ t. type_of t ≡ renamed_type structs.now (type_of of.now)) }
{
    match of {
        CType::Void => Ok(CType::Void),
        CType::Int(kind) => Ok(CType::Int(*kind)),
        CType::Float(kind) => Ok(CType::Float(*kind)),
        CType::Pointer(to) => CType::pointer(alloc, type_anew(alloc, to, structs)?),
        CType::Array(array) => {
            CType::array(
                alloc,
                type_anew(alloc, &array.element, structs)?,
                array.length,
            )
        }
        CType::Struct(number) => Ok(CType::Struct(number_in(structs, *number))),
        CType::Function(of) => CType::function(alloc, signature_anew(alloc, of, structs)?),
    }
}

#[cycle(types)]
fn signature_anew(alloc: Global, of: &Signature, structs: &[u32]) -> Result<Signature, AllocError>
    ensures { IfOk result (λ s. signature_of s ≡
        renamed_signature structs.now (signature_of of.now)) }
{
    let result = type_anew(alloc, &of.result, structs)?;
    match &of.params {
        None => Ok(Signature {
            result,
            params: None,
            variadic: of.variadic,
        }),
        Some(params) => Ok(Signature {
            result,
            params: Some(all_anew(alloc, params, structs)?),
            variadic: of.variadic,
        }),
    }
}

#[cycle(types)]
fn all_anew(alloc: Global, these: &[CType], structs: &[u32]) -> Result<Vec<CType>, AllocError>
    ensures { IfOk result (λ all. types (map type_of all.items) ≡
        renamed_types structs.now (types (map type_of these.now))) }
{
    let mut all = Vec::with_capacity(alloc, these.len())?;
    'these: for (i, t) in these.iter().enumerate() {
        all.push(type_anew(alloc, t, structs)?)?;
    }
    Ok(all)
}

/// A type, with its structs renamed. It is shared where each struct keeps its number.
pub fn renamed_type(alloc: Global, of: &CType, structs: &[u32]) -> Result<CType, AllocError>
    ensures { IfOk result (λ t. type_of t ≡ renamed_type structs.now (type_of of.now)) }
{
    if keeps(of, structs) {
        return of.copy(alloc);
    }
    type_anew(alloc, of, structs)
}

/// The type of a function, with its structs renamed. It is shared where each struct keeps its number.
pub fn renamed_signature(
    alloc: Global,
    of: &Rc<Signature>,
    structs: &[u32],
) -> Result<Rc<Signature>, AllocError>
    ensures { IfOk result (λ s. shared_signature_of s ≡
        renamed_signature structs.now (shared_signature_of of.now)) }
{
    if keeps_signature(of, structs) {
        return of.clone();
    }
    Ok(Rc::new(alloc, signature_anew(alloc, of, structs)?)?)
}
