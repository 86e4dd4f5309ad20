//! String literals that initialise arrays of characters (C90 6.5.7).
ghost use Rattle.std.specs.Prelude.{◌≡◌, ◌++◌, IfOk, map, option_map};
ghost use Rattle.std.specs.Option.{option_copied};
ghost use Rattle.sp_parse_trees.specs.Syntax.{one};
ghost use Rattle.sp_parse_trees.specs.View.{tree_of, inits};
ghost use Rattle.sp_types.specs.View.{type_of};
ghost use Rattle.sp_base_checked.specs.Answers.{Answers};
ghost use Rattle.sp_check_primaries.specs.Names.{bytes_of};
ghost use Rattle.sp_check_primaries.specs.Literals.{text_bytes, character_value, characters, leaf_seen};
ghost use Rattle.sp_expr_check.specs.SyntaxView.{form_of};
ghost use Rattle.sp_check_initialisers.specs.InitView.{init_of};
ghost use Rattle.sp_check_initialisers.specs.Strings.{
  is_character_kind,
  is_character,
  is_character_array,
  literal_in,
  literal_of,
  string_for,
  pieces_of,
  fits,
  ended,
  has_room,
  string_values,
  string_added,
  one_value,
  only_value,
  literal_among,
  integers_in,
  integer_elements,
};

use sp_base_checked::{CheckError, fault};
use sp_parse_trees::{Expr, ExprForm, Init};
use sp_tree::{FaultKind, Names, Place};
use sp_types::{CType, IntKind, TypedExpr, TypedForm, WideInt};
use std::alloc::{AllocError, Global};

fn is_character_kind(kind: IntKind) -> bool
    ensures { result ≡ is_character_kind kind }
{
    matches!(kind, IntKind::Char | IntKind::SChar | IntKind::UChar)
}

fn is_character(of: &CType) -> bool
    ensures { result ≡ is_character (type_of of.now) }
{
    match of {
        CType::Int(kind) => is_character_kind(*kind),
        _ => false,
    }
}

fn is_character_array(of: &CType) -> bool
    ensures { result ≡ is_character_array (type_of of.now) }
{
    match of {
        CType::Array(array) => is_character(&array.element),
        _ => false,
    }
}

fn literal_in(e: &Expr) -> Option<&Expr>
    ensures { option_map tree_of (option_copied result) ≡ literal_in (tree_of e.now) }
{
    match &e.form {
        ExprForm::Text(_) => Some(e),
        _ => None,
    }
}

fn one_value(init: &Init) -> Option<&Expr>
    ensures { option_map tree_of (option_copied result) ≡ one_value (init_of init.now) }
{
    match init {
        Init::One(e) => Some(e),
        Init::List(_, _) => None,
    }
}

/// The value of a list that has one and no more.
#[tactic(auto, using(crate::proofs::Order::order))]
pub(crate) fn only_value(all: &[Init]) -> Option<&Expr>
    ensures { option_map tree_of (option_copied result) ≡ only_value (inits (map init_of all.now)) }
{
    if all.len() == 1 {
        one_value(&all[0])
    } else {
        None
    }
}

fn literal_among(e: Option<&Expr>) -> Option<&Expr>
    ensures { option_map tree_of (option_copied result) ≡
        literal_among (option_map tree_of (option_copied e.entry)) }
{
    match e {
        Some(e) => literal_in(e),
        None => None,
    }
}

/// The literal that an initialiser is, alone or alone between braces.
fn literal_of(init: &Init) -> Option<&Expr>
    ensures { option_map tree_of (option_copied result) ≡ literal_of (init_of init.now) }
{
    match init {
        Init::One(e) => literal_in(e),
        Init::List(all, _) => literal_among(only_value(all)),
    }
}

/// The literal that an initialiser is for a type, where that is an array of characters.
pub(crate) fn string_for<'a>(of: &CType, init: &'a Init) -> Option<&'a Expr>
    ensures { option_map tree_of (option_copied result) ≡
        string_for (type_of of.now) (init_of init.now) }
{
    if is_character_array(of) {
        literal_of(init)
    } else {
        None
    }
}

/// The same of an expression without braces.
pub(crate) fn string_of<'a>(of: &CType, e: &'a Expr) -> Option<&'a Expr>
    ensures { option_map tree_of (option_copied result) ≡
        string_for (type_of of.now) (one (tree_of e.now)) }
{
    if is_character_array(of) {
        literal_in(e)
    } else {
        None
    }
}

/// The bytes of a name.
fn bytes_of(names: &Names, name: u32) -> &[u8]
    ensures { result.now ≡ bytes_of names.now name }
{
    match names.get(name) {
        Some(bytes) => bytes,
        None => &[],
    }
}

/// The bytes of adjacent literals.
fn text_bytes(alloc: Global, names: &Names, parts: &[u32]) -> Result<Vec<u8>, AllocError>
    ensures { IfOk result (λ v. v.items ≡ text_bytes names.now parts.now) }
{
    let mut bytes = Vec::new(alloc);
    'parts: for (i, part) in parts.iter().enumerate() {
        bytes.extend_from_slice(bytes_of(names, *part))?;
    }
    Ok(bytes)
}

fn text_of(alloc: Global, names: &Names, e: &Expr) -> Result<Vec<u8>, AllocError>
    ensures { IfOk result (λ v. v.items ≡ text_bytes names.now (pieces_of (tree_of e.now))) }
{
    match &e.form {
        ExprForm::Text(parts) => text_bytes(alloc, names, parts),
        _ => Ok(Vec::new(alloc)),
    }
}

fn fits(room: Option<u64>, length: u64) -> bool
    ensures { result ≡ fits room length }
{
    match room {
        None => true,
        Some(room) => length <= room,
    }
}

fn has_room(room: Option<u64>, length: u64) -> bool
    ensures { result ≡ has_room room length }
{
    match room {
        None => true,
        Some(room) => length < room,
    }
}

/// The bytes with the zero that ends them, where there is room for it.
fn ended(room: Option<u64>, mut bytes: Vec<u8>) -> Result<Vec<u8>, AllocError>
    ensures { IfOk result (λ v. v.items ≡ ended room bytes.items) }
{
    if has_room(room, bytes.len() as u64) {
        bytes.push(0)?;
    }
    Ok(bytes)
}

/// The value of a character in an array of this kind: `char` holds what `signed char` holds.
fn character_value(kind: IntKind, byte: u8) -> i128
    ensures { result ≡ character_value kind byte }
{
    let value = byte as i128;
    match kind {
        IntKind::UChar => value,
        _ => if byte <= 127 { value } else { value - 256 },
    }
}

/// The values of these characters behind the others, from this leaf on. Past the leaf 2^64 - 1 they
/// want memory.
fn characters_added(
    mut all: Vec<(u64, TypedExpr)>,
    kind: IntKind,
    place: Place,
    from: u64,
    bytes: &[u8],
) -> Result<Vec<(u64, TypedExpr)>, AllocError>
    ensures { IfOk result (λ v. map leaf_seen v.items ≡
        map leaf_seen all.items ++ characters kind place from bytes.now) }
{
    let mut number = from;
    'bytes: for (i, byte) in bytes.iter().enumerate() {
        let form = TypedForm::Constant(WideInt::new(character_value(kind, *byte)));
        all.push((
            number,
            TypedExpr::leaf(form, CType::Int(kind), place, place),
        ))?;
        let Some(next) = number.checked_add(1) else {
            return Err(AllocError);
        };
        number = next;
    }
    Ok(all)
}

/// The type of the elements of an array of integers, and its length where that is told.
fn integers_in(of: &CType) -> Option<(IntKind, Option<u64>)>
    ensures { result ≡ integers_in (type_of of.now) }
{
    match of {
        CType::Array(array) => integer_elements(&array.element, array.length),
        _ => None,
    }
}

fn integer_elements(element: &CType, length: Option<u64>) -> Option<(IntKind, Option<u64>)>
    ensures { result ≡ integer_elements (type_of element.now) length }
{
    match element {
        CType::Int(kind) => Some((*kind, length)),
        _ => None,
    }
}

/// The values that a literal gives an array from this leaf on, behind the others: BadInitialiser stands at the
/// name where it doesn't fit.
#[tactic(auto, using(crate::proofs::Places::places))]
pub(crate) fn string_added(
    alloc: Global,
    names: &Names,
    all: Vec<(u64, TypedExpr)>,
    of: &CType,
    from: u64,
    name: Place,
    e: &Expr,
) -> Result<Vec<(u64, TypedExpr)>, CheckError>
    ensures { Answers (λ v. map leaf_seen v.items)
        (string_added names.now (map leaf_seen all.items) (type_of of.now) from name
        (tree_of e.now)) result }
{
    let bytes = text_of(alloc, names, e)?;
    let Some((kind, room)) = integers_in(of) else {
        return fault(FaultKind::BadInitialiser, name);
    };
    if !fits(room, bytes.len() as u64) {
        return fault(FaultKind::BadInitialiser, name);
    }
    let bytes = ended(room, bytes)?;
    Ok(characters_added(all, kind, e.place, from, &bytes)?)
}
