//! Which values are known before the program runs (C90 6.4).
ghost use Rattle.std.specs.Prelude.{◌≡◌, map, slice_get};
ghost use Rattle.sp_types.specs.Programs.{object_of};
ghost use Rattle.sp_types.specs.TypedView.{typed_of, typed_form_of};
ghost use Rattle.sp_check_initialisers.specs.StaticValues.{
  is_static_storage,
  is_static_object,
  is_static,
  is_address,
  is_place,
  designates_static,
};

use sp_check_constants::constant;
use sp_tree::Punct;
use sp_types::{CType, ObjectDef, Storage, TypedExpr, TypedForm};

/// Whether an object that is stored so lives as long as the program does (C90 6.1.2.4).
pub fn is_static_storage(storage: Storage) -> bool
    ensures { result ≡ is_static_storage storage }
{
    match storage {
        Storage::Static | Storage::Outside | Storage::Text => true,
        Storage::Auto | Storage::Formal => false,
    }
}

fn is_static_object(objects: &[ObjectDef], number: u32) -> bool
    ensures { result ≡ is_static_object (slice_get (map object_of objects.now) number) }
{
    match objects.get(number as usize) {
        Some(object) => is_static_storage(object.storage),
        None => false,
    }
}

/// Whether a value is an integer constant, or an address constant, also moved by an integer
/// constant.
#[cycle(static_value)]
pub(crate) fn is_static(e: &TypedExpr, objects: &[ObjectDef]) -> bool
    ensures { result ≡ is_static (map object_of objects.now) (typed_of e.now) }
{
    match &e.of {
        CType::Int(_) => constant(e).is_some(),
        CType::Pointer(_) => is_address(&e.form, objects),
        CType::Void | CType::Float(_) | CType::Array(_) | CType::Struct(_) | CType::Function(_) =>
            false,
    }
}

/// Whether a value of pointer type is one.
#[cycle(static_value)]
fn is_address(form: &TypedForm, objects: &[ObjectDef]) -> bool
    ensures { result ≡ is_address (map object_of objects.now) (typed_form_of form.now) }
{
    match form {
        TypedForm::Decay(e) => is_place(e, objects),
        TypedForm::Unary(Punct::Ampersand, e) => is_place(e, objects),
        TypedForm::Convert(e) | TypedForm::Cast(e) => is_static(e, objects),
        TypedForm::Binary(Punct::Plus | Punct::Minus, a, b) => {
            is_static(a, objects) && is_static(b, objects)
        }
        _ => false,
    }
}

/// Whether a function or an object of static storage duration is named without reading an object.
#[cycle(static_value)]
fn is_place(e: &TypedExpr, objects: &[ObjectDef]) -> bool
    ensures { result ≡ is_place (map object_of objects.now) (typed_of e.now) }
{
    designates_static(&e.form, objects)
}

#[cycle(static_value)]
fn designates_static(form: &TypedForm, objects: &[ObjectDef]) -> bool
    ensures { result ≡ designates_static (map object_of objects.now) (typed_form_of form.now) }
{
    match form {
        TypedForm::Object(number) => is_static_object(objects, *number),
        TypedForm::Function(_) => true,
        TypedForm::Member(e, _) => is_place(e, objects),
        TypedForm::Arrow(e, _) | TypedForm::Unary(Punct::Star, e) => is_static(e, objects),
        TypedForm::Index(a, b) => is_static(a, objects) && is_static(b, objects),
        _ => false,
    }
}
