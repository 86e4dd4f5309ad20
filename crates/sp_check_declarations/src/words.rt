//! What words and declarators say before any type is read (C90 6.5, 6.5.1, 6.5.4).
ghost use Rattle.std.specs.Prelude.{◌≡◌, map};
ghost use Rattle.sp_parse_trees.specs.View.{
  specifier_of,
  specifiers_of,
  declarator_of,
  init_declarators,
};
ghost use Rattle.sp_types.specs.View.{type_of};
ghost use Rattle.sp_expr_check.specs.SyntaxView.{
  declarator_form_of,
  struct_spec_of,
  enum_spec_of,
  init_declarator_of,
};
ghost use Rattle.sp_check_declarations.specs.ItemView.{start_of};
ghost use Rattle.sp_check_declarations.specs.Words.{
  class_in,
  storage_class,
  is_typedef,
  is_automatic,
  declares_struct,
  declares_enum,
  declares_here,
  declares_tag,
  has_none,
  is_given,
  names_function,
  form_names_function,
};
ghost use Rattle.sp_check_declarations.specs.Declarations.{is_floating_array, names_object};

use sp_check_operands::is_function;
use sp_parse_trees::{
    Declarator, DeclaratorForm, EnumSpec, Init, InitDeclarator, Specifier, StructSpec,
};
use sp_tree::Keyword;
use sp_types::CType;

fn class_in(specifier: &Specifier) -> Option<Keyword>
    ensures { result ≡ class_in (specifier_of specifier.now) }
{
    match specifier {
        Specifier::Storage(word) => Some(*word),
        Specifier::Qualifier(_)
        | Specifier::Basic(_)
        | Specifier::Named(_)
        | Specifier::Struct(_)
        | Specifier::Enum(_) => None,
    }
}

/// The storage class that specifiers have, of which there is one at most (C90 6.5.1).
pub fn storage_class(specifiers: &[Specifier]) -> Option<Keyword>
    ensures { result ≡ storage_class (specifiers_of specifiers.now) }
{
    'specifiers: for (i, specifier) in specifiers.iter().enumerate() {
        let found = class_in(specifier);
        if found.is_some() {
            return found;
        }
    }
    None
}

/// Whether a declaration is that of a type.
pub(crate) fn is_typedef(class: Option<Keyword>) -> bool
    ensures { result ≡ is_typedef class }
{
    matches!(class, Some(Keyword::Typedef))
}

/// Whether the class is one of automatic objects, which don't stand at file scope (C90 6.7).
pub(crate) fn is_automatic(class: Option<Keyword>) -> bool
    ensures { result ≡ is_automatic class }
{
    matches!(class, Some(Keyword::Auto | Keyword::Register))
}

fn declares_struct(spec: &StructSpec) -> bool
    ensures { result ≡ declares_struct (struct_spec_of spec.now) }
{
    spec.tag.is_some()
}

fn declares_enum(spec: &EnumSpec) -> bool
    ensures { result ≡ declares_enum (enum_spec_of spec.now) }
{
    spec.constants.is_some()
}

fn declares_here(specifier: &Specifier) -> bool
    ensures { result ≡ declares_here (specifier_of specifier.now) }
{
    match specifier {
        Specifier::Struct(spec) => declares_struct(spec),
        Specifier::Enum(spec) => declares_enum(spec),
        Specifier::Storage(_)
        | Specifier::Qualifier(_)
        | Specifier::Basic(_)
        | Specifier::Named(_) => false,
    }
}

/// Whether specifiers declare a tag or enumeration constants.
pub(crate) fn declares_tag(specifiers: &[Specifier]) -> bool
    ensures { result ≡ declares_tag (specifiers_of specifiers.now) }
{
    'specifiers: for (i, specifier) in specifiers.iter().enumerate() {
        if declares_here(specifier) {
            return true;
        }
    }
    false
}

/// Whether a declaration has no declarator.
#[tactic(auto, using(crate::proofs::Items::items))]
pub(crate) fn has_none(items: &[InitDeclarator]) -> bool
    ensures { result ≡ has_none (init_declarators (map init_declarator_of items.now)) }
{
    items.is_empty()
}

/// Whether a declarator has an initialiser.
pub(crate) fn is_given(start: &Option<Init>) -> bool
    ensures { result ≡ is_given (start_of start.now) }
{
    match start {
        None => false,
        Some(_) => true,
    }
}

/// Whether the name of a declarator has a function type; `whole` says whether the type is one that
/// it is applied to (C90 6.5.4).
#[cycle(derived)]
fn names_function(whole: bool, declarator: &Declarator) -> bool
    ensures { result ≡ names_function whole (declarator_of declarator.now) }
{
    form_names_function(whole, &declarator.form)
}

#[cycle(derived)]
fn form_names_function(whole: bool, form: &DeclaratorForm) -> bool
    ensures { result ≡ form_names_function whole (declarator_form_of form.now) }
{
    match form {
        DeclaratorForm::Absent | DeclaratorForm::Name(_) => whole,
        DeclaratorForm::Paren(inner) => names_function(whole, inner),
        DeclaratorForm::Pointer(_, inner) => names_function(false, inner),
        DeclaratorForm::Array(inner, _) => names_function(false, inner),
        DeclaratorForm::Function(inner, _, _) => names_function(true, inner),
    }
}

/// Whether a declarator names an object: neither a type nor a function.
pub(crate) fn names_object(class: Option<Keyword>, base: &CType, declarator: &Declarator) -> bool
    ensures { result ≡ names_object class (type_of base.now) (declarator_of declarator.now) }
{
    !is_typedef(class) && !names_function(is_function(base), declarator)
}

/// Whether a type is a floating one, or an array of such.
pub fn is_floating_array(of: &CType) -> bool
    ensures { result ≡ is_floating_array (type_of of.now) }
{
    match of {
        CType::Array(array) => is_floating_array(&array.element),
        CType::Float(_) => true,
        CType::Void | CType::Int(_) | CType::Pointer(_) | CType::Struct(_) | CType::Function(_) =>
            false,
    }
}
