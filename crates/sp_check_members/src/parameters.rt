//! Names of declarators, and parameters (C90 6.5.4.3, 6.7.1).
ghost use Rattle.std.specs.Prelude.{◌≡◌, IfOk, OnOk};
ghost use Rattle.sp_parse_trees.specs.View.{specifier_of, specifiers_of, declarator_of};
ghost use Rattle.sp_types.specs.Programs.{object_of};
ghost use Rattle.sp_types.specs.View.{type_of};
ghost use Rattle.sp_check_env.specs.Declaring.{LeadsTo};
ghost use Rattle.sp_check_env.specs.Views.{env_of};
ghost use Rattle.sp_check_members.specs.DeclaratorView.{declarator_form_of};
ghost use Rattle.sp_check_members.specs.Parameters.{
  declared_name,
  name_in,
  is_for_parameter,
  has_parameter_storage,
  is_absent,
  is_lone_void,
  adjusted,
  formal,
  reserved,
  reserved_number,
  named_parameter,
};

use sp_base_checked::CheckError;
use sp_check_env::Env;
use sp_check_operands::is_void;
use sp_check_scopes::Meaning;
use sp_parse_trees::{Declarator, DeclaratorForm, Specifier};
use sp_tree::{Keyword, Place};
use sp_types::{CType, Linkage, ObjectDef, Storage};
use std::alloc::{AllocError, Global};

/// The name that a declarator declares, with its place; `None` where it has none.
#[cycle(names)]
pub fn declared_name(declarator: &Declarator) -> Option<(u32, Place)>
    ensures { result ≡ declared_name (declarator_of declarator.now) }
{
    name_in(&declarator.form, declarator.place)
}

#[cycle(names)]
fn name_in(form: &DeclaratorForm, place: Place) -> Option<(u32, Place)>
    ensures { result ≡ name_in place (declarator_form_of form.now) }
{
    match form {
        DeclaratorForm::Absent => None,
        DeclaratorForm::Name(name) => Some((*name, place)),
        DeclaratorForm::Paren(inner) => declared_name(inner),
        DeclaratorForm::Pointer(_, inner) => declared_name(inner),
        DeclaratorForm::Array(inner, _) => declared_name(inner),
        DeclaratorForm::Function(inner, _, _) => declared_name(inner),
    }
}

fn is_for_parameter(specifier: &Specifier) -> bool
    ensures { result ≡ is_for_parameter (specifier_of specifier.now) }
{
    match specifier {
        Specifier::Storage(Keyword::Register) => true,
        Specifier::Storage(_) => false,
        Specifier::Qualifier(_)
        | Specifier::Basic(_)
        | Specifier::Named(_)
        | Specifier::Struct(_)
        | Specifier::Enum(_) => true,
    }
}

/// Whether specifiers have no storage class but `register`.
pub fn has_parameter_storage(specifiers: &[Specifier]) -> bool
    ensures { result ≡ has_parameter_storage (specifiers_of specifiers.now) }
{
    'specifiers: for (i, specifier) in specifiers.iter().enumerate() {
        if !is_for_parameter(specifier) {
            return false;
        }
    }
    true
}

fn is_absent(declarator: &Declarator) -> bool
    ensures { result ≡ is_absent (declarator_of declarator.now) }
{
    matches!(declarator.form, DeclaratorForm::Absent)
}

/// Whether a parameter that stands alone says that there is none: `(void)`.
pub fn is_lone_void(of: &CType, declarator: &Declarator) -> bool
    ensures { result ≡ is_lone_void (type_of of.now) (declarator_of declarator.now) }
{
    is_void(of) && is_absent(declarator)
}

/// The type of a parameter that is declared with this one.
pub fn adjusted(alloc: Global, of: CType) -> Result<CType, AllocError>
    ensures { IfOk result (λ t. type_of t ≡ adjusted (type_of of)) }
{
    match of {
        CType::Array(array) => Ok(CType::Pointer(array.element.clone()?)),
        CType::Function(_) => CType::pointer(alloc, of),
        _ => Ok(of),
    }
}

fn formal(alloc: Global, name: u32, of: CType, place: Place) -> ObjectDef
    ensures { object_of result ≡ formal name (type_of of) place }
{
    ObjectDef {
        name,
        of,
        storage: Storage::Formal,
        linkage: Linkage::Inner,
        start: Vec::new(alloc),
        place,
    }
}

/// Puts a named parameter in the table of objects before its type is read, and answers its number.
pub fn reserved(alloc: Global, env: &mut Env, name: Option<(u32, Place)>) -> Result<u32, AllocError>
    ensures number { IfOk result (λ k. k ≡ reserved_number (env_of env.old) name) }
    ensures ok { OnOk result (env_of env.new ≡ reserved (env_of env.old) name) }
{
    let Some((name, place)) = name else {
        return Ok(0);
    };
    env.add_object(formal(alloc, name, CType::Void, place))
}

/// Declares a named parameter with its type: it is the object of the number.
pub fn named_parameter(
    alloc: Global,
    env: &mut Env,
    number: u32,
    name: Option<(u32, Place)>,
    of: CType,
) -> Result<(), CheckError>
    ensures { LeadsTo (named_parameter (env_of env.old) number name (type_of of))
        (env_of env.new) result }
{
    let Some((name, place)) = name else {
        return Ok(());
    };
    env.set_object(number, formal(alloc, name, of, place));
    env.declare(name, Meaning::Object(number), place)
}
