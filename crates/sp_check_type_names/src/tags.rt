//! Structs, unions, enumerations and names of types in specifiers (C90 6.5.2.1 to 6.5.2.3, 6.5.6).
ghost use Rattle.std.specs.Prelude.{◌≡◌, IfOk, OnOk, map, option_map, slice_get};
ghost use Rattle.std.specs.Option.{option_copied};
ghost use Rattle.sp_types.specs.View.{type_of, struct_of};
ghost use Rattle.sp_base_checked.specs.Answers.{Answers, AnswersIn};
ghost use Rattle.sp_check_scopes.specs.Meanings.{meaning_of};
ghost use Rattle.sp_check_env.specs.Views.{env_of};
ghost use Rattle.sp_check_type_names.specs.Tags.{
  type_named,
  named_checked,
  tag_found,
  open_struct,
  is_union,
  same_flag,
  struct_at,
  struct_referred,
  enum_at,
  enum_referred,
};

use sp_base_checked::{CheckError, fault};
use sp_check_env::Env;
use sp_check_scopes::{Meaning, Tag};
use sp_tree::{FaultKind, Place};
use sp_types::{CType, IntKind, StructType};
use std::alloc::{AllocError, Global};

fn type_named(meaning: Option<&Meaning>) -> Option<&CType>
    ensures { option_map type_of (option_copied result) ≡
        type_named (option_map meaning_of (option_copied meaning.entry)) }
{
    match meaning {
        Some(Meaning::Named(of)) => Some(of),
        _ => None,
    }
}

/// The type that a name stands for; UndeclaredName where it stands for none. `at` is the place of what the name
/// stands in, since a specifier has no place of its own.
pub fn named_checked(alloc: Global, env: &Env, name: u32, at: Place) -> Result<CType, CheckError>
    ensures { Answers type_of (named_checked (env_of env.now) name at) result }
{
    let Some(of) = type_named(env.find(name)) else {
        return fault(FaultKind::UndeclaredName, at);
    };
    Ok(of.copy(alloc)?)
}

/// What a tag stands for: in the innermost scope alone, or here (C90 6.5.2.3).
pub fn tag_found(env: &Env, inner: bool, tag: Option<u32>) -> Option<Tag>
    ensures { result ≡ tag_found (env_of env.now) inner tag }
{
    match tag {
        None => None,
        Some(name) => {
            if inner {
                env.tag_here(name)
            } else {
                env.find_tag(name)
            }
        }
    }
}

/// A struct or a union before its members are read.
fn open_struct(tag: Option<u32>, union: bool) -> StructType
    ensures { struct_of result ≡ open_struct tag union }
{
    StructType {
        tag,
        union,
        members: None,
        extent: None,
        level: 0,
        leaves: 0,
        cells: 0,
    }
}

fn is_union(structs: &[StructType], number: u32) -> Option<bool>
    ensures { result ≡ is_union (slice_get (map struct_of structs.now) number) }
{
    match structs.get(number as usize) {
        Some(found) => Some(found.union),
        None => None,
    }
}

fn same_flag(left: bool, right: bool) -> bool
    ensures { result ≡ same_flag left right }
{
    left == right
}

/// The number of the struct or the union that a specifier speaks of: that which its tag stands for,
/// or a new one; OtherTagKind where the tag is of another kind.
pub fn struct_at(
    env: &mut Env,
    union: bool,
    tag: Option<u32>,
    place: Place,
    found: Option<Tag>,
) -> Result<u32, CheckError>
    ensures { AnswersIn (λ k. k) (struct_at (env_of env.old) union tag place found)
        (env_of env.new) result }
{
    match found {
        None => {
            let number = env.add_struct(open_struct(tag, union))?;
            if let Some(name) = tag {
                env.add_tag(name, Tag::Struct(number))?;
            }
            Ok(number)
        }
        Some(Tag::Struct(number)) => {
            let Some(was_union) = is_union(env.structs(), number) else {
                return fault(FaultKind::OtherTagKind, place);
            };
            if !same_flag(was_union, union) {
                return fault(FaultKind::OtherTagKind, place);
            }
            Ok(number)
        }
        Some(Tag::Enum) => fault(FaultKind::OtherTagKind, place),
    }
}

/// The type of a specifier of a struct or a union without braces; `alone` says that no declarator
/// follows, so that it declares a tag of the innermost scope.
pub fn struct_referred(
    env: &mut Env,
    alone: bool,
    union: bool,
    tag: Option<u32>,
    place: Place,
) -> Result<CType, CheckError>
    ensures { AnswersIn type_of (struct_referred (env_of env.old) alone union tag place)
        (env_of env.new) result }
{
    let found = tag_found(env, alone, tag);
    let number = struct_at(env, union, tag, place, found)?;
    Ok(CType::Struct(number))
}

fn enum_at(place: Place, found: Option<Tag>) -> Result<CType, CheckError>
    ensures { Answers type_of (enum_at place found) result }
{
    match found {
        Some(Tag::Enum) => Ok(CType::Int(IntKind::Int)),
        Some(Tag::Struct(_)) => fault(FaultKind::OtherTagKind, place),
        None => fault(FaultKind::BadOperand, place),
    }
}

/// The type of a specifier of an enumeration without braces: BadOperand where no enumeration of the tag is
/// declared, OtherTagKind where the tag is of another kind.
pub fn enum_referred(env: &Env, tag: Option<u32>, place: Place) -> Result<CType, CheckError>
    ensures { Answers type_of (enum_referred (env_of env.now) tag place) result }
{
    enum_at(place, tag_found(env, false, tag))
}
