//! Names in expressions (C90 6.3.1), and names that are called (6.3.2.2).
ghost use Rattle.std.specs.Prelude.{◌≡◌, option_map};
ghost use Rattle.std.specs.Option.{option_copied};
ghost use Rattle.sp_types.specs.TypedView.{boxed_of};
ghost use Rattle.sp_base_checked.specs.Answers.{Answers};
ghost use Rattle.sp_check_binary_rules.specs.Rules.{is_jump};
ghost use Rattle.sp_check_scopes.specs.Meanings.{meaning_of};
ghost use Rattle.sp_check_env.specs.Declaring.{LeadsTo};
ghost use Rattle.sp_check_env.specs.Views.{env_of};
ghost use Rattle.sp_check_primaries.specs.Names.{bytes_of, designated, name_checked, implicit_name};

use crate::{extern_linkage, function_declared};
use sp_base_checked::{CheckError, fault};
use sp_check_env::Env;
use sp_check_scopes::Meaning;
use sp_tree::{FaultKind, Names, Place};
use sp_types::{CType, IntKind, Signature, TypedExpr, TypedForm, WideInt};
use std::alloc::Global;
use std::rc::Rc;

/// The bytes of a name.
pub(crate) fn bytes_of(names: &Names, name: u32) -> &[u8]
    ensures { result.now ≡ bytes_of names.now name }
{
    match names.get(name) {
        Some(bytes) => bytes,
        None => &[],
    }
}

/// Whether the name is one of those that jump between functions.
#[tactic(auto, using(crate::proofs::Jumps::jumps))]
fn is_jump(names: &Names, name: u32) -> bool
    ensures { result ≡ is_jump (bytes_of names.now name) }
{
    let bytes = bytes_of(names, name);
    // The length alone tells most names apart.
    match bytes.len() {
        6 => bytes == "setjmp".as_bytes(),
        7 => bytes == "_setjmp".as_bytes() || bytes == "longjmp".as_bytes(),
        _ => false,
    }
}

fn designated(
    alloc: Global,
    env: &Env,
    place: Place,
    meaning: Option<&Meaning>,
) -> Result<Box<TypedExpr>, CheckError>
    ensures { Answers boxed_of (designated (env_of env.now) place
        (option_map meaning_of (option_copied meaning.entry))) result }
{
    match meaning {
        Some(Meaning::Object(number)) => {
            let Some(of) = env.object_type(*number) else {
                return fault(FaultKind::UndeclaredName, place);
            };
            let of = of.copy(alloc)?;
            Ok(TypedExpr::boxed(alloc, TypedForm::Object(*number), of, place, place)?)
        }
        Some(Meaning::Function(number)) => {
            let Some(of) = env.function_type(*number) else {
                return fault(FaultKind::UndeclaredName, place);
            };
            let of = CType::Function(of.clone()?);
            Ok(TypedExpr::boxed(alloc, TypedForm::Function(*number), of, place, place)?)
        }
        Some(Meaning::Constant(value)) => {
            let of = CType::Int(IntKind::Int);
            Ok(TypedExpr::boxed(
                alloc,
                TypedForm::Constant(WideInt::new(*value)),
                of,
                place,
                place,
            )?)
        }
        _ => fault(FaultKind::UndeclaredName, place),
    }
}

/// The expression that is a name: UndeclaredName where it is no object, function or constant here, and Setjmp for
/// the functions that jump between functions.
pub fn name_checked(
    alloc: Global,
    env: &Env,
    names: &Names,
    name: u32,
    place: Place,
) -> Result<Box<TypedExpr>, CheckError>
    ensures { Answers boxed_of (name_checked names.now (env_of env.now) name place) result }
{
    if is_jump(names, name) {
        return fault(FaultKind::Setjmp, place);
    }
    designated(alloc, env, place, env.find(name))
}

/// Declares a name that is called as `extern int f()` in the innermost scope, where nothing of that
/// name is visible (C90 6.3.2.2).
pub fn implicit_name(
    alloc: Global,
    env: &mut Env,
    names: &Names,
    name: u32,
    place: Place,
) -> Result<(), CheckError>
    ensures { LeadsTo (implicit_name names.now (env_of env.old) name place)
        (env_of env.new) result }
{
    if is_jump(names, name) || env.find(name).is_some() {
        return Ok(());
    }
    let linkage = extern_linkage(env, name);
    let signature = Signature {
        result: CType::Int(IntKind::Int),
        params: None,
        variadic: false,
    };
    let of = Rc::new(alloc, signature)?;
    function_declared(alloc, env, name, linkage, of, place)?;
    Ok(())
}
