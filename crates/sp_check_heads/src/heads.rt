//! The heads of functions that are defined.
ghost use Rattle.std.specs.Prelude.{◌≡◌, slice_get};
ghost use Rattle.sp_parse_trees.specs.View.{declarator_of, specifiers_of};
ghost use Rattle.sp_base_checked.specs.Answers.{AnswersIn};
ghost use Rattle.sp_check_env.specs.Views.{env_of};
ghost use Rattle.sp_check_declarations.specs.Declarations.{function_linkage};
ghost use Rattle.sp_check_heads.specs.FormalsView.{own_in_scope};
ghost use Rattle.sp_check_heads.specs.HeadView.{head_of};
ghost use Rattle.sp_check_heads.specs.Heads as rules;

use crate::definitions::{Own, check_own_declarator};
use sp_base_checked::{CheckError, fault};
use sp_check_declarations::storage_class;
use sp_check_env::Env;
use sp_check_primaries::{extern_linkage, function_declared};
use sp_check_scopes::Scope;
use sp_expr_check::check_specifiers;
use sp_parse_trees::{Declarator, Specifier};
use sp_tree::{FaultKind, Keyword, Names};
use sp_types::Linkage;
use std::alloc::Global;

/// A function whose body comes.
#[derive(Drop)]
pub struct Head {
    /// Its number in the tables of the unit.
    pub number: u32,
    /// What its declarator declares.
    pub own: Own,
}

/// Whether a definition of a function may have this storage class (C90 6.7.1).
fn may_define(class: Option<Keyword>) -> bool
    ensures { result ≡ rules.may_define class }
{
    match class {
        None => true,
        Some(word) => matches!(word, Keyword::Extern | Keyword::Static),
    }
}

/// The linkage of a function with this storage class (C90 6.1.2.2).
fn function_linkage(env: &Env, name: u32, class: Option<Keyword>) -> Linkage
    ensures { result ≡ function_linkage (env_of env.now) name class }
{
    match class {
        Some(Keyword::Static) => Linkage::Internal,
        _ => extern_linkage(env, name),
    }
}

/// Whether the function of a number is defined.
fn has_body(env: &Env, number: u32) -> bool
    ensures { result ≡
        rules.has_body (slice_get (env_of env.now).tables.functions number) }
{
    match env.tables().functions.get(number as usize) {
        Some(function) => function.body.is_some(),
        None => false,
    }
}

/// Declares the function of a declarator in the scope of the file, inside which its formals are in
/// the block that is its body. RedeclaredName stands at its name where it is declared otherwise, or defined
/// already.
fn own_defined(
    alloc: Global,
    env: &mut Env,
    class: Option<Keyword>,
    declared: (Own, Scope),
) -> Result<Head, CheckError>
    ensures { AnswersIn head_of
        (rules.own_defined (env_of env.old) class (own_in_scope declared)) (env_of env.new) result }
{
    let (own, scope) = declared;
    let linkage = function_linkage(env, own.name, class);
    let of = own.of.clone()?;
    let number = function_declared(alloc, env, own.name, linkage, of, own.place)?;
    if has_body(env, number) {
        return fault(FaultKind::RedeclaredName, own.place);
    }
    env.resume(scope)?;
    Ok(Head { number, own })
}

/// Declares a function that is defined, in the scope of the file. The scope of its parameters is
/// open inside it for the body (C90 6.7.1).
///
/// BadOperand stands at a declarator that names no function by a list of its own, and where a parameter
/// has no name; FloatingType and IncompleteType at a parameter or a result of floating or incomplete type; RedeclaredName at a name
/// that is declared otherwise, or defined already. After a refusal the environment isn't used
/// again.
#[tactic(auto, using(crate::proofs::Places::places))]
pub fn check_head(
    alloc: Global,
    env: &mut Env,
    specifiers: &[Specifier],
    declarator: &Declarator,
    names: &Names,
) -> Result<Head, CheckError>
    ensures { AnswersIn head_of
        (rules.head_checked names.now (env_of env.old) (specifiers_of specifiers.now)
        (declarator_of declarator.now))
        (env_of env.new) result }
{
    let class = storage_class(specifiers);
    if !may_define(class) {
        return fault(FaultKind::BadOperand, declarator.place);
    }
    let base = check_specifiers(alloc, env, specifiers, false, declarator.place, names)?;
    let own = check_own_declarator(alloc, env, base, declarator, names)?;
    own_defined(alloc, env, class, own)
}
