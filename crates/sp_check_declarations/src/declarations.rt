//! Declarations (C90 6.5).
ghost use Rattle.std.specs.Prelude.{◌≡◌, [], map};
ghost use Rattle.sp_parse_trees.specs.Syntax.{init_declarator};
ghost use Rattle.sp_parse_trees.specs.View.{declarator_of, declaration_of, init_declarators};
ghost use Rattle.sp_types.specs.View.{type_of};
ghost use Rattle.sp_base_checked.specs.Answers.{AnswersIn};
ghost use Rattle.sp_check_env.specs.Declaring.{LeadsTo};
ghost use Rattle.sp_check_env.specs.Views.{env_of};
ghost use Rattle.sp_expr_check.specs.SyntaxView.{init_declarator_of};
ghost use Rattle.sp_check_declarations.specs.ItemView.{start_of};
ghost use Rattle.sp_check_declarations.specs.Declarations.{
  function_linkage,
  may_declare,
  function_told,
  type_told,
  other_told,
  other_checked,
  item_declared,
  items_declared,
  declaration_checked,
};

use crate::objects::object_checked;
use crate::words::{
    declares_tag, has_none, is_automatic, is_given, is_typedef, names_object, storage_class,
};
use sp_base_checked::{CheckError, fault};
use sp_check_binary_rules::function_type;
use sp_check_env::Env;
use sp_check_members::declared_name;
use sp_check_primaries::{extern_linkage, function_declared};
use sp_check_scopes::Meaning;
use sp_expr_check::{check_declarator, check_specifiers};
use sp_parse_trees::{Declaration, Declarator, Init, InitDeclarator};
use sp_tree::{FaultKind, Keyword, Names, Place};
use sp_types::{CType, Linkage};
use std::alloc::Global;

/// The linkage that a declaration gives the name of a function here (C90 6.1.2.2).
fn function_linkage(env: &Env, name: u32, class: Option<Keyword>) -> Linkage
    ensures { result ≡ function_linkage (env_of env.now) name class }
{
    match class {
        Some(Keyword::Static) => Linkage::Internal,
        _ => extern_linkage(env, name),
    }
}

/// Whether a function may be declared with this storage class here (C90 6.5.1).
fn may_declare(env: &Env, class: Option<Keyword>) -> bool
    ensures { result ≡ may_declare (env_of env.now) class }
{
    match class {
        None | Some(Keyword::Extern) => true,
        Some(Keyword::Static) => env.is_file_scope(),
        Some(_) => false,
    }
}

/// Declares a function whose type is read.
fn function_told(
    alloc: Global,
    env: &mut Env,
    class: Option<Keyword>,
    whole: Place,
    of: CType,
    name: u32,
    place: Place,
    declarator: Place,
    valued: bool,
) -> Result<(), CheckError>
    ensures { LeadsTo
        (function_told (env_of env.old) class whole (type_of of) name place declarator valued)
        (env_of env.new) result }
{
    if !may_declare(env, class) {
        return fault(FaultKind::BadOperand, whole);
    }
    if valued {
        return fault(FaultKind::BadOperand, declarator);
    }
    let Some(of) = function_type(of) else {
        return fault(FaultKind::BadOperand, declarator);
    };
    let linkage = function_linkage(env, name, class);
    function_declared(alloc, env, name, linkage, of, place)?;
    Ok(())
}

/// Declares a type (C90 6.5.6).
fn type_told(
    env: &mut Env,
    of: CType,
    name: u32,
    place: Place,
    declarator: Place,
    valued: bool,
) -> Result<(), CheckError>
    ensures { LeadsTo
        (type_told (env_of env.old) (type_of of) name place declarator valued)
        (env_of env.new) result }
{
    if valued {
        return fault(FaultKind::BadOperand, declarator);
    }
    env.declare(name, Meaning::Named(of), place)
}

fn other_told(
    alloc: Global,
    env: &mut Env,
    class: Option<Keyword>,
    whole: Place,
    of: CType,
    name: u32,
    place: Place,
    declarator: Place,
    valued: bool,
) -> Result<(), CheckError>
    ensures { LeadsTo
        (other_told (env_of env.old) class whole (type_of of) name place declarator valued)
        (env_of env.new) result }
{
    if is_typedef(class) {
        type_told(env, of, name, place, declarator, valued)
    } else {
        function_told(
            alloc, env, class, whole, of, name, place, declarator, valued,
        )
    }
}

/// A declarator of a function or a type.
#[tactic(auto, using(crate::proofs::Items::items))]
fn other_checked(
    alloc: Global,
    env: &mut Env,
    names: &Names,
    all: Vec<u32>,
    class: Option<Keyword>,
    whole: Place,
    base: CType,
    declarator: &Declarator,
    start: &Option<Init>,
    name: u32,
    place: Place,
) -> Result<Vec<u32>, CheckError>
    ensures { AnswersIn (λ ks. ks.items)
        (other_checked names.now (env_of env.old) all.items class whole (type_of base)
        (declarator_of declarator.now) (start_of start.now) name place)
        (env_of env.new) result }
{
    let at = declarator.place;
    let of = check_declarator(alloc, env, base, declarator, names)?;
    other_told(
        alloc,
        env,
        class,
        whole,
        of,
        name,
        place,
        at,
        is_given(start),
    )?;
    Ok(all)
}

/// A declarator with its initialiser.
#[tactic(auto, using(crate::proofs::Items::items))]
fn declared_as(
    alloc: Global,
    env: &mut Env,
    names: &Names,
    class: Option<Keyword>,
    whole: Place,
    base: &CType,
    all: Vec<u32>,
    declarator: &Declarator,
    start: &Option<Init>,
) -> Result<Vec<u32>, CheckError>
    ensures { AnswersIn (λ ks. ks.items)
        (item_declared names.now (env_of env.old) class whole (type_of base.now) all.items
        (init_declarator (declarator_of declarator.now) (start_of start.now)))
        (env_of env.new) result }
{
    let Some((name, place)) = declared_name(declarator) else {
        return fault(FaultKind::BadOperand, declarator.place);
    };
    let of = base.copy(alloc)?;
    if names_object(class, base, declarator) {
        object_checked(
            alloc, env, names, all, class, of, declarator, start, name, place,
        )
    } else {
        other_checked(
            alloc, env, names, all, class, whole, of, declarator, start, name, place,
        )
    }
}

#[tactic(auto, using(crate::proofs::Items::items))]
fn item_declared(
    alloc: Global,
    env: &mut Env,
    names: &Names,
    class: Option<Keyword>,
    whole: Place,
    base: &CType,
    all: Vec<u32>,
    item: &InitDeclarator,
) -> Result<Vec<u32>, CheckError>
    ensures { AnswersIn (λ ks. ks.items)
        (item_declared names.now (env_of env.old) class whole (type_of base.now) all.items
        (init_declarator_of item.now))
        (env_of env.new) result }
{
    declared_as(
        alloc,
        env,
        names,
        class,
        whole,
        base,
        all,
        &item.declarator,
        &item.start,
    )
}

/// The declarators of a declaration, in order.
fn items_declared(
    alloc: Global,
    env: &mut Env,
    names: &Names,
    class: Option<Keyword>,
    whole: Place,
    base: &CType,
    items: &[InitDeclarator],
) -> Result<Vec<u32>, CheckError>
    ensures { AnswersIn (λ ks. ks.items)
        (items_declared names.now (env_of env.old) class whole (type_of base.now) []
        (init_declarators (map init_declarator_of items.now)))
        (env_of env.new) result }
{
    let mut all = Vec::new(alloc);
    'items: for (i, item) in items.iter().enumerate() {
        all = item_declared(alloc, env, names, class, whole, base, all, item)?;
    }
    Ok(all)
}

/// A declaration in a block or at file scope: the numbers of the objects without linkage that it
/// declares, in order. At file scope there are none.
///
/// What it declares goes to the scopes and tables of the environment. After a refusal that isn't
/// used again.
#[tactic(auto, using(crate::proofs::Items::items))]
pub fn check_declaration(
    alloc: Global,
    env: &mut Env,
    declaration: &Declaration,
    names: &Names,
) -> Result<Vec<u32>, CheckError>
    ensures { AnswersIn (λ ks. ks.items)
        (declaration_checked names.now (env_of env.old) (declaration_of declaration.now))
        (env_of env.new) result }
{
    let whole = declaration.place;
    let alone = has_none(&declaration.items);
    let base = check_specifiers(alloc, env, &declaration.specifiers, alone, whole, names)?;
    let class = storage_class(&declaration.specifiers);
    if env.is_file_scope() && is_automatic(class) {
        return fault(FaultKind::BadOperand, whole);
    }
    if alone && !declares_tag(&declaration.specifiers) {
        return fault(FaultKind::BadOperand, whole);
    }
    items_declared(alloc, env, names, class, whole, &base, &declaration.items)
}
