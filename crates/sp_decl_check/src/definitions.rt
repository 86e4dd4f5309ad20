//! External declarations.
ghost use Rattle.std.specs.Prelude.{◌≡◌, [], IfOk, OnOk};
ghost use Rattle.sp_parse_trees.specs.View.{
  specifiers_of,
  declarator_of,
  statement_of as tree_statement_of,
  external_of,
  externals_of,
};
ghost use Rattle.sp_types.specs.Programs.{function_of};
ghost use Rattle.sp_types.specs.TypedView.{statement_of};
ghost use Rattle.sp_base_checked.specs.Answers.{AnswersIn};
ghost use Rattle.sp_check_env.specs.Views.{env_of};
ghost use Rattle.sp_check_statement_rules.specs.Blocks.{locals_in};
ghost use Rattle.sp_check_heads.specs.HeadView.{head_of};
ghost use Rattle.sp_decl_check.specs.Definitions as rules;

use sp_base_checked::CheckError;
use sp_check_declarations::check_declaration;
use sp_check_env::Env;
use sp_check_heads::{Head, check_head};
use sp_check_statement_rules::add_locals;
use sp_check_statements::check_body;
use sp_parse_trees::{Declarator, External, Specifier, Statement};
use sp_tree::Names;
use sp_types::{FunctionDef, TypedStatement};
use std::alloc::{AllocError, Global};

/// The objects that the blocks of a body declare.
fn locals_of(alloc: Global, body: &TypedStatement) -> Result<Vec<u32>, AllocError>
    ensures { IfOk result (λ ns. ns.items ≡ locals_in (statement_of body.now)) }
{
    let mut locals = Vec::new(alloc);
    add_locals(&mut locals, body)?;
    Ok(locals)
}

/// A function with its body, at the place of its name in the definition.
fn defined(
    alloc: Global,
    old: &FunctionDef,
    head: Head,
    body: TypedStatement,
) -> Result<FunctionDef, AllocError>
    ensures { IfOk result (λ f. function_of f ≡
        rules.defined (function_of old.now) (head_of head) (statement_of body)) }
{
    let own = head.own;
    let place = own.place;
    Ok(FunctionDef {
        name: old.name,
        of: old.of.clone()?,
        linkage: old.linkage,
        formals: own.formals,
        locals: locals_of(alloc, &body)?,
        place,
        end: body.end(),
        body: Some(body),
    })
}

/// Gives a function its body.
fn set_body(
    alloc: Global,
    env: &mut Env,
    head: Head,
    body: TypedStatement,
) -> Result<(), AllocError>
    ensures { OnOk result (env_of env.new ≡
        rules.with_body (env_of env.old) (head_of head) (statement_of body)) }
{
    let number = head.number;
    let Some(old) = env.tables().functions.get(number as usize) else {
        return Ok(());
    };
    let function = defined(alloc, old, head, body)?;
    env.set_function(number, function);
    Ok(())
}

/// A definition of a function, behind the functions that are defined.
fn definition_checked(
    alloc: Global,
    env: &mut Env,
    names: &Names,
    mut defined: Vec<u32>,
    specifiers: &[Specifier],
    declarator: &Declarator,
    body: &Statement,
) -> Result<Vec<u32>, CheckError>
    ensures { AnswersIn (λ ns. ns.items)
        (rules.definition_checked names.now (env_of env.old) defined.items
        (specifiers_of specifiers.now) (declarator_of declarator.now)
        (tree_statement_of body.now))
        (env_of env.new) result }
{
    let head = check_head(alloc, env, specifiers, declarator, names)?;
    let body = check_body(alloc, env, body, head.own.of.result(), names)?;
    env.leave();
    defined.push(head.number)?;
    set_body(alloc, env, head, body)?;
    Ok(defined)
}

/// An external declaration, behind the functions that are defined.
fn external_checked(
    alloc: Global,
    env: &mut Env,
    names: &Names,
    defined: Vec<u32>,
    external: &External,
) -> Result<Vec<u32>, CheckError>
    ensures { AnswersIn (λ ns. ns.items)
        (rules.external_checked names.now (env_of env.old) defined.items
        (external_of external.now))
        (env_of env.new) result }
{
    match external {
        External::Function(specifiers, declarator, body) => {
            definition_checked(alloc, env, names, defined, specifiers, declarator, body)
        }
        External::Declaration(declaration) => {
            check_declaration(alloc, env, declaration, names)?;
            Ok(defined)
        }
        External::Empty => Ok(defined),
    }
}

/// Drops a definition of a function, which is not read again.
fn drop_definition(external: &mut External)
    ensures { external_of external.new ≡ rules.kept_of (external_of external.old) }
{
    if let External::Function(..) = external {
        *external = External::Empty;
    }
}

/// The external declarations of a unit: the functions that they define. Each definition is dropped
/// once it is checked, so that the typed trees of the next one can take its place in memory.
pub(crate) fn externals_checked(
    alloc: Global,
    env: &mut Env,
    names: &Names,
    externals: &mut [External],
) -> Result<Vec<u32>, CheckError>
    ensures answer { AnswersIn (λ ns. ns.items)
        (rules.externals_checked names.now (env_of env.old) [] (externals_of externals.old))
        (env_of env.new) result }
    ensures kept { rules.SameOpen (externals_of externals.new) (externals_of externals.old) }
{
    let mut defined = Vec::new(alloc);
    for external in externals.iter_mut() {
        defined = external_checked(alloc, env, names, defined, external)?;
        drop_definition(external);
    }
    Ok(defined)
}
