//! The declarator of a definition as a whole (C90 6.7.1).
ghost use Rattle.std.specs.Prelude.{◌≡◌, map};
ghost use Rattle.sp_parse_trees.specs.View.{declarator_of};
ghost use Rattle.sp_types.specs.View.{type_of, struct_of};
ghost use Rattle.sp_base_checked.specs.Answers.{Answers, AnswersIn};
ghost use Rattle.sp_check_env.specs.Views.{env_of};
ghost use Rattle.sp_check_heads.specs.FormalsView.{own_of, own_in_scope};
ghost use Rattle.sp_check_heads.specs.Formals.{is_floating_array, own_told, own_declared};

use crate::steps::own_steps;
use sp_base_checked::{CheckError, fault};
use sp_check_binary_rules::function_type;
use sp_check_env::Env;
use sp_check_members::declared_name;
use sp_check_operands::{is_complete, is_void};
use sp_check_scopes::Scope;
use sp_check_type_names::made;
use sp_parse_trees::Declarator;
use sp_tree::{FaultKind, Names, Place};
use sp_types::{CType, Signature, StructType};
use std::alloc::Global;
use std::rc::Rc;

/// What the declarator of a definition declares: its name, with its place, the type of the
/// function, and the numbers of its formals, in their order.
#[derive(Drop)]
pub struct Own {
    pub name: u32,
    pub place: Place,
    pub of: Rc<Signature>,
    pub formals: Vec<u32>,
}

/// Whether a type is a floating one, or an array of such.
fn is_floating_array(of: &CType) -> bool
    ensures { result ≡ is_floating_array (type_of of.now) }
{
    match of {
        CType::Array(array) => is_floating_array(&array.element),
        CType::Float(_) => true,
        CType::Void | CType::Int(_) | CType::Pointer(_) | CType::Struct(_) | CType::Function(_) =>
            false,
    }
}

/// What a declarator of this name declares, where its parts derive this type.
fn own_told(
    alloc: Global,
    structs: &[StructType],
    at: Place,
    name: (u32, Place),
    formals: Vec<u32>,
    of: CType,
) -> Result<Own, CheckError>
    ensures { Answers own_of
        (own_told (map struct_of structs.now) at name formals.items (type_of of)) result }
{
    let Some(of) = function_type(of) else {
        return fault(FaultKind::BadOperand, at);
    };
    if is_floating_array(of.result()) {
        return fault(FaultKind::FloatingType, name.1);
    }
    if !is_void(of.result()) && !is_complete(of.result(), structs) {
        return fault(FaultKind::IncompleteType, at);
    }
    Ok(Own {
        name: name.0,
        place: name.1,
        of,
        formals,
    })
}

/// The declarator of a definition, where the base is the type that its specifiers name. BadOperand stands
/// at the declarator where it is no function's, and at a formal's where that has no name; FloatingType at the
/// name of a function or a formal of floating type; IncompleteType at the declarator of an incomplete one.
///
/// With it comes the scope of the formals, which the body resumes.
#[tactic(auto, using(crate::proofs::Places::places))]
pub fn check_own_declarator(
    alloc: Global,
    env: &mut Env,
    base: CType,
    declarator: &Declarator,
    names: &Names,
) -> Result<(Own, Scope), CheckError>
    ensures { AnswersIn own_in_scope
        (own_declared names.now (env_of env.old) (type_of base) (declarator_of declarator.now))
        (env_of env.new) result }
{
    let at = declarator.place;
    let Some(name) = declared_name(declarator) else {
        return fault(FaultKind::BadOperand, at);
    };
    let all = own_steps(alloc, declarator, env, names, at)?;
    let of = made(alloc, env.structs(), at, all.steps, base)?;
    let own = own_told(alloc, env.structs(), at, name, all.formals, of)?;
    Ok((own, all.scope))
}
