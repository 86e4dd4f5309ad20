//! The places of tentative definitions.
ghost use Rattle.std.specs.Prelude.{◌≡◌, map, option_map};
ghost use Rattle.std.specs.Option.{option_copied};
ghost use Rattle.sp_parse_trees.specs.View.{external_of, externals_of, init_declarators};
ghost use Rattle.sp_types.specs.View.{type_of, struct_of};
ghost use Rattle.sp_check_env.specs.Views.{env_of};
ghost use Rattle.sp_expr_check.specs.SyntaxView.{init_declarator_of};
ghost use Rattle.sp_check_operands.specs.Conversions.{is_open_struct};
ghost use Rattle.sp_decl_check.specs.Tentative as rules;

use sp_check_declarations::storage_class;
use sp_check_env::{Entity, Env};
use sp_check_members::declared_name;
use sp_check_operands::is_complete;
use sp_parse_trees::{External, InitDeclarator};
use sp_tree::Place;
use sp_types::{CType, StructType};

/// Whether this is a struct without members.
fn is_open_struct(structs: &[StructType], of: &CType) -> bool
    ensures { result ≡ is_open_struct (map struct_of structs.now) (type_of of.now) }
{
    match of {
        CType::Struct(_) => !is_complete(of, structs),
        _ => false,
    }
}

/// Whether this is an object whose struct has no members.
fn is_open_entity(env: &Env, entity: Option<Entity>) -> bool
    ensures { result ≡ rules.is_open_entity (env_of env.now) entity }
{
    match entity {
        Some(Entity::Object(number)) => match env.object_type(number) {
            Some(of) => is_open_struct(env.structs(), of),
            None => false,
        },
        _ => false,
    }
}

/// This place, where a declarator there names such an object.
fn open_name(env: &Env, at: Place, name: Option<(u32, Place)>) -> Option<Place>
    ensures { result ≡ rules.open_name (env_of env.now) at name }
{
    let Some((name, _)) = name else {
        return None;
    };
    if is_open_entity(env, env.linked(name)) {
        Some(at)
    } else {
        None
    }
}

/// The place of a declarator without initialiser, where its object has an incomplete type.
#[tactic(auto, using(crate::proofs::Places::places))]
fn open_item(env: &Env, item: &InitDeclarator) -> Option<Place>
    ensures { result ≡ rules.open_item (env_of env.now) (init_declarator_of item.now) }
{
    match item.start {
        Some(_) => None,
        None => open_name(env, item.declarator.place, declared_name(&item.declarator)),
    }
}

/// The place of the first such declarator of these.
fn open_items(env: &Env, items: &[InitDeclarator]) -> Option<Place>
    ensures { result ≡ rules.open_items (env_of env.now)
        (init_declarators (map init_declarator_of items.now)) }
{
    for item in items {
        if let Some(place) = open_item(env, item) {
            return Some(place);
        }
    }
    None
}

/// The same of an external declaration.
#[tactic(auto, using(crate::proofs::Places::places))]
fn open_external(env: &Env, external: &External) -> Option<Place>
    ensures { result ≡ rules.open_external (env_of env.now) (external_of external.now) }
{
    match external {
        External::Declaration(declaration) => {
            if storage_class(&declaration.specifiers).is_none() {
                open_items(env, &declaration.items)
            } else {
                None
            }
        }
        External::Function(_, _, _) | External::Empty => None,
    }
}

/// The same of a unit, where `env` is the environment at its end.
pub fn open_tentative(env: &Env, externals: &[External]) -> Option<Place>
    ensures { result ≡ rules.open_tentative (env_of env.now) (externals_of externals.now) }
{
    for external in externals {
        if let Some(place) = open_external(env, external) {
            return Some(place);
        }
    }
    None
}
