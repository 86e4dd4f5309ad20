//! The linkage of a name and the storage of an object (C90 6.1.2.2, 6.1.2.4).
ghost use Rattle.std.specs.Prelude.{◌≡◌};
ghost use Rattle.sp_check_env.specs.Views.{env_of};
ghost use Rattle.sp_check_objects.specs.Objects.{
  has_linkage,
  static_linkage,
  plain_linkage,
  linkage_for,
  storage_for,
  is_outside,
  entry_for,
};

use sp_check_env::{Entity, Env};
use sp_check_primaries::extern_linkage;
use sp_tree::Keyword;
use sp_types::{Linkage, Storage};

/// Whether a name has linkage.
pub fn has_linkage(linkage: Linkage) -> bool
    ensures { result ≡ has_linkage linkage }
{
    match linkage {
        Linkage::External | Linkage::Internal => true,
        Linkage::Inner => false,
    }
}

fn static_linkage(is_file_scope: bool) -> Linkage
    ensures { result ≡ static_linkage is_file_scope }
{
    if is_file_scope {
        Linkage::Internal
    } else {
        Linkage::Inner
    }
}

fn plain_linkage(is_file_scope: bool) -> Linkage
    ensures { result ≡ plain_linkage is_file_scope }
{
    if is_file_scope {
        Linkage::External
    } else {
        Linkage::Inner
    }
}

/// The linkage that a declaration with this storage class gives the name of an object here.
pub fn linkage_for(env: &Env, name: u32, class: Option<Keyword>) -> Linkage
    ensures { result ≡ linkage_for (env_of env.now) name class }
{
    match class {
        Some(Keyword::Extern) => extern_linkage(env, name),
        Some(Keyword::Static) => static_linkage(env.is_file_scope()),
        _ => plain_linkage(env.is_file_scope()),
    }
}

/// How an object is stored whose declaration has this storage class, and an initialiser or none.
pub fn storage_for(linkage: Linkage, class: Option<Keyword>, valued: bool) -> Storage
    ensures { result ≡ storage_for linkage class valued }
{
    match linkage {
        Linkage::Inner => match class {
            Some(Keyword::Static) => Storage::Static,
            _ => Storage::Auto,
        },
        Linkage::External | Linkage::Internal => match class {
            Some(Keyword::Extern) => if valued {
                Storage::Static
            } else {
                Storage::Outside
            },
            _ => Storage::Static,
        },
    }
}

/// Whether an object is declared and not defined.
pub fn is_outside(storage: Storage) -> bool
    ensures { result ≡ is_outside storage }
{
    storage == Storage::Outside
}

/// The entry that a name of this linkage has by now.
pub fn entry_for(env: &Env, name: u32, linkage: Linkage) -> Option<Entity>
    ensures { result ≡ entry_for (env_of env.now) name linkage }
{
    if has_linkage(linkage) {
        env.linked(name)
    } else {
        None
    }
}
