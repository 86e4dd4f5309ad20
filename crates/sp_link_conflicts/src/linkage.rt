//! Linkage and definitions (C90 6.1.2.2, 6.7).
ghost use Rattle.std.specs.Prelude.{◌≡◌, is_some};
ghost use Rattle.sp_types.specs.Programs.{function_of};
ghost use Rattle.sp_link_conflicts.specs.Declarations.{is_external, is_defined};

use sp_types::{FunctionDef, Linkage, Storage};

/// Whether a name is that of one entity in all units (C90 6.1.2.2).
pub fn is_external(linkage: Linkage) -> bool
    ensures { result ≡ is_external linkage }
{
    matches!(linkage, Linkage::External)
}

/// Whether a declaration defines its object (C90 6.7.2).
pub fn defines_object(storage: Storage) -> bool
    ensures { result ≡ is_defined storage }
{
    matches!(storage, Storage::Static)
}

/// Whether a declaration defines its function (C90 6.7.1).
pub fn defines_function(function: &FunctionDef) -> bool
    ensures { result ≡ is_some (function_of function.now).body }
{
    function.body.is_some()
}
