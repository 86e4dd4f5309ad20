//! What a type says of a function (C90 6.5.4.3).
ghost use Rattle.std.specs.Prelude.{◌≡◌, option_map};
ghost use Rattle.sp_types.specs.View.{type_of, shared_signature_of};
ghost use Rattle.sp_check_binary_rules.specs.Rules.{function_type};

use sp_types::{CType, Signature};
use std::rc::Rc;

/// The type of a function, where the type is one.
pub fn function_type(of: CType) -> Option<Rc<Signature>>
    ensures { option_map shared_signature_of result ≡ function_type (type_of of) }
{
    match of {
        CType::Function(signature) => Some(signature),
        _ => None,
    }
}
