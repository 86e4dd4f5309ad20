//! What stands around a statement.
ghost use Rattle.std.specs.Prelude.{◌≡◌};
ghost use Rattle.sp_types.specs.View.{type_of};
ghost use Rattle.sp_check_statement_rules.specs.Rules.{
  in_function,
  in_loop,
  in_switch,
  integer_kind,
};

use sp_types::{CType, IntKind};

/// The kind of an integer type.
pub(crate) fn integer_kind(of: &CType) -> Option<IntKind>
    ensures { result ≡ integer_kind (type_of of.now) }
{
    match of {
        CType::Int(kind) => Some(*kind),
        _ => None,
    }
}

/// What stands around a statement.
#[derive(Clone, Copy)]
pub struct Around<'a> {
    /// The type that the function returns.
    pub result: &'a CType,
    /// The promoted type of the innermost switch.
    pub switch: Option<IntKind>,
    pub in_loop: bool,
}

impl<'a> Around<'a> {
    ghost use Rattle.sp_check_statement_rules.specs.View.{around_of};

    /// In the body of a function that returns this type.
    pub fn in_function(of: &'a CType) -> Around<'a>
        ensures { around_of result ≡ in_function (type_of of.now) }
    {
        Around {
            result: of,
            switch: None,
            in_loop: false,
        }
    }

    /// In a loop that stands there.
    pub fn in_loop(&self) -> Around<'a>
        ensures { around_of result ≡ in_loop (around_of self.now) }
    {
        Around {
            result: self.result,
            switch: self.switch,
            in_loop: true,
        }
    }

    /// In a switch that stands there, on a value of this type.
    pub fn in_switch(&self, of: &CType) -> Around<'a>
        ensures { around_of result ≡ in_switch (around_of self.now) (type_of of.now) }
    {
        Around {
            result: self.result,
            switch: integer_kind(of),
            in_loop: self.in_loop,
        }
    }
}
