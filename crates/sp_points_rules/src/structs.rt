//! Which expressions and lvalues are structs.
ghost use Rattle.std.specs.Prelude.{◌≡◌, ℕ, option_map};
ghost use Rattle.sp_types.specs.View.{type_of};
ghost use Rattle.sp_ir.specs.Commands.{lvalue_type};
ghost use Rattle.sp_ir.specs.Denoted.{keeps_targets};
ghost use Rattle.sp_ir.specs.View.{expression_of, lvalue_of, command_of};
ghost use Rattle.sp_points_rules.specs.Puts.{struct_in, struct_read, as_struct, as_call};

use sp_ir::{Command, Expr, Lvalue};
use sp_points_expr::keeps_targets;
use sp_types::CType;

fn type_at(lvalue: &Lvalue) -> &CType
    ensures { type_of result.now ≡ lvalue_type (lvalue_of lvalue.now) }
{
    match lvalue {
        Lvalue::Direct(_, of) => of,
        Lvalue::Through(_, of, _) => of,
        Lvalue::Field(_, _, of) => of,
    }
}

fn struct_in(of: &CType) -> Option<u32>
    ensures { result ≡ struct_in (type_of of.now) }
{
    match of {
        CType::Struct(number) => Some(*number),
        CType::Void
        | CType::Int(_)
        | CType::Float(_)
        | CType::Pointer(_)
        | CType::Array(_)
        | CType::Function(_) => None,
    }
}

/// The struct that an lvalue is.
pub fn struct_at(lvalue: &Lvalue) -> Option<u32>
    ensures { result ≡ struct_in (lvalue_type (lvalue_of lvalue.now)) }
{
    struct_in(type_at(lvalue))
}

/// Whether an lvalue's type keeps what its values point to.
pub(crate) fn keeps(lvalue: &Lvalue) -> bool
    ensures { result ≡ keeps_targets (lvalue_type (lvalue_of lvalue.now)) }
{
    keeps_targets(type_at(lvalue))
}

/// The struct that an expression is, and the lvalue that it is read from.
pub fn as_struct(expr: &Expr) -> Option<(u32, &Lvalue)>
    ensures { option_map (λ x. (x.0, lvalue_of x.1.now)) result ≡ as_struct (expression_of expr.now) }
{
    match expr {
        Expr::Read(lvalue) => match struct_at(lvalue) {
            None => None,
            Some(number) => Some((number, lvalue)),
        },
        Expr::Number(..)
        | Expr::Address(_)
        | Expr::Decay(_)
        | Expr::Convert(..)
        | Expr::Unary(..)
        | Expr::Binary(..)
        | Expr::Compare(..)
        | Expr::Move { .. }
        | Expr::Distance { .. } => None,
    }
}

/// What a command calls, and with how many arguments.
pub(crate) fn as_call(command: &Command) -> Option<(&Expr, usize)>
    ensures { option_map (λ x. (expression_of x.0.now, x.1)) result ≡ as_call (command_of command.now) }
{
    match command {
        Command::Call { callee, args } => Some((callee, args.len())),
        Command::Start
        | Command::Entry { .. }
        | Command::Exit { .. }
        | Command::Skip
        | Command::Assign { .. }
        | Command::Copy { .. }
        | Command::Init { .. }
        | Command::Assume { .. }
        | Command::Eval(_)
        | Command::Return { .. }
        | Command::Library { .. }
        | Command::Outside { .. } => None,
    }
}
