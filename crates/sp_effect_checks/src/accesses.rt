//! What a command accesses through pointers.
ghost use Rattle.std.specs.Prelude.{◌≡◌, [], ◌∷◌, ◌++◌, map, option_map, IfOk, OnOk};
ghost use Rattle.std.specs.List.{flat_map};
ghost use Rattle.sp_types.specs.View.{type_of};
ghost use Rattle.sp_ir.specs.Commands.{Leaf as PlainLeaf};
ghost use Rattle.sp_ir.specs.View.{expression_of, lvalue_of, leaf_of, command_of};
ghost use Rattle.sp_effect_checks.specs.Accesses.{access, accesses_at, accesses_to, accesses_in, leaf_accesses, result_accesses, command_accesses};
ghost use Rattle.sp_effect_checks.specs.View.{access_of};

use sp_ir::{Command, Expr, Leaf, Lvalue};
use sp_types::CType;
use std::alloc::{AllocError, Global};

/// An access through a pointer.
#[derive(Clone, Copy)]
pub struct Access<'a> {
    /// The pointer that is followed.
    pub pointer: &'a Expr,
    /// The type of what is accessed there.
    pub of: &'a CType,
}

/// The accesses of a command through pointers, in the order in which their alarms are found.
pub fn accesses_of<'a>(alloc: Global, command: &'a Command) -> Result<Vec<Access<'a>>, AllocError>
    ensures { IfOk result (λ found. map access_of found.items ≡
        command_accesses (command_of command.now)) }
{
    let mut found = Vec::new(alloc);
    add_command(command, &mut found)?;
    Ok(found)
}

// Adds those of a command.
fn add_command<'a>(command: &'a Command, found: &mut Vec<Access<'a>>) -> Result<(), AllocError>
    ensures { OnOk result (map access_of found.new.items ≡
        map access_of found.old.items ++ command_accesses (command_of command.now)) }
{
    match command {
        Command::Start
        | Command::Entry { .. }
        | Command::Exit { .. }
        | Command::Skip
        | Command::Call { .. }
        | Command::Return { .. } => Ok(()),
        Command::Assign { to, value } => {
            add_access(to, found)?;
            add_expression(value, found)?;
            Ok(())
        }
        Command::Copy { to, from } => {
            add_access(to, found)?;
            add_access(from, found)?;
            Ok(())
        }
        Command::Init { values, .. } => {
            add_leaves(values, found)?;
            Ok(())
        }
        Command::Assume { left, right, .. } => {
            add_expression(left, found)?;
            add_expression(right, found)?;
            Ok(())
        }
        Command::Eval(value) => {
            add_expression(value, found)?;
            Ok(())
        }
        Command::Library { to, args, .. } | Command::Outside { to, args, .. } => {
            add_result(to, found)?;
            add_list(args, found)?;
            Ok(())
        }
    }
}

// Adds those of each expression of a list.
fn add_list<'a>(exprs: &'a [Expr], found: &mut Vec<Access<'a>>) -> Result<(), AllocError>
    ensures { OnOk result (map access_of found.new.items ≡
        map access_of found.old.items ++ flat_map accesses_in (map expression_of exprs.now)) }
{
    for expr in exprs {
        add_expression(expr, found)?;
    }
    Ok(())
}

// Adds those of the values of leaves.
fn add_leaves<'a>(leaves: &'a [Leaf], found: &mut Vec<Access<'a>>) -> Result<(), AllocError>
    ensures { OnOk result (map access_of found.new.items ≡
        map access_of found.old.items ++ flat_map leaf_accesses (map leaf_of leaves.now)) }
{
    for leaf in leaves {
        add_expression(&leaf.value, found)?;
    }
    Ok(())
}

// Adds those of where a result goes.
fn add_result<'a>(to: &'a Option<Lvalue>, found: &mut Vec<Access<'a>>) -> Result<(), AllocError>
    ensures { OnOk result (map access_of found.new.items ≡
        map access_of found.old.items ++ result_accesses (option_map lvalue_of to.now)) }
{
    match to {
        Some(to) => {
            add_access(to, found)?;
            Ok(())
        }
        None => Ok(()),
    }
}

// Adds those of an expression.
#[cycle(walk)]
fn add_expression<'a>(expr: &'a Expr, found: &mut Vec<Access<'a>>) -> Result<(), AllocError>
    ensures { OnOk result (map access_of found.new.items ≡
        map access_of found.old.items ++ accesses_in (expression_of expr.now)) }
{
    match expr {
        Expr::Number(_, _) => Ok(()),
        Expr::Address(of) => {
            add_address(of, found)?;
            Ok(())
        }
        Expr::Decay(of) | Expr::Read(of) => {
            add_access(of, found)?;
            Ok(())
        }
        Expr::Convert(_, operand) | Expr::Unary(_, _, operand) => {
            add_expression(operand, found)?;
            Ok(())
        }
        Expr::Binary(_, _, left, right, _) => {
            add_expression(left, found)?;
            add_expression(right, found)?;
            Ok(())
        }
        Expr::Compare(_, left, right) => {
            add_expression(left, found)?;
            add_expression(right, found)?;
            Ok(())
        }
        Expr::Move { pointer, by, .. } => {
            add_expression(pointer, found)?;
            add_expression(by, found)?;
            Ok(())
        }
        Expr::Distance { left, right, .. } => {
            add_expression(left, found)?;
            add_expression(right, found)?;
            Ok(())
        }
    }
}

// Adds those of an lvalue that is read, written or stepped into.
#[cycle(walk)]
fn add_access<'a>(lvalue: &'a Lvalue, found: &mut Vec<Access<'a>>) -> Result<(), AllocError>
    ensures { OnOk result (map access_of found.new.items ≡
        map access_of found.old.items ++ accesses_at (lvalue_of lvalue.now)) }
{
    match lvalue {
        Lvalue::Direct(_, _) => Ok(()),
        Lvalue::Through(pointer, of, _) => {
            add_expression(pointer, found)?;
            add_through(pointer, of, found)?;
            Ok(())
        }
        Lvalue::Field(of, _, _) => {
            add_access(of, found)?;
            Ok(())
        }
    }
}

// Adds the access of a type through a pointer.
fn add_through<'a>(
    pointer: &'a Expr,
    of: &'a CType,
    found: &mut Vec<Access<'a>>,
) -> Result<(), AllocError>
    ensures { OnOk result (map access_of found.new.items ≡ map access_of found.old.items
        ++ access (expression_of pointer.now) (type_of of.now) ∷ []) }
{
    found.push(Access { pointer, of })?;
    Ok(())
}

// Adds those of an lvalue whose address is taken.
#[cycle(walk)]
fn add_address<'a>(lvalue: &'a Lvalue, found: &mut Vec<Access<'a>>) -> Result<(), AllocError>
    ensures { OnOk result (map access_of found.new.items ≡
        map access_of found.old.items ++ accesses_to (lvalue_of lvalue.now)) }
{
    match lvalue {
        Lvalue::Direct(_, _) => Ok(()),
        Lvalue::Through(pointer, _, _) => {
            add_expression(pointer, found)?;
            Ok(())
        }
        Lvalue::Field(of, _, _) => {
            add_access(of, found)?;
            Ok(())
        }
    }
}
