//! What each command puts where, as far as the rows tell.
ghost use Rattle.std.specs.Prelude.{◌≡◌, ◌⊎◌, ◌<◌, ◌≤◌, ◌^◌, ℕ, true, length, map, Some, slice_get, slice_index, option_map, IfOk, OnOk, ◌↔◌};
ghost use Rattle.sp_base_sets.specs.Sets.{has};
ghost use Rattle.sp_base_sets.specs.Reached.{row};
ghost use Rattle.sp_ir.specs.Programs.{lowered_of, object_of};
ghost use Rattle.sp_ir.specs.Terrain.{terrain_of};
ghost use Rattle.sp_ir.specs.Commands.{lvalue_type};
ghost use Rattle.sp_ir.specs.View.{expression_of, lvalue_of, leaf_of, command_of};
ghost use Rattle.sp_points_rules.specs.Puts.{all_of, Product, Copies, PutsLeaf, PutsStart, PutsForeign, is_foreign, PassesAs, Passes, ReturnsAs, ReturnsTo, Returns, as_struct, as_call, struct_in, command_at, Puts, CallsBy};
ghost use Rattle.sp_points_rules.specs.Sources.{region, regions, cells};
ghost use Rattle.sp_points_rules.specs.Gathered.{Adds};
ghost use Rattle.sp_points_rules.specs.Foreign.{PutsForeignTo, PutsForeignAt};

use crate::facts::Facts;
use crate::gathered::Gathered;
use crate::library::{from_outside, give, given_by, move_cells, moved_by};
use crate::rules::{copying, pointers_from, product, product_to};
use crate::sources::{Base, Only, Source, Test, called};
use crate::structs::{as_call, as_struct, keeps, struct_at};
use sp_base_sets::NumberSet;
use sp_ir::{Command, Expr, Leaf, Lvalue, Object, ObjectKind};
use std::alloc::{AllocError, Global};

/// A leaf has its value.
fn leaf_put(
    alloc: Global,
    facts: &Facts<'_>,
    leaf: &Leaf,
    out: &mut Gathered,
) -> Result<(), AllocError>
    ensures { OnOk result (Adds facts.now.rows.now (λ u c r. Product (lowered_of facts.now.lowered.now) u (all_of (region (leaf_of leaf.now).cell)) (all_of (regions (leaf_of leaf.now).value)) c r) out.old out.new) }
{
    let from = Source {
        base: Base::Regions(&leaf.value),
        only: Only::Every,
        read: false,
    };
    product_to(alloc, facts, leaf.cell, &from, out)?;
    Ok(())
}

/// Leaves have their values.
fn leaves_put(
    alloc: Global,
    facts: &Facts<'_>,
    leaves: &[Leaf],
    out: &mut Gathered,
) -> Result<(), AllocError>
    ensures { OnOk result (Adds facts.now.rows.now (λ u c r. PutsLeaf (lowered_of facts.now.lowered.now) u (map leaf_of leaves.now) c r) out.old out.new) }
{
    for leaf in leaves {
        leaf_put(alloc, facts, leaf, out)?;
    }
    Ok(())
}

/// Objects have their start values.
fn objects_start(
    alloc: Global,
    facts: &Facts<'_>,
    objects: &[Object],
    out: &mut Gathered,
) -> Result<(), AllocError>
    requires { map object_of objects.now ≡ (lowered_of facts.now.lowered.now).objects }
    ensures { OnOk result (Adds facts.now.rows.now (λ u c r. PutsStart (lowered_of facts.now.lowered.now) u c r) out.old out.new) }
{
    for object in objects {
        leaves_put(alloc, facts, &object.start, out)?;
    }
    Ok(())
}

fn is_foreign(kind: ObjectKind, node: u32) -> bool
    ensures { result ≡ is_foreign kind node }
{
    match kind {
        ObjectKind::Foreign(found) => found == node,
        ObjectKind::Static
        | ObjectKind::Outside
        | ObjectKind::Text
        | ObjectKind::Auto
        | ObjectKind::Formal
        | ObjectKind::Temp
        | ObjectKind::Result
        | ObjectKind::Function(_)
        | ObjectKind::Heap(_) => false,
    }
}

/// A parameter points outside.
fn foreign_one(
    alloc: Global,
    facts: &Facts<'_>,
    number: u32,
    formal: u32,
    out: &mut Gathered,
) -> Result<(), AllocError>
    ensures { OnOk result (Adds facts.now.rows.now (λ u c r. PutsForeignTo (lowered_of facts.now.lowered.now) u number formal c r) out.old out.new) }
{
    let cells = facts.lowered.root_of(formal);
    let root = facts.lowered.root_of(number);
    pointers_from(alloc, facts, cells, root, out)?;
    Ok(())
}

fn foreign_each(
    alloc: Global,
    facts: &Facts<'_>,
    number: u32,
    formals: &[u32],
    out: &mut Gathered,
) -> Result<(), AllocError>
    ensures { OnOk result (Adds facts.now.rows.now (λ u c r. (k : ℕ) × (k < length formals.now) × PutsForeignTo (lowered_of facts.now.lowered.now) u number (slice_index formals.now k) c r) out.old out.new) }
{
    for formal in formals {
        foreign_one(alloc, facts, number, *formal, out)?;
    }
    Ok(())
}

/// Where an object is what comes from outside at the start, the parameters of the first function
/// point to it.
fn foreign_at(
    alloc: Global,
    facts: &Facts<'_>,
    number: u32,
    kind: ObjectKind,
    out: &mut Gathered,
) -> Result<(), AllocError>
    ensures { OnOk result (Adds facts.now.rows.now (λ u c r. PutsForeignAt (lowered_of facts.now.lowered.now) u number kind c r) out.old out.new) }
{
    if is_foreign(kind, 0) {
        if let Some(code) = facts.lowered.functions.get(facts.lowered.main as usize) {
            foreign_each(alloc, facts, number, &code.formals, out)?;
        }
    }
    Ok(())
}

/// What the parameters of the first function point to comes from outside.
fn foreign_start(
    alloc: Global,
    facts: &Facts<'_>,
    objects: &[Object],
    out: &mut Gathered,
) -> Result<(), AllocError>
    requires same { map object_of objects.now ≡ (lowered_of facts.now.lowered.now).objects }
    requires few { length objects.now < 2 ^ 32 }
    ensures { OnOk result (Adds facts.now.rows.now (λ u c r. PutsForeign (lowered_of facts.now.lowered.now) u c r) out.old out.new) }
{
    for number in 0..objects.len() as u32 {
        foreign_at(alloc, facts, number, objects[number as usize].kind, out)?;
    }
    Ok(())
}

/// An argument goes to the parameters of its place.
fn pass(
    alloc: Global,
    facts: &Facts<'_>,
    callee: &Expr,
    count: usize,
    place: usize,
    arg: &Expr,
    out: &mut Gathered,
) -> Result<(), AllocError>
    ensures { OnOk result (Adds facts.now.rows.now (λ u c r. PassesAs (lowered_of facts.now.lowered.now) u (expression_of callee.now) count place (as_struct (expression_of arg.now)) (expression_of arg.now) c r) out.old out.new) }
{
    match as_struct(arg) {
        None => {
            let base = Base::Formals(callee, count, place, Test::KeptScalar);
            let to = Source {
                base,
                only: Only::Every,
                read: false,
            };
            let from = Source {
                base: Base::Regions(arg),
                only: Only::Every,
                read: false,
            };
            product(alloc, facts, &to, &from, out)?;
            Ok(())
        }
        Some((number, lvalue)) => {
            let base = Base::Formals(callee, count, place, Test::Aggregate(number));
            let to = Source {
                base,
                only: Only::Every,
                read: false,
            };
            let from = Source {
                base: Base::Cells(lvalue),
                only: Only::Every,
                read: false,
            };
            copying(alloc, facts, &to, &from, out)?;
            Ok(())
        }
    }
}

/// Arguments go to parameters.
fn pass_each(
    alloc: Global,
    facts: &Facts<'_>,
    callee: &Expr,
    args: &[Expr],
    out: &mut Gathered,
) -> Result<(), AllocError>
    ensures { OnOk result (Adds facts.now.rows.now (λ u c r. Passes (lowered_of facts.now.lowered.now) u (expression_of callee.now) (map expression_of args.now) c r) out.old out.new) }
{
    for (place, arg) in args.iter().enumerate() {
        pass(alloc, facts, callee, args.len(), place, arg, out)?;
    }
    Ok(())
}

/// The result of a call goes to an lvalue.
fn return_as(
    alloc: Global,
    facts: &Facts<'_>,
    callee: &Expr,
    count: usize,
    to: &Lvalue,
    out: &mut Gathered,
) -> Result<(), AllocError>
    ensures { OnOk result (Adds facts.now.rows.now (λ u c r. ReturnsAs (lowered_of facts.now.lowered.now) u (expression_of callee.now) count (struct_in (lvalue_type (lvalue_of to.now))) (lvalue_of to.now) c r) out.old out.new) }
{
    match struct_at(to) {
        None => {
            if keeps(to) {
                let base = Base::Results(callee, count, Test::AnyScalar);
                let from = Source {
                    base,
                    only: Only::Every,
                    read: true,
                };
                let to = Source {
                    base: Base::Cells(to),
                    only: Only::Every,
                    read: false,
                };
                product(alloc, facts, &to, &from, out)?;
            }
            Ok(())
        }
        Some(number) => {
            let base = Base::Results(callee, count, Test::Aggregate(number));
            let from = Source {
                base,
                only: Only::Every,
                read: false,
            };
            let to = Source {
                base: Base::Cells(to),
                only: Only::Every,
                read: false,
            };
            copying(alloc, facts, &to, &from, out)?;
            Ok(())
        }
    }
}

/// The result of what a command calls goes to where it is assigned.
fn return_from(
    alloc: Global,
    facts: &Facts<'_>,
    command: &Command,
    to: &Option<Lvalue>,
    out: &mut Gathered,
) -> Result<(), AllocError>
    ensures { OnOk result (Adds facts.now.rows.now (λ u c r. Returns (lowered_of facts.now.lowered.now) u (as_call (command_of command.now)) (option_map lvalue_of to.now) c r) out.old out.new) }
{
    match as_call(command) {
        None => Ok(()),
        Some((callee, count)) => match to {
            None => Ok(()),
            Some(to) => {
                return_as(alloc, facts, callee, count, to, out)?;
                Ok(())
            }
        },
    }
}

/// The result of the call of a node goes to where it is assigned.
fn returned(
    alloc: Global,
    facts: &Facts<'_>,
    call: u32,
    to: &Option<Lvalue>,
    out: &mut Gathered,
) -> Result<(), AllocError>
    ensures { OnOk result (Adds facts.now.rows.now (λ u c r. Returns (lowered_of facts.now.lowered.now) u (as_call (command_at (lowered_of facts.now.lowered.now) call)) (option_map lvalue_of to.now) c r) out.old out.new) }
{
    match facts.lowered.nodes.get(call as usize) {
        None => Ok(()),
        Some(node) => {
            return_from(alloc, facts, &node.command, to, out)?;
            Ok(())
        }
    }
}

/// What is there at the start: start values, and what comes from outside.
fn start_put(alloc: Global, facts: &Facts<'_>, out: &mut Gathered) -> Result<(), AllocError>
    requires { length (lowered_of facts.now.lowered.now).objects < 2 ^ 32 }
    ensures { OnOk result (Adds facts.now.rows.now (λ u c r. PutsStart (lowered_of facts.now.lowered.now) u c r ⊎ PutsForeign (lowered_of facts.now.lowered.now) u c r) out.old out.new) }
{
    objects_start(alloc, facts, &facts.lowered.objects, out)?;
    foreign_start(alloc, facts, &facts.lowered.objects, out)?;
    Ok(())
}

/// A value is assigned.
fn assign_put(
    alloc: Global,
    facts: &Facts<'_>,
    to: &Lvalue,
    value: &Expr,
    out: &mut Gathered,
) -> Result<(), AllocError>
    ensures { OnOk result (Adds facts.now.rows.now (λ u c r. Product (lowered_of facts.now.lowered.now) u (all_of (cells (lvalue_of to.now))) (all_of (regions (expression_of value.now))) c r) out.old out.new) }
{
    let to = Source {
        base: Base::Cells(to),
        only: Only::Every,
        read: false,
    };
    let from = Source {
        base: Base::Regions(value),
        only: Only::Every,
        read: false,
    };
    product(alloc, facts, &to, &from, out)?;
    Ok(())
}

/// A struct is assigned.
fn copy_put(
    alloc: Global,
    facts: &Facts<'_>,
    to: &Lvalue,
    from: &Lvalue,
    out: &mut Gathered,
) -> Result<(), AllocError>
    ensures { OnOk result (Adds facts.now.rows.now (λ u c r. Copies (lowered_of facts.now.lowered.now) u (all_of (cells (lvalue_of to.now))) (all_of (cells (lvalue_of from.now))) c r) out.old out.new) }
{
    let to = Source {
        base: Base::Cells(to),
        only: Only::Every,
        read: false,
    };
    let from = Source {
        base: Base::Cells(from),
        only: Only::Every,
        read: false,
    };
    copying(alloc, facts, &to, &from, out)?;
    Ok(())
}

/// What a command puts where. Nothing changes in what was gathered before; `seen` of it gets the
/// cells that were looked at.
pub fn puts_of(
    alloc: Global,
    facts: &Facts<'_>,
    command: &Command,
    out: &mut Gathered,
) -> Result<(), AllocError>
    requires { length (lowered_of facts.now.lowered.now).objects < 2 ^ 32 }
    ensures { OnOk result (Adds facts.now.rows.now (λ u c r. Puts (lowered_of facts.now.lowered.now) u (command_of command.now) c r) out.old out.new) }
{
    match command {
        Command::Start => start_put(alloc, facts, out)?,
        Command::Assign { to, value } => assign_put(alloc, facts, to, value, out)?,
        Command::Copy { to, from } => copy_put(alloc, facts, to, from, out)?,
        Command::Init { values, .. } => leaves_put(alloc, facts, values, out)?,
        Command::Call { callee, args } => pass_each(alloc, facts, callee, args, out)?,
        Command::Return { call, to } => returned(alloc, facts, *call, to, out)?,
        Command::Library {
            which,
            to,
            args,
            site,
        } => {
            give(alloc, facts, given_by(*which), to, args, *site, out)?;
            move_cells(alloc, facts, moved_by(*which), args, out)?
        }
        Command::Outside { to, site, .. } => from_outside(alloc, facts, to, *site, out)?,
        Command::Entry { .. }
        | Command::Exit { .. }
        | Command::Skip
        | Command::Assume { .. }
        | Command::Eval(_) => {}
    }
    Ok(())
}

/// The functions that a command calls, by the rows.
pub fn callees_of(
    alloc: Global,
    facts: &Facts<'_>,
    command: &Command,
) -> Result<NumberSet, AllocError>
    ensures { IfOk result (λ set. (f : ℕ) → (has f set ≡ true) ↔ CallsBy (lowered_of facts.now.lowered.now) (row facts.now.rows.now) (as_call (command_of command.now)) f) }
{
    let mut seen = NumberSet::new(alloc);
    match as_call(command) {
        None => Ok(NumberSet::new(alloc)),
        Some((callee, count)) => {
            let functions = called(alloc, facts, callee, count, &mut seen)?;
            Ok(functions)
        }
    }
}
