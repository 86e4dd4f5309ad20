//! The regions that an expression may point to, and the cells of an lvalue, as far as rows tell.
ghost use Rattle.std.specs.Prelude.{◌≡◌, ◌&&◌, ◌||◌, ℕ, List, [], true, length, IfOk, OnOk};
ghost use Rattle.sp_ir.specs.Programs.{lowered_of};
ghost use Rattle.sp_ir.specs.View.{expression_of, lvalue_of};
ghost use Rattle.sp_ir.specs.Terrain.{terrain_of};
ghost use Rattle.sp_ir.specs.Denoted.{regions_of, cells_of, member_region, element_region};
ghost use Rattle.sp_base_sets.specs.Sets.{has, Includes, Images};
ghost use Rattle.sp_base_sets.specs.Reached.{row};
ghost use Rattle.sp_points_expr.specs.Tables.{Table, Limited};
ghost use Rattle.sp_points_expr.specs.Given.{Gives, Denotes, Stores, is_matched};

use crate::steps::{contents, elements, keeps_targets, matching, members};
use sp_base_sets::NumberSet;
use sp_ir::{Expr, Lowered, Lvalue};
use std::alloc::{AllocError, Global};

/// The regions to which an expression's value may point. `seen` gets the cells that were looked at:
/// by a table that has no more there than the rows, the expression points nowhere else.
pub fn regions(
    alloc: Global,
    lowered: &Lowered,
    rows: &[NumberSet],
    expr: &Expr,
    seen: &mut NumberSet,
) -> Result<NumberSet, AllocError>
    ensures sound { IfOk result (λ set. (r : ℕ) → has r set ≡ true
        → has r (regions_of (terrain_of (lowered_of lowered.now)) (row rows.now) (expression_of expr.now)) ≡ true) }
    ensures whole { IfOk result (λ set. (u : Table) → Limited rows.now seen.new u → (r : ℕ)
        → has r (regions_of (terrain_of (lowered_of lowered.now)) u (expression_of expr.now)) ≡ true → has r set ≡ true) }
    ensures seen { OnOk result (Includes seen.old seen.new) }
{
    let set = gives(alloc, lowered, rows, expr, seen)?;
    Ok(set)
}

/// The cells that an lvalue is read from, or written to. `seen` gets the cells that were looked at.
pub fn cells(
    alloc: Global,
    lowered: &Lowered,
    rows: &[NumberSet],
    lvalue: &Lvalue,
    seen: &mut NumberSet,
) -> Result<NumberSet, AllocError>
    ensures sound { IfOk result (λ set. (r : ℕ) → has r set ≡ true
        → has r (cells_of (terrain_of (lowered_of lowered.now)) (row rows.now) (lvalue_of lvalue.now)) ≡ true) }
    ensures whole { IfOk result (λ set. (u : Table) → Limited rows.now seen.new u → (r : ℕ)
        → has r (cells_of (terrain_of (lowered_of lowered.now)) u (lvalue_of lvalue.now)) ≡ true → has r set ≡ true) }
    ensures seen { OnOk result (Includes seen.old seen.new) }
{
    let set = stores(alloc, lowered, rows, lvalue, seen)?;
    Ok(set)
}

#[cycle(given)]
fn gives(
    alloc: Global,
    lowered: &Lowered,
    rows: &[NumberSet],
    expr: &Expr,
    seen: &mut NumberSet,
) -> Result<NumberSet, AllocError>
    ensures sound { IfOk result (λ set. (r : ℕ) → has r set ≡ true → Gives (terrain_of (lowered_of lowered.now)) (row rows.now) (expression_of expr.now) r) }
    ensures whole { IfOk result (λ set. (u : Table) → Limited rows.now seen.new u → (r : ℕ) → Gives (terrain_of (lowered_of lowered.now)) u (expression_of expr.now) r → has r set ≡ true) }
    ensures seen { OnOk result (Includes seen.old seen.new) }
{
    match expr {
        Expr::Number(..) => Ok(NumberSet::new(alloc)),
        Expr::Address(lvalue) => {
            let found = designates(alloc, lowered, rows, lvalue, seen)?;
            Ok(found)
        }
        Expr::Decay(lvalue) => {
            let arrays = stores(alloc, lowered, rows, lvalue, seen)?;
            let found = elements(alloc, lowered, &arrays)?;
            Ok(found)
        }
        Expr::Read(lvalue) => {
            let cells = stores(alloc, lowered, rows, lvalue, seen)?;
            let found = contents(alloc, rows, &cells, seen)?;
            Ok(found)
        }
        Expr::Convert(of, value) => {
            if keeps_targets(of) {
                let found = gives(alloc, lowered, rows, value, seen)?;
                Ok(found)
            } else {
                Ok(NumberSet::new(alloc))
            }
        }
        Expr::Unary(..) => Ok(NumberSet::new(alloc)),
        Expr::Binary(..) => Ok(NumberSet::new(alloc)),
        Expr::Compare(..) => Ok(NumberSet::new(alloc)),
        Expr::Move { pointer, .. } => {
            let found = gives(alloc, lowered, rows, pointer, seen)?;
            Ok(found)
        }
        Expr::Distance { .. } => Ok(NumberSet::new(alloc)),
    }
}

#[cycle(given)]
fn designates(
    alloc: Global,
    lowered: &Lowered,
    rows: &[NumberSet],
    lvalue: &Lvalue,
    seen: &mut NumberSet,
) -> Result<NumberSet, AllocError>
    ensures sound { IfOk result (λ set. (r : ℕ) → has r set ≡ true → Denotes (terrain_of (lowered_of lowered.now)) (row rows.now) (lvalue_of lvalue.now) r) }
    ensures whole { IfOk result (λ set. (u : Table) → Limited rows.now seen.new u → (r : ℕ) → Denotes (terrain_of (lowered_of lowered.now)) u (lvalue_of lvalue.now) r → has r set ≡ true) }
    ensures seen { OnOk result (Includes seen.old seen.new) }
{
    match lvalue {
        Lvalue::Direct(object, _) => root_of(alloc, lowered, *object),
        Lvalue::Through(pointer, _, _) => {
            let found = gives(alloc, lowered, rows, pointer, seen)?;
            Ok(found)
        }
        Lvalue::Field(base, member, _) => {
            let regions = stores(alloc, lowered, rows, base, seen)?;
            let found = members(alloc, lowered, &regions, *member)?;
            Ok(found)
        }
    }
}

#[cycle(given)]
fn stores(
    alloc: Global,
    lowered: &Lowered,
    rows: &[NumberSet],
    lvalue: &Lvalue,
    seen: &mut NumberSet,
) -> Result<NumberSet, AllocError>
    ensures sound { IfOk result (λ set. (r : ℕ) → has r set ≡ true → Stores (terrain_of (lowered_of lowered.now)) (row rows.now) (lvalue_of lvalue.now) r) }
    ensures whole { IfOk result (λ set. (u : Table) → Limited rows.now seen.new u → (r : ℕ) → Stores (terrain_of (lowered_of lowered.now)) u (lvalue_of lvalue.now) r → has r set ≡ true) }
    ensures seen { OnOk result (Includes seen.old seen.new) }
{
    let regions = designates(alloc, lowered, rows, lvalue, seen)?;
    let found = matching(alloc, lowered, lvalue, &regions)?;
    Ok(found)
}

/// The root region of an object.
fn root_of(alloc: Global, lowered: &Lowered, object: u32) -> Result<NumberSet, AllocError>
    ensures sound { IfOk result (λ set. (r : ℕ) → has r set ≡ true → (terrain_of (lowered_of lowered.now)).root object ≡ r) }
    ensures whole { IfOk result (λ set. (r : ℕ) → (terrain_of (lowered_of lowered.now)).root object ≡ r → has r set ≡ true) }
{
    let mut set = NumberSet::new(alloc);
    set.add(lowered.root_of(object))?;
    Ok(set)
}
