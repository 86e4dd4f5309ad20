//! The cells that an access names.
ghost use Rattle.std.specs.Prelude.{◌≡◌, ◌<◌, ℕ, true, false, nat_eq, not, ◌&&◌, ◌||◌, map, IfOk, OnOk, IfSome, IfNone};
ghost use Rattle.std.specs.List.Sorted.{IsStrictlyIncreasing};
ghost use Rattle.sp_lattice.specs.System.{has};
ghost use Rattle.sp_ir.specs.View.{expression_of};
ghost use Rattle.sp_effect_rows.specs.Setting.{count, cell_of};
ghost use Rattle.sp_effect_checks.specs.Cuts.{reads_cell, names_cell, cut_names};
ghost use Rattle.sp_effect_checks.specs.View.{access_of};

use crate::accesses::Access;
use sp_base_sets::NumberSet;
use sp_effect_assign::{Scenery, location_at};
use sp_effect_assume::{direct_region, is_direct};
use sp_ir::Expr;
use std::alloc::{AllocError, Global};

// The location of a region that is a cell and no summary.
fn single<S: Scenery>(scene: &S, region: u32) -> Option<u32>
    ensures some { IfSome result (λ location. (l : ℕ) →
        (nat_eq region (cell_of (S.scene scene.now).setting l)
        && not ((S.scene scene.now).setting.is_summary (cell_of (S.scene scene.now).setting l)))
        ≡ nat_eq l location) }
    ensures none { IfNone result ((l : ℕ) →
        (nat_eq region (cell_of (S.scene scene.now).setting l)
        && not ((S.scene scene.now).setting.is_summary (cell_of (S.scene scene.now).setting l)))
        ≡ false) }
    ensures low { IfSome result (λ location. location < count (S.scene scene.now).setting) }
{
    match location_at(scene, region) {
        Some(location) if !scene.is_summary(location) => Some(location),
        _ => None,
    }
}

/// The location whose cell an expression reads, with no conversion, where that is no summary.
pub(crate) fn read_cell<S: Scenery>(scene: &S, expr: &Expr) -> Option<u32>
    ensures some { IfSome result (λ location. (l : ℕ) →
        reads_cell (S.scene scene.now) (expression_of expr.now) l ≡ nat_eq l location) }
    ensures none { IfNone result ((l : ℕ) →
        reads_cell (S.scene scene.now) (expression_of expr.now) l ≡ false) }
    ensures low { IfSome result (λ location. location < count (S.scene scene.now).setting) }
{
    match expr {
        Expr::Read(lvalue) => {
            if is_direct(lvalue) {
                single(scene, direct_region(scene, lvalue))
            } else {
                None
            }
        }
        Expr::Number(_, _)
        | Expr::Address(_)
        | Expr::Decay(_)
        | Expr::Convert(_, _)
        | Expr::Unary(_, _, _)
        | Expr::Binary(_, _, _, _, _)
        | Expr::Compare(_, _, _)
        | Expr::Move { .. }
        | Expr::Distance { .. } => None,
    }
}

// Adds the location whose cell an expression reads.
fn add_read<S: Scenery>(scene: &S, expr: &Expr, cells: &mut NumberSet) -> Result<(), AllocError>
    requires low { (l : ℕ) → has l cells.old ≡ true → l < count (S.scene scene.now).setting }
    ensures named { OnOk result ((l : ℕ) → has l cells.new ≡
        (reads_cell (S.scene scene.now) (expression_of expr.now) l || has l cells.old)) }
    ensures low { OnOk result ((l : ℕ) → has l cells.new ≡ true
        → l < count (S.scene scene.now).setting) }
{
    match read_cell(scene, expr) {
        Some(location) => {
            cells.add(location)?;
            Ok(())
        }
        None => Ok(()),
    }
}

/// Adds the locations that an access through a pointer may cut.
pub(crate) fn add_named<S: Scenery>(
    scene: &S,
    pointer: &Expr,
    cells: &mut NumberSet,
) -> Result<(), AllocError>
    requires low { (l : ℕ) → has l cells.old ≡ true → l < count (S.scene scene.now).setting }
    ensures named { OnOk result ((l : ℕ) → has l cells.new ≡
        (names_cell (S.scene scene.now) (expression_of pointer.now) l || has l cells.old)) }
    ensures low { OnOk result ((l : ℕ) → has l cells.new ≡ true
        → l < count (S.scene scene.now).setting) }
{
    match pointer {
        Expr::Read(_) => {
            add_read(scene, pointer, cells)?;
            Ok(())
        }
        Expr::Move { pointer, by, .. } => {
            add_read(scene, by, cells)?;
            add_read(scene, pointer, cells)?;
            Ok(())
        }
        Expr::Number(_, _)
        | Expr::Address(_)
        | Expr::Decay(_)
        | Expr::Convert(_, _)
        | Expr::Unary(_, _, _)
        | Expr::Binary(_, _, _, _, _)
        | Expr::Compare(_, _, _)
        | Expr::Distance { .. } => Ok(()),
    }
}

/// The locations that accesses may cut, ascending.
pub fn named_cells<S: Scenery>(
    alloc: Global,
    scene: &S,
    accesses: &[Access<'_>],
) -> Result<Vec<u32>, AllocError>
    ensures ascend { IfOk result (λ cells. IsStrictlyIncreasing cells.items) }
    ensures low { IfOk result (λ cells. (l : ℕ) → has l cells.items ≡ true
        → l < count (S.scene scene.now).setting) }
    ensures named { IfOk result (λ cells. (l : ℕ) → has l cells.items ≡
        cut_names (S.scene scene.now) (map access_of accesses.now) l) }
{
    let mut cells = NumberSet::new(alloc);
    for access in accesses {
        add_named(scene, access.pointer, &mut cells)?;
    }
    Vec::from_slice(alloc, cells.as_slice())
}
