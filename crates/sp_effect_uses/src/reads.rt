//! The cells that expressions read.
ghost use Rattle.std.specs.Prelude.{◌≡◌, ℕ, IfOk, OnOk};
ghost use Rattle.sp_lattice.specs.System.{has};
ghost use Rattle.sp_ir.specs.View.{expression_of, lvalue_of};
ghost use Rattle.sp_effect_scene.specs.View.{analysed_of};
ghost use Rattle.sp_effect_uses.specs.Parts.{Adds, among, stands_at, read_by, found_by};

use sp_base_sets::NumberSet;
use sp_effect_scene::Analysis;
use sp_ir::{Expr, Lvalue};
use std::alloc::{AllocError, Global};

/// The cells at which an lvalue may stand.
pub(crate) fn stands_at(
    alloc: Global,
    analysis: &Analysis,
    lvalue: &Lvalue,
) -> Result<NumberSet, AllocError>
    ensures { IfOk result (λ set. (r : ℕ) →
        has r set ≡ has r (stands_at (analysed_of analysis.now) (lvalue_of lvalue.now))) }
{
    let mut seen = NumberSet::new(alloc);
    let rows = analysis.pre.rows();
    let set = sp_points_expr::cells(alloc, &analysis.lowered, rows, lvalue, &mut seen)?;
    Ok(set)
}

/// Adds the cells at which an lvalue may stand.
fn add_cells(
    alloc: Global,
    analysis: &Analysis,
    lvalue: &Lvalue,
    set: &mut NumberSet,
) -> Result<(), AllocError>
    ensures { OnOk result (Adds
        (among (stands_at (analysed_of analysis.now) (lvalue_of lvalue.now))) set.old set.new) }
{
    let cells = stands_at(alloc, analysis, lvalue)?;
    set.add_all(cells.as_slice())?;
    Ok(())
}

/// Adds the cells that an expression reads.
#[cycle(reads)]
pub(crate) fn add_uses(
    alloc: Global,
    analysis: &Analysis,
    expr: &Expr,
    set: &mut NumberSet,
) -> Result<(), AllocError>
    ensures { OnOk result (Adds
        (among (read_by (analysed_of analysis.now) (expression_of expr.now))) set.old set.new) }
{
    match expr {
        Expr::Number(..) => Ok(()),
        Expr::Address(lvalue) | Expr::Decay(lvalue) => {
            add_pointer_uses(alloc, analysis, lvalue, set)?;
            Ok(())
        }
        Expr::Read(lvalue) => {
            add_cells(alloc, analysis, lvalue, set)?;
            add_pointer_uses(alloc, analysis, lvalue, set)?;
            Ok(())
        }
        Expr::Convert(_, value) | Expr::Unary(_, _, value) => {
            add_uses(alloc, analysis, value, set)?;
            Ok(())
        }
        Expr::Binary(_, _, left, right, _) => {
            add_uses(alloc, analysis, left, set)?;
            add_uses(alloc, analysis, right, set)?;
            Ok(())
        }
        Expr::Compare(_, left, right) => {
            add_uses(alloc, analysis, left, set)?;
            add_uses(alloc, analysis, right, set)?;
            Ok(())
        }
        Expr::Move { pointer, by, .. } => {
            add_uses(alloc, analysis, pointer, set)?;
            add_uses(alloc, analysis, by, set)?;
            Ok(())
        }
        Expr::Distance { left, right, .. } => {
            add_uses(alloc, analysis, left, set)?;
            add_uses(alloc, analysis, right, set)?;
            Ok(())
        }
    }
}

/// Adds the cells that are read to find an lvalue.
#[cycle(reads)]
pub(crate) fn add_pointer_uses(
    alloc: Global,
    analysis: &Analysis,
    lvalue: &Lvalue,
    set: &mut NumberSet,
) -> Result<(), AllocError>
    ensures { OnOk result (Adds
        (among (found_by (analysed_of analysis.now) (lvalue_of lvalue.now))) set.old set.new) }
{
    match lvalue {
        Lvalue::Direct(..) => Ok(()),
        Lvalue::Through(pointer, _, _) => {
            add_uses(alloc, analysis, pointer, set)?;
            Ok(())
        }
        Lvalue::Field(of, _, _) => {
            add_pointer_uses(alloc, analysis, of, set)?;
            Ok(())
        }
    }
}
