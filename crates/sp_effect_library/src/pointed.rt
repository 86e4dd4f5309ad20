//! Where expressions and lvalues may point, by what was found before.
ghost use Rattle.std.specs.Prelude.{◌≡◌, ℕ, IfOk};
ghost use Rattle.sp_lattice.specs.System.{has};
ghost use Rattle.sp_ir.specs.Terrain.{terrain_of};
ghost use Rattle.sp_ir.specs.Denoted.{regions_of};
ghost use Rattle.sp_ir.specs.View.{expression_of, lvalue_of};
ghost use Rattle.sp_effect_assign.specs.Destinations.{bottom_regions};
ghost use Rattle.sp_effect_scene.specs.Analysed.{setting_of};
ghost use Rattle.sp_effect_scene.specs.View.{analysed_of};

use sp_base_sets::NumberSet;
use sp_effect_scene::Analysis;
use sp_ir::{Expr, Lvalue};
use std::alloc::{AllocError, Global};

/// The regions to which an expression's value may point.
pub fn points_at(alloc: Global, analysis: &Analysis, expr: &Expr) -> Result<NumberSet, AllocError>
    ensures { IfOk result (λ set. (r : ℕ) → has r set ≡
        has r (regions_of (terrain_of (analysed_of analysis.now).program)
        (setting_of (analysed_of analysis.now)).points_to (expression_of expr.now))) }
{
    let mut seen = NumberSet::new(alloc);
    let rows = analysis.pre.rows();
    let set = sp_points_expr::regions(alloc, &analysis.lowered, rows, expr, &mut seen)?;
    Ok(set)
}

/// The regions that the bottom of an lvalue may have.
pub fn bottoms(alloc: Global, analysis: &Analysis, lvalue: &Lvalue) -> Result<NumberSet, AllocError>
    ensures { IfOk result (λ set. (r : ℕ) → has r set ≡
        has r (bottom_regions (terrain_of (analysed_of analysis.now).program)
        (setting_of (analysed_of analysis.now)).points_to (lvalue_of lvalue.now))) }
{
    match lvalue {
        Lvalue::Direct(object, _) => {
            let mut set = NumberSet::new(alloc);
            set.add(analysis.lowered.root_of(*object))?;
            Ok(set)
        }
        Lvalue::Through(pointer, _, _) => points_at(alloc, analysis, pointer),
        Lvalue::Field(of, _, _) => bottoms(alloc, analysis, of),
    }
}
