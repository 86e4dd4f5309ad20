//! Which locations a result may hit.
ghost use Rattle.std.specs.Prelude.{◌≡◌, ◌<◌, ◌&&◌, ℕ, true, IfOk, OnOk, cond, ◌++◌, ◌∷◌, []};
ghost use Rattle.std.specs.List.{list_any};
ghost use Rattle.sp_lattice.specs.System.{has, AllBelow};
ghost use Rattle.sp_ir.specs.View.{lvalue_of};
ghost use Rattle.sp_effect_rows.specs.Setting.{count};
ghost use Rattle.sp_effect_rows.specs.Storing.{may_hit};
ghost use Rattle.sp_effect_scene.specs.Analysed.{setting_of};
ghost use Rattle.sp_effect_scene.specs.View.{analysed_of};
ghost use Rattle.sp_effect_call.specs.Copies.{leaf_destination};

use crate::pointed::bottoms;
use sp_effect_call::hits;
use sp_effect_scene::Analysis;
use sp_ir::Lvalue;
use std::alloc::{AllocError, Global};

/// Whether a store at some of these regions goes to a location.
fn any_hits(analysis: &Analysis, to: &Lvalue, regions: &[u32], location: u32) -> bool
    requires { location < count (setting_of (analysed_of analysis.now)) }
    ensures { result ≡ list_any (λ r. (leaf_destination (analysed_of analysis.now)
        (lvalue_of to.now)).hits r location) regions.now }
{
    for region in regions {
        if hits(analysis, to, *region, location) {
            return true;
        }
    }
    false
}

/// Adds a location where a store at some of these regions goes to it.
fn add_if_hit(
    analysis: &Analysis,
    to: &Lvalue,
    regions: &[u32],
    location: u32,
    hit: &mut Vec<u32>,
) -> Result<(), AllocError>
    requires { location < count (setting_of (analysed_of analysis.now)) }
    ensures { OnOk result (hit.new.items ≡ cond (list_any (λ r. (leaf_destination
        (analysed_of analysis.now) (lvalue_of to.now)).hits r location) regions.now)
        (hit.old.items ++ (location ∷ [])) hit.old.items) }
{
    if any_hits(analysis, to, regions, location) {
        hit.push(location)?;
    }
    Ok(())
}

/// Those of these places that a store to an lvalue may hit.
pub(crate) fn hit_among(
    alloc: Global,
    analysis: &Analysis,
    to: &Lvalue,
    places: &[u32],
) -> Result<Vec<u32>, AllocError>
    requires { AllBelow (count (setting_of (analysed_of analysis.now))) places.now }
    ensures { IfOk result (λ hit. (l : ℕ) → has l hit.items ≡ (has l places.now &&
        may_hit (leaf_destination (analysed_of analysis.now) (lvalue_of to.now)) l)) }
{
    let bottoms = bottoms(alloc, analysis, to)?;
    let regions = bottoms.as_slice();
    let mut hit = Vec::new(alloc);
    for place in places {
        add_if_hit(analysis, to, regions, *place, &mut hit)?;
    }
    Ok(hit)
}
