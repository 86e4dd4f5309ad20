//! What is written at targets, joined to a row.
ghost use Rattle.std.specs.Prelude.{◌≡◌, ℕ, true, length, OnOk};
ghost use Rattle.std.specs.List.Sorted.{IsStrictlyIncreasing};
ghost use Rattle.sp_lattice.specs.System.{has, AllBelow};
ghost use Rattle.sp_value.specs.Slots.{slot_join};
ghost use Rattle.sp_effect_rows.specs.Rows.{joins};
ghost use Rattle.sp_effect_rows.specs.Setting.{count};
ghost use Rattle.sp_effect_rows.specs.Updates.{store_of};
ghost use Rattle.sp_effect_scene.specs.Analysed.{setting_of};
ghost use Rattle.sp_effect_scene.specs.View.{analysed_of};
ghost use Rattle.sp_effect_library.specs.Slots.{landed_slot};
ghost use Rattle.sp_effect_library.specs.declared.written.Written.TheVariants.{Copied, CopiedText};

use crate::written::Written;
use sp_effect_call::{Gives, join_cells};
use sp_effect_entry::join_to;
use sp_effect_scene::Analysis;
use sp_points_rules::is_text;
use sp_value::{Slot, Target};
use std::alloc::{AllocError, Global};

/// Joins to a row what the cells under a region get.
fn join_under<G: Gives>(
    alloc: Global,
    analysis: &Analysis,
    region: u32,
    gives: &G,
    row: &mut [Slot],
    places: &[u32],
) -> Result<(), AllocError>
    requires ascend { IsStrictlyIncreasing places.now }
    requires low { AllBelow (count (setting_of (analysed_of analysis.now))) places.now }
    requires long { length row.old ≡ length places.now }
    ensures { OnOk result ((l : ℕ) → has l places.now ≡ true → store_of places.now row.new l ≡
        slot_join (store_of places.now row.old l)
        (landed_slot (analysed_of analysis.now) Copied (G.slots gives.now) l region)) }
{
    let cells = analysis.under(region);
    join_cells(alloc, analysis, None, region, cells, gives, row, places)?;
    Ok(())
}

/// Joins to a row what a region gets that is text.
fn join_text<G: Gives>(
    alloc: Global,
    analysis: &Analysis,
    region: u32,
    gives: &G,
    row: &mut [Slot],
    places: &[u32],
) -> Result<(), AllocError>
    requires ascend { IsStrictlyIncreasing places.now }
    requires long { length row.old ≡ length places.now }
    ensures { OnOk result ((l : ℕ) → has l places.now ≡ true → store_of places.now row.new l ≡
        slot_join (store_of places.now row.old l)
        (landed_slot (analysed_of analysis.now) CopiedText (G.slots gives.now) l region)) }
{
    if is_text(&analysis.lowered, region) {
        let slot = gives.slot(alloc, region, region)?;
        join_to(alloc, analysis, region, &slot, row, places)?;
        Ok(())
    } else {
        Ok(())
    }
}

/// Joins to a row what is written at a target of a region.
fn join_landed<G: Gives>(
    alloc: Global,
    analysis: &Analysis,
    written: Written,
    region: u32,
    gives: &G,
    row: &mut [Slot],
    places: &[u32],
) -> Result<(), AllocError>
    requires ascend { IsStrictlyIncreasing places.now }
    requires low { AllBelow (count (setting_of (analysed_of analysis.now))) places.now }
    requires long { length row.old ≡ length places.now }
    ensures { OnOk result ((l : ℕ) → has l places.now ≡ true → store_of places.now row.new l ≡
        slot_join (store_of places.now row.old l)
        (landed_slot (analysed_of analysis.now) written (G.slots gives.now) l region)) }
{
    match written {
        Written::Zeros | Written::Filled | Written::Copied => {
            join_under(alloc, analysis, region, gives, row, places)?;
            Ok(())
        }
        Written::CopiedText | Written::PaddedText => {
            join_text(alloc, analysis, region, gives, row, places)?;
            Ok(())
        }
        Written::Unwritten => Ok(()),
    }
}

/// Joins to a row what is written at each target.
pub(crate) fn join_targets<G: Gives>(
    alloc: Global,
    analysis: &Analysis,
    written: Written,
    targets: &[Target],
    gives: &G,
    row: &mut [Slot],
    places: &[u32],
) -> Result<(), AllocError>
    requires ascend { IsStrictlyIncreasing places.now }
    requires low { AllBelow (count (setting_of (analysed_of analysis.now))) places.now }
    requires long { length row.old ≡ length places.now }
    ensures { OnOk result ((l : ℕ) → has l places.now ≡ true → store_of places.now row.new l ≡
        slot_join (store_of places.now row.old l)
        (joins (λ x. landed_slot (analysed_of analysis.now) written (G.slots gives.now) l x.region)
        targets.now)) }
{
    for target in targets {
        join_landed(alloc, analysis, written, target.region, gives, row, places)?;
    }
    Ok(())
}
