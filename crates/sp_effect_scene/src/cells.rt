//! The locations of a program.
ghost use Rattle.std.specs.Prelude.{◌≡◌, ◌≤◌, ◌++◌, ◌∷◌, [], cond, length, IfOk, OnOk};
ghost use Rattle.sp_ir.specs.Regions.{is_cell_at};
ghost use Rattle.sp_ir.specs.Programs.{lowered_of};
ghost use Rattle.sp_effect_scene.specs.Analysed.{locations_of};

use sp_ir::Lowered;
use sp_value::Locations;
use std::alloc::{AllocError, Global};

/// Adds a region where it is a cell.
fn push_cell(cells: &mut Vec<u32>, lowered: &Lowered, region: u32) -> Result<(), AllocError>
    ensures { OnOk result (cells.new.items ≡ cells.old.items
        ++ cond (is_cell_at (lowered_of lowered.now).regions region) (region ∷ []) []) }
{
    if lowered.regions.is_cell(region) {
        cells.push(region)?;
    }
    Ok(())
}

/// The cells, in the order of regions.
fn cells_of(alloc: Global, lowered: &Lowered) -> Result<Vec<u32>, AllocError>
    requires { length (lowered_of lowered.now).regions ≤ 200000 }
    ensures { IfOk result (λ cells. cells.items ≡ locations_of (lowered_of lowered.now)) }
{
    let mut cells = Vec::new(alloc);
    for region in 0..lowered.regions.len() as u32 {
        push_cell(&mut cells, lowered, region)?;
    }
    Ok(cells)
}

/// The locations: the cells, and no pack.
pub(crate) fn locations_of(alloc: Global, lowered: &Lowered) -> Result<Locations, AllocError>
    requires { length (lowered_of lowered.now).regions ≤ 200000 }
    ensures { IfOk result (λ locations.
        locations.cells.items ≡ locations_of (lowered_of lowered.now)) }
{
    let cells = cells_of(alloc, lowered)?;
    Ok(Locations {
        cells,
        packs: Vec::new(alloc),
    })
}
