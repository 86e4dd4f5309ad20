//! The cells that are local to each function.
ghost use Rattle.std.specs.Prelude.{◌≡◌, nat_eq, true, Some, IfOk, OnOk};
ghost use Rattle.sp_graph.specs.Rows.{Grows};
ghost use Rattle.sp_effect_scene.specs.View.{analysed_of};
ghost use Rattle.sp_effect_uses.specs.Locals.{AreLocals};

use sp_base_sets::NumberSet;
use sp_effect_scene::{Analysis, owner_of};
use std::alloc::{AllocError, Global};

/// Adds a cell to the set of a function, where there is one.
fn add_local(sets: &mut Vec<NumberSet>, function: Option<u32>, cell: u32) -> Result<(), AllocError>
    ensures { OnOk result (Grows (λ f c. (function ≡ Some f) × (nat_eq c cell ≡ true))
        sets.old.items sets.new.items) }
{
    if let Some(function) = function {
        if (function as usize) < sets.len() {
            sets[function as usize].add(cell)?;
        }
    }
    Ok(())
}

/// For each function the cells that are local to it: of its automatic objects, temporaries, result
/// and formals.
pub fn local_cells(alloc: Global, analysis: &Analysis) -> Result<Vec<NumberSet>, AllocError>
    ensures { IfOk result (λ sets. AreLocals (analysed_of analysis.now) sets.items) }
{
    let mut sets = NumberSet::empty_sets(alloc, analysis.lowered.functions.len())?;
    let cells = analysis.locations.cells.as_slice();
    for cell in cells {
        let function = owner_of(&analysis.lowered, *cell);
        add_local(&mut sets, function, *cell)?;
    }
    Ok(sets)
}
