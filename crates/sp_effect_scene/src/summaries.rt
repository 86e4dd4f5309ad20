//! What regions are: which stand for more than one place of the machine, and of which type.
ghost use Rattle.std.specs.Prelude.{◌≡◌, option_map};
ghost use Rattle.sp_types.specs.View.{type_of};
ghost use Rattle.sp_ir.specs.Programs.{lowered_of};
ghost use Rattle.sp_effect_scene.specs.Analysed.{owner_of, is_recursive, is_summary, element_of};

use sp_ir::Lowered;
use sp_pre::PointsTo;
use sp_types::CType;

/// The function that the object of a region is local to.
pub fn owner_of(lowered: &Lowered, region: u32) -> Option<u32>
    ensures { result ≡ owner_of (lowered_of lowered.now) region }
{
    let found = lowered.regions.get(region)?;
    let object = lowered.objects.get(found.object as usize)?;
    object.function
}

fn is_recursive(pre: &PointsTo, function: Option<u32>) -> bool
    ensures { result ≡ is_recursive pre.now function }
{
    match function {
        Some(function) => pre.is_recursive(function),
        None => false,
    }
}

/// Whether a region stands for more than one place of the machine.
pub(crate) fn is_summary(lowered: &Lowered, pre: &PointsTo, region: u32) -> bool
    ensures { result ≡ is_summary (lowered_of lowered.now) pre.now region }
{
    lowered.regions.is_summary_shape(region) || is_recursive(pre, owner_of(lowered, region))
}

/// The type of the elements of a region; `None` of one that is kept as bytes.
pub(crate) fn element_of(lowered: &Lowered, region: u32) -> Option<&CType>
    ensures { option_map (λ t. type_of t.now) result ≡ element_of (lowered_of lowered.now) region }
{
    match lowered.regions.get(region) {
        Some(found) => found.element.as_ref(),
        None => None,
    }
}
