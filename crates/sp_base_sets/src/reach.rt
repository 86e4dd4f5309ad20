//! What lists lead to from some numbers.
ghost use Rattle.std.specs.Prelude.{◌≡◌, ◌↔◌, ◌<◌, ◌∷◌, ℕ, [], true, false, length, slice_index_or, IfOk, OnOk};
ghost use Rattle.sp_base_sets.specs.Sets.{has};
ghost use Rattle.sp_base_sets.specs.Reached.{row, Reached};
ghost use Rattle.sp_base_sets.specs.Walking.{IsListed, Comes};

use crate::number_set::NumberSet;
use std::alloc::{AllocError, Global};

/// The numbers that are reached, in the order in which they came.
#[derive(Drop)]
pub(crate) struct Walk {
    pub(crate) is_reached: Vec<bool>,
    pub(crate) order: Vec<u32>,
}

/// Which numbers lists lead to from some, these among them: a mark for each list.
pub fn reached(alloc: Global, lists: &[NumberSet], starts: &[u32]) -> Result<Vec<bool>, AllocError>
    requires starts { (n : ℕ) → has n starts.now ≡ true → n < length lists.now }
    requires low { (f g : ℕ) → has g (row lists.now f) ≡ true → g < length lists.now }
    ensures length { IfOk result (λ marks. length marks.items ≡ length lists.now) }
    ensures exact { IfOk result (λ marks. (n : ℕ) →
        (slice_index_or marks.items n false ≡ true) ↔ Reached lists.now starts.now n) }
{
    let mut walk = none_reached(alloc, lists.len())?;
    reach_each(&mut walk, starts)?;
    let mut at = 0;
    'walk: while at < walk.order.len() {
        let number = walk.order[at];
        reach_each(&mut walk, lists[number as usize].as_slice())?;
        at += 1;
    }
    Ok(walk.is_reached)
}

fn none_reached(alloc: Global, count: usize) -> Result<Walk, AllocError>
    ensures listed { IfOk result (IsListed count) }
    ensures none { IfOk result (λ walk. walk.order.items ≡ []) }
{
    let mut is_reached = Vec::new(alloc);
    for _ in 0..count {
        is_reached.push(false)?;
    }
    Ok(Walk {
        is_reached,
        order: Vec::new(alloc),
    })
}

/// Reaches a number, where it isn't reached yet.
fn reach(walk: &mut Walk, number: u32) -> Result<(), AllocError>
    requires low { number < length walk.old.is_reached.items }
    requires listed { IsListed (length walk.old.is_reached.items) walk.old }
    ensures listed { OnOk result (IsListed (length walk.old.is_reached.items) walk.new) }
    ensures comes { OnOk result (Comes (number ∷ []) walk.old walk.new) }
{
    if walk.is_reached[number as usize] {
        return Ok(());
    }
    walk.order.push(number)?;
    walk.is_reached[number as usize] = true;
    Ok(())
}

/// Reaches each of these numbers.
fn reach_each(walk: &mut Walk, numbers: &[u32]) -> Result<(), AllocError>
    requires low { (n : ℕ) → has n numbers.now ≡ true → n < length walk.old.is_reached.items }
    requires listed { IsListed (length walk.old.is_reached.items) walk.old }
    ensures listed { OnOk result (IsListed (length walk.old.is_reached.items) walk.new) }
    ensures comes { OnOk result (Comes numbers.now walk.old walk.new) }
{
    for number in numbers {
        reach(walk, *number)?;
    }
    Ok(())
}
