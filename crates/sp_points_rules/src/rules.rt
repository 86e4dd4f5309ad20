//! The two kinds of rules: all regions of one source go to all cells of another, and cells take over
//! what corresponding cells point to.
ghost use Rattle.std.specs.Prelude.{◌≡◌, ◌<◌, ◌⊎◌, ℕ, List, true, length, Some, slice_index, IfOk, OnOk};
ghost use Rattle.sp_ir.specs.Programs.{lowered_of};
ghost use Rattle.sp_base_sets.specs.Sets.{has};
ghost use Rattle.sp_points_rules.specs.Paths.{mirrored, pairs};
ghost use Rattle.sp_points_rules.specs.Puts.{Product, Copies, all_of, only_of};
ghost use Rattle.sp_points_rules.specs.Sources.{region};
ghost use Rattle.sp_points_rules.specs.SourceView.{source_of};
ghost use Rattle.sp_points_rules.specs.Gathered.{Adds};
ghost use Rattle.sp_points_rules.specs.Copying.{TakesOver, Mirrors, MirrorsBack, CopiesPair, CopiesFrom};

use crate::facts::Facts;
use crate::gathered::Gathered;
use crate::paths::{mirrored, pairs, under};
use crate::sources::{Only, Source, narrowed, one_region, set_of};
use sp_base_sets::NumberSet;
use sp_points_expr::contents;
use std::alloc::{AllocError, Global};

/// Every region of the one source goes to every cell of the other.
pub(crate) fn product(
    alloc: Global,
    facts: &Facts<'_>,
    to: &Source<'_>,
    from: &Source<'_>,
    out: &mut Gathered,
) -> Result<(), AllocError>
    ensures { OnOk result (Adds facts.now.rows.now (λ u c r. Product (lowered_of facts.now.lowered.now) u (source_of to.now) (source_of from.now) c r) out.old out.new) }
{
    let rows = set_of(alloc, facts, to, &mut out.seen)?;
    let numbers = set_of(alloc, facts, from, &mut out.seen)?;
    out.put(rows, numbers)?;
    Ok(())
}

/// One region goes to every cell of a source.
pub(crate) fn product_from(
    alloc: Global,
    facts: &Facts<'_>,
    to: &Source<'_>,
    from: u32,
    out: &mut Gathered,
) -> Result<(), AllocError>
    ensures { OnOk result (Adds facts.now.rows.now (λ u c r. Product (lowered_of facts.now.lowered.now) u (source_of to.now) (all_of (region from)) c r) out.old out.new) }
{
    let rows = set_of(alloc, facts, to, &mut out.seen)?;
    let numbers = one_region(alloc, from)?;
    out.put(rows, numbers)?;
    Ok(())
}

/// Every region of a source goes to one cell.
pub(crate) fn product_to(
    alloc: Global,
    facts: &Facts<'_>,
    to: u32,
    from: &Source<'_>,
    out: &mut Gathered,
) -> Result<(), AllocError>
    ensures { OnOk result (Adds facts.now.rows.now (λ u c r. Product (lowered_of facts.now.lowered.now) u (all_of (region to)) (source_of from.now) c r) out.old out.new) }
{
    let rows = one_region(alloc, to)?;
    let numbers = set_of(alloc, facts, from, &mut out.seen)?;
    out.put(rows, numbers)?;
    Ok(())
}

/// One region goes to every cell under another that may hold a pointer by its type.
pub(crate) fn pointers_from(
    alloc: Global,
    facts: &Facts<'_>,
    to: u32,
    from: u32,
    out: &mut Gathered,
) -> Result<(), AllocError>
    ensures { OnOk result (Adds facts.now.rows.now (λ u c r. Product (lowered_of facts.now.lowered.now) u (only_of Only.PointerLeaves (region to)) (all_of (region from)) c r) out.old out.new) }
{
    let above = one_region(alloc, to)?;
    let rows = narrowed(alloc, facts, Only::PointerLeaves, &above)?;
    let numbers = one_region(alloc, from)?;
    out.put(rows, numbers)?;
    Ok(())
}

/// A cell takes over what another points to.
fn take_over(
    alloc: Global,
    facts: &Facts<'_>,
    cell: u32,
    source: u32,
    out: &mut Gathered,
) -> Result<(), AllocError>
    ensures { OnOk result (Adds facts.now.rows.now (λ u c r. TakesOver u cell source c r) out.old out.new) }
{
    let rows = one_region(alloc, cell)?;
    let held = one_region(alloc, source)?;
    let numbers = contents(alloc, facts.rows, &held, &mut out.seen)?;
    out.put(rows, numbers)?;
    Ok(())
}

/// A cell under the target takes over what corresponds to it under the source.
fn mirror(
    alloc: Global,
    facts: &Facts<'_>,
    target: u32,
    source: u32,
    cell: u32,
    out: &mut Gathered,
) -> Result<(), AllocError>
    ensures { OnOk result (Adds facts.now.rows.now (λ u c r. Mirrors (lowered_of facts.now.lowered.now) u target source cell c r) out.old out.new) }
{
    if let Some(other) = mirrored(facts.lowered, target, source, cell) {
        take_over(alloc, facts, cell, other, out)?;
    }
    Ok(())
}

/// What corresponds under the target takes over what a cell under the source points to.
fn mirror_back(
    alloc: Global,
    facts: &Facts<'_>,
    target: u32,
    source: u32,
    cell: u32,
    out: &mut Gathered,
) -> Result<(), AllocError>
    ensures { OnOk result (Adds facts.now.rows.now (λ u c r. MirrorsBack (lowered_of facts.now.lowered.now) u target source cell c r) out.old out.new) }
{
    if let Some(other) = mirrored(facts.lowered, source, target, cell) {
        take_over(alloc, facts, other, cell, out)?;
    }
    Ok(())
}

fn mirror_each(
    alloc: Global,
    facts: &Facts<'_>,
    target: u32,
    source: u32,
    cells: &[u32],
    out: &mut Gathered,
) -> Result<(), AllocError>
    ensures { OnOk result (Adds facts.now.rows.now (λ u c r. (k : ℕ) × (k < length cells.now) × Mirrors (lowered_of facts.now.lowered.now) u target source (slice_index cells.now k) c r) out.old out.new) }
{
    for cell in cells {
        mirror(alloc, facts, target, source, *cell, out)?;
    }
    Ok(())
}

fn mirror_back_each(
    alloc: Global,
    facts: &Facts<'_>,
    target: u32,
    source: u32,
    cells: &[u32],
    out: &mut Gathered,
) -> Result<(), AllocError>
    ensures { OnOk result (Adds facts.now.rows.now (λ u c r. (k : ℕ) × (k < length cells.now) × MirrorsBack (lowered_of facts.now.lowered.now) u target source (slice_index cells.now k) c r) out.old out.new) }
{
    for cell in cells {
        mirror_back(alloc, facts, target, source, *cell, out)?;
    }
    Ok(())
}

/// The cells of a region take over what those of another point to, where the two match.
fn copy_pair(
    alloc: Global,
    facts: &Facts<'_>,
    target: u32,
    source: u32,
    out: &mut Gathered,
) -> Result<(), AllocError>
    ensures { OnOk result (Adds facts.now.rows.now (λ u c r. CopiesPair (lowered_of facts.now.lowered.now) u target source c r) out.old out.new) }
{
    if pairs(facts.lowered, target, source) {
        copy_matching(alloc, facts, target, source, out)?;
    }
    Ok(())
}

fn copy_matching(
    alloc: Global,
    facts: &Facts<'_>,
    target: u32,
    source: u32,
    out: &mut Gathered,
) -> Result<(), AllocError>
    requires { pairs (lowered_of facts.now.lowered.now) target source ≡ true }
    ensures { OnOk result (Adds facts.now.rows.now (λ u c r. CopiesPair (lowered_of facts.now.lowered.now) u target source c r) out.old out.new) }
{
    let cells = under(facts.lowered, facts.groups, target);
    mirror_each(alloc, facts, target, source, cells, out)?;
    let others = under(facts.lowered, facts.groups, source);
    mirror_back_each(alloc, facts, target, source, others, out)?;
    Ok(())
}

fn copy_from_each(
    alloc: Global,
    facts: &Facts<'_>,
    target: u32,
    sources: &[u32],
    out: &mut Gathered,
) -> Result<(), AllocError>
    ensures { OnOk result (Adds facts.now.rows.now (λ u c r. CopiesFrom (lowered_of facts.now.lowered.now) u target sources.now c r) out.old out.new) }
{
    for source in sources {
        copy_pair(alloc, facts, target, *source, out)?;
    }
    Ok(())
}

fn copy_to_each(
    alloc: Global,
    facts: &Facts<'_>,
    targets: &[u32],
    sources: &[u32],
    out: &mut Gathered,
) -> Result<(), AllocError>
    ensures { OnOk result (Adds facts.now.rows.now (λ u c r. (k : ℕ) × (k < length targets.now) × CopiesFrom (lowered_of facts.now.lowered.now) u (slice_index targets.now k) sources.now c r) out.old out.new) }
{
    for target in targets {
        copy_from_each(alloc, facts, *target, sources, out)?;
    }
    Ok(())
}

/// The cells of the regions of one source take over what those of another's point to, cell by cell,
/// where the two match.
pub(crate) fn copying(
    alloc: Global,
    facts: &Facts<'_>,
    to: &Source<'_>,
    from: &Source<'_>,
    out: &mut Gathered,
) -> Result<(), AllocError>
    ensures { OnOk result (Adds facts.now.rows.now (λ u c r. Copies (lowered_of facts.now.lowered.now) u (source_of to.now) (source_of from.now) c r) out.old out.new) }
{
    let targets = set_of(alloc, facts, to, &mut out.seen)?;
    let sources = set_of(alloc, facts, from, &mut out.seen)?;
    copy_to_each(alloc, facts, targets.as_slice(), sources.as_slice(), out)?;
    Ok(())
}
