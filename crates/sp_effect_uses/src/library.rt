//! The cells that routines of the library write, and those from which they copy.
ghost use Rattle.std.specs.Prelude.{◌≡◌, ◌&&◌, ℕ, nat_eq, map, IfOk, OnOk};
ghost use Rattle.std.specs.List.{list_any};
ghost use Rattle.sp_lattice.specs.System.{has};
ghost use Rattle.sp_ir.specs.Programs.{lowered_of};
ghost use Rattle.sp_ir.specs.Terrain.{terrain_of};
ghost use Rattle.sp_ir.specs.View.{expression_of};
ghost use Rattle.sp_points_rules.specs.Paths.{reaches, pairs, is_text};
ghost use Rattle.sp_effect_rows.specs.Storing.{may_hit};
ghost use Rattle.sp_effect_scene.specs.Analysed.{setting_of};
ghost use Rattle.sp_effect_scene.specs.View.{analysed_of};
ghost use Rattle.sp_effect_library.specs.Written.{site_regions, may_come, lands, read_text};
ghost use Rattle.sp_effect_library.specs.Effects.{written_to, moved_reads};
ghost use Rattle.sp_effect_uses.specs.Parts.{Adds, AddsAt, among, argument_points, aimed_at};

use crate::structs::{add_all_under, add_under};
use sp_base_sets::NumberSet;
use sp_effect_library::{Written, points_at};
use sp_effect_scene::Analysis;
use sp_ir::{Expr, Lowered};
use sp_points_rules::{is_text, pairs};
use std::alloc::{AllocError, Global};

// ---- regions

/// The regions to which an argument may point: none where there is no such argument.
fn argument_points(
    alloc: Global,
    analysis: &Analysis,
    args: &[Expr],
    number: usize,
) -> Result<NumberSet, AllocError>
    ensures { IfOk result (λ set. (r : ℕ) → has r set ≡
        has r (argument_points (analysed_of analysis.now) (map expression_of args.now) number)) }
{
    match args.get(number) {
        Some(arg) => points_at(alloc, analysis, arg),
        None => Ok(NumberSet::new(alloc)),
    }
}

/// The block of a site.
fn site_regions(
    alloc: Global,
    lowered: &Lowered,
    site: Option<u32>,
) -> Result<NumberSet, AllocError>
    ensures { IfOk result (λ set. (r : ℕ) →
        has r set ≡ has r (site_regions (terrain_of (lowered_of lowered.now)) site)) }
{
    let mut set = NumberSet::new(alloc);
    match site {
        Some(object) => {
            set.add(lowered.root_of(object))?;
            Ok(set)
        }
        None => Ok(set),
    }
}

/// The regions at which a routine may write.
fn aimed_at(
    alloc: Global,
    analysis: &Analysis,
    written: Written,
    args: &[Expr],
    site: Option<u32>,
) -> Result<NumberSet, AllocError>
    ensures { IfOk result (λ set. (r : ℕ) → has r set ≡
        has r (aimed_at (analysed_of analysis.now) written (map expression_of args.now) site)) }
{
    match written {
        Written::Zeros => site_regions(alloc, &analysis.lowered, site),
        Written::Filled | Written::Copied | Written::CopiedText | Written::PaddedText =>
            argument_points(alloc, analysis, args, 0),
        Written::Unwritten => Ok(NumberSet::new(alloc)),
    }
}

// ---- text

/// Whether some of these regions is text.
fn any_text(lowered: &Lowered, regions: &[u32]) -> bool
    ensures { result ≡ list_any (is_text (lowered_of lowered.now)) regions.now }
{
    for region in regions {
        if is_text(lowered, *region) {
            return true;
        }
    }
    false
}

/// Adds a region that is text.
fn add_text(lowered: &Lowered, region: u32, set: &mut NumberSet) -> Result<(), AllocError>
    ensures { OnOk result (Adds
        (λ r. is_text (lowered_of lowered.now) region && nat_eq region r) set.old set.new) }
{
    if is_text(lowered, region) {
        set.add(region)?;
    }
    Ok(())
}

/// Adds those of these regions that are text.
fn add_all_text(lowered: &Lowered, regions: &[u32], set: &mut NumberSet) -> Result<(), AllocError>
    ensures { OnOk result (Adds
        (λ r. list_any (λ q. is_text (lowered_of lowered.now) q && nat_eq q r) regions.now)
        set.old set.new) }
{
    for region in regions {
        add_text(lowered, *region, set)?;
    }
    Ok(())
}

// ---- what is written

/// Whether something may come to where a routine writes.
fn may_come(
    alloc: Global,
    analysis: &Analysis,
    written: Written,
    args: &[Expr],
) -> Result<bool, AllocError>
    ensures { IfOk result (λ comes. comes ≡ may_come (analysed_of analysis.now).program
        (setting_of (analysed_of analysis.now)).points_to written (map expression_of args.now)) }
{
    match written {
        Written::Zeros | Written::Filled | Written::PaddedText => Ok(true),
        Written::Copied => {
            let sources = argument_points(alloc, analysis, args, 1)?;
            Ok(!sources.as_slice().is_empty())
        }
        Written::CopiedText => {
            let sources = argument_points(alloc, analysis, args, 1)?;
            Ok(any_text(&analysis.lowered, sources.as_slice()))
        }
        Written::Unwritten => Ok(false),
    }
}

/// Adds the cells at these regions to which a routine writes.
fn add_landed(
    analysis: &Analysis,
    written: Written,
    regions: &[u32],
    set: &mut NumberSet,
) -> Result<(), AllocError>
    ensures { OnOk result (Adds (λ c. list_any
        (λ r. lands (analysed_of analysis.now).program written r c) regions.now)
        set.old set.new) }
{
    match written {
        Written::Zeros | Written::Filled | Written::Copied => {
            add_all_under(analysis, regions, set)?;
            Ok(())
        }
        Written::CopiedText | Written::PaddedText => {
            add_all_text(&analysis.lowered, regions, set)?;
            Ok(())
        }
        Written::Unwritten => Ok(()),
    }
}

/// Adds the cells to which a routine may write.
pub(crate) fn add_written(
    alloc: Global,
    analysis: &Analysis,
    written: Written,
    args: &[Expr],
    site: Option<u32>,
    set: &mut NumberSet,
) -> Result<(), AllocError>
    ensures { OnOk result (AddsAt (analysed_of analysis.now) (may_hit (written_to
        (analysed_of analysis.now) (map expression_of args.now) site written)) set.old set.new) }
{
    if !may_come(alloc, analysis, written, args)? {
        return Ok(());
    }
    let regions = aimed_at(alloc, analysis, written, args, site)?;
    add_landed(analysis, written, regions.as_slice(), set)?;
    Ok(())
}

// ---- what is read

/// Whether a region pairs with some of these.
fn any_pairs(lowered: &Lowered, targets: &[u32], source: u32) -> bool
    ensures { result ≡ list_any (λ d. pairs (lowered_of lowered.now) d source) targets.now }
{
    for target in targets {
        if pairs(lowered, *target, source) {
            return true;
        }
    }
    false
}

/// Adds the cells under a region that pairs with some of these.
fn add_paired(
    analysis: &Analysis,
    targets: &[u32],
    source: u32,
    set: &mut NumberSet,
) -> Result<(), AllocError>
    ensures { OnOk result (Adds (λ r.
        list_any (λ d. pairs (analysed_of analysis.now).program d source) targets.now
        && reaches (analysed_of analysis.now).program source r) set.old set.new) }
{
    if any_pairs(&analysis.lowered, targets, source) {
        add_under(analysis, source, set)?;
    }
    Ok(())
}

/// Adds the cells under those of some regions that pair with some of others. Each may have to be
/// compared with each: all else is linear in these lists.
fn add_all_paired(
    analysis: &Analysis,
    targets: &[u32],
    sources: &[u32],
    set: &mut NumberSet,
) -> Result<(), AllocError>
    ensures { OnOk result (Adds (λ r. list_any (λ s.
        list_any (λ d. pairs (analysed_of analysis.now).program d s) targets.now
        && reaches (analysed_of analysis.now).program s r) sources.now) set.old set.new) }
{
    for source in sources {
        add_paired(analysis, targets, *source, set)?;
    }
    Ok(())
}

/// Adds text where it goes to text.
fn add_read_text(
    lowered: &Lowered,
    targets: &[u32],
    sources: &[u32],
    set: &mut NumberSet,
) -> Result<(), AllocError>
    ensures { OnOk result (Adds (among
        (read_text (lowered_of lowered.now) targets.now sources.now)) set.old set.new) }
{
    if any_text(lowered, targets) {
        add_all_text(lowered, sources, set)?;
    }
    Ok(())
}

/// Adds the cells from which a routine copies.
pub(crate) fn add_moved(
    alloc: Global,
    analysis: &Analysis,
    written: Written,
    args: &[Expr],
    set: &mut NumberSet,
) -> Result<(), AllocError>
    ensures { OnOk result (Adds (among (moved_reads (analysed_of analysis.now)
        (map expression_of args.now) written)) set.old set.new) }
{
    let targets = argument_points(alloc, analysis, args, 0)?;
    let sources = argument_points(alloc, analysis, args, 1)?;
    match written {
        Written::Copied => {
            add_all_paired(analysis, targets.as_slice(), sources.as_slice(), set)?;
            Ok(())
        }
        Written::CopiedText | Written::PaddedText => {
            let lowered = &analysis.lowered;
            add_read_text(lowered, targets.as_slice(), sources.as_slice(), set)?;
            Ok(())
        }
        Written::Zeros | Written::Filled | Written::Unwritten => Ok(()),
    }
}
