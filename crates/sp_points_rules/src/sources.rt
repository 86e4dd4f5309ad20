//! Sets of regions that the rules speak of.
ghost use Rattle.std.specs.Prelude.{◌≡◌, ◌&&◌, ◌||◌, ℕ, List, [], true, false, length, Option, Some, None, slice_get, IfOk, OnOk, nat_eq, take};
ghost use Rattle.sp_types.specs.View.{type_of};
ghost use Rattle.sp_ir.specs.Programs.{lowered_of};
ghost use Rattle.sp_ir.specs.View.{expression_of, lvalue_of};
ghost use Rattle.sp_ir.specs.Formed.{is_scalar};
ghost use Rattle.sp_ir.specs.Functions.{function_at};
ghost use Rattle.sp_base_sets.specs.Sets.{has, Includes, Images, Gains};
ghost use Rattle.sp_points_rules.specs.Sources.{is_of, typed_root, root_where, formal_at, result_of, narrows, Calls, InBase, InSource};
ghost use Rattle.sp_points_rules.specs.SourceView.{base_of, source_of};
ghost use Rattle.sp_points_rules.specs.Gathered.{Finds};
ghost use Rattle.sp_points_rules.specs.Paths.{points_under, leaf_points_under};

use crate::facts::Facts;
use crate::paths::{is_heap_root, is_text, leaf_points_under, points_under, under};
use sp_base_sets::NumberSet;
use sp_ir::{Expr, Lowered, Lvalue};
use sp_points_expr::{cells, contents, keeps_targets, regions};
use sp_types::CType;
use std::alloc::{AllocError, Global};

/// Which objects are taken, by their types.
#[derive(Clone, Copy)]
pub enum Test {
    /// Integers and pointers that keep what they point to.
    KeptScalar,
    /// Integers and pointers.
    AnyScalar,
    /// A struct or union, by its number.
    Aggregate(u32),
}

/// What is taken of a region.
#[derive(Clone, Copy)]
pub enum Only {
    /// The region.
    Every,
    /// The region where its elements are of one byte, or bytes.
    Texts,
    /// The region where it is the whole of what the library allocated.
    HeapRoots,
    /// The cells under it that may hold a pointer, where a value with one comes from outside.
    Pointers,
    /// The cells under it that may hold a pointer by their types.
    PointerLeaves,
}

/// Regions that an expression or an lvalue tells.
#[derive(Drop)]
pub(crate) enum Base<'a> {
    /// Where an expression's value may point.
    Regions(&'a Expr),
    /// Where an lvalue is read and written.
    Cells(&'a Lvalue),
    /// The parameters at one place of the functions that an expression calls.
    Formals(&'a Expr, usize, usize, Test),
    /// The results of the functions that an expression calls.
    Results(&'a Expr, usize, Test),
}

/// Regions that are told, narrowed, and either these or where they point.
#[derive(Drop)]
pub(crate) struct Source<'a> {
    pub(crate) base: Base<'a>,
    pub(crate) only: Only,
    pub(crate) read: bool,
}

/// Whether a type is of integers or pointers.
pub fn is_scalar(of: &CType) -> bool
    ensures { result ≡ is_scalar (type_of of.now) }
{
    match of {
        CType::Int(_) | CType::Pointer(_) => true,
        CType::Void | CType::Float(_) | CType::Struct(_) | CType::Array(_) | CType::Function(_) =>
            false,
    }
}

/// Whether a type passes.
pub fn is_of(test: Test, of: &CType) -> bool
    ensures { result ≡ is_of test (type_of of.now) }
{
    match test {
        Test::KeptScalar => is_scalar(of) && keeps_targets(of),
        Test::AnyScalar => is_scalar(of),
        Test::Aggregate(number) => is_struct(of, number),
    }
}

fn is_struct(of: &CType, number: u32) -> bool
    ensures { result ≡ is_of (Test.Aggregate number) (type_of of.now) }
{
    match of {
        CType::Struct(found) => number == *found,
        CType::Void
        | CType::Int(_)
        | CType::Float(_)
        | CType::Pointer(_)
        | CType::Array(_)
        | CType::Function(_) => false,
    }
}

/// The root of an object whose type passes.
fn root_where(lowered: &Lowered, test: Test, object: Option<u32>) -> Option<u32>
    ensures { result ≡ root_where (lowered_of lowered.now) test object }
{
    let object = object?;
    let found = lowered.objects.get(object as usize)?;
    match &found.of {
        None => None,
        Some(of) => {
            if is_of(test, of) {
                Some(lowered.root_of(object))
            } else {
                None
            }
        }
    }
}

/// The object of a parameter.
fn formal_at(lowered: &Lowered, function: u32, place: usize) -> Option<u32>
    ensures { result ≡ formal_at (lowered_of lowered.now) function place }
{
    let code = lowered.functions.get(function as usize)?;
    code.formals.get(place).copied()
}

/// The object of a function's result.
pub fn result_of(lowered: &Lowered, function: u32) -> Option<u32>
    ensures { result ≡ result_of (lowered_of lowered.now) function }
{
    let code = lowered.functions.get(function as usize)?;
    code.result
}

/// The functions of so many parameters at these regions.
fn callees(
    alloc: Global,
    lowered: &Lowered,
    regions: &NumberSet,
    count: usize,
) -> Result<NumberSet, AllocError>
    ensures { IfOk result (Images (λ r f. function_at (lowered_of lowered.now) r count ≡ Some f) regions.now) }
{
    let mut set = NumberSet::new(alloc);
    let numbers = regions.as_slice();
    for region in numbers {
        let function = lowered.function_at(*region, count);
        set.add_some(function)?;
    }
    Ok(set)
}

/// The parameters at a place of these functions, by their roots.
fn formals(
    alloc: Global,
    lowered: &Lowered,
    functions: &NumberSet,
    place: usize,
    test: Test,
) -> Result<NumberSet, AllocError>
    ensures { IfOk result (Images (λ f r. root_where (lowered_of lowered.now) test (formal_at (lowered_of lowered.now) f place) ≡ Some r) functions.now) }
{
    let mut set = NumberSet::new(alloc);
    let numbers = functions.as_slice();
    for function in numbers {
        let root = root_where(lowered, test, formal_at(lowered, *function, place));
        set.add_some(root)?;
    }
    Ok(set)
}

/// The results of these functions, by their roots.
fn results(
    alloc: Global,
    lowered: &Lowered,
    functions: &NumberSet,
    test: Test,
) -> Result<NumberSet, AllocError>
    ensures { IfOk result (Images (λ f r. root_where (lowered_of lowered.now) test (result_of (lowered_of lowered.now) f) ≡ Some r) functions.now) }
{
    let mut set = NumberSet::new(alloc);
    let numbers = functions.as_slice();
    for function in numbers {
        let root = root_where(lowered, test, result_of(lowered, *function));
        set.add_some(root)?;
    }
    Ok(set)
}

/// Adds a number that passes a test.
fn add_if(set: &mut NumberSet, number: u32, passes: bool) -> Result<(), AllocError>
    ensures { OnOk result (Gains (λ n. (nat_eq number n && passes) ≡ true) set.old set.new) }
{
    if passes {
        set.add(number)?;
    }
    Ok(())
}

/// Adds the cells among these that are under a region and may hold a pointer.
fn add_pointers(
    facts: &Facts<'_>,
    set: &mut NumberSet,
    region: u32,
    cells: &[u32],
) -> Result<(), AllocError>
    ensures { OnOk result ((c : ℕ) → has c set.new ≡ (has c set.old
        || (has c cells.now && points_under (lowered_of facts.now.lowered.now) region c))) }
{
    for cell in cells {
        if points_under(facts.lowered, facts.groups, region, *cell) {
            set.add(*cell)?;
        }
    }
    Ok(())
}

/// The same of those that may hold a pointer by their types.
fn add_pointer_leaves(
    facts: &Facts<'_>,
    set: &mut NumberSet,
    region: u32,
    cells: &[u32],
) -> Result<(), AllocError>
    ensures { OnOk result ((c : ℕ) → has c set.new ≡ (has c set.old
        || (has c cells.now && leaf_points_under (lowered_of facts.now.lowered.now) region c))) }
{
    for cell in cells {
        if leaf_points_under(facts.lowered, facts.groups, region, *cell) {
            set.add(*cell)?;
        }
    }
    Ok(())
}

/// Adds what is taken of a region.
fn narrow_one(
    facts: &Facts<'_>,
    only: Only,
    region: u32,
    set: &mut NumberSet,
) -> Result<(), AllocError>
    ensures { OnOk result (Gains (λ r. narrows (lowered_of facts.now.lowered.now) only region r ≡ true) set.old set.new) }
{
    match only {
        Only::Every => add_if(set, region, true)?,
        Only::Texts => add_if(set, region, is_text(facts.lowered, region))?,
        Only::HeapRoots => add_if(set, region, is_heap_root(facts.lowered, region))?,
        Only::Pointers => {
            let cells = under(facts.lowered, facts.groups, region);
            add_pointers(facts, set, region, cells)?;
        }
        Only::PointerLeaves => {
            let cells = under(facts.lowered, facts.groups, region);
            add_pointer_leaves(facts, set, region, cells)?;
        }
    }
    Ok(())
}

/// What is taken of these regions.
pub(crate) fn narrowed(
    alloc: Global,
    facts: &Facts<'_>,
    only: Only,
    regions: &NumberSet,
) -> Result<NumberSet, AllocError>
    ensures { IfOk result (Images (λ q r. narrows (lowered_of facts.now.lowered.now) only q r ≡ true) regions.now) }
{
    let mut set = NumberSet::new(alloc);
    let numbers = regions.as_slice();
    for region in numbers {
        narrow_one(facts, only, *region, &mut set)?;
    }
    Ok(set)
}

/// The functions that an expression calls.
pub(crate) fn called(
    alloc: Global,
    facts: &Facts<'_>,
    callee: &Expr,
    count: usize,
    seen: &mut NumberSet,
) -> Result<NumberSet, AllocError>
    ensures finds { IfOk result (Finds facts.now.rows.now (λ u f. Calls (lowered_of facts.now.lowered.now) u (expression_of callee.now) count f) seen.new) }
    ensures seen { OnOk result (Includes seen.old seen.new) }
{
    let found = regions(alloc, facts.lowered, facts.rows, callee, seen)?;
    let functions = callees(alloc, facts.lowered, &found, count)?;
    Ok(functions)
}

/// The regions that are told.
fn told(
    alloc: Global,
    facts: &Facts<'_>,
    base: &Base<'_>,
    seen: &mut NumberSet,
) -> Result<NumberSet, AllocError>
    ensures finds { IfOk result (Finds facts.now.rows.now (λ u r. InBase (lowered_of facts.now.lowered.now) u (base_of base.now) r) seen.new) }
    ensures seen { OnOk result (Includes seen.old seen.new) }
{
    match base {
        Base::Regions(expr) => {
            let found = regions(alloc, facts.lowered, facts.rows, expr, seen)?;
            Ok(found)
        }
        Base::Cells(lvalue) => {
            let found = cells(alloc, facts.lowered, facts.rows, lvalue, seen)?;
            Ok(found)
        }
        Base::Formals(callee, count, place, test) => {
            let functions = called(alloc, facts, callee, *count, seen)?;
            let found = formals(alloc, facts.lowered, &functions, *place, *test)?;
            Ok(found)
        }
        Base::Results(callee, count, test) => {
            let functions = called(alloc, facts, callee, *count, seen)?;
            let found = results(alloc, facts.lowered, &functions, *test)?;
            Ok(found)
        }
    }
}

/// One region alone.
pub(crate) fn one_region(alloc: Global, region: u32) -> Result<NumberSet, AllocError>
    ensures { IfOk result (λ set. (r : ℕ) → has r set ≡ nat_eq r region) }
{
    let mut set = NumberSet::new(alloc);
    set.add(region)?;
    Ok(set)
}

/// The regions of a source.
pub(crate) fn set_of(
    alloc: Global,
    facts: &Facts<'_>,
    source: &Source<'_>,
    seen: &mut NumberSet,
) -> Result<NumberSet, AllocError>
    ensures finds { IfOk result (Finds facts.now.rows.now (λ u r. InSource (lowered_of facts.now.lowered.now) u (source_of source.now) r) seen.new) }
    ensures seen { OnOk result (Includes seen.old seen.new) }
{
    let base = told(alloc, facts, &source.base, seen)?;
    let found = narrowed(alloc, facts, source.only, &base)?;
    if source.read {
        let behind = contents(alloc, facts.rows, &found, seen)?;
        Ok(behind)
    } else {
        Ok(found)
    }
}
