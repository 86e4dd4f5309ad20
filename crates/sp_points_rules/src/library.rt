//! What functions of the library give and copy (C90 7.10, 7.11).
ghost use Rattle.std.specs.Prelude.{◌≡◌, ◌⊎◌, ℕ, true, length, map, Some, slice_get, option_map, OnOk};
ghost use Rattle.sp_ir.specs.Programs.{lowered_of};
ghost use Rattle.sp_ir.specs.View.{expression_of, lvalue_of};
ghost use Rattle.sp_points_rules.specs.Puts.{given_by, moved_by, Site, First, GivesBack, GivesResult, MovesFrom, Moves, FromOutside};
ghost use Rattle.sp_points_rules.specs.Gathered.{Adds};

use crate::facts::Facts;
use crate::gathered::Gathered;
use crate::rules::{copying, product, product_from};
use crate::sources::{Base, Only, Source};
use crate::structs::keeps;
use sp_ir::{Expr, Lvalue, Routine};
use std::alloc::{AllocError, Global};

/// What a function of the library gives.
#[derive(Clone, Copy)]
pub enum Given {
    /// What it allocated.
    Allocated,
    /// That, or its first argument, where that was allocated.
    Reallocated,
    /// Its first argument.
    Argument,
    /// No pointer.
    NoPointer,
}

/// What a function of the library copies from where its second argument points.
#[derive(Clone, Copy)]
pub enum Moved {
    /// Each cell.
    AllCells,
    /// Text.
    Text,
    /// Nothing.
    NoCells,
}

/// What a function of the library gives.
pub fn given_by(which: Routine) -> Given
    ensures { result ≡ given_by which }
{
    match which {
        Routine::Malloc | Routine::Calloc => Given::Allocated,
        Routine::Realloc => Given::Reallocated,
        Routine::Memset
        | Routine::Memcpy
        | Routine::Memmove
        | Routine::Strcpy
        | Routine::Strncpy
        | Routine::Strcat => Given::Argument,
        Routine::Free | Routine::Exit | Routine::Abort | Routine::Strlen => Given::NoPointer,
    }
}

/// What a function of the library copies.
pub fn moved_by(which: Routine) -> Moved
    ensures { result ≡ moved_by which }
{
    match which {
        Routine::Memcpy | Routine::Memmove => Moved::AllCells,
        Routine::Strcpy | Routine::Strncpy | Routine::Strcat => Moved::Text,
        Routine::Malloc
        | Routine::Calloc
        | Routine::Realloc
        | Routine::Memset
        | Routine::Free
        | Routine::Exit
        | Routine::Abort
        | Routine::Strlen => Moved::NoCells,
    }
}

/// An argument by its place.
fn argument(args: &[Expr], place: usize) -> Option<&Expr>
    ensures { option_map (λ e. expression_of e.now) result ≡ slice_get (map expression_of args.now) place }
{
    args.get(place)
}

/// What was allocated goes to an lvalue.
fn site_to(
    alloc: Global,
    facts: &Facts<'_>,
    to: &Lvalue,
    site: Option<u32>,
    out: &mut Gathered,
) -> Result<(), AllocError>
    ensures { OnOk result (Adds facts.now.rows.now (λ u c r. Site (lowered_of facts.now.lowered.now) u (lvalue_of to.now) site c r) out.old out.new) }
{
    if let Some(site) = site {
        let root = facts.lowered.root_of(site);
        let to = Source {
            base: Base::Cells(to),
            only: Only::Every,
            read: false,
        };
        product_from(alloc, facts, &to, root, out)?;
    }
    Ok(())
}

/// Where an argument points goes to an lvalue.
fn first_to(
    alloc: Global,
    facts: &Facts<'_>,
    only: Only,
    to: &Lvalue,
    arg: Option<&Expr>,
    out: &mut Gathered,
) -> Result<(), AllocError>
    ensures { OnOk result (Adds facts.now.rows.now (λ u c r. First (lowered_of facts.now.lowered.now) u only (lvalue_of to.now) (option_map (λ e. expression_of e.now) arg.entry) c r) out.old out.new) }
{
    if let Some(arg) = arg {
        let to = Source {
            base: Base::Cells(to),
            only: Only::Every,
            read: false,
        };
        let from = Source {
            base: Base::Regions(arg),
            only,
            read: false,
        };
        product(alloc, facts, &to, &from, out)?;
    }
    Ok(())
}

/// What a function of the library gives goes to an lvalue.
fn give_back(
    alloc: Global,
    facts: &Facts<'_>,
    given: Given,
    to: &Lvalue,
    args: &[Expr],
    site: Option<u32>,
    out: &mut Gathered,
) -> Result<(), AllocError>
    ensures { OnOk result (Adds facts.now.rows.now (λ u c r. GivesBack (lowered_of facts.now.lowered.now) u given (lvalue_of to.now) (map expression_of args.now) site c r) out.old out.new) }
{
    match given {
        Given::Allocated => {
            site_to(alloc, facts, to, site, out)?;
            Ok(())
        }
        Given::Reallocated => {
            site_to(alloc, facts, to, site, out)?;
            first_to(alloc, facts, Only::HeapRoots, to, argument(args, 0), out)?;
            Ok(())
        }
        Given::Argument => {
            first_to(alloc, facts, Only::Every, to, argument(args, 0), out)?;
            Ok(())
        }
        Given::NoPointer => Ok(()),
    }
}

/// What a function of the library gives goes to where its result is assigned.
pub(crate) fn give(
    alloc: Global,
    facts: &Facts<'_>,
    given: Given,
    to: &Option<Lvalue>,
    args: &[Expr],
    site: Option<u32>,
    out: &mut Gathered,
) -> Result<(), AllocError>
    ensures { OnOk result (Adds facts.now.rows.now (λ u c r. GivesResult (lowered_of facts.now.lowered.now) u given (option_map lvalue_of to.now) (map expression_of args.now) site c r) out.old out.new) }
{
    match to {
        None => Ok(()),
        Some(to) => {
            if keeps(to) {
                give_back(alloc, facts, given, to, args, site, out)?;
            }
            Ok(())
        }
    }
}

/// What a function of the library copies from one argument to another.
fn move_from(
    alloc: Global,
    facts: &Facts<'_>,
    moved: Moved,
    target: &Expr,
    source: &Expr,
    out: &mut Gathered,
) -> Result<(), AllocError>
    ensures { OnOk result (Adds facts.now.rows.now (λ u c r. MovesFrom (lowered_of facts.now.lowered.now) u moved (expression_of target.now) (expression_of source.now) c r) out.old out.new) }
{
    match moved {
        Moved::AllCells => {
            let to = Source {
                base: Base::Regions(target),
                only: Only::Every,
                read: false,
            };
            let from = Source {
                base: Base::Regions(source),
                only: Only::Every,
                read: false,
            };
            copying(alloc, facts, &to, &from, out)?;
            Ok(())
        }
        Moved::Text => {
            let to = Source {
                base: Base::Regions(target),
                only: Only::Texts,
                read: false,
            };
            let from = Source {
                base: Base::Regions(source),
                only: Only::Texts,
                read: true,
            };
            product(alloc, facts, &to, &from, out)?;
            Ok(())
        }
        Moved::NoCells => Ok(()),
    }
}

/// What a function of the library copies.
pub(crate) fn move_cells(
    alloc: Global,
    facts: &Facts<'_>,
    moved: Moved,
    args: &[Expr],
    out: &mut Gathered,
) -> Result<(), AllocError>
    ensures { OnOk result (Adds facts.now.rows.now (λ u c r. Moves (lowered_of facts.now.lowered.now) u moved (slice_get (map expression_of args.now) 0) (slice_get (map expression_of args.now) 1) c r) out.old out.new) }
{
    match argument(args, 0) {
        None => Ok(()),
        Some(target) => match argument(args, 1) {
            None => Ok(()),
            Some(source) => {
                move_from(alloc, facts, moved, target, source, out)?;
                Ok(())
            }
        },
    }
}

/// What comes from a function that isn't defined.
pub(crate) fn from_outside(
    alloc: Global,
    facts: &Facts<'_>,
    to: &Option<Lvalue>,
    site: Option<u32>,
    out: &mut Gathered,
) -> Result<(), AllocError>
    ensures { OnOk result (Adds facts.now.rows.now (λ u c r. FromOutside (lowered_of facts.now.lowered.now) u (option_map lvalue_of to.now) site c r) out.old out.new) }
{
    match to {
        None => Ok(()),
        Some(to) => match site {
            None => Ok(()),
            Some(site) => {
                let root = facts.lowered.root_of(site);
                let to = Source {
                    base: Base::Cells(to),
                    only: Only::Pointers,
                    read: false,
                };
                product_from(alloc, facts, &to, root, out)?;
                Ok(())
            }
        },
    }
}
