//! Finds the dependencies of a system.
ghost use Rattle.std.specs.Prelude.{◌≤◌, ◌<◌, ◌≡◌, ◌+◌, [], true, length, nat_eq, IfOk, IfErr, OnOk};
ghost use Rattle.std.specs.List.{IsDistinct};
ghost use Rattle.sp_lattice.specs.System.{AllBelow, has};
ghost use Rattle.sp_deps.specs.Rows.{total, most_dependencies};
ghost use Rattle.sp_deps.specs.Open.{AreOpen};
ghost use Rattle.sp_deps.specs.Answer.{AreDependencies};
ghost use Rattle.sp_deps.specs.Cause.{IsCause};
ghost use Rattle.sp_deps.specs.inner.Progress.{IsExcess, AreRows, AreBefore, AreSound, AreUpTo, Gains, GainsUse, is_done};
ghost use Rattle.sp_deps.specs.inner.Stretches.{AreReady};
ghost use Rattle.sp_deps.specs.inner.Walk.{IsFresh, IsFound, AreKnown};
ghost use Rattle.sp_deps.specs.inner.Users.{AreUsers};

use crate::earlier::Earlier;
use crate::stretches::{Stretches, heads_of, touching};
use crate::triples::{DepError, Deps, Growing, MOST_DEPENDENCIES};
use crate::users::users;
use crate::walk::{Walk, fresh_walk, take_found, walk_back};
use sp_lattice::System;
use std::alloc::Global;

/// The dependencies of `system`.
///
/// `TooMany` comes exactly where there are more than [`MOST_DEPENDENCIES`].
pub fn dependencies<S: System>(alloc: Global, system: &S) -> Result<Deps, DepError>
    ensures exact { IfOk result (AreDependencies (S.meaning system.now)) }
    ensures few { IfOk result (λ deps. total deps ≤ most_dependencies) }
    ensures refused { IfErr result (IsCause (S.meaning system.now)) }
{
    let deps = dependencies_with(alloc, system, &[])?;
    Ok(deps)
}

/// The dependencies of `system`, as [`dependencies`] tells them, but faster: `open` marks nodes into which every
/// edge passes every location. Walks needn't ask there what passes.
pub fn dependencies_with<S: System>(
    alloc: Global,
    system: &S,
    open: &[bool],
) -> Result<Deps, DepError>
    requires { AreOpen (S.meaning system.now) open.now }
    ensures exact { IfOk result (AreDependencies (S.meaning system.now)) }
    ensures few { IfOk result (λ deps. total deps ≤ most_dependencies) }
    ensures refused { IfErr result (IsCause (S.meaning system.now)) }
{
    let users = users(alloc, system)?;
    let heads = heads_of(alloc, system, open)?;
    let touching = touching(alloc, system, &heads)?;
    let mut stretches = Stretches {
        heads,
        is_passed: vec![in alloc; true; system.nodes() as usize]?,
    };
    let mut walk = fresh_walk(alloc, system.nodes())?;
    let mut earlier = Earlier::none(alloc, system.nodes())?;
    let mut deps = Growing::none(alloc, system.nodes());
    'locations: for location in 0..system.locations() {
        let targets = users.row(location as usize);
        let touched = touching.row(location as usize);
        earlier.clear();
        stretches.touch(touched);
        add_location(
            alloc,
            system,
            &mut walk,
            &mut earlier,
            &stretches,
            &mut deps,
            location,
            targets,
        )?;
        stretches.leave(touched);
    }
    let laid = Deps::laid(alloc, deps, system.locations())?;
    Ok(laid)
}

/// Adds the dependencies of all uses of one location, where those of the lesser locations are there.
fn add_location<S: System>(
    alloc: Global,
    system: &S,
    walk: &mut Walk,
    earlier: &mut Earlier,
    stretches: &Stretches,
    deps: &mut Growing,
    location: u32,
    targets: &[u32],
) -> Result<(), DepError>
    requires location { location < (S.meaning system.now).locations }
    requires targets { AreUsers (S.meaning system.now) location targets.now }
    requires fresh { IsFresh (S.meaning system.now).nodes walk.old }
    requires known { AreKnown (S.meaning system.now) location earlier.old }
    requires ready { AreReady (S.meaning system.now) location stretches.now }
    requires done { AreUpTo (S.meaning system.now) deps.old (is_done location []) }
    ensures fresh { OnOk result (IsFresh (S.meaning system.now).nodes walk.new) }
    ensures places { OnOk result (length earlier.new.place.items ≡ (S.meaning system.now).nodes) }
    ensures done { OnOk result (AreUpTo (S.meaning system.now) deps.new (is_done (location + 1) [])) }
    ensures refused { IfErr result (IsCause (S.meaning system.now)) }
{
    for to in targets {
        add_use(alloc, system, walk, earlier, stretches, deps, location, *to)?;
    }
    Ok(())
}

/// Adds the dependencies of one use.
fn add_use<S: System>(
    alloc: Global,
    system: &S,
    walk: &mut Walk,
    earlier: &mut Earlier,
    stretches: &Stretches,
    deps: &mut Growing,
    location: u32,
    to: u32,
) -> Result<(), DepError>
    requires to { to < (S.meaning system.now).nodes }
    requires used { has location ((S.meaning system.now).uses to) ≡ true }
    requires fresh { IsFresh (S.meaning system.now).nodes walk.old }
    requires known { AreKnown (S.meaning system.now) location earlier.old }
    requires ready { AreReady (S.meaning system.now) location stretches.now }
    requires rows { AreRows (S.meaning system.now).nodes deps.old }
    requires sound { AreSound (S.meaning system.now) deps.old }
    requires before { AreBefore deps.old location to }
    ensures fresh { OnOk result (IsFresh (S.meaning system.now).nodes walk.new) }
    ensures known { OnOk result (AreKnown (S.meaning system.now) location earlier.new) }
    ensures rows { OnOk result (AreRows (S.meaning system.now).nodes deps.new) }
    ensures gains { OnOk result (GainsUse (S.meaning system.now) deps.old deps.new location to) }
    ensures refused { IfErr result (IsCause (S.meaning system.now)) }
{
    walk_back(system, walk, earlier, stretches, location, to)?;
    add_found(deps, &walk.found, location, to)?;
    let found = take_found(alloc, walk);
    earlier.add(to, found)?;
    Ok(())
}

/// Adds the triples from the nodes that a walk found.
fn add_found(deps: &mut Growing, found: &[u32], location: u32, to: u32) -> Result<(), DepError>
    requires once { IsDistinct nat_eq found.now }
    requires low { AllBelow (length deps.old) found.now }
    requires rows { AreRows (length deps.old) deps.old }
    requires before { AreBefore deps.old location to }
    ensures rows { OnOk result (AreRows (length deps.old) deps.new) }
    ensures gains { OnOk result (Gains deps.old deps.new (λ b. has b found.now) location to) }
    ensures refused { IfErr result (IsExcess deps.old found.now location to) }
{
    for from in found {
        if deps.is_full() {
            return Err(DepError::TooMany {
                count: MOST_DEPENDENCIES + 1,
            });
        }
        deps.add(*from, location, to)?;
    }
    Ok(())
}
