//! What sweeps find, as a contract.
ghost use Rattle.std.specs.Prelude.{ℕ, ◌↔◌};
ghost use Rattle.sp_lattice.specs.Dependency.{Depends};
ghost use Rattle.sp_engine_sweep_laws.specs.Sweep.{IsSwept};

use sp_lattice::System;

/// What a sweep from a use finds are the dependencies of the use.
///
/// The call does nothing.
pub fn sweep_laws<S: System>(_system: &S)
    ensures { (from l to : ℕ) → IsSwept (S.meaning _system.now) from l to ↔ Depends (S.meaning _system.now) from l to }
{}
