//! The report of a lowered program by the sparse engine.
ghost use Rattle.std.specs.Prelude.{IfOk};
ghost use Rattle.sp_ir.specs.Programs.{lowered_of};
ghost use Rattle.sp_ir.specs.Formed.{IsFormed};
ghost use Rattle.sp_defuse.specs.Program.{equations_in};
ghost use Rattle.sp_run_analysis.specs.Sparse.{Gives, Ends, ServesWithin, IsServed};

use crate::reports::{Wanted, report_on};
use sp_defuse::{CProgram, open_nodes};
use sp_deps::{DepError, dependencies_with};
use sp_effect_scene::Analysis;
use sp_ir::Lowered;
use sp_lattice::{Steps, solution_laws};
use sp_report::Report;
use sp_sparse::{BySweeps, order_of, solve_sparse};
use sp_tree::Names;
use std::alloc::{AllocError, Global};
use std::sync::ledger::Ledger;

/// What the sparse engine makes of a program.
#[derive(Drop)]
pub enum SparseOutcome {
    /// Its report.
    Reported(Report),
    /// It has more data dependencies than are kept.
    TooMany,
}

/// What the sparse engine makes of equations.
fn solve<L: Ledger>(
    alloc: Global,
    names: &Names,
    wanted: Wanted,
    program: &CProgram,
    steps: &mut Steps<L>,
) -> Result<SparseOutcome, AllocError>
    ensures gives { IfOk result (Gives names.now wanted
        (equations_in program.now)
        steps.old steps.new) }
    ensures bound { ServesWithin
        (equations_in program.now)
        steps.old steps.new }
{
    solution_laws(program);
    let open = open_nodes(alloc, program)?;
    let deps = match dependencies_with(alloc, program, &open) {
        Ok(deps) => deps,
        Err(DepError::TooMany { .. }) => return Ok(SparseOutcome::TooMany),
        Err(DepError::NoMemory) => return Err(AllocError),
    };
    let mut picker = BySweeps::new(order_of(alloc, program)?);
    let table = solve_sparse(alloc, program, &deps, &mut picker, steps)?;
    let report = report_on(alloc, names, wanted, program, &table)?;
    Ok(SparseOutcome::Reported(report))
}

/// The report of a formed program, or that it has too many dependencies. `names` tells the bytes of
/// each file's name; `wanted` says which report.
pub fn sparse_report<L: Ledger>(
    alloc: Global,
    names: &Names,
    wanted: Wanted,
    lowered: Lowered,
    steps: &mut Steps<L>,
) -> Result<SparseOutcome, AllocError>
    requires { IsFormed (lowered_of lowered) }
    ensures ends { IfOk result
        (Ends (lowered_of lowered) names.now wanted steps.old steps.new) }
    ensures steps { IsServed (lowered_of lowered) wanted.sharp steps.old steps.new }
{
    let analysis = Analysis::new(alloc, lowered, wanted.sharp)?;
    let program = CProgram::new(alloc, analysis, wanted.sharp)?;
    solve(alloc, names, wanted, &program, steps)
}
