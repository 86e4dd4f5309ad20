//! The report of a lowered program by the dense engine.
ghost use Rattle.std.specs.Prelude.{IfOk};
ghost use Rattle.sp_ir.specs.Programs.{lowered_of};
ghost use Rattle.sp_ir.specs.Formed.{IsFormed};
ghost use Rattle.sp_defuse.specs.Program.{equations_in};
ghost use Rattle.sp_run_analysis.specs.Outcomes.{Gives, Ends, StepsWithin, IsStepped};

use crate::reports::{Wanted, report_on};
use sp_defuse::CProgram;
use sp_dense::{DenseError, solve_dense};
use sp_effect_scene::Analysis;
use sp_ir::Lowered;
use sp_lattice::Steps;
use sp_report::Report;
use sp_tree::Names;
use std::alloc::{AllocError, Global};
use std::sync::ledger::Ledger;

/// What the dense engine makes of a program.
#[derive(Drop)]
pub enum Outcome {
    /// Its report.
    Reported(Report),
    /// It has so many cells, nodes times locations: more than the engine takes.
    TooLarge { cells: u64 },
}

/// What the dense engine makes of equations.
fn solve<L: Ledger>(
    alloc: Global,
    names: &Names,
    wanted: Wanted,
    program: &CProgram,
    steps: &mut Steps<L>,
) -> Result<Outcome, AllocError>
    ensures gives { IfOk result (Gives names.now wanted
        (equations_in program.now)
        steps.old steps.new) }
    ensures bound { StepsWithin
        (equations_in program.now)
        steps.old steps.new }
{
    match solve_dense(alloc, program, steps) {
        Ok(table) => {
            let report = report_on(alloc, names, wanted, program, &table)?;
            Ok(Outcome::Reported(report))
        }
        Err(DenseError::TooLarge { cells }) => Ok(Outcome::TooLarge { cells }),
        Err(DenseError::NoMemory) => Err(AllocError),
    }
}

/// The report of a formed program, or that it is too large. `names` tells the bytes of each file's
/// name; `wanted` says which report.
pub fn dense_report<L: Ledger>(
    alloc: Global,
    names: &Names,
    wanted: Wanted,
    lowered: Lowered,
    steps: &mut Steps<L>,
) -> Result<Outcome, AllocError>
    requires { IsFormed (lowered_of lowered) }
    ensures ends { IfOk result
        (Ends (lowered_of lowered) names.now wanted steps.old steps.new) }
    ensures steps { IsStepped (lowered_of lowered) wanted.sharp steps.old steps.new }
{
    let analysis = Analysis::new(alloc, lowered, wanted.sharp)?;
    let program = CProgram::new(alloc, analysis, wanted.sharp)?;
    solve(alloc, names, wanted, &program, steps)
}
