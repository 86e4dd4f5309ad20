//! From the texts of files to what is written for them.
ghost use Rattle.std.specs.Prelude.{◌≡◌, map, IfOk};
ghost use Rattle.sp_ir.specs.Programs.{lowered_of};
ghost use Rattle.sp_ir.specs.Formed.{IsFormed};
ghost use Rattle.sp_lower.specs.Programs.{start_place};
ghost use Rattle.sp_run_analysis.specs.Outcomes.{IsStepped};
ghost use Rattle.sp_run_analysis.specs.Sparse.{IsServed};
ghost use Rattle.sp_run_indirect.specs.Told.{AreCallsOf};
ghost use Rattle.sp_front.specs.Sources.{source_of, AreWithin};
ghost use Rattle.sp_run_command.specs.Refusals.{fault_text};
ghost use Rattle.sp_run_command.specs.Answers.{IsAnswer, IsAnswerOn, IsAnswerTo, IsCounted, IsCountedOn, IsSteppedFor, WithoutSteps, reporting};
ghost use Rattle.sp_run_command.specs.Run.{IsDone};

use crate::refusals::refusal_at;
use crate::status::{Answer, Status};
use sp_front::{FrontError, Source, lowered_of};
use sp_ir::Lowered;
use sp_lattice::Steps;
use sp_report::Report;
use sp_run_analysis::{Outcome, SparseOutcome, Wanted, dense_report, sparse_report};
use sp_run_indirect::print_calls;
use sp_run_words::{Engine, Task};
use sp_tree::{Fault, FaultKind, Names, Place};
use std::alloc::{AllocError, Global};
use std::sync::ledger::Ledger;

/// The beginning of the first file, whose name is the first of all.
const START: Place = Place {
    name: 0,
    line: 1,
    column: 1,
};

/// A report as an answer.
fn reported(report: Report) -> Answer
    ensures text { result.text ≡ report.text }
    ensures status { result.status ≡ reporting report.count }
{
    let Report { text, count } = report;
    let status = if count == 0 {
        Status::Clean
    } else {
        Status::Alarms
    };
    Answer { status, text }
}

/// The refusal of a program that is past the limit of an engine.
fn too_large(alloc: Global, names: &Names, kind: FaultKind) -> Result<Answer, AllocError>
    ensures status { IfOk result (λ a. a.status ≡ Status.Refused) }
    ensures text { IfOk result (λ a. a.text.items
        ≡ fault_text names.now (record { kind = kind; place = start_place })) }
{
    let place = START;
    refusal_at(alloc, names, Fault { kind, place })
}

/// The answer to files whose program is lowered, by the dense engine.
fn answer_densely<L: Ledger>(
    alloc: Global,
    names: &Names,
    wanted: Wanted,
    lowered: Lowered,
    steps: &mut Steps<L>,
) -> Result<Answer, AllocError>
    requires { IsFormed (lowered_of lowered) }
    ensures answer { IfOk result (λ a. IsAnswerTo Engine.Dense wanted (lowered_of lowered)
        names.now a.status a.text.items) }
    ensures refused { IfOk result (λ a. WithoutSteps a.status (steps.new ≡ steps.old)) }
    ensures done { IfOk result (λ a. IsDone a.status) }
    ensures steps { IsStepped (lowered_of lowered) wanted.sharp steps.old steps.new }
{
    match dense_report(alloc, names, wanted, lowered, steps)? {
        Outcome::Reported(report) => Ok(reported(report)),
        Outcome::TooLarge { cells } => too_large(alloc, names, FaultKind::TooManySlots { cells }),
    }
}

/// And by the sparse engine.
fn answer_sparsely<L: Ledger>(
    alloc: Global,
    names: &Names,
    wanted: Wanted,
    lowered: Lowered,
    steps: &mut Steps<L>,
) -> Result<Answer, AllocError>
    requires { IsFormed (lowered_of lowered) }
    ensures answer { IfOk result (λ a. IsAnswerTo Engine.Sparse wanted (lowered_of lowered)
        names.now a.status a.text.items) }
    ensures refused { IfOk result (λ a. WithoutSteps a.status (steps.new ≡ steps.old)) }
    ensures done { IfOk result (λ a. IsDone a.status) }
    ensures steps { IsServed (lowered_of lowered) wanted.sharp steps.old steps.new }
{
    match sparse_report(alloc, names, wanted, lowered, steps)? {
        SparseOutcome::Reported(report) => Ok(reported(report)),
        SparseOutcome::TooMany => too_large(alloc, names, FaultKind::TooManyDependencies),
    }
}

/// And by either engine.
fn answer_by<L: Ledger>(
    alloc: Global,
    engine: Engine,
    wanted: Wanted,
    names: &Names,
    lowered: Lowered,
    steps: &mut Steps<L>,
) -> Result<Answer, AllocError>
    requires { IsFormed (lowered_of lowered) }
    ensures answer { IfOk result (λ a. IsAnswerTo engine wanted (lowered_of lowered)
        names.now a.status a.text.items) }
    ensures refused { IfOk result (λ a. WithoutSteps a.status (steps.new ≡ steps.old)) }
    ensures done { IfOk result (λ a. IsDone a.status) }
    ensures steps { IsCounted engine (lowered_of lowered) wanted.sharp steps.old steps.new }
{
    match engine {
        Engine::Sparse => answer_sparsely(alloc, names, wanted, lowered, steps),
        Engine::Dense => answer_densely(alloc, names, wanted, lowered, steps),
    }
}

/// The indirect calls of a program.
fn calls_of(alloc: Global, names: &Names, lowered: &Lowered) -> Result<Answer, AllocError>
    requires { IsFormed (lowered_of lowered.now) }
    ensures status { IfOk result (λ a. a.status ≡ Status.Clean) }
    ensures calls { IfOk result (λ a. AreCallsOf (lowered_of lowered.now) names.now a.text.items) }
{
    let text = print_calls(alloc, names, lowered)?;
    let status = Status::Clean;
    Ok(Answer { status, text })
}

/// The answer to files whose program is lowered.
fn answer_on<L: Ledger>(
    alloc: Global,
    task: Task,
    names: &Names,
    lowered: Lowered,
    steps: &mut Steps<L>,
) -> Result<Answer, AllocError>
    requires { IsFormed (lowered_of lowered) }
    ensures answer { IfOk result (λ a. IsAnswerOn task (lowered_of lowered)
        names.now a.status a.text.items) }
    ensures refused { IfOk result (λ a. WithoutSteps a.status (steps.new ≡ steps.old)) }
    ensures done { IfOk result (λ a. IsDone a.status) }
    ensures steps { IsCountedOn task (lowered_of lowered) steps.old steps.new }
{
    match task {
        Task::Report {
            engine,
            sharp,
            values,
            nodes,
        } => {
            let wanted = Wanted {
                sharp,
                values,
                nodes,
            };
            answer_by(alloc, engine, wanted, names, lowered, steps)
        }
        Task::Calls => calls_of(alloc, names, &lowered),
    }
}

/// The answer to files.
pub(crate) fn answer_to<L: Ledger>(
    alloc: Global,
    task: Task,
    sources: &[Source],
    steps: &mut Steps<L>,
) -> Result<Answer, AllocError>
    requires { AreWithin (map source_of sources.now) }
    ensures answer { IfOk result (λ a. IsAnswer task (map source_of sources.now)
        a.status a.text.items) }
    ensures refused { IfOk result (λ a. WithoutSteps a.status (steps.new ≡ steps.old)) }
    ensures done { IfOk result (λ a. IsDone a.status) }
    ensures steps { IsSteppedFor task (map source_of sources.now) steps.old steps.new }
{
    let mut names = Names::new(alloc);
    match lowered_of(alloc, sources, &mut names) {
        Ok(lowered) => answer_on(alloc, task, &names, lowered, steps),
        Err(FrontError::Fault(fault)) => refusal_at(alloc, &names, fault),
        Err(FrontError::NoMemory) => Err(AllocError),
    }
}
