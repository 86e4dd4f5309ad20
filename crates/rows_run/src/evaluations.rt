//! What the sparse engine does with the nodes of a program.
ghost use Rattle.sp_deps.specs.Answer.{AreDependencies};

use crate::faults::refused;
use crate::lowerings::lowered_of;
use sp_defuse::CProgram;
use sp_deps::{DepError, Deps, dependencies};
use sp_effect_scene::Analysis;
use sp_lattice::{Lattice, Steps, System};
use sp_sparse::{First, Last, SparseTable, solve_sparse};
use sp_tree::Names;
use sp_value::Slot;
use std::alloc::{AllocError, Global};
use std::sync::ledger::Ledger;

/// Whether two tables have the same values at each node and location.
fn agree(program: &CProgram, one: &SparseTable<Slot>, other: &SparseTable<Slot>) -> bool {
    (0..program.nodes().len() as u32).all(|node| {
        (0..program.locations()).all(|location| {
            same(one.input(node, location), other.input(node, location))
                && same(one.output(node, location), other.output(node, location))
        })
    })
}

fn same(one: Option<&Slot>, other: Option<&Slot>) -> bool {
    match (one, other) {
        (Some(one), Some(other)) => one.leq(other) && other.leq(one),
        (None, None) => true,
        _ => false,
    }
}

/// What a row asks of the sparse engine.
#[derive(Clone, Copy)]
pub enum Question {
    /// Which nodes are evaluated once, where the first that waits is served.
    Once,
    /// Whether serving the first that waits and serving the last give the same values.
    Orders,
}

/// The nodes that are evaluated once.
fn once<L: Ledger>(
    alloc: Global,
    program: &CProgram,
    deps: &Deps,
    steps: &mut Steps<L>,
) -> Result<String, AllocError>
    requires { AreDependencies (⟦<CProgram as System>⟧.meaning program.now) deps.now }
{
    let table = solve_sparse(alloc, program, deps, &mut First, steps)?;
    let mut line = String::from_str(alloc, "once")?;
    for (place, node) in program.nodes().iter().enumerate() {
        if table.evaluations(place as u32) == Some(1) {
            write!(line, " {}", node.number)?;
        }
    }
    Ok(line)
}

/// Whether two orders give the same values.
fn orders<L: Ledger>(
    alloc: Global,
    program: &CProgram,
    deps: &Deps,
    steps: &mut Steps<L>,
) -> Result<String, AllocError>
    requires { AreDependencies (⟦<CProgram as System>⟧.meaning program.now) deps.now }
{
    let first = solve_sparse(alloc, program, deps, &mut First, steps)?;
    let last = solve_sparse(alloc, program, deps, &mut Last, steps)?;
    let agreed = agree(program, &first, &last);
    String::from_str(alloc, if agreed { "equal" } else { "differ" })
}

/// The answer on a program.
fn answer_on<L: Ledger>(
    alloc: Global,
    question: Question,
    program: &CProgram,
    steps: &mut Steps<L>,
) -> Result<String, AllocError> {
    let deps = match dependencies(alloc, program) {
        Ok(deps) => deps,
        Err(DepError::TooMany { count }) => return format!(in alloc; "too many: {count}"),
        Err(DepError::NoMemory) => return Err(AllocError),
    };
    match question {
        Question::Once => once(alloc, program, &deps, steps),
        Question::Orders => orders(alloc, program, &deps, steps),
    }
}

/// The answer on a text's program.
pub fn answer_to<L: Ledger>(
    alloc: Global,
    question: Question,
    text: Vec<u8>,
    steps: &mut Steps<L>,
) -> Result<String, AllocError> {
    let mut texts = Vec::new(alloc);
    texts.push(text)?;
    let mut names = Names::new(alloc);
    let lowered = match lowered_of(alloc, &texts, &mut names) {
        Ok(lowered) => lowered,
        Err(error) => return refused(alloc, &names, error),
    };
    let program = CProgram::new(alloc, Analysis::new(alloc, lowered, false)?, false)?;
    answer_on(alloc, question, &program, steps)
}
