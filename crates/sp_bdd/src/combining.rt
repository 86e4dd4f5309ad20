//! What two sets have in common, and what either has.
ghost use Rattle.std.specs.Prelude.{◌≡◌, ◌≤◌, ◌<◌, ◌+◌, ℕ, length, IfOk, IfErr, OnOk, MatchOption};
ghost use Rattle.sp_bdd.specs.Table.{diagram, Belongs};
ghost use Rattle.sp_bdd.specs.declared.combining.Op.{Op};
ghost use Rattle.sp_bdd.specs.inner.Made.{joined};
ghost use Rattle.sp_bdd.specs.inner.Formed.{AreFormed};
ghost use Rattle.sp_bdd.specs.inner.Combined.{Grows, Gives, Refuses, AreUnder, combined, neutral, decisive, AreRight};

use crate::manager::{Bdd, BddError, Manager};
use indexmap::IndexMap;

/// An operation on sets.
#[derive(Clone, Copy)]
pub(crate) enum Op {
    And,
    Or,
}

/// The answers of an operation so far, by the edges of both sets.
pub(crate) type Answers = IndexMap<(u32, u32), Bdd>;

/// The set that an operation makes of two others. It asks each pair of diagrams once.
pub(crate) fn combine(
    manager: &mut Manager,
    answers: &mut Answers,
    op: Op,
    left: Bdd,
    right: Bdd,
) -> Result<Bdd, BddError>
    requires left { Belongs manager.old left }
    requires right { Belongs manager.old right }
    requires answers { AreRight op manager.old answers.old }
    ensures grows { Grows manager.old manager.new }
    ensures made { IfOk result (Gives manager.old (combined manager.old op left right) manager.new) }
    ensures answers { OnOk result (AreRight op manager.new answers.new) }
    ensures refused { IfErr result (Refuses manager.old (combined manager.old op left right)) }
{
    if let Some(set) = at_end(manager, op, left, right) {
        return Ok(set);
    }
    if let Some(set) = answers.get(&(left.edge, right.edge)) {
        return Ok(*set);
    }
    let halves = parted(manager, left, right);
    let low = combine(manager, answers, op, halves.left_low, halves.right_low)?;
    let high = combine(manager, answers, op, halves.left_high, halves.right_high)?;
    let set = manager.make(halves.bit, low, high)?;
    answers.insert((left.edge, right.edge), set)?;
    Ok(set)
}

/// Two sets, parted at the first bit that either tests: their rows without the bit, and those with
/// it.
#[derive(Clone, Copy)]
pub(crate) struct Halves {
    pub(crate) bit: u32,
    pub(crate) left_low: Bdd,
    pub(crate) right_low: Bdd,
    pub(crate) left_high: Bdd,
    pub(crate) right_high: Bdd,
}

fn parted(manager: &Manager, left: Bdd, right: Bdd) -> Halves
    requires left { Belongs manager.now left }
    requires right { Belongs manager.now right }
    requires left_node { 2 ≤ left.edge }
    requires right_node { 2 ≤ right.edge }
    ensures bit { result.bit < manager.now.bits }
    ensures low { AreUnder manager.now result.bit result.left_low result.right_low }
    ensures high { AreUnder manager.now result.bit result.left_high result.right_high }
    ensures low_less { result.left_low.edge + result.right_low.edge < left.edge + right.edge }
    ensures high_less { result.left_high.edge + result.right_high.edge < left.edge + right.edge }
    ensures whole { (op : Op) → combined manager.now op left right ≡ joined result.bit
        (combined manager.now op result.left_low result.right_low)
        (combined manager.now op result.left_high result.right_high) }
{
    manager.formed();
    let bit = manager.first_bit(left).max(manager.first_bit(right));
    let (left_low, left_high) = manager.parts(left, bit);
    let (right_low, right_high) = manager.parts(right, bit);
    Halves {
        bit,
        left_low,
        right_low,
        left_high,
        right_high,
    }
}

/// The set that an operation makes where one of the two is an end, or both are the same.
fn at_end(manager: &Manager, op: Op, left: Bdd, right: Bdd) -> Option<Bdd>
    requires left { Belongs manager.now left }
    requires right { Belongs manager.now right }
    ensures ends { MatchOption result ((2 ≤ left.edge) × (2 ≤ right.edge))
        (λ set. Belongs manager.now set × (diagram manager.now set ≡ combined manager.now op left right)) }
    ensures formed { AreFormed manager.now.bits manager.now.limit manager.now.nodes }
{
    manager.formed();
    if left == right {
        return Some(left);
    }
    let (neutral, decisive) = ends_of(op);
    if left == neutral || right == decisive {
        return Some(right);
    }
    if right == neutral || left == decisive {
        return Some(left);
    }
    None
}

/// The set that changes no other, and the set that decides what comes out.
fn ends_of(op: Op) -> (Bdd, Bdd)
    ensures neutral { result.0.edge ≡ neutral op }
    ensures decisive { result.1.edge ≡ decisive op }
{
    match op {
        Op::And => (Bdd::ALL, Bdd::NONE),
        Op::Or => (Bdd::NONE, Bdd::ALL),
    }
}
