//! The least rows that are closed under the commands of a program.
ghost use Rattle.std.specs.Prelude.{◌≡◌, ◌⊎◌, ◌<◌, ◌≤◌, ◌^◌, ℕ, List, length, true, IfOk, OnOk};
ghost use Rattle.sp_ir.specs.Programs.{lowered_of};
ghost use Rattle.sp_ir.specs.Formed.{IsFormed};
ghost use Rattle.sp_base_sets.specs.Sets.{has, Ascends};
ghost use Rattle.sp_base_sets.specs.Reached.{row};
ghost use Rattle.sp_points_expr.specs.Tables.{Table, Limited, IsLeastClosed};
ghost use Rattle.sp_points_expr.specs.Growing.{in_puts, size, Working};
ghost use Rattle.sp_points_rules.specs.Paths.{AreGroups};
ghost use Rattle.sp_points_rules.specs.Puts.{rules_of};
ghost use Rattle.sp_points_rules.specs.Gathered.{Adds};

use sp_base_sets::NumberSet;
use sp_ir::Lowered;
use sp_points_expr::{Growing, Queue, put_each, register};
use sp_points_rules::{Facts, Gathered, Groups, puts_of};
use std::alloc::{AllocError, Global};

/// The least rows: no command lets a cell point to more.
pub(crate) fn least(
    alloc: Global,
    lowered: &Lowered,
    groups: &Groups,
) -> Result<Vec<NumberSet>, AllocError>
    requires formed { IsFormed (lowered_of lowered.now) }
    requires few { length (lowered_of lowered.now).objects < 2 ^ 32 }
    requires grouped { AreGroups (lowered_of lowered.now) groups.now }
    ensures least { IfOk result (λ rows. IsLeastClosed (rules_of (lowered_of lowered.now)) (row rows.items)) }
    ensures ascending { IfOk result (λ rows. (c : ℕ) → Ascends (row rows.items c)) }
{
    let mut growing = first(alloc, lowered)?;
    'nodes: while let Some(node) = growing.queue.pop() {
        serve(alloc, lowered, groups, &mut growing, node)?;
    }
    Ok(growing.rows)
}

/// No cell points anywhere, and all nodes wait.
fn first(alloc: Global, lowered: &Lowered) -> Result<Growing, AllocError>
    requires { IsFormed (lowered_of lowered.now) }
    ensures { IfOk result (Working (rules_of (lowered_of lowered.now)) (length (lowered_of lowered.now).regions) (length (lowered_of lowered.now).nodes) (length (lowered_of lowered.now).nodes)) }
{
    let rows = NumberSet::empty_sets(alloc, lowered.regions.len())?;
    let readers = NumberSet::empty_sets(alloc, lowered.regions.len())?;
    let queue = all_waiting(alloc, lowered.nodes.len() as u32)?;
    Ok(Growing {
        rows,
        readers,
        queue,
    })
}

fn all_waiting(alloc: Global, count: u32) -> Result<Queue, AllocError>
    ensures count { IfOk result (λ queue. queue.count ≡ count) }
    ensures all { IfOk result (λ queue. (n : ℕ) → n < count → has n queue.numbers ≡ true) }
    ensures few { IfOk result (λ queue. length queue.numbers ≤ count) }
{
    let mut queue = Queue::none(alloc, count)?;
    // The last to come is served first. So readers of a row come ascending, and go last in its set.
    for before in 0..count {
        queue.push(count - 1 - before)?;
    }
    Ok(queue)
}

/// What the node's command puts comes to the rows.
fn serve(
    alloc: Global,
    lowered: &Lowered,
    groups: &Groups,
    growing: &mut Growing,
    node: u32,
) -> Result<(), AllocError>
    requires formed { IsFormed (lowered_of lowered.now) }
    requires few { length (lowered_of lowered.now).objects < 2 ^ 32 }
    requires grouped { AreGroups (lowered_of lowered.now) groups.now }
    requires node { node < length (lowered_of lowered.now).nodes }
    requires working { Working (rules_of (lowered_of lowered.now)) (length (lowered_of lowered.now).regions) (length (lowered_of lowered.now).nodes) node growing.old }
    ensures working { OnOk result (Working (rules_of (lowered_of lowered.now)) (length (lowered_of lowered.now).regions) (length (lowered_of lowered.now).nodes) (length (lowered_of lowered.now).nodes) growing.new) }
    ensures rises { OnOk result ((size growing.old < size growing.new) ⊎ ((size growing.new ≡ size growing.old) × (growing.new.queue ≡ growing.old.queue))) }
{
    let gathered = gather(alloc, lowered, groups, &growing.rows, node)?;
    register(growing, gathered.seen.as_slice(), node)?;
    put_each(growing, &gathered.puts)?;
    Ok(())
}

/// What the command of a node puts.
fn gather(
    alloc: Global,
    lowered: &Lowered,
    groups: &Groups,
    rows: &[NumberSet],
    node: u32,
) -> Result<Gathered, AllocError>
    requires few { length (lowered_of lowered.now).objects < 2 ^ 32 }
    requires grouped { AreGroups (lowered_of lowered.now) groups.now }
    ensures sound { IfOk result (λ out. (c r : ℕ) → in_puts out.puts.items c r ≡ true → rules_of (lowered_of lowered.now) (row rows.now) node c r) }
    ensures whole { IfOk result (λ out. (u : Table) → Limited rows.now out.seen u → (c r : ℕ) → rules_of (lowered_of lowered.now) u node c r → in_puts out.puts.items c r ≡ true) }
{
    let facts = Facts {
        lowered,
        groups,
        rows,
    };
    let mut out = Gathered::new(alloc);
    put_node(alloc, &facts, node, &mut out)?;
    Ok(out)
}

fn put_node(
    alloc: Global,
    facts: &Facts<'_>,
    node: u32,
    out: &mut Gathered,
) -> Result<(), AllocError>
    requires { length (lowered_of facts.now.lowered.now).objects < 2 ^ 32 }
    ensures { OnOk result (Adds facts.now.rows.now (λ u c r. rules_of (lowered_of facts.now.lowered.now) u node c r) out.old out.new) }
{
    if let Some(found) = facts.lowered.nodes.get(node as usize) {
        puts_of(alloc, facts, &found.command, out)?;
    }
    Ok(())
}
