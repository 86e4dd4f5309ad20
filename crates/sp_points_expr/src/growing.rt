//! A table that grows, and the rules that wait since what they read grew.
ghost use Rattle.std.specs.Prelude.{◌≡◌, ◌<◌, ◌≤◌, ◌||◌, ◌⊎◌, ℕ, List, [], length, true, false, MatchBool, IfOk, OnOk, replicate};
ghost use Rattle.sp_base_sets.specs.Sets.{has, Ascends};
ghost use Rattle.sp_points_expr.specs.Growing.{Grows, Registers, reads, in_put, in_puts, waits};

use crate::queue::Queue;
use sp_base_sets::NumberSet;
use std::alloc::{AllocError, Global};

/// Numbers that go to rows.
#[derive(Drop)]
pub struct Put {
    pub rows: NumberSet,
    pub numbers: NumberSet,
}

/// The table so far, the rules that read each row, and the rules that wait.
#[derive(Drop)]
pub struct Growing {
    pub rows: Vec<NumberSet>,
    pub readers: Vec<NumberSet>,
    pub queue: Queue,
}

/// Adds numbers to a row, and says whether one is new.
fn add_numbers(row: &mut NumberSet, numbers: &[u32]) -> Result<bool, AllocError>
    ensures numbers { OnOk result ((n : ℕ) → has n row.new ≡ (has n row.old || has n numbers.now)) }
    ensures ascending { Ascends row.old → Ascends row.new }
    ensures grew { IfOk result (λ grew. MatchBool grew (length row.old < length row.new) (row.new ≡ row.old)) }
{
    let mut grew = false;
    for number in numbers {
        let new = row.add(*number)?;
        grew = grew || new;
    }
    Ok(grew)
}

/// Lets these rules wait.
fn wake(queue: &mut Queue, rules: &[u32]) -> Result<(), AllocError>
    requires { (n : ℕ) → has n rules.now ≡ true → n < queue.old.count }
    ensures count { queue.new.count ≡ queue.old.count }
    ensures few { OnOk result (length queue.old.numbers ≤ queue.old.count → length queue.new.numbers ≤ queue.new.count) }
    ensures numbers { OnOk result ((n : ℕ) → has n queue.new.numbers ≡ (has n queue.old.numbers || has n rules.now)) }
{
    for rule in rules {
        queue.push(*rule)?;
    }
    Ok(())
}

/// Adds numbers to a row, and lets the rules that read it wait where it grew.
fn put_row(growing: &mut Growing, place: u32, numbers: &[u32]) -> Result<(), AllocError>
    requires there { (r : ℕ) → has r numbers.now ≡ true → place < length growing.old.rows.items }
    requires long { length growing.old.readers.items ≡ length growing.old.rows.items }
    requires readers { (n c : ℕ) → reads growing.old n c ≡ true → n < growing.old.queue.count }
    ensures { OnOk result (Grows (λ c r. (c ≡ place) × (has r numbers.now ≡ true)) growing.old growing.new) }
{
    if (place as usize) < growing.rows.len() {
        let grew = add_numbers(&mut growing.rows[place as usize], numbers)?;
        if grew {
            wake(
                &mut growing.queue,
                growing.readers[place as usize].as_slice(),
            )?;
        }
    }
    Ok(())
}

/// Adds the numbers of a put to its rows.
fn put_all(growing: &mut Growing, put: &Put) -> Result<(), AllocError>
    requires there { (c r : ℕ) → in_put put.now c r ≡ true → c < length growing.old.rows.items }
    requires long { length growing.old.readers.items ≡ length growing.old.rows.items }
    requires readers { (n c : ℕ) → reads growing.old n c ≡ true → n < growing.old.queue.count }
    ensures { OnOk result (Grows (λ c r. in_put put.now c r ≡ true) growing.old growing.new) }
{
    let rows = put.rows.as_slice();
    let numbers = put.numbers.as_slice();
    for place in rows {
        put_row(growing, *place, numbers)?;
    }
    Ok(())
}

/// Adds what all these puts add.
pub fn put_each(growing: &mut Growing, puts: &[Put]) -> Result<(), AllocError>
    requires there { (c r : ℕ) → in_puts puts.now c r ≡ true → c < length growing.old.rows.items }
    requires long { length growing.old.readers.items ≡ length growing.old.rows.items }
    requires readers { (n c : ℕ) → reads growing.old n c ≡ true → n < growing.old.queue.count }
    ensures { OnOk result (Grows (λ c r. in_puts puts.now c r ≡ true) growing.old growing.new) }
{
    for put in puts {
        put_all(growing, put)?;
    }
    Ok(())
}

/// Notes that a rule reads these rows.
pub fn register(growing: &mut Growing, rows: &[u32], rule: u32) -> Result<(), AllocError>
    ensures rows { growing.new.rows ≡ growing.old.rows }
    ensures queue { growing.new.queue ≡ growing.old.queue }
    ensures readers { OnOk result (Registers rows.now rule growing.old growing.new) }
{
    for place in rows {
        if let Some(readers) = growing.readers.get_mut(*place as usize) {
            readers.add(rule)?;
        }
    }
    Ok(())
}
