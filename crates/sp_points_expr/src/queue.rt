//! Numbers that wait, each once.
ghost use Rattle.std.specs.Prelude.{◌≡◌, ◌≢◌, ◌<◌, ◌≤◌, ◌+◌, ◌++◌, ◌||◌, ℕ, List, [], length, nat_eq, true, MatchOption, IfOk, OnOk};
ghost use Rattle.sp_base_sets.specs.Sets.{has};
ghost use Rattle.sp_points_expr.specs.Queue.{Waiting};

use std::alloc::{AllocError, Global};
use std::marker::Model;
use std::mem;

/// Numbers below a count that wait, each at most once. They are taken in rounds: those that come
/// while a round goes on wait for the next, which takes the last to come first. So a value goes
/// along a chain of numbers, in whichever direction, in two rounds. No contract tells the order.
#[derive(Drop)]
pub struct Queue {
    now: Vec<u32>,
    next: Vec<u32>,
    is_waiting: Vec<bool>,
}

impl Model for Queue {
    ghost use Rattle.std.specs.Prelude.{length, ◌++◌};
    ghost use Rattle.sp_points_expr.specs.Queue.{Waiting, AreMarked};

    ghost Value = { Waiting };

    ghost view = { λ q. record { count = length q.is_waiting.items; numbers = q.next.items ++ q.now.items } };

    ghost invariant = { λ q. AreMarked q.is_waiting.items (q.next.items ++ q.now.items) };
}

impl Queue {
    /// None waits.
    pub fn none(alloc: Global, count: u32) -> Result<Queue, AllocError>
        ensures { IfOk result (λ q. q ≡ record { count = count; numbers = [] }) }
    {
        let mut is_waiting = Vec::new(alloc);
        for _ in 0..count {
            is_waiting.push(false)?;
        }
        Ok(Queue {
            now: Vec::new(alloc),
            next: Vec::new(alloc),
            is_waiting,
        })
    }

    /// Lets a number wait, where it doesn't yet.
    pub fn push(&mut self, number: u32) -> Result<(), AllocError>
        requires { number < self.old.count }
        ensures count { self.new.count ≡ self.old.count }
        ensures numbers { OnOk result ((n : ℕ) → has n self.new.numbers ≡ (nat_eq n number || has n self.old.numbers)) }
        ensures few { OnOk result (length self.new.numbers ≤ self.new.count) }
        ensures same { OnOk result (has number self.old.numbers ≡ true → self.new ≡ self.old) }
    {
        if self.is_waiting[number as usize] {
            return Ok(());
        }
        self.next.push(number)?;
        self.is_waiting[number as usize] = true;
        Ok(())
    }

    /// Takes a number out; `None` exactly where none waits.
    pub fn pop(&mut self) -> Option<u32>
        ensures count { self.new.count ≡ self.old.count }
        ensures numbers { MatchOption result ((self.old.numbers ≡ []) × (self.new.numbers ≡ []))
            (λ n. (n < self.old.count) × (length self.old.numbers ≡ length self.new.numbers + 1)
            × ((k : ℕ) → k ≢ n → has k self.old.numbers ≡ true → has k self.new.numbers ≡ true)) }
        ensures few { length self.new.numbers ≤ self.new.count }
    {
        turn(&mut self.now, &mut self.next);
        let number = self.now.pop()?;
        self.is_waiting[number as usize] = false;
        Some(number)
    }
}

/// Begins the next round where none is left of this one.
fn turn(now: &mut Vec<u32>, next: &mut Vec<u32>)
    ensures same { next.new.items ++ now.new.items ≡ next.old.items ++ now.old.items }
    ensures left { now.new.items ≡ [] → next.new.items ≡ [] }
{
    if now.is_empty() {
        mem::swap(now, next);
    }
}
