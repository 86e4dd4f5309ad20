//! Sets of numbers.
ghost use Rattle.std.specs.Prelude.{◌≡◌, ◌+◌, ℕ, List, [], length, not, ◌||◌, nat_eq, true, false, Some, IfOk, OnOk, OnErr, if◌then◌else◌, replicate};
ghost use Rattle.sp_base_sets.specs.Sets.{has, Ascends, Gains};

use std::alloc::{AllocError, Global};
use std::marker::Model;

/// A set of numbers. Contracts see the list of its numbers, ascending.
#[derive(Drop)]
pub struct NumberSet {
    numbers: Vec<u32>,
}

impl Model for NumberSet {
    ghost use Rattle.std.specs.Prelude.{List, ℕ};

    ghost Value = { List ℕ };

    ghost use Rattle.sp_base_sets.specs.Sets.{Ascends};

    ghost view = { λ s. s.numbers.items };

    ghost invariant = { λ s. Ascends s.numbers.items };
}

impl NumberSet {
    /// The empty set.
    pub fn new(alloc: Global) -> NumberSet
        ensures { result ≡ [] }
    {
        NumberSet {
            numbers: Vec::new(alloc),
        }
    }

    /// Its numbers, ascending.
    pub fn as_slice(&self) -> &[u32]
        ensures numbers { result.now ≡ self.now }
        ensures ascending { Ascends self.now }
    {
        self.numbers.as_slice()
    }

    /// Whether it holds a number.
    pub fn has(&self, number: u32) -> bool
        ensures { result ≡ has number self.now }
    {
        self.numbers.binary_search(&number).is_ok()
    }

    /// Adds a number, and says whether it is new.
    pub fn add(&mut self, number: u32) -> Result<bool, AllocError>
        ensures new { IfOk result (λ new. new ≡ not (has number self.old)) }
        ensures numbers { OnOk result ((n : ℕ) → has n self.new ≡ (nat_eq n number || has n self.old)) }
        ensures count { IfOk result (λ new. length self.new ≡ length self.old + (if new then 1 else 0)) }
        ensures ascending { Ascends self.new }
        ensures same { IfOk result (λ new. new ≡ false → self.new ≡ self.old) }
        ensures unchanged { OnErr result (self.new ≡ self.old) }
    {
        match self.numbers.binary_search(&number) {
            Ok(_) => Ok(false),
            Err(place) => {
                self.numbers.insert(place, number)?;
                Ok(true)
            }
        }
    }

    /// Adds a number, where there is one.
    pub fn add_some(&mut self, number: Option<u32>) -> Result<(), AllocError>
        ensures { OnOk result (Gains (λ n. number ≡ Some n) self.old self.new) }
    {
        if let Some(found) = number {
            self.add(found)?;
        }
        Ok(())
    }

    /// Adds all of these numbers.
    pub fn add_all(&mut self, numbers: &[u32]) -> Result<(), AllocError>
        ensures { OnOk result ((n : ℕ) → has n self.new ≡ (has n self.old || has n numbers.now)) }
    {
        for number in numbers {
            self.add(*number)?;
        }
        Ok(())
    }

    /// The same set once more.
    pub fn copy(&self, alloc: Global) -> Result<NumberSet, AllocError>
        ensures { IfOk result (λ copy. copy ≡ self.now) }
    {
        let numbers = Vec::from_slice(alloc, self.numbers.as_slice())?;
        Ok(NumberSet { numbers })
    }

    /// So many empty sets.
    pub fn empty_sets(alloc: Global, count: usize) -> Result<Vec<NumberSet>, AllocError>
        ensures { IfOk result (λ sets. sets.items ≡ replicate count []) }
    {
        let mut sets = Vec::new(alloc);
        for _ in 0..count {
            sets.push(NumberSet::new(alloc))?;
        }
        Ok(sets)
    }

    /// The same sets once more.
    pub fn copies(alloc: Global, sets: &[NumberSet]) -> Result<Vec<NumberSet>, AllocError>
        ensures { IfOk result (λ copies. copies.items ≡ sets.now) }
    {
        let mut copies = Vec::new(alloc);
        for set in sets {
            copies.push(set.copy(alloc)?)?;
        }
        Ok(copies)
    }
}
