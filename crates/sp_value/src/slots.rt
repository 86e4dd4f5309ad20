//! Values and slots.
ghost use Rattle.std.specs.Prelude.{◌≡◌, true, not, IfOk, OnOk, OnErr};
ghost use Rattle.sp_value.specs.Known.{is_formed_known, is_formed_known-prop};

use crate::targets::{Target, Targets};
use sp_interval::Interval;
use sp_lattice::{Ladder, Lattice};
use std::alloc::{AllocError, Global};

/// What an expression may be worth: numbers and targets.
#[derive(Drop)]
pub struct Value {
    pub numbers: Interval,
    pub targets: Targets,
    ghost facts: { is_formed_known numbers targets ≡ true } by { is_formed_known-prop numbers targets },
}

impl Value {
    ghost use Rattle.std.specs.Prelude.{◌≡◌, IfOk};
    ghost use Rattle.sp_value.specs.Known.{Known, known_le, is_none, of_numbers, of_target, is_ordered_within, is_proper_within, every_offset, every_size};
    ghost use Rattle.sp_interval.specs.Interval.{whole};
    ghost use Rattle.std.specs.Prelude.{true};
    ghost use Rattle.sp_value.specs.Slots.{known_of, value_join};
    ghost use Rattle.sp_value.specs.Held.{stored};
    ghost use Rattle.sp_lattice.specs.Ladder.{IsLadder};

    /// These numbers.
    pub fn of_numbers(alloc: Global, numbers: Interval) -> Value
        requires { is_ordered_within whole numbers ≡ true }
        ensures { known_of result ≡ of_numbers numbers }
    {
        Value {
            numbers,
            targets: Targets::new(alloc),
        }
    }

    /// One target.
    pub fn of_target(alloc: Global, target: Target) -> Result<Value, AllocError>
        requires offset { is_proper_within every_offset target.offset ≡ true }
        requires size { is_proper_within every_size target.size ≡ true }
        ensures { IfOk result (λ value. known_of value ≡ of_target target) }
    {
        let targets = Targets::of_one(alloc, target)?;
        Ok(Value {
            numbers: Interval::Empty,
            targets,
        })
    }

    /// These numbers and targets.
    pub fn of_parts(numbers: Interval, targets: Targets) -> Value
        requires { is_formed_known numbers targets ≡ true }
        ensures { known_of result ≡ record { numbers = numbers; targets = targets } }
    {
        Value { numbers, targets }
    }

    /// The same targets, and other numbers.
    pub fn with_numbers(&self, alloc: Global, numbers: Interval) -> Result<Value, AllocError>
        requires { is_ordered_within whole numbers ≡ true }
        ensures { IfOk result (λ value. known_of value ≡
            record { numbers = numbers; targets = self.now.targets }) }
    {
        let targets = self.targets.copy(alloc)?;
        Ok(Value { numbers, targets })
    }

    /// Whether there is neither a number nor a target.
    pub fn is_none(&self) -> bool
        ensures { result ≡ is_none (known_of self.now) }
    {
        self.numbers.leq(&Interval::Empty) && self.targets.is_empty()
    }

    /// Whether the numbers lie within the other's, and each target in the one of its region.
    fn leq(&self, other: &Value) -> bool
        ensures { result ≡ known_le (known_of self.now) (known_of other.now) }
    {
        self.numbers.leq(&other.numbers) && self.targets.leq(&other.targets)
    }

    /// An equal value.
    pub fn copy(&self, alloc: Global) -> Result<Value, AllocError>
        ensures { IfOk result (λ copy. copy ≡ self.now) }
    {
        let targets = self.targets.copy(alloc)?;
        Ok(Value {
            numbers: self.numbers,
            targets,
        })
    }

    /// What is stored of the value: all bounds moved outward to points of a ladder.
    pub fn stored(&self, alloc: Global, ladder: &Ladder) -> Result<Slot, AllocError>
        requires { IsLadder ladder.now }
        ensures { IfOk result (λ slot. slot ≡ stored ladder.now (known_of self.now)) }
    {
        if self.is_none() {
            return Ok(Slot::Nothing);
        }
        let targets = self.targets.snapped(alloc, ladder)?;
        Ok(Slot::Plain(Value {
            numbers: self.numbers.snap(ladder),
            targets,
        }))
    }

    /// The least value above both.
    pub fn joined(&self, alloc: Global, other: &Value) -> Result<Value, AllocError>
        ensures { IfOk result (λ value. value ≡ value_join self.now other.now) }
    {
        let targets = self.targets.joined(alloc, &other.targets)?;
        Ok(Value {
            numbers: self.numbers.hull(other.numbers),
            targets,
        })
    }
}

/// What a location holds. Plain is the one form with a value; a pack of variables and a top that
/// joins unlike slots are to come.
#[derive(Drop)]
pub enum Slot {
    Nothing,
    Plain(Value),
}

impl Lattice for Slot {
    ghost use Rattle.sp_value.specs.Slots.{slot_order};
    ghost use Rattle.sp_value.specs.SlotLaws.{slot_lawful};

    ghost order = { slot_order };

    fn bottom(_alloc: Global) -> Slot {
        Slot::Nothing
    }

    fn leq(&self, other: &Slot) -> bool {
        match (self, other) {
            (Slot::Nothing, _) => true,
            (Slot::Plain(_), Slot::Nothing) => false,
            (Slot::Plain(value), Slot::Plain(other)) => value.leq(other),
        }
    }

    fn join_into(&mut self, alloc: Global, other: &Slot) -> Result<bool, AllocError> {
        if other.leq(self) {
            return Ok(false);
        }
        match (&*self, other) {
            (_, Slot::Nothing) => {}
            (Slot::Nothing, Slot::Plain(value)) => *self = Slot::Plain(value.copy(alloc)?),
            (Slot::Plain(own), Slot::Plain(value)) => {
                let sum = own.joined(alloc, value)?;
                *self = Slot::Plain(sum);
            }
        }
        Ok(true)
    }

    fn copy(&self, alloc: Global) -> Result<Slot, AllocError> {
        match self {
            Slot::Nothing => Ok(Slot::Nothing),
            Slot::Plain(value) => {
                let copy = value.copy(alloc)?;
                Ok(Slot::Plain(copy))
            }
        }
    }

    ghost lawful = { slot_lawful };
}
