//! Names by number.
ghost use Rattle.std.specs.Prelude.{◌≡◌, ℕ, ◌-◌, ◌^◌, ◌<◌, [], length, slice_get, ◌==◌, IfOk, OnOk, OnErr};
ghost use Rattle.std.specs.Option.{option_copied};
ghost use Rattle.sp_tree.specs.Names.{with_name, AreDistinct, Extends};

use indexmap::IndexSet;
use std::alloc::{AllocError, Global};
use std::marker::Model;

/// The names of a program, each once, numbered from 0 in the order in which they were first added.
///
/// Contracts see it as the list of the names, where a name is the list of its bytes and its number is its place.
#[derive(Drop)]
pub struct Names {
    set: IndexSet<Vec<u8>>,
}

impl Model for Names {
    ghost use Rattle.std.specs.Prelude.{List, ℕ, map};

    ghost Value = { List (List ℕ) };

    ghost use Rattle.sp_tree.specs.Names.{AreDistinct};

    ghost view = { λ n. map (λ name. name.items) n.set.keys };

    ghost invariant = { λ n. AreDistinct (map (λ name. name.items) n.set.keys) };
}

impl Names {
    /// No names.
    pub fn new(alloc: Global) -> Names
        ensures { result ≡ [] }
    {
        Names {
            set: IndexSet::new(alloc),
        }
    }

    /// How many names are held. No two of them have the same bytes.
    pub fn len(&self) -> usize
        ensures count { result ≡ length self.now }
        ensures distinct { AreDistinct self.now }
    {
        self.set.len()
    }

    /// Whether no names are held.
    pub fn is_empty(&self) -> bool
        ensures { result ≡ (length self.now == 0) }
    {
        self.set.is_empty()
    }

    /// The number of these bytes: their old one where they are held, else the next, and then they go last.
    ///
    /// Wants memory for bytes that aren't held yet; the names are then unchanged.
    pub fn add(&mut self, bytes: &[u8]) -> Result<u32, AllocError>
        requires { length self.old < 2 ^ 32 - 1 }
        ensures ok { OnOk result (self.new ≡ with_name self.old bytes.now) }
        ensures err { OnErr result (self.new ≡ self.old) }
        ensures stored { IfOk result (λ number. slice_get self.new number ≡ Some bytes.now) }
        ensures kept { Extends self.old self.new }
        ensures distinct { AreDistinct self.new }
    {
        if let Some(number) = self.set.get_index_of(bytes) {
            return Ok(number as u32);
        }
        let name = Vec::from_slice(*self.set.allocator(), bytes)?;
        let (number, _) = self.set.insert_full(name)?;
        Ok(number as u32)
    }

    /// The bytes of a number, or `None` exactly where it isn't below the count.
    pub fn get(&self, number: u32) -> Option<&[u8]>
        ensures { option_copied result ≡ slice_get self.now number }
    {
        match self.set.get_index(number as usize) {
            Some(name) => Some(name.as_slice()),
            None => None,
        }
    }
}
