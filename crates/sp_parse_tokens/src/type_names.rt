//! The names that are type names.
ghost use Rattle.std.specs.Prelude.{◌≡◌, ◌++◌, ◌∷◌, [], ◌==◌, OnOk, OnErr};
ghost use Rattle.std.specs.List.{list_any};

use indexmap::IndexSet;
use std::alloc::{AllocError, Global};
use std::marker::Model;

/// Names that are type names, by their numbers.
///
/// Contracts see them as the list of the numbers, in the order in which they were added.
#[derive(Drop)]
pub struct TypeNames {
    names: Vec<u32>,
    /// The same names, to look them up.
    set: IndexSet<u32>,
}

impl Model for TypeNames {
    ghost use Rattle.std.specs.Prelude.{List, ℕ, ◌≡◌, ◌==◌, nat_eq};
    ghost use Rattle.std.specs.List.{list_any};
    ghost use Rattle.indexmap.specs.IndexSet.{contains};

    ghost Value = { List ℕ };

    ghost view = { λ t. t.names.items };

    ghost invariant = { λ t. (n : ℕ) → contains nat_eq t.set n ≡ list_any (λ m. m == n) t.names.items };
}

impl TypeNames {
    /// No type names.
    pub fn new(alloc: Global) -> TypeNames
        ensures { result ≡ [] }
    {
        TypeNames {
            names: Vec::new(alloc),
            set: IndexSet::new(alloc),
        }
    }

    /// Makes a name a type name. Wants memory; the names are then unchanged.
    pub fn add(&mut self, name: u32) -> Result<(), AllocError>
        ensures ok { OnOk result (self.new ≡ self.old ++ name ∷ []) }
        ensures err { OnErr result (self.new ≡ self.old) }
    {
        self.names.push(name)?;
        match self.set.insert(name) {
            Ok(_) => Ok(()),
            Err(_) => {
                self.names.pop();
                Err(AllocError)
            }
        }
    }

    /// Whether the name is a type name.
    pub fn holds(&self, name: u32) -> bool
        ensures { result ≡ list_any (λ t. t == name) self.now }
    {
        // Many units have no type names: no hash is taken for those.
        !self.names.is_empty() && self.set.contains(&name)
    }
}
