//! The declarations before one, by their names.
use crate::declarations::Declaration;
use indexmap::IndexMap;
use std::alloc::{AllocError, Global};

/// Declarations by name, each list in their order.
#[derive(Drop)]
pub(crate) struct Earlier<'a> {
    lists: IndexMap<u32, Vec<&'a Declaration>>,
}

impl<'a> Earlier<'a> {
    ghost use Rattle.std.specs.Prelude.{◌≡◌, ◌++◌, ◌∷◌, [], ℕ, OnOk, None, map, if◌then◌else◌, nat_eq};
    ghost use Rattle.indexmap.specs.IndexMap.{get};
    ghost use Rattle.sp_link_conflicts.specs.Views.{declaration_of, seen_declaration};
    ghost use Rattle.std.specs.Option.{option_copied};
    ghost use Rattle.sp_link_conflicts.specs.Earlier.{group, seen_items};

    /// None.
    pub(crate) fn new(alloc: Global) -> Earlier<'a>
        ensures { (n : ℕ) → group result n ≡ [] }
    {
        Earlier {
            lists: IndexMap::new(alloc),
        }
    }

    /// Those of a name, where there are some.
    pub(crate) fn find(&self, name: u32) -> Option<&Vec<&'a Declaration>>
        ensures { seen_items (option_copied result) ≡ group self.now name }
    {
        self.lists.get(&name)
    }

    /// Takes out the list of a name.
    fn take_list(&mut self, alloc: Global, name: u32) -> Vec<&'a Declaration>
        ensures list { map seen_declaration result.items ≡ group self.old name }
        ensures rest { (n : ℕ) → get nat_eq self.new.lists n ≡
            (if nat_eq name n then None else get nat_eq self.old.lists n) }
    {
        match self.lists.swap_remove(&name) {
            Some(list) => list,
            None => Vec::new(alloc),
        }
    }

    /// Adds one behind those of its name.
    pub(crate) fn add(&mut self, alloc: Global, item: &'a Declaration) -> Result<(), AllocError>
        ensures { OnOk result ((n : ℕ) → group self.new n ≡
            (if nat_eq (declaration_of item.now).name n
            then group self.old n ++ declaration_of item.now ∷ [] else group self.old n)) }
    {
        let name = item.name;
        let mut list = self.take_list(alloc, name);
        list.push(item)?;
        self.lists.insert(name, list)?;
        Ok(())
    }
}
