//! One of the two spaces of a scope (C90 6.1.2.3).
#![tactic(auto, unfolding(crate::specs::Views::entries_of), using(crate::proofs::Spaces::spaces))]

ghost use Rattle.std.specs.Prelude.{◌≡◌, ◌++◌, [], OnOk, OnErr, nat_eq};
ghost use Rattle.std.specs.Map.{lookup, set_value};
ghost use Rattle.std.specs.Option.{option_copied};
ghost use Rattle.indexmap.specs.IndexMap.{insert_entry};
ghost use Rattle.sp_check_scopes.specs.Scopes.{entry};
ghost use Rattle.sp_check_scopes.specs.Views.{replaced_or};

use indexmap::IndexMap;
use std::alloc::{AllocError, Global};

/// How many names are walked through for one. Most blocks declare no more, and those hash nothing.
const WALKED: usize = 8;

/// Names with what they stand for, in the order of declaration; or tags.
///
/// Contracts see it by `entries_of` as the list of these pairs. The first eight are walked through,
/// those behind them are looked up in a map.
#[derive(Drop)]
pub(crate) struct Space<T> {
    alloc: Global,
    first: Vec<(u32, T)>,
    later: Option<Box<IndexMap<u32, T>>>,
}

impl<T: Drop> Space<T> {
    ghost use Rattle.sp_check_scopes.specs.Views.{entries_of, later_of};

    /// A space without names.
    pub(crate) fn new(alloc: Global) -> Space<T>
        ensures { entries_of result ≡ [] }
    {
        Space {
            alloc,
            first: Vec::new(alloc),
            later: None,
        }
    }

    /// What a name stands for.
    pub(crate) fn get(&self, name: u32) -> Option<&T>
        ensures { option_copied result ≡ entry (entries_of self.now) name }
    {
        let found = entry(&self.first, name);
        if found.is_some() {
            return found;
        }
        match &self.later {
            None => None,
            Some(later) => later.get(&name),
        }
    }

    /// Gives a name what it stands for: a new name goes last, and one that is there takes it.
    pub(crate) fn insert(&mut self, name: u32, what: T) -> Result<(), AllocError>
        ensures ok { OnOk result (entries_of self.new ≡
            insert_entry nat_eq (entries_of self.old) name what) }
        ensures err { OnErr result (entries_of self.new ≡ entries_of self.old) }
    {
        match replace(&mut self.first, name, what) {
            Ok(()) => Ok(()),
            Err(what) => self.insert_behind(name, what),
        }
    }

    /// The same of a name that the first lack.
    fn insert_behind(&mut self, name: u32, what: T) -> Result<(), AllocError>
        ensures ok { OnOk result (entries_of self.new ≡
            self.old.first.items ++ insert_entry nat_eq (later_of self.old.later) name what) }
        ensures err { OnErr result (entries_of self.new ≡ entries_of self.old) }
    {
        if let Some(later) = &mut self.later {
            later.insert(name, what)?;
            return Ok(());
        }
        if self.first.len() < WALKED {
            self.first.push((name, what))?;
            return Ok(());
        }
        let mut later = IndexMap::new(self.alloc);
        later.insert(name, what)?;
        self.later = Some(Box::new(self.alloc, later)?);
        Ok(())
    }
}

/// What a name stands for by these.
fn entry<T>(these: &[(u32, T)], name: u32) -> Option<&T>
    ensures { option_copied result ≡ entry these.now name }
{
    let (first, others) = these.split_first()?;
    if first.0 == name {
        Some(&first.1)
    } else {
        entry(others, name)
    }
}

/// Gives a name of these what it stands for. Where they lack the name, the error is that.
fn replace<T: Drop>(these: &mut [(u32, T)], name: u32, what: T) -> Result<(), T>
    ensures these { these.new ≡ set_value (nat_eq name) these.old what }
    ensures back { result ≡ replaced_or (lookup (nat_eq name) these.old) what }
{
    let Some((first, others)) = these.split_first_mut() else {
        return Err(what);
    };
    if first.0 == name {
        first.1 = what;
        Ok(())
    } else {
        replace(others, name, what)
    }
}
