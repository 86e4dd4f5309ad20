//! The scopes that are open at a place.
#![tactic(auto, unfolding(crate::specs::Views::scopes_of), using(crate::proofs::Around::around))]

ghost use Rattle.std.specs.Prelude.{◌≡◌, OnOk, OnErr, option_map, map, reverse};
ghost use Rattle.std.specs.Option.{option_copied};
ghost use Rattle.sp_check_scopes.specs.Meanings.{meaning_of};
ghost use Rattle.sp_check_scopes.specs.Views.{scope_of};
ghost use Rattle.sp_check_scopes.specs.Scopes.{
  file_scope,
  is_file_scope,
  entry,
  visible_meaning,
  visible_tag,
  entered,
  left,
  set_aside,
  resumed,
  with_name,
  with_tag,
  meaning_in,
  tag_in,
  meaning_in_block,
  block_meaning,
  with_block_name,
  named_in_block,
};

use crate::{Meaning, Scope, ScopeKind, Tag};
use std::alloc::{AllocError, Global};
use std::mem;

/// The scopes that are open at a place of the text: the innermost, and those around it.
///
/// Contracts see by `scopes_of` the innermost scope and the list of the others, the next one first.
#[derive(Drop)]
pub struct Scopes {
    inner: Scope,
    /// The outermost first.
    around: Vec<Scope>,
}

impl Scopes {
    ghost use Rattle.sp_check_scopes.specs.Views.{scopes_of};

    /// The scope of the file alone, in which nothing is declared.
    pub fn new(alloc: Global) -> Scopes
        ensures { scopes_of result ≡ file_scope }
    {
        Scopes {
            inner: Scope::new(alloc, ScopeKind::Block),
            around: Vec::new(alloc),
        }
    }

    /// Whether the innermost scope is that of the file.
    pub fn is_file_scope(&self) -> bool
        ensures { result ≡ is_file_scope (scopes_of self.now) }
    {
        self.around.is_empty()
    }

    /// Opens a scope inside the others.
    pub fn enter(&mut self, alloc: Global, kind: ScopeKind) -> Result<(), AllocError>
        ensures ok { OnOk result (scopes_of self.new ≡ entered kind (scopes_of self.old)) }
        ensures err { OnErr result (scopes_of self.new ≡ scopes_of self.old) }
    {
        let outer = mem::replace(&mut self.inner, Scope::new(alloc, kind));
        if let Err(refused) = self.around.push(outer) {
            self.inner = refused.value;
            return Err(AllocError);
        }
        Ok(())
    }

    /// Closes the innermost scope. That of the file stays.
    pub fn leave(&mut self)
        ensures { scopes_of self.new ≡ left (scopes_of self.old) }
    {
        if let Some(outer) = self.around.pop() {
            self.inner = outer;
        }
    }

    /// Takes the innermost scope from the others, and answers it. In the place of the file's comes
    /// an empty one.
    pub fn set_aside(&mut self, alloc: Global) -> Scope
        ensures scope { scope_of result ≡ (scopes_of self.old).inner }
        ensures others { scopes_of self.new ≡ set_aside (scopes_of self.old) }
    {
        let outer = match self.around.pop() {
            Some(outer) => outer,
            None => Scope::new(alloc, ScopeKind::Block),
        };
        mem::replace(&mut self.inner, outer)
    }

    /// Opens a scope that was set aside inside the others, as a block's: the parameters of a
    /// definition are in the block that is its body (C90 6.1.2.1).
    pub fn resume(&mut self, scope: Scope) -> Result<(), AllocError>
        ensures ok { OnOk result (scopes_of self.new ≡
            resumed (scope_of scope) (scopes_of self.old)) }
        ensures err { OnErr result (scopes_of self.new ≡ scopes_of self.old) }
    {
        let outer = mem::replace(&mut self.inner, scope.into_block());
        if let Err(refused) = self.around.push(outer) {
            self.inner = refused.value;
            return Err(AllocError);
        }
        Ok(())
    }

    /// What a name stands for here: its meaning in the innermost scope that has it.
    pub fn visible(&self, name: u32) -> Option<&Meaning>
        ensures { option_map meaning_of (option_copied result) ≡
            visible_meaning (scopes_of self.now) name }
    {
        let here = self.inner.meaning(name);
        if here.is_some() {
            return here;
        }
        meaning_around(&self.around, name)
    }

    /// What a tag stands for here.
    pub fn visible_tag(&self, name: u32) -> Option<Tag>
        ensures { result ≡ visible_tag (scopes_of self.now) name }
    {
        let here = self.inner.tag(name);
        if here.is_some() {
            return here;
        }
        tag_around(&self.around, name)
    }

    /// What the innermost scope has for a name.
    pub fn meaning_here(&self, name: u32) -> Option<&Meaning>
        ensures { option_map meaning_of (option_copied result) ≡
            entry (scopes_of self.now).inner.names name }
    {
        self.inner.meaning(name)
    }

    /// What the innermost scope has for a tag.
    pub fn tag_here(&self, name: u32) -> Option<Tag>
        ensures { result ≡ entry (scopes_of self.now).inner.tags name }
    {
        self.inner.tag(name)
    }

    /// What the innermost block has for a name, or the file where no block is open.
    pub fn meaning_in_block(&self, name: u32) -> Option<&Meaning>
        ensures { option_map meaning_of (option_copied result) ≡
            meaning_in_block (scopes_of self.now) name }
    {
        if self.inner.is_block() {
            return self.inner.meaning(name);
        }
        block_meaning(&self.around, name)
    }

    /// Gives a name its meaning in the innermost block, or in the file where no block is open.
    pub fn add_block_name(&mut self, name: u32, meaning: Meaning) -> Result<(), AllocError>
        ensures ok { OnOk result (scopes_of self.new ≡
            with_block_name (scopes_of self.old) name (meaning_of meaning)) }
        ensures err { OnErr result (scopes_of self.new ≡ scopes_of self.old) }
    {
        if self.inner.is_block() {
            return self.inner.add_name(name, meaning);
        }
        name_in_block(&mut self.around, name, meaning)
    }

    /// Gives a name its meaning in the innermost scope.
    pub fn add_name(&mut self, name: u32, meaning: Meaning) -> Result<(), AllocError>
        ensures ok { OnOk result (scopes_of self.new ≡
            with_name (scopes_of self.old) name (meaning_of meaning)) }
        ensures err { OnErr result (scopes_of self.new ≡ scopes_of self.old) }
    {
        self.inner.add_name(name, meaning)
    }

    /// Gives a tag its meaning in the innermost scope.
    pub fn add_tag(&mut self, name: u32, tag: Tag) -> Result<(), AllocError>
        ensures ok { OnOk result (scopes_of self.new ≡ with_tag (scopes_of self.old) name tag) }
        ensures err { OnErr result (scopes_of self.new ≡ scopes_of self.old) }
    {
        self.inner.add_tag(name, tag)
    }
}

/// What a name stands for in the last of these scopes that has it.
fn meaning_around(scopes: &[Scope], name: u32) -> Option<&Meaning>
    ensures { option_map meaning_of (option_copied result) ≡
        meaning_in (reverse (map scope_of scopes.now)) name }
{
    let mut left = scopes.len();
    'scopes: while left > 0 {
        left -= 1;
        let found = scopes[left].meaning(name);
        if found.is_some() {
            return found;
        }
    }
    None
}

/// What a tag stands for in the last of these scopes that has it.
fn tag_around(scopes: &[Scope], name: u32) -> Option<Tag>
    ensures { result ≡ tag_in (reverse (map scope_of scopes.now)) name }
{
    let mut left = scopes.len();
    'scopes: while left > 0 {
        left -= 1;
        let found = scopes[left].tag(name);
        if found.is_some() {
            return found;
        }
    }
    None
}

/// What a name stands for in the last of these scopes that is a block's.
fn block_meaning(scopes: &[Scope], name: u32) -> Option<&Meaning>
    ensures { option_map meaning_of (option_copied result) ≡
        block_meaning (reverse (map scope_of scopes.now)) name }
{
    let (last, others) = scopes.split_last()?;
    if last.is_block() {
        last.meaning(name)
    } else {
        block_meaning(others, name)
    }
}

/// Gives a name its meaning in the last of these scopes that is a block's.
fn name_in_block(scopes: &mut [Scope], name: u32, meaning: Meaning) -> Result<(), AllocError>
    ensures ok { OnOk result (reverse (map scope_of scopes.new) ≡
        named_in_block (reverse (map scope_of scopes.old)) name (meaning_of meaning)) }
    ensures err { OnErr result (map scope_of scopes.new ≡ map scope_of scopes.old) }
{
    let Some((last, others)) = scopes.split_last_mut() else {
        return Ok(());
    };
    if last.is_block() {
        last.add_name(name, meaning)
    } else {
        name_in_block(others, name, meaning)
    }
}
