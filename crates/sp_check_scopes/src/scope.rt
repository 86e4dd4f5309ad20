//! One scope.
#![tactic(auto, unfolding(crate::specs::Views::scope_of), using(crate::proofs::Entries::entries))]

ghost use Rattle.std.specs.Prelude.{◌≡◌, OnOk, OnErr, option_map};
ghost use Rattle.std.specs.Option.{option_copied};
ghost use Rattle.sp_check_scopes.specs.Scopes.{empty_scope, entry, is_block, name_added, tag_added};

use crate::space::Space;
use crate::{Meaning, Tag};
use std::alloc::{AllocError, Global};

/// The kinds of scopes (C90 6.1.2.1).
#[derive(Clone, Copy, Debug, PartialEq, Eq)]
pub enum ScopeKind {
    /// That of a block, or of the file.
    Block,
    /// That of a list of parameters.
    Parameters,
}

/// The names and the tags that a block declares, the file, or a list of parameters. They are two
/// spaces (C90 6.1.2.3).
///
/// Contracts see it by `scope_of` as its kind, and two lists of pairs, in the order of declaration.
#[derive(Drop)]
pub struct Scope {
    kind: ScopeKind,
    names: Space<Meaning>,
    tags: Space<Tag>,
}

impl Scope {
    ghost use Rattle.sp_check_scopes.specs.Meanings.{meaning_of};
    ghost use Rattle.sp_check_scopes.specs.Views.{scope_of};

    /// A scope in which nothing is declared.
    pub fn new(alloc: Global, kind: ScopeKind) -> Scope
        ensures { scope_of result ≡ empty_scope kind }
    {
        Scope {
            kind,
            names: Space::new(alloc),
            tags: Space::new(alloc),
        }
    }

    /// Whether it is that of a block, or of the file.
    pub fn is_block(&self) -> bool
        ensures { result ≡ is_block (scope_of self.now).kind }
    {
        self.kind == ScopeKind::Block
    }

    /// The same scope as a block's.
    pub fn into_block(self) -> Scope
        ensures { scope_of result ≡ record (scope_of self) { kind = ScopeKind.Block } }
    {
        Scope {
            kind: ScopeKind::Block,
            names: self.names,
            tags: self.tags,
        }
    }

    /// What the scope has for a name.
    pub fn meaning(&self, name: u32) -> Option<&Meaning>
        ensures { option_map meaning_of (option_copied result) ≡
            entry (scope_of self.now).names name }
    {
        self.names.get(name)
    }

    /// What the scope has for a tag.
    pub fn tag(&self, name: u32) -> Option<Tag>
        ensures { result ≡ entry (scope_of self.now).tags name }
    {
        self.tags.get(name).copied()
    }

    /// Gives a name its meaning: a new name goes last, and one that is there takes the meaning.
    pub fn add_name(&mut self, name: u32, meaning: Meaning) -> Result<(), AllocError>
        ensures ok { OnOk result (scope_of self.new ≡
            name_added (scope_of self.old) name (meaning_of meaning)) }
        ensures err { OnErr result (scope_of self.new ≡ scope_of self.old) }
    {
        self.names.insert(name, meaning)
    }

    /// The same for a tag.
    pub fn add_tag(&mut self, name: u32, tag: Tag) -> Result<(), AllocError>
        ensures ok { OnOk result (scope_of self.new ≡ tag_added (scope_of self.old) name tag) }
        ensures err { OnErr result (scope_of self.new ≡ scope_of self.old) }
    {
        self.tags.insert(name, tag)
    }
}
