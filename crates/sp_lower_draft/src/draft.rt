//! Nodes and edges as they are made, with the loose ends.
ghost use Rattle.std.specs.Prelude.{◌≡◌, ◌+◌, ◌++◌, [], IfOk, OnOk};
ghost use Rattle.sp_types.specs.View.{type_of};
ghost use Rattle.sp_ir.specs.View.{command_of, lvalue_of};
ghost use Rattle.sp_lower_draft.specs.Draft.{join, next, edges_to, add, temporary, with_loose};
ghost use Rattle.sp_lower_draft.specs.View.{context_of, draft_of};
ghost use Rattle.sp_lower_draft.specs.Outcome.{Leaves, Gives};

use crate::Scope;
use sp_ir::{Command, Lvalue, Node};
use sp_tree::Place;
use sp_types::CType;
use std::alloc::{AllocError, Global};

/// The ends of a condition: the nodes behind which it holds, and those behind which it doesn't.
#[derive(Drop)]
pub struct Ends {
    pub yes: Vec<u32>,
    pub no: Vec<u32>,
}

/// An object that a call gives.
#[derive(Drop)]
pub struct Site {
    /// The node of the call.
    pub node: u32,
    /// The type of its elements, where one is given to it.
    pub of: Option<CType>,
    /// Whether the library made it.
    pub heap: bool,
}

/// The nodes and edges so far, and the nodes that still need a successor.
#[derive(Drop)]
pub struct Draft {
    pub nodes: Vec<Node>,
    /// In the order in which they are made; a loop's back edges come where the loop ends.
    pub edges: Vec<(u32, u32)>,
    pub loose: Vec<u32>,
    /// The types of the function's temporaries, by the first node that writes each.
    pub temporaries: Vec<CType>,
    pub sites: Vec<Site>,
}

/// Adds an edge from each of `froms` to `to`.
fn add_edges(edges: &mut Vec<(u32, u32)>, froms: &[u32], to: u32) -> Result<(), AllocError>
    ensures { OnOk result (edges.new.items ≡ edges.old.items ++ edges_to to froms.now) }
{
    for from in froms {
        edges.push((*from, to))?;
    }
    Ok(())
}

/// The number that is so far behind another. Past 2^32 it wants memory.
pub fn number_behind(first: u32, count: usize) -> Result<u32, AllocError>
    ensures { IfOk result (λ n. n ≡ first + count) }
{
    match usize::try_from(first) {
        Ok(first) => match first.checked_add(count) {
            Some(number) => u32::try_from(number).map_err(|_| AllocError),
            None => Err(AllocError),
        },
        Err(_) => Err(AllocError),
    }
}

impl Draft {
    /// A node with an edge from each loose end. It becomes the only loose end. A number past 2^32
    /// is want of memory.
    pub fn add(
        &mut self,
        scope: &Scope<'_>,
        command: Command,
        place: Place,
    ) -> Result<u32, AllocError>
        ensures made { Leaves result (draft_of self.new)
            (add (context_of scope.now) (command_of command) place (draft_of self.old)) }
        ensures number { IfOk result (λ node. node ≡ next (draft_of self.old)) }
    {
        let Ok(node) = u32::try_from(self.nodes.len()) else {
            return Err(AllocError);
        };
        self.nodes.push(Node {
            command,
            place,
            function: Some(scope.function),
        })?;
        add_edges(&mut self.edges, self.loose.as_slice(), node)?;
        self.loose.clear();
        self.loose.push(node)?;
        Ok(node)
    }

    /// A new temporary of this type.
    pub fn temporary(&mut self, scope: &Scope<'_>, of: &CType) -> Result<Lvalue, AllocError>
        ensures { Gives lvalue_of result (draft_of self.new)
            (temporary (context_of scope.now) (type_of of.now) (draft_of self.old)) }
    {
        let number = number_behind(scope.first_temporary, self.temporaries.len())?;
        self.temporaries.push(of.copy(scope.alloc)?)?;
        Ok(Lvalue::direct(number, of.copy(scope.alloc)?))
    }

    /// An edge from each of these ends to that node.
    pub fn join(&mut self, node: u32, ends: &[u32]) -> Result<(), AllocError>
        ensures { OnOk result (draft_of self.new ≡ join node ends.now (draft_of self.old)) }
    {
        add_edges(&mut self.edges, ends, node)
    }

    /// The loose ends; none are left.
    pub fn take_loose(&mut self, alloc: Global) -> Vec<u32>
        ensures taken { result.items ≡ (draft_of self.old).loose }
        ensures draft { draft_of self.new ≡ with_loose [] (draft_of self.old) }
    {
        std::mem::replace(&mut self.loose, Vec::new(alloc))
    }

    /// The loose ends once more.
    pub fn copy_loose(&self, alloc: Global) -> Result<Vec<u32>, AllocError>
        ensures { IfOk result (λ ends. ends.items ≡ (draft_of self.now).loose) }
    {
        Vec::from_slice(alloc, self.loose.as_slice())
    }

    /// These are the loose ends.
    pub fn set_loose(&mut self, ends: Vec<u32>)
        ensures { draft_of self.new ≡ with_loose ends.items (draft_of self.old) }
    {
        self.loose = ends;
    }
}
