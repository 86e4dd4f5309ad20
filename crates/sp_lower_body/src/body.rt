//! Bodies, and what jumps, labels and loops do to them.
ghost use Rattle.std.specs.Prelude.{◌≡◌, ◌∷◌, ◌++◌, [], Bool, map, drop, OnOk, IfOk};
ghost use Rattle.sp_ir.specs.Commands.{skip};
ghost use Rattle.sp_lower_draft.specs.Draft.{next, add, with_loose};
ghost use Rattle.sp_lower_draft.specs.View.{context_of, draft_of, branch_of};
ghost use Rattle.sp_lower_body.specs.Bodies.{
  with_draft,
  meeting,
  gone,
  continued,
  broken,
  returned,
  labelled,
  marked,
  next_case,
  cases_behind,
  case_marked,
  in_loop,
  at_end,
  out_of_while,
  out_of_do,
  out_of_for,
  out_of_switch,
};
ghost use Rattle.sp_lower_body.specs.View.{body_of};

use sp_ir::Command;
use sp_lower_draft::{Draft, Ends, Scope};
use sp_tree::Place;
use std::alloc::AllocError;

/// A body as far as it is lowered.
#[derive(Drop)]
pub struct Body {
    pub draft: Draft,
    /// The ends that leave the innermost loop or switch.
    pub breaks: Vec<u32>,
    /// Those that go on with the innermost loop.
    pub continues: Vec<u32>,
    /// Those that leave the function.
    pub returns: Vec<u32>,
    /// Ends, each with the label that it goes to.
    pub gotos: Vec<(u32, u32)>,
    /// Labels with their nodes.
    pub labels: Vec<(u32, u32)>,
    /// The nodes that assume the cases of the innermost switch, in the order of the text.
    pub cases: Vec<u32>,
    /// How many of these cases have come.
    pub next_case: usize,
    /// The node of the innermost switch's default.
    pub otherwise: u32,
}

/// What a loop keeps of the loop outside.
#[derive(Drop)]
pub struct Outer {
    pub breaks: Vec<u32>,
    pub continues: Vec<u32>,
}

/// Adds a jump from each of `ends` to a label.
fn add_jumps(gotos: &mut Vec<(u32, u32)>, ends: &[u32], label: u32) -> Result<(), AllocError>
    ensures { OnOk result (gotos.new.items ≡ gotos.old.items ++ map (λ m. (m, label)) ends.now) }
{
    for end in ends {
        gotos.push((*end, label))?;
    }
    Ok(())
}

/// The first of these, or the default's node.
fn next_of(cases: &[u32], next: usize, otherwise: u32) -> u32
    ensures { result ≡ next_case (drop next cases.now) otherwise }
{
    match cases.get(next) {
        Some(node) => *node,
        None => otherwise,
    }
}

/// How many have come behind the next.
fn count_behind(cases: &[u32], next: usize) -> usize
    ensures { drop result cases.now ≡ cases_behind (drop next cases.now) }
{
    if next < cases.len() { next + 1 } else { next }
}

impl Body {
    /// `goto`
    pub fn go_to(&mut self, scope: &Scope<'_>, label: u32) -> Result<(), AllocError>
        ensures { OnOk result (body_of self.new ≡ gone label (body_of self.old)) }
    {
        let ends = self.draft.take_loose(scope.alloc);
        add_jumps(&mut self.gotos, ends.as_slice(), label)
    }

    /// `continue`
    pub fn go_on(&mut self, scope: &Scope<'_>) -> Result<(), AllocError>
        ensures { OnOk result (body_of self.new ≡ continued (body_of self.old)) }
    {
        let ends = self.draft.take_loose(scope.alloc);
        self.continues.extend_from_slice(ends.as_slice())?;
        Ok(())
    }

    /// `break`
    pub fn leave(&mut self, scope: &Scope<'_>) -> Result<(), AllocError>
        ensures { OnOk result (body_of self.new ≡ broken (body_of self.old)) }
    {
        let ends = self.draft.take_loose(scope.alloc);
        self.breaks.extend_from_slice(ends.as_slice())?;
        Ok(())
    }

    /// `return`, behind its value.
    pub fn go_back(&mut self, scope: &Scope<'_>) -> Result<(), AllocError>
        ensures { OnOk result (body_of self.new ≡ returned (body_of self.old)) }
    {
        let ends = self.draft.take_loose(scope.alloc);
        self.returns.extend_from_slice(ends.as_slice())?;
        Ok(())
    }

    /// A label's node.
    pub fn set_label(
        &mut self,
        scope: &Scope<'_>,
        label: u32,
        place: Place,
    ) -> Result<(), AllocError>
        ensures { OnOk result (body_of self.new ≡
            labelled (context_of scope.now) label place (body_of self.old)) }
    {
        let node = self.draft.add(scope, Command::Skip, place)?;
        self.labels.push((label, node))?;
        Ok(())
    }

    /// A node that is reached also from this end.
    fn mark(&mut self, scope: &Scope<'_>, from: u32, place: Place) -> Result<(), AllocError>
        ensures { OnOk result (body_of self.new ≡
            marked (context_of scope.now) from place (body_of self.old)) }
    {
        let mut ends = self.draft.take_loose(scope.alloc);
        ends.push(from)?;
        self.draft.set_loose(ends);
        self.draft.add(scope, Command::Skip, place)?;
        Ok(())
    }

    /// The node of the next case.
    pub fn set_case(&mut self, scope: &Scope<'_>, place: Place) -> Result<(), AllocError>
        ensures { OnOk result (body_of self.new ≡
            case_marked (context_of scope.now) place (body_of self.old)) }
    {
        let from = next_of(self.cases.as_slice(), self.next_case, self.otherwise);
        self.next_case = count_behind(self.cases.as_slice(), self.next_case);
        self.mark(scope, from, place)
    }

    /// The node of the default.
    pub fn set_default(&mut self, scope: &Scope<'_>, place: Place) -> Result<(), AllocError>
        ensures { OnOk result (body_of self.new ≡ marked (context_of scope.now)
            (body_of self.old).otherwise place (body_of self.old)) }
    {
        self.mark(scope, self.otherwise, place)
    }

    /// These ends are loose before those that are.
    pub fn meet(&mut self, scope: &Scope<'_>, ends: Vec<u32>) -> Result<(), AllocError>
        ensures { OnOk result (body_of self.new ≡ meeting ends.items (body_of self.old)) }
    {
        let mut ends = ends;
        let others = self.draft.take_loose(scope.alloc);
        ends.extend_from_slice(others.as_slice())?;
        self.draft.set_loose(ends);
        Ok(())
    }

    /// Inside a loop, from these ends. The ends that leave it and go on with it are its own.
    pub fn enter(&mut self, scope: &Scope<'_>, ends: Vec<u32>) -> Outer
        ensures body { body_of self.new ≡
            in_loop ends.items (draft_of self.old.draft) (body_of self.old) }
        ensures breaks { result.breaks.items ≡ self.old.breaks.items }
        ensures continues { result.continues.items ≡ self.old.continues.items }
    {
        self.draft.set_loose(ends);
        let breaks = std::mem::replace(&mut self.breaks, Vec::new(scope.alloc));
        let continues = std::mem::replace(&mut self.continues, Vec::new(scope.alloc));
        Outer { breaks, continues }
    }

    /// The node to which the ends of a loop's body and its `continue`s go.
    pub fn end_inside(&mut self, scope: &Scope<'_>, place: Place) -> Result<(), AllocError>
        ensures { OnOk result (body_of self.new ≡
            at_end (context_of scope.now) place (body_of self.old)) }
    {
        let mut ends = self.draft.take_loose(scope.alloc);
        ends.extend_from_slice(self.continues.as_slice())?;
        self.draft.set_loose(ends);
        self.draft.add(scope, Command::Skip, place)?;
        Ok(())
    }

    /// Behind the body of a `while`: its ends and its `continue`s go to the head; the false ends of
    /// the condition leave.
    pub fn end_while(
        &mut self,
        scope: &Scope<'_>,
        head: u32,
        no: Vec<u32>,
        outer: Outer,
    ) -> Result<(), AllocError>
        ensures { OnOk result (body_of self.new ≡ out_of_while outer.breaks.items
            outer.continues.items head no.items (body_of self.old)) }
    {
        let mut no = no;
        let Outer { breaks, continues } = outer;
        let mut ends = self.draft.take_loose(scope.alloc);
        ends.extend_from_slice(self.continues.as_slice())?;
        self.draft.join(head, ends.as_slice())?;
        no.extend_from_slice(self.breaks.as_slice())?;
        self.draft.set_loose(no);
        self.breaks = breaks;
        self.continues = continues;
        Ok(())
    }

    /// Behind the branch of a `do`: its true ends go to the head, its false ends leave.
    pub fn end_do(&mut self, head: u32, ends: Ends, outer: Outer) -> Result<(), AllocError>
        ensures { OnOk result (body_of self.new ≡ out_of_do outer.breaks.items
            outer.continues.items head (branch_of ends (draft_of self.old.draft))
            (body_of self.old)) }
    {
        let Ends { yes, mut no } = ends;
        let Outer { breaks, continues } = outer;
        self.draft.join(head, yes.as_slice())?;
        no.extend_from_slice(self.breaks.as_slice())?;
        self.draft.set_loose(no);
        self.breaks = breaks;
        self.continues = continues;
        Ok(())
    }

    /// Behind the last expression of a `for`: its ends go to the head; the false ends of the
    /// condition leave.
    pub fn end_for(
        &mut self,
        scope: &Scope<'_>,
        head: u32,
        no: Vec<u32>,
        outer: Outer,
    ) -> Result<(), AllocError>
        ensures { OnOk result (body_of self.new ≡ out_of_for outer.breaks.items
            outer.continues.items head no.items (body_of self.old)) }
    {
        let mut no = no;
        let Outer { breaks, continues } = outer;
        let ends = self.draft.take_loose(scope.alloc);
        self.draft.join(head, ends.as_slice())?;
        no.extend_from_slice(self.breaks.as_slice())?;
        self.draft.set_loose(no);
        self.breaks = breaks;
        self.continues = continues;
        Ok(())
    }
}
