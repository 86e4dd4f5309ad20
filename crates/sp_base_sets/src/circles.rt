//! Which numbers lists lead back to themselves.
//!
//! A walk in depth joins numbers that lead to each other into *parts*, as soon as a number leads
//! back to one that is still open (Gabow, "Path-based depth-first search for strong and biconnected
//! components", 2000). Each number of a list is looked at once.
ghost use Rattle.std.specs.Prelude.{◌≡◌, ◌≢◌, ◌↔◌, ◌<◌, ◌-◌, ℕ, true, false, length, Some, slice_index_or, IfOk, OnOk};
ghost use Rattle.sp_base_sets.specs.Sets.{has, Ascends};
ghost use Rattle.sp_base_sets.specs.Reached.{row, Leads};
ghost use Rattle.sp_base_sets.specs.Circling.{state_of, stage_at, last_part, none_seen, entered, Joins, Settled, IsCircle, IsAlone, Ends, GoesOn, AreOpen, IsSearch, IsIdle, Waits, left};
ghost use Rattle.sp_base_sets.specs.declared.circles.Stage.TheVariants.{New};

use crate::number_set::NumberSet;
use std::alloc::{AllocError, Global};

/// How far the walk is with a number. One that is open has its place among the open ones.
#[derive(Clone, Copy)]
pub(crate) enum Stage {
    New,
    Open(usize),
    Done,
}

/// Open numbers that lead to each other: where they begin among the open ones, and where the
/// numbers that they lead to begin among those that wait. The next part ends both.
#[derive(Clone, Copy)]
pub(crate) struct Part {
    pub(crate) start: usize,
    pub(crate) waiting: usize,
}

/// The numbers that are open, in parts of which each leads to the next, and the marks of those that
/// are done.
#[derive(Drop)]
pub(crate) struct Search {
    pub(crate) stages: Vec<Stage>,
    pub(crate) marks: Vec<bool>,
    pub(crate) path: Vec<u32>,
    pub(crate) waiting: Vec<u32>,
    pub(crate) parts: Vec<Part>,
}

/// Which numbers lead to themselves in one step or more: a mark for each list.
pub fn in_circles(alloc: Global, lists: &[NumberSet]) -> Result<Vec<bool>, AllocError>
    requires { (f g : ℕ) → has g (row lists.now f) ≡ true → g < length lists.now }
    ensures { IfOk result (λ marks. (n : ℕ) →
        (slice_index_or marks.items n false ≡ true) ↔ Leads lists.now n n) }
{
    let Ok(count) = u32::try_from(lists.len()) else {
        return Err(AllocError);
    };
    let mut search = none_seen(alloc, lists.len())?;
    'roots: for number in 0..count {
        if let Stage::New = search.stages[number as usize] {
            search_from(&mut search, lists, number)?;
        }
    }
    Ok(search.marks)
}

fn none_seen(alloc: Global, count: usize) -> Result<Search, AllocError>
    ensures { IfOk result (λ search. state_of search ≡ none_seen count) }
{
    let mut stages = Vec::new(alloc);
    let mut marks = Vec::new(alloc);
    for _ in 0..count {
        stages.push(Stage::New)?;
        marks.push(false)?;
    }
    Ok(Search {
        stages,
        marks,
        path: Vec::new(alloc),
        waiting: Vec::new(alloc),
        parts: Vec::new(alloc),
    })
}

/// Sees all that a new number leads to.
fn search_from(search: &mut Search, lists: &[NumberSet], number: u32) -> Result<(), AllocError>
    requires low { (f g : ℕ) → has g (row lists.now f) ≡ true → g < length lists.now }
    requires search { IsIdle lists.now (state_of search.old) }
    requires number { number < length lists.now }
    requires new { stage_at (state_of search.old) number ≡ New }
    ensures idle { OnOk result (IsIdle lists.now (state_of search.new)) }
    ensures seen { OnOk result (GoesOn (state_of search.old) (state_of search.new)) }
    ensures here { OnOk result (stage_at (state_of search.new) number ≢ New) }
{
    enter(search, lists, number)?;
    'walk: while let Some(part) = last_part(search.parts.as_slice()) {
        if search.waiting.len() > part.waiting {
            go_on(search, lists)?;
        } else {
            end_part(search, lists, part);
        }
    }
    Ok(())
}

/// The innermost part.
fn last_part(parts: &[Part]) -> Option<Part>
    ensures { result ≡ last_part parts.now }
{
    parts.last().copied()
}

/// Looks at the number that came last of those that wait.
fn go_on(search: &mut Search, lists: &[NumberSet]) -> Result<(), AllocError>
    requires low { (f g : ℕ) → has g (row lists.now f) ≡ true → g < length lists.now }
    requires search { IsSearch lists.now (state_of search.old) }
    requires waits { Waits (state_of search.old) }
    ensures search { OnOk result (IsSearch lists.now (state_of search.new)) }
    ensures less { OnOk result
        (left lists.now (state_of search.new) < left lists.now (state_of search.old)) }
    ensures seen { OnOk result (GoesOn (state_of search.old) (state_of search.new)) }
{
    let Some(number) = search.waiting.pop() else {
        return Ok(());
    };
    match search.stages[number as usize] {
        Stage::New => enter(search, lists, number)?,
        Stage::Open(place) => join(search, place),
        Stage::Done => {}
    }
    Ok(())
}

/// Begins a part of one new number.
fn enter(search: &mut Search, lists: &[NumberSet], number: u32) -> Result<(), AllocError>
    requires low { number < length lists.now }
    requires long { length (state_of search.old).stages ≡ length lists.now }
    ensures entered { OnOk result
        (state_of search.new ≡ entered lists.now (state_of search.old) number) }
    ensures ascending { OnOk result (Ascends (row lists.now number)) }
{
    let place = search.path.len();
    search.parts.push(Part {
        start: place,
        waiting: search.waiting.len(),
    })?;
    search.path.push(number)?;
    search
        .waiting
        .extend_from_slice(lists[number as usize].as_slice())?;
    search.stages[number as usize] = Stage::Open(place);
    Ok(())
}

/// Makes one part of all from the one of this place on, since the last leads back there.
fn join(search: &mut Search, place: usize)
    ensures { Joins place (state_of search.old) (state_of search.new) }
{
    'parts: while let Some(part) = last_part(search.parts.as_slice()) {
        if part.start <= place {
            return;
        }
        search.parts.pop();
    }
}

/// Whether the numbers of the innermost part lead to themselves: they are several, or their one is
/// in its own list.
fn is_circle(search: &Search, lists: &[NumberSet], part: Part) -> bool
    requires search { IsSearch lists.now (state_of search.now) }
    requires last { last_part (state_of search.now).parts ≡ Some part }
    ensures circle { result ≡ true → IsCircle lists.now part (state_of search.now) }
    ensures none { result ≡ false → IsAlone lists.now part (state_of search.now) }
{
    if search.path.len() - part.start > 1 {
        return true;
    }
    let number = search.path[part.start];
    lists[number as usize].has(number)
}

/// Ends the innermost part: its numbers lead to numbers that are done, and to each other.
fn end_part(search: &mut Search, lists: &[NumberSet], part: Part)
    requires search { IsSearch lists.now (state_of search.old) }
    requires last { last_part (state_of search.old).parts ≡ Some part }
    ensures { Ends lists.now part (state_of search.old) (state_of search.new) }
{
    let mark = is_circle(search, lists, part);
    'numbers: while search.path.len() > part.start {
        settle_last(search, mark);
    }
    search.parts.pop();
}

/// The last open number is done.
fn settle_last(search: &mut Search, mark: bool)
    requires { AreOpen (state_of search.old) }
    ensures settled { Settled (length (state_of search.old).path - 1) mark
        (state_of search.old) (state_of search.new) }
    ensures parts { (state_of search.new).parts ≡ (state_of search.old).parts }
{
    if let Some(number) = search.path.pop() {
        search.stages[number as usize] = Stage::Done;
        search.marks[number as usize] = mark;
    }
}
