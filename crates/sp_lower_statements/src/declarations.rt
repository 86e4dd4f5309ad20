//! Declarations with start values (C90 6.5.7).
ghost use Rattle.std.specs.Prelude.{◌≡◌, map, drop, slice_get, option_map, Vec};
ghost use Rattle.std.specs.declared.alloc.Global.{Global};
ghost use Rattle.sp_types.specs.View.{type_of};
ghost use Rattle.sp_types.specs.TypedView.{typed_of};
ghost use Rattle.sp_types.specs.Programs.{object_of};
ghost use Rattle.sp_ir.specs.View.{leaf_of};
ghost use Rattle.sp_ir.specs.declared.command.Leaf.{Leaf};
ghost use Rattle.sp_lower_draft.specs.View.{context_of, draft_of};
ghost use Rattle.sp_lower_draft.specs.Outcome.{Leaves, Gives};
ghost use Rattle.sp_lower_body.specs.Frames.{initial_of, known_initial};
ghost use Rattle.sp_lower_body.specs.Declarations.{
  first_cell,
  leaves,
  initialised,
  set_to,
  is_whole,
  started,
  is_automatic,
  declared,
  declare_all,
};
ghost use Rattle.sp_lower_body.specs.View.{frame_of, initial_view};
ghost use Rattle.sp_lower_statements.specs.Starts.{starts_of, adding_starts, adding_behind};

use sp_ir::{Command, Leaf, Lvalue};
use sp_lower_body::{Frame, Initial};
use sp_lower_draft::{Draft, Scope, is_scalar, is_struct, keep, stored};
use sp_lower_expr::{adds, value};
use sp_tree::Place;
use sp_types::{CType, Storage, TypedExpr};
use std::alloc::AllocError;

/// How many of these values add nodes.
fn adding_starts(starts: &[(u64, TypedExpr)]) -> usize
    ensures { result ≡ adding_starts (starts_of starts.now) }
{
    let mut count = 0;
    for start in starts {
        if adds(&start.1) {
            count += 1;
        }
    }
    count
}

fn cell_at(cells: &[u32], index: usize) -> u32
    ensures { result ≡ first_cell (drop index cells.now) }
{
    match cells.get(index) {
        Some(cell) => *cell,
        None => 0,
    }
}

/// So many but one, where this value adds nodes.
fn adding_behind(count: usize, value: &TypedExpr) -> usize
    ensures { result ≡ adding_behind count (typed_of value.now) }
{
    if adds(value) {
        count.saturating_sub(1)
    } else {
        count
    }
}

/// The values of leaves with their cells, each kept where a later one adds nodes.
fn leaves(
    scope: &Scope<'_>,
    draft: &mut Draft,
    cells: &[u32],
    starts: &[(u64, TypedExpr)],
) -> Result<Vec<Leaf>, AllocError>
    ensures { Gives (λ (ls : Vec Leaf Global). map leaf_of ls.items) result (draft_of draft.new)
        (leaves (context_of scope.now) cells.now (starts_of starts.now) (draft_of draft.old)) }
{
    let mut leaves = Vec::new(scope.alloc);
    let mut later = adding_starts(starts);
    for (i, start) in starts.iter().enumerate() {
        let v = value(scope, draft, None, &start.1)?;
        later = adding_behind(later, &start.1);
        let v = keep(scope, draft, later > 0, &start.1, v)?;
        leaves.push(Leaf {
            number: start.0,
            cell: cell_at(cells, i),
            value: v,
        })?;
    }
    Ok(leaves)
}

/// An array, a struct or a union: its values, then one node.
fn initialised(
    scope: &Scope<'_>,
    draft: &mut Draft,
    initial: &Initial,
    object: u32,
    place: Place,
    starts: &[(u64, TypedExpr)],
) -> Result<(), AllocError>
    ensures { Leaves result (draft_of draft.new) (initialised (context_of scope.now)
        (initial_view initial.now) object place (starts_of starts.now) (draft_of draft.old)) }
{
    let values = leaves(scope, draft, initial.cells.as_slice(), starts)?;
    let zero = Vec::from_slice(scope.alloc, initial.zero.as_slice())?;
    let command = Command::Init {
        object,
        values,
        zero,
    };
    draft.add(scope, command, place)?;
    Ok(())
}

/// A scalar, or a struct that one expression of its type initialises.
fn set_to(
    scope: &Scope<'_>,
    draft: &mut Draft,
    object: u32,
    of: &CType,
    place: Place,
    start: &TypedExpr,
) -> Result<(), AllocError>
    ensures { Leaves result (draft_of draft.new) (set_to (context_of scope.now) object
        (type_of of.now) place (typed_of start.now) (draft_of draft.old)) }
{
    let v = value(scope, draft, None, start)?;
    let to = Lvalue::direct(object, of.copy(scope.alloc)?);
    draft.add(scope, stored(to, of, v), place)?;
    Ok(())
}

/// Whether the first of these values is that of the whole object.
fn is_whole(of: &CType, first: &TypedExpr, others: &[(u64, TypedExpr)]) -> bool
    ensures { result ≡ is_whole (type_of of.now) (typed_of first.now) (starts_of others.now) }
{
    if others.is_empty() {
        is_scalar(of) || (is_struct(of) && is_struct(first.of()))
    } else {
        is_scalar(of)
    }
}

/// An automatic object with these start values.
fn started(
    scope: &Scope<'_>,
    draft: &mut Draft,
    initial: &Initial,
    object: u32,
    of: &CType,
    place: Place,
    starts: &[(u64, TypedExpr)],
) -> Result<(), AllocError>
    ensures { Leaves result (draft_of draft.new) (started (context_of scope.now)
        (initial_view initial.now) object (type_of of.now) place (starts_of starts.now)
        (draft_of draft.old)) }
{
    match starts {
        [] => Ok(()),
        [first, others @ ..] => {
            if is_whole(of, &first.1, others) {
                set_to(scope, draft, object, of, place, &first.1)
            } else {
                initialised(scope, draft, initial, object, place, starts)
            }
        }
    }
}

fn is_automatic(storage: Storage) -> bool
    ensures { result ≡ is_automatic storage }
{
    match storage {
        Storage::Auto => true,
        _ => false,
    }
}

/// Where the start values of an object go.
fn initial_of<'a>(frame: &Frame<'a>, object: u32) -> Option<&'a Initial>
    ensures { known_initial (option_map (λ i. initial_view i.now) result) ≡
        initial_of (frame_of frame.now) object }
{
    frame.initials.get(object as usize)
}

/// An object that a block declares.
fn declared(frame: &Frame<'_>, draft: &mut Draft, number: u32) -> Result<(), AllocError>
    ensures { Leaves result (draft_of draft.new) (declared (frame_of frame.now) number
        (slice_get (frame_of frame.now).context.objects number) (draft_of draft.old)) }
{
    let Some(object) = frame.scope.objects.get(number as usize) else {
        return Ok(());
    };
    if !is_automatic(object.storage) {
        return Ok(());
    }
    match initial_of(frame, number) {
        Some(initial) => started(
            &frame.scope,
            draft,
            initial,
            number,
            &object.of,
            object.place,
            object.start.as_slice(),
        ),
        None => {
            let initial = Initial {
                cells: Vec::new(frame.scope.alloc),
                zero: Vec::new(frame.scope.alloc),
            };
            started(
                &frame.scope,
                draft,
                &initial,
                number,
                &object.of,
                object.place,
                object.start.as_slice(),
            )
        }
    }
}

/// The objects that a block declares.
pub fn declare_all(frame: &Frame<'_>, draft: &mut Draft, objects: &[u32]) -> Result<(), AllocError>
    ensures { Leaves result (draft_of draft.new)
        (declare_all (frame_of frame.now) objects.now (draft_of draft.old)) }
{
    for object in objects {
        declared(frame, draft, *object)?;
    }
    Ok(())
}
