//! Functions, one after the other.
ghost use Rattle.std.specs.Prelude.{◌≡◌, ◌+◌, map, drop, slice_get, option_map, IfOk};
ghost use Rattle.sp_types.specs.Types.{result_of};
ghost use Rattle.sp_types.specs.View.{type_of, signature_of};
ghost use Rattle.sp_types.specs.TypedView.{statement_of};
ghost use Rattle.sp_types.specs.Programs.{function_of};
ghost use Rattle.sp_lower_draft.specs.Context.{is_void};
ghost use Rattle.sp_lower_draft.specs.Draft.{left};
ghost use Rattle.sp_lower_draft.specs.View.{context_of, draft_of};
ghost use Rattle.sp_lower_body.specs.View.{frame_of, body_of, initial_view};
ghost use Rattle.sp_lower_functions.specs.Functions.{
  begun,
  outside_functions,
  lower_body,
  inside_function,
  lower_function,
  part_of_function,
  result_count,
  frame_for,
  first_count,
  functions_at,
  lower_functions,
};
ghost use Rattle.sp_lower_functions.specs.View.{part_of};

use crate::gotos::ended;
use sp_ir::Command;
use sp_lower_body::{Body, Frame, Initial};
use sp_lower_draft::{Draft, Scope, is_void, number_behind};
use sp_lower_statements::statement;
use sp_types::{CType, FunctionDef, TypedStatement};
use std::alloc::{AllocError, Global};

/// What a function's lowering makes known.
#[derive(Drop)]
pub struct Part {
    /// The node of its entry, and that of its exit.
    pub entry: u32,
    pub exit: u32,
    /// The types of its temporaries.
    pub temporaries: Vec<CType>,
}

/// What is made of functions.
#[derive(Drop)]
pub struct Functions {
    pub draft: Draft,
    pub parts: Vec<Part>,
}

/// A function as far as it is lowered.
#[derive(Drop)]
struct One {
    draft: Draft,
    part: Part,
}

/// Where a body begins.
fn begun(alloc: Global, draft: Draft) -> Body
    ensures { body_of result ≡ begun (draft_of draft) }
{
    Body {
        draft,
        breaks: Vec::new(alloc),
        continues: Vec::new(alloc),
        returns: Vec::new(alloc),
        gotos: Vec::new(alloc),
        labels: Vec::new(alloc),
        cases: Vec::new(alloc),
        next_case: 0,
        otherwise: 0,
    }
}

/// A function's body.
fn lower_body(
    frame: &Frame<'_>,
    draft: Draft,
    body: Option<&TypedStatement>,
) -> Result<Draft, AllocError>
    ensures { IfOk result (λ s. draft_of s ≡ lower_body (frame_of frame.now)
        (option_map (λ b. statement_of b.now) body.entry) (draft_of draft)) }
{
    match body {
        Some(s) => {
            let mut body = begun(frame.scope.alloc, draft);
            statement(frame, &mut body, s)?;
            ended(frame.scope.alloc, body)
        }
        None => Ok(draft),
    }
}

/// A function up to its exit.
fn inside_function(
    frame: &Frame<'_>,
    draft: Draft,
    function: &FunctionDef,
) -> Result<Draft, AllocError>
    ensures { IfOk result (λ s. draft_of s ≡ inside_function (frame_of frame.now)
        (function_of function.now) (draft_of draft)) }
{
    let mut draft = draft;
    let alloc = frame.scope.alloc;
    draft.loose = Vec::new(alloc);
    draft.temporaries = Vec::new(alloc);
    let command = Command::Entry {
        function: frame.scope.function,
    };
    draft.add(&frame.scope, command, function.place)?;
    lower_body(frame, draft, function.body.as_ref())
}

/// A function.
fn lower_function(
    frame: &Frame<'_>,
    draft: Draft,
    function: &FunctionDef,
) -> Result<One, AllocError>
    ensures draft { IfOk result (λ one. draft_of one.draft ≡ lower_function (frame_of frame.now)
        (function_of function.now) (draft_of draft)) }
    ensures part { IfOk result (λ one. part_of one.part ≡ part_of_function (frame_of frame.now)
        (function_of function.now) (draft_of draft)) }
{
    let alloc = frame.scope.alloc;
    let Ok(entry) = u32::try_from(draft.nodes.len()) else {
        return Err(AllocError);
    };
    let mut draft = inside_function(frame, draft, function)?;
    let command = Command::Exit {
        function: frame.scope.function,
    };
    let exit = draft.add(&frame.scope, command, function.end)?;
    draft.loose = Vec::new(alloc);
    let temporaries = std::mem::replace(&mut draft.temporaries, Vec::new(alloc));
    Ok(One {
        draft,
        part: Part {
            entry,
            exit,
            temporaries,
        },
    })
}

/// How many objects hold its result.
fn result_count(function: &FunctionDef) -> usize
    ensures { result ≡ result_count (function_of function.now) }
{
    if is_void(function.of.result()) { 0 } else { 1 }
}

fn count_at(counts: &[usize], index: usize) -> usize
    ensures { result ≡ first_count (drop index counts.now) }
{
    match counts.get(index) {
        Some(count) => *count,
        None => 0,
    }
}

/// The function of number `number`, whose objects begin at `first`, with so many temporaries.
fn frame_for<'a>(
    scope: &Scope<'a>,
    initials: &'a [Initial],
    number: u32,
    first: u32,
    count: usize,
    function: &'a FunctionDef,
) -> Result<Frame<'a>, AllocError>
    ensures { IfOk result (λ frame. frame_of frame ≡ frame_for (context_of scope.now)
        (map initial_view initials.now) number first count (function_of function.now)) }
{
    let result = number_behind(first, count)?;
    Ok(Frame {
        scope: Scope {
            alloc: scope.alloc,
            structs: scope.structs,
            objects: scope.objects,
            functions: scope.functions,
            routines: scope.routines,
            pointers: scope.pointers,
            function: number,
            first_temporary: first,
            first_site: scope.first_site,
        },
        initials,
        result,
        result_type: function.of.result(),
    })
}

/// A frame that isn't used any more.
fn end_frame(frame: Frame<'_>) {
    let Frame {
        scope,
        initials: _initials,
        result: _result,
        result_type: _result_type,
    } = frame;
    let Scope {
        alloc: _alloc,
        structs: _structs,
        objects: _objects,
        functions: _functions,
        routines: _routines,
        pointers: _pointers,
        function: _function,
        first_temporary: _first_temporary,
        first_site: _first_site,
    } = scope;
}

/// The function of number `number`, whose objects begin at `first`, with so many temporaries.
fn lower_one(
    scope: &Scope<'_>,
    initials: &[Initial],
    number: u32,
    first: u32,
    count: usize,
    function: &FunctionDef,
    draft: Draft,
) -> Result<One, AllocError>
    ensures draft { IfOk result (λ one. draft_of one.draft ≡ lower_function (frame_for
        (context_of scope.now) (map initial_view initials.now) number first count
        (function_of function.now)) (function_of function.now) (draft_of draft)) }
    ensures part { IfOk result (λ one. part_of one.part ≡ part_of_function (frame_for
        (context_of scope.now) (map initial_view initials.now) number first count
        (function_of function.now)) (function_of function.now) (draft_of draft)) }
{
    let frame = frame_for(scope, initials, number, first, count, function)?;
    let lowered = lower_function(&frame, draft, function);
    end_frame(frame);
    lowered
}

/// The function of this number in the program.
fn function_at<'a>(scope: &Scope<'a>, number: u32) -> Option<&'a FunctionDef>
    ensures { option_map (λ f. function_of f.now) result ≡
        slice_get (map function_of scope.now.functions.now) number }
{
    scope.functions.get(number as usize)
}

/// The functions of these numbers in the program, whose objects begin at `first`, where these are
/// the numbers of their temporaries. A number of no function is want of memory.
pub fn lower_functions(
    scope: &Scope<'_>,
    initials: &[Initial],
    first: u32,
    definitions: &[u32],
    counts: &[usize],
    draft: Draft,
) -> Result<Functions, AllocError>
    ensures { IfOk result (λ fs. left (map part_of fs.parts.items) (draft_of fs.draft) ≡
        lower_functions (context_of scope.now) (map initial_view initials.now) 0 first
        (functions_at (map function_of scope.now.functions.now) definitions.now) counts.now
        (draft_of draft)) }
{
    let alloc = scope.alloc;
    let mut draft = draft;
    let mut first = first;
    let mut parts = Vec::new(alloc);
    for (k, definition) in definitions.iter().enumerate() {
        let Ok(number) = u32::try_from(k) else {
            return Err(AllocError);
        };
        let Some(function) = function_at(scope, *definition) else {
            return Err(AllocError);
        };
        let count = count_at(counts, k);
        let one = lower_one(scope, initials, number, first, count, function, draft)?;
        draft = one.draft;
        parts.push(one.part)?;
        first = number_behind(number_behind(first, count)?, result_count(function))?;
    }
    Ok(Functions { draft, parts })
}
