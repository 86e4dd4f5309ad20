//! Calls, once their arguments are lowered (C90 6.3.2.2).
ghost use Rattle.std.specs.Prelude.{◌≡◌, ℕ, Option, IfOk, map, option_map, slice_get};
ghost use Rattle.sp_types.specs.Programs.{function_of};
ghost use Rattle.sp_types.specs.View.{type_of};
ghost use Rattle.sp_types.specs.TypedView.{typed_of, typed_form_of};
ghost use Rattle.sp_ir.specs.Formed.{argument_count, allocates};
ghost use Rattle.sp_ir.specs.View.{lvalue_of, expression_of};
ghost use Rattle.sp_lower_draft.specs.Context.{lacks_body, is_undefined, routine_in, routine_named};
ghost use Rattle.sp_lower_draft.specs.Calls.{
  result_of,
  comes_back,
  complete_pointee,
  element_given,
  sited,
  library_called,
  outside_called,
  are_scalar,
  fits,
  if_fits,
  routine_called,
  undefined_by,
  undefined_called,
  defined_called,
  result_place,
};
ghost use Rattle.sp_lower_draft.specs.Expressions.{named_by_form, named_by, if_undefined, undefined_callee};
ghost use Rattle.sp_lower_draft.specs.View.{context_of, draft_of};
ghost use Rattle.sp_lower_draft.specs.Outcome.{Leaves, Gives};

use sp_ir::{Command, Expr, Lvalue, Routine};
use sp_lower_draft::{
    Draft, Scope, Site, has_pointer, is_pointer, is_scalar, is_void, number_behind, pointee,
    pointee_size,
};
use sp_types::{CType, FunctionDef, TypedExpr, TypedForm};
use std::alloc::{AllocError, Global};

fn copy_maybe(alloc: Global, place: &Option<Lvalue>) -> Result<Option<Lvalue>, AllocError>
    ensures { IfOk result (λ l. option_map lvalue_of l ≡ option_map lvalue_of place.now) }
{
    match place {
        None => Ok(None),
        Some(place) => Ok(Some(place.copy(alloc)?)),
    }
}

/// Where a call's result goes: a new temporary, if it is used.
fn result_of(
    scope: &Scope<'_>,
    draft: &mut Draft,
    used: bool,
    of: &CType,
) -> Result<Option<Lvalue>, AllocError>
    ensures { Gives (option_map lvalue_of) result (draft_of draft.new)
        (result_of (context_of scope.now) used (type_of of.now) (draft_of draft.old)) }
{
    if used && !is_void(of) {
        let made = draft.temporary(scope, of)?;
        return Ok(Some(made));
    }
    Ok(None)
}

/// The number of arguments of a routine of the library.
fn argument_count(which: Routine) -> usize
    ensures { result ≡ argument_count which }
{
    match which {
        Routine::Abort => 0,
        Routine::Malloc | Routine::Free | Routine::Exit | Routine::Strlen => 1,
        Routine::Calloc | Routine::Realloc | Routine::Strcpy | Routine::Strcat => 2,
        Routine::Memset | Routine::Memcpy | Routine::Memmove | Routine::Strncpy => 3,
    }
}

fn allocates(which: Routine) -> bool
    ensures { result ≡ allocates which }
{
    match which {
        Routine::Malloc | Routine::Calloc | Routine::Realloc => true,
        _ => false,
    }
}

/// `exit` and `abort` don't (C90 7.10.4).
fn comes_back(which: Routine) -> bool
    ensures { result ≡ comes_back which }
{
    match which {
        Routine::Exit | Routine::Abort => false,
        _ => true,
    }
}

/// What a pointer of this type points to, where that is a complete object type.
fn complete_pointee(scope: &Scope<'_>, of: &CType) -> Result<Option<CType>, AllocError>
    ensures { IfOk result (λ t. option_map type_of t ≡
        complete_pointee (context_of scope.now) (type_of of.now)) }
{
    if is_pointer(of) {
        if pointee_size(scope, of) == 0 {
            return Ok(None);
        }
        return Ok(Some(pointee(scope.alloc, of)?));
    }
    Ok(None)
}

/// The element type of a site, by the type to which the call's result is directly converted.
fn element_given(scope: &Scope<'_>, of: Option<&CType>) -> Result<Option<CType>, AllocError>
    ensures { IfOk result (λ t. option_map type_of t ≡ element_given (context_of scope.now)
        (option_map (λ t. type_of t.now) of.entry)) }
{
    match of {
        Some(of) => complete_pointee(scope, of),
        None => Ok(None),
    }
}

/// A site at the next node, where one is due.
fn sited(
    scope: &Scope<'_>,
    draft: &mut Draft,
    due: bool,
    of: Option<CType>,
    heap: bool,
) -> Result<Option<u32>, AllocError>
    ensures { Gives (λ (n : Option ℕ). n) result (draft_of draft.new) (sited (context_of scope.now)
        due (option_map type_of of) heap (draft_of draft.old)) }
{
    if due {
        let Ok(node) = u32::try_from(draft.nodes.len()) else {
            return Err(AllocError);
        };
        let number = number_behind(scope.first_site, draft.sites.len())?;
        draft.sites.push(Site { node, of, heap })?;
        return Ok(Some(number));
    }
    Ok(None)
}

/// A call of a routine of the library, whose result is directly converted to this type, if it is.
fn library_called(
    scope: &Scope<'_>,
    draft: &mut Draft,
    which: Routine,
    e: &TypedExpr,
    converted: Option<&CType>,
    args: Vec<Expr>,
    to: Option<Lvalue>,
) -> Result<(), AllocError>
    ensures { Leaves result (draft_of draft.new) (library_called (context_of scope.now) which
        (typed_of e.now) (option_map (λ t. type_of t.now) converted.entry)
        (map expression_of args.items)
        (option_map lvalue_of to) (draft_of draft.old)) }
{
    let of = element_given(scope, converted)?;
    let site = sited(scope, draft, allocates(which), of, true)?;
    let command = Command::Library {
        which,
        to,
        args,
        site,
    };
    draft.add(scope, command, e.place())?;
    if !comes_back(which) {
        draft.set_loose(Vec::new(scope.alloc));
    }
    Ok(())
}

/// A call of another function that isn't defined.
fn outside_called(
    scope: &Scope<'_>,
    draft: &mut Draft,
    e: &TypedExpr,
    args: Vec<Expr>,
    to: Option<Lvalue>,
) -> Result<(), AllocError>
    ensures { Leaves result (draft_of draft.new) (outside_called (context_of scope.now)
        (typed_of e.now) (map expression_of args.items) (option_map lvalue_of to)
        (draft_of draft.old)) }
{
    let due = to.is_some() && has_pointer(scope.pointers, e.of());
    let site = sited(scope, draft, due, None, false)?;
    draft.add(scope, Command::Outside { to, args, site }, e.place())?;
    Ok(())
}

/// Whether all these are integers or pointers.
fn are_scalar(args: &[TypedExpr]) -> bool
    ensures { result ≡ are_scalar (map typed_of args.now) }
{
    for arg in args {
        if !is_scalar(arg.of()) {
            return false;
        }
    }
    true
}

/// Whether a call has the arguments and the result of a routine.
fn fits(e: &TypedExpr, args: &[TypedExpr], which: Routine) -> bool
    ensures { result ≡ fits (typed_of e.now) (map typed_of args.now) which }
{
    args.len() == argument_count(which)
        && are_scalar(args)
        && (is_scalar(e.of()) || is_void(e.of()))
}

fn routine_named(scope: &Scope<'_>, number: u32) -> Option<Routine>
    ensures { result ≡ routine_named (context_of scope.now) number }
{
    match scope.routines.get(number as usize) {
        Some(routine) => *routine,
        None => None,
    }
}

/// The routine of the library that an undefined function is in this call.
fn routine_called(
    scope: &Scope<'_>,
    number: u32,
    e: &TypedExpr,
    args: &[TypedExpr],
) -> Option<Routine>
    ensures { result ≡ routine_called (context_of scope.now) number (typed_of e.now)
        (map typed_of args.now) }
{
    match routine_named(scope, number) {
        Some(which) => {
            if fits(e, args, which) {
                Some(which)
            } else {
                None
            }
        }
        None => None,
    }
}

/// A call of an undefined function by its name: where its result is, if it is used.
pub fn undefined_called(
    scope: &Scope<'_>,
    draft: &mut Draft,
    number: u32,
    e: &TypedExpr,
    converted: Option<&CType>,
    used: bool,
    args: &[TypedExpr],
    values: Vec<Expr>,
) -> Result<Option<Lvalue>, AllocError>
    ensures { Gives (option_map lvalue_of) result (draft_of draft.new)
        (undefined_called (context_of scope.now) number (typed_of e.now)
        (option_map (λ t. type_of t.now) converted.entry)
        used (map typed_of args.now) (map expression_of values.items) (draft_of draft.old)) }
{
    let to = result_of(scope, draft, used, e.of())?;
    let again = copy_maybe(scope.alloc, &to)?;
    match routine_called(scope, number, e, args) {
        Some(which) => {
            library_called(scope, draft, which, e, converted, values, to)?;
            Ok(again)
        }
        None => {
            outside_called(scope, draft, e, values, to)?;
            Ok(again)
        }
    }
}

/// A call and its return: where its result is, if it is used.
pub fn defined_called(
    scope: &Scope<'_>,
    draft: &mut Draft,
    e: &TypedExpr,
    used: bool,
    callee: Expr,
    args: Vec<Expr>,
) -> Result<Option<Lvalue>, AllocError>
    ensures { Gives (option_map lvalue_of) result (draft_of draft.new)
        (defined_called (context_of scope.now) (typed_of e.now) used (expression_of callee)
        (map expression_of args.items) (draft_of draft.old)) }
{
    let to = result_of(scope, draft, used, e.of())?;
    let again = copy_maybe(scope.alloc, &to)?;
    let call = draft.add(scope, Command::Call { callee, args }, e.place())?;
    draft.set_loose(Vec::new(scope.alloc));
    draft.add(scope, Command::Return { call, to }, e.place())?;
    Ok(again)
}

/// Where a call's result stands.
pub fn result_place(alloc: Global, of: &CType, to: Option<Lvalue>) -> Result<Lvalue, AllocError>
    ensures { IfOk result (λ l. lvalue_of l ≡
        result_place (type_of of.now) (option_map lvalue_of to)) }
{
    match to {
        Some(place) => Ok(place),
        None => Ok(Lvalue::direct(0, of.copy(alloc)?)),
    }
}

fn named_by_form(form: &TypedForm) -> Option<u32>
    ensures { result ≡ named_by_form (typed_form_of form.now) }
{
    match form {
        TypedForm::Function(number) => Some(*number),
        _ => None,
    }
}

/// The function that a callee names.
fn named_by(callee: &TypedExpr) -> Option<u32>
    ensures { result ≡ named_by (typed_of callee.now) }
{
    match &callee.form {
        TypedForm::Decay(of) => named_by_form(of.form()),
        TypedForm::Function(number) => Some(*number),
        _ => None,
    }
}

fn lacks_body(function: Option<&FunctionDef>) -> bool
    ensures { result ≡ lacks_body (option_map (λ f. function_of f.now) function.entry) }
{
    match function {
        Some(function) => function.body.is_none(),
        None => false,
    }
}

/// The function that a callee names, where that is defined nowhere.
pub fn undefined_callee(scope: &Scope<'_>, callee: &TypedExpr) -> Option<u32>
    ensures { result ≡ undefined_callee (context_of scope.now) (typed_of callee.now) }
{
    match named_by(callee) {
        Some(number) => {
            if lacks_body(scope.functions.get(number as usize)) {
                Some(number)
            } else {
                None
            }
        }
        None => None,
    }
}
