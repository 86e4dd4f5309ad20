//! Objects of the units, and functions.
ghost use Rattle.std.specs.Prelude.{◌≡◌, ◌++◌, ◌∷◌, [], ℕ, Option, Some, None, map, slice_get, option_map, IfOk, OnOk};
ghost use Rattle.sp_types.specs.Types.{function};
ghost use Rattle.sp_types.specs.View.{type_of};
ghost use Rattle.sp_types.specs.TypedView.{typed_of};
ghost use Rattle.sp_types.specs.Programs as checked;
ghost use Rattle.sp_types.specs.Programs.{function_of};
ghost use Rattle.sp_ir.specs.Programs.{object_of};
ghost use Rattle.sp_ir.specs.declared.program.ObjectKind.TheVariants as kinds;
ghost use Rattle.sp_ir.specs.View.{leaf_of};
ghost use Rattle.sp_lower_draft.specs.View.{context_of};
ghost use Rattle.sp_lower_body.specs.Frames.{known_initial};
ghost use Rattle.sp_lower_body.specs.View.{initial_view};
ghost use Rattle.sp_lower_objects.specs.Objects.{
  kind_of_storage,
  is_text,
  owner_of,
  texts_behind,
  start_leaf,
  start_leaves,
  start_of,
  zero_of,
  function_names,
  name_of_owner,
  object_name,
  program_object,
  program_objects,
  plain_object,
  coded,
  function_object,
  function_objects,
};
ghost use Rattle.sp_lower_objects.specs.Codes.{number_in};
ghost use Rattle.sp_lower_objects.specs.Owners.{mark_at};
ghost use Rattle.sp_lower_objects.specs.Seen.{seen_function};

use crate::codes::number_in;
use crate::naming::{local_name, name_at, string_name};
use crate::owners::mark_at;
use sp_ir::{Leaf, Object, ObjectKind};
use sp_lower_body::Initial;
use sp_lower_draft::Scope;
use sp_lower_starts::start_value;
use sp_tree::Names;
use sp_types::{CType, FunctionDef, ObjectDef, Storage, TypedExpr};
use std::alloc::{AllocError, Global};

fn kind_of_storage(storage: Storage) -> ObjectKind
    ensures { result ≡ kind_of_storage storage }
{
    match storage {
        Storage::Static => ObjectKind::Static,
        Storage::Outside => ObjectKind::Outside,
        Storage::Text => ObjectKind::Text,
        Storage::Auto => ObjectKind::Auto,
        Storage::Formal => ObjectKind::Formal,
    }
}

/// The function that an automatic object is of.
fn owner_of(storage: Storage, owner: Option<u32>) -> Option<u32>
    ensures { result ≡ owner_of storage owner }
{
    match storage {
        Storage::Auto | Storage::Formal => owner,
        Storage::Static | Storage::Outside | Storage::Text => None,
    }
}

fn is_text(storage: Storage) -> bool
    ensures { result ≡ is_text storage }
{
    match storage {
        Storage::Text => true,
        Storage::Static | Storage::Outside | Storage::Auto | Storage::Formal => false,
    }
}

/// The start value of a leaf, which has no node.
fn start_leaf(scope: &Scope<'_>, cell: u32, start: &(u64, TypedExpr)) -> Result<Leaf, AllocError>
    ensures { IfOk result (λ l. leaf_of l ≡
        start_leaf (context_of scope.now) cell (start.now.0, typed_of start.now.1)) }
{
    Ok(Leaf {
        number: start.0,
        cell,
        value: start_value(scope, &start.1)?,
    })
}

/// The start values of a static object.
fn start_leaves(
    scope: &Scope<'_>,
    cells: &[u32],
    starts: &[(u64, TypedExpr)],
) -> Result<Vec<Leaf>, AllocError>
    ensures { IfOk result (λ ls. map leaf_of ls.items ≡ start_leaves (context_of scope.now)
        cells.now 0 (map (λ s. (s.0, typed_of s.1)) starts.now)) }
{
    let mut leaves = Vec::new(scope.alloc);
    for (k, start) in starts.iter().enumerate() {
        leaves.push(start_leaf(scope, number_in(cells, k), start)?)?;
    }
    Ok(leaves)
}

fn start_of(
    scope: &Scope<'_>,
    storage: Storage,
    cells: &[u32],
    starts: &[(u64, TypedExpr)],
) -> Result<Vec<Leaf>, AllocError>
    ensures { IfOk result (λ ls. map leaf_of ls.items ≡ start_of (context_of scope.now) storage
        cells.now (map (λ s. (s.0, typed_of s.1)) starts.now)) }
{
    match storage {
        Storage::Static | Storage::Text => start_leaves(scope, cells, starts),
        Storage::Outside | Storage::Auto | Storage::Formal => Ok(Vec::new(scope.alloc)),
    }
}

fn zero_of(alloc: Global, storage: Storage, cells: &[u32]) -> Result<Vec<u32>, AllocError>
    ensures { IfOk result (λ left. left.items ≡ zero_of storage cells.now) }
{
    match storage {
        Storage::Static | Storage::Text => Vec::from_slice(alloc, cells),
        Storage::Outside | Storage::Auto | Storage::Formal => Ok(Vec::new(alloc)),
    }
}

/// The numbers of the names of these functions.
pub fn function_names(alloc: Global, defined: &[&FunctionDef]) -> Result<Vec<u32>, AllocError>
    ensures { IfOk result (λ ns. ns.items ≡ function_names (map seen_function defined.now)) }
{
    let mut names = Vec::new(alloc);
    for function in defined {
        names.push(function.name)?;
    }
    Ok(names)
}

fn name_of_owner(
    alloc: Global,
    names: &Names,
    functions: &[u32],
    name: &[u8],
    owner: Option<u32>,
) -> Result<Vec<u8>, AllocError>
    ensures { IfOk result (λ n. n.items ≡ name_of_owner names.now functions.now name.now owner) }
{
    match owner {
        Some(owner) => {
            let function = name_at(names, number_in(functions, owner as usize));
            local_name(alloc, function, name)
        }
        None => Vec::from_slice(alloc, name),
    }
}

/// An object's name, behind so many strings.
fn object_name(
    alloc: Global,
    names: &Names,
    functions: &[u32],
    texts: usize,
    owner: Option<u32>,
    object: &ObjectDef,
) -> Result<Vec<u8>, AllocError>
    ensures { IfOk result (λ n. n.items ≡
        object_name names.now functions.now texts owner (checked.object_of object.now)) }
{
    if is_text(object.storage) {
        match texts.checked_add(1) {
            Some(number) => string_name(alloc, number),
            None => Err(AllocError),
        }
    } else {
        name_of_owner(alloc, names, functions, name_at(names, object.name), owner)
    }
}

/// An object of a unit.
fn program_object(
    scope: &Scope<'_>,
    names: &Names,
    functions: &[u32],
    texts: usize,
    owner: Option<u32>,
    initial: Option<&Initial>,
    object: &ObjectDef,
) -> Result<Object, AllocError>
    ensures { IfOk result (λ o. object_of o ≡ program_object (context_of scope.now) names.now
        functions.now texts owner
        (known_initial (option_map (λ i. initial_view i.now) initial.entry))
        (checked.object_of object.now)) }
{
    let alloc = scope.alloc;
    let name = object_name(alloc, names, functions, texts, owner, object)?;
    let cells: &[u32] = match initial {
        Some(initial) => initial.cells.as_slice(),
        None => &[],
    };
    let zero: &[u32] = match initial {
        Some(initial) => initial.zero.as_slice(),
        None => &[],
    };
    let start = start_of(scope, object.storage, cells, object.start.as_slice())?;
    Ok(Object {
        kind: kind_of_storage(object.storage),
        of: Some(object.of.copy(alloc)?),
        name,
        function: owner_of(object.storage, owner),
        start,
        zero: zero_of(alloc, object.storage, zero)?,
        code: None,
    })
}

fn texts_behind(storage: Storage, texts: usize) -> Result<usize, AllocError>
    ensures { IfOk result (λ n. n ≡ texts_behind storage texts) }
{
    match storage {
        Storage::Text => match texts.checked_add(1) {
            Some(texts) => Ok(texts),
            None => Err(AllocError),
        },
        Storage::Static | Storage::Outside | Storage::Auto | Storage::Formal => Ok(texts),
    }
}

fn initial_at(initials: &[Initial], number: usize) -> Option<&Initial>
    ensures { option_map (λ i. initial_view i.now) result ≡
        slice_get (map initial_view initials.now) number }
{
    initials.get(number)
}

/// Adds the objects of the units.
pub fn add_program_objects(
    scope: &Scope<'_>,
    names: &Names,
    functions: &[u32],
    owners: &[Option<u32>],
    initials: &[Initial],
    all: &mut Vec<Object>,
) -> Result<(), AllocError>
    ensures { OnOk result (map object_of all.new.items ≡ map object_of all.old.items ++
        program_objects (context_of scope.now) names.now functions.now owners.now
        (map initial_view initials.now) 0 0 (context_of scope.now).objects) }
{
    let mut texts = 0;
    for (k, object) in scope.objects.iter().enumerate() {
        let owner = mark_at(owners, k);
        let initial = initial_at(initials, k);
        all.push(program_object(scope, names, functions, texts, owner, initial, object)?)?;
        texts = texts_behind(object.storage, texts)?;
    }
    Ok(())
}

fn plain_function(alloc: Global, number: u32, of: CType, name: Vec<u8>, code: Option<u32>) -> Object
    ensures { object_of result ≡ coded (plain_object (kinds.Function number) (Some (type_of of))
        name.items None) code }
{
    Object {
        kind: ObjectKind::Function(number),
        of: Some(of),
        name,
        function: None,
        start: Vec::new(alloc),
        zero: Vec::new(alloc),
        code,
    }
}

/// The object of the function of this number.
fn function_object(
    alloc: Global,
    names: &Names,
    codes: &[Option<u32>],
    number: u32,
    function: &FunctionDef,
) -> Result<Object, AllocError>
    ensures { IfOk result (λ o. object_of o ≡
        function_object names.now codes.now number (function_of function.now)) }
{
    let of = CType::shared_function(function.of.clone()?);
    let name = Vec::from_slice(alloc, name_at(names, function.name))?;
    Ok(plain_function(alloc, number, of, name, mark_at(codes, number as usize)))
}

/// Adds the objects of the functions.
pub fn add_functions(
    alloc: Global,
    names: &Names,
    codes: &[Option<u32>],
    functions: &[FunctionDef],
    all: &mut Vec<Object>,
) -> Result<(), AllocError>
    ensures { OnOk result (map object_of all.new.items ≡ map object_of all.old.items ++
        function_objects names.now codes.now 0 (map function_of functions.now)) }
{
    for (k, function) in functions.iter().enumerate() {
        let Ok(number) = u32::try_from(k) else {
            return Err(AllocError);
        };
        all.push(function_object(alloc, names, codes, number, function)?)?;
    }
    Ok(())
}
