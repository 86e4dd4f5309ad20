//! How objects are named in a report.
ghost use Rattle.std.specs.Prelude.{◌≡◌, ◌++◌, codes, map, string_bytes, IfOk};
ghost use Rattle.std.specs.Fmt.{decimal};
ghost use Rattle.sp_lower_objects.specs.Names.{name_at, local_name, string_name, temporary_name, result_name, heap_name, foreign_name};

use sp_tree::Names;
use std::alloc::{AllocError, Global};

/// The bytes of a name.
pub fn name_at(names: &Names, number: u32) -> &[u8]
    ensures { result.now ≡ name_at names.now number }
{
    match names.get(number) {
        Some(name) => name,
        None => b"".as_slice(),
    }
}

/// The name of what is local to a function.
pub fn local_name(alloc: Global, function: &[u8], name: &[u8]) -> Result<Vec<u8>, AllocError>
    ensures { IfOk result (λ n. n.items ≡ local_name function.now name.now) }
{
    let mut bytes = Vec::from_slice(alloc, function)?;
    bytes.extend_from_slice(b".".as_slice())?;
    bytes.extend_from_slice(name)?;
    Ok(bytes)
}

/// The name of a string.
pub fn string_name(alloc: Global, number: usize) -> Result<Vec<u8>, AllocError>
    ensures { IfOk result (λ n. n.items ≡ string_name number) }
{
    Ok(format!(in alloc; "%str.{number}")?.into_bytes())
}

/// The name of a temporary.
pub fn temporary_name(alloc: Global, function: &[u8], number: usize) -> Result<Vec<u8>, AllocError>
    ensures { IfOk result (λ n. n.items ≡ temporary_name function.now number) }
{
    let name = format!(in alloc; "%{number}")?.into_bytes();
    local_name(alloc, function, name.as_slice())
}

/// The name of a function's result.
pub fn result_name(alloc: Global, function: &[u8]) -> Result<Vec<u8>, AllocError>
    ensures { IfOk result (λ n. n.items ≡ result_name function.now) }
{
    local_name(alloc, function, b"%ret".as_slice())
}

/// The name of what the library gives at a node.
pub fn heap_name(alloc: Global, node: u32) -> Result<Vec<u8>, AllocError>
    ensures { IfOk result (λ n. n.items ≡ heap_name node) }
{
    Ok(format!(in alloc; "%heap.{node}")?.into_bytes())
}

/// The name of what an unknown function gives at a node.
pub fn foreign_name(alloc: Global, node: u32) -> Result<Vec<u8>, AllocError>
    ensures { IfOk result (λ n. n.items ≡ foreign_name node) }
{
    Ok(format!(in alloc; "%ext.{node}")?.into_bytes())
}
