//! What is joined by now.
#![tactic(auto, unfolding(crate::specs::Views::joined_of), using(crate::proofs::Updates::updates))]

ghost use Rattle.std.specs.Prelude.{
  ◌≡◌,
  ◌++◌,
  map,
  length,
  slice_get,
  slice_set,
  IfOk,
  OnOk,
  option_map,
};
ghost use Rattle.std.specs.Option.{option_copied};
ghost use Rattle.sp_link_entries.specs.Entries.{
  nothing_joined,
  linked,
  with_link,
  with_object,
  set_object,
  with_function,
  set_function,
  with_texts,
};
ghost use Rattle.sp_link_entries.specs.Views.{joined_of, object_entry_of, function_entry_of};

use crate::entries::{FunctionEntry, ObjectEntry};
use indexmap::IndexMap;
use sp_check_env::Entity;
use std::alloc::{AllocError, Global};

/// The objects and functions of the units that are joined.
#[derive(Drop)]
pub struct Joined<'a> {
    pub objects: Vec<ObjectEntry<'a>>,
    pub functions: Vec<FunctionEntry<'a>>,
    /// Each external name, with its one object or function.
    pub links: IndexMap<u32, Entity>,
    /// The functions that are defined, in the order of the units and of their text.
    pub definitions: Vec<u32>,
    /// The values of the constants of the units.
    pub constants: Vec<i128>,
}

/// Before the first unit.
pub fn nothing_joined<'a>(alloc: Global) -> Joined<'a>
    ensures { joined_of result ≡ nothing_joined }
{
    Joined {
        objects: Vec::new(alloc),
        functions: Vec::new(alloc),
        links: IndexMap::new(alloc),
        definitions: Vec::new(alloc),
        constants: Vec::new(alloc),
    }
}

/// What an external name stands for, where it is declared by now.
pub(crate) fn linked(joined: &Joined<'_>, name: u32) -> Option<Entity>
    ensures { result ≡ linked (joined_of joined.now) name }
{
    joined.links.get(&name).copied()
}

/// Links an external name.
pub(crate) fn link(joined: &mut Joined<'_>, name: u32, entity: Entity) -> Result<(), AllocError>
    ensures { OnOk result (joined_of joined.new ≡ with_link (joined_of joined.old) name entity) }
{
    joined.links.insert(name, entity)?;
    Ok(())
}

/// The object of a number.
pub(crate) fn object<'b, 'a>(joined: &'b Joined<'a>, number: u32) -> Option<&'b ObjectEntry<'a>>
    ensures { option_map object_entry_of (option_copied result) ≡
        slice_get (joined_of joined.now).objects number }
{
    joined.objects.get(number as usize)
}

/// Puts an object last, and answers its number. More than 2^32 of them want memory.
pub(crate) fn add_object<'a>(
    joined: &mut Joined<'a>,
    entry: ObjectEntry<'a>,
) -> Result<u32, AllocError>
    ensures number { IfOk result (λ k. k ≡ length (joined_of joined.old).objects) }
    ensures ok { OnOk result (joined_of joined.new ≡
        with_object (joined_of joined.old) (object_entry_of entry.entry)) }
{
    let Ok(number) = u32::try_from(joined.objects.len()) else {
        return Err(AllocError);
    };
    joined.objects.push(entry)?;
    Ok(number)
}

/// Replaces the object of a number.
pub(crate) fn set_object<'a>(joined: &mut Joined<'a>, number: u32, entry: ObjectEntry<'a>)
    ensures { joined_of joined.new ≡
        set_object (joined_of joined.old) number (object_entry_of entry.entry) }
{
    if let Some(old) = joined.objects.get_mut(number as usize) {
        *old = entry;
    }
}

/// The function of a number.
pub(crate) fn function<'b, 'a>(joined: &'b Joined<'a>, number: u32) -> Option<&'b FunctionEntry<'a>>
    ensures { option_map function_entry_of (option_copied result) ≡
        slice_get (joined_of joined.now).functions number }
{
    joined.functions.get(number as usize)
}

/// Puts a function last, and answers its number. More than 2^32 of them want memory.
pub(crate) fn add_function<'a>(
    joined: &mut Joined<'a>,
    entry: FunctionEntry<'a>,
) -> Result<u32, AllocError>
    ensures number { IfOk result (λ k. k ≡ length (joined_of joined.old).functions) }
    ensures ok { OnOk result (joined_of joined.new ≡
        with_function (joined_of joined.old) (function_entry_of entry.entry)) }
{
    let Ok(number) = u32::try_from(joined.functions.len()) else {
        return Err(AllocError);
    };
    joined.functions.push(entry)?;
    Ok(number)
}

/// Replaces the function of a number.
pub(crate) fn set_function<'a>(joined: &mut Joined<'a>, number: u32, entry: FunctionEntry<'a>)
    ensures { joined_of joined.new ≡
        set_function (joined_of joined.old) number (function_entry_of entry.entry) }
{
    if let Some(old) = joined.functions.get_mut(number as usize) {
        *old = entry;
    }
}

/// Puts the functions that a unit defines and its constants last.
pub(crate) fn add_texts(
    joined: &mut Joined<'_>,
    definitions: &[u32],
    constants: &[i128],
) -> Result<(), AllocError>
    ensures { OnOk result (joined_of joined.new ≡
        with_texts (joined_of joined.old) definitions.now constants.now) }
{
    joined.definitions.extend_from_slice(definitions)?;
    joined.constants.extend_from_slice(constants)?;
    Ok(())
}
