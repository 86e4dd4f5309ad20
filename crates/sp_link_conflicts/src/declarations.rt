//! The declarations of external names of several units.
ghost use Rattle.std.specs.Prelude.{◌≡◌, ◌++◌, IfOk, OnOk, map};
ghost use Rattle.sp_types.specs.Programs.{object_of, function_of};
ghost use Rattle.sp_base_checked.specs.Units.{checked_unit_of, typing_of};
ghost use Rattle.sp_link_conflicts.specs.Declarations as rules;
ghost use Rattle.sp_link_conflicts.specs.Views.{declaration_of};

use crate::linkage::{defines_function, defines_object, is_external};
use sp_base_checked::{CheckedUnit, Typing};
use sp_tree::Place;
use sp_types::{CType, FunctionDef, ObjectDef};
use std::alloc::{AllocError, Global};

/// A declaration of an external name.
#[derive(Drop)]
pub(crate) struct Declaration {
    /// The number of its unit.
    pub unit: u32,
    pub name: u32,
    /// The type that the name has behind it, with the unit's structs.
    pub of: CType,
    /// Whether it is told as the definition of its unit.
    pub defines: bool,
    pub place: Place,
}

/// A declarator that gives its name a type.
fn typing_declared(alloc: Global, unit: u32, typing: &Typing) -> Result<Declaration, AllocError>
    ensures { IfOk result (λ d. declaration_of d ≡
        rules.typing_declared unit (typing_of typing.now)) }
{
    Ok(Declaration {
        unit,
        name: typing.name,
        of: typing.of.copy(alloc)?,
        defines: false,
        place: typing.place,
    })
}

/// An object of a unit.
fn object_declared(alloc: Global, unit: u32, object: &ObjectDef) -> Result<Declaration, AllocError>
    ensures { IfOk result (λ d. declaration_of d ≡
        rules.object_declared unit (object_of object.now)) }
{
    Ok(Declaration {
        unit,
        name: object.name,
        of: object.of.copy(alloc)?,
        defines: defines_object(object.storage),
        place: object.place,
    })
}

/// A function of a unit.
fn function_declared(unit: u32, function: &FunctionDef) -> Result<Declaration, AllocError>
    ensures { IfOk result (λ d. declaration_of d ≡
        rules.function_declared unit (function_of function.now)) }
{
    Ok(Declaration {
        unit,
        name: function.name,
        of: CType::Function(function.of.clone()?),
        defines: defines_function(function),
        place: function.place,
    })
}

/// Adds the declarators of a unit that tell types.
fn add_typings(
    alloc: Global,
    all: &mut Vec<Declaration>,
    unit: u32,
    typings: &[Typing],
) -> Result<(), AllocError>
    ensures { OnOk result (map declaration_of all.new.items ≡
        map declaration_of all.old.items
        ++ rules.typings_declared unit (map typing_of typings.now)) }
{
    'typings: for typing in typings {
        all.push(typing_declared(alloc, unit, typing)?)?;
    }
    Ok(())
}

/// Adds the external objects of a unit.
fn add_objects(
    alloc: Global,
    all: &mut Vec<Declaration>,
    unit: u32,
    objects: &[ObjectDef],
) -> Result<(), AllocError>
    ensures { OnOk result (map declaration_of all.new.items ≡
        map declaration_of all.old.items ++ rules.objects_declared unit (map object_of objects.now)) }
{
    'objects: for object in objects {
        if is_external(object.linkage) {
            all.push(object_declared(alloc, unit, object)?)?;
        }
    }
    Ok(())
}

/// Adds the external functions of a unit.
fn add_functions(
    alloc: Global,
    all: &mut Vec<Declaration>,
    unit: u32,
    functions: &[FunctionDef],
) -> Result<(), AllocError>
    ensures { OnOk result (map declaration_of all.new.items ≡
        map declaration_of all.old.items
        ++ rules.functions_declared unit (map function_of functions.now)) }
{
    'functions: for function in functions {
        if is_external(function.linkage) {
            all.push(function_declared(unit, function)?)?;
        }
    }
    Ok(())
}

/// Adds all three. More than 2^32 units want memory.
fn add_unit(
    alloc: Global,
    all: &mut Vec<Declaration>,
    number: usize,
    unit: &CheckedUnit,
) -> Result<(), AllocError>
    ensures { OnOk result (map declaration_of all.new.items ≡
        map declaration_of all.old.items
        ++ rules.unit_declared number (checked_unit_of unit.now)) }
{
    let Ok(number) = u32::try_from(number) else {
        return Err(AllocError);
    };
    add_typings(alloc, all, number, &unit.typings)?;
    add_objects(alloc, all, number, &unit.objects)?;
    add_functions(alloc, all, number, &unit.functions)
}

/// The declarations of several units.
pub(crate) fn all_declarations(
    alloc: Global,
    units: &[CheckedUnit],
) -> Result<Vec<Declaration>, AllocError>
    ensures { IfOk result (λ all. map declaration_of all.items ≡
        rules.declarations (map checked_unit_of units.now)) }
{
    let mut all = Vec::new(alloc);
    'units: for (u, unit) in units.iter().enumerate() {
        add_unit(alloc, &mut all, u, unit)?;
    }
    Ok(all)
}
