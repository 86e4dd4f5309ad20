//! The numbers that structs of units have in their program.
ghost use Rattle.std.specs.Prelude.{◌≡◌, ℕ, IfOk, map, filter, unwrap_or};
ghost use Rattle.std.specs.List.{position_from};
ghost use Rattle.std.specs.Map.{lookup};
ghost use Rattle.indexmap.specs.IndexMap.{get};
ghost use Rattle.sp_types.specs.View.{struct_of};
ghost use Rattle.sp_link_structs.specs.Matching.{matching_of};
ghost use Rattle.sp_link_agreement.specs.Depths.{tables};
ghost use Rattle.sp_link_agreement.specs.Inner.{same_entity};
ghost use Rattle.sp_link_structs.specs.Matched.{of_unit, of_units, numbers_of_units, matched};
ghost use Rattle.sp_link_structs.specs.Turns.{number_by};

use crate::entities::{entity, narrow};
use crate::record::Matching;
use indexmap::IndexMap;
use sp_base_checked::CheckedUnit;
use sp_link_agreement::Entity;
use sp_types::StructType;
use std::alloc::{AllocError, Global};

/// A struct, and the one that stands for it.
pub(crate) type Taken = (Entity, Entity);

/// How the number of a struct is looked up.
#[derive(Drop)]
struct Numbering {
    /// The struct that stands for each.
    stand_ins: IndexMap<Entity, Entity>,
    /// The numbers of those that stand for themselves.
    places: IndexMap<Entity, u32>,
}

/// What a list of pairs has first behind each struct.
fn first_values(alloc: Global, taken: &[Taken]) -> Result<IndexMap<Entity, Entity>, AllocError>
    ensures { IfOk result (λ m. (x : ℕ × ℕ) →
        get same_entity m x ≡ lookup (same_entity x) taken.now) }
{
    let mut found = IndexMap::new(alloc);
    'taken: for (i, p) in taken.iter().enumerate() {
        if !found.contains_key(&p.0) {
            found.insert(p.0, p.1)?;
        }
    }
    Ok(found)
}

/// Those that stand for themselves.
fn representatives(
    alloc: Global,
    all: &[Entity],
    stand_ins: &IndexMap<Entity, Entity>,
) -> Result<Vec<Entity>, AllocError>
    ensures { IfOk result (λ xs. xs.items ≡
        filter (λ x. same_entity (unwrap_or (get same_entity stand_ins.now x) x) x) all.now) }
{
    let mut found = Vec::new(alloc);
    'all: for (i, x) in all.iter().enumerate() {
        if stand_in(stand_ins, *x) == *x {
            found.push(*x)?;
        }
    }
    Ok(found)
}

/// The struct that stands for another.
fn stand_in(stand_ins: &IndexMap<Entity, Entity>, of: Entity) -> Entity
    ensures { result ≡ unwrap_or (get same_entity stand_ins.now of) of }
{
    match stand_ins.get(&of) {
        Some(found) => *found,
        None => of,
    }
}

/// The first place of each in a list.
fn places(alloc: Global, list: &[Entity]) -> Result<IndexMap<Entity, u32>, AllocError>
    ensures { IfOk result (λ m. (x : ℕ × ℕ) →
        get same_entity m x ≡ position_from (same_entity x) 0 list.now) }
{
    let mut found = IndexMap::new(alloc);
    'list: for (i, x) in list.iter().enumerate() {
        let place = narrow(i)?;
        if !found.contains_key(x) {
            found.insert(*x, place)?;
        }
    }
    Ok(found)
}

impl Numbering {
    ghost use Rattle.std.specs.Prelude.{◌≡◌};
    ghost use Rattle.sp_link_structs.specs.Turns.{number_by};

    /// The number of a struct.
    fn number(&self, of: Entity) -> u32
        ensures { result ≡ number_by self.now of }
    {
        match self.places.get(&stand_in(&self.stand_ins, of)) {
            Some(place) => *place,
            None => 0,
        }
    }
}

/// The numbers of the structs of a unit.
fn unit_numbers(
    alloc: Global,
    numbering: &Numbering,
    unit: usize,
    structs: &[StructType],
) -> Result<Vec<u32>, AllocError>
    ensures { IfOk result (λ ns. ns.items ≡
        map (number_by numbering.now) (of_unit unit 0 (map struct_of structs.now))) }
{
    let mut numbers = Vec::new(alloc);
    'structs: for (k, _) in structs.iter().enumerate() {
        numbers.push(numbering.number(entity(unit, k)?))?;
    }
    Ok(numbers)
}

/// The same for all units.
fn all_numbers(
    alloc: Global,
    numbering: &Numbering,
    units: &[CheckedUnit],
) -> Result<Vec<Vec<u32>>, AllocError>
    ensures { IfOk result (λ all. map (λ ns. ns.items) all.items ≡
        numbers_of_units (number_by numbering.now) 0 (tables units.now)) }
{
    let mut all = Vec::new(alloc);
    'units: for (u, unit) in units.iter().enumerate() {
        all.push(unit_numbers(alloc, numbering, u, &unit.structs)?)?;
    }
    Ok(all)
}

/// The matching of the structs of these units, each taken with the one that stands for it.
pub(crate) fn number(
    alloc: Global,
    units: &[CheckedUnit],
    all: &[Entity],
    taken: &[Taken],
) -> Result<Matching, AllocError>
    requires { all.now ≡ of_units 0 (tables units.now) }
    ensures { IfOk result (λ m. matching_of m ≡ matched (tables units.now) taken.now) }
{
    let stand_ins = first_values(alloc, taken)?;
    let structs = representatives(alloc, all, &stand_ins)?;
    let places = places(alloc, &structs)?;
    let numbering = Numbering { stand_ins, places };
    let numbers = all_numbers(alloc, &numbering, units)?;
    Ok(Matching { structs, numbers })
}
