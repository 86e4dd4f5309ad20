//! The alarms of routines that access text.
ghost use Rattle.std.specs.Prelude.{◌≡◌, true, ◌++◌, map, OnOk};
ghost use Rattle.std.specs.List.{flat_map};
ghost use Rattle.sp_types.specs.View.{type_of};
ghost use Rattle.sp_interval.specs.Interval.{IsFormed};
ghost use Rattle.sp_ir.specs.Programs.{lowered_of};
ghost use Rattle.sp_ir.specs.Terrain.{terrain_of};
ghost use Rattle.sp_value.specs.Known.{are_formed, is_proper_within, every_offset, every_size};
ghost use Rattle.sp_value.specs.Slots.{known_of};
ghost use Rattle.sp_effect_alarms.specs.Alarms.{reaching_alarms, through_alarms};
ghost use Rattle.sp_effect_alarms.specs.Library.{character, room, room_at, text_length, followed_alarms, text_alarms, end_offset, end_target, text_end};

use crate::accesses::{add, add_number, add_through, reaching};
use crate::alarm::Alarm;
use sp_interval::Interval;
use sp_ir::Lowered;
use sp_lattice::Lattice;
use sp_tree::Place;
use sp_types::{CType, IntKind};
use sp_value::{Target, Value};
use std::alloc::AllocError;

/// A character, as the routines access it.
pub fn character() -> CType
    ensures { type_of result ≡ character }
{
    CType::Int(IntKind::Char)
}

// From the least offset to the greatest end, and at least the closing zero.
fn room(offset: Interval, size: Interval) -> Interval
    requires offset { is_proper_within every_offset offset ≡ true }
    requires size { is_proper_within every_size size ≡ true }
    ensures value { result ≡ room offset size }
    ensures formed { IsFormed result }
{
    let (Interval::Of { lo, .. }, Interval::Of { hi: most, .. }) = (offset, size) else {
        return Interval::Empty;
    };
    Interval::Of {
        lo: 1,
        hi: (most - lo).max(1),
    }
}

// The same at a target where there may be text.
fn room_at(lowered: &Lowered, target: Target) -> Interval
    requires offset { is_proper_within every_offset target.offset ≡ true }
    requires size { is_proper_within every_size target.size ≡ true }
    ensures value { result ≡ room_at (terrain_of (lowered_of lowered.now)) target }
    ensures formed { IsFormed result }
{
    if lowered.accepts(target.region, &character()) {
        room(target.offset, target.size)
    } else {
        Interval::Empty
    }
}

/// How many characters the text at these targets may have, with its closing zero.
pub fn text_length(lowered: &Lowered, targets: &[Target]) -> Interval
    requires { are_formed targets.now ≡ true }
    ensures value { result ≡ text_length (terrain_of (lowered_of lowered.now)) targets.now }
    ensures formed { IsFormed result }
{
    let mut length = Interval::Empty;
    for target in targets {
        length = length.hull(room_at(lowered, *target));
    }
    length
}

/// Adds the alarms of a routine that reads a first character through a pointer.
pub(crate) fn add_read(
    lowered: &Lowered,
    place: Place,
    pointer: &Value,
    alarms: &mut Vec<Alarm>,
) -> Result<(), AllocError>
    ensures { OnOk result (alarms.new.items ≡ alarms.old.items ++ through_alarms
        (terrain_of (lowered_of lowered.now)) character place (known_of pointer.now)) }
{
    add_through(lowered, &character(), place, pointer, alarms)
}

// Adds the alarms of so many characters from each target on.
fn add_characters(
    lowered: &Lowered,
    place: Place,
    count: Interval,
    targets: &[Target],
    alarms: &mut Vec<Alarm>,
) -> Result<(), AllocError>
    requires count { IsFormed count }
    requires targets { are_formed targets.now ≡ true }
    ensures { OnOk result (alarms.new.items ≡ alarms.old.items ++ flat_map (reaching_alarms
        (terrain_of (lowered_of lowered.now)) character place count) targets.now) }
{
    for target in targets {
        let alarm = reaching(lowered, &character(), place, count, *target);
        add(alarm, alarms)?;
    }
    Ok(())
}

// Adds the alarm of a pointer that is followed by so many characters, where it may be a number.
fn add_followed_number(
    place: Place,
    count: Interval,
    pointer: &Value,
    alarms: &mut Vec<Alarm>,
) -> Result<(), AllocError>
    ensures { OnOk result (alarms.new.items ≡ alarms.old.items ++
        followed_alarms place count (known_of pointer.now)) }
{
    if !count.leq(&Interval::Empty) {
        add_number(place, pointer, alarms)?;
    }
    Ok(())
}

/// Adds the alarms of a routine that writes so many characters from a pointer on.
#[tactic(auto, unfolding(crate::specs::Library::text_alarms))]
pub(crate) fn add_text(
    lowered: &Lowered,
    place: Place,
    count: Interval,
    pointer: &Value,
    alarms: &mut Vec<Alarm>,
) -> Result<(), AllocError>
    requires { IsFormed count }
    ensures { OnOk result (alarms.new.items ≡ alarms.old.items ++ text_alarms
        (terrain_of (lowered_of lowered.now)) place count (known_of pointer.now)) }
{
    add_characters(lowered, place, count, pointer.targets.as_slice(), alarms)?;
    add_followed_number(place, count, pointer, alarms)?;
    Ok(())
}

// From an offset to the last element: where the text that stands there may end.
fn end_offset(offset: Interval, size: Interval) -> Interval
    requires offset { is_proper_within every_offset offset ≡ true }
    requires size { is_proper_within every_size size ≡ true }
    ensures value { result ≡ end_offset offset size }
    ensures proper { is_proper_within every_offset result ≡ true }
{
    let (Interval::Of { lo, hi }, Interval::Of { hi: most, .. }) = (offset, size) else {
        return offset;
    };
    Interval::Of {
        lo,
        hi: hi.max(most - 1),
    }
}

// Adds the alarms of so many characters from the end of the text at each target on.
fn add_characters_behind(
    lowered: &Lowered,
    place: Place,
    count: Interval,
    targets: &[Target],
    alarms: &mut Vec<Alarm>,
) -> Result<(), AllocError>
    requires count { IsFormed count }
    requires targets { are_formed targets.now ≡ true }
    ensures { OnOk result (alarms.new.items ≡ alarms.old.items ++ flat_map (reaching_alarms
        (terrain_of (lowered_of lowered.now)) character place count)
        (map end_target targets.now)) }
{
    for target in targets {
        let end = Target {
            region: target.region,
            offset: end_offset(target.offset, target.size),
            size: target.size,
        };
        let alarm = reaching(lowered, &character(), place, count, end);
        add(alarm, alarms)?;
    }
    Ok(())
}

/// Adds the alarms of a routine that writes so many characters behind the text at a pointer.
#[tactic(auto, unfolding(crate::specs::Library::text_alarms, crate::specs::Alarms::number_alarms))]
pub(crate) fn add_text_behind(
    lowered: &Lowered,
    place: Place,
    count: Interval,
    pointer: &Value,
    alarms: &mut Vec<Alarm>,
) -> Result<(), AllocError>
    requires { IsFormed count }
    ensures { OnOk result (alarms.new.items ≡ alarms.old.items ++ text_alarms
        (terrain_of (lowered_of lowered.now)) place count (text_end (known_of pointer.now))) }
{
    add_characters_behind(lowered, place, count, pointer.targets.as_slice(), alarms)?;
    add_followed_number(place, count, pointer, alarms)?;
    Ok(())
}
