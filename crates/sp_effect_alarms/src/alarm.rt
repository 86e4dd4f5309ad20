//! Alarms.
use sp_interval::Interval;
use sp_tree::Place;

/// What may go wrong at a place.
#[derive(Clone, Copy)]
pub struct Alarm {
    pub place: Place,
    pub kind: AlarmKind,
}

/// The kinds of alarms. Offsets, counts and sizes are in elements of the region, bytes for one that
/// is kept as bytes.
#[derive(Clone, Copy)]
pub enum AlarmKind {
    /// So many elements from an offset on may leave a region of a size.
    Overrun {
        offset: Interval,
        count: Interval,
        size: Interval,
    },
    /// A divisor may be 0.
    Zero {
        divisor: Interval,
    },
    /// A pointer that is followed may be a number.
    Pointer {
        value: Interval,
    },
    /// What is called may be no defined function of as many parameters.
    NoFunction,
    /// An access of so many bytes meets elements of another type, of so many bytes.
    Punned {
        access: u64,
        element: u64,
    },
}
