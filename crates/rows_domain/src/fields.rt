//! What the fields of a row stand for.
ghost use Rattle.std.specs.Prelude.{IfSome};
ghost use Rattle.sp_lattice.specs.Range.{IsWidth, IsIntegerRange};
ghost use Rattle.sp_interval.specs.Interval.{IsFormed};

use sp_interval::Interval;
use sp_lattice::{HIGHEST, LOWEST, Range, Relation};
use std::alloc::{AllocError, Global};

/// The field at this place, empty where the row ends before it.
pub(crate) fn field<'a>(row: &[&'a str], place: usize) -> &'a str {
    row.get(place).copied().unwrap_or("")
}

fn bounds_of(text: &str) -> Option<(i128, i128)> {
    let (lo, hi) = text.strip_prefix('[')?.strip_suffix(']')?.split_once(',')?;
    Some((lo.parse().ok()?, hi.parse().ok()?))
}

/// The numbers from `lo` to `hi`, where they are formed.
pub(crate) fn formed(lo: i128, hi: i128) -> Option<Interval>
    ensures { IfSome result IsFormed }
{
    if LOWEST <= lo && lo <= hi && hi <= HIGHEST {
        Some(Interval::Of { lo, hi })
    } else {
        None
    }
}

/// The interval of this text.
pub(crate) fn interval(text: &str) -> Option<Interval>
    ensures { IfSome result IsFormed }
{
    if text == "empty" {
        return Some(Interval::Empty);
    }
    let (lo, hi) = bounds_of(text)?;
    formed(lo, hi)
}

// The range of the type of this sign and width.
fn range_of(is_signed: bool, width: u32) -> Range
    requires { IsWidth width }
    ensures { IsIntegerRange result }
{
    if is_signed {
        Range::signed(width)
    } else {
        Range::unsigned(width)
    }
}

/// The range that its bounds and its width name: it is unsigned where the lower bound is 0.
pub(crate) fn range(bounds: &str, width: &str) -> Option<Range>
    ensures { IfSome result IsIntegerRange }
{
    let is_signed = !bounds.starts_with("[0,");
    match width {
        "8" => Some(range_of(is_signed, 8)),
        "16" => Some(range_of(is_signed, 16)),
        "32" => Some(range_of(is_signed, 32)),
        "64" => Some(range_of(is_signed, 64)),
        _ => None,
    }
}

/// The relation that C's operator names.
pub(crate) fn relation(text: &str) -> Option<Relation> {
    match text {
        "<" => Some(Relation::Less),
        "<=" => Some(Relation::LessEqual),
        ">" => Some(Relation::Greater),
        ">=" => Some(Relation::GreaterEqual),
        "==" => Some(Relation::Equal),
        "!=" => Some(Relation::Different),
        _ => None,
    }
}

/// The constants of a ladder, apart by commas; `-` for none. What isn't a number is left out.
pub(crate) fn constants(alloc: Global, text: &str) -> Result<Vec<i128>, AllocError> {
    let mut constants = Vec::new(alloc);
    for part in text.split(',') {
        if let Ok(constant) = part.parse::<i128>() {
            constants.push(constant)?;
        }
    }
    Ok(constants)
}

/// The interval as a field.
pub(crate) fn show(alloc: Global, interval: Interval) -> Result<String, AllocError> {
    match interval {
        Interval::Empty => String::from_str(alloc, "empty"),
        Interval::Of { lo, hi } => format!(in alloc; "[{lo},{hi}]"),
    }
}
