//! Rows on intervals: each call with its operands, or with every interval of small numbers on the
//! right.
ghost use Rattle.std.specs.Prelude.{IfSome};
ghost use Rattle.sp_lattice.specs.Range.{IsIntegerRange};
ghost use Rattle.sp_interval.specs.Interval.{IsFormed};

use crate::fields::{self, field};
use sp_interval::Interval;
use sp_lattice::{Ladder, Lattice, MOST_CONSTANTS, Range};
use std::alloc::{AllocError, Global};

// The call of this name.
fn apply(call: &str, left: Interval, right: Interval, kind: Range) -> Option<Interval>
    requires range { IsIntegerRange kind }
    requires left { IsFormed left }
    requires right { IsFormed right }
{
    match call {
        "add" => Some(left.add(right, kind)),
        "sub" => Some(left.sub(right, kind)),
        "mul" => Some(left.mul(right, kind)),
        "div" => Some(left.div(right, kind)),
        "rem" => Some(left.rem(right, kind)),
        "shl" => Some(left.shl(right, kind)),
        "shr" => Some(left.shr(right, kind)),
        "and" => Some(left.and(right, kind)),
        "or" => Some(left.or(right, kind)),
        "xor" => Some(left.xor(right, kind)),
        _ => None,
    }
}

// What a call of two intervals gives: `operator` is what it takes besides, bounds of a range or a
// relation.
fn pair(
    call: &str,
    left: Interval,
    right: Interval,
    operator: &str,
    width: &str,
) -> Option<Interval>
    requires left { IsFormed left }
    requires right { IsFormed right }
{
    match call {
        "meet" => Some(left.meet(right)),
        "refine" => Some(left.refine(fields::relation(operator)?, right)),
        _ => apply(call, left, right, fields::range(operator, width)?),
    }
}

// The join and whether it grew, or whether the first is within the second.
fn order(
    alloc: Global,
    call: &str,
    left: Interval,
    right: Interval,
) -> Result<Option<String>, AllocError> {
    match call {
        "leq" => {
            let within = left.leq(&right);
            Ok(Some(format!(in alloc; "{within}")?))
        }
        "join" => {
            let mut joined = left.copy(alloc)?;
            let grew = joined.join_into(alloc, &right)?;
            let text = fields::show(alloc, joined)?;
            Ok(Some(format!(in alloc; "{text}:{grew}")?))
        }
        _ => Ok(None),
    }
}

// The answer of a call of two intervals.
fn answer_pair(
    alloc: Global,
    call: &str,
    left: Interval,
    right: Interval,
    operator: &str,
    width: &str,
) -> Result<Option<String>, AllocError>
    requires left { IsFormed left }
    requires right { IsFormed right }
{
    match pair(call, left, right, operator, width) {
        Some(result) => Ok(Some(fields::show(alloc, result)?)),
        None => order(alloc, call, left, right),
    }
}

const SMALL: [i128; 9] = [-4, -3, -2, -1, 0, 1, 2, 3, 4];

// The bounds of all intervals of small numbers.
fn small_intervals(alloc: Global) -> Result<Vec<(i128, i128)>, AllocError> {
    let mut intervals = Vec::new(alloc);
    for lo in SMALL {
        for hi in SMALL {
            if lo <= hi {
                intervals.push((lo, hi))?;
            }
        }
    }
    Ok(intervals)
}

// The answers with the empty interval on the right, then with each of small numbers.
fn answer_each(
    alloc: Global,
    call: &str,
    left: Interval,
    operator: &str,
    width: &str,
) -> Result<Option<String>, AllocError>
    requires { IsFormed left }
{
    let Some(mut text) = answer_pair(alloc, call, left, Interval::Empty, operator, width)? else {
        return Ok(None);
    };
    for (lo, hi) in &small_intervals(alloc)? {
        if let Some(right) = fields::formed(*lo, *hi) {
            if let Some(one) = answer_pair(alloc, call, left, right, operator, width)? {
                text.push(' ')?;
                text.push_str(one.as_str())?;
            }
        }
    }
    Ok(Some(text))
}

// What a call of one interval gives.
fn answer_one(
    alloc: Global,
    call: &str,
    interval: Interval,
    operator: &str,
    width: &str,
) -> Result<Option<String>, AllocError>
    requires { IsFormed interval }
{
    match call {
        "convert" => match fields::range(operator, width) {
            Some(range) => Ok(Some(fields::show(alloc, interval.convert(range))?)),
            None => Ok(None),
        },
        "snap" => {
            let ladder = Ladder::new(alloc, &fields::constants(alloc, operator)?, MOST_CONSTANTS)?;
            Ok(Some(fields::show(alloc, interval.snap(&ladder))?))
        }
        _ => Ok(None),
    }
}

fn between(alloc: Global, lo: &str, hi: &str) -> Result<Option<String>, AllocError> {
    let (Ok(lo), Ok(hi)) = (lo.parse::<i128>(), hi.parse::<i128>()) else {
        return Ok(None);
    };
    Ok(Some(fields::show(alloc, Interval::between(lo, hi))?))
}

// Each of a row's calls with every small interval on the right.
fn each(alloc: Global, row: &[&str]) -> Result<Option<String>, AllocError> {
    match fields::interval(field(row, 2)) {
        Some(left) => answer_each(alloc, field(row, 1), left, field(row, 3), field(row, 4)),
        None => Ok(None),
    }
}

fn one(alloc: Global, row: &[&str]) -> Result<Option<String>, AllocError> {
    match fields::interval(field(row, 1)) {
        Some(interval) => answer_one(alloc, field(row, 0), interval, field(row, 2), field(row, 3)),
        None => Ok(None),
    }
}

fn two(alloc: Global, row: &[&str]) -> Result<Option<String>, AllocError> {
    let left = fields::interval(field(row, 1));
    match (left, fields::interval(field(row, 2))) {
        (Some(left), Some(right)) => {
            answer_pair(
                alloc,
                field(row, 0),
                left,
                right,
                field(row, 3),
                field(row, 4),
            )
        }
        _ => Ok(None),
    }
}

/// The answer to a row: `CALL LEFT RIGHT [RANGE | RELATION]`, `each CALL LEFT [RANGE | RELATION]`
/// with every small interval on the right, `convert I RANGE`, `snap I CONSTANTS`, `between LO HI`
/// or `bottom`.
pub(crate) fn answer(alloc: Global, row: &[&str]) -> Result<Option<String>, AllocError> {
    match field(row, 0) {
        "bottom" => Ok(Some(fields::show(alloc, Interval::bottom(alloc))?)),
        "between" => between(alloc, field(row, 1), field(row, 2)),
        "each" => each(alloc, row),
        "snap" | "convert" => one(alloc, row),
        _ => two(alloc, row),
    }
}
