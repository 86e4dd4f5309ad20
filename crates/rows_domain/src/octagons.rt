//! Rows on octagons: a script of calls on one line, and the closures of many small octagons at
//! once.
ghost use Rattle.std.specs.Prelude.{◌≡◌, ◌≢◌, ◌≤◌, ◌<◌, ◌*◌, ◌^◌, ◌≤ℤ◌, pos, neg_ℤ, IfSome};
ghost use Rattle.sp_octagon.specs.Entries.{least_bound, greatest_bound};
ghost use Rattle.sp_interval.specs.Interval.{IsFormed};

use crate::fields::{self, field};
use sp_interval::Interval;
use sp_lattice::{Ladder, MOST_CONSTANTS};
use sp_octagon::{Kept, Octagon};
use std::alloc::{AllocError, Global};

/// Past it a bound isn't kept.
const MAX_BOUND: i128 = 1 << 100;

// Two octagons of one size: the calls of a script work on the first.
#[derive(Drop)]
struct Pair {
    first: Octagon,
    second: Octagon,
}

// What a call of a script answers.
#[derive(Drop)]
enum Told {
    Nothing,
    Flag(bool),
    Numbers(Interval),
    Number(i128),
    Missing,
}

fn member(text: &str, size: u32) -> Option<u32>
    ensures { IfSome result (λ x. x < size) }
{
    let member: u32 = text.parse().ok()?;
    if member < size { Some(member) } else { None }
}

fn row_of(text: &str, size: u32) -> Option<u32>
    requires { size ≤ 8 }
    ensures { IfSome result (λ r. r < 2 * size) }
{
    member(text, 2 * size)
}

// A number from `-most` to `most`.
fn number(text: &str, most: i128) -> Option<i128>
    requires { pos 0 ≤ℤ most }
    ensures { IfSome result (λ k. neg_ℤ most ≤ℤ k × k ≤ℤ most) }
{
    let number: i128 = text.parse().ok()?;
    if -most <= number && number <= most {
        Some(number)
    } else {
        None
    }
}

// `bounds X INTERVAL`
fn set_bounds(octagon: &mut Octagon, call: &[&str]) -> Option<()> {
    let x = member(field(call, 1), octagon.size())?;
    let to = fields::interval(field(call, 2))?;
    if to == Interval::Empty {
        return None;
    }
    octagon.set_bounds(x, to);
    Some(())
}

// `shift X Y K`: X becomes Y plus K.
fn assign_shift(octagon: &mut Octagon, call: &[&str]) -> Option<()> {
    let x = member(field(call, 1), octagon.size())?;
    let y = member(field(call, 2), octagon.size())?;
    let by = number(field(call, 3), 1 << 64)?;
    octagon.assign_shift(x, y, by);
    Some(())
}

// `constrain X RELATION Y`
fn constrain(octagon: &mut Octagon, call: &[&str]) -> Option<()> {
    let x = member(field(call, 1), octagon.size())?;
    let relation = fields::relation(field(call, 2))?;
    let y = member(field(call, 3), octagon.size())?;
    if x == y {
        return None;
    }
    octagon.constrain(x, relation, y);
    Some(())
}

// `set ROW COLUMN BOUND`
fn set_entry(octagon: &mut Octagon, call: &[&str]) -> Option<()> {
    let row = row_of(field(call, 1), octagon.size())?;
    let column = row_of(field(call, 2), octagon.size())?;
    let to = number(field(call, 3), MAX_BOUND)?;
    if row == column {
        return None;
    }
    octagon.set_entry(row, column, to);
    Some(())
}

// `forget X`
fn forget(octagon: &mut Octagon, call: &[&str]) -> Option<()> {
    let x = member(field(call, 1), octagon.size())?;
    octagon.forget(x);
    Some(())
}

// The calls that change an octagon and answer nothing.
fn change(octagon: &mut Octagon, call: &[&str]) -> Option<()> {
    match field(call, 0) {
        "bounds" => set_bounds(octagon, call),
        "shift" => assign_shift(octagon, call),
        "constrain" => constrain(octagon, call),
        "set" => set_entry(octagon, call),
        "forget" => forget(octagon, call),
        _ => None,
    }
}

// The calls that ask one octagon.
fn ask(octagon: &Octagon, call: &[&str]) -> Option<Told> {
    match field(call, 0) {
        "size" => Some(Told::Number(i128::from(octagon.size()))),
        "project" => {
            let x = member(field(call, 1), octagon.size())?;
            Some(Told::Numbers(octagon.project(x)))
        }
        "entry" => {
            let row = row_of(field(call, 1), octagon.size())?;
            let column = row_of(field(call, 2), octagon.size())?;
            match octagon.entry(row, column) {
                Some(bound) => Some(Told::Number(bound)),
                None => Some(Told::Missing),
            }
        }
        _ => None,
    }
}

impl Pair {
    // The calls of both octagons: `join` of the second into the first, `leq`, `copy` of the first
    // to the second, `swap`.
    fn both(&mut self, call: &str) -> Option<Told> {
        if self.first.size() != self.second.size() {
            return None;
        }
        match call {
            "close" => Some(Told::Flag(self.first.close())),
            "join" => Some(Told::Flag(self.first.join_into(&self.second))),
            "leq" => Some(Told::Flag(self.first.leq(&self.second))),
            "copy" => {
                self.second = self.first;
                Some(Told::Nothing)
            }
            "swap" => {
                let first = self.first;
                self.first = self.second;
                self.second = first;
                Some(Told::Nothing)
            }
            _ => None,
        }
    }

    // `snap CONSTANTS`
    fn snap(&mut self, alloc: Global, constants: &str) -> Result<(), AllocError> {
        let ladder = Ladder::new(alloc, &fields::constants(alloc, constants)?, MOST_CONSTANTS)?;
        self.first.snap(&ladder);
        Ok(())
    }

    // `keep`: puts what is kept of the first in its place, and tells how many bounds that took.
    fn keep(&mut self, alloc: Global) -> Result<Told, AllocError> {
        let kept = Kept::new(alloc, &self.first)?;
        self.first = kept.copy()?.octagon();
        Ok(Told::Number(kept.room() as i128))
    }

    fn run(&mut self, alloc: Global, call: &[&str]) -> Result<Option<Told>, AllocError> {
        if field(call, 0) == "keep" {
            return Ok(Some(self.keep(alloc)?));
        }
        if field(call, 0) == "snap" {
            self.snap(alloc, field(call, 1))?;
            return Ok(Some(Told::Nothing));
        }
        if change(&mut self.first, call).is_some() {
            return Ok(Some(Told::Nothing));
        }
        match ask(&self.first, call) {
            Some(told) => Ok(Some(told)),
            None => Ok(self.both(field(call, 0))),
        }
    }
}

fn show(alloc: Global, told: Told) -> Result<String, AllocError> {
    match told {
        Told::Nothing => Ok(String::new(alloc)),
        Told::Flag(flag) => format!(in alloc; "{flag}"),
        Told::Numbers(interval) => fields::show(alloc, interval),
        Told::Number(number) => format!(in alloc; "{number}"),
        Told::Missing => String::from_str(alloc, "none"),
    }
}

// Two octagons without bounds.
fn pair_of(size: &str) -> Option<Pair> {
    let size: u32 = size.parse().ok()?;
    if 2 <= size && size <= 8 {
        Some(Pair {
            first: Octagon::top(size),
            second: Octagon::top(size),
        })
    } else {
        None
    }
}

/// The answer to a row `octagon SIZE; CALL; CALL ..`: what the calls answer, apart by blanks.
pub(crate) fn answer(alloc: Global, line: &str) -> Result<Option<String>, AllocError> {
    let (head, script) = line.split_once(';').unwrap_or((line, ""));
    let head: Vec<&str> = head.split_whitespace().collect(alloc)?;
    let Some(mut pair) = pair_of(field(&head, 1)) else {
        return Ok(None);
    };
    let mut text = String::new(alloc);
    for call in script.split(';') {
        let call: Vec<&str> = call.split_whitespace().collect(alloc)?;
        let Some(told) = pair.run(alloc, &call)? else {
            return Ok(None);
        };
        let shown = show(alloc, told)?;
        if !text.is_empty() && !shown.is_empty() {
            text.push(' ')?;
        }
        text.push_str(shown.as_str())?;
    }
    Ok(Some(text))
}

// How many values an entry of a numbered octagon takes: -2 to 2, and none.
const VALUES: u32 = 6;

// Sets the entry to the value that a digit names, -2 to 2; 5 is none.
fn put(octagon: &mut Octagon, row: u32, column: u32, digit: u32)
    requires size { octagon.old.size ≡ 2 }
    requires row { row < 4 }
    requires column { column < 4 }
    requires different { row ≢ column }
    requires digit { digit < 6 }
    ensures { octagon.new.size ≡ 2 }
{
    if digit < 5 {
        octagon.set_entry(row, column, i128::from(digit) - 2);
    }
}

// The octagon of two members of this number: its digits to the base 6, the last first, tell the
// entries.
fn octagon_of(number: u32) -> Octagon
    ensures { result.size ≡ 2 }
{
    let mut octagon = Octagon::top(2);
    put(&mut octagon, 0, 1, number % VALUES);
    put(&mut octagon, 1, 0, number / 6 % VALUES);
    put(&mut octagon, 2, 3, number / 36 % VALUES);
    put(&mut octagon, 3, 2, number / 216 % VALUES);
    put(&mut octagon, 0, 2, number / 1296 % VALUES);
    put(&mut octagon, 0, 3, number / 7776 % VALUES);
    put(&mut octagon, 1, 2, number / 46656 % VALUES);
    put(&mut octagon, 1, 3, number / 279936 % VALUES);
    octagon
}

// The digest with one more number.
fn mix(digest: u64, bound: Option<i128>) -> u64 {
    let number = match bound {
        Some(bound) => bound.rem_euclid(1000003) as u64,
        None => 1000003,
    };
    (digest % 1000000007 * 1000033 + number) % 1000000007
}

// The digest with the entries, row by row.
fn digest_entries(octagon: &Octagon, digest: u64) -> u64
    requires { octagon.now.size ≡ 2 }
{
    let mut digest = digest;
    for row in 0..4u32 {
        for column in 0..4u32 {
            digest = mix(digest, octagon.entry(row, column));
        }
    }
    digest
}

/// The answer to a row `closures FIRST STEP COUNT`: of the octagons numbered FIRST, FIRST + STEP
/// and so on, how many hold a point, and a digest of all entries of their closures.
pub(crate) fn closures(
    alloc: Global,
    first: &str,
    step: &str,
    count: &str,
) -> Result<Option<String>, AllocError> {
    let (Ok(first), Ok(step), Ok(count)) = (
        first.parse::<u32>(),
        step.parse::<u32>(),
        count.parse::<u32>(),
    ) else {
        return Ok(None);
    };
    let mut held = 0u32;
    let mut digest = 0u64;
    for turn in 0..count {
        let mut octagon = octagon_of(first.wrapping_add(step.wrapping_mul(turn)));
        if octagon.close() {
            held = held.saturating_add(1);
            digest = digest_entries(&octagon, digest);
        }
    }
    Ok(Some(format!(in alloc; "{held} {digest}")?))
}
