//! Rows on the top call, and on what the sparse engine does with a program.
//!
//! Each line of standard input is a row: the name of a call, and what it is given, each field behind
//! a tab. The answer is a line of standard output. In texts `\n`, `\t`, `\r`, `\\` and `\xHH` stand
//! for those bytes; in answers `|` stands for the end of a line.
//!
//! ```text
//! run      the words with a blank between, the numbers of the calls of the files that fail, the
//!          room of the sink, the numbers of its calls that fail, then names and texts of files:
//!          the status and what was written
//! once     a text: the nodes of its program that the sparse engine evaluates once, where the first
//!          that waits is served
//! orders   a text: whether serving the first that waits and serving the last give the same values
//! ```
//!
//! Where there are no words or no numbers, the field is `-`.
#![tactic(auto)]

ghost use Rattle.std.specs.Prelude.{◌≡◌, ◌<◌};

mod calls;
mod evaluations;
mod faults;
mod fields;
mod lowerings;

use calls::run_on;
use evaluations::{Question, answer_to};
use fields::unescaped;
use sp_lattice::Steps;
use std::alloc::{AllocError, Global};
use std::io::{self, BufRead, BufReader};
use std::marker::Brand;
use std::sync::ledger::{Blank, Ledger};

/// The answer to a row.
fn answer<L: Ledger>(alloc: Global, row: &str, steps: &mut Steps<L>) -> Result<String, AllocError> {
    let (call, fields) = row.split_once('\t').unwrap_or((row, ""));
    match call {
        "run" => run_on(alloc, fields, steps),
        "once" => answer_to(alloc, Question::Once, unescaped(alloc, fields)?, steps),
        "orders" => answer_to(alloc, Question::Orders, unescaped(alloc, fields)?, steps),
        _ => format!(in alloc; "no call {call:?}"),
    }
}

/// Answers each line of standard input. One counter counts the evaluations of all.
fn answer_rows<L: Ledger>(rt: &HostRuntime, blank: Blank) -> io::Result<()>
    requires name { blank.name ≡ L.name }
    requires parts { blank.parts ≡ L.parts }
    requires some { 0 < L.parts }
{
    let mut steps: Steps<L> = Steps::new(blank);
    let rows = BufReader::new(rt.alloc(), rt.reader())?;
    for row in rows.lines(rt.alloc()) {
        println!(rt; "{}", answer(rt.alloc(), row?.as_str(), &mut steps)?)?;
    }
    Ok(())
}

fn main(rt: HostRuntime) -> io::Result<()> {
    answer_rows::<Brand>(&rt, Blank::new(1))
}
