//! Answers rows on the ladder, on intervals, on octagons, on decision diagrams and on triples that
//! are kept: a row a line on standard input, its answer a line on standard output. Fields are apart by tabs or blanks; a line that begins with
//! `#` is a remark.
//!
//! An interval is written `[a,b]` or `empty`, a range as its bounds and its width (`[0,255] 8`),
//! constants of a ladder as `2,3`, or `-` for none. `tests/rows_domain.py` writes the rows with
//! answers computed apart.
#![tactic(auto)]

mod diagrams;
mod fields;
mod intervals;
mod keepings;
mod ladders;
mod octagons;
mod triples;

use crate::fields::field;
use std::alloc::{AllocError, Global};
use std::io::{self, BufRead, BufReader};

// The answer to a row; none where the row isn't understood.
fn try_answer(alloc: Global, line: &str) -> Result<Option<String>, AllocError> {
    let row: Vec<&str> = line.split_whitespace().collect(alloc)?;
    match field(&row, 0) {
        "ladder" => ladders::answer(alloc, field(&row, 1), field(&row, 2), field(&row, 3)),
        "octagon" => octagons::answer(alloc, line),
        "diagrams" => diagrams::answer(alloc, &row),
        "keeping" => keepings::answer(alloc, line),
        "closures" => octagons::closures(alloc, field(&row, 1), field(&row, 2), field(&row, 3)),
        _ => intervals::answer(alloc, &row),
    }
}

fn answer(alloc: Global, line: &str) -> Result<String, AllocError> {
    match try_answer(alloc, line)? {
        Some(text) => Ok(text),
        None => String::from_str(alloc, "not a row"),
    }
}

fn main(rt: HostRuntime) -> io::Result<()> {
    for line in BufReader::new(rt.alloc(), rt.reader())?.lines(rt.alloc()) {
        let line = line?;
        if !line.starts_with('#') {
            let text = answer(rt.alloc(), line.as_str())?;
            println!(rt; "{text}")?;
        }
    }
    Ok(())
}
