//! Rows for the parsers of C, of what no text of a program shows: parsing that begins at a token and
//! stops at one, trees that may be so deep, and scanning into a room.
//!
//! Each line of standard input is a row: the name of a call, a tab, and what the call is given, in
//! fields with a tab between them. Its answer is a line of standard output.
#![tactic(auto)]

mod parsers;

use std::alloc::Global;
use std::io::{self, BufRead, BufReader};

/// The answer to a row.
fn answer(alloc: Global, row: &str) -> io::Result<String> {
    let (call, given) = row.split_once('\t').unwrap_or((row, ""));
    let answer = match call {
        "scan" => parsers::scanned(alloc, given)?,
        "ended" => parsers::ended(alloc, given)?,
        "types" => parsers::types(alloc, given)?,
        "expression" | "mark" | "type name" | "specifiers" | "declarator" => parsers::parsed(
            alloc, call, given,
        )?,
        _ => format!(in alloc; "no call {call:?}")?,
    };
    Ok(answer)
}

fn main(rt: HostRuntime) -> io::Result<()> {
    let rows = BufReader::new(rt.alloc(), rt.reader())?;
    for row in rows.lines(rt.alloc()) {
        println!(rt; "{}", answer(rt.alloc(), row?.as_str())?)?;
    }
    Ok(())
}
