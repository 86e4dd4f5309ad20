//! The scanner: from the bytes of a preprocessed text to its tokens, each with its place, or to its first fault.
//!
//! A text is a concatenation of *pieces*: blanks, comments, marker lines and spellings. A *spelling* is a word, a number run, a
//! closed literal, or an operator or punctuator, and always the longest that begins there. A *marker line* gives the line after
//! it a name and a number. A *spot* is where a piece begins: its place, and whether only blanks stand before it on its line,
//! since a marker line may begin only there. For example
//!
//! ```text
//! # 7 "a.h"
//! int x; /* one */
//! ```
//!
//! has the tokens `int` at a.h:7:1, the name `x` at a.h:7:5, `;` at a.h:7:6 and the end at a.h:8:1.
//!
//! The definition stands in specs/Scan.antt: `IsAnswer` relates a text to its tokens or its first fault, under the numbers of
//! names. The layer above uses the contract of [`scan`]: its result is the text's answer, and the text has no other one.
#![tactic(auto)]

mod bytes;
mod extents;
mod literals;
mod markers;
mod marks;
mod numbers;
mod pieces;
mod scanner;
mod spellings;
mod spot;
mod stop;
mod words;

pub use scanner::{ScanError, scan};
