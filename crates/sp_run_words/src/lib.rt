//! The words of the command line: the command, its flags and its FILEs.
//!
//! The first word is the *command*. `analyse` and `dense` want the report of the files' program, by
//! the sparse engine or the dense one; `calls` wants its indirect calls. Of the other words, the
//! *options* are those that begin with `-`, aren't `-` alone and stand before a word `--`. The
//! options of `analyse` and `dense` are the *flags* `--sharp` (a run goes on as its checks say),
//! `--values` and `--nodes`, each at most once; `calls` has none. The words that are no options are
//! the FILEs, and so is every word after `--`; there is at least one.
//!
//! So `analyse a.c --values -- -b.c` asks the sparse engine for the report and the values of `a.c`
//! and `-b.c`.
//!
//! What goes in: the words after the program's name. [`request_of`] gives what they ask for, or
//! none where they don't fit: `fits` of `specs.Words`.
#![tactic(auto)]

mod reader;
mod request;

pub use request::{Engine, Request, Task, request_of};
