//! The outside: files that are read whole, and a sink that is written, each behind a trait.
//!
//! A *name* is what a file is asked for by, as it stands in the words of a command. An object of
//! the outside *tells* what contracts may know of it: the bytes under each name, the bytes taken,
//! the room left, which calls fail. What it doesn't tell is left open, as with a real file. Every
//! object tells its *faults*, a count that rises with each call that fails and stands still at
//! 2^64 - 1, and which name was asked for last and whether it is open.
//!
//! In go a name or some bytes; out come the bytes of the name, or an error with its cause. The
//! layer above uses [`read_whole`] and [`write_whole`]: the bytes read are the name's bytes, what
//! is written is the bytes or a front of them, and a call ends in a fault only where the object's
//! count of faults rose in it. [`MemoryFiles`] and [`MemorySink`] tell everything and fail only
//! where they are asked to; [`HostFiles`] and [`HostSink`] are the system's.
#![tactic(auto)]

mod counts;
mod host;
mod input;
mod memory;
mod output;

pub use host::{HostFiles, HostSink};
pub use input::{BeginError, Failed, Files, ReadError, read_whole};
pub use memory::{MemoryFiles, MemorySink};
pub use output::{Sink, WriteFault, write_whole};
