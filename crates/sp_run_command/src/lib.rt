//! The top call, from the words of the command line to the bytes written and the status.
//!
//! The words name what is wanted, and files. The files are read one after another, scanned, parsed
//! and checked, linked and lowered. Then an engine gives the report of their program, or points-to
//! tells its indirect calls. Or the words don't fit, or the files are refused at a fault that
//! stands. So for `analyse a.c`, where `a.c` is
//!
//! ```text
//! int a[3]; int main(void){ a[3] = 0; return 0; }
//! ```
//!
//! these bytes go out, with the status of alarms:
//!
//! ```text
//! a.c:1:27: overrun: offset [3,3], size [3,3]
//! 1 alarm
//! ```
//!
//! The layer above uses [`run`], over any files, any sink and any counter of steps. Its contract
//! (`Ends` of `specs.Run`) says of each status what was read and written, where the report is that
//! of the dense least solution of the files' program (`HasReport` of `specs.Answers`), and its
//! indirect calls are those of the least points-to (`IsAnswerOn`), not what the code computes.
#![tactic(auto)]

mod analysis;
mod command;
mod reading;
mod refusals;
mod status;

pub use command::run;
pub use status::Status;
