//! What an expression may point to, by what each cell may point to; and the least table that is
//! closed under rules, by a worklist.
//!
//! *Rows* are sets of regions, one for each region; a cell's row is where it may point. By rows, an
//! expression may point to some regions and an lvalue may stand at some cells; which, `regions_of`
//! and `cells_of` of `sp_ir.specs.Denoted` say.
//!
//! ```text
//! int x; int *p; int **q;     rows: p -> x, q -> p
//! *q     stands at: p         as a value points to: x         looked at: q, and as a value p
//! ```
//!
//! [`regions`] and [`cells`] tell these sets, and which cells they looked at: by any table that has
//! no more there than the rows, the sets have no more. A worklist needs just that. The contracts
//! inside go by a relation (`specs.Given`), which `proofs.Held` joins to the lists.
//!
//! A *table* has such a row for each cell. By a table, a *rule* puts numbers into rows; the
//! greater the table, the more it puts. So there is a least table into which no rule puts more: it
//! is *closed* (`IsLeastClosed` of `specs.Tables`).
//!
//! ```text
//! rule 0: 7 goes to row 1      rule 1: what row 1 has goes to row 2
//! the least closed table: row 1 has 7, row 2 has 7
//! ```
//!
//! A layer above makes the rules' puts by the rows so far ([`Put`]: every number of one set goes to
//! every row of another), and tells which rows it looked at. [`register`] notes that the rule reads
//! these, [`put_each`] adds the puts and lets each rule wait that reads a row which grew, and
//! [`Queue`] tells which rule is served next. What is kept at each step, and that the table is the
//! least closed one where no rule waits, are the laws of `proofs.Serving`; that each service leaves
//! less to do is one of `proofs.Measure`. Worklists of this kind are in Nielson, Nielson and Hankin,
//! "Principles of Program Analysis", 1999, section 6.1.
#![tactic(auto)]

mod given;
mod growing;
mod queue;
mod steps;

pub use given::{cells, regions};
pub use growing::{Growing, Put, put_each, register};
pub use queue::Queue;
pub use steps::{contents, element_at, keeps_targets, member_at};
