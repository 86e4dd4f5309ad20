//! The analysis of a lowered program, and its report.
//!
//! A formed program is analysed: where its cells may point, its supergraph, and its equations. An
//! engine finds their least solution. The report lists the alarms of all nodes over the stores that
//! reach them there. So for `int a[3]; int main(void){ a[3] = 0; return 0; }` the report is
//!
//! ```text
//! a.c:1:31: overrun: offset [3,3], size [3,3]
//! 1 alarm
//! ```
//!
//! Behind it come the details that are wanted: the lines of values, which tell what reaches each
//! node at the locations that it uses, and the lines by node, which tell each node's alarms.
//!
//! The layer above uses two contracts. [`dense_report`]: what comes `Ends` the program
//! (`specs.Outcomes`), and the evaluations are at most those of the dense engine (`IsStepped`
//! there). [`sparse_report`]: the same report (`Ends` of `specs.Sparse`), with evaluations bounded
//! by the data dependencies (`IsServed`).
#![tactic(auto)]

mod dense;
mod reports;
mod sparse;

pub use dense::{Outcome, dense_report};
pub use reports::Wanted;
pub use sparse::{SparseOutcome, sparse_report};
