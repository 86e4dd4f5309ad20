//! The report of an analysed C program: the alarms of its nodes, and their text.
//!
//! An *alarm* is a place and what may go wrong there. Its *line* is that place and its verdict. A
//! *report* has the lines of alarms, each once, sorted by the name of the file, line, column, kind
//! and bytes, and then how many there are. The *lines of values* tell, for each node and each
//! location that it uses, what reaches it there.
//!
//! So of a file `a.c` with the text
//!
//! ```text
//! int main(void){int a[10];int i;i=0;while(i<=10){a[i]=0;i=i+1;}return 0;}
//! ```
//!
//! the report is
//!
//! ```text
//! a.c:1:49: overrun: offset [0,10], size [10,10]
//! 1 alarm
//! ```
//!
//! and `node 3 a.c:1:35: main.a = [1,1]` is a line of values: of the node `if(a)` in
//! `int main(void){int a;int b;a=1;if(a)if(b)a=2;else a=-b;return a;}`.
//!
//! What goes in: the names of the texts, the [`Subject`], the numbers of its nodes, and the
//! [`Inputs`](sp_lattice::Inputs) that a solved table gives. [`alarms`] lists the alarms of the
//! nodes over their stores (`alarms_from` of `specs.Inputs`). [`print_alarms`] gives the bytes
//! `report_text` of `specs.Report`. [`print_values`] gives `values_from` of `specs.Values`, and
//! [`print_by_node`] `by_node_from` of `specs.ByNode`. [`add_place`] writes a place. The
//! layer above also uses that a report is one of the *set* of its alarms, and that tables which
//! agree at what is used have one report and the same lines of values (`ReportLaws` and `InputLaws`
//! of `specs.Laws`, the contract of [`reports_are_lawful`]).
#![tactic(auto)]

mod by_node;
mod inputs;
mod lawful;
mod lines;
mod places;
mod texts;
mod values;

pub use by_node::print_by_node;
pub use inputs::{Subject, alarms};
pub use lawful::reports_are_lawful;
pub use lines::{Report, add_place, print_alarms};
pub use values::print_values;
