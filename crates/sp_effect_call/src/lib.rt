//! The rows of what goes from one function to another, and of structs: calls, returns, results from
//! outside, and assignments of structs.
//!
//! A struct goes cell by cell (`specs.Copied`): each cell gets what the cell holds to which its path
//! leads in the other struct, and bytes get what all cells there hold. Where it goes follows the rule
//! of strong and weak updates at each cell (`storing_leaves` of `specs.Copies`). An argument goes to
//! the formals of all functions that are called (`calling` of `specs.Passed`), and a result is the
//! join of theirs (`returning` of `specs.Returns`). Where types don't fit each cell gets every
//! number. What a function that isn't defined gives is every number, or where it is a pointer the
//! site of its call (`from_outside` of `specs.Outside`).
//!
//! ```text
//! struct s { int n; int *p; } t, u;   t = u;     t.n gets what u.n holds, t.p what u.p holds
//! int f(int a){ return a; }  int (*h)(int);      h may be f or g:
//! int g(int b){ return 0; }  y = h(3);           a and b get 3, y the join of both results
//! ```
//!
//! The layer above uses that each of these rows is lawful in a whole analysis (`CallLaws` of
//! `specs.Laws`, which [`calls_are_lawful`] ensures), and that [`copy`], [`pass`], [`give_back`] and
//! [`come_from_outside`] change a node's row of slots by exactly `copying`, `calling`, `returning` and
//! `from_outside`. The library's rows are made by [`store_among`] and [`join_cells`] too.
#![tactic(auto)]

mod copied;
mod copies;
mod joined;
mod laws;
mod leaves;
mod outside;
mod passed;
mod returns;

pub use copied::{copied_from, held_at};
pub use copies::copy;
pub use laws::calls_are_lawful;
pub use leaves::{Gives, hits, join_cells, store_among};
pub use outside::come_from_outside;
pub use passed::pass;
pub use returns::give_back;
