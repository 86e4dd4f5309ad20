//! Effects as rows: what a command makes of a store, location by location.
//!
//! A *store* gives each location a slot. A *row* says of each location whether its old slot is kept,
//! and what is put beside it (`specs.Rows`): a strong update doesn't keep, a weak one keeps and puts,
//! an emptied location has neither. The makers are `storing` through an address (`specs.Storing`),
//! `placing` at locations known beforehand (`specs.Placing`), and `followed`, two rows after one
//! another. What a condition leaves is a row of its own (`sp_effect_assume`). A *setting*
//! (`specs.Setting`) has the cells of a program, the regions that each may point to, and the ladder;
//! its *ceiling* is the store above all others.
//!
//! So for `*p = 1;` where `p` points to the variable `a` alone, the row of `a` doesn't keep and puts
//! [1,1]. Where `p` points to `a` and to `b`, both keep, and [1,1] is put beside what they held.
//!
//! Effects are written into a node's *row of slots*. It has a slot for each of the node's *places*,
//! the locations that it defines, ascending. Seen as a store it has nothing elsewhere (`store_of` of
//! `specs.Updates`). A node's input comes as such a row, too, at the locations that it uses:
//! [`GivenAt`] is that store. [`copy_into`] fills a row of slots with what the node is given. The
//! other calls change it:
//!
//! - [`store`] through an address, by its targets: with one target what is stored replaces what a
//!   location held, unless the location is a summary; with more it is joined; without any, all that
//!   might be hit is emptied. [`Stores`] says which location a target's region hits, and what it gets.
//! - [`place`] at locations known beforehand: the strong ones lose what they held.
//!
//! So after `*p = 1;`, where `p` points to `a` and to `b`, both hold what they held, or 1.
//!
//! The calls have one form of contract: at each of its places the row of slots has what a row of
//! `specs.Rows` makes of the store before (`applied`, with `stored_at` and `placed_at` of `specs.Updates`).
//! So two updates after one another are the first row and then the second.
//!
//! The layer above uses that a *lawful* row gives an effect that is monotone, stays under the ceiling
//! and on the ladder, changes nothing that it doesn't define, and hangs on what it uses alone; and
//! what each maker asks so that its rows are lawful. These are `RowLaws` of `specs.Laws`, which
//! [`rows_are_lawful`] ensures.
#![tactic(auto)]

mod laws;
mod places;
mod placing;
mod stores;
mod updates;
mod views;

pub use laws::rows_are_lawful;
pub use places::find_place;
pub use placing::place;
pub use stores::store;
pub use updates::{Stores, join_at, join_where_hit, put_at};
pub use views::{GivenAt, copy_into};
