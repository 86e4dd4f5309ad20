//! The readers of declarations and initialisers (C90 6.5, 6.5.7).
//!
//! They go on from the readers of `sp_parse_expr_reader`, and answer as those do: the part that the grammar's
//! table reads for an ask, or the error where that ends (`Answers`, specs/Reading.antt of
//! `sp_parse_expr_steps`). Initialisers in braces are one small cycle of calls; lists of initialisers,
//! declarators and declarations are loops. So calls lie no deeper inside one another than a small
//! multiple of the depth. An initialiser and a declaration take a token at least (`Takes`,
//! specs/Taking.antt), so each list of them ends.
//!
//! So of `int a[]={1,{2},},*b;c` the reader of declarations reads all up to `c`; of `int a={}` it
//! fails at the `}`; and `int a={1}` passes a depth of 2 at its `{`.
//!
//! The layer above uses the readers and the two makers that are public here, by their contracts.
#![tactic(auto)]

mod declarations;
mod initialisers;

pub use declarations::{
    Item, ItemList, declared, first_item, read_declarations, read_initial, read_more_items,
    read_named,
};
pub use initialisers::read_init;
