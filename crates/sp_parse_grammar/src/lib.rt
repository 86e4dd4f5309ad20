//! Grammars as tables, with the laws of reading and failing proved once over any of them.
//!
//! An *ask* is what a parser can be asked for: an expression, what stands after an operand, the
//! specifiers read so far. Each ask has its own *answers*, trees mostly. A *production* is a
//! *plan*: it takes tokens of a *class*, calls for parts by their asks, and goes on with a function
//! of what came back. A *table* (`Table`, specs/Table.antt) chooses the production by the ask and
//! the next token alone, and says how each ask is completed by a shortest part. `Reads` says that a
//! plan is read from some tokens with an answer, `Fails` that it isn't, with the failing token and
//! what was *wanted* there, and `Nests` (specs/Depth.antt) that a depth is passed. What is checked
//! of a table (`Checked`, specs/Checked.antt) goes ask by ask and token by token.
//!
//! For example an ask for a sum reads from `a - b c` the first three tokens as `a - b` and leaves
//! `c`; from `a - ;` it fails at the `;`, where an operand was wanted, since some sum begins with
//! `a -` and none with `a - ;`.
//!
//! Of any table that is checked the laws hold (specs/Laws.antt): one reading and one fault
//! (`one_reading`, `one_fault`), not both (`never_both`); only the tokens up to the next one matter
//! (`one_answer`, `fault_stays`, `depth_stays`), and not even that one where the ask may end
//! (`ends_before`); what is read is the longest (`longest`); at a fault is the failing token
//! (`failing`): some whole begins with the tokens before it, none with it, and they are no whole;
//! and where a depth is passed some whole goes on and each that does is too deep (`nesting`). A
//! fact that each production keeps holds of all that is read (`kept`). Where the asks rank and no
//! production takes a last token (`Ends`), any tokens are read or fail (`decided`).
//! [`any_table_is_lawful`] has these laws as its contract, over any table.
//!
//! The grammar of C90 is the table `c90` (specs/CTable.antt) over any trees and tokens
//! (specs/CTrees.antt, specs/CTokens.antt). The contract of [`any_tokens_are_settled`] says of any
//! trees that the table is checked, and that any tokens with the end of the text last are read or
//! fail, and not both (`AreSettled`, specs/CLaws.antt). The trees and tokens of this repository
//! come in `sp_parse_tokens`, its parsers' laws in `sp_parse_laws`. The layer above uses `c90`, and the
//! two calls' contracts.
#![tactic(auto)]

mod laws;

pub use laws::{AnyTable, AnyTrees, any_table_is_lawful, any_tokens_are_settled};
