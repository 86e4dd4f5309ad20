//! What statements and functions add to a draft is formed: laws that only proofs use.
//!
//! Where a statement is well typed (`IsTypedStatement` of `sp_check_typing`), and what it names
//! stands in the finished program (`FitsFrame`, specs/Frames.antt), it adds formed nodes and edges,
//! and the lists of a body have what they are for: ends that leave a loop, go to a label or end the
//! function, and labels with their nodes (`IsSoundBody`, specs/Bodies.antt). So after `while (a) {
//! if (b) break; }` the `break` is an end of the function's own, to which an edge may be added.
//!
//! Each function adds its entry, what its body adds, and its exit. Where the bodies are well typed,
//! and what they name stands in the finished program (`AreFit`, specs/Functions.antt), all of the
//! draft is formed behind them, and each function has one entry and one exit (`AreLowered`).
#![tactic(auto)]

mod function_laws;
mod statement_laws;

pub use function_laws::functions_are_good;
pub use statement_laws::statements_are_good;
