//! What expressions add to a draft is formed: a law that only proofs use.
//!
//! Where a tree is well typed (`IsTyped` of `sp_check_typing`), and what it names stands in the finished
//! program (`Fits`, specs/Stands.antt), each use of it adds formed nodes, edges between nodes of one
//! function, and temporaries and sites for which there are objects (`Grown`, specs/Grown.antt). What
//! is left is a formed expression or lvalue of the sort of the tree's type (`IsGood`,
//! specs/Uses.antt). So `p + i` leaves a `move` of a pointer by an integer, and `f(x)` a call, the
//! return behind it, and a read of a new temporary.
#![tactic(auto)]

mod laws;

pub use laws::expressions_are_good;
