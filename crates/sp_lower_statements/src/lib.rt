//! The nodes and edges of statements.
//!
//! `statement` goes down a statement of C90 and adds its nodes to a body. Its contract says that
//! the body becomes just `lower_statement` of the tree (`specs.Statements` of `sp_lower_body`),
//! where no memory is wanted.
//!
//! So `int a = f(); while (a) a--;` adds the call with its return, `a := t`, the `skip` that is
//! the loop's head, the two nodes of the condition, and the step, whose end goes back to the
//! head.
//!
//! The values of expressions come from `sp_lower_expr`; what loops and jumps do around their
//! parts from `sp_lower_body`. Here are declarations with start values, the header of a
//! `switch`, and the recursion.
#![tactic(auto)]

mod declarations;
mod switches;
mod walk;

pub use walk::statement;
