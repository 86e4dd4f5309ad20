//! Which functions a unit mentions, and which of them it has to define (C90 6.7).
//!
//! A typed tree *mentions* a function where a name stands for it, called or not. The operand of a
//! `sizeof` is gone from a typed tree, and so mentions nothing, as C90 says. A function with
//! internal linkage that the unit mentions has a definition in the unit.
//!
//! So in `static int f(void); static int g(void); int main(void) { return f() + sizeof(g()); }` the
//! unit mentions `f` alone, and has no definition of it: `f` is what [`undefined_function`] finds,
//! at the place of its first declaration.
//!
//! The layer above uses that one contract: the call answers exactly what the definition of its name
//! in `specs/Undefined.antt` gives, unless memory runs out. Each tree is gone over once at most,
//! and none where each function with internal linkage has its body.
#![tactic(auto)]

mod expressions;
mod statements;
mod undefined;

pub use undefined::undefined_function;
