//! The indirect calls of a program, and which functions each of them calls.
//!
//! A call is *direct* where a function is called by its own name, and *indirect* else, as `(*f)(x)`
//! is. Its *callees* are the functions to which points-to lets the called expression point and that
//! take as many arguments. So of a file `a.c` with the text
//!
//! ```text
//! int f(int a){return a;} int g(int a){return 0;} int(*t[2])(int)={f,g};
//! int main(void){ int(*h)(void)=0; if(h) h(); return f(t[1](3)); }
//! ```
//!
//! the text is
//!
//! ```text
//! a.c:2:40: none
//! a.c:2:54: f g
//! 2 indirect calls
//! ```
//!
//! What goes in: the names of the files, and a formed program. [`print_calls`] gives the text
//! (`AreCallsOf` of `specs.Told`), by points-to alone: nothing is evaluated. A program has no two
//! such texts (`CallsEqual` of `specs.Laws`, the contract of [`calls_are_one`]).
#![tactic(auto)]

mod lawful;
mod lines;

pub use lawful::calls_are_one;
pub use lines::print_calls;
