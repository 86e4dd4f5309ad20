//! From the texts of files to one lowered program.
//!
//! In go files, each a name and a text, within the limits of `specs/Sources.antt`. Each file is
//! scanned, parsed and checked before the next is begun; then their units are linked, and the
//! program is lowered. Out comes the lowered program, which is formed, or the first fault: that of
//! the first file that is refused, else one of the whole program. That stands at a declaration that
//! doesn't agree with another file's, else where the first file begins. That the program is formed
//! isn't tested: it is a law (`sp_front_laws`). The *room* is how many tokens the files that are
//! left may have.
//!
//! So the files a.c, `int x[3];`, and b.c, `int main(void) { return 1; }`, are one program. Without
//! the second semicolon b.c is refused at b.c:1:27, and a.c alone at a.c:1:1, since it has no
//! `main`.
//!
//! The layer above uses [`lowered_of`], with the limits on files and their bytes. Its contract
//! (`Answers` of `specs/Answers.antt`) says which program it is, or which fault.
#![tactic(auto)]

mod files;
mod front;
mod program;
mod sources;

pub use front::FrontError;
pub use program::lowered_of;
pub use sources::{MAX_FILES, MAX_TEXT, Source};
