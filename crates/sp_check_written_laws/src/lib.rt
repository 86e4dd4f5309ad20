//! The unit of a text is written as a text can have it, and its names are bytes: laws that only
//! proofs use.
//!
//! What the scanner reads of bytes has numbers of 64 bits and characters that are ints. In what the
//! parser reads of that, a unary or binary operator stands where the grammar has one, and the braces
//! of a struct hold a member. The laws of checked trees ask for that (`AreWrittenExternals`,
//! specs/Statements.antt). So the value of `'\377'` is -1, and no tree has the number 2^64.
//!
//! The names that a text adds, those of its identifiers, literals and marker lines, are bytes where
//! the names before them are (`NamesAreBytes`, specs/Laws.antt).
#![tactic(auto)]

mod laws;

pub use laws::units_are_written;
