//! Programs of texts are well typed, and their lowerings are formed: laws that only proofs use (C90
//! 6.7).
//!
//! Here the laws of the layers meet. The unit of a text is written as a text can have it, and its
//! names are bytes (`sp_check_written_laws`); so a unit that the checks accept is well typed
//! (`sp_check_unit_laws`), a program that such units are linked to is (`sp_link_typed_laws`), and the
//! lowering of that program, within the limits, is formed (`sp_lower_formed_laws`). So no program of
//! files has to be tested for being formed once it is lowered.
//!
//! Each unit is checked with the names so far, so the units of one program differ in those
//! (`IsChecked`, specs/Programs.antt).
#![tactic(auto)]

mod laws;

pub use laws::programs_are_typed;
