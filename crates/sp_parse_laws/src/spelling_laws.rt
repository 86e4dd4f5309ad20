//! What C90's grammar reads spells its tokens, and each place in it is that of its token (C90 6.3
//! to 6.5): laws alone.
//!
//! The fact is kept by each production (proofs/SpelledTable.antt), so it holds of all that is read
//! (`is_spelled`): of each answer it says which tokens it spells after those of the part that its
//! ask carries (`SpelledAnswer`, proofs/SpelledAnswers.antt). For example what is read of `a-b` is
//! a tree whose tokens are `a`, `-`, `b`, with the places of these three.
//!
//! The layer above uses `is_spelled`. The contracts of [`readings_are_spelled`] say what it comes
//! to for whole expressions, initialisers, declarations and declarators of a name.

ghost use Rattle.sp_parse_laws.specs.Spelled.{ExpressionsAreSpelled, InitialisersAreSpelled, DeclarationsAreSpelled, DeclaratorsAreSettled};

/// What is read spells its tokens, with their places. The call does nothing.
pub fn readings_are_spelled()
    ensures expressions { ExpressionsAreSpelled }
    ensures initialisers { InitialisersAreSpelled }
    ensures declarations { DeclarationsAreSpelled }
    ensures declarators { DeclaratorsAreSettled }
{}
