//! Laws of C90's statements, external declarations and units (C90 6.6, 6.7): laws alone.
//!
//! What the grammar reads of them spells its tokens, with their places (proofs/Also.antt), and is
//! levelled. That an `else` is at its nearest `if` hangs on the token behind a statement, so there a
//! production knows the tokens before and after each part (proofs/Between.antt). And each levelled
//! one is read from its tokens, before a token at which it may end, step by step along the plans of
//! the grammar (proofs/Steps.antt). So the grammar reads exactly the levelled units: what is read of
//! a whole text is its one unit, and where it fails stands the failing token (specs/Answers.antt).
//!
//! For example `if(a)if(b);else c;` is read with the `else` at the inner `if`: were it the outer
//! one's, the inner `if` would end open before an `else`. The text `int a;}` fails at its `}`: the
//! text of some unit begins with `int a;`, that of none with `int a;}`. And `int a` fails at its end.
//!
//! A parser of units uses `units_are_parsed`, from what the grammar reads to what it answers. Rows
//! try the laws on small texts (proofs/Rows.antt).

ghost use Rattle.sp_parse_laws.specs.Units.{StatementsAreSpelled, ExternalsAreSpelled, UnitsAreSpelled};
ghost use Rattle.sp_parse_laws.specs.Units.{StatementsAreLevelled, UnitsAreLevelled};
ghost use Rattle.sp_parse_laws.specs.UnitAnswers.{UnitsAreParsed, UnitsAreReadAgain};
ghost use Rattle.sp_parse_laws.specs.Complete.{InitsAreRead, DeclarationsAreRead, StatementsAreRead, ExternalsAreRead, UnitsAreRead};

/// What is read of statements and units spells its tokens, with their places. The call does nothing.
pub fn units_are_spelled()
    ensures statements { StatementsAreSpelled }
    ensures externals { ExternalsAreSpelled }
    ensures units { UnitsAreSpelled }
{}

/// What is read of statements and units is levelled. The call does nothing.
pub fn units_are_levelled()
    ensures statements { StatementsAreLevelled }
    ensures units { UnitsAreLevelled }
{}

/// Each levelled initialiser, declaration, statement, external declaration and unit is read from
/// its tokens, as itself but for its places. The call does nothing.
pub fn units_are_read()
    ensures initialisers { InitsAreRead }
    ensures declarations { DeclarationsAreRead }
    ensures statements { StatementsAreRead }
    ensures externals { ExternalsAreRead }
    ensures units { UnitsAreRead }
{}

/// The grammar reads exactly the levelled units, where the text with its end fails stands the
/// failing token, and where it nests the depth is passed: what a parser of units rests on. The call
/// does nothing.
pub fn units_are_parsed()
    ensures { UnitsAreParsed }
{}

/// Levelled units of the same tokens are the same, and each is read again as itself: it is the one
/// answer to its tokens. The call does nothing.
pub fn units_are_read_again()
    ensures { UnitsAreReadAgain }
{}
