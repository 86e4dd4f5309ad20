//! What each kind of fault prints: its code and its text.
//!
//! The codes begin with `F` where the program has a mistake, with `U` where it has a form of C that
//! is not supported, and with `M` where it passes a limit of the analyser. So the kind
//! `UnexpectedToken` prints as `F7: unexpected token`, and `TooManySlots { cells: 9 }` as `M8: 9
//! dense slots`.
//!
//! The layer above uses [`code`] and the Display of [`FaultText`], which are `code_of` and `text_of`
//! of `specs/Faults.antt`. All else knows faults by their kinds alone.
#![tactic(auto)]

ghost use Rattle.std.specs.Prelude.{◌≡◌};
ghost use Rattle.sp_run_faults.specs.Faults.{code_of, words_of};

use sp_tree::FaultKind;
use std::fmt;

/// The code that stands before the text in a printed fault.
pub fn code(kind: FaultKind) -> &'static str
    ensures { result.now ≡ code_of kind }
{
    match kind {
        FaultKind::BadByte => "F1",
        FaultKind::OpenComment => "F2",
        FaultKind::OpenLiteral => "F3",
        FaultKind::MalformedLiteral => "F4",
        FaultKind::LiteralPast64Bits => "F5",
        FaultKind::BadMarker => "F6",
        FaultKind::UnexpectedToken => "F7",
        FaultKind::UndeclaredName => "F8",
        FaultKind::RedeclaredName => "F9",
        FaultKind::NoSuchMember => "F10",
        FaultKind::OtherTagKind => "F11",
        FaultKind::MisplacedJump => "F12",
        FaultKind::IncompleteType => "F13",
        FaultKind::BadOperand => "F14",
        FaultKind::NotAnLvalue => "F15",
        FaultKind::NotAFunction => "F16",
        FaultKind::ArgumentCount => "F17",
        FaultKind::NotConvertible => "F18",
        FaultKind::NotAConstant => "F19",
        FaultKind::BadInitialiser => "F20",
        FaultKind::BadLength => "F21",
        FaultKind::RepeatedCase => "F22",
        FaultKind::SecondDefinition => "F23",
        FaultKind::IncompatibleDeclaration => "F24",
        FaultKind::NoMain => "F25",
        FaultKind::FloatingType => "U1",
        FaultKind::Setjmp => "U2",
        FaultKind::InlineAssembly => "U3",
        FaultKind::OldStyleParameters => "U4",
        FaultKind::ImplicitInt => "U5",
        FaultKind::VariadicDefinition => "U6",
        FaultKind::BitField => "U7",
        FaultKind::GnuWord => "U8",
        FaultKind::TypedefAsOrdinaryName => "U9",
        FaultKind::LongLong => "U10",
        FaultKind::WideLiteral => "U11",
        FaultKind::TooManyTokens => "M1",
        FaultKind::NestingTooDeep => "M2",
        FaultKind::TooManyCells => "M3",
        FaultKind::TooManyNodes => "M4",
        FaultKind::TooManyRegions => "M5",
        FaultKind::TooManyDependencies => "M6",
        FaultKind::TextTooLong => "M7",
        FaultKind::TooManySlots { .. } => "M8",
        FaultKind::TooManyFiles => "M9",
        FaultKind::TooManyParts => "M10",
    }
}

/// The words of the text. Those of `TooManySlots` follow its number and a space.
fn words(kind: FaultKind) -> &'static str
    ensures { result.now ≡ words_of kind }
{
    match kind {
        FaultKind::BadByte => "bad byte",
        FaultKind::OpenComment => "open comment",
        FaultKind::OpenLiteral => "open literal",
        FaultKind::MalformedLiteral => "malformed literal",
        FaultKind::LiteralPast64Bits => "literal past 64 bits",
        FaultKind::BadMarker => "bad marker",
        FaultKind::UnexpectedToken => "unexpected token",
        FaultKind::UndeclaredName => "undeclared name",
        FaultKind::RedeclaredName => "redeclared name",
        FaultKind::NoSuchMember => "no such member",
        FaultKind::OtherTagKind => "tag of another kind",
        FaultKind::MisplacedJump => "misplaced label or jump",
        FaultKind::IncompleteType => "incomplete type",
        FaultKind::BadOperand => "bad operand",
        FaultKind::NotAnLvalue => "not an lvalue",
        FaultKind::NotAFunction => "not a function",
        FaultKind::ArgumentCount => "argument count",
        FaultKind::NotConvertible => "not convertible",
        FaultKind::NotAConstant => "not a constant",
        FaultKind::BadInitialiser => "bad initialiser",
        FaultKind::BadLength => "bad length or size",
        FaultKind::RepeatedCase => "repeated case",
        FaultKind::SecondDefinition => "second definition",
        FaultKind::IncompatibleDeclaration => "incompatible declaration",
        FaultKind::NoMain => "no main",
        FaultKind::FloatingType => "floating type",
        FaultKind::Setjmp => "setjmp",
        FaultKind::InlineAssembly => "inline assembly",
        FaultKind::OldStyleParameters => "old-style parameters",
        FaultKind::ImplicitInt => "implicit int",
        FaultKind::VariadicDefinition => "variadic definition",
        FaultKind::BitField => "bit-field",
        FaultKind::GnuWord => "GNU word",
        FaultKind::TypedefAsOrdinaryName => "typedef name as an ordinary name",
        FaultKind::LongLong => "long long",
        FaultKind::WideLiteral => "wide literal",
        FaultKind::TooManyTokens => "tokens past 2000000",
        FaultKind::NestingTooDeep => "nesting past 200",
        FaultKind::TooManyCells => "struct past 256 cells",
        FaultKind::TooManyNodes => "nodes past 500000",
        FaultKind::TooManyRegions => "regions past 200000",
        FaultKind::TooManyDependencies => "dependencies past 50000000",
        FaultKind::TextTooLong => "text past 16777216 bytes",
        FaultKind::TooManySlots { .. } => "dense slots",
        FaultKind::TooManyFiles => "files past 64",
        FaultKind::TooManyParts => "type past 1000 parts",
    }
}

/// The text of a fault of this kind, to be printed: its words, and for `TooManySlots` the number
/// before them.
#[derive(Clone, Copy)]
pub struct FaultText {
    pub kind: FaultKind,
}

impl fmt::Display for FaultText {
    ghost use Rattle.std.specs.Prelude.{Some};
    ghost use Rattle.sp_run_faults.specs.Faults.{text_of};

    ghost output = { λ text. Some (text_of text.kind) };

    fn fmt<W: fmt::Write>(&self, f: &mut fmt::Formatter<W>) -> fmt::Result {
        if let FaultKind::TooManySlots { cells } = self.kind {
            write!(f, "{cells} ")?;
        }
        f.write_str(words(self.kind))
    }
}
