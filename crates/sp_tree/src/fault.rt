//! Places, and the faults that stand at them.
/// Where a byte stands: the number of a file's name in [`crate::Names`], a line, and a column.
///
/// Lines are those that the last marker line tells, or counted from 1. The column is the number of the byte in its line,
/// from 1; a tab is one byte.
#[derive(Clone, Copy, Debug, PartialEq, Eq)]
pub struct Place {
    pub name: u32,
    pub line: u64,
    pub column: u64,
}

/// Why a text is refused, and where.
#[derive(Clone, Copy, Debug, PartialEq, Eq)]
pub struct Fault {
    pub kind: FaultKind,
    pub place: Place,
}

/// The kinds of faults: mistakes in the program, then forms of C that are not supported, then limits
/// of the analyser. What each prints is said in `sp_run_faults`.
#[derive(Clone, Copy, Debug, PartialEq, Eq)]
pub enum FaultKind {
    /// A byte that begins no blank, comment, marker line or spelling.
    BadByte,
    /// A comment that doesn't end.
    OpenComment,
    /// A literal with no closing quote on its line.
    OpenLiteral,
    /// A number, a character constant or a string literal that isn't one of C.
    MalformedLiteral,
    /// An integer literal above 2^64 - 1.
    LiteralPast64Bits,
    /// A line that begins with `#` and is no marker line.
    BadMarker,
    /// The first token with which no program goes on.
    UnexpectedToken,
    /// A name that isn't declared.
    UndeclaredName,
    /// A name that its scope has already.
    RedeclaredName,
    /// A member that the struct or union lacks.
    NoSuchMember,
    /// A tag of another kind, or defined already.
    OtherTagKind,
    /// A label that is missing or given twice, or a jump outside its statement.
    MisplacedJump,
    /// A complete type is needed, and this one isn't.
    IncompleteType,
    /// Operands, or a declaration, that break a constraint.
    BadOperand,
    /// An operand that must be an lvalue.
    NotAnLvalue,
    /// A callee that isn't a function.
    NotAFunction,
    /// A call with another number of arguments than the prototype has.
    ArgumentCount,
    /// A value that doesn't convert to the type wanted.
    NotConvertible,
    /// A constant is needed.
    NotAConstant,
    /// An initialiser that doesn't fit its object.
    BadInitialiser,
    /// A length, or a size, out of range.
    BadLength,
    /// A case value or a default given twice.
    RepeatedCase,
    /// A second definition of a name.
    SecondDefinition,
    /// Declarations of one name that don't agree.
    IncompatibleDeclaration,
    /// No function `main` is defined.
    NoMain,
    /// A floating literal, or a use of a floating type.
    FloatingType,
    /// `setjmp` or `longjmp`.
    Setjmp,
    /// Inline assembly.
    InlineAssembly,
    /// Parameters of the old style.
    OldStyleParameters,
    /// A declaration without a type specifier.
    ImplicitInt,
    /// A definition with `...`.
    VariadicDefinition,
    /// A bit-field.
    BitField,
    /// A word or a form of GNU C.
    GnuWord,
    /// A typedef name where an ordinary name stands, or a typedef in a function.
    TypedefAsOrdinaryName,
    /// `long long`, or a literal of it.
    LongLong,
    /// A wide literal.
    WideLiteral,
    /// Too many tokens.
    TooManyTokens,
    /// Too deep a nesting.
    NestingTooDeep,
    /// A struct of too many cells.
    TooManyCells,
    /// Too many nodes.
    TooManyNodes,
    /// Too many regions.
    TooManyRegions,
    /// Too many dependencies.
    TooManyDependencies,
    /// Too long a text.
    TextTooLong,
    /// Too many slots of whole stores: the product that passes the limit.
    TooManySlots { cells: u64 },
    /// Too many files.
    TooManyFiles,
    /// A type of too many parts.
    TooManyParts,
}
