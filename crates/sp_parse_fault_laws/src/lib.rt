//! What the kinds of faults at C90's failing tokens mean, said by trees (C90 6.5 to 6.7): laws alone.
//!
//! The kind of a fault at the name of a type is TypedefAsOrdinaryName where the grammar notes that a name could stand
//! there (`takes_name` of `sp_parse_tokens`). Here that is said by trees: where a unit, an expression, a
//! type name, a list of specifiers or a declarator fails at the name of a type, the fault is TypedefAsOrdinaryName
//! exactly where a name that is no type's could be in its place (specs/Told.antt).
//!
//! Any table is asked what it does at another token in the failing one's place: a part that ended
//! there may go on with it, and what failed there may take it (proofs/Swapping.antt). The notes tell
//! both, since each production keeps them (proofs/Productions.antt), and so does each ask at the two
//! tokens (proofs/NamePeeks.antt).
//!
//! So it is with the kinds of missing types, OldStyleParameters and ImplicitInt (specs/Missing.antt): the word that is asked for
//! is `float`, which stands beside no other word of a type. Of `int` it would be false: `(long x` is
//! no missing type, though `int` could be in the place of `x` (proofs/LongRows.antt).
//!
//! For example `typedef int T;int f(){for(;T;);}` fails at the second `T`: behind the `;` an
//! expression may be missing, so a name could go on there. In `int a T;` none could.
//!
//! What stands before a token is kept production by production (proofs/Walks.antt): whether it is
//! `(` or `,`, and whether the place is in a function. So OldStyleParameters is told from ImplicitInt (specs/Parameters.antt).
//! And so TypedefAsOrdinaryName at the word `typedef` is told by the body of a function (specs/Functions.antt). That is
//! not where another storage class could be: `return typedef` is TypedefAsOrdinaryName, but no `static` stands there.
#![tactic(auto)]

ghost use Rattle.sp_parse_fault_laws.specs.Functions.{TypedefsAreTold};
ghost use Rattle.sp_parse_fault_laws.specs.Missing.{MissingTypesAreTold};
ghost use Rattle.sp_parse_fault_laws.specs.Parameters.{ParametersAreTold};
ghost use Rattle.sp_parse_fault_laws.specs.Told.{TypeNamesAreTold};

/// Where a text fails at the name of a type, its fault is TypedefAsOrdinaryName exactly where a name could be in its
/// place. The call does nothing.
pub fn type_names_are_told()
    ensures { TypeNamesAreTold }
{}

/// Where a unit, an expression, a type name, a list of specifiers or a declarator fails at a token
/// that begins a declarator, its fault is OldStyleParameters or ImplicitInt exactly where the word `float` could be in its
/// place.
/// The call does nothing.
pub fn missing_types_are_told()
    ensures { MissingTypesAreTold }
{}

/// Where a unit or one of those parts fails, its fault is OldStyleParameters exactly where a parameter could begin:
/// at a name that is no type's, behind `(` or `,`, in whose place the word `float` could be. Any
/// other missing type is ImplicitInt.
/// The call does nothing.
pub fn parameters_are_told()
    ensures { ParametersAreTold }
{}

/// Where a unit fails at the word `typedef`, its fault is TypedefAsOrdinaryName exactly in the body of a function.
/// Where an expression, a type name, a list of specifiers or a declarator does, it is never TypedefAsOrdinaryName.
/// The call does nothing.
pub fn typedefs_are_told()
    ensures { TypedefsAreTold }
{}
