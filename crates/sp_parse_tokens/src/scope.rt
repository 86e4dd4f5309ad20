//! Where a part is read, what might also be at a failing token, and the kind of the fault.
ghost use Rattle.std.specs.Prelude.{◌≡◌};
ghost use Rattle.sp_parse_tokens.specs.Codes.{sort_seen};
ghost use Rattle.sp_parse_tokens.specs.Scopes.{kind_for};

use crate::TypeNames;
use crate::sorts::{Mark, Sort};
use sp_tree::FaultKind;
use std::alloc::Global;

/// Whether a part is in a function, and whether between the braces of a structure.
#[derive(Clone, Copy)]
pub struct Scope {
    pub in_function: bool,
    pub in_struct: bool,
}

/// Where a part is read: the allocator of its tree, the names that are type names, and its scope.
#[derive(Clone, Copy)]
pub struct Context<'a> {
    pub alloc: Global,
    pub types: &'a TypeNames,
    pub scope: Scope,
}

/// What might also be at a failing token, besides what was wanted there. It tells the kind of the
/// fault.
#[derive(Clone, Copy)]
pub enum AlsoAllowed {
    /// Nothing that matters.
    Nothing,
    /// A name.
    Name,
    /// A parameter, of which nothing was read.
    Parameter,
    /// A specifier of a type, after others or at the head of a member.
    TypeSpecifier,
    /// The body of a function, but for its `...`.
    Body,
}

/// The kind of a fault, by what might also be there and the sort of the failing token.
///
/// `OldStyleParameters` a parameter without a type, `ImplicitInt` a declaration without one, `VariadicDefinition` the body of a function
/// with `...`, `BitField` a bit-field, `TypedefAsOrdinaryName` a type name in the place of a name, or `typedef` in a
/// function; else `UnexpectedToken`. [`crate::refined`] tells the kinds that hang on the tokens before.
pub fn kind_for(scope: Scope, also_allowed: AlsoAllowed, sort: Sort) -> FaultKind
    ensures { result ≡ kind_for scope also_allowed (sort_seen sort) }
{
    match (also_allowed, sort) {
        (AlsoAllowed::Parameter, Sort::Name(_)) => FaultKind::OldStyleParameters,
        (AlsoAllowed::TypeSpecifier, Sort::Name(_)) => FaultKind::ImplicitInt,
        (
            AlsoAllowed::Parameter | AlsoAllowed::TypeSpecifier,
            Sort::Mark(Mark::Star | Mark::OpenParen),
        ) => FaultKind::ImplicitInt,
        (AlsoAllowed::Body, Sort::Mark(Mark::OpenBrace)) => FaultKind::VariadicDefinition,
        (_, Sort::Mark(Mark::Colon)) => {
            if scope.in_struct {
                FaultKind::BitField
            } else {
                FaultKind::UnexpectedToken
            }
        }
        (AlsoAllowed::Name, Sort::NamedType(_)) => FaultKind::TypedefAsOrdinaryName,
        (_, Sort::Mark(Mark::Typedef)) => {
            if scope.in_function {
                FaultKind::TypedefAsOrdinaryName
            } else {
                FaultKind::UnexpectedToken
            }
        }
        _ => FaultKind::UnexpectedToken,
    }
}
