//! The reader of units (C90 6.7).
ghost use Rattle.std.specs.Prelude.{◌≡◌, ◌++◌, ◌||◌, [], MatchResult, true, false, OnOk};
ghost use Rattle.sp_parse_grammar.specs.CTokens.{is_mark};
ghost use Rattle.sp_parse_grammar.specs.CTokens as sorts_there;
ghost use Rattle.sp_parse_grammar.specs.CTable as grammar;
ghost use Rattle.sp_parse_trees.specs.View.{externals_of};
ghost use Rattle.sp_parse_tokens.specs.Codes.{sort_seen};
ghost use Rattle.sp_parse_tokens.specs.Ended.{IsEnded};
ghost use Rattle.sp_decl_parser.specs.Units.{IsUnitRead, IsUnitStop};

use crate::externals::{ExternalPart, read_external};
use sp_parse_tokens::{
    AlsoAllowed, Context, Mark, Part, ReadError, Scope, Sort, TypeNames, begins_specifiers, fault,
    is_mark, next_token, sort_at,
};
use sp_parse_trees::External;
use sp_tree::Token;
use std::alloc::{AllocError, Global};

/// Outside of functions and structures.
const OUTSIDE: Scope = Scope {
    in_function: false,
    in_struct: false,
};

/// Whether the token begins an external declaration.
fn begins_external(sort: Sort) -> bool
    ensures { result ≡ (is_mark sorts_there.semicolon (sort_seen sort)
        || grammar.begins_specifiers true false (sort_seen sort)) }
{
    is_mark(Mark::Semicolon, sort) || begins_specifiers(true, false, sort)
}

/// Makes names type names, in order.
fn add_all(types: &mut TypeNames, names: &[u32]) -> Result<(), AllocError>
    ensures { OnOk result (types.new ≡ types.old ++ names.now) }
{
    let mut rest = names;
    'names: loop {
        match rest {
            [] => break,
            [first, more @ ..] => {
                types.add(*first)?;
                rest = more;
            }
        }
    }
    Ok(())
}

/// All external declarations of a text. Those after a `typedef` see its names as type names.
pub(crate) fn read_unit<'a>(
    alloc: Global,
    tokens: &'a [Token],
    depth: u32,
) -> Result<Part<'a, Vec<External>>, ReadError<'a>>
    requires { IsEnded tokens.now }
    ensures { MatchResult result
        (λ part. IsUnitRead depth tokens.now (externals_of part.tree.items) part.depth)
        (IsUnitStop depth tokens.now) }
{
    let mut types = TypeNames::new(alloc);
    read_externals(alloc, &mut types, tokens, depth)
}

/// All external declarations of a text, before which no names are type names. They become so.
fn read_externals<'a>(
    alloc: Global,
    types: &mut TypeNames,
    tokens: &'a [Token],
    depth: u32,
) -> Result<Part<'a, Vec<External>>, ReadError<'a>>
    requires ended { IsEnded tokens.now }
    requires no_types { types.old ≡ [] }
    ensures { MatchResult result
        (λ part. IsUnitRead depth tokens.now (externals_of part.tree.items) part.depth)
        (IsUnitStop depth tokens.now) }
{
    let mut all = Vec::new(alloc);
    let mut reached: u32 = 0;
    let mut rest = tokens;
    'externals: loop {
        let (token, _) = next_token(rest);
        if !begins_external(sort_at(types, token.kind)) {
            break;
        }
        let next = read_external(outside(alloc, types), rest, depth)?;
        reached = reached.max(next.depth);
        rest = next.rest;
        let ExternalPart { tree, types: names } = next.tree;
        add_all(types, names.as_slice())?;
        all.push(tree)?;
    }
    let (last, _) = next_token(rest);
    if !is_mark(Mark::End, sort_at(types, last.kind)) {
        return Err(fault(outside(alloc, types), AlsoAllowed::TypeSpecifier, rest));
    }
    Ok(Part {
        tree: all,
        depth: reached,
        rest,
    })
}

/// The context outside of functions and structures, where these names are type names.
fn outside(alloc: Global, types: &TypeNames) -> Context<'_>
    ensures types { result.types.now ≡ types.now }
    ensures function { result.scope.in_function ≡ false }
    ensures structure { result.scope.in_struct ≡ false }
{
    Context {
        alloc,
        types,
        scope: OUTSIDE,
    }
}
