//! Makers and tests of the readers of specifiers (C90 6.5.1 to 6.5.3).
ghost use Rattle.std.specs.Prelude.{◌≡◌, ◌==◌, ◌&&◌, ◌||◌, IfOk, map, Some, None};
ghost use Rattle.sp_parse_grammar.specs.CTokens.{is_mark as stands_mark};
ghost use Rattle.sp_parse_grammar.specs.CTokens as sorts_there;
ghost use Rattle.sp_parse_trees.specs.View.{declaration_of, declarator_of, specifier_of};
ghost use Rattle.sp_parse_trees.specs.Syntax.{init_declarator, no_init, struct_specifier, struct_spec, enum_specifier, enum_spec};
ghost use Rattle.sp_parse_tokens.specs.Makers.{make_word, is_union as is_union_kind, some_members, some_constants};
ghost use Rattle.sp_parse_tokens.specs.Faults.{is_empty};
ghost use Rattle.sp_parse_tokens.specs.Codes.{sort_seen};
ghost use Rattle.sp_parse_expr_steps.specs.Declaring.{placed, item_seen, constant_seen, typeless};

use sp_parse_tokens::{AlsoAllowed, Mark, Sort, is_mark};
use sp_parse_trees::{
    Declaration, Declarator, EnumSpec, Expr, InitDeclarator, Specifier, StructSpec, is_qualifier,
    is_storage,
};
use sp_tree::{Keyword, Kind, Place, Token};
use std::alloc::{AllocError, Global};

/// The specifier that is one word: a storage class, a qualifier, a word of a type, or a type name.
pub fn word_specifier(token: Token) -> Specifier
    ensures { placed result token ≡ make_word token }
{
    match token.kind {
        Kind::Word(word) => {
            if is_storage(word) {
                Specifier::Storage(word)
            } else if is_qualifier(word) {
                Specifier::Qualifier(word)
            } else {
                Specifier::Basic(word)
            }
        }
        Kind::Name(name) | Kind::Text(name) => Specifier::Named(name),
        _ => Specifier::Named(0),
    }
}

/// Whether the token is `union`.
fn is_union(kind: Kind) -> bool
    ensures { result ≡ is_union_kind kind }
{
    matches!(kind, Kind::Word(Keyword::Union))
}

/// Whether a structure, which is at least one deep, passes the depth.
pub fn is_too_deep(depth: u32, sort: Sort) -> bool
    ensures { result ≡ (stands_mark sorts_there.struct (sort_seen sort) && (depth == 0)) }
{
    is_mark(Mark::Struct, sort) && depth == 0
}

/// Whether one of the two holds. A function of its own, so that the value is known behind it.
pub fn is_either(one: bool, other: bool) -> bool
    ensures { result ≡ (one || other) }
{
    one || other
}

/// What might stand where a specifier of a type is wanted, behind these specifiers.
pub fn type_allowed(stores: bool, all: &Vec<Specifier>) -> AlsoAllowed
    ensures { result ≡ typeless stores (is_empty all.now.items) }
{
    if stores && all.is_empty() {
        AlsoAllowed::Parameter
    } else {
        AlsoAllowed::TypeSpecifier
    }
}

/// A member's declarator, which has no initialiser.
pub fn item_of(declarator: Declarator) -> InitDeclarator
    ensures { item_seen result ≡ init_declarator (declarator_of declarator) no_init }
{
    InitDeclarator {
        declarator,
        start: None,
    }
}

/// The specifier of a structure or a union with these members.
pub fn structure(
    alloc: Global,
    word: Token,
    tag: Option<u32>,
    members: Vec<Declaration>,
) -> Result<Specifier, AllocError>
    ensures { IfOk result
        (λ s. specifier_of s ≡ struct_specifier (struct_spec (is_union_kind word.kind) tag
        (some_members (Some (map declaration_of members.items))) word.place)) }
{
    let spec = StructSpec {
        union: is_union(word.kind),
        tag,
        members: Some(members),
        place: word.place,
    };
    Ok(Specifier::Struct(Box::new(alloc, spec)?))
}

/// The specifier that names a structure or a union.
pub fn tagged_structure(alloc: Global, word: Token, tag: u32) -> Result<Specifier, AllocError>
    ensures { IfOk result
        (λ s. specifier_of s ≡ struct_specifier (struct_spec (is_union_kind word.kind) (Some tag)
        (some_members None) word.place)) }
{
    let spec = StructSpec {
        union: is_union(word.kind),
        tag: Some(tag),
        members: None,
        place: word.place,
    };
    Ok(Specifier::Struct(Box::new(alloc, spec)?))
}

/// The specifier of an enumeration with these constants.
pub fn enumeration(
    alloc: Global,
    word: Token,
    tag: Option<u32>,
    constants: Vec<(u32, Place, Option<Expr>)>,
) -> Result<Specifier, AllocError>
    ensures { IfOk result
        (λ s. specifier_of s ≡ enum_specifier (enum_spec tag
        (some_constants (Some (map constant_seen constants.items))) word.place)) }
{
    let spec = EnumSpec {
        tag,
        constants: Some(constants),
        place: word.place,
    };
    Ok(Specifier::Enum(Box::new(alloc, spec)?))
}

/// The specifier that names an enumeration.
pub fn tagged_enumeration(alloc: Global, word: Token, tag: u32) -> Result<Specifier, AllocError>
    ensures { IfOk result
        (λ s. specifier_of s ≡ enum_specifier (enum_spec (Some tag) (some_constants None)
        word.place)) }
{
    let spec = EnumSpec {
        tag: Some(tag),
        constants: None,
        place: word.place,
    };
    Ok(Specifier::Enum(Box::new(alloc, spec)?))
}
