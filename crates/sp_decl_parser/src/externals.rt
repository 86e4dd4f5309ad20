//! The readers of external declarations (C90 6.7).
ghost use Rattle.std.specs.Prelude.{◌≡◌, ◌≤◌, ◌&&◌, List, [], max, not, map, option_map, IfOk, if◌then◌else◌, true, false};
ghost use Rattle.sp_parse_grammar.specs.CTokens.{is_mark};
ghost use Rattle.sp_parse_grammar.specs.CTokens as sorts_there;
ghost use Rattle.sp_parse_grammar.specs.CTable as grammar;
ghost use Rattle.sp_parse_trees.specs.Syntax as syntax;
ghost use Rattle.sp_parse_trees.specs.View.{external_of, specifiers_of, declarator_of, statement_of, init_declarators};
ghost use Rattle.sp_parse_trees.specs.Depth.{specifiers_depth, declarator_depth};
ghost use Rattle.sp_parse_tokens.specs.Ended.{IsEnded};
ghost use Rattle.sp_parse_tokens.specs.Makers.{SpecifierAt, all_specifiers, place_of_first};
ghost use Rattle.sp_parse_tokens.specs.Scopes.{context_of};
ghost use Rattle.sp_parse_expr_steps.specs.Reading.{Answers};
ghost use Rattle.sp_parse_expr_steps.specs.Declaring.{declared_seen, shape_seen, item_seen};
ghost use Rattle.sp_parse_declarations.specs.Taking.{Takes};
ghost use Rattle.sp_decl_parser.specs.Seen.{external_part, specified, sort_of_first};

use sp_parse_declarations::{ItemList, first_item, read_initial, read_more_items, read_named};
use sp_parse_expr_reader::read_specifiers;
use sp_parse_statements::read_compound;
use sp_parse_tokens::{
    Context, Declared, DeclaredShape, Mark, Part, ReadError, Scope, SpecifierList, expect, is_mark,
    next_token, sort_at,
};
use sp_parse_trees::{Declaration, Declarator, External, InitDeclarator, Specifier, Statement};
use sp_tree::{Place, Token};
use std::alloc::{AllocError, Global};

/// An external declaration, and the names that it makes type names.
#[derive(Drop)]
pub(crate) struct ExternalPart {
    pub(crate) tree: External,
    pub(crate) types: Vec<u32>,
}

/// The specifiers of an external declaration, the place of the first, and their depth.
#[derive(Drop)]
pub(crate) struct Head {
    pub(crate) specifiers: SpecifierList,
    pub(crate) place: Place,
    pub(crate) depth: u32,
}

/// The definition of a function.
fn definition(specifiers: Vec<Specifier>, declarator: Declarator, body: Statement) -> External
    ensures { external_of result ≡ syntax.definition (specifiers_of specifiers.items)
        (declarator_of declarator) (statement_of body) }
{
    External::Function(specifiers, declarator, body)
}

/// A declaration of these declarators.
fn declaration(specifiers: Vec<Specifier>, items: Vec<InitDeclarator>, place: Place) -> External
    ensures { external_of result ≡ syntax.external_declaration (syntax.declaration
        (specifiers_of specifiers.items) (init_declarators (map item_seen items.items)) place) }
{
    External::Declaration(Declaration {
        specifiers,
        items,
        place,
    })
}

/// The name that a function's definition makes a type name: its own, where `typedef` is there.
fn name_made(alloc: Global, typedefs: bool, name: Option<u32>) -> Result<Vec<u32>, AllocError>
    ensures { IfOk result (λ names. names.items ≡ (if typedefs then grammar.with_name name [] else [])) }
{
    let mut names = Vec::new(alloc);
    if typedefs {
        if let Some(number) = name {
            names.push(number)?;
        }
    }
    Ok(names)
}

/// The names that a declaration makes type names: all that it declares, where `typedef` is there.
fn names_made(alloc: Global, typedefs: bool, names: Vec<u32>) -> Vec<u32>
    ensures { result.items ≡ (if typedefs then names.items else []) }
{
    if typedefs { names } else { Vec::new(alloc) }
}

/// Whether `;` is the first token.
fn ends_at_once(context: Context<'_>, tokens: &[Token]) -> bool
    requires { IsEnded tokens.now }
    ensures { result ≡ is_mark sorts_there.semicolon
        (sort_of_first context.entry.types.now tokens.now) }
{
    let (first, _) = next_token(tokens);
    is_mark(Mark::Semicolon, sort_at(context.types, first.kind))
}

/// Whether a function without `...` has its body next.
fn begins_body(context: Context<'_>, shape: DeclaredShape, tokens: &[Token]) -> bool
    requires { IsEnded tokens.now }
    ensures { result ≡ (is_mark sorts_there.brace (sort_of_first context.entry.types.now tokens.now)
        && not (grammar.is_variadic (shape_seen shape))) }
{
    let (first, _) = next_token(tokens);
    let variadic = matches!(shape, DeclaredShape::Variadic);
    is_mark(Mark::OpenBrace, sort_at(context.types, first.kind)) && !variadic
}

/// After the declarator of a function: its body.
fn read_definition<'a>(
    context: Context<'_>,
    tokens: &'a [Token],
    head: Head,
    declared: Declared,
    inner: u32,
    depth: u32,
) -> Result<Part<'a, ExternalPart>, ReadError<'a>>
    requires ended { IsEnded tokens.now }
    requires body { (is_mark sorts_there.brace (sort_of_first context.types.now tokens.now)
        && not (grammar.is_variadic (shape_seen declared.shape))) ≡ true }
    requires head_deep { head.depth ≡ specifiers_depth (specifiers_of head.specifiers.all.items) }
    requires head_shallow { head.depth ≤ depth }
    requires deep { inner ≡ declarator_depth (declarator_of declared.tree) }
    requires shallow { inner ≤ depth }
    ensures { (all : List SpecifierAt) → specifiers_of head.specifiers.all.items ≡ all_specifiers all →
        place_of_first all ≡ head.place →
        Answers (context_of context.entry)
        (grammar.behind_declarator (specified all head.specifiers.typedefs)
        (declared_seen declared (declarator_of declared.tree))) depth tokens.now external_part result }
{
    let (brace, rest) = next_token(tokens);
    let within = in_function(context);
    let body = read_compound(within, brace.place, rest, depth)?;
    let reached = head.depth.max(inner.max(body.depth));
    let rest = body.rest;
    let types = name_made(context.alloc, head.specifiers.typedefs, declared.declares)?;
    Ok(Part {
        tree: ExternalPart {
            tree: definition(head.specifiers.all, declared.tree, body.tree),
            types,
        },
        depth: reached,
        rest,
    })
}

/// The same context, in a function.
fn in_function(context: Context<'_>) -> Context<'_>
    ensures { context_of result ≡ grammar.in_function (context_of context.entry) }
{
    Context {
        alloc: context.alloc,
        types: context.types,
        scope: Scope {
            in_function: true,
            in_struct: context.scope.in_struct,
        },
    }
}

/// After the first declarator of a declaration: its initialiser, more declarators and `;`.
fn read_rest_of_declaration<'a>(
    context: Context<'_>,
    tokens: &'a [Token],
    head: Head,
    declared: Declared,
    inner: u32,
    depth: u32,
) -> Result<Part<'a, ExternalPart>, ReadError<'a>>
    requires ended { IsEnded tokens.now }
    requires no_body { (is_mark sorts_there.brace (sort_of_first context.types.now tokens.now)
        && not (grammar.is_variadic (shape_seen declared.shape))) ≡ false }
    requires head_deep { head.depth ≡ specifiers_depth (specifiers_of head.specifiers.all.items) }
    requires head_shallow { head.depth ≤ depth }
    requires deep { inner ≡ declarator_depth (declarator_of declared.tree) }
    requires shallow { inner ≤ depth }
    ensures { (all : List SpecifierAt) → specifiers_of head.specifiers.all.items ≡ all_specifiers all →
        place_of_first all ≡ head.place →
        Answers (context_of context.entry)
        (grammar.behind_declarator (specified all head.specifiers.typedefs)
        (declared_seen declared (declarator_of declared.tree))) depth tokens.now external_part result }
{
    let start = read_initial(context, tokens, depth)?;
    let first = first_item(declared, start.tree);
    let items = read_more_items(context, start.rest, first, inner.max(start.depth), depth)?;
    let rest = expect(context, items.tree.behind, Mark::Semicolon, items.rest)?;
    let reached = head.depth.max(items.depth);
    let ItemList { all, names, .. } = items.tree;
    Ok(Part {
        tree: ExternalPart {
            types: names_made(context.alloc, head.specifiers.typedefs, names),
            tree: declaration(head.specifiers.all, all, head.place),
        },
        depth: reached,
        rest,
    })
}

/// After the specifiers of an external declaration: `;`, or a declarator and what follows it.
fn read_external_items<'a>(
    context: Context<'_>,
    tokens: &'a [Token],
    head: Head,
    depth: u32,
) -> Result<Part<'a, ExternalPart>, ReadError<'a>>
    requires ended { IsEnded tokens.now }
    requires head_deep { head.depth ≡ specifiers_depth (specifiers_of head.specifiers.all.items) }
    requires head_shallow { head.depth ≤ depth }
    ensures { (all : List SpecifierAt) → specifiers_of head.specifiers.all.items ≡ all_specifiers all →
        place_of_first all ≡ head.place →
        Answers (context_of context.entry)
        (grammar.external_items (specified all head.specifiers.typedefs)) depth tokens.now
        external_part result }
{
    if ends_at_once(context, tokens) {
        let (_, rest) = next_token(tokens);
        let items = Vec::new(context.alloc);
        return Ok(Part {
            tree: ExternalPart {
                tree: declaration(head.specifiers.all, items, head.place),
                types: Vec::new(context.alloc),
            },
            depth: head.depth,
            rest,
        });
    }
    let declared = read_named(context, tokens, depth)?;
    let (tree, inner, rest) = (declared.tree, declared.depth, declared.rest);
    if begins_body(context, tree.shape, rest) {
        read_definition(context, rest, head, tree, inner, depth)
    } else {
        read_rest_of_declaration(context, rest, head, tree, inner, depth)
    }
}

/// An external declaration.
pub(crate) fn read_external<'a>(
    context: Context<'_>,
    tokens: &'a [Token],
    depth: u32,
) -> Result<Part<'a, ExternalPart>, ReadError<'a>>
    requires { IsEnded tokens.now }
    ensures { Takes (context_of context.entry) grammar.external depth tokens.now external_part result }
{
    let (first, rest) = next_token(tokens);
    if ends_at_once(context, tokens) {
        return Ok(Part {
            tree: ExternalPart {
                tree: External::Empty,
                types: Vec::new(context.alloc),
            },
            depth: 0,
            rest,
        });
    }
    let specifiers = read_specifiers(context, tokens, true, depth)?;
    let head = Head {
        depth: specifiers.depth,
        place: first.place,
        specifiers: specifiers.tree,
    };
    read_external_items(context, specifiers.rest, head, depth)
}
