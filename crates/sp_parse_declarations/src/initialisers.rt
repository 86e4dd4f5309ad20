//! The readers of initialisers (C90 6.5.7).
ghost use Rattle.std.specs.Prelude.{◌≡◌, ◌≤◌, ◌||◌, ◌∷◌, [], if◌then◌else◌};
ghost use Rattle.sp_parse_grammar.specs.CTokens.{is_mark as stands_mark};
ghost use Rattle.sp_parse_grammar.specs.CTokens as sorts_there;
ghost use Rattle.sp_parse_grammar.specs.CTable as grammar;
ghost use Rattle.sp_parse_grammar.specs.CTable.{begins_expression as begins_value};
ghost use Rattle.sp_parse_trees.specs.Depth.{init_depth};
ghost use Rattle.sp_parse_tokens.specs.Codes.{sort_seen};
ghost use Rattle.sp_parse_tokens.specs.Ended.{IsEnded};
ghost use Rattle.sp_parse_tokens.specs.Scopes.{context_of, allowed_seen};
ghost use Rattle.sp_parse_expr_steps.specs.Reading.{Answers};
ghost use Rattle.sp_parse_declarations.specs.Seen.{init_seen, inits_seen};
ghost use Rattle.sp_parse_declarations.specs.Taking.{Takes};

use sp_parse_expr_reader::read_level;
use sp_parse_expr_steps::ASSIGNMENT;
use sp_parse_tokens::{
    AlsoAllowed, Context, Mark, Part, ReadError, Sort, begins_expression, expect, is_mark,
    next_token, sort_at,
};
use sp_parse_trees::Init;
use sp_tree::Token;

/// Initialisers between braces, and whether a comma ends them.
#[derive(Drop)]
pub(crate) struct Inits {
    pub(crate) all: Vec<Init>,
    pub(crate) comma: bool,
}

/// An initialiser: an expression, or initialisers in braces.
#[cycle(initialiser)]
pub fn read_init<'a>(
    context: Context<'_>,
    tokens: &'a [Token],
    depth: u32,
) -> Result<Part<'a, Init>, ReadError<'a>>
    requires ended { IsEnded tokens.now }
    requires room { 2 ≤ depth }
    ensures { Takes (context_of context.entry) grammar.init depth tokens.now init_seen result }
{
    let (token, rest) = next_token(tokens);
    if !is_mark(Mark::OpenBrace, sort_at(context.types, token.kind)) {
        let value = read_level(context, tokens, ASSIGNMENT, depth - 1)?;
        return Ok(Part {
            tree: Init::One(value.tree.tree),
            depth: 1 + value.depth,
            rest: value.rest,
        });
    }
    if depth < 3 {
        return Err(ReadError::TooDeep(tokens));
    }
    let first = read_init(context, rest, depth - 1)?;
    let list = read_inits(context, first.rest, first.tree, first.depth, depth - 1)?;
    let also_allowed = allowed_after(list.tree.comma);
    let rest = expect(context, also_allowed, Mark::CloseBrace, list.rest)?;
    Ok(Part {
        tree: Init::List(list.tree.all, list.tree.comma),
        depth: 1 + list.depth,
        rest,
    })
}

/// What might be where initialisers end: a name, where a comma is before it.
fn allowed_after(comma: bool) -> AlsoAllowed
    ensures { allowed_seen result ≡ (if comma then grammar.for_name else grammar.plainly) }
{
    if comma {
        AlsoAllowed::Name
    } else {
        AlsoAllowed::Nothing
    }
}

/// Whether the token begins an initialiser.
fn begins_init(sort: Sort) -> bool
    ensures { result ≡ (stands_mark sorts_there.brace (sort_seen sort) || begins_value (sort_seen sort)) }
{
    is_mark(Mark::OpenBrace, sort) || begins_expression(sort)
}

/// The initialisers between braces after the first, whose depth is given, and the comma after the
/// last where there is one.
#[cycle(initialiser)]
fn read_inits<'a>(
    context: Context<'_>,
    tokens: &'a [Token],
    first: Init,
    inner: u32,
    depth: u32,
) -> Result<Part<'a, Inits>, ReadError<'a>>
    requires ended { IsEnded tokens.now }
    requires room { 2 ≤ depth }
    requires deep { inner ≡ init_depth (init_seen first) }
    requires shallow { inner ≤ depth }
    ensures { Answers (context_of context.entry) (grammar.inits (init_seen first ∷ [])) depth tokens.now
        inits_seen result }
{
    let mut all = Vec::new(context.alloc);
    all.push(first)?;
    let mut reached = inner;
    let mut rest = tokens;
    'inits: loop {
        let (comma, behind) = next_token(rest);
        if !is_mark(Mark::Comma, sort_at(context.types, comma.kind)) {
            break;
        }
        let (token, _) = next_token(behind);
        if !begins_init(sort_at(context.types, token.kind)) {
            let comma = true;
            return Ok(Part {
                tree: Inits { all, comma },
                depth: reached,
                rest: behind,
            });
        }
        let next = read_init(context, behind, depth)?;
        all.push(next.tree)?;
        reached = reached.max(next.depth);
        rest = next.rest;
    }
    let comma = false;
    Ok(Part {
        tree: Inits { all, comma },
        depth: reached,
        rest,
    })
}
