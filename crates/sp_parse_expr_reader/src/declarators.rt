//! The readers of declarators, parameters and type names (C90 6.5.4, 6.5.5).
ghost use Rattle.std.specs.Prelude.{◌≡◌, ◌≤◌, ◌<◌, ◌∷◌, MatchResult, option_map, is_some, true};
ghost use Rattle.sp_parse_grammar.specs.CTable as grammar;
ghost use Rattle.sp_parse_trees.specs.Syntax as syntax;
ghost use Rattle.sp_parse_trees.specs.View.{declarator_of, type_name_of, tree_of};
ghost use Rattle.sp_parse_trees.specs.Depth.{declarator_depth};
ghost use Rattle.sp_parse_tokens.specs.Sorts.{terminal, sort_of};
ghost use Rattle.sp_parse_tokens.specs.Makers.{settle, first_place};
ghost use Rattle.sp_parse_tokens.specs.Ended.{IsEnded};
ghost use Rattle.sp_parse_tokens.specs.Scopes.{context_of};
ghost use Rattle.sp_parse_expr_steps.specs.Reading.{Answers, IsStop, IsTypeName};
ghost use Rattle.sp_parse_expr_steps.specs.Declaring.{form_seen, declared_seen, IsDeclared, IsPointed, IsPointedStop, IsLengthened, AreGiven, IsPending, begins_part};
ghost use Rattle.sp_parse_grammar.specs.CTokens.{view};

use crate::expressions::read_level;
use crate::specifiers::read_specifiers;
use sp_base_kept::keeping;
use sp_parse_expr_ends::{
    absent_function, arrayed, enclosed, given_length, parameter_named, parametered, pointing,
    type_named,
};
use sp_parse_expr_lists::{no_parameters, with_parameter};
use sp_parse_expr_steps::{
    CONDITIONAL, absent, begins_array, begins_deeper, begins_inner, begins_parameters, begins_part,
    group_fault, head_name, named, read_head, read_qualifiers,
};
use sp_parse_tokens::{
    Context, DeclaratorKind, Declared, Mark, Parameters, Part, ReadError, TypeNamePart,
    begins_expression, is_mark, next_token, sort_at,
};
use sp_parse_trees::Expr;
use sp_tree::Token;

/// A type name.
#[cycle(reader)]
pub fn read_type_name<'a>(
    context: Context<'_>,
    tokens: &'a [Token],
    depth: u32,
) -> Result<Part<'a, TypeNamePart>, ReadError<'a>>
    requires ended { IsEnded tokens.now }
    requires room { 1 ≤ depth }
    ensures { MatchResult result
        (λ part. IsTypeName (context_of context.entry) depth tokens.now
        (type_name_of part.tree.tree) part.tree.behind part.depth part.rest.now)
        (IsStop (context_of context.entry) grammar.type_name depth tokens.now) }
{
    let specifiers = read_specifiers(context, tokens, false, depth)?;
    let behind = specifiers.rest;
    let declared = read_declarator(context, behind, DeclaratorKind::Abstract, depth);
    type_named(context, tokens, specifiers, depth, declared)
}

/// A declarator.
#[cycle(reader)]
pub fn read_declarator<'a>(
    context: Context<'_>,
    tokens: &'a [Token],
    form: DeclaratorKind,
    depth: u32,
) -> Result<Part<'a, Declared>, ReadError<'a>>
    requires ended { IsEnded tokens.now }
    requires room { 1 ≤ depth }
    ensures { MatchResult result
        (λ part. IsDeclared (context_of context.entry) (grammar.declarator (form_seen form))
        (λ a. a) depth tokens.now part.tree part.depth part.rest.now)
        (IsStop (context_of context.entry) (grammar.declarator (form_seen form)) depth
        tokens.now) }
{
    let (token, behind) = next_token(tokens);
    let sort = sort_at(context.types, token.kind);
    if depth < 2 && begins_inner(sort) {
        return Err(ReadError::TooDeep(tokens));
    }
    if is_mark(Mark::Star, sort) {
        return read_pointer(context, behind, token, form, depth);
    }
    if is_mark(Mark::OpenParen, sort) {
        let head = read_declarator_after_paren(context, behind, token, form, depth)?;
        return read_declarator_suffixes(context, head.rest, head.tree, head.depth, depth);
    }
    let head = read_head(context, tokens, form)?;
    read_declarator_suffixes(context, head.rest, head.tree, head.depth, depth)
}

/// Behind a `*`: qualifiers, and a declarator.
#[cycle(reader)]
fn read_pointer<'a>(
    context: Context<'_>,
    tokens: &'a [Token],
    star: Token,
    form: DeclaratorKind,
    depth: u32,
) -> Result<Part<'a, Declared>, ReadError<'a>>
    requires ended { IsEnded tokens.now }
    requires room { 2 ≤ depth }
    ensures { MatchResult result
        (λ part. IsPointed (context_of context.entry) star (form_seen form) depth tokens.now
        part.tree part.depth part.rest.now)
        (IsPointedStop (context_of context.entry) (form_seen form) depth tokens.now) }
{
    let (qualifiers, behind) = read_qualifiers(context, tokens)?;
    let inner = read_declarator(context, behind, form, depth - 1);
    pointing(
        context, tokens, star, qualifiers, behind, form, depth, inner,
    )
}

/// Behind a `(` in a declarator: parameters and `)` behind an absent declarator, or a declarator
/// that isn't absent and `)`.
#[cycle(reader)]
fn read_declarator_after_paren<'a>(
    context: Context<'_>,
    tokens: &'a [Token],
    opening: Token,
    form: DeclaratorKind,
    depth: u32,
) -> Result<Part<'a, Declared>, ReadError<'a>>
    requires ended { IsEnded tokens.now }
    requires room { 2 ≤ depth }
    ensures { MatchResult result
        (λ part. IsDeclared (context_of context.entry)
        (grammar.behind_group (form_seen form) (terminal opening)) (λ a. a) depth
        tokens.now
        part.tree part.depth part.rest.now)
        (IsStop (context_of context.entry) (grammar.behind_group (form_seen form)
        (terminal opening)) depth tokens.now) }
{
    let (token, _) = next_token(tokens);
    if begins_parameters(form, sort_at(context.types, token.kind)) {
        let parameters = read_parameters(context, tokens, depth - 1);
        return absent_function(context, tokens, opening, form, depth, parameters);
    }
    let inner = read_group(context, tokens, form, depth - 1);
    enclosed(context, tokens, opening, form, depth, inner)
}

/// A declarator that isn't absent.
#[cycle(reader)]
fn read_group<'a>(
    context: Context<'_>,
    tokens: &'a [Token],
    form: DeclaratorKind,
    depth: u32,
) -> Result<Part<'a, Declared>, ReadError<'a>>
    requires ended { IsEnded tokens.now }
    requires room { 1 ≤ depth }
    ensures { MatchResult result
        (λ part. IsDeclared (context_of context.entry) (grammar.group (form_seen form)) (λ a. a)
        depth tokens.now part.tree part.depth part.rest.now)
        (IsStop (context_of context.entry) (grammar.group (form_seen form)) depth tokens.now) }
{
    let (token, behind) = next_token(tokens);
    let sort = sort_at(context.types, token.kind);
    if depth < 2 && begins_deeper(form, sort) {
        return Err(ReadError::TooDeep(tokens));
    }
    if is_mark(Mark::Star, sort) {
        return read_pointer(context, behind, token, form, depth);
    }
    if is_mark(Mark::OpenParen, sort) {
        let head = read_declarator_after_paren(context, behind, token, form, depth)?;
        let reached = head.depth;
        return read_declarator_suffixes(context, head.rest, head.tree, reached, depth);
    }
    if let Some(name) = head_name(form, sort) {
        let head = named(name, token.place);
        return read_declarator_suffixes(context, behind, head, 1, depth);
    }
    if begins_array(form, sort) {
        let head = absent(form, token.place);
        let length = read_length(context, behind, depth - 1);
        let part = arrayed(context, behind, head, 1, depth, length)?;
        let reached = part.depth;
        return read_declarator_suffixes(context, part.rest, part.tree, reached, depth);
    }
    Err(group_fault(context, form, tokens))
}

/// The lengths and parameters behind the head of a declarator, whose depth is given.
#[cycle(reader)]
fn read_declarator_suffixes<'a>(
    context: Context<'_>,
    tokens: &'a [Token],
    head: Declared,
    reached: u32,
    depth: u32,
) -> Result<Part<'a, Declared>, ReadError<'a>>
    requires ended { IsEnded tokens.now }
    requires deep { reached ≡ declarator_depth (declarator_of head.tree) }
    requires shallow { reached ≤ depth }
    requires pending { IsPending head (first_place tokens.now) }
    ensures { (pending : syntax.Declarator) → declarator_of head.tree ≡ settle (first_place tokens.now)
        pending → (is_some head.declares ≡ true → pending ≡ declarator_of head.tree) →
        MatchResult
        result
        (λ part. IsDeclared (context_of context.entry)
        (grammar.declarator_suffixes (declared_seen head pending)) (λ a. a) depth
        tokens.now
        part.tree part.depth part.rest.now)
        (IsStop (context_of context.entry) (grammar.declarator_suffixes
        (declared_seen head pending)) depth tokens.now) }
{
    let mut part = Part {
        tree: head,
        depth: reached,
        rest: tokens,
    };
    'suffixes: loop {
        let (token, behind) = next_token(part.rest);
        if !begins_part(sort_at(context.types, token.kind)) {
            break;
        }
        if part.depth >= depth {
            let rest = part.rest;
            drop(part);
            return Err(ReadError::TooDeep(rest));
        }
        part = read_part(context, behind, token, part.tree, part.depth, depth)?;
    }
    Ok(part)
}

/// A length or parameters behind the head of a declarator, of which the first token is read.
#[cycle(reader)]
fn read_part<'a>(
    context: Context<'_>,
    tokens: &'a [Token],
    opening: Token,
    head: Declared,
    reached: u32,
    depth: u32,
) -> Result<Part<'a, Declared>, ReadError<'a>>
    requires ended { IsEnded tokens.now }
    requires deep { reached ≡ declarator_depth (declarator_of head.tree) }
    requires opening { begins_part (view context.types.now (sort_of opening.kind)) ≡ true }
    requires shallow { reached < depth }
    ensures { (pending : syntax.Declarator) → declarator_of head.tree ≡ settle opening.place pending →
        MatchResult result
        (λ part. IsLengthened (context_of context.entry) (declared_seen head pending) depth
        (opening ∷ tokens.now) part.tree part.depth part.rest.now)
        (IsStop (context_of context.entry) (grammar.declarator_suffixes
        (declared_seen head pending)) depth (opening ∷ tokens.now)) }
{
    if is_mark(Mark::OpenBracket, sort_at(context.types, opening.kind)) {
        let length = read_length(context, tokens, depth - 1);
        return arrayed(context, tokens, head, reached, depth, length);
    }
    let parameters = read_parameters(context, tokens, depth - 1);
    parametered(context, tokens, opening, head, reached, depth, parameters)
}

/// The length of an array, where there is one. The depth of none is 0.
#[cycle(reader)]
fn read_length<'a>(
    context: Context<'_>,
    tokens: &'a [Token],
    depth: u32,
) -> Result<Part<'a, Option<Expr>>, ReadError<'a>>
    requires { IsEnded tokens.now }
    ensures { Answers (context_of context.entry) grammar.array_length depth tokens.now
        (λ length. option_map tree_of length) result }
{
    let (token, _) = next_token(tokens);
    if !begins_expression(sort_at(context.types, token.kind)) {
        return Ok(Part {
            tree: None,
            depth: 0,
            rest: tokens,
        });
    }
    let length = read_level(context, tokens, CONDITIONAL, depth);
    given_length(context, tokens, depth, length)
}

/// Parameters, with `...` behind them or without. The depth of none is 0.
#[cycle(reader)]
fn read_parameters<'a>(
    context: Context<'_>,
    tokens: &'a [Token],
    depth: u32,
) -> Result<Part<'a, Parameters>, ReadError<'a>>
    requires ended { IsEnded tokens.now }
    requires room { 1 ≤ depth }
    ensures { MatchResult result
        (λ part. AreGiven (context_of context.entry) depth tokens.now part.tree part.depth
        part.rest.now)
        (IsStop (context_of context.entry) grammar.parameters depth tokens.now) }
{
    let mut parameters = no_parameters(context, tokens, depth);
    'parameters: while parameters.more {
        let rest = parameters.rest;
        let specifiers = read_specifiers(context, rest, true, depth);
        let (specifiers, read) = keeping(specifiers, parameters)?;
        let behind = specifiers.rest;
        let declared = read_declarator(context, behind, DeclaratorKind::Either, depth);
        let next = parameter_named(context, rest, specifiers, depth, declared);
        parameters = with_parameter(context, tokens, read, depth, next)?;
    }
    Ok(Part {
        tree: parameters.given,
        depth: parameters.depth,
        rest: parameters.rest,
    })
}
