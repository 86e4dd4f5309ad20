//! The closings of declarators (C90 6.5.4).
ghost use Rattle.std.specs.Prelude.{◌≡◌, ◌-◌, ◌≤◌, ◌<◌, ◌∷◌, ◌&&◌, not, MatchResult, option_map, true, false};
ghost use Rattle.sp_parse_grammar.specs.CTokens.{view, is_mark as stands_mark};
ghost use Rattle.sp_parse_grammar.specs.CTokens as sorts_there;
ghost use Rattle.sp_parse_grammar.specs.CTable as grammar;
ghost use Rattle.sp_parse_trees.specs.Syntax as syntax;
ghost use Rattle.sp_parse_trees.specs.View.{declarator_of, tree_of, type_name_of};
ghost use Rattle.sp_parse_trees.specs.Depth.{declarator_depth};
ghost use Rattle.sp_parse_tokens.specs.Sorts.{terminal, sort_of};
ghost use Rattle.sp_parse_tokens.specs.Makers.{settle};
ghost use Rattle.sp_parse_tokens.specs.Ended.{IsEnded};
ghost use Rattle.sp_parse_tokens.specs.Scopes.{context_of};
ghost use Rattle.sp_parse_expr_steps.specs.Reading.{Answers, IsStop, IsTypeName, operand_seen, first_sort};
ghost use Rattle.sp_parse_expr_steps.specs.Declaring.{AreGiven, AreQualifiers, AreSpecified, IsArrayed, IsArrayStop, IsDeclared, IsGiven, IsLengthened, IsPointed, IsPointedStop, declared_seen, form_seen};

use sp_base_kept::keeping;
use sp_parse_expr_steps::{absent, array_of, function_of, grouped, length_allowed, pointed};
use sp_parse_tokens::{
    Context, DeclaratorKind, Declared, Mark, Operand, ParameterPart, Parameters, Part, ReadError,
    SpecifierList, TypeNamePart, expect,
};
use sp_parse_trees::{Expr, Param, TypeName};
use sp_tree::{Keyword, Token};

/// The length of an array.
pub fn given_length<'a>(
    context: Context<'_>,
    tokens: &'a [Token],
    depth: u32,
    length: Result<Part<'a, Operand>, ReadError<'a>>,
) -> Result<Part<'a, Option<Expr>>, ReadError<'a>>
    requires ended { IsEnded tokens.now }
    requires begun { grammar.begins_expression (first_sort context.types.now tokens.now) ≡ true }
    requires read { Answers (context_of context) (grammar.level 11) depth tokens.now operand_seen length }
    ensures { Answers (context_of context.entry) grammar.array_length depth tokens.now
        (λ length. option_map tree_of length) result }
{
    let length = length?;
    Ok(Part {
        tree: Some(length.tree.tree),
        depth: length.depth,
        rest: length.rest,
    })
}

/// The array of a head, behind its `[`, with this length or none.
pub fn arrayed<'a>(
    context: Context<'_>,
    tokens: &'a [Token],
    head: Declared,
    reached: u32,
    depth: u32,
    length: Result<Part<'a, Option<Expr>>, ReadError<'a>>,
) -> Result<Part<'a, Declared>, ReadError<'a>>
    requires deep { reached ≡ declarator_depth (declarator_of head.tree) }
    requires shallow { reached < depth }
    requires read { Answers (context_of context) grammar.array_length (depth - 1) tokens.now
        (λ length. option_map tree_of length) length }
    ensures { MatchResult result
        (λ part. IsArrayed (context_of context.entry) head depth tokens.now part.tree part.depth
        part.rest.now)
        (IsArrayStop (context_of context.entry) context.entry.scope depth tokens.now) }
{
    let (length, head) = keeping(length, head)?;
    let also_allowed = length_allowed(&length.tree);
    let next = expect(context, also_allowed, Mark::CloseBracket, length.rest);
    let (rest, (head, many)) = keeping(next, (head, length.tree))?;
    Ok(Part {
        tree: array_of(context.alloc, head, many)?,
        depth: 1 + reached.max(length.depth),
        rest,
    })
}

/// The function of a head, behind its `(`, and its parameters.
pub fn parametered<'a>(
    context: Context<'_>,
    tokens: &'a [Token],
    opening: Token,
    head: Declared,
    reached: u32,
    depth: u32,
    parameters: Result<Part<'a, Parameters>, ReadError<'a>>,
) -> Result<Part<'a, Declared>, ReadError<'a>>
    requires opening { stands_mark sorts_there.opening (view context.types.now (sort_of opening.kind)) ≡ true }
    requires deep { reached ≡ declarator_depth (declarator_of head.tree) }
    requires shallow { reached < depth }
    requires read { MatchResult parameters
        (λ part. AreGiven (context_of context) (depth - 1) tokens.now part.tree part.depth
        part.rest.now)
        (IsStop (context_of context) grammar.parameters (depth - 1) tokens.now) }
    ensures { (pending : syntax.Declarator) → declarator_of head.tree ≡ settle opening.place pending →
        MatchResult result
        (λ part. IsLengthened (context_of context.entry) (declared_seen head pending) depth
        (opening ∷ tokens.now) part.tree part.depth part.rest.now)
        (IsStop (context_of context.entry) (grammar.declarator_suffixes
        (declared_seen head pending)) depth (opening ∷ tokens.now)) }
{
    let (parameters, head) = keeping(parameters, head)?;
    let also_allowed = parameters.tree.behind;
    let next = expect(context, also_allowed, Mark::CloseParen, parameters.rest);
    let (rest, (head, given)) = keeping(next, (head, parameters.tree))?;
    Ok(Part {
        tree: function_of(context.alloc, head, given)?,
        depth: 1 + reached.max(parameters.depth),
        rest,
    })
}

/// The function of an absent declarator, behind its `(`, and its parameters.
pub fn absent_function<'a>(
    context: Context<'_>,
    tokens: &'a [Token],
    opening: Token,
    form: DeclaratorKind,
    depth: u32,
    parameters: Result<Part<'a, Parameters>, ReadError<'a>>,
) -> Result<Part<'a, Declared>, ReadError<'a>>
    requires ended { IsEnded tokens.now }
    requires room { 2 ≤ depth }
    requires begun { (not (grammar.is_concrete (form_seen form)) && grammar.is_parameters
        (first_sort context.types.now tokens.now)) ≡ true }
    requires read { MatchResult parameters
        (λ part. AreGiven (context_of context) (depth - 1) tokens.now part.tree part.depth
        part.rest.now)
        (IsStop (context_of context) grammar.parameters (depth - 1) tokens.now) }
    ensures { MatchResult result
        (λ part. IsDeclared (context_of context.entry)
        (grammar.behind_group (form_seen form) (terminal opening)) (λ a. a) depth
        tokens.now
        part.tree part.depth part.rest.now)
        (IsStop (context_of context.entry) (grammar.behind_group (form_seen form)
        (terminal opening)) depth tokens.now) }
{
    let head = absent(form, opening.place);
    let (parameters, head) = keeping(parameters, head)?;
    let also_allowed = parameters.tree.behind;
    let next = expect(context, also_allowed, Mark::CloseParen, parameters.rest);
    let (rest, (head, given)) = keeping(next, (head, parameters.tree))?;
    Ok(Part {
        tree: function_of(context.alloc, head, given)?,
        depth: 1 + parameters.depth.max(1),
        rest,
    })
}

/// A declarator in parentheses, behind the `(`.
pub fn enclosed<'a>(
    context: Context<'_>,
    tokens: &'a [Token],
    opening: Token,
    form: DeclaratorKind,
    depth: u32,
    inner: Result<Part<'a, Declared>, ReadError<'a>>,
) -> Result<Part<'a, Declared>, ReadError<'a>>
    requires ended { IsEnded tokens.now }
    requires room { 2 ≤ depth }
    requires begun { (not (grammar.is_concrete (form_seen form)) && grammar.is_parameters
        (first_sort context.types.now tokens.now)) ≡ false }
    requires read { MatchResult inner
        (λ part. IsDeclared (context_of context) (grammar.group (form_seen form)) (λ a. a)
        (depth - 1) tokens.now part.tree part.depth part.rest.now)
        (IsStop (context_of context) (grammar.group (form_seen form)) (depth - 1) tokens.now) }
    ensures { MatchResult result
        (λ part. IsDeclared (context_of context.entry)
        (grammar.behind_group (form_seen form) (terminal opening)) (λ a. a) depth
        tokens.now
        part.tree part.depth part.rest.now)
        (IsStop (context_of context.entry) (grammar.behind_group (form_seen form)
        (terminal opening)) depth tokens.now) }
{
    let inner = inner?;
    let next = expect(context, inner.tree.behind, Mark::CloseParen, inner.rest);
    let depth = 1 + inner.depth;
    let (rest, declared) = keeping(next, inner.tree)?;
    let tree = grouped(context.alloc, opening.place, declared)?;
    Ok(Part { tree, depth, rest })
}

/// A type name, of which the specifiers are read.
pub fn type_named<'a>(
    context: Context<'_>,
    tokens: &'a [Token],
    specifiers: Part<'a, SpecifierList>,
    depth: u32,
    declared: Result<Part<'a, Declared>, ReadError<'a>>,
) -> Result<Part<'a, TypeNamePart>, ReadError<'a>>
    requires ended { IsEnded tokens.now }
    requires specified { AreSpecified (context_of context) false depth tokens.now specifiers.tree
        specifiers.depth specifiers.rest.now }
    requires read { MatchResult declared
        (λ part. IsDeclared (context_of context) (grammar.declarator grammar.abstract) (λ a. a)
        depth specifiers.rest.now part.tree part.depth part.rest.now)
        (IsStop (context_of context) (grammar.declarator grammar.abstract) depth
        specifiers.rest.now) }
    ensures { MatchResult result
        (λ part. IsTypeName (context_of context.entry) depth tokens.now
        (type_name_of part.tree.tree) part.tree.behind part.depth part.rest.now)
        (IsStop (context_of context.entry) grammar.type_name depth tokens.now) }
{
    let (part, all) = keeping(declared, specifiers.tree.all)?;
    let Part {
        tree: declared,
        depth: reached,
        rest,
    } = part;
    Ok(Part {
        tree: TypeNamePart {
            tree: TypeName {
                specifiers: all,
                declarator: declared.tree,
            },
            behind: declared.behind,
        },
        depth: specifiers.depth.max(reached),
        rest,
    })
}

/// A parameter, of which the specifiers are read.
pub fn parameter_named<'a>(
    context: Context<'_>,
    tokens: &'a [Token],
    specifiers: Part<'a, SpecifierList>,
    depth: u32,
    declared: Result<Part<'a, Declared>, ReadError<'a>>,
) -> Result<Part<'a, ParameterPart>, ReadError<'a>>
    requires ended { IsEnded tokens.now }
    requires specified { AreSpecified (context_of context) true depth tokens.now specifiers.tree
        specifiers.depth specifiers.rest.now }
    requires read { MatchResult declared
        (λ part. IsDeclared (context_of context) (grammar.declarator grammar.either) (λ a. a)
        depth specifiers.rest.now part.tree part.depth part.rest.now)
        (IsStop (context_of context) (grammar.declarator grammar.either) depth
        specifiers.rest.now) }
    ensures { MatchResult result
        (λ part. IsGiven (context_of context.entry) depth tokens.now part.tree.tree
        part.tree.behind part.depth part.rest.now)
        (IsStop (context_of context.entry) grammar.parameter depth tokens.now) }
{
    let (part, all) = keeping(declared, specifiers.tree.all)?;
    let Part {
        tree: declared,
        depth: reached,
        rest,
    } = part;
    Ok(Part {
        tree: ParameterPart {
            tree: Param {
                specifiers: all,
                declarator: declared.tree,
            },
            behind: declared.behind,
        },
        depth: specifiers.depth.max(reached),
        rest,
    })
}

/// The pointer to a declarator, behind its `*`, of which the qualifiers are read.
pub fn pointing<'a>(
    context: Context<'_>,
    tokens: &'a [Token],
    star: Token,
    qualifiers: Vec<Keyword>,
    behind: &'a [Token],
    form: DeclaratorKind,
    depth: u32,
    inner: Result<Part<'a, Declared>, ReadError<'a>>,
) -> Result<Part<'a, Declared>, ReadError<'a>>
    requires room { 2 ≤ depth }
    requires qualified { AreQualifiers (context_of context) tokens.now qualifiers.items behind.now }
    requires read { MatchResult inner
        (λ part. IsDeclared (context_of context) (grammar.declarator (form_seen form)) (λ a. a)
        (depth - 1) behind.now part.tree part.depth part.rest.now)
        (IsStop (context_of context) (grammar.declarator (form_seen form)) (depth - 1)
        behind.now) }
    ensures { MatchResult result
        (λ part. IsPointed (context_of context.entry) star (form_seen form) depth tokens.now
        part.tree part.depth part.rest.now)
        (IsPointedStop (context_of context.entry) (form_seen form) depth tokens.now) }
{
    let (inner, qualifiers) = keeping(inner, qualifiers)?;
    let Part {
        tree,
        depth: reached,
        rest,
    } = inner;
    Ok(Part {
        tree: pointed(context.alloc, star.place, qualifiers, tree)?,
        depth: 1 + reached,
        rest,
    })
}
