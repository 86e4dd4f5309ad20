//! Makers and tests of the readers of declarators (C90 6.5.4), and the readers of qualifiers and of
//! heads that hold no other declarator.
ghost use Rattle.std.specs.Prelude.{◌≡◌, ℕ, ◌≤◌, ◌&&◌, ◌||◌, not, false, MatchResult, IfOk, option_map};
ghost use Rattle.sp_parse_grammar.specs.CTable as grammar;
ghost use Rattle.sp_parse_grammar.specs.CTokens as sorts_there;
ghost use Rattle.sp_parse_grammar.specs.CTokens.{is_mark as stands_mark};
ghost use Rattle.sp_parse_trees.specs.Syntax as syntax;
ghost use Rattle.sp_parse_trees.specs.View.{declarator_of, tree_of, maybe_expression};
ghost use Rattle.sp_parse_trees.specs.Places.{declarator_place};
ghost use Rattle.sp_tree.specs.declared.token.Token.{Token};
ghost use Rattle.sp_parse_tokens.specs.Sorts.{terminal};
ghost use Rattle.sp_parse_tokens.specs.Makers.{settle, make_absent, number_of};
ghost use Rattle.sp_parse_tokens.specs.Ended.{IsEnded};
ghost use Rattle.sp_parse_tokens.specs.Scopes.{context_of, allowed_seen};
ghost use Rattle.sp_parse_tokens.specs.Codes.{sort_seen};
ghost use Rattle.sp_parse_tokens.specs.declared.part.ReadError.TheVariants.{NoMemory};
ghost use Rattle.sp_parse_expr_steps.specs.Reading.{IsStop, first_sort};
ghost use Rattle.sp_parse_expr_steps.specs.Declaring.{IsArray, IsDeclared, form_seen, shape_seen, declared_seen, AreQualifiers, IsFunction, IsGroupFault, begins_array, begins_deeper, begins_part, head_name, qualifier_of};

use sp_parse_tokens::{
    AlsoAllowed, Context, DeclaratorKind, Declared, DeclaredShape, Mark, Parameters, Part,
    ReadError, Sort, fault, is_mark, is_specifier, next_token, sort_at,
};
use sp_parse_trees::{Declarator, Expr};
use sp_tree::{FaultKind, Keyword, Kind, Place, Token};
use std::alloc::{AllocError, Global};

/// What a shape becomes with a suffix: what was made of a name stays.
fn shaped(shape: DeclaredShape, suffix: DeclaredShape) -> DeclaredShape
    ensures { shape_seen result ≡ grammar.shaped (shape_seen shape) (shape_seen suffix) }
{
    match shape {
        DeclaredShape::Bare => suffix,
        DeclaredShape::Variadic => DeclaredShape::Variadic,
        DeclaredShape::Other => DeclaredShape::Other,
    }
}

/// What might stand behind more of a declarator: a body, but for its `...`, or nothing that
/// matters.
pub fn closed(also_allowed: AlsoAllowed) -> AlsoAllowed
    ensures { allowed_seen result ≡ grammar.closed (allowed_seen also_allowed) }
{
    match also_allowed {
        AlsoAllowed::Body => AlsoAllowed::Body,
        _ => AlsoAllowed::Nothing,
    }
}

/// No declarator before a token at this place.
pub fn absent(form: DeclaratorKind, place: Place) -> Declared
    ensures { declared_seen result (declarator_of result.tree) ≡ record
        (grammar.absent_declarator (form_seen form)) { tree = settle place make_absent } }
{
    let behind = match form {
        DeclaratorKind::Either => AlsoAllowed::Name,
        DeclaratorKind::Concrete | DeclaratorKind::Abstract => AlsoAllowed::Nothing,
    };
    Declared {
        tree: Declarator::absent(place),
        declares: None,
        shape: DeclaredShape::Bare,
        behind,
    }
}

/// The declarator that is a name.
pub fn named(name: u32, place: Place) -> Declared
    ensures { (x : Token) → x.place ≡ place → number_of x.kind ≡ name → declared_seen result
        (declarator_of result.tree) ≡ grammar.named_declarator (terminal x) name }
{
    Declared {
        tree: Declarator::name(name, place),
        declares: Some(name),
        shape: DeclaredShape::Bare,
        behind: AlsoAllowed::Nothing,
    }
}

/// The qualifier that the token is.
fn qualifier_of(kind: Kind) -> Option<Keyword>
    ensures { result ≡ qualifier_of kind }
{
    match kind {
        Kind::Word(Keyword::Const) => Some(Keyword::Const),
        Kind::Word(Keyword::Volatile) => Some(Keyword::Volatile),
        _ => None,
    }
}

/// Qualifiers, none or more, and the tokens behind them.
pub fn read_qualifiers<'a>(
    context: Context<'_>,
    tokens: &'a [Token],
) -> Result<(Vec<Keyword>, &'a [Token]), ReadError<'a>>
    requires { IsEnded tokens.now }
    ensures { MatchResult result
        (λ read. AreQualifiers (context_of context.entry) tokens.now read.0.items read.1.now)
        (λ stop. stop ≡ NoMemory) }
{
    let mut all = Vec::new(context.alloc);
    let mut rest = tokens;
    'qualifiers: loop {
        let (token, behind) = next_token(rest);
        let Some(word) = qualifier_of(token.kind) else {
            break;
        };
        all.push(word)?;
        rest = behind;
    }
    Ok((all, rest))
}

/// Whether a name must be declared.
fn is_concrete(form: DeclaratorKind) -> bool
    ensures { result ≡ grammar.is_concrete (form_seen form) }
{
    match form {
        DeclaratorKind::Concrete => true,
        DeclaratorKind::Abstract | DeclaratorKind::Either => false,
    }
}

/// The name that the token is, where a declarator of this form may begin with one.
pub fn head_name(form: DeclaratorKind, sort: Sort) -> Option<u32>
    ensures { result ≡ head_name (form_seen form) (sort_seen sort) }
{
    match (sort, form) {
        (Sort::Name(name), DeclaratorKind::Concrete | DeclaratorKind::Either) => Some(name),
        _ => None,
    }
}

/// Whether the token behind a `(` begins parameters of an absent declarator.
pub fn begins_parameters(form: DeclaratorKind, sort: Sort) -> bool
    ensures { result ≡
        (not (grammar.is_concrete (form_seen form)) && grammar.is_parameters (sort_seen sort)) }
{
    match form {
        DeclaratorKind::Concrete => false,
        DeclaratorKind::Abstract | DeclaratorKind::Either => is_specifier(sort)
            || is_mark(Mark::CloseParen, sort),
    }
}

/// The group of a declarator.
pub fn grouped(alloc: Global, place: Place, inner: Declared) -> Result<Declared, AllocError>
    ensures { IfOk result
        (λ d.
        (declarator_of d.tree ≡ syntax.declarator (syntax.group (declarator_of inner.tree))
        place)
        × (d.declares ≡ inner.declares) × (d.shape ≡ inner.shape) ×
        (allowed_seen d.behind ≡ grammar.closed (allowed_seen inner.behind))) }
{
    let tree = Declarator::paren(alloc, place, inner.tree)?;
    Ok(Declared {
        tree,
        declares: inner.declares,
        shape: inner.shape,
        behind: closed(inner.behind),
    })
}

/// The pointer of a declarator.
pub fn pointed(
    alloc: Global,
    place: Place,
    qualifiers: Vec<Keyword>,
    inner: Declared,
) -> Result<Declared, AllocError>
    ensures { IfOk result
        (λ d.
        (declarator_of d.tree ≡ syntax.declarator
        (syntax.pointer qualifiers.items (declarator_of inner.tree)) place)
        × (d.declares ≡ inner.declares) ×
        (shape_seen d.shape ≡ grammar.shaped (shape_seen inner.shape) grammar.other) ×
        (d.behind ≡ inner.behind)) }
{
    let tree = Declarator::pointer(alloc, place, qualifiers, inner.tree)?;
    Ok(Declared {
        tree,
        declares: inner.declares,
        shape: shaped(inner.shape, DeclaredShape::Other),
        behind: inner.behind,
    })
}

/// The fault where no declarator begins that isn't absent.
pub fn group_fault<'a>(
    context: Context<'_>,
    form: DeclaratorKind,
    tokens: &'a [Token],
) -> ReadError<'a>
    requires { IsEnded tokens.now }
    ensures { IsGroupFault context.entry.types.now context.entry.scope (form_seen form) tokens.now result }
{
    match form {
        DeclaratorKind::Concrete => fault(context, AlsoAllowed::Name, tokens),
        DeclaratorKind::Either => fault(context, AlsoAllowed::Nothing, tokens),
        DeclaratorKind::Abstract => {
            let (token, _) = next_token(tokens);
            match sort_at(context.types, token.kind) {
                Sort::Name(_) => ReadError::Fault(FaultKind::OldStyleParameters, tokens),
                _ => fault(context, AlsoAllowed::Nothing, tokens),
            }
        }
    }
}

/// Whether the token begins an array of an absent declarator.
pub fn begins_array(form: DeclaratorKind, sort: Sort) -> bool
    ensures { result ≡ begins_array (form_seen form) (sort_seen sort) }
{
    match (sort, form) {
        (Sort::Mark(Mark::OpenBracket), DeclaratorKind::Abstract | DeclaratorKind::Either) => true,
        _ => false,
    }
}

/// Whether the token begins a declarator that holds another: a pointer or a group.
pub fn begins_inner(sort: Sort) -> bool
    ensures { result ≡
        (stands_mark sorts_there.star (sort_seen sort) ||
        stands_mark sorts_there.opening (sort_seen sort)) }
{
    is_mark(Mark::Star, sort) || is_mark(Mark::OpenParen, sort)
}

/// Whether the token begins a declarator in parentheses that holds another.
pub fn begins_deeper(form: DeclaratorKind, sort: Sort) -> bool
    ensures { result ≡ begins_deeper (form_seen form) (sort_seen sort) }
{
    match (sort, form) {
        (Sort::Mark(Mark::Star | Mark::OpenParen), _) => true,
        (Sort::Mark(Mark::OpenBracket), DeclaratorKind::Abstract | DeclaratorKind::Either) => true,
        _ => false,
    }
}

/// The function of a declarator and its parameters.
pub fn function_of(
    alloc: Global,
    head: Declared,
    parameters: Parameters,
) -> Result<Declared, AllocError>
    ensures { IfOk result (λ d. IsFunction head parameters d) }
{
    let dots = parameters.dots;
    let tree = Declarator::function(alloc, head.tree, parameters.all, dots)?;
    let (shape, behind) = if dots {
        (DeclaredShape::Variadic, AlsoAllowed::Body)
    } else {
        (DeclaredShape::Other, closed(head.behind))
    };
    Ok(Declared {
        tree,
        declares: head.declares,
        shape: shaped(head.shape, shape),
        behind,
    })
}

/// Whether the token goes on with a declarator.
pub fn begins_part(sort: Sort) -> bool
    ensures { result ≡ begins_part (sort_seen sort) }
{
    matches!(sort, Sort::Mark(Mark::OpenBracket | Mark::OpenParen))
}

/// What might stand behind a length, or where there is none.
pub fn length_allowed(length: &Option<Expr>) -> AlsoAllowed
    ensures { allowed_seen result ≡ grammar.if_missing (option_map tree_of length.now) }
{
    match length {
        Some(_) => AlsoAllowed::Nothing,
        None => AlsoAllowed::Name,
    }
}

/// The array of a declarator, with this length or none.
pub fn array_of(alloc: Global, head: Declared, length: Option<Expr>) -> Result<Declared, AllocError>
    ensures { IfOk result (λ d. IsArray head (option_map tree_of length) d) }
{
    let tree = array_tree(alloc, head.tree, length)?;
    Ok(Declared {
        tree,
        declares: head.declares,
        shape: shaped(head.shape, DeclaredShape::Other),
        behind: closed(head.behind),
    })
}

/// The tree of an array, with this length or none.
fn array_tree(
    alloc: Global,
    inner: Declarator,
    length: Option<Expr>,
) -> Result<Declarator, AllocError>
    ensures { IfOk result
        (λ d. declarator_of d ≡ syntax.declarator
        (syntax.array (declarator_of inner) (maybe_expression (option_map tree_of length)))
        (declarator_place (declarator_of inner))) }
{
    match length {
        Some(length) => Declarator::array(alloc, inner, length),
        None => Declarator::open_array(alloc, inner),
    }
}

/// The head of a declarator that begins with neither `*` nor `(`: a name, or nothing.
pub fn read_head<'a>(
    context: Context<'_>,
    tokens: &'a [Token],
    form: DeclaratorKind,
) -> Result<Part<'a, Declared>, ReadError<'a>>
    requires ended { IsEnded tokens.now }
    requires no_group { stands_mark sorts_there.opening (first_sort context.types.now tokens.now) ≡ false }
    ensures { (depth : ℕ) → 1 ≤ depth → MatchResult result
        (λ part. IsDeclared (context_of context.entry) (grammar.direct (form_seen form))
        (λ a. a) depth tokens.now part.tree part.depth part.rest.now)
        (IsStop (context_of context.entry) (grammar.direct (form_seen form)) depth tokens.now) }
{
    let (token, rest) = next_token(tokens);
    if let Some(name) = head_name(form, sort_at(context.types, token.kind)) {
        return Ok(Part {
            tree: named(name, token.place),
            depth: 1,
            rest,
        });
    }
    if is_concrete(form) {
        return Err(fault(context, AlsoAllowed::Name, tokens));
    }
    Ok(Part {
        tree: absent(form, token.place),
        depth: 1,
        rest: tokens,
    })
}
