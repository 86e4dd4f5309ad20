//! How statements begin (C90 6.6).
ghost use Rattle.std.specs.Prelude.{◌≡◌, ◌<◌, ◌||◌};
ghost use Rattle.sp_parse_grammar.specs.CTable as grammar;
ghost use Rattle.sp_parse_grammar.specs.CTable.{begins_expression as begins_value};
ghost use Rattle.sp_parse_tokens.specs.Codes.{mark_seen, sort_seen};
ghost use Rattle.sp_parse_tokens.specs.Ended.{IsEnded};
ghost use Rattle.sp_parse_tokens.specs.Scopes.{context_of};
ghost use Rattle.sp_parse_expr_steps.specs.Reading.{IsStop};
ghost use Rattle.sp_parse_statements.specs.Heads.{head_of, head_of_mark, is_labelled, least_of, takes_first};

use sp_parse_expr_reader::read_level;
use sp_parse_expr_steps::COMMA;
use sp_parse_tokens::{
    Context, Mark, ReadError, Sort, TypeNames, begins_expression, is_mark, next_token, sort_at,
};
use sp_tree::Token;

/// How a statement begins.
#[derive(Clone, Copy)]
pub(crate) enum Head {
    /// `{`
    Block,
    If,
    Do,
    Prefix(PrefixKind),
    Simple(SimpleKind),
}

/// What stands before a body with which the statement ends.
#[derive(Clone, Copy)]
pub(crate) enum PrefixKind {
    /// A name and `:`.
    Label,
    Case,
    Default,
    Switch,
    While,
    For,
}

/// A statement without a statement inside.
#[derive(Clone, Copy)]
pub(crate) enum SimpleKind {
    /// `;`
    Empty,
    /// An expression that begins with a name.
    Named,
    /// Any other expression.
    Expression,
    Goto,
    /// `continue` or `break`.
    Jump,
    Return,
}

/// Whether `:` is the first token.
fn is_labelled(types: &TypeNames, tokens: &[Token]) -> bool
    ensures { result ≡ is_labelled types.now tokens.now }
{
    match tokens {
        [first, ..] => is_mark(Mark::Colon, sort_at(types, first.kind)),
        [] => false,
    }
}

/// How a statement begins whose first token is this mark.
fn head_of_mark(mark: Mark) -> Head
    ensures { result ≡ head_of_mark (mark_seen mark) }
{
    match mark {
        Mark::OpenBrace => Head::Block,
        Mark::If => Head::If,
        Mark::Do => Head::Do,
        Mark::Case => Head::Prefix(PrefixKind::Case),
        Mark::Default => Head::Prefix(PrefixKind::Default),
        Mark::Switch => Head::Prefix(PrefixKind::Switch),
        Mark::While => Head::Prefix(PrefixKind::While),
        Mark::For => Head::Prefix(PrefixKind::For),
        Mark::Semicolon => Head::Simple(SimpleKind::Empty),
        Mark::Goto => Head::Simple(SimpleKind::Goto),
        Mark::Continue | Mark::Break => Head::Simple(SimpleKind::Jump),
        Mark::Return => Head::Simple(SimpleKind::Return),
        _ => Head::Simple(SimpleKind::Expression),
    }
}

/// How a statement begins. What begins none begins an expression, and fails there.
pub(crate) fn head_of(types: &TypeNames, tokens: &[Token]) -> Head
    requires { IsEnded tokens.now }
    ensures { result ≡ head_of types.now tokens.now }
{
    let (first, rest) = next_token(tokens);
    match sort_at(types, first.kind) {
        Sort::Name(_) => {
            if is_labelled(types, rest) {
                Head::Prefix(PrefixKind::Label)
            } else {
                Head::Simple(SimpleKind::Named)
            }
        }
        Sort::Mark(mark) => head_of_mark(mark),
        _ => Head::Simple(SimpleKind::Expression),
    }
}

/// Whether the token begins a statement that is no expression.
fn begins_other(sort: Sort) -> bool
    ensures { result ≡ grammar.begins_other (sort_seen sort) }
{
    matches!(
        sort,
        Sort::Mark(
            Mark::Semicolon
                | Mark::OpenBrace
                | Mark::If
                | Mark::Switch
                | Mark::Case
                | Mark::Default
                | Mark::While
                | Mark::Do
                | Mark::For
                | Mark::Goto
                | Mark::Continue
                | Mark::Break
                | Mark::Return
        )
    )
}

/// Whether the token begins a statement.
pub(crate) fn begins_statement(sort: Sort) -> bool
    ensures { result ≡ (begins_value (sort_seen sort) || grammar.begins_other (sort_seen sort)) }
{
    begins_expression(sort) || begins_other(sort)
}

/// The least depth of a statement that begins so.
pub(crate) fn least_of(head: Head) -> u32
    ensures { result ≡ least_of head }
{
    match head {
        Head::Block
        | Head::Simple(
            SimpleKind::Empty | SimpleKind::Goto | SimpleKind::Jump | SimpleKind::Return,
        ) => 1,
        _ => 2,
    }
}

/// Whether the grammar takes the first token at once: it asks for an expression else.
fn takes_first(head: Head) -> bool
    ensures { result ≡ takes_first head }
{
    !matches!(head, Head::Simple(SimpleKind::Expression))
}

/// Where no statement that begins so is as shallow as allowed.
pub(crate) fn too_deep<'a>(
    context: Context<'_>,
    head: Head,
    tokens: &'a [Token],
    depth: u32,
) -> ReadError<'a>
    requires ended { IsEnded tokens.now }
    requires head { head_of context.types.now tokens.now ≡ head }
    requires shallow { depth < least_of head }
    ensures { IsStop (context_of context.entry) grammar.statement depth tokens.now result }
{
    if takes_first(head) {
        return ReadError::TooDeep(tokens);
    }
    match read_level(context, tokens, COMMA, 0) {
        Ok(_) => unreachable!(),
        Err(stop) => stop,
    }
}
