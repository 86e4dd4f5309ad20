//! Rows on the parsers of expressions, type names, specifiers and declarators.
//!
//! `AT`, `DEPTH`, `TEXT`: the answer from the token of the number AT on, where trees may be so deep
//! and names that begin with a `T` are type names: the number of the next token; or the fault and
//! the number of the token at its place. `mark` tells the number of the token that an expression's
//! place is, too.
use sp_expr_parser::{
    ParseError, TypeNames, is_ended, parse_declarator, parse_expression, parse_specifiers,
    parse_type_name,
};
use sp_lexer::{ScanError, scan};
use sp_run_faults::code;
use sp_tree::{Fault, Kind, Names, Place, Token};
use std::alloc::{AllocError, Global};

/// The longest text of a row.
const MAX_TEXT: usize = 65_536;

/// What is asked of a text.
#[derive(Drop)]
struct Asked<'a> {
    call: &'a str,
    at: usize,
    depth: u32,
}

/// The number of the token at this place.
fn number_at(tokens: &[Token], place: Place) -> usize {
    tokens
        .iter()
        .position(|token| token.place == place)
        .unwrap_or(tokens.len())
}

fn refused(alloc: Global, tokens: &[Token], error: ParseError) -> Result<String, AllocError> {
    match error {
        ParseError::Fault(Fault { kind, place }) => {
            format!(in alloc; "{} at {}", code(kind), number_at(tokens, place))
        }
        ParseError::NoMemory => String::from_str(alloc, "out of memory"),
    }
}

fn expression_read(
    alloc: Global,
    tokens: &[Token],
    types: &TypeNames,
    asked: &Asked<'_>,
) -> Result<String, AllocError> {
    let mut out = String::new(alloc);
    if !is_ended(tokens) || asked.at >= tokens.len() {
        return String::from_str(alloc, "no such token");
    }
    match parse_expression(alloc, tokens, asked.at, types, asked.depth.min(200)) {
        Ok((tree, next)) if asked.call == "mark" => {
            write!(out, "{} next {next}", number_at(tokens, tree.mark))?;
        }
        Ok((_tree, next)) => write!(out, "next {next}")?,
        Err(error) => return refused(alloc, tokens, error),
    }
    Ok(out)
}

fn type_name_read(
    alloc: Global,
    tokens: &[Token],
    types: &TypeNames,
    asked: &Asked<'_>,
) -> Result<String, AllocError> {
    let mut out = String::new(alloc);
    if !is_ended(tokens) || asked.at >= tokens.len() {
        return String::from_str(alloc, "no such token");
    }
    match parse_type_name(alloc, tokens, asked.at, types, asked.depth.min(200)) {
        Ok((_tree, next)) => write!(out, "next {next}")?,
        Err(error) => return refused(alloc, tokens, error),
    }
    Ok(out)
}

fn specifiers_read(
    alloc: Global,
    tokens: &[Token],
    types: &TypeNames,
    asked: &Asked<'_>,
) -> Result<String, AllocError> {
    let mut out = String::new(alloc);
    if !is_ended(tokens) || asked.at >= tokens.len() {
        return String::from_str(alloc, "no such token");
    }
    match parse_specifiers(alloc, tokens, asked.at, types, asked.depth.min(200)) {
        Ok((_all, next)) => write!(out, "next {next}")?,
        Err(error) => return refused(alloc, tokens, error),
    }
    Ok(out)
}

fn declarator_read(
    alloc: Global,
    tokens: &[Token],
    types: &TypeNames,
    asked: &Asked<'_>,
) -> Result<String, AllocError> {
    let mut out = String::new(alloc);
    if !is_ended(tokens) || asked.at >= tokens.len() {
        return String::from_str(alloc, "no such token");
    }
    match parse_declarator(alloc, tokens, asked.at, types, asked.depth.min(200)) {
        Ok((_tree, next)) => write!(out, "next {next}")?,
        Err(error) => return refused(alloc, tokens, error),
    }
    Ok(out)
}

/// The names that begin with a `T`.
fn types_among(alloc: Global, names: &Names) -> Result<TypeNames, AllocError> {
    let mut types = TypeNames::new(alloc);
    for number in (0..u32::MAX).take(names.len()) {
        if names
            .get(number)
            .unwrap_or(b"".as_slice())
            .starts_with(b"T")
        {
            types.add(number)?;
        }
    }
    Ok(types)
}

/// The answer of the call to a row.
pub fn parsed(alloc: Global, call: &str, given: &str) -> Result<String, AllocError> {
    let (at, more) = given.split_once('\t').unwrap_or(("", ""));
    let (depth, text) = more.split_once('\t').unwrap_or(("", ""));
    let mut names = Names::new(alloc);
    let name = names.add(b"a.c".as_slice())?;
    if text.len() > MAX_TEXT || names.len() > MAX_TEXT {
        return String::from_str(alloc, "the row is too long");
    }
    let Ok(tokens) = scan(alloc, text.as_bytes(), name, 100_000, &mut names) else {
        return String::from_str(alloc, "not scanned");
    };
    let types = types_among(alloc, &names)?;
    let asked = Asked {
        call,
        at: at.parse::<usize>().unwrap_or(0),
        depth: depth.parse::<u32>().unwrap_or(0),
    };
    match call {
        "type name" => type_name_read(alloc, &tokens, &types, &asked),
        "specifiers" => specifiers_read(alloc, &tokens, &types, &asked),
        "declarator" => declarator_read(alloc, &tokens, &types, &asked),
        _ => expression_read(alloc, &tokens, &types, &asked),
    }
}

/// `ROOM`, `TEXT`: how many tokens the text has where there is room for so many and its end, or its
/// first fault.
pub fn scanned(alloc: Global, given: &str) -> Result<String, AllocError> {
    let (room, text) = given.split_once('\t').unwrap_or(("", ""));
    let mut names = Names::new(alloc);
    let name = names.add(b"a.c".as_slice())?;
    if text.len() > MAX_TEXT || names.len() > MAX_TEXT {
        return String::from_str(alloc, "the row is too long");
    }
    let room = room.parse::<u64>().unwrap_or(0);
    match scan(alloc, text.as_bytes(), name, room, &mut names) {
        Ok(tokens) => format!(in alloc; "{} tokens", tokens.len()),
        Err(ScanError::Fault(Fault { kind, place })) => {
            format!(in alloc; "{} {}:{}", code(kind), place.line, place.column)
        }
        Err(ScanError::NoMemory) => String::from_str(alloc, "out of memory"),
    }
}

/// `WORDS` of `end` and others: whether tokens of these kinds end as the parsers want them.
pub fn ended(alloc: Global, given: &str) -> Result<String, AllocError> {
    let place = Place {
        name: 0,
        line: 1,
        column: 1,
    };
    let mut tokens = Vec::new(alloc);
    for word in given.split(' ') {
        match word {
            "" => {}
            "end" => tokens.push(Token {
                kind: Kind::End,
                place,
            })?,
            _ => tokens.push(Token {
                kind: Kind::Name(1),
                place,
            })?,
        }
    }
    String::from_str(alloc, if is_ended(&tokens) { "yes" } else { "no" })
}

/// `NUMBERS`, `NUMBERS`: whether the second are type names once the first were added.
pub fn types(alloc: Global, given: &str) -> Result<String, AllocError> {
    let (added, asked) = given.split_once('\t').unwrap_or(("", ""));
    let mut types = TypeNames::new(alloc);
    for word in added.split(' ') {
        if let Ok(number) = word.parse::<u32>() {
            types.add(number)?;
        }
    }
    let mut out = String::new(alloc);
    for word in asked.split(' ') {
        let holds = types.holds(word.parse::<u32>().unwrap_or(0));
        out.push_str(if holds { "yes " } else { "no " })?;
    }
    Ok(out)
}
