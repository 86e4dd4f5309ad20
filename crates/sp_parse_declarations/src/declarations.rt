//! The readers of declarations and their declarators with initialisers (C90 6.5).
ghost use Rattle.std.specs.Prelude.{◌≡◌, ◌≤◌, ◌++◌, [], map, option_map, OnOk};
ghost use Rattle.sp_parse_grammar.specs.CTable as grammar;
ghost use Rattle.sp_parse_trees.specs.Syntax.{declaration};
ghost use Rattle.sp_parse_trees.specs.View.{declarator_of, declaration_of, specifiers_of, init_declarators};
ghost use Rattle.sp_parse_trees.specs.Depth.{items_depth};
ghost use Rattle.sp_parse_tokens.specs.Codes.{sort_seen};
ghost use Rattle.sp_parse_tokens.specs.Ended.{IsEnded};
ghost use Rattle.sp_parse_tokens.specs.Makers.{all_items};
ghost use Rattle.sp_parse_tokens.specs.Scopes.{context_of};
ghost use Rattle.sp_parse_expr_steps.specs.Reading.{Answers};
ghost use Rattle.sp_parse_expr_steps.specs.Declaring.{declared_seen};
ghost use Rattle.sp_parse_declarations.specs.Seen.{init_seen, item_part, items_part};
ghost use Rattle.sp_parse_declarations.specs.Taking.{Takes};

use crate::initialisers::read_init;
use sp_parse_expr_reader::{read_declarator, read_specifiers};
use sp_parse_expr_steps::closed;
use sp_parse_tokens::{
    AlsoAllowed, Context, DeclaratorKind, Declared, Mark, Part, ReadError, Sort, SpecifierList,
    begins_specifiers, expect, fault, is_mark, next_token, sort_at,
};
use sp_parse_trees::{Declaration, Init, InitDeclarator};
use sp_tree::{Place, Token};
use std::alloc::AllocError;

/// A declarator with its initialiser, the number of the name that it declares, and what might also
/// be after it.
#[derive(Drop)]
pub struct Item {
    pub tree: InitDeclarator,
    pub declares: Option<u32>,
    pub behind: AlsoAllowed,
}

/// Declarators with their initialisers, the names that they declare, and what might also be after
/// them.
#[derive(Drop)]
pub struct ItemList {
    pub all: Vec<InitDeclarator>,
    pub names: Vec<u32>,
    pub behind: AlsoAllowed,
}

/// Whether the token begins a list of declarators.
fn begins_items(sort: Sort) -> bool
    ensures { result ≡ grammar.begins_items (sort_seen sort) }
{
    matches!(
        sort,
        Sort::Name(_) | Sort::Mark(Mark::Star | Mark::OpenParen)
    )
}

/// A declarator of a name, in whatever depth there is.
pub fn read_named<'a>(
    context: Context<'_>,
    tokens: &'a [Token],
    depth: u32,
) -> Result<Part<'a, Declared>, ReadError<'a>>
    requires { IsEnded tokens.now }
    ensures { Answers (context_of context.entry) (grammar.declarator grammar.concrete) depth tokens.now
        (λ d. declared_seen d (declarator_of d.tree)) result }
{
    if depth > 0 {
        return read_declarator(context, tokens, DeclaratorKind::Concrete, depth);
    }
    let (token, _) = next_token(tokens);
    if begins_items(sort_at(context.types, token.kind)) {
        Err(ReadError::TooDeep(tokens))
    } else {
        Err(fault(context, AlsoAllowed::Name, tokens))
    }
}

/// The initialiser of a declarator, where a `=` begins one.
pub fn read_initial<'a>(
    context: Context<'_>,
    tokens: &'a [Token],
    depth: u32,
) -> Result<Part<'a, Option<Init>>, ReadError<'a>>
    requires { IsEnded tokens.now }
    ensures { Answers (context_of context.entry) grammar.initial depth tokens.now
        (option_map init_seen) result }
{
    let (token, rest) = next_token(tokens);
    if !is_mark(Mark::Equal, sort_at(context.types, token.kind)) {
        return Ok(Part {
            tree: None,
            depth: 0,
            rest: tokens,
        });
    }
    if depth < 2 {
        return Err(ReadError::TooDeep(tokens));
    }
    let start = read_init(context, rest, depth)?;
    Ok(Part {
        tree: Some(start.tree),
        depth: start.depth,
        rest: start.rest,
    })
}

/// The declarator with the initialiser that was read after it.
pub fn first_item(declared: Declared, start: Option<Init>) -> Item
    ensures { item_part result ≡ grammar.one_item (declared_seen declared (declarator_of declared.tree))
        (option_map init_seen start) }
{
    let behind = match start {
        Some(_) => AlsoAllowed::Nothing,
        None => closed(declared.behind),
    };
    let declarator = declared.tree;
    Item {
        tree: InitDeclarator { declarator, start },
        declares: declared.declares,
        behind,
    }
}

/// A declarator, with its initialiser where one is given.
fn read_item<'a>(
    context: Context<'_>,
    tokens: &'a [Token],
    depth: u32,
) -> Result<Part<'a, Item>, ReadError<'a>>
    requires { IsEnded tokens.now }
    ensures { Answers (context_of context.entry) grammar.item depth tokens.now item_part result }
{
    let declared = read_named(context, tokens, depth)?;
    let start = read_initial(context, declared.rest, depth)?;
    Ok(Part {
        tree: first_item(declared.tree, start.tree),
        depth: declared.depth.max(start.depth),
        rest: start.rest,
    })
}

/// The name, where there is one, as a list.
fn add_name(names: &mut Vec<u32>, name: Option<u32>) -> Result<(), AllocError>
    ensures ok { OnOk result (names.new.items ≡ names.old.items ++ grammar.with_name name []) }
{
    if let Some(number) = name {
        names.push(number)?;
    }
    Ok(())
}

/// The declarators after the first, whose depth is given.
pub fn read_more_items<'a>(
    context: Context<'_>,
    tokens: &'a [Token],
    first: Item,
    inner: u32,
    depth: u32,
) -> Result<Part<'a, ItemList>, ReadError<'a>>
    requires ended { IsEnded tokens.now }
    requires deep { inner ≡ items_depth (all_items (item_part first).all) }
    requires shallow { inner ≤ depth }
    ensures { Answers (context_of context.entry) (grammar.more_items (item_part first)) depth tokens.now
        items_part result }
{
    // Most declarations have one declarator; a list that grew has room for more.
    let mut all = Vec::with_capacity(context.alloc, 1)?;
    let mut names = Vec::new(context.alloc);
    let mut behind = first.behind;
    add_name(&mut names, first.declares)?;
    all.push(first.tree)?;
    let mut reached = inner;
    let mut rest = tokens;
    'items: loop {
        let (comma, more) = next_token(rest);
        if !is_mark(Mark::Comma, sort_at(context.types, comma.kind)) {
            break;
        }
        let next = read_item(context, more, depth)?;
        behind = next.tree.behind;
        reached = reached.max(next.depth);
        rest = next.rest;
        add_name(&mut names, next.tree.declares)?;
        all.push(next.tree.tree)?;
    }
    all.shrink_to_fit();
    Ok(Part {
        tree: ItemList { all, names, behind },
        depth: reached,
        rest,
    })
}

/// A list of declarators, none or more. The depth of none is 0.
fn read_items<'a>(
    context: Context<'_>,
    tokens: &'a [Token],
    depth: u32,
) -> Result<Part<'a, ItemList>, ReadError<'a>>
    requires { IsEnded tokens.now }
    ensures { Answers (context_of context.entry) grammar.items depth tokens.now items_part result }
{
    let (token, _) = next_token(tokens);
    if !begins_items(sort_at(context.types, token.kind)) {
        return Ok(Part {
            tree: ItemList {
                all: Vec::new(context.alloc),
                names: Vec::new(context.alloc),
                behind: AlsoAllowed::Name,
            },
            depth: 0,
            rest: tokens,
        });
    }
    let first = read_item(context, tokens, depth)?;
    read_more_items(context, first.rest, first.tree, first.depth, depth)
}

/// The declaration of these specifiers and declarators.
pub fn declared(specifiers: SpecifierList, items: ItemList, place: Place) -> Declaration
    ensures { declaration_of result ≡ declaration (specifiers_of specifiers.all.items)
        (init_declarators (items_part items).all) place }
{
    Declaration {
        specifiers: specifiers.all,
        items: items.all,
        place,
    }
}

/// A declaration.
fn read_declaration<'a>(
    context: Context<'_>,
    tokens: &'a [Token],
    depth: u32,
) -> Result<Part<'a, Declaration>, ReadError<'a>>
    requires { IsEnded tokens.now }
    ensures { Takes (context_of context.entry) grammar.declaration depth tokens.now declaration_of result }
{
    let place = next_token(tokens).0.place;
    let specifiers = read_specifiers(context, tokens, true, depth)?;
    let items = read_items(context, specifiers.rest, depth)?;
    let rest = expect(context, items.tree.behind, Mark::Semicolon, items.rest)?;
    Ok(Part {
        depth: specifiers.depth.max(items.depth),
        tree: declared(specifiers.tree, items.tree, place),
        rest,
    })
}

/// The declarations at the head of a block. The depth of none is 0.
pub fn read_declarations<'a>(
    context: Context<'_>,
    tokens: &'a [Token],
    depth: u32,
) -> Result<Part<'a, Vec<Declaration>>, ReadError<'a>>
    requires { IsEnded tokens.now }
    ensures { Answers (context_of context.entry) (grammar.declarations []) depth tokens.now
        (λ all. map declaration_of all.items) result }
{
    let mut all = Vec::new(context.alloc);
    let mut reached: u32 = 0;
    let mut rest = tokens;
    'declarations: loop {
        let (token, _) = next_token(rest);
        let sort = sort_at(context.types, token.kind);
        if !begins_specifiers(true, context.scope.in_function, sort) {
            break;
        }
        let next = read_declaration(context, rest, depth)?;
        all.push(next.tree)?;
        reached = reached.max(next.depth);
        rest = next.rest;
    }
    all.shrink_to_fit();
    Ok(Part {
        tree: all,
        depth: reached,
        rest,
    })
}
