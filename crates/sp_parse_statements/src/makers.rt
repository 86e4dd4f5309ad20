//! The makers of statements. Each answers exactly the tree that it names, or want of memory. There it
//! drops what it was given by a call, since a proof looks at each form of trees that a `?` drops.
ghost use Rattle.std.specs.Prelude.{◌≡◌, IfOk, map, option_map, if◌then◌else◌};
ghost use Rattle.sp_parse_trees.specs.Syntax as syntax;
ghost use Rattle.sp_parse_trees.specs.Syntax.{statement};
ghost use Rattle.sp_parse_trees.specs.View.{tree_of, statement_of, declaration_of, declarations, maybe_expression};
ghost use Rattle.sp_parse_trees.specs.Places.{place_of};
ghost use Rattle.sp_parse_tokens.specs.Makers.{end_of, end_of_branches, all_statements, some_statement, is_break};
ghost use Rattle.sp_parse_statements.specs.Parts.{prefixed};

use crate::prefixes::Prefix;
use sp_parse_trees::{Declaration, Expr, ForClauses, Statement, StatementForm};
use sp_tree::{Keyword, Kind, Place};
use std::alloc::{AllocError, Global};

/// `;`
pub(crate) fn empty(place: Place) -> Statement
    ensures { statement_of result ≡ statement syntax.empty place place }
{
    Statement {
        form: StatementForm::Empty,
        place,
        end: place,
    }
}

/// `value;`
pub(crate) fn expression(value: Expr, end: Place) -> Statement
    ensures { statement_of result ≡ statement (syntax.of (tree_of value)) (place_of (tree_of value)) end }
{
    let place = value.place;
    Statement {
        form: StatementForm::Of(value),
        place,
        end,
    }
}

/// `goto name;`
pub(crate) fn goto(name: u32, place: Place, end: Place) -> Statement
    ensures { statement_of result ≡ statement (syntax.goto_name name) place end }
{
    Statement {
        form: StatementForm::Goto(name),
        place,
        end,
    }
}

/// `break;` or `continue;`, by its first token.
pub(crate) fn jump(kind: Kind, place: Place, end: Place) -> Statement
    ensures { statement_of result ≡ statement
        (if is_break kind then syntax.break_out else syntax.continue_loop) place end }
{
    let form = match kind {
        Kind::Word(Keyword::Break) => StatementForm::Break,
        _ => StatementForm::Continue,
    };
    Statement { form, place, end }
}

/// `return;` or `return value;`
pub(crate) fn return_of(value: Option<Expr>, place: Place, end: Place) -> Statement
    ensures { statement_of result ≡ statement
        (syntax.return_value (maybe_expression (option_map tree_of value))) place end }
{
    Statement {
        form: StatementForm::Return(value),
        place,
        end,
    }
}

/// `{ .. }`, with all declarations and then the statements.
pub(crate) fn block(
    all: Vec<Declaration>,
    statements: Vec<Statement>,
    place: Place,
    end: Place,
) -> Statement
    ensures { statement_of result ≡ statement (syntax.block
        (declarations (map declaration_of all.items))
        (all_statements (map statement_of statements.items))) place end }
{
    Statement {
        form: StatementForm::Block(all, statements),
        place,
        end,
    }
}

/// `start; test; step`, each of the three where it is given.
pub(crate) fn for_clauses(
    alloc: Global,
    start: Option<Expr>,
    test: Option<Expr>,
    step: Option<Expr>,
) -> Result<Box<ForClauses>, AllocError>
    ensures start { IfOk result (λ made. made.value.start ≡ start) }
    ensures test { IfOk result (λ made. made.value.test ≡ test) }
    ensures step { IfOk result (λ made. made.value.step ≡ step) }
{
    let clauses = ForClauses { start, test, step };
    Ok(Box::new(alloc, clauses)?)
}

/// The statement of what was read before its body, and the body.
pub(crate) fn prefixed(
    alloc: Global,
    prefix: Prefix,
    place: Place,
    body: Statement,
) -> Result<Statement, AllocError>
    ensures { IfOk result (λ s. statement_of s ≡ prefixed prefix place (statement_of body)) }
{
    let end = body.end;
    let body = match Box::new(alloc, body) {
        Ok(body) => body,
        Err(failed) => {
            drop(prefix);
            return Err(AllocError::from(failed));
        }
    };
    let form = match prefix {
        Prefix::Label(name) => StatementForm::Label(name, body),
        Prefix::Case(value) => StatementForm::Case(value, body),
        Prefix::Default => StatementForm::Default(body),
        Prefix::Switch(value) => StatementForm::Switch(value, body),
        Prefix::While(value) => StatementForm::While(value, body),
        Prefix::For(clauses) => StatementForm::For(clauses, body),
    };
    Ok(Statement { form, place, end })
}

/// `if (condition) branch` or `if (condition) branch else other`
pub(crate) fn if_else(
    alloc: Global,
    place: Place,
    condition: Expr,
    branch: Statement,
    other: Option<Statement>,
) -> Result<Statement, AllocError>
    ensures { IfOk result (λ s. statement_of s ≡ statement
        (syntax.if_else (tree_of condition) (statement_of branch)
        (some_statement (option_map statement_of other))) place
        (end_of_branches (statement_of branch) (option_map statement_of other))) }
{
    let (other, end) = match other {
        Some(other) => {
            let end = other.end;
            match Box::new(alloc, other) {
                Ok(other) => (Some(other), end),
                Err(failed) => {
                    drop((condition, branch));
                    return Err(AllocError::from(failed));
                }
            }
        }
        None => (None, branch.end),
    };
    let branch = match Box::new(alloc, branch) {
        Ok(branch) => branch,
        Err(failed) => {
            drop((condition, other));
            return Err(AllocError::from(failed));
        }
    };
    Ok(Statement {
        form: StatementForm::If(condition, branch, other),
        place,
        end,
    })
}

/// `do body while (condition);`
pub(crate) fn do_while(
    alloc: Global,
    place: Place,
    body: Statement,
    condition: Expr,
    end: Place,
) -> Result<Statement, AllocError>
    ensures { IfOk result (λ s. statement_of s ≡ statement
        (syntax.do_loop (statement_of body) (tree_of condition)) place end) }
{
    let body = match Box::new(alloc, body) {
        Ok(body) => body,
        Err(failed) => {
            drop(condition);
            return Err(AllocError::from(failed));
        }
    };
    Ok(Statement {
        form: StatementForm::Do(body, condition),
        place,
        end,
    })
}
