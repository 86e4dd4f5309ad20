//! The cases of a switch.
ghost use Rattle.std.specs.Prelude.{◌≡◌, ◌++◌, OnOk};
ghost use Rattle.sp_types.specs.TypedView.{statement_of, maybe_statement};
ghost use Rattle.sp_base_checked.specs.Answers.{Answers};
ghost use Rattle.sp_check_statement_rules.specs.Cases.{cases_in, distinct_cases};

use crate::repeats::gather;
use indexmap::IndexSet;
use sp_base_checked::{CheckError, fault};
use sp_tree::{FaultKind, Place};
use sp_types::{TypedStatement, TypedStatementForm};
use std::alloc::{AllocError, Global};

/// Adds the cases that are a switch's own, each with its place; a default is `None`.
fn add_cases(cases: &mut Vec<(Option<i128>, Place)>, s: &TypedStatement) -> Result<(), AllocError>
    ensures { OnOk result (cases.new.items ≡ cases.old.items ++ cases_in (statement_of s.now)) }
{
    match &s.form {
        TypedStatementForm::Label(_, s) => add_cases(cases, s),
        TypedStatementForm::Case(value, inner) => {
            cases.push((Some(*value), s.place))?;
            add_cases(cases, inner)
        }
        TypedStatementForm::Default(inner) => {
            cases.push((None, s.place))?;
            add_cases(cases, inner)
        }
        TypedStatementForm::Block(_, statements) => {
            for s in statements {
                add_cases(cases, s)?;
            }
            Ok(())
        }
        TypedStatementForm::If(_, s, other) => {
            add_cases(cases, s)?;
            match other {
                Some(other) => add_cases(cases, other),
                None => Ok(()),
            }
        }
        TypedStatementForm::While(_, s)
        | TypedStatementForm::Do(s, _)
        | TypedStatementForm::For(_, _, _, s) => add_cases(cases, s),
        TypedStatementForm::Empty
        | TypedStatementForm::Of(_)
        | TypedStatementForm::Switch(..)
        | TypedStatementForm::Goto(_)
        | TypedStatementForm::Continue
        | TypedStatementForm::Break
        | TypedStatementForm::Return(_) => Ok(()),
    }
}

/// A switch with this body has no case twice (C90 6.6.4.2): RepeatedCase stands at the later of two cases of
/// one value, and at a second default.
#[tactic(auto, using(crate::proofs::Few::few))]
pub fn distinct_cases(alloc: Global, body: &TypedStatement) -> Result<(), CheckError>
    ensures { Answers (λ u. u) (distinct_cases (statement_of body.now)) result }
{
    let mut cases = Vec::new(alloc);
    add_cases(&mut cases, body)?;
    // A single case takes no set, which is as dear as the rest of a small switch.
    if cases.len() < 2 {
        return Ok(());
    }
    let mut keys = IndexSet::new(alloc);
    match gather(&mut keys, &cases)? {
        Some(place) => fault(FaultKind::RepeatedCase, place),
        None => Ok(()),
    }
}
