//! The labels of a function.
ghost use Rattle.std.specs.Prelude.{◌≡◌, ◌++◌, OnOk};
ghost use Rattle.sp_types.specs.TypedView.{statement_of, maybe_statement};
ghost use Rattle.sp_base_checked.specs.Answers.{Answers};
ghost use Rattle.sp_check_statement_rules.specs.Labels.{labels_in, jumps_in, labelled};

use crate::repeats::{first_lost, gather};
use indexmap::IndexSet;
use sp_base_checked::{CheckError, fault};
use sp_tree::{FaultKind, Place};
use sp_types::{TypedStatement, TypedStatementForm};
use std::alloc::{AllocError, Global};

/// Adds the labels, each with the place of its statement.
fn add_labels(labels: &mut Vec<(u32, Place)>, s: &TypedStatement) -> Result<(), AllocError>
    ensures { OnOk result (labels.new.items ≡ labels.old.items ++ labels_in (statement_of s.now)) }
{
    match &s.form {
        TypedStatementForm::Label(name, inner) => {
            labels.push((*name, s.place))?;
            add_labels(labels, inner)
        }
        TypedStatementForm::Block(_, statements) => {
            for s in statements {
                add_labels(labels, s)?;
            }
            Ok(())
        }
        TypedStatementForm::If(_, s, other) => {
            add_labels(labels, s)?;
            match other {
                Some(other) => add_labels(labels, other),
                None => Ok(()),
            }
        }
        TypedStatementForm::Case(_, s)
        | TypedStatementForm::Default(s)
        | TypedStatementForm::Switch(_, s)
        | TypedStatementForm::While(_, s)
        | TypedStatementForm::Do(s, _)
        | TypedStatementForm::For(_, _, _, s) => add_labels(labels, s),
        TypedStatementForm::Empty
        | TypedStatementForm::Of(_)
        | TypedStatementForm::Goto(_)
        | TypedStatementForm::Continue
        | TypedStatementForm::Break
        | TypedStatementForm::Return(_) => Ok(()),
    }
}

/// Adds the labels that `goto` names, each with the place of the `goto`.
fn add_jumps(jumps: &mut Vec<(u32, Place)>, s: &TypedStatement) -> Result<(), AllocError>
    ensures { OnOk result (jumps.new.items ≡ jumps.old.items ++ jumps_in (statement_of s.now)) }
{
    match &s.form {
        TypedStatementForm::Goto(name) => Ok(jumps.push((*name, s.place))?),
        TypedStatementForm::Block(_, statements) => {
            for s in statements {
                add_jumps(jumps, s)?;
            }
            Ok(())
        }
        TypedStatementForm::If(_, s, other) => {
            add_jumps(jumps, s)?;
            match other {
                Some(other) => add_jumps(jumps, other),
                None => Ok(()),
            }
        }
        TypedStatementForm::Label(_, s)
        | TypedStatementForm::Case(_, s)
        | TypedStatementForm::Default(s)
        | TypedStatementForm::Switch(_, s)
        | TypedStatementForm::While(_, s)
        | TypedStatementForm::Do(s, _)
        | TypedStatementForm::For(_, _, _, s) => add_jumps(jumps, s),
        TypedStatementForm::Empty
        | TypedStatementForm::Of(_)
        | TypedStatementForm::Continue
        | TypedStatementForm::Break
        | TypedStatementForm::Return(_) => Ok(()),
    }
}

/// The body of a function has each label once, and each label that a `goto` in it names (C90
/// 6.6.6.1): MisplacedJump stands at a label that is given a second time, else at a `goto` without its label.
pub fn labelled(alloc: Global, body: &TypedStatement) -> Result<(), CheckError>
    ensures { Answers (λ u. u) (labelled (statement_of body.now)) result }
{
    let mut labels = Vec::new(alloc);
    add_labels(&mut labels, body)?;
    let mut names = IndexSet::new(alloc);
    if let Some(place) = gather(&mut names, &labels)? {
        return fault(FaultKind::MisplacedJump, place);
    }
    let mut jumps = Vec::new(alloc);
    add_jumps(&mut jumps, body)?;
    match first_lost(&names, &jumps) {
        Some(place) => fault(FaultKind::MisplacedJump, place),
        None => Ok(()),
    }
}
