//! Which fault of the declarations of several units comes first.
ghost use Rattle.std.specs.Prelude.{◌≡◌, IfOk, OnOk, map};
ghost use Rattle.sp_base_checked.specs.Units.{checked_unit_of};
ghost use Rattle.sp_link_agreement.specs.Depths.{tables};
ghost use Rattle.sp_link_agreement.specs.Known.{IsKnown};
ghost use Rattle.sp_link_conflicts.specs.Conflicts as rules;
ghost use Rattle.sp_link_conflicts.specs.Earlier.{group};
ghost use Rattle.sp_link_conflicts.specs.Views.{declaration_of, seen_declaration};

use crate::declarations::{Declaration, all_declarations};
use crate::earlier::Earlier;
use sp_base_checked::{CheckError, CheckedUnit, fault};
use sp_link_agreement::{Known, types_agree};
use sp_tree::FaultKind;
use std::alloc::{AllocError, Global};

/// Whether a declaration has a type that is compatible with that of each of the list (C90 6.1.2.6).
fn fits(
    alloc: Global,
    units: &[CheckedUnit],
    earlier: &[&Declaration],
    declaration: &Declaration,
    known: &mut Known,
) -> Result<bool, AllocError>
    requires { IsKnown (tables units.now) known.old }
    ensures answer { IfOk result (λ b. rules.FitsIf (tables units.now) b
        (map seen_declaration earlier.now) (declaration_of declaration.now)) }
    ensures known { OnOk result (IsKnown (tables units.now) known.new) }
{
    'earlier: for other in earlier {
        if !types_agree(
            alloc,
            units,
            other.unit,
            &other.of,
            declaration.unit,
            &declaration.of,
            known,
        )? {
            return Ok(false);
        }
    }
    Ok(true)
}

/// Whether one of the list defines its name.
fn any_defines(earlier: &[&Declaration]) -> bool
    ensures { result ≡ rules.any_defines (map seen_declaration earlier.now) }
{
    'earlier: for other in earlier {
        if other.defines {
            return true;
        }
    }
    false
}

/// What stands at a declaration, behind those of its name.
fn judge(
    alloc: Global,
    units: &[CheckedUnit],
    earlier: &[&Declaration],
    declaration: &Declaration,
    known: &mut Known,
) -> Result<(), CheckError>
    requires { IsKnown (tables units.now) known.old }
    ensures answer { rules.IsJudged (tables units.now)
        (map seen_declaration earlier.now) (declaration_of declaration.now) result }
    ensures known { OnOk result (IsKnown (tables units.now) known.new) }
{
    if !fits(alloc, units, earlier, declaration, known)? {
        return fault(FaultKind::IncompatibleDeclaration, declaration.place);
    }
    if declaration.defines && any_defines(earlier) {
        return fault(FaultKind::SecondDefinition, declaration.place);
    }
    Ok(())
}

/// What stands at a declaration, behind all before it.
fn judge_next(
    alloc: Global,
    units: &[CheckedUnit],
    earlier: &Earlier<'_>,
    declaration: &Declaration,
    known: &mut Known,
) -> Result<(), CheckError>
    requires { IsKnown (tables units.now) known.old }
    ensures answer { rules.IsJudged (tables units.now)
        (group earlier.now (declaration_of declaration.now).name)
        (declaration_of declaration.now) result }
    ensures known { OnOk result (IsKnown (tables units.now) known.new) }
{
    match earlier.find(declaration.name) {
        Some(list) => judge(alloc, units, list, declaration, known),
        None => judge(alloc, units, &[], declaration, known),
    }
}

/// The first fault of these declarations.
fn check_all(alloc: Global, units: &[CheckedUnit], all: &[Declaration]) -> Result<(), CheckError>
    ensures { rules.AreJudged (tables units.now) (map declaration_of all.now) result }
{
    let mut known = Known::new(alloc);
    let mut earlier = Earlier::new(alloc);
    'all: for declaration in all {
        judge_next(alloc, units, &earlier, declaration, &mut known)?;
        earlier.add(alloc, declaration)?;
    }
    Ok(())
}

/// The first fault of the declarations of external names of these units: IncompatibleDeclaration at one whose type isn't
/// compatible with one before it, else SecondDefinition at a second definition.
pub fn check_declarations(alloc: Global, units: &[CheckedUnit]) -> Result<(), CheckError>
    ensures { rules.AreChecked (map checked_unit_of units.now) result }
{
    let all = all_declarations(alloc, units)?;
    check_all(alloc, units, &all)
}
