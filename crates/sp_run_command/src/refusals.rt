//! The lines that refuse files.
ghost use Rattle.std.specs.Prelude.{◌≡◌, IfOk, string_bytes};
ghost use Rattle.sp_run_command.specs.Refusals.{refusal_text, fault_tail, fault_text};

use crate::status::{Answer, Status};
use sp_run_faults::{FaultText, code};
use sp_tree::{Fault, FaultKind, Names, Place};
use std::alloc::{AllocError, Global};

/// The line that refuses a file at its beginning.
pub(crate) fn refusal(alloc: Global, name: &str, kind: FaultKind) -> Result<Answer, AllocError>
    ensures status { IfOk result (λ a. a.status ≡ Status.Refused) }
    ensures text { IfOk result (λ a. a.text.items ≡ refusal_text name.now kind) }
{
    let code = code(kind);
    let why = FaultText { kind };
    let text = format!(in alloc; "{name}:1:1: refused {code}: {why}\n")?;
    Ok(Answer {
        status: Status::Refused,
        text: text.into_bytes(),
    })
}

/// What follows the name in the line of a fault.
fn fault_tail(alloc: Global, fault: Fault) -> Result<String, AllocError>
    ensures { IfOk result (λ s. string_bytes s ≡ fault_tail fault) }
{
    let Fault { kind, place } = fault;
    let Place { line, column, .. } = place;
    let code = code(kind);
    let why = FaultText { kind };
    format!(in alloc; ":{line}:{column}: refused {code}: {why}\n")
}

/// The line that refuses a file at the place of a fault.
pub(crate) fn refusal_at(alloc: Global, names: &Names, fault: Fault) -> Result<Answer, AllocError>
    ensures status { IfOk result (λ a. a.status ≡ Status.Refused) }
    ensures text { IfOk result (λ a. a.text.items ≡ fault_text names.now fault) }
{
    let name = names.get(fault.place.name).unwrap_or(b"".as_slice());
    let mut text = Vec::from_slice(alloc, name)?;
    text.extend_from_slice(fault_tail(alloc, fault)?.as_bytes())?;
    Ok(Answer {
        status: Status::Refused,
        text,
    })
}
