//! Faults and their places, as rows show them.
use sp_base_checked::CheckError;
use sp_run_faults::code;
use sp_tree::{Fault, Names, Place};
use std::alloc::{AllocError, Global};

/// The name of this number; `?` where there is none.
fn name_shown(names: &Names, number: u32) -> &str {
    str::from_utf8(names.get(number).unwrap_or(b"?".as_slice())).unwrap_or("?")
}

/// A place as line and column, with the name of its file where that isn't the first.
fn place_shown(alloc: Global, names: &Names, place: Place) -> Result<String, AllocError> {
    let Place { name, line, column } = place;
    if name == 0 {
        return format!(in alloc; "{line}:{column}");
    }
    let name = name_shown(names, name);
    format!(in alloc; "{name}:{line}:{column}")
}

/// Why texts are refused: the place and the code of the fault.
pub fn refused(alloc: Global, names: &Names, error: CheckError) -> Result<String, AllocError> {
    match error {
        CheckError::Fault(Fault { kind, place }) => {
            let place = place_shown(alloc, names, place)?;
            format!(in alloc; "{place}: {}", code(kind))
        }
        CheckError::NoMemory => String::from_str(alloc, "out of memory"),
    }
}
