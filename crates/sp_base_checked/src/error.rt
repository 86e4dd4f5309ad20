//! Why a check ends early.
ghost use Rattle.std.specs.Prelude.{◌≡◌, Err};
ghost use Rattle.sp_base_checked.specs.declared.error.CheckError.TheVariants.{Fault as Faulty};

use sp_tree::{Fault, FaultKind, Place};
use std::alloc::{AllocError, AllocFailed};

/// A fault that is found in the tree, with its place, or memory that ran out.
#[derive(Debug, Drop)]
pub enum CheckError {
    Fault(Fault),
    NoMemory,
}

impl From<AllocError> for CheckError {
    ghost use Rattle.sp_base_checked.specs.declared.error.CheckError.TheVariants.{NoMemory};

    ghost from_gives = { λ _ error. error ≡ NoMemory };

    fn from(_error: AllocError) -> CheckError {
        CheckError::NoMemory
    }
}

impl<T: Drop> From<AllocFailed<T>> for CheckError {
    ghost use Rattle.sp_base_checked.specs.declared.error.CheckError.TheVariants.{NoMemory};

    ghost from_gives = { λ _ error. error ≡ NoMemory };

    fn from(_error: AllocFailed<T>) -> CheckError {
        CheckError::NoMemory
    }
}

/// Refuses with a fault.
pub fn fault<T>(kind: FaultKind, place: Place) -> Result<T, CheckError>
    ensures { result ≡ Err (Faulty (record { kind = kind; place = place })) }
{
    Err(CheckError::Fault(Fault { kind, place }))
}
