//! Why files are no program.
ghost use Rattle.std.specs.Prelude.{◌≡◌};
ghost use Rattle.sp_front.specs.declared.front.FrontError.TheVariants.{NoMemory};
ghost use Rattle.sp_front.specs.inner.Errors.{of_scan, of_parse, of_check, of_lower};

use sp_base_checked::CheckError;
use sp_expr_parser::ParseError;
use sp_lexer::ScanError;
use sp_lower::LowerError;
use sp_tree::Fault;
use std::alloc::{AllocError, AllocFailed};

/// Why files aren't lowered.
#[derive(Debug, Drop)]
pub enum FrontError {
    /// The first fault of the files, or of their program.
    Fault(Fault),
    /// Memory ran out.
    NoMemory,
}

impl From<AllocError> for FrontError {
    ghost from_gives = { λ _ error. error ≡ NoMemory };

    fn from(_error: AllocError) -> FrontError {
        FrontError::NoMemory
    }
}

impl<T: Drop> From<AllocFailed<T>> for FrontError {
    ghost from_gives = { λ _ error. error ≡ NoMemory };

    fn from(_error: AllocFailed<T>) -> FrontError {
        FrontError::NoMemory
    }
}

impl From<ScanError> for FrontError {
    ghost from_gives = { λ given error. error ≡ of_scan given };

    fn from(error: ScanError) -> FrontError {
        match error {
            ScanError::Fault(fault) => FrontError::Fault(fault),
            ScanError::NoMemory => FrontError::NoMemory,
        }
    }
}

impl From<ParseError> for FrontError {
    ghost from_gives = { λ given error. error ≡ of_parse given };

    fn from(error: ParseError) -> FrontError {
        match error {
            ParseError::Fault(fault) => FrontError::Fault(fault),
            ParseError::NoMemory => FrontError::NoMemory,
        }
    }
}

impl From<CheckError> for FrontError {
    ghost from_gives = { λ given error. error ≡ of_check given };

    fn from(error: CheckError) -> FrontError {
        match error {
            CheckError::Fault(fault) => FrontError::Fault(fault),
            CheckError::NoMemory => FrontError::NoMemory,
        }
    }
}

impl From<LowerError> for FrontError {
    ghost from_gives = { λ given error. error ≡ of_lower given };

    fn from(error: LowerError) -> FrontError {
        match error {
            LowerError::Fault(fault) => FrontError::Fault(fault),
            LowerError::NoMemory => FrontError::NoMemory,
        }
    }
}
