//! Why a piece isn't passed.
use sp_tree::FaultKind;
use std::alloc::AllocError;

/// Why a piece isn't passed.
#[derive(Clone, Copy)]
pub(crate) enum Stop {
    /// A fault stands where the piece begins.
    Fault(FaultKind),
    /// Memory ran out.
    NoMemory,
}

impl From<AllocError> for Stop {
    ghost use Rattle.std.specs.Prelude.{◌≡◌};
    ghost use Rattle.sp_lexer.specs.declared.stop.Stop.TheVariants.{NoMemory};

    ghost from_gives = { λ _ stop. stop ≡ NoMemory };

    fn from(_error: AllocError) -> Stop {
        Stop::NoMemory
    }
}
