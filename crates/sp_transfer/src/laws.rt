//! The laws of effects as a contract.
ghost use Rattle.sp_transfer.specs.Laws.{TransferLaws};

/// In a whole analysis the effect of each node keeps the laws of a system (`TransferLaws` of
/// `specs.Laws`). The call does nothing.
pub fn effects_are_lawful()
    ensures laws { TransferLaws }
{}
