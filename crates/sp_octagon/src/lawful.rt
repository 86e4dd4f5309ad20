//! The laws of the calls as a contract.
ghost use Rattle.sp_octagon.specs.Laws.{OctagonLaws};

/// The functions that the calls compute make the entries that they are said to, are monotone, and
/// keep the points (`OctagonLaws` of `specs.Laws`). The call does nothing.
pub fn octagons_are_lawful()
    ensures laws { OctagonLaws }
{}
