//! The laws of the calls as a contract.
ghost use Rattle.sp_interval.specs.Laws.{IntervalLaws};

/// Each call makes formed intervals, is monotone, and stays on the ladder where it is said to
/// (`IntervalLaws` of `specs.Laws`). The call does nothing.
pub fn intervals_are_lawful()
    ensures laws { IntervalLaws }
{}
