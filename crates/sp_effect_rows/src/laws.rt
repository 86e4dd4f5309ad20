//! The laws of rows as a contract.
ghost use Rattle.sp_effect_rows.specs.Laws.{RowLaws};

/// A lawful row gives an effect that keeps the laws of a system; stores through an address, writes
/// at known locations and two rows after one another are lawful (`RowLaws` of `specs.Laws`). The
/// call does nothing.
pub fn rows_are_lawful()
    ensures laws { RowLaws }
{}
