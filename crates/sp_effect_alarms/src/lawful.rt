//! The laws of alarms as a contract.
ghost use Rattle.sp_effect_alarms.specs.Laws.{AlarmLaws};

/// The alarms of a node, as those of an expression and an lvalue, hang on the cells that it uses
/// alone, and the commands of formed programs are proper (`AlarmLaws` of `specs.Laws`). The call
/// does nothing.
pub fn alarms_are_lawful()
    ensures laws { AlarmLaws }
{}
