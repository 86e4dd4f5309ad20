//! The laws of reports as a contract.
ghost use Rattle.sp_report.specs.Laws.{ReportLaws, InputLaws};

/// A report is one of the set of its alarms, and its lines ascend. Tables of inputs that agree at
/// what is used have one report and the same lines of values (`specs.Laws`). The call does nothing.
pub fn reports_are_lawful()
    ensures laws { ReportLaws }
    ensures inputs { InputLaws }
{}
