//! The laws of evaluation as a contract.
ghost use Rattle.sp_eval.specs.Laws.{EvaluationLaws};

/// Values are formed, rise with the store, point among the regions that an expression's form
/// allows, and hang on the cells that it uses alone (`EvaluationLaws` of `specs.Laws`). The call
/// does nothing.
pub fn evaluation_is_lawful()
    ensures laws { EvaluationLaws }
{}
