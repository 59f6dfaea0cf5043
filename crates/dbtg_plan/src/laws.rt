//! Laws of every statement but DELETE.
ghost use Rattle.dbtg_plan.specs.Locality.{EachIsDetermined};

/// What a statement other than DELETE holds, once its needs are met, determines its answer, its unit and what the
/// cells that it holds show afterwards.
pub fn each_statement_is_determined()
    ensures { EachIsDetermined }
{}
