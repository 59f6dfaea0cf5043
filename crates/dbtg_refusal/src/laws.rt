//! What holds of refusals, for whoever cites it.
ghost use Rattle.dbtg_refusal.specs.Laws.{EachRefusalHasAnObstacle, JustRefusalsAreExplained};

/// Something is in the way of each statement that fits and is refused.
pub fn each_refusal_has_an_obstacle()
    ensures { EachRefusalHasAnObstacle }
{}

/// In a history each refusal has a sentence, and a statement that is done has none.
pub fn just_refusals_are_explained()
    ensures { JustRefusalsAreExplained }
{}
