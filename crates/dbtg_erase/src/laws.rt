//! Laws of DELETE.
ghost use Rattle.dbtg_erase.specs.Locality.{DeleteIsDetermined};

/// What a DELETE holds, once its needs are met, determines its answer, its unit and what the cells that it holds show
/// afterwards.
pub fn delete_is_determined()
    ensures { DeleteIsDetermined }
{}
