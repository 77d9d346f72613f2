//! The laws of rows of `never`, and of jobs that are written out.
ghost use Rattle.ulfm_program.specs.Laws.{ExpandsAlike, RowsStayAway};

/// If no schedule has all answers of a row of `never`, no run and no replay answers 9 for a row, unless a step was given up that the job doesn't let
/// its rank leave, or memory lacked.
pub fn rows_stay_away()
    ensures { RowsStayAway }
{}

/// A job with its steps and rows written out, as `expand` writes it, is read as the same job: with the same rows, names and provisos.
pub fn expands_alike()
    ensures { ExpandsAlike }
{}
