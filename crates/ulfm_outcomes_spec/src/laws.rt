//! The laws of answers that come together, or don't.
ghost use Rattle.ulfm_outcomes_spec.specs.Goals.{SharedShowsNoMore};
ghost use Rattle.ulfm_outcomes_spec.specs.Scheduled.{AnswersStayAway};

/// Answers that come together over shared inboxes do so over rings. So where no schedule has them, none has over shared inboxes.
pub fn shared_shows_no_more()
    ensures { SharedShowsNoMore }
{}

/// Of answers that no schedule of a job has together, the reports of one of its schedules don't have all. So where `--show` says that no schedule has
/// some answers, no run and no replay has them, but where a step was given up or memory lacked.
pub fn answers_stay_away()
    ensures { AnswersStayAway }
{}
