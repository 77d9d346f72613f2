//! What a schedule is asked for.

use ulfm_outcomes_list::Goals;

/// What a schedule is asked for.
#[derive(Clone, Copy)]
pub struct Query<'a> {
    /// What has to hold in it.
    pub goals: &'a Goals,
    /// Whether it is to be brief: without any one of its events the others aren't such a schedule.
    pub is_brief: bool,
    /// How many worlds in which they don't hold are looked at, at most.
    pub limit: usize,
}
