//! What comes too late for a step that was given up.

use crate::given_up::GivenUp;
use crate::under_way::{letters_before, sent_by, step_of};
use crate::would_bring;
use ulfm_base::Topic;
use ulfm_job::{Job, Step};
use ulfm_log::Entry;
use ulfm_script::{RankReport, played_at};

/// A step that brought what was waited for, after that was given up.
#[derive(Clone, Copy)]
pub(crate) struct Missed {
    pub(crate) step: usize,
    /// Whether its message was lost, since its rank stopped.
    pub(crate) is_lost: bool,
}

/// The first step of a rank that brought what is waited for when this was given up, if there is one.
pub(crate) fn missed_step(job: &Job, given: &GivenUp<'_>, source: &RankReport) -> Option<Missed> {
    match &given.need {
        Step::Recv { .. } | Step::Probe { .. } => missed_send(job, given, source),
        _ => missed_entry(job, given, source),
    }
}

/// Whether a step of a rank would bring it.
fn brings(job: &Job, given: &GivenUp<'_>, source: &RankReport, step: usize) -> bool {
    match played_at(job, source.me().number, source.steps(), step) {
        Some(step) => would_bring(&given.need, given.position, &step),
        None => false,
    }
}

/// The first step that sent a message which fits, and which wasn't taken yet.
fn missed_send(job: &Job, given: &GivenUp<'_>, source: &RankReport) -> Option<Missed> {
    let to = given.report.me().number;
    let taken = letters_before(given.report, given.report.log().len(), source);
    for number in letters_before(given.report, given.known, source)..source.log().len() {
        let step = step_of(source, sent_by(source, to, number)?)?;
        if brings(job, given, source, step) {
            return Some(Missed {
                step,
                is_lost: source.stopped() && number >= taken,
            });
        }
    }
    None
}

/// The step that entered the same decision, where a rank did.
fn missed_entry(job: &Job, given: &GivenUp<'_>, source: &RankReport) -> Option<Missed> {
    let topic = topic_of(given)?;
    let entered = entered_at(source.log(), topic)?;
    for (step, answered) in source.steps().iter().enumerate() {
        if answered.at >= entered && brings(job, given, source, step) {
            return Some(Missed {
                step,
                is_lost: false,
            });
        }
    }
    None
}

/// What a rank entered last, when it gave a step up.
fn topic_of(given: &GivenUp<'_>) -> Option<Topic> {
    let mut topic = None;
    for entry in given.report.log().iter().take(given.known) {
        if let Entry::Entered(entrance) = entry {
            topic = Some(entrance.topic);
        }
    }
    topic
}

/// Where a log enters a decision.
fn entered_at(log: &[Entry], topic: Topic) -> Option<usize> {
    for (number, entry) in log.iter().enumerate() {
        if let Entry::Entered(entrance) = entry {
            if entrance.topic.is_same(topic) {
                return Some(number);
            }
        }
    }
    None
}
