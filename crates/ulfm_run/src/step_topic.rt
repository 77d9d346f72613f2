//! On what a step of a rank is decided, by the rank's log (ULFM, shrink and agree).
ghost use Rattle.std.specs.Prelude.{◌≡◌, ◌↔◌, IsTrue, Some};
ghost use Rattle.ulfm_script.specs.Deciding.{topic_of};

use ulfm_base::Topic;
use ulfm_job::NotedStep;
use ulfm_log::Entry;
use ulfm_script::last_round;

/// Whether a step of a rank with this log is decided on a topic.
pub(crate) fn is_decided_on(step: &NotedStep, log: &[Entry], topic: Topic) -> bool
    ensures { IsTrue result ↔ (topic_of log.now step.now ≡ Some topic) }
{
    match topic_of(step, log) {
        Some(own) => are_same(own, topic),
        None => false,
    }
}

/// Whether two topics are the same.
#[tactic(auto, using(crate::proofs::Placed::one_topic))]
fn are_same(one: Topic, other: Topic) -> bool
    ensures { IsTrue result ↔ (one ≡ other) }
{
    one.is_same(other)
}

/// On what a step of a rank with this log is decided, if it is a shrink or an agreement.
#[tactic(auto, using(crate::proofs::Decided::round_topic_of, crate::proofs::Decided::no_topic_of))]
fn topic_of(step: &NotedStep, log: &[Entry]) -> Option<Topic>
    ensures { result ≡ topic_of log.now step.now }
{
    let context = step.decides_on()?;
    Some(last_round(log, step.is_agreement(), context))
}
