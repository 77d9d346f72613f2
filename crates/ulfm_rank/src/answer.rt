//! What a test of a request answers.
ghost use Rattle.std.specs.Prelude.{◌≡◌, IsSome, if◌then◌else◌};
ghost use Rattle.ulfm_base.specs.Group.{rank_in};
ghost use Rattle.ulfm_log.specs.Communicators.{find_group, or_empty};
ghost use Rattle.ulfm_rank.specs.inside.Fields.{pends_by};
ghost use Rattle.ulfm_rank.specs.inside.Answers.{IsDelivered, GivesAnswer, HasSender};
ghost use Rattle.ulfm_rank.specs.Messages.{TellsOf};

use crate::failures::pends;
use crate::request::{Fate, Request};
use ulfm_base::{CallError, Context, Group, Letter, Pattern};
use ulfm_fault::Faults;
use ulfm_log::{Communicators, Status, TestAnswer};

/// What is told of a letter, whose sender is a member of the group.
fn status_of(letter: &Letter, group: &Group) -> Status
    requires { IsSome (rank_in group.now letter.now.envelope.source.number) }
    ensures { TellsOf group.now letter.now result }
{
    Status {
        source: group.rank_of(letter.envelope.source).unwrap(),
        tag: letter.envelope.tag,
        length: letter.body.len(),
    }
}

/// What is told of a letter of a communicator that was made.
pub(crate) fn status_in(communicators: &Communicators, context: Context, letter: &Letter) -> Status
    requires made { IsSome (find_group context.number communicators.now.made) }
    requires sender { IsSome (rank_in (or_empty (find_group context.number communicators.now.made)) letter.now.envelope.source.number) }
    ensures { TellsOf (or_empty (find_group context.number communicators.now.made)) letter.now result }
{
    status_of(letter, communicators.group_of(context).unwrap())
}

/// The answer for a receive of this pattern that got a letter, whose sender is a member of the group.
fn delivered(pattern: &Pattern, letter: Letter, group: &Group) -> TestAnswer
    requires { IsSome (rank_in group.now letter.envelope.source.number) }
    ensures { IsDelivered group.now pattern.now letter result }
{
    if letter.body.len() > pattern.room as usize {
        return TestAnswer::Over(CallError::Truncated);
    }
    TestAnswer::Done(status_of(&letter, group), letter.body)
}

/// The answer for a request of a communicator of this group. `pending` says whether it pends while it waits.
pub(crate) fn answer_of(request: Request, group: &Group, pending: bool) -> TestAnswer
    requires { HasSender group.now request.fate }
    ensures { GivesAnswer group.now pending request.pattern request.fate result }
{
    let Request { pattern, fate } = request;
    match fate {
        Fate::Waiting => {
            if pending {
                return TestAnswer::Pending;
            }
            TestAnswer::NotYet
        }
        Fate::Paired(letter) => delivered(&pattern, letter, group),
        Fate::Found(letter) => delivered(&pattern, letter, group),
        Fate::Failed => TestAnswer::Over(CallError::ProcFailed),
        Fate::Cleared => TestAnswer::Over(CallError::Revoked),
    }
}

/// The answer for a receive of this pattern that waits, whose communicator was made.
pub(crate) fn answer_to_waiting(
    communicators: &Communicators,
    faults: &Faults,
    pattern: &Pattern,
) -> TestAnswer
    requires { IsSome (find_group pattern.now.context.number communicators.now.made) }
    ensures { result ≡ (if pends_by faults.now (or_empty (find_group pattern.now.context.number communicators.now.made)) pattern.now then TestAnswer.Pending else TestAnswer.NotYet) }
{
    let group = communicators.group_of(pattern.context).unwrap();
    if pends(faults, group, pattern) {
        return TestAnswer::Pending;
    }
    TestAnswer::NotYet
}

/// The answer for a request, whose communicator was made.
pub(crate) fn answer_in(
    communicators: &Communicators,
    faults: &Faults,
    request: Request,
) -> TestAnswer
    requires made { IsSome (find_group request.pattern.context.number communicators.now.made) }
    requires sender { HasSender (or_empty (find_group request.pattern.context.number communicators.now.made)) request.fate }
    ensures { let group = or_empty (find_group request.pattern.context.number communicators.now.made) in GivesAnswer group (pends_by faults.now group request.pattern) request.pattern request.fate result }
{
    let group = communicators.group_of(request.pattern.context).unwrap();
    let pending = pends(faults, group, &request.pattern);
    answer_of(request, group, pending)
}
