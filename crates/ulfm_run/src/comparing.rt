//! The deciders of a run, compared with one another.
ghost use Rattle.std.specs.Prelude.{◌≡◌, ◌<◌, ℕ, length, map};
ghost use Rattle.ulfm_run.specs.inside.Threads.{NameOneBoard};
ghost use Rattle.ulfm_report_laws.specs.Answers.{AllAgree, AgreeAt};

use ulfm_board::Decider;

/// Compares each two of these deciders, which share a board: on no topic they know two decisions. It
/// changes nothing that they know.
pub(crate) fn compared<D: Decider>(deciders: Vec<D>) -> Vec<D>
    requires one_board { NameOneBoard (map D.board deciders.items) }
    ensures boards { map D.board result.items ≡ map D.board deciders.items }
    ensures known { map D.known result.items ≡ map D.known deciders.items }
    ensures agree { AllAgree (map D.known result.items) }
{
    let mut deciders = deciders;
    compare_all(&mut deciders);
    deciders
}

/// Compares each two of these deciders.
fn compare_all<D: Decider>(deciders: &mut [D])
    requires one_board { NameOneBoard (map D.board deciders.old) }
    ensures boards { map D.board deciders.new ≡ map D.board deciders.old }
    ensures known { map D.known deciders.new ≡ map D.known deciders.old }
    ensures agree { AllAgree (map D.known deciders.old) }
{
    for second in 0..deciders.len() {
        compare_earlier(deciders, second);
    }
}

/// Compares the decider at a place with each before it.
fn compare_earlier<D: Decider>(deciders: &mut [D], second: usize)
    requires inside { second < length deciders.old }
    requires one_board { NameOneBoard (map D.board deciders.old) }
    ensures boards { map D.board deciders.new ≡ map D.board deciders.old }
    ensures known { map D.known deciders.new ≡ map D.known deciders.old }
    ensures agree { (first : ℕ) → first < second → AgreeAt (map D.known deciders.old) first second }
{
    for first in 0..second {
        compare_two(deciders, first, second);
    }
}

/// Compares the deciders at two places.
fn compare_two<D: Decider>(deciders: &mut [D], first: usize, second: usize)
    requires order { first < second }
    requires inside { second < length deciders.old }
    requires one_board { NameOneBoard (map D.board deciders.old) }
    ensures boards { map D.board deciders.new ≡ map D.board deciders.old }
    ensures known { map D.known deciders.new ≡ map D.known deciders.old }
    ensures agree { AgreeAt (map D.known deciders.old) first second }
{
    let (earlier, later) = deciders.split_at_mut(second);
    earlier[first].same(&mut later[0]);
}
