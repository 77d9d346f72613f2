//! Items between two ranks, by the reports of both.

use ulfm_answer::StepAnswer;
use ulfm_base::ItemKind;
use ulfm_log::{Entry, revokes};
use ulfm_script::RankReport;

/// Whether a rank has sent an item, after so many entries of its log. The other one takes it by the entry `at` of its own log.
pub(crate) fn is_sent(
    source: &RankReport,
    known: usize,
    report: &RankReport,
    at: usize,
    item: &ItemKind,
) -> bool {
    let to = report.me().number;
    match item {
        ItemKind::Letter(_) => match sent_by(source, to, letters_before(report, at, source)) {
            Some(entry) => entry < known,
            None => false,
        },
        _ => source
            .log()
            .iter()
            .take(known)
            .any(|entry| tells(entry, item)),
    }
}

/// Whether an entry of a log makes its rank tell others such an item.
fn tells(entry: &Entry, item: &ItemKind) -> bool {
    match (entry, item) {
        (Entry::Stopped, ItemKind::Gone) => true,
        (_, ItemKind::Revoke(context)) => revokes(entry, *context),
        (Entry::Entered(own), ItemKind::Enter(entrance)) => own.topic.is_same(entrance.topic),
        _ => false,
    }
}

/// How many messages of a rank another one took before an entry of its log.
pub(crate) fn letters_before(report: &RankReport, at: usize, source: &RankReport) -> usize {
    let mut count = 0_usize;
    for entry in report.log().iter().take(at) {
        if is_letter_of(entry, source.me().number) {
            count = count.saturating_add(1);
        }
    }
    count
}

/// Whether an entry takes a message of a rank.
fn is_letter_of(entry: &Entry, from: u8) -> bool {
    match entry {
        Entry::Took(source, item) => {
            source.number == from && matches!(item.kind(), ItemKind::Letter(_))
        }
        _ => false,
    }
}

/// The entry by which a rank sent another one a message, behind so many before it.
pub(crate) fn sent_by(source: &RankReport, to: u8, before: usize) -> Option<usize> {
    let mut count = 0_usize;
    for (number, entry) in source.log().iter().enumerate() {
        if let Entry::Sent(dest, _) = entry {
            if dest.number == to {
                if count == before {
                    return Some(number);
                }
                count = count.saturating_add(1);
            }
        }
    }
    None
}

/// The step by which a rank wrote such an entry: each answered send wrote one, in their order.
pub(crate) fn step_of(source: &RankReport, entry: usize) -> Option<usize> {
    let mut before = 0_usize;
    for earlier in source.log().iter().take(entry) {
        if matches!(earlier, Entry::Sent(_, _)) {
            before = before.saturating_add(1);
        }
    }
    for (number, step) in source.steps().iter().enumerate() {
        if matches!(step.answer, StepAnswer::Sent) {
            if before == 0 {
                return Some(number);
            }
            before = before.saturating_sub(1);
        }
    }
    None
}
