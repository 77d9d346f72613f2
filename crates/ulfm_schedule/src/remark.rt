//! Why something came too late.

/// Why what a step waited for came too late for it, in a replay that gave the step up.
#[derive(Clone, Copy, Debug, PartialEq, Eq)]
pub enum Remark {
    /// It came when the step was given up already.
    Later,
    /// Its message was lost, since its rank stopped.
    Lost,
    /// Its rank came to it only after this step of its own, by what others did behind steps that were given up.
    After(usize),
    /// Its rank came to it only after this step of its own was given up.
    AfterGivenUp(usize),
    /// The notice that its rank stopped came when the step was given up already.
    NoticeLater,
    /// The notice that its rank stopped hadn't come.
    NoticeMissing,
}
