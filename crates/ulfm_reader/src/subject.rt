//! What may hold only at some places.

/// What a job asks of answers.
#[derive(Clone, Copy, Debug, PartialEq, Eq)]
pub enum Subject {
    /// What a step of a rank, by its number there, expects of its own answer.
    Step(u8, u16),
    /// The row of `never` of this number.
    Row(usize),
}
