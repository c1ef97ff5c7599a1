// What a tracker's request is told by its number and its text.
use plan_basics::{OpKey, Refusal};

/// What a tracker's request is told by its number and its text.
#[derive(Clone, Copy)]
pub enum Judged<'a> {
    /// It has the next number: it is a new request.
    New,
    /// It has the last number and the last text: it is answered with the keys that were named then.
    Again(&'a [OpKey]),
    /// It is refused: `Old` for a number of the past or 0, `Gap` for one too far on, `Reused` for the last number with
    /// another text.
    Refused(Refusal),
}
