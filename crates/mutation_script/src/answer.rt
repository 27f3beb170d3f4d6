// How the page and each line of a script are answered.
ghost use Rattle.std.specs.Prelude.{◌≡◌};
ghost use Rattle.mutation_script.specs.Changes.{answer_by};

use crate::BadLine;
use dom_arena::DomError;

/// What came of a mutation.
#[derive(Clone, Copy, Debug, PartialEq, Eq)]
pub enum Outcome {
    /// The change is made.
    Done,
    /// The change is refused, and nothing changed. It is never `NoMemory`.
    Refused(DomError),
}

/// The answer of a step: to the page, or to a line of a script.
#[derive(Clone, Copy, Debug, PartialEq, Eq)]
pub enum Answer {
    /// The page was read.
    Opened,
    /// The change is made.
    Done,
    /// The change is refused, and nothing changed. It is never `NoMemory`.
    Refused(DomError),
    /// The line is blank.
    Blank,
    /// The line says no change, for this cause.
    Bad(BadLine),
}

impl From<Outcome> for Answer {
    ghost from_gives = { λ outcome given. given ≡ answer_by outcome };

    fn from(outcome: Outcome) -> Answer {
        match outcome {
            Outcome::Done => Answer::Done,
            Outcome::Refused(error) => Answer::Refused(error),
        }
    }
}
