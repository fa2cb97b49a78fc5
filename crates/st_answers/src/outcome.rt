//! How a run ends.
ghost use Rattle.std.specs.Prelude.{◌≡◌};

use st_json::BadCause;
use st_valid::ReplayCause;

/// How a run ends.
#[derive(Clone, Copy, Debug, PartialEq, Eq)]
pub enum Outcome {
    /// The input was read to its end, and every line is answered.
    Done,
    /// The words are no command.
    Usage,
    /// The first line that can't be answered, counted from 1.
    BadLine { line: u32, cause: BadCause },
    /// The first message that isn't valid, by the number of its line, counted from 1, and the first test that it fails.
    Refused { line: u32, cause: ReplayCause },
    /// The first line that is too long, or one too many, counted from 1.
    TooLong { line: u32 },
    /// The source failed.
    ReadFault,
    /// The sink failed.
    WriteFault,
    /// Memory ran out.
    NoMemory,
}

impl Outcome {
    ghost use Rattle.st_answers.specs.Status.{status_of};

    /// The status that a program ends with.
    pub fn status(&self) -> u8
        ensures { result ≡ status_of self.now }
    {
        match self {
            Outcome::Done => 0,
            Outcome::Usage => 2,
            Outcome::BadLine { .. } => 3,
            Outcome::Refused { .. } => 4,
            Outcome::TooLong { .. } => 5,
            Outcome::ReadFault => 6,
            Outcome::WriteFault => 7,
            Outcome::NoMemory => 70,
        }
    }
}
