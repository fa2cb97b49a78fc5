//! What is asked of the algebra.

use st_ids::Rev;
use st_marks::{Change, Step};

/// What is asked of the algebra. `first` comes before `then`.
#[derive(Drop)]
pub enum Request {
    /// Two steps in turn as one.
    Compose { first: Step, then: Step },
    /// Two parts of a commit as one change.
    Join { first: Change, then: Change },
    /// The way back.
    Invert { step: Step },
    /// The change after the step.
    Rebase { change: Change, over: Step },
    /// The step after the change.
    Bridge { change: Change, step: Step },
    /// The step that the change makes, and whether it is void.
    Effect { change: Change },
    /// The change of a revision, made under a schema, that takes the step back.
    Revert { step: Step, rev: Rev, under: Rev },
}
