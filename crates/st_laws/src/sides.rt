//! What the two sides of an axiom come to.

use st_marks::{Change, Step};

/// Two steps that are to be one.
#[derive(Drop)]
pub struct StepSides {
    pub left: Step,
    pub right: Step,
}

/// Two changes that are to be one.
#[derive(Drop)]
pub struct ChangeSides {
    pub left: Change,
    pub right: Change,
}
