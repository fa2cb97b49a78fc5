//! Carriers, by how their changes and steps read empty cells.
ghost use Rattle.std.specs.Prelude.{true, false};

use crate::both::{carry, carry_thin};
use st_marks::{Change, Step, Verdict};
use st_reading::Listed;
use st_rebaser::Carrier;
use std::alloc::{AllocError, Global};

/// Changes and steps that name each empty cell.
pub struct ListedCarrier;

/// Changes and steps that count empty cells that stay empty.
pub struct ThinCarrier;

impl Carrier for ListedCarrier {
    ghost listed = { true };

    fn carry(
        alloc: Global,
        change: &mut Change,
        verdict: &mut Verdict,
        step: &mut Step,
    ) -> Result<(), AllocError> {
        carry(alloc, &Listed, change, verdict, step)
    }
}

impl Carrier for ThinCarrier {
    ghost listed = { false };

    fn carry(
        alloc: Global,
        change: &mut Change,
        verdict: &mut Verdict,
        step: &mut Step,
    ) -> Result<(), AllocError> {
        carry_thin(alloc, change, verdict, step)
    }
}
