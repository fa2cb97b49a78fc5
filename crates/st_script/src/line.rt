//! Lines of steps.
ghost use Rattle.std.specs.Prelude.{◌≡◌, IfOk};
ghost use Rattle.std.specs.Option.{ok_or};
ghost use Rattle.serde_json.specs.View.{view};
ghost use Rattle.st_script.specs.Steps.{step_of};
ghost use Rattle.st_script.specs.Line.{line_view, step_of_line};

use crate::read::read_step;
use crate::step::TraceStep;
use serde_json::Value;
use st_ids::Or;
use st_json::{BadCause, read_line};
use std::alloc::{AllocError, Global};

/// What a line is: a step, or none, with the first test that it fails.
#[derive(Drop)]
pub enum Line {
    Step(TraceStep),
    Bad(BadCause),
}

// The step of a value, or the refusal of its form.
fn step_of_value(alloc: Global, value: &Value) -> Result<Line, AllocError>
    ensures { IfOk result (λ l. line_view l ≡ ok_or (step_of (view value.now)) BadCause.Shape) }
{
    match read_step(alloc, value)? {
        Some(step) => Ok(Line::Step(step)),
        None => Ok(Line::Bad(BadCause::Shape)),
    }
}

/// What a line is, given without its line feed: `Json` where the bytes have no reading, `Shape`
/// where the value is no step.
pub fn read_step_line(alloc: Global, bytes: &[u8]) -> Result<Line, AllocError>
    ensures { IfOk result (λ l. line_view l ≡ step_of_line bytes.now) }
{
    match read_line(alloc, bytes) {
        Ok(value) => step_of_value(alloc, &value),
        Err(Or::NoMemory) => Err(AllocError),
        Err(Or::Fault(_)) => Ok(Line::Bad(BadCause::Json)),
    }
}
