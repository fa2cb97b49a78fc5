//! Whether the arguments of a request are in normal form.
ghost use Rattle.std.specs.Prelude.{◌↔◌, IsTrue};
ghost use Rattle.st_requests.specs.Normal.{IsNormal};

use crate::request::Request;
use st_normal_texts::{is_normal_step_text, is_normal_text};

/// Whether the arguments of a request are in normal form, with rows of fewer than 2^31 cells.
pub fn is_normal(request: &Request) -> bool
    ensures { IsTrue result ↔ IsNormal request.now }
{
    match request {
        Request::Compose { first, then } => is_normal_step_text(first) && is_normal_step_text(then),
        Request::Join { first, then } => is_normal_text(first) && is_normal_text(then),
        Request::Invert { step } => is_normal_step_text(step),
        Request::Rebase { change, over } => is_normal_text(change) && is_normal_step_text(over),
        Request::Bridge { change, step } => is_normal_text(change) && is_normal_step_text(step),
        Request::Effect { change } => is_normal_text(change),
        Request::Revert { step, .. } => is_normal_step_text(step),
    }
}
