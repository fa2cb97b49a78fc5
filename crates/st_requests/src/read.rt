//! Lines read as requests.
ghost use Rattle.std.specs.Prelude.{◌≡◌, Ok, Err, IfOk};
ghost use Rattle.serde_json.specs.View.{view};
ghost use Rattle.st_ids.specs.Or.{IfRefused};
ghost use Rattle.st_requests.specs.Form.{form_of};
ghost use Rattle.st_requests.specs.Requests.{IsJudged, IsOfForm, IsRequest};

use crate::form::form_of;
use crate::normal::is_normal;
use crate::request::Request;
use serde_json::Value;
use st_ids::Or;
use st_json::{BadCause, read_line};
use std::alloc::Global;

// The request, or `NotNormal`.
fn judge(request: Request) -> Result<Request, Or<BadCause>>
    ensures ok { IfOk result (λ q. IsJudged request (Ok q)) }
    ensures bad { IfRefused result (λ c. IsJudged request (Err c)) }
{
    if is_normal(&request) {
        Ok(request)
    } else {
        Err(Or::Fault(BadCause::NotNormal))
    }
}

// The request that a value is, or the first test that it fails.
fn request_of_value(alloc: Global, value: &Value) -> Result<Request, Or<BadCause>>
    ensures ok { IfOk result (λ q. IsOfForm (form_of (view value.now)) (Ok q)) }
    ensures bad { IfRefused result (λ c. IsOfForm (form_of (view value.now)) (Err c)) }
{
    match form_of(alloc, value)? {
        None => Err(Or::Fault(BadCause::Shape)),
        Some(request) => judge(request),
    }
}

/// What a line asks, given without its line feed: `Json` where the bytes have no reading, `Shape`
/// where the value is no request, `NotNormal` where an argument isn't in normal form or lists a row
/// of 2^31 cells or more.
pub fn read_request(alloc: Global, line: &[u8]) -> Result<Request, Or<BadCause>>
    ensures ok { IfOk result (λ q. IsRequest line.now (Ok q)) }
    ensures bad { IfRefused result (λ c. IsRequest line.now (Err c)) }
{
    match read_line(alloc, line) {
        Ok(value) => request_of_value(alloc, &value),
        Err(Or::NoMemory) => Err(Or::NoMemory),
        Err(Or::Fault(_)) => Err(Or::Fault(BadCause::Json)),
    }
}
