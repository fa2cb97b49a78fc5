//! Why a line ends a run.

use st_json::BadCause;
use st_valid::ReplayCause;

/// Why a line ends a run before the input does.
#[derive(Clone, Copy)]
pub enum EndCause {
    /// It is bad.
    Bad(BadCause),
    /// It is a message that isn't valid, and this is the first test that it fails.
    Refused(ReplayCause),
}
