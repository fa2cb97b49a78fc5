//! Messages of sessions: the entries of the log, as JSON values.
#![tactic(auto)]

mod form;
mod laws;
mod parts;

pub use form::{Form, Said, read_form};
pub use laws::messages_are_read_back;
