//! The JSON form of changes.
#![tactic(auto)]

mod change;
mod marks;
mod names;
mod schema;

pub use change::{change_text, change_value};
pub use schema::schema_text;
