//! Schemas read back from their texts, once each, and those in effect up to one.
#![tactic(auto)]

mod effect;
mod follow;
mod known;
mod laws;
mod text;

pub use effect::{front_to, has_room_for_schema, text_at};
pub use follow::may_follow;
pub use known::KnownSchemas;
pub use laws::{one_front, one_schema};
pub use text::read_schema;
