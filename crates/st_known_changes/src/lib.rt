//! Changes that are known of commits before their texts are asked for.
#![tactic(auto)]

mod laws;

pub use laws::known_changes_grow;
