//! Whether a commit moves nodes as a schema allows: nodes whose makers it knew, and out of required fields alone where these
//! are filled again.
#![tactic(auto)]

mod cleared;
mod known;
mod leaving;
mod passes;

pub use cleared::cleared_are_filled;
pub use known::{clear_makers_known, put_makers_known};
pub use leaving::leaves_homes_well;
pub use passes::passes_schema;
