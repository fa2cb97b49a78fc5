//! Whether what a commit makes and puts somewhere keeps to a schema: the types of its new nodes, their required fields, and
//! the fields into which it puts nodes.
#![tactic(auto)]

mod fields;
mod filled;
mod finds;
mod types;

pub use fields::{go_well, is_required_field};
pub use filled::are_filled;
pub use finds::put_in;
pub use types::have_types;
