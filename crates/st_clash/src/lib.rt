//! The fields that the rules on cells and on schemas name, where a change and a step clash; whether two listings of a row show
//! the same; and the least of some fields.
#![tactic(auto)]

mod bad;
mod cells;
mod fields;
mod made;
mod named;
mod naming;
mod owners;
mod push;
mod revisions;
mod schemas;
mod search;
mod seen;
mod twice;
mod walk;

pub use cells::push_cells;
pub use fields::{are_in_order, least_field, row_field};
pub use named::{Named, place_of, rise};
pub use owners::is_same_owner;
pub use push::push_if_some;
pub use schemas::have_schemas;
pub use walk::shows_same;
