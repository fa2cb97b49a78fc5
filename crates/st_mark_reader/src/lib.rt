//! What changes and steps list, read from JSON values, over how a name is told.
#![tactic(auto)]

mod items;
mod listed;
mod marks;
mod names;
mod op_names;
mod parts;
mod values;

pub use items::{Four, Six, four_items, two_items};
pub use listed::{NewNodes, Nodes, Nowhere, loose};
pub use marks::{Marks, Registers, Rows, field, mark};
pub use names::{Plain, ReadNames, node, occupant};
pub use op_names::{AnyOpNames, OpNames, op_id, op_number};
pub use parts::Fate;
pub use values::{ReadItem, is_named, list_member, read_list};
