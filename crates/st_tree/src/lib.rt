//! Trees, the edits that speak of them, and the list of a tree's nodes under given names.
#![tactic(auto)]

mod copied;
mod edit;
mod flat;
mod limits;
mod preorder;
mod rebuild;
mod tree;

pub use edit::{Edit, EditFault};
pub use flat::{Flat, FlatAt, FlatNode};
pub use limits::{TreeFault, check, check_trees};
pub use preorder::{flatten, opening};
pub use rebuild::unflatten;
pub use tree::{Field, Tree};
