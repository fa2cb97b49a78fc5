//! How a view schema relates to the schema that documents are stored under.
#![tactic(auto)]

mod compare;
mod forms;
mod laws;
mod line;
mod reached;
mod relation;
mod text;

pub use compare::{BadSchema, compare_lines};
pub use laws::{
    each_pair_is_related, each_two_lines_are_compared, equal_reads, reads_allows, related_reads,
    wider_reads,
};
pub use line::{further_cause, read_schema_line};
pub use relation::{Cause, Relation, Why, compat, reads};
pub use text::relation_line;
