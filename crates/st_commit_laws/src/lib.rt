//! Each commit of a world can be told in a text.
#![tactic(auto)]

mod laws;

pub use laws::{
    commits_begin_tellable, commits_go_on_tellable, lines_bring_short_leaves,
    opening_rows_are_short,
};
