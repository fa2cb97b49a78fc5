//! Laws on changes and steps whose empty cells are named or counted.
#![tactic(auto)]

mod laws;

pub use laws::{
    listed_ones_are_whole, one_is_read, read_ones_are_counted, reading_again_tells_no_more,
};
