//! Rows whose empty cells are counted: what a change and a step of one row come to, read off what they say of it.
#![tactic(auto)]

mod cross;
mod laws;
mod over;
mod reading;

pub use cross::cross_row;
pub use laws::{
    document_rows_are_crossed, document_rows_go_over, pieces_are_counted, rows_are_crossed,
    rows_go_over, shown_rows_go_over,
};
pub use over::over_row;
pub use reading::{Listed, Reading, Thin};
