//! A document as tables: of each node what it is and where it stands, and of each row its slots.
#![tactic(auto)]

mod apply;
mod copy;
mod forest;
mod laws;
mod maps;
mod reads;
mod row_step;
mod seats;

pub use forest::{Forest, Seated};
pub use laws::one_document;
pub use row_step::apply_row;
