//! A change over a step and the step over the change, at once, with empty cells named or counted; and the other calls of the
//! algebra for both.
#![tactic(auto)]

mod both;
mod calls;
mod carriers;
mod found;
mod listed;
mod listing;
mod loose;
mod over;
mod thin;

pub use both::carry;
pub use carriers::{ListedCarrier, ThinCarrier};
