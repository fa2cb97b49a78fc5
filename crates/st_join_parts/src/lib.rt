//! Two parts of one commit as one change, or the least field at which they don't agree.
#![tactic(auto)]

mod agreement;
mod clashes;
mod joined;
mod needed;
mod parts;
mod rising;

pub use agreement::agree_parts;
pub use clashes::clashes_of_parts;
pub use joined::join;
pub use parts::can_be_parts;
