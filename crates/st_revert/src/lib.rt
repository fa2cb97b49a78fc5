//! Taking a step back: the change that does it, and what stays of the step then.
#![tactic(auto)]

mod making;
mod reversal;

pub use making::makings;
pub use reversal::revert;
