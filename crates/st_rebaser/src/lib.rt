//! What a client needs of the algebra, as a trait whose calls have the theorems over documents as their contracts; and lists of
//! changes in turn carried over a step, whatever the algebra is.
#![tactic(auto)]

mod push;
mod rebaser;

pub use push::push_through;
pub use rebaser::{Carrier, Effected, Rebaser};
