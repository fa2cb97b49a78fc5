//! What is shown after an undo, and after a transaction.
#![tactic(auto)]

mod laws;

pub use laws::{
    last_undoing_is_seen, transactions_are_seen, transactions_are_sound, undoing_is_seen,
    ways_back_are_seen,
};
