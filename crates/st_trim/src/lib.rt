//! Steps out of listings that name more nodes than is asked: which nodes such a listing may name, and what is said of those
//! alone that the step mentions, as laws and as running code.
#![tactic(auto)]

mod coverings;
mod differing;
mod places;
mod rows;
mod sets;
mod trimming;

pub use coverings::{
    effects_are_covered, steps_in_turn_are_covered, trimmed_listings_are_steps,
    ways_back_are_covered,
};
pub use trimming::trim_step;
