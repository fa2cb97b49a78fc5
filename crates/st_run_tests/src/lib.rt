//! What no clause says of the lines of a trace, its world and a run: each public call once with ample memory, lines that
//! are no steps, and an outside that fails. Whole traces stand as data in the crate `scenarios`.
#![tactic(auto)]

#[cfg(test)]
mod limits;
#[cfg(test)]
mod load;
#[cfg(test)]
mod outside;
#[cfg(test)]
mod script;
#[cfg(test)]
mod world;
