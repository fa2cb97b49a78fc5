//! What no clause says of the crates of names, bytes, lines, trees and schemas: each public call once with ample memory,
//! and texts and limits that were taken from outside.
#![tactic(auto)]

#[cfg(test)]
mod ids;
#[cfg(test)]
mod io;
#[cfg(test)]
mod lines;
#[cfg(test)]
mod runs;
#[cfg(test)]
mod schema;
#[cfg(test)]
mod tree;
