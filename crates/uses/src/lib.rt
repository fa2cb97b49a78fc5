//! Uses of the libraries, as callers write them: one short proved caller for each crate that a user calls.
#![tactic(auto)]

pub mod changes;
pub mod documents;
pub mod edits;
pub mod ids;
pub mod registers;
pub mod rows;
pub mod schemas;
pub mod tables;
