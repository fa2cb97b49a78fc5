//! Tests of the readers of requests and of changes in op space, and of the lines of answers.
#![tactic(auto)]

#[cfg(test)]
mod op_space;
#[cfg(test)]
mod requests;
