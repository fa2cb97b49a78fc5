//! Tests of the readers of changes and steps, and of the writer of changes.
#![tactic(auto)]

#[cfg(test)]
mod changes;
#[cfg(test)]
mod steps;
#[cfg(test)]
mod writing;
