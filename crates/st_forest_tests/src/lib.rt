//! Whether steps stand over small documents.
#![tactic(auto)]

#[cfg(test)]
mod document;
#[cfg(test)]
mod over;
#[cfg(test)]
mod steps;
