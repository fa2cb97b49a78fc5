//! Changes carried over steps: cases that were worked by hand, and random ones beside documents.
#![tactic(auto)]

#[cfg(test)]
mod cases;
#[cfg(test)]
mod random;
#[cfg(test)]
mod tally;
