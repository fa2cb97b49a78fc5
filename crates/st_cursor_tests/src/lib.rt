//! Cursors over a small document, and its text.
#![tactic(auto)]

#[cfg(test)]
mod given;
#[cfg(test)]
mod moves;
#[cfg(test)]
mod paths;
#[cfg(test)]
mod texts;
