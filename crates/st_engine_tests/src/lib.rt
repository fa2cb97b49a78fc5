//! What no clause says of the engine's calls: that there is an answer, with ample memory.
#![tactic(auto)]

#[cfg(test)]
mod calls;
#[cfg(test)]
mod forests;
#[cfg(test)]
mod pushes;
#[cfg(test)]
mod readings;
#[cfg(test)]
mod rebases;
#[cfg(test)]
mod row_steps;
