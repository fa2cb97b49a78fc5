//! A change and a step over each other by both carriers, and a forest that goes along steps, beside documents that are drawn at
//! random.
#![tactic(auto)]

#[cfg(test)]
mod carries;
#[cfg(test)]
mod forests;
#[cfg(test)]
mod rounds;
#[cfg(test)]
mod tally;
