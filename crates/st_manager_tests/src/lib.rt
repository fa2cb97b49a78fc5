//! A manager beside documents that are drawn at random, by both carriers, and a few entries worked out by hand.
#![tactic(auto)]

#[cfg(test)]
mod changes;
#[cfg(test)]
mod checks;
#[cfg(test)]
mod exchange;
#[cfg(test)]
mod pages;
#[cfg(test)]
mod plain;
#[cfg(test)]
mod rounds;
#[cfg(test)]
mod shop;
#[cfg(test)]
mod tally;
#[cfg(test)]
mod views;
#[cfg(test)]
mod windows;
