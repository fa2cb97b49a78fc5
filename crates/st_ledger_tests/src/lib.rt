//! What no clause says of a ledger: that each entry is taken note of, with ample memory.
#![tactic(auto)]

#[cfg(test)]
mod entries;
