//! General lemmas on the standard library's words, which the proofs of the crates above share.
#![tactic(auto)]
