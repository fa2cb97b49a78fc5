//! What no clause says of the relation of schemas: each public call once with ample memory, and lines that were taken from
//! outside.
#![tactic(auto)]

#[cfg(test)]
mod relations;
