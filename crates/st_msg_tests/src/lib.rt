//! Tests of messages.
#![tactic(auto)]

#[cfg(test)]
mod messages;
