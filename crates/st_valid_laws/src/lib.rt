//! Which messages are valid at a log, and what such logs keep: definitions, and laws about them.
#![tactic(auto)]

mod laws;

pub use laws::{
    log_tests_come_first, messages_are_judged_once, minimum_is_told, one_meaning_keeps_for_all,
    valid_logs_are_in_order, valid_logs_fit, values_are_judged_as_messages,
};
