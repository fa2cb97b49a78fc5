//! What a window is of a log, and how it stays so as the log grows and the floor rises: laws.
#![tactic(auto)]

mod laws;

pub use laws::{
    commits_are_found, floors_never_fall, minima_never_fall, one_window, windows_begin,
    windows_pass_others, windows_rise, windows_take_commits,
};
