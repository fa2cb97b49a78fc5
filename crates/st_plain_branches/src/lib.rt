//! What a client does with its branches: it begins one, brings one up to date, merges one, or drops one.
#![tactic(auto)]

mod branches;

pub use branches::{
    Ground, LineState, drop_branch, fork, head_of, line_state, merge, rebase, void_revs,
};
