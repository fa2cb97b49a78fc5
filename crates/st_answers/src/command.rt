//! The commands of a program.

/// What is asked for.
#[derive(Clone, Copy)]
pub enum Command {
    /// The answers to a header and steps.
    Trace,
    /// The answers to a header and messages, and the tree to which they lead.
    Replay,
    /// The relation of two schemas.
    Compat,
    /// The answers to requests to the algebra of changes.
    Algebra,
}
