//! What is counted of a load.

/// What is counted of a load: the entries of the log, whether all clients show the same at the end, how many steps were drawn
/// and how many of them refused, and how many commits of the log are void.
#[derive(Clone, Copy)]
pub struct Tally {
    pub entries: u64,
    pub equal: bool,
    pub refused: u32,
    pub steps: u32,
    pub voided: u64,
}
