//! What occurs in the rounds, so that it can be seen that they try what they are for.

/// How many comparisons were made, and how many of them came out wrongly, and how often:
/// - another session commits, the first own pending commit comes back, and a new one is made
/// - a session acks, leaves, and joins again
/// - a commit comes from behind, where its session hasn't received all; one is void where it comes; its verdict isn't that in the
///   document over which it was written
/// - another's commit goes through pending ones
/// - the floor rises
#[derive(Debug, Drop)]
pub struct Tally {
    pub compared: u32,
    pub wrong: u32,
    pub commits: u32,
    pub back: u32,
    pub made: u32,
    pub acks: u32,
    pub leaves: u32,
    pub again: u32,
    pub behind: u32,
    pub void: u32,
    pub turned: u32,
    pub through: u32,
    pub risen: u32,
}

/// Counts what is so.
pub fn add(count: &mut u32, so: bool) {
    if so {
        *count = count.saturating_add(1);
    }
}

impl Tally {
    pub fn new() -> Tally {
        Tally {
            compared: 0,
            wrong: 0,
            commits: 0,
            back: 0,
            made: 0,
            acks: 0,
            leaves: 0,
            again: 0,
            behind: 0,
            void: 0,
            turned: 0,
            through: 0,
            risen: 0,
        }
    }

    /// Counts a comparison.
    pub fn compare(&mut self, right: bool) {
        add(&mut self.compared, true);
        add(&mut self.wrong, !right);
    }

    // Whether each kind of entry came so many times.
    fn has_entries(&self, least: u32) -> bool {
        self.commits >= least
            && self.back >= least
            && self.made >= least
            && self.acks >= least
            && self.leaves >= least
            && self.again >= least
    }

    /// Whether each thing occurred so many times.
    pub fn has_each(&self, least: u32) -> bool {
        self.has_entries(least)
            && self.behind >= least
            && self.void >= least
            && self.turned >= least
            && self.through >= least
            && self.risen >= least
    }
}
