//! What occurs in the rounds, so that it can be seen that they try what they are for.

/// How many rounds fit, how many of them come out wrongly, and in how many:
/// - the change and the step pass each other, so that only counts rise, or they don't
/// - the change is void, before the step or after it
/// - it is sound before the step and void after it, or the other way round
///
/// And how many steps were applied to forests, and after how many a forest isn't the document.
#[derive(Debug, Drop)]
pub struct Tally {
    pub fit: u32,
    pub wrong: u32,
    pub passed: u32,
    pub met: u32,
    pub void: u32,
    pub turned: u32,
    pub applied: u32,
    pub apart: u32,
}

/// Counts what is so.
pub fn add(count: &mut u32, so: bool) {
    if so {
        *count = count.saturating_add(1);
    }
}

impl Tally {
    pub fn new() -> Tally {
        Tally {
            fit: 0,
            wrong: 0,
            passed: 0,
            met: 0,
            void: 0,
            turned: 0,
            applied: 0,
            apart: 0,
        }
    }

    /// Whether each thing occurred so many times.
    pub fn has_each(&self, least: u32) -> bool {
        self.passed >= least && self.met >= least && self.void >= least && self.turned >= least
    }
}
