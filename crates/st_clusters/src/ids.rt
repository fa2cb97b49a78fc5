//! What ids, ranges of ids and clusters are.

/// Some ids of a session that follow one another, from `first` on.
#[derive(Clone, Copy, PartialEq, Eq)]
pub struct IdRange {
    pub session: u32,
    pub first: u32,
    pub count: u32,
}

/// Final numbers that follow one another, from `first_final` on, for the ids of a session from
/// `first` on. `used` of its `capacity` numbers are given.
#[derive(Clone, Copy, PartialEq, Eq)]
pub struct Cluster {
    pub session: u32,
    pub first: u32,
    pub first_final: u64,
    pub capacity: u64,
    pub used: u32,
}

/// The UUID of a session, and how many ids it has generated, taken and finalised.
#[derive(Clone, Copy, PartialEq, Eq)]
pub struct SessionIds {
    pub uuid: u128,
    pub generated: u32,
    pub taken: u32,
    pub finalised: u32,
}

/// Why a call is refused.
#[derive(Clone, Copy, Debug, PartialEq, Eq)]
pub enum IdFault {
    /// There is no such session.
    Session,
    /// The session has 4,294,967,294 ids.
    Full,
    /// The range doesn't begin at `next`, or passes 4,294,967,294.
    RangeOrder { next: u32 },
    /// The version of the UUID isn't 4, or its variant isn't that of RFC 9562.
    NotV4,
    /// The span of 2^32 stable ids meets that of an earlier session.
    Clash { session: u32 },
}

/// There is no such id.
#[derive(Clone, Copy, Debug, PartialEq, Eq)]
pub struct Unknown;
