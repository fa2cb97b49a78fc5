//! A message as it is read beside the log, and what it may be refused for.

use st_clusters::IdRange;
use st_marks::Change;

/// A message: its number in the log, the minimum after it, its session, and what it says.
#[derive(Drop)]
pub struct Message {
    pub n: u32,
    pub min: u32,
    pub session: u32,
    pub said: Said,
}

/// What a message says: its session joins or leaves, tells how many entries it has received, or commits a change with the
/// ids that the session has generated since its last text. There is no change where one of its names has no id.
#[derive(Drop)]
pub enum Said {
    Join {
        uuid: u128,
    },
    Leave,
    Ack {
        reference: u32,
    },
    Commit {
        reference: u32,
        ids: IdRange,
        change: Option<Change>,
    },
}

/// What a message is refused for: the first test that it fails, in this order.
#[derive(Clone, Copy, Debug, PartialEq, Eq)]
pub enum ReplayCause {
    Shape,
    Sequence,
    Session,
    Window,
    RefBack,
    Ids,
    Revision,
    Limit,
    Context,
    Schema,
}
