//! The world as lists: what the answers are defined by.

use st_clusters::IdRange;
use st_ids::{List, Rev, Text};
use st_marks::Intent;

/// The log, and the clients in the order of their joins.
#[derive(Drop)]
pub struct WorldState {
    pub log: List<Entry>,
    pub clients: List<Client>,
}

/// An entry of the log. `n` is its number, counted from 1.
#[derive(Drop)]
pub struct Entry {
    pub n: u32,
    pub session: u32,
    pub body: Body,
}

/// What an entry says, or a text that waits to become one. A join tells the UUID of its session. A reference is the number
/// of entries that its author had received. A commit carries the ids that its session has generated since its last text.
#[derive(Drop)]
pub enum Body {
    Join {
        uuid: u128,
    },
    Leave,
    Ack {
        reference: u32,
    },
    Commit {
        reference: u32,
        ids: IdRange,
        intent: Intent,
    },
}

/// A transaction that is open: the revision of its commit, the schema's revision that it is made under, what was edited in
/// it so far, as one intent, and how many numbers of nodes and of cells its edits have given.
#[derive(Drop)]
pub struct Transaction {
    pub rev: Rev,
    pub under: Rev,
    pub joined: Option<Intent>,
    pub nodes: u32,
    pub cells: u32,
}

/// A branch: it stands on the commits of so many entries of the log and then on those of its base, which were its parent's
/// when it was made or brought up to date, and has commits of its own. The parent is a branch with a lesser number, or the
/// main one, 0.
#[derive(Drop)]
pub struct Branch {
    pub number: u32,
    pub parent: u32,
    pub received: u32,
    pub base: List<Intent>,
    pub own: List<Intent>,
    pub transaction: Option<Transaction>,
}

/// A client: the UUID of its session, whether it is connected, how many entries it received, how many ids it generated, how
/// many of these its texts have taken, the commits of its main line that it has not received back, the transaction that is
/// open there, the texts that are not in the log yet, how many numbers of branches it gave, and its branches in the order of
/// their numbers.
#[derive(Drop)]
pub struct Client {
    pub name: Text,
    pub session: u32,
    pub uuid: u128,
    pub connected: bool,
    pub received: u32,
    pub ids: u32,
    pub taken: u32,
    pub pending: List<Intent>,
    pub transaction: Option<Transaction>,
    pub queue: List<Body>,
    pub forks: u32,
    pub branches: List<Branch>,
}
