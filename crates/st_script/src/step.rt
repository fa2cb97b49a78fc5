//! The steps of a trace.

use st_ids::{Key, List, Path, Rev, Text};
use st_schema::Schema;
use st_tree::Tree;

/// One step of one client, on one of its branches. Where the act names no branch, it is 0, the main
/// one.
#[derive(Drop)]
pub struct TraceStep {
    pub client: Text,
    pub branch: u32,
    pub act: Act,
}

/// What a step does.
#[derive(Drop)]
pub enum Act {
    /// The UUID of the session is told, or made of its number.
    Join { uuid: Option<u128> },
    Edit(EditAct),
    /// The open transaction needs the node that the path leads to.
    Need { at: Path },
    /// Opens a transaction.
    Begin,
    /// Makes the edits and needs of the open transaction one commit.
    Commit,
    /// Gives the open transaction up.
    Abort,
    /// Makes a branch that begins where the step's branch stands.
    Fork,
    /// Sets the branch on where its parent stands.
    Rebase,
    /// Adds the commits of the branch to its parent, and ends the branch.
    Merge,
    /// Ends the branch, with its commits.
    DropBranch,
    /// Takes back what the client's own commit of the revision did.
    Undo { rev: Rev },
    /// Widens the schema of the tree to this one.
    Upgrade { schema: Schema },
    Sequence,
    /// Sends which entries of the log the client has received.
    Ack,
    Deliver,
    /// Ends the session: the client is forgotten, and its name is free.
    Leave,
    /// Cuts the connection: the client stays, and loses the texts that it has not sent.
    Drop,
    /// Connects a client again that was dropped.
    Reconnect,
    Show,
    /// Tells the client's pending commits, each as the change that it is where it stands.
    Pending,
}

/// An edit of the tree that the client shows on the branch. A path leads from the root to a node,
/// whose field under the key is meant.
#[derive(Drop)]
pub enum EditAct {
    Insert {
        at: Path,
        key: Key,
        index: u32,
        items: List<Tree>,
    },
    Remove {
        at: Path,
        key: Key,
        index: u32,
        count: u32,
    },
    Move {
        at: Path,
        key: Key,
        index: u32,
        count: u32,
        to: Path,
        to_key: Key,
        to_index: u32,
    },
    Set {
        at: Path,
        key: Key,
        item: Tree,
    },
    Clear {
        at: Path,
        key: Key,
    },
}
