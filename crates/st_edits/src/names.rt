//! What an edit may name, and which kinds of field it takes.
use st_ids::Rev;

/// The revision of a commit, and how many names it has given: to nodes and to cells.
#[derive(Clone, Copy, Debug, PartialEq, Eq)]
pub struct NameCounters {
    pub rev: Rev,
    pub nodes: u32,
    pub cells: u32,
}

/// Which kinds of field an edit takes: rows; rows and optional fields; optional and required fields; optional fields.
#[derive(Clone, Copy)]
pub enum Takes {
    Row,
    Open,
    Single,
    Optional,
}
