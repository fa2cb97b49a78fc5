//! The schemas in effect, and how their list changes.

use st_ids::{List, Rev, Text};

/// A schema in effect, under the revision of the commit that brought it.
#[derive(Drop, PartialEq, Eq)]
pub struct SchemaEntry {
    pub rev: Rev,
    pub text: Text,
}

/// Behind the entry of `on`, the last that both lists share: the entries that go, and those that come.
#[derive(Drop, PartialEq, Eq)]
pub struct SchemaStep {
    pub on: Rev,
    pub cut: List<SchemaEntry>,
    pub add: List<SchemaEntry>,
}
