//! What a schema says of a type, and why something does not fit it.

use st_ids::{Key, List, Text};

/// How many items a field has.
#[derive(Clone, Copy, Debug, PartialEq, Eq)]
pub enum KindName {
    /// One item.
    Required,
    /// At most one item.
    Optional,
    /// A row of items.
    Sequence,
}

/// What a field may hold.
#[derive(Debug, Drop, PartialEq, Eq)]
pub struct FieldRule {
    pub kind: KindName,
    pub types: List<Text>,
}

/// A declared field of an object type.
#[derive(Debug, Drop, PartialEq, Eq)]
pub struct FieldDef {
    pub key: Key,
    pub kind: KindName,
    pub types: List<Text>,
}

/// What the definition of a type says.
#[derive(Debug, Drop, PartialEq, Eq)]
pub enum Form {
    /// One row, under the empty key, of items of these types.
    Array(List<Text>),
    /// At most one item of these types under each key of 1 to 64 bytes.
    Map(List<Text>),
    /// The declared fields, in rising order of their keys.
    Object(List<FieldDef>),
}

/// The preorder number, from 0, of the first node that a schema does not allow.
#[derive(Clone, Copy, Debug, PartialEq, Eq)]
pub struct NotAllowed {
    pub at: u32,
}

/// The number, from 0, of the first old type that fails, or the count of old types where only the
/// root's list does.
#[derive(Clone, Copy, Debug, PartialEq, Eq)]
pub struct NotWider {
    pub at: u32,
}
