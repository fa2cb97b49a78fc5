//! The difference between two documents.

use crate::changes::NewNode;
use crate::marks::{Loose, RegStep, RowMarks};
use crate::schemas::SchemaStep;
use st_ids::List;

/// What differs between a document and one that extends it. All lists rise by name.
#[derive(Drop, PartialEq, Eq)]
pub struct Step {
    pub new: List<NewNode>,
    pub rows: List<RowMarks>,
    pub regs: List<RegStep>,
    pub loose: List<Loose>,
    pub schema: Option<SchemaStep>,
}
