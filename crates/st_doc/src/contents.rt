//! All that a document has, name by name.
ghost use Rattle.std.specs.Prelude.{◌≡◌, ◌↔◌, ◌++◌, ◌∷◌, [], IfOk, OnOk, IsSome, option_and_then};
ghost use Rattle.std.specs.Option.{option_copied};
ghost use Rattle.st_ids.specs.Listing.{AreDistinct, Has};
ghost use Rattle.st_ids.specs.declared.names.FieldId.{FieldId as Field};
ghost use Rattle.st_ids.specs.declared.names.NodeId.{NodeId as Node};

use crate::doc::Doc;
use crate::rows::cells_of;
use st_ids::{Copied, FieldId, Leaf, List, NodeId};
use st_marks::{Owned, SchemaEntry};
use std::alloc::{AllocError, Global};

// Puts a copy of a field behind others.
fn push_field(alloc: Global, fields: &mut List<FieldId>, field: &FieldId) -> Result<(), AllocError>
    ensures { OnOk result (fields.new ≡ fields.old ++ field.now ∷ []) }
{
    let field = field.copy(alloc)?;
    fields.push(field)?;
    Ok(())
}

impl Doc {
    ghost use Rattle.st_doc.specs.Doc.{document_of};

    /// All nodes, each once, in the order of their names.
    pub fn nodes(&self, alloc: Global) -> Result<List<NodeId>, AllocError>
        ensures all { IfOk result (λ ns. (n : Node) → Has ns n ↔ IsSome ((document_of self.now).nodes n)) }
        ensures once { IfOk result (λ ns. AreDistinct (λ n. n) ns) }
    {
        let mut nodes = List::new(alloc);
        for (node, _) in self.nodes.iter() {
            nodes.push(*node)?;
        }
        Ok(nodes)
    }

    /// All registers in which a node stands, in the order of their names.
    pub fn occupied_registers(&self, alloc: Global) -> Result<List<FieldId>, AllocError>
        ensures { IfOk result (λ fs. (f : Field) → Has fs f ↔ IsSome ((document_of self.now).held f)) }
    {
        let mut fields = List::new(alloc);
        for (field, _) in self.held.iter() {
            push_field(alloc, &mut fields, field)?;
        }
        Ok(fields)
    }

    /// The leaf of a node, if it is there and has one.
    pub fn leaf_of(&self, node: NodeId) -> Option<&Leaf>
        ensures { option_copied result ≡ option_and_then (λ t. t.leaf) ((document_of self.now).nodes node) }
    {
        self.nodes.get(&node)?.leaf.as_ref()
    }

    /// All cells ever made in a node's row, with their owners, in their order.
    pub fn cells(&self, node: NodeId) -> &[Owned]
        ensures { result.now ≡ (document_of self.now).rows node }
    {
        cells_of(&self.rows, node)
    }

    /// The schema entries in effect, in their order.
    pub fn schemas(&self) -> &[SchemaEntry]
        ensures { result.now ≡ (document_of self.now).schemas }
    {
        self.schemas.as_slice()
    }
}
