//! A cursor.
ghost use Rattle.std.specs.Prelude.{◌≡◌, ◌↔◌, ◌<◌, ◌^◌, [], ◌∷◌, ◌++◌, length, map, None, Ok, Err, Some, is_some, IfOk, IfSome, IsErr, OnOk, OnErr};
ghost use Rattle.st_cursor.specs.At.{EntersItem, GoesOn, GoesOut, HasNoField, HasNoItem, HasNoneBehind, IsAtLast, IsBehind, IsIn, node_of, place_at};
ghost use Rattle.st_cursor.specs.declared.hops.Hop.{Hop as OneHop};
ghost use Rattle.st_edits.specs.Resolve.{rule_at, walk};
ghost use Rattle.st_forest.specs.Stands.{StandsFor};
ghost use Rattle.st_ids.specs.Or.{IfRefused};
ghost use Rattle.st_marks.specs.Document.{Document};
ghost use Rattle.st_tree.specs.declared.edit.EditFault.TheVariants.{NoNode as NoSuchNode};

use crate::finding::item_at;
use crate::hops::{Hop, above, end_of, path_of, set_last};
use crate::walking::{NoNode, hop_behind, way_down};
use st_chunks::Range;
use st_forest::Forest;
use st_ids::{Copied, Key, List, NodeId, Or, Path, Place};
use st_schema::Schema;
use std::alloc::{AllocError, Global};

/// The node has no such field by the schema, or the cursor is in a field.
#[derive(Clone, Copy, Debug, PartialEq, Eq)]
pub struct NoField;

/// There is nothing above the root.
#[derive(Clone, Copy, Debug, PartialEq, Eq)]
pub struct AtRoot;

/// A place in the tree that a forest shows: at a node, or in a field of a node. The forest isn't changed while it is gone through.
/// Calls that take memory take it for the names of their places.
#[derive(Drop)]
pub struct Cursor<'a> {
    pub forest: &'a Forest,
    pub schema: &'a Schema,
    pub hops: List<Hop>,
    pub field: Option<Key>,
}

impl<'a> Cursor<'a> {
    /// That at the root; `schema` is the one that is in effect.
    pub fn new(alloc: Global, forest: &'a Forest, schema: &'a Schema) -> Cursor<'a>
        ensures at { (D : Document) → StandsFor forest.now D → IsIn D result }
        ensures root { (result.hops ≡ []) × (result.field ≡ None) }
        ensures over { (result.forest.now ≡ forest.now) × (result.schema.now ≡ schema.now) }
    {
        Cursor {
            forest,
            schema,
            hops: List::new(alloc),
            field: None,
        }
    }

    /// The node at which it stands, or in whose field it is.
    pub fn node(&self) -> NodeId
        ensures { result ≡ node_of self.now }
    {
        end_of(self.hops.as_slice())
    }

    /// The path of that node: it leads back there.
    pub fn path(&self, alloc: Global) -> Result<Path, AllocError>
        ensures places { IfOk result (λ p. p ≡ map (λ (h : OneHop). h.place) self.now.hops) }
        ensures back { IfOk result (λ p. (D : Document) → IsIn D self.now
            → walk D p ≡ Ok (node_of self.now)) }
    {
        let path = path_of(alloc, self.hops.as_slice())?;
        Ok(path)
    }

    // Whether its node has a field by the schema.
    fn has_field(&self, alloc: Global, key: &Key) -> Result<bool, AllocError>
        ensures { IfOk result (λ b. (D : Document) → IsIn D self.now
            → b ≡ is_some (rule_at D self.now.schema.now (node_of self.now) key.now)) }
    {
        match self.forest.node(self.node()) {
            None => Ok(false),
            Some(node) => {
                let rule = self.schema.field(alloc, &node.ty, key)?;
                Ok(rule.is_some())
            }
        }
    }

    /// From a node into its field under a key, which is empty for the row. After an `Err` it is where it was.
    pub fn enter_field(&mut self, alloc: Global, key: &Key) -> Result<(), Or<NoField>>
        ensures entered { OnOk result (self.new ≡ record self.old { field = Some key.now }) }
        ensures has { OnOk result ((D : Document) → IsIn D self.old
            → HasNoField D self.old key.now → ⊥) }
        ensures no_field { IfRefused result (λ _. (D : Document) → IsIn D self.old
            → HasNoField D self.old key.now) }
        ensures kept { OnErr result (self.new ≡ self.old) }
    {
        if self.field.is_some() {
            return Err(Or::Fault(NoField));
        }
        if !self.has_field(alloc, key)? {
            return Err(Or::Fault(NoField));
        }
        self.field = Some(key.copy(alloc)?);
        Ok(())
    }

    // To the item of a key and an index, one more hop.
    fn hop_down(&mut self, key: Key, index: u32, node: NodeId) -> Result<(), AllocError>
        ensures goes { OnOk result (self.new ≡ record self.old { hops = self.old.hops ++ (record { place = place_at key index; node = node }) ∷ []; field = None }) }
        ensures kept { OnErr result (self.new ≡ self.old) }
    {
        let place = Place { key, index };
        self.hops.push(Hop { place, node })?;
        self.field = None;
        Ok(())
    }

    /// From a field to its item of an index. After an `Err` it is where it was.
    pub fn enter_node(&mut self, alloc: Global, index: u32) -> Result<(), Or<Range>>
        ensures entered { OnOk result ((D : Document) → IsIn D self.old → EntersItem D self.old index self.new) }
        ensures at { OnOk result ((D : Document) → IsIn D self.old → IsIn D self.new) }
        ensures range { IfRefused result (λ _. (D : Document) → IsIn D self.old → HasNoItem D self.old index) }
        ensures kept { OnErr result (self.new ≡ self.old) }
    {
        let key = match &self.field {
            None => return Err(Or::Fault(Range)),
            Some(key) => key.copy(alloc)?,
        };
        match item_at(alloc, self.forest, self.node(), &key, index as u64)? {
            None => Err(Or::Fault(Range)),
            Some(node) => {
                self.hop_down(key, index, node)?;
                Ok(())
            }
        }
    }

    // The hop to the item behind its last hop's, in the same field, if there is one.
    fn next_hop(&self, alloc: Global) -> Result<Option<Hop>, AllocError>
        ensures none { IfOk result (λ o. o ≡ None → (D : Document) → IsIn D self.now → HasNoneBehind D self.now.hops) }
        ensures some { IfOk result (λ o. IfSome o (λ h. (D : Document) → IsIn D self.now → IsBehind D self.now.hops h)) }
    {
        match self.hops.as_slice().last() {
            None => Ok(None),
            Some(last) => hop_behind(alloc, self.forest, above(self.hops.as_slice()), &last.place),
        }
    }

    /// From an item to the one behind it in the same field. After an `Err` it is where it was.
    pub fn next(&mut self, alloc: Global) -> Result<(), Or<Range>>
        ensures goes { OnOk result ((D : Document) → IsIn D self.old → GoesOn D self.old self.new) }
        ensures at { OnOk result ((D : Document) → IsIn D self.old → IsIn D self.new) }
        ensures range { IfRefused result (λ _. (D : Document) → IsIn D self.old → IsAtLast D self.old) }
        ensures kept { OnErr result (self.new ≡ self.old) }
    {
        if self.field.is_some() {
            return Err(Or::Fault(Range));
        }
        match self.next_hop(alloc)? {
            None => Err(Or::Fault(Range)),
            Some(hop) => {
                set_last(&mut self.hops, hop);
                Ok(())
            }
        }
    }

    /// From an item to its field, and from a field to its node.
    pub fn exit(&mut self) -> Result<(), AtRoot>
        ensures out { OnOk result (GoesOut self.old self.new) }
        ensures at { OnOk result ((D : Document) → IsIn D self.old → IsIn D self.new) }
        ensures at_root { IsErr result ↔ ((self.old.hops ≡ []) × (self.old.field ≡ None)) }
        ensures kept { OnErr result (self.new ≡ self.old) }
    {
        if self.field.is_some() {
            self.field = None;
            return Ok(());
        }
        match self.hops.pop() {
            None => Err(AtRoot),
            Some(hop) => {
                self.field = Some(hop.place.key);
                Ok(())
            }
        }
    }

    /// To the end of a path from the root. After an `Err` it is where it was.
    pub fn seek(&mut self, alloc: Global, path: &Path) -> Result<(), Or<NoNode>>
        requires { length path.now < 2 ^ 32 }
        ensures places { OnOk result (map (λ (h : OneHop). h.place) self.new.hops ≡ path.now) }
        ensures at_node { OnOk result (self.new ≡ record self.old { hops = self.new.hops; field = None }) }
        ensures at { OnOk result ((D : Document) → IsIn D self.old → IsIn D self.new) }
        ensures no_node { IfRefused result (λ f. (D : Document) → IsIn D self.old
            → walk D path.now ≡ Err (NoSuchNode f.depth)) }
        ensures kept { OnErr result (self.new ≡ self.old) }
    {
        self.hops = way_down(alloc, self.forest, path)?;
        self.field = None;
        Ok(())
    }
}
