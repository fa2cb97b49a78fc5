//! Looking up what a change or a step lists.
ghost use Rattle.std.specs.Prelude.{◌≡◌, ◌↔◌, IsTrue};
ghost use Rattle.st_ids.specs.Listing.{Has};
ghost use Rattle.st_normal.specs.Rules.{HasListedField, IsFound, NodesAreFoundOnce, NodesArePutOnce, fields_of};
ghost use Rattle.st_normal.specs.inside.Rules.{how_found};

use crate::entries::Found;
use crate::index::{Index, Named};
use crate::listing::HasEntries;
use st_ids::NodeId;
use st_marks::How;
use std::alloc::Global;

/// What is listed, by its names.
#[derive(Drop)]
pub struct Look<L: HasEntries> {
    pub lists: L,
    pub found_once: bool,
    pub put_once: bool,
    new: Index<NodeId, L::Fresh>,
    found: Index<Found, L::Finds>,
    put: Index<NodeId, L::Puts>,
    fields: Index<NodeId, L::Fields>,
    ghost of_new: { L.Fresh.left new.walk ≡ (L.listed lists).new },
    ghost of_found: { L.Finds.left found.walk ≡ (L.listed lists).found },
    ghost of_put: { L.Puts.left put.walk ≡ (L.listed lists).put },
    ghost of_fields: { L.Fields.left fields.walk ≡ fields_of (L.listed lists) },
}

impl<L: HasEntries> Look<L> {
    /// All that is listed.
    pub fn of(alloc: Global, lists: L) -> Self
        ensures lists { result.lists ≡ lists }
        ensures found_once { IsTrue result.found_once ↔ NodesAreFoundOnce (L.listed lists) }
        ensures put_once { IsTrue result.put_once ↔ NodesArePutOnce (L.listed lists) }
    {
        let found = Index::of(alloc, lists.finds());
        let put = Index::of(alloc, lists.puts());
        Look {
            lists,
            found_once: found.once,
            put_once: put.once,
            new: Index::of(alloc, lists.fresh()),
            found,
            put,
            fields: Index::of(alloc, lists.fields()),
        }
    }

    /// Whether a node is new.
    pub fn is_new(&self, node: NodeId) -> bool
        ensures { IsTrue result ↔ Has (L.listed self.now.lists).new node }
    {
        self.new.has(node)
    }

    /// Whether a node is put.
    pub fn is_put(&self, node: NodeId) -> bool
        ensures { IsTrue result ↔ Has (L.listed self.now.lists).put node }
    {
        self.put.has(node)
    }

    /// Whether a field of a node is listed.
    pub fn has_field(&self, node: NodeId) -> bool
        ensures { IsTrue result ↔ HasListedField (L.listed self.now.lists) node }
    {
        self.fields.has(node)
    }

    /// Whether a node is found.
    pub fn is_found(&self, node: NodeId) -> bool
        ensures { IsTrue result ↔ IsFound (L.listed self.now.lists) node }
    {
        self.found.find(node.name()).is_some()
    }

    /// What becomes of a node, where it is found.
    pub fn how(&self, node: NodeId) -> Option<How>
        ensures { result ≡ how_found (L.listed self.now.lists) node }
    {
        let found = self.found.find(node.name())?;
        Some(found.how)
    }
}
