//! The nodes that the intent of a change mentions after a step.
ghost use Rattle.std.specs.Prelude.{◌≡◌, IfOk};
ghost use Rattle.std.specs.BTreeSet.{contains};
ghost use Rattle.st_ids.specs.Order.{node_cmp};
ghost use Rattle.st_marks.specs.declared.intents.Intent.{Intent};
ghost use Rattle.st_marks.specs.Document.{Document};
ghost use Rattle.st_marks.specs.Extends.{IsExtendedBy};
ghost use Rattle.st_marks.specs.Intent.{Fits};
ghost use Rattle.st_mention_laws.specs.Shown.{Shows};
ghost use Rattle.st_puts.specs.Mentions.{AreMentions, PlacesMentioned, above_in};
ghost use Rattle.st_climb.specs.Upwards.{AreUpwards};

use crate::names::named_before;
use st_climb::Above;
use st_ids::NodeId;
use st_marks::{Change, Spot};
use std::alloc::{AllocError, Global};
use std::collections::{BTreeMap, BTreeSet};

/// A table of places.
#[derive(Drop)]
struct Places<'a> {
    places: &'a BTreeMap<NodeId, Spot>,
}

impl<'a> Above for Places<'a> {
    ghost use Rattle.std.specs.BTreeMap.{keys};
    ghost use Rattle.st_ids.specs.Listing.{Has};
    ghost use Rattle.st_ids.specs.declared.names.NodeId.{NodeId as Node};
    ghost use Rattle.st_puts.specs.Mentions.{above_in};
    ghost use Rattle.std.specs.Prelude.{◌≡◌, Some};

    ghost up = { λ p. above_in p.places.now };

    ghost lower = { λ p. keys p.places.now };

    fn above(&self, node: NodeId) -> Option<NodeId>
        ensures { result ≡ above_in self.now.places.now node }
    {
        match self.places.get(&node) {
            Some(Spot::Row { node: row, .. }) => Some(*row),
            Some(Spot::Register(field)) => Some(field.node),
            _ => None,
        }
    }

    fn has_lower()
        ensures { (p : Places) (n m : Node) → above_in p.places.now n ≡ Some m → Has (keys p.places.now) n }
    {}
}

/// Some nodes and all above them, where a table tells places. Each node is visited once.
pub fn upwards(
    alloc: Global,
    places: &BTreeMap<NodeId, Spot>,
    begins: &BTreeSet<NodeId>,
) -> Result<BTreeSet<NodeId>, AllocError>
    ensures { IfOk result (λ s. AreUpwards (above_in places.now) (contains node_cmp begins.now) (contains node_cmp s)) }
{
    st_climb::upwards(alloc, &Places { places }, begins)
}

/// The nodes that the intent of a change mentions after a step, read off the change's marks, where `places` tells where they
/// stand there.
pub fn mentioned_after(
    alloc: Global,
    change: &Change,
    places: &BTreeMap<NodeId, Spot>,
) -> Result<BTreeSet<NodeId>, AllocError>
    ensures { (D E : Document) (N : Intent) → IsExtendedBy D E → Fits D N → Fits E N
        → Shows D N change.now → PlacesMentioned E N places.now
        → IfOk result (λ s. AreMentions E N (contains node_cmp s)) }
{
    let names = named_before(alloc, change)?;
    upwards(alloc, places, &names)
}
