//! The puts of a change, in the order of their nodes.
ghost use Rattle.std.specs.Prelude.{◌≡◌, ◌++◌, ◌∷◌, [], IfOk, OnOk};
ghost use Rattle.std.specs.BTreeMap.{get};
ghost use Rattle.st_ids.specs.Listing.{IsRising};
ghost use Rattle.st_ids.specs.Order.{node_cmp};
ghost use Rattle.st_ids.specs.declared.names.NodeId.{NodeId as Node};
ghost use Rattle.st_marks.specs.declared.intents.Intent.{Intent};
ghost use Rattle.st_marks.specs.declared.intents.Put.{Put as PutOf};
ghost use Rattle.st_marks.specs.Document.{Document, IsSoundInForm};
ghost use Rattle.st_marks.specs.Intent.{Fits, put_of};
ghost use Rattle.st_mention_laws.specs.Shown.{Shows};
ghost use Rattle.st_meaning.specs.inside.Made.{put_by};

use st_ids::{Copied, List, NodeId};
use st_marks::{Change, Put, To};
use st_puts::puts_of;
use std::alloc::{AllocError, Global};
use std::collections::BTreeMap;

// Puts a put behind others.
fn push_put(alloc: Global, puts: &mut List<Put>, node: NodeId, to: &To) -> Result<(), AllocError>
    ensures { OnOk result (puts.new ≡ puts.old ++ record { node = node; to = to.now } ∷ []) }
{
    let to = to.copy(alloc)?;
    puts.push(Put { node, to })?;
    Ok(())
}

// The puts of a map.
fn listed(alloc: Global, map: &BTreeMap<NodeId, To>) -> Result<List<Put>, AllocError>
    ensures found { IfOk result (λ ps. (n : Node) → put_by ps n ≡ get node_cmp map.now n) }
    ensures rising { IfOk result (IsRising node_cmp (λ (p : PutOf). p.node)) }
{
    let mut puts = List::new(alloc);
    for (node, to) in map.iter() {
        push_put(alloc, &mut puts, *node, to)?;
    }
    Ok(puts)
}

/// Where a change puts nodes.
pub fn listed_puts(alloc: Global, change: &Change) -> Result<List<Put>, AllocError>
    ensures found { (D : Document) (N : Intent) → IsSoundInForm D → Fits D N → Shows D N change.now
        → IfOk result (λ ps. (n : Node) → put_by ps n ≡ put_of N n) }
    ensures rising { IfOk result (IsRising node_cmp (λ (p : PutOf). p.node)) }
{
    let map = puts_of(alloc, change)?;
    listed(alloc, &map)
}
