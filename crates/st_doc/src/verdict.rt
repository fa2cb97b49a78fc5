//! Whether an intent is sound where it comes.
ghost use Rattle.std.specs.Prelude.{◌≡◌, ◌↔◌, ◌-◌, [], true, false, map, length, slice_get, IfOk};
ghost use Rattle.std.specs.List.{list_any};
ghost use Rattle.std.specs.Option.{option_map_or};
ghost use Rattle.st_ids.specs.Listing.{Has};
ghost use Rattle.st_ids.specs.Order.{same_rev};
ghost use Rattle.st_marks.specs.declared.intents.Put.{Put as PutOf};
ghost use Rattle.st_doc.specs.inside.Ahead.{AreTargets, above_ahead, IsLeastOf, least_with};
ghost use Rattle.st_marks.specs.Document.{Reaches};

use crate::climb::ancestors_ahead;
use crate::doc::Doc;
use crate::opening::root_node;
use crate::targets::targets;
use st_ids::{List, NodeId, Rev, is_same_node, is_same_rev};
use st_intent::is_before;
use st_marks::{Intent, SchemaEntry, Spot, Verdict};
use std::alloc::{AllocError, Global};
use std::collections::BTreeMap;

// The lesser of what was least so far and a node, if it counts.
fn least_with(least: Option<NodeId>, node: NodeId, counts: bool) -> Option<NodeId>
    ensures { result ≡ least_with least node counts }
{
    if !counts {
        return least;
    }
    match least {
        None => Some(node),
        Some(other) => Some(if is_before(node, other) { node } else { other }),
    }
}

// Whether a node will be above itself.
fn is_above_itself(
    alloc: Global,
    intent: &Intent,
    targets: &BTreeMap<NodeId, Spot>,
    place: &BTreeMap<NodeId, Spot>,
    node: NodeId,
) -> Result<bool, AllocError>
    ensures { IfOk result (λ b. (b ≡ true) ↔ Reaches (above_ahead intent.now targets.now place.now) node node) }
{
    let above = ancestors_ahead(alloc, intent, targets, place, node)?;
    Ok(above.contains(&node))
}

// The least node that is put and will be above itself.
fn least_ring(
    alloc: Global,
    intent: &Intent,
    targets: &BTreeMap<NodeId, Spot>,
    place: &BTreeMap<NodeId, Spot>,
) -> Result<Option<NodeId>, AllocError>
    ensures { IfOk result (IsLeastOf (λ n. Has (map (λ (p : PutOf). p.node) intent.now.put) n × Reaches (above_ahead intent.now targets.now place.now) n n)) }
{
    let mut least = None;
    for put in intent.put.as_slice() {
        let counts = is_above_itself(alloc, intent, targets, place, put.node)?;
        least = least_with(least, put.node, counts);
    }
    Ok(least)
}

// An intent that wants nothing.
fn nothing(alloc: Global) -> Intent
    ensures { result.clear ≡ [] }
{
    let rev = Rev { session: 0, num: 0 };
    Intent {
        rev,
        under: rev,
        new: List::new(alloc),
        groups: List::new(alloc),
        clear: List::new(alloc),
        put: List::new(alloc),
        need: List::new(alloc),
        schema: None,
    }
}

// Whether a revision is among those of the entries.
fn has_rev(entries: &[SchemaEntry], rev: Rev) -> bool
    ensures { result ≡ list_any (λ e. same_rev e.rev rev) entries.now }
{
    entries.iter().any(|e| is_same_rev(e.rev, rev))
}

// Whether a revision is the last of those of the entries.
fn is_last_rev(entries: &[SchemaEntry], rev: Rev) -> bool
    ensures { result ≡ option_map_or (λ e. same_rev e.rev rev) (slice_get entries.now (length entries.now - 1)) false }
{
    match entries.last() {
        None => false,
        Some(entry) => is_same_rev(entry.rev, rev),
    }
}

impl Doc {
    ghost use Rattle.st_marks.specs.Document.{IsLive};
    ghost use Rattle.st_marks.specs.Verdict.{IsVerdict, IsBaseInEffect, IsUnmetNeed, IsAboveItself};
    ghost use Rattle.st_doc.specs.Doc.{document_of};

    // Whether the schema is in effect under which an intent was made.
    fn has_base(&self, intent: &Intent) -> bool
        ensures { (result ≡ true) ↔ IsBaseInEffect (document_of self.now) intent.now }
    {
        match &intent.schema {
            None => has_rev(self.schemas.as_slice(), intent.under),
            Some(_) => is_last_rev(self.schemas.as_slice(), intent.under),
        }
    }

    /// Whether a node is the root or beneath it.
    pub fn is_live(&self, alloc: Global, node: NodeId) -> Result<bool, AllocError>
        ensures { IfOk result (λ b. (b ≡ true) ↔ IsLive (document_of self.now) node) }
    {
        let root = root_node();
        if is_same_node(node, root) {
            return Ok(true);
        }
        let targets = BTreeMap::new(alloc);
        let above = ancestors_ahead(alloc, &nothing(alloc), &targets, &self.place, node)?;
        Ok(above.contains(&root))
    }

    // The least needed node that is not live.
    fn unmet_need(&self, alloc: Global, intent: &Intent) -> Result<Option<NodeId>, AllocError>
        ensures { IfOk result (IsLeastOf (IsUnmetNeed (document_of self.now) intent.now)) }
    {
        let mut least = None;
        for node in intent.need.as_slice() {
            let live = self.is_live(alloc, *node)?;
            least = least_with(least, *node, !live);
        }
        Ok(least)
    }

    // The least node that an intent puts and that would then be above itself.
    fn ring(
        &self,
        alloc: Global,
        intent: &Intent,
        targets: &BTreeMap<NodeId, Spot>,
    ) -> Result<Option<NodeId>, AllocError>
        requires { AreTargets self.now.row_of intent.now targets.now }
        ensures { IfOk result (IsLeastOf (IsAboveItself (document_of self.now) intent.now)) }
    {
        let least = least_ring(alloc, intent, targets, &self.place)?;
        Ok(least)
    }

    /// The verdict of an intent: the schema, a need that isn't met, or a ring, in this order, with the least node.
    pub fn fails(&self, alloc: Global, intent: &Intent) -> Result<Verdict, AllocError>
        ensures { IfOk result (IsVerdict (document_of self.now) intent.now) }
    {
        let targets = targets(alloc, &self.row_of, intent)?;
        self.fails_at(alloc, intent, &targets)
    }

    // The verdict of an intent, by where its puts lead.
    pub(crate) fn fails_at(
        &self,
        alloc: Global,
        intent: &Intent,
        targets: &BTreeMap<NodeId, Spot>,
    ) -> Result<Verdict, AllocError>
        requires { AreTargets self.now.row_of intent.now targets.now }
        ensures { IfOk result (IsVerdict (document_of self.now) intent.now) }
    {
        if !self.has_base(intent) {
            return Ok(Verdict::Schema(intent.under));
        }
        if let Some(node) = self.unmet_need(alloc, intent)? {
            return Ok(Verdict::Need(node));
        }
        match self.ring(alloc, intent, targets)? {
            Some(node) => Ok(Verdict::Cycle(node)),
            None => Ok(Verdict::Sound),
        }
    }
}
