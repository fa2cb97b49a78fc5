//! Whether nodes stand in a ring where changes leave them.
ghost use Rattle.std.specs.Prelude.{◌≡◌, ◌++◌, false, true, IfOk};
ghost use Rattle.st_ids.specs.Listing.{IsRising};
ghost use Rattle.st_ids.specs.Order.{field_cmp, node_cmp};
ghost use Rattle.st_marks.specs.declared.marks.RegMark.{RegMark as Register};
ghost use Rattle.st_marks.specs.declared.marks.RowMarks.{RowMarks as Row};
ghost use Rattle.st_marks.specs.Agree.{MadeAt};
ghost use Rattle.st_marks.specs.Listings.{Places, listing_after_change};
ghost use Rattle.st_normal.specs.Rules.{ObeysChangeRules};
ghost use Rattle.st_turn_places.specs.Rules.{ArePlaces};
ghost use Rattle.st_part_rings.specs.Under.{HasRing};
ghost use Rattle.st_part_rings.specs.inside.Links.{AreLinks, TellsRing};

use crate::links::{Link, links_joint, links_of, nodes_made};
use crate::rings::{have_ring, uppers};
use crate::told::step_of;
use st_ids::List;
use st_marks::Change;
use st_turn_places::{Placed, places_after};
use std::alloc::{AllocError, Global};

// Where a change, carried out whole, leaves nodes; one place may be listed twice.
fn places_left(alloc: Global, change: &Change) -> Result<List<Placed>, AllocError>
    requires rows { IsRising node_cmp (λ (r : Row). r.node) change.now.rows }
    requires regs { IsRising field_cmp (λ (r : Register). r.field) change.now.regs }
    ensures { IfOk result (λ l. ArePlaces l (listing_after_change change.now)) }
{
    let step = step_of(alloc, change)?;
    places_after(alloc, &step)
}

// Whether links lead up in a ring.
fn tells_ring(alloc: Global, links: &[Link]) -> Result<bool, AllocError>
    ensures { IfOk result (λ b. TellsRing links.now b) }
{
    let up = uppers(alloc, links)?;
    let ring = have_ring(alloc, &up, links)?;
    Ok(ring)
}

/// Whether some node is above itself where a change, carried out whole, leaves the nodes. That is exact where no node is left in
/// two others, as by a change in normal form. Takes O(n log n) for n marks and new nodes.
pub fn has_ring_after(alloc: Global, change: &Change) -> Result<bool, AllocError>
    requires rows { IsRising node_cmp (λ (r : Row). r.node) change.now.rows }
    requires regs { IsRising field_cmp (λ (r : Register). r.field) change.now.regs }
    ensures ring { IfOk result (λ b. b ≡ true → HasRing (Places (listing_after_change change.now))) }
    ensures none { ObeysChangeRules change.now → IfOk result (λ b. b ≡ false → HasRing (Places (listing_after_change change.now)) → ⊥) }
{
    let places = places_left(alloc, change)?;
    let links = links_of(alloc, places.as_slice())?;
    let ring = tells_ring(alloc, links.as_slice())?;
    Ok(ring)
}

// The links of nodes that either change makes, where both together leave them.
fn links_made(alloc: Global, first: &Change, then: &Change) -> Result<List<Link>, AllocError>
    requires rows { IsRising node_cmp (λ (r : Row). r.node) first.now.rows }
    requires regs { IsRising field_cmp (λ (r : Register). r.field) first.now.regs }
    requires rows_then { IsRising node_cmp (λ (r : Row). r.node) then.now.rows }
    requires regs_then { IsRising field_cmp (λ (r : Register). r.field) then.now.regs }
    ensures { IfOk result (λ l. AreLinks l (MadeAt first.now then.now)) }
{
    let made = nodes_made(alloc, first.new.as_slice(), then.new.as_slice())?;
    let left = places_left(alloc, first)?;
    let left_then = places_left(alloc, then)?;
    links_joint(alloc, &made, left.as_slice(), left_then.as_slice())
}

/// Whether some node that either of two changes makes is above itself among such nodes, where both together leave them: where the
/// second leaves it, or else where the first does. That is exact where no node is left in two others, as by changes in normal form.
/// Takes O(n log n) for n marks and new nodes.
pub fn has_ring_of_made(alloc: Global, first: &Change, then: &Change) -> Result<bool, AllocError>
    requires rows { IsRising node_cmp (λ (r : Row). r.node) first.now.rows }
    requires regs { IsRising field_cmp (λ (r : Register). r.field) first.now.regs }
    requires rows_then { IsRising node_cmp (λ (r : Row). r.node) then.now.rows }
    requires regs_then { IsRising field_cmp (λ (r : Register). r.field) then.now.regs }
    ensures ring { IfOk result (λ b. b ≡ true → HasRing (MadeAt first.now then.now)) }
    ensures none { ObeysChangeRules first.now → ObeysChangeRules then.now
        → IfOk result (λ b. b ≡ false → HasRing (MadeAt first.now then.now) → ⊥) }
{
    let links = links_made(alloc, first, then)?;
    let ring = tells_ring(alloc, links.as_slice())?;
    Ok(ring)
}
