//! Whether two changes can be parts of one commit.
ghost use Rattle.std.specs.Prelude.{◌≡◌, ◌⊎◌, true, false, is_some, IfOk};
ghost use Rattle.st_ids.specs.Listing.{IsRising};
ghost use Rattle.st_ids.specs.Order.{field_cmp, node_cmp};
ghost use Rattle.st_marks.specs.declared.marks.RegMark.{RegMark as Register};
ghost use Rattle.st_marks.specs.declared.marks.RowMarks.{RowMarks as Row};
ghost use Rattle.st_marks.specs.Agree.{CanBeParts, HaveSchemasOfParts, MadeAt};
ghost use Rattle.st_marks.specs.Listings.{Places, listing_after_change};
ghost use Rattle.st_normal.specs.Rules.{ObeysChangeRules};
ghost use Rattle.st_part_rings.specs.Under.{HasRing};
ghost use Rattle.st_join_parts.specs.inside.Parts.{are_of_one, bases_fit};

use st_ids::{OPENING, is_same_rev};
use st_marks::Change;
use st_part_rings::{has_ring_after, has_ring_of_made};
use std::alloc::{AllocError, Global};

// Whether a change brings a schema.
fn brings_schema(change: &Change) -> bool
    ensures { result ≡ is_some change.now.schema }
{
    match &change.schema {
        None => false,
        Some(_) => true,
    }
}

// Whether two changes are of one commit under one schema, and bring none.
fn are_of_one(first: &Change, then: &Change) -> bool
    ensures { result ≡ are_of_one first.now then.now }
{
    is_same_rev(first.rev, then.rev)
        && is_same_rev(first.under, then.under)
        && !brings_schema(first)
        && !brings_schema(then)
}

// Whether both say the same of the schema in effect; the opening's always is.
fn bases_fit(first: &Change, then: &Change) -> bool
    ensures { result ≡ bases_fit first.now then.now }
{
    first.base == then.base && (first.base || !is_same_rev(first.under, OPENING))
}

// Whether nodes stand in a ring that the first leaves, or that made nodes form as both leave them.
fn have_rings(alloc: Global, first: &Change, then: &Change) -> Result<bool, AllocError>
    requires rows { IsRising node_cmp (λ (r : Row). r.node) first.now.rows }
    requires regs { IsRising field_cmp (λ (r : Register). r.field) first.now.regs }
    requires rows_then { IsRising node_cmp (λ (r : Row). r.node) then.now.rows }
    requires regs_then { IsRising field_cmp (λ (r : Register). r.field) then.now.regs }
    ensures ring { IfOk result (λ b. b ≡ true → HasRing (Places (listing_after_change first.now)) ⊎ HasRing (MadeAt first.now then.now)) }
    ensures none { ObeysChangeRules first.now → ObeysChangeRules then.now → IfOk result (λ b. b ≡ false
        → HasRing (Places (listing_after_change first.now)) ⊎ HasRing (MadeAt first.now then.now) → ⊥) }
{
    if has_ring_after(alloc, first)? {
        return Ok(true);
    }
    let ring = has_ring_of_made(alloc, first, then)?;
    Ok(ring)
}

/// Whether two changes can be parts of one commit: they have one revision, one schema under which they are made, in effect for both
/// or for neither, and bring none; and nodes form no ring where the first leaves them, nor do those that either makes where both
/// leave them. Where it says no, one of the two rules is broken; for changes in normal form, where it says yes, both hold.
pub fn can_be_parts(alloc: Global, first: &Change, then: &Change) -> Result<bool, AllocError>
    requires rows { IsRising node_cmp (λ (r : Row). r.node) first.now.rows }
    requires regs { IsRising field_cmp (λ (r : Register). r.field) first.now.regs }
    requires rows_then { IsRising node_cmp (λ (r : Row). r.node) then.now.rows }
    requires regs_then { IsRising field_cmp (λ (r : Register). r.field) then.now.regs }
    ensures broken { IfOk result (λ b. b ≡ false
        → (HaveSchemasOfParts first.now then.now → ⊥) ⊎ (CanBeParts first.now then.now → ⊥)) }
    ensures hold { ObeysChangeRules first.now → ObeysChangeRules then.now
        → IfOk result (λ b. b ≡ true → HaveSchemasOfParts first.now then.now × CanBeParts first.now then.now) }
{
    if !are_of_one(first, then) {
        return Ok(false);
    }
    if !bases_fit(first, then) {
        return Ok(false);
    }
    let ring = have_rings(alloc, first, then)?;
    Ok(!ring)
}
