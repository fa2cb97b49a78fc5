//! Whether a change is in normal form.
ghost use Rattle.std.specs.Prelude.{◌≡◌, ◌↔◌, [], IsTrue, MatchResult};
ghost use Rattle.st_normal.specs.Rules.{ChangeIsRising, FilledRegistersAreCleared, HolesHaveMovers, LooseNodesArePut, NeededNodesAreFound, NewNamesHaveItsRevision, NewNodesAreNotFound, NewRegistersAreEmpty, NoRingBeforeChange, NoRingOfNewNodes, NodesAreFoundOnce, NodesArePutOnce, ObeysChangeRules, ObeysCommonRules, ObeysDataRules, ObeysSchemaRules, OpeningIsBase, PutNodesLeave, RegisterMarksFit, RegistersTell, StayingNodesAreMentioned, entries_of_change};

use crate::change_rules::{
    CellHasRevision, FilledIsCleared, IsMentioned, IsThere, MarkFits, MarkTells, NewHasRevision,
    NewRegister,
};
use crate::extract::{CellsMade, Each, FoundIn, HoleOwners, KeptAt, Nowhere};
use crate::index::Index;
use crate::links::{ring_before, ring_of_new};
use crate::listing::OfChange;
use crate::lookup::Look;
use crate::normal::{Check, NotNormal};
use crate::rising::{ByField, ByNode, rises};
use crate::rules::{Moves, is_rev};
use crate::scan::{Along, Then, each, each_of, in_rows};
use crate::shared_rules::{loose_are_put, obeys_common};
use st_ids::OPENING;
use st_marks::Change;
use std::alloc::Global;

// Whether all lists rise by name.
fn lists_rise(change: &Change) -> bool
    ensures { IsTrue result ↔ ChangeIsRising change.now }
{
    rises(change.need.as_slice(), &ByNode)
        && rises(change.new.as_slice(), &ByNode)
        && rises(change.rows.as_slice(), &ByNode)
        && rises(change.regs.as_slice(), &ByField)
        && rises(change.loose.as_slice(), &ByNode)
}

// Whether new nodes and cells have the change's revision.
fn names_have_revision(change: &Change) -> bool
    ensures { IsTrue result ↔ NewNamesHaveItsRevision change.now }
{
    each_of(change.new.as_slice(), &NewHasRevision(change.rev))
        && each(
            in_rows(change.rows.as_slice(), CellsMade),
            &CellHasRevision(change.rev),
        )
}

// Whether the owners of empty cells that are made are new, are set where they are, or leave.
fn holes_have_movers(look: &Look<OfChange<'_>>) -> bool
    ensures { NodesAreFoundOnce (entries_of_change look.now.lists.0.now) → (IsTrue result ↔ HolesHaveMovers look.now.lists.0.now) }
{
    let rows = look.lists.0.rows.as_slice();
    each(in_rows(rows, HoleOwners), &Moves(look))
}

// Whether the rules on the marks of single registers hold.
fn marks_fit(change: &Change) -> bool
    ensures { IsTrue result ↔ (FilledRegistersAreCleared change.now × RegisterMarksFit change.now × RegistersTell change.now) }
{
    let regs = change.regs.as_slice();
    each_of(regs, &FilledIsCleared) && each_of(regs, &MarkFits) && each_of(regs, &MarkTells)
}

// Whether registers of new nodes hold nothing before.
fn new_are_empty(look: &Look<OfChange<'_>>) -> bool
    ensures { IsTrue result ↔ NewRegistersAreEmpty look.now.lists.0.now }
{
    each_of(look.lists.0.regs.as_slice(), &NewRegister(look))
}

// Whether needed nodes are the root or found.
fn needed_are_found(look: &Look<OfChange<'_>>) -> bool
    ensures { IsTrue result ↔ NeededNodesAreFound look.now.lists.0.now }
{
    each_of(look.lists.0.need.as_slice(), &IsThere(look))
}

// Whether nodes that stay are needed, or fields of them are listed.
fn staying_are_mentioned(alloc: Global, look: &Look<OfChange<'_>>) -> bool
    ensures { IsTrue result ↔ StayingNodesAreMentioned look.now.lists.0.now }
{
    let change = look.lists.0;
    let need = Index::of(
        alloc,
        Along {
            items: change.need.as_slice(),
            part: Each,
        },
    );
    let kept = Along {
        items: change.regs.as_slice(),
        part: KeptAt,
    };
    let loose = Along {
        items: change.loose.as_slice(),
        part: Nowhere,
    };
    let walk = Then {
        first: in_rows(change.rows.as_slice(), FoundIn),
        second: Then {
            first: kept,
            second: loose,
        },
    };
    each(walk, &IsMentioned { look, need: &need })
}

// Whether the places before lead up without a ring.
fn no_ring_before(alloc: Global, change: &Change) -> bool
    ensures { ChangeIsRising change.now → NodesAreFoundOnce (entries_of_change change.now) → (IsTrue result ↔ NoRingBeforeChange change.now) }
{
    !ring_before(alloc, change.rows.as_slice(), change.regs.as_slice())
}

// Whether new nodes inside new nodes form no ring.
fn no_new_ring(alloc: Global, look: &Look<OfChange<'_>>) -> bool
    ensures { let C = look.now.lists.0.now in let L = entries_of_change C in ChangeIsRising C → NodesAreFoundOnce L → NodesArePutOnce L → PutNodesLeave L → NewNodesAreNotFound L → (IsTrue result ↔ NoRingOfNewNodes C) }
{
    let change = look.lists.0;
    !ring_of_new(alloc, look, change.rows.as_slice(), change.regs.as_slice())
}

// Whether the base is in effect under the opening's schema.
fn opening_is_base(change: &Change) -> bool
    ensures { IsTrue result ↔ OpeningIsBase change.now }
{
    change.base || !is_rev(change.under, OPENING)
}

// Whether a change of schema has nothing else.
fn is_alone(change: &Change) -> bool
    ensures { IsTrue result ↔ ((change.now.need ≡ []) × (change.now.new ≡ []) × (change.now.rows ≡ []) × (change.now.regs ≡ []) × (change.now.loose ≡ [])) }
{
    change.need.is_empty()
        && change.new.is_empty()
        && change.rows.is_empty()
        && change.regs.is_empty()
        && change.loose.is_empty()
}

// Whether the rules on a change of schema hold.
fn obeys_schema_rules(change: &Change) -> bool
    ensures { IsTrue result ↔ ObeysSchemaRules change.now }
{
    is_alone(change)
        && !is_rev(change.rev, OPENING)
        && !(change.base && is_rev(change.under, change.rev))
}

// Whether the rules hold that look nothing up.
fn own_rules_hold(change: &Change) -> bool
    ensures { IsTrue result ↔ (ChangeIsRising change.now × NewNamesHaveItsRevision change.now × (FilledRegistersAreCleared change.now × RegisterMarksFit change.now × RegistersTell change.now) × OpeningIsBase change.now) }
{
    lists_rise(change)
        && names_have_revision(change)
        && marks_fit(change)
        && opening_is_base(change)
}

// Whether the rules hold that look nodes up.
fn nodes_are_right(alloc: Global, look: &Look<OfChange<'_>>) -> bool
    ensures { let C = look.now.lists.0.now in NodesAreFoundOnce (entries_of_change C) → (IsTrue result ↔ (HolesHaveMovers C × NewRegistersAreEmpty C × LooseNodesArePut (entries_of_change C) C.loose × NeededNodesAreFound C × StayingNodesAreMentioned C)) }
{
    holes_have_movers(look)
        && new_are_empty(look)
        && loose_are_put(look, look.lists.0.loose.as_slice())
        && needed_are_found(look)
        && staying_are_mentioned(alloc, look)
}

// Whether the rules on rings hold.
fn has_no_ring(alloc: Global, look: &Look<OfChange<'_>>) -> bool
    ensures { let C = look.now.lists.0.now in ChangeIsRising C → ObeysCommonRules (entries_of_change C) → (IsTrue result ↔ (NoRingBeforeChange C × NoRingOfNewNodes C)) }
{
    no_ring_before(alloc, look.lists.0) && no_new_ring(alloc, look)
}

// Whether the rules on a change of data hold.
fn obeys_data_rules(change: &Change) -> bool
    ensures { IsTrue result ↔ ObeysDataRules change.now }
{
    if !own_rules_hold(change) {
        return false;
    }
    let alloc = change.rows.allocator();
    let look = Look::of(alloc, OfChange(change));
    obeys_common(alloc, &look) && nodes_are_right(alloc, &look) && has_no_ring(alloc, &look)
}

// Whether a change is in normal form.
fn is_normal(change: &Change) -> bool
    ensures { IsTrue result ↔ ObeysChangeRules change.now }
{
    match &change.schema {
        None => obeys_data_rules(change),
        Some(_) => obeys_schema_rules(change),
    }
}

impl Check for Change {
    ghost ObeysRules = { ObeysChangeRules };

    /// Refuses a change that breaks a rule of normal form. The rules allow just what stands over some document, by the law
    /// `normal_changes_obey` of `st_normal_laws`. They are judged alone, in the time that sorting the change would take.
    /// What is looked up is kept in maps in the memory from which the change's lists come; where there is none left the
    /// answer is the same, but slow to come.
    fn check(&self) -> Result<(), NotNormal>
        ensures { MatchResult result (λ _. ObeysChangeRules self.now) (λ _. ObeysChangeRules self.now → ⊥) }
    {
        if is_normal(self) {
            Ok(())
        } else {
            Err(NotNormal)
        }
    }
}
