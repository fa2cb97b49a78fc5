//! Whether a step is in normal form.
ghost use Rattle.std.specs.Prelude.{◌≡◌, ◌≢◌, ◌↔◌, IfSome, IsTrue, MatchResult};
ghost use Rattle.st_ids.specs.Listing.{AreDistinct};
ghost use Rattle.st_ids.specs.declared.names.NodeId.{NodeId as Node};
ghost use Rattle.st_marks.specs.Agree.{LeadsUp};
ghost use Rattle.st_marks.specs.Document.{first_of};
ghost use Rattle.st_ids.specs.Root.{opening};
ghost use Rattle.st_normal.specs.Rules.{AreEntriesBehind, LooseNodesArePut, NewNodesAreNotFound, NewRegistersAreEmptyBefore, NoRingOverStep, NodesAreFoundOnce, NodesArePutOnce, NothingIsSetHere, ObeysCommonRules, ObeysStepRules, PutNodesLeave, RegistersTellOver, SchemaStepFits, StayingNodesLeadOn, StepIsRising, entries_of_step};
ghost use Rattle.st_marks.specs.Listings.{Places, listing_after_step, listing_before_step};
ghost use Rattle.st_marks.specs.declared.schemas.SchemaEntry.{SchemaEntry as Entry};

use crate::extract::RevOf;
use crate::index::Index;
use crate::links::{ring_after, ring_before};
use crate::listing::{HasEntries, OfStep};
use crate::lookup::Look;
use crate::normal::{Check, NotNormal};
use crate::rising::{ByField, ByNode, rises};
use crate::rules::is_rev;
use crate::scan::{Along, Rule, each, each_of};
use crate::shared_rules::{loose_are_put, obeys_common};
use crate::step_rules::{EmptyBefore, IsNotSet, LeadsOn, StepTells};
use st_ids::{OPENING, Rev};
use st_marks::{SchemaEntry, SchemaStep, Step};
use std::alloc::Global;

// Whether all lists rise by name.
fn lists_rise(step: &Step) -> bool
    ensures { IsTrue result ↔ StepIsRising step.now }
{
    rises(step.new.as_slice(), &ByNode)
        && rises(step.rows.as_slice(), &ByNode)
        && rises(step.regs.as_slice(), &ByField)
        && rises(step.loose.as_slice(), &ByNode)
}

// Whether registers are listed for who is there before or after.
fn registers_tell(step: &Step) -> bool
    ensures { IsTrue result ↔ RegistersTellOver step.now }
{
    each_of(step.regs.as_slice(), &StepTells)
}

// Whether no node is set where it is.
fn nothing_is_set(look: &Look<OfStep<'_>>) -> bool
    ensures { IsTrue result ↔ NothingIsSetHere look.now.lists.0.now }
{
    each(look.lists.finds(), &IsNotSet)
}

// Whether registers of new nodes hold nothing before.
fn new_are_empty(look: &Look<OfStep<'_>>) -> bool
    ensures { IsTrue result ↔ NewRegistersAreEmptyBefore look.now.lists.0.now }
{
    each_of(look.lists.0.regs.as_slice(), &EmptyBefore(look))
}

// Whether nodes that stay have listed fields.
fn staying_lead_on(look: &Look<OfStep<'_>>) -> bool
    ensures { IsTrue result ↔ StayingNodesLeadOn look.now.lists.0.now }
{
    each(look.lists.finds(), &LeadsOn(look))
}

// Whether the places before lead up without a ring.
fn no_ring_before(alloc: Global, step: &Step) -> bool
    ensures { StepIsRising step.now → NodesAreFoundOnce (entries_of_step step.now) → (IsTrue result ↔ ((n : Node) → LeadsUp (Places (listing_before_step step.now)) n n → ⊥)) }
{
    !ring_before(alloc, step.rows.as_slice(), step.regs.as_slice())
}

// Whether the places after lead up without a ring.
fn no_ring_after(alloc: Global, step: &Step) -> bool
    ensures { let L = entries_of_step step.now in StepIsRising step.now → NodesAreFoundOnce L → NodesArePutOnce L → PutNodesLeave L → NewNodesAreNotFound L → (IsTrue result ↔ ((n : Node) → LeadsUp (Places (listing_after_step step.now)) n n → ⊥)) }
{
    !ring_after(alloc, step.rows.as_slice(), step.regs.as_slice())
}

// Whether the places before and after lead up without a ring.
fn has_no_ring(alloc: Global, step: &Step) -> bool
    ensures { StepIsRising step.now → ObeysCommonRules (entries_of_step step.now) → (IsTrue result ↔ NoRingOverStep step.now) }
{
    no_ring_before(alloc, step) && no_ring_after(alloc, step)
}

/// An entry is neither the opening's nor that of a revision.
#[derive(Drop)]
struct IsBehind(Rev);

impl Rule for IsBehind {
    type Item = SchemaEntry;

    ghost Holds = { λ s e. (e.rev ≢ opening) × (e.rev ≢ s.0) };

    fn holds(&self, entry: &SchemaEntry) -> bool {
        !is_rev(entry.rev, OPENING) && !is_rev(entry.rev, self.0)
    }
}

// Whether no two entries have one revision.
fn revs_once(alloc: Global, entries: &[SchemaEntry]) -> bool
    ensures { IsTrue result ↔ AreDistinct (λ (e : Entry). e.rev) entries.now }
{
    let walk = Along {
        items: entries,
        part: RevOf,
    };
    Index::of(alloc, walk).once
}

// Whether entries can stand behind that of a revision.
fn are_behind(alloc: Global, on: Rev, entries: &[SchemaEntry]) -> bool
    ensures { IsTrue result ↔ AreEntriesBehind on entries.now }
{
    revs_once(alloc, entries) && each_of(entries, &IsBehind(on))
}

// Whether two entries are one.
fn is_same_entry(a: &SchemaEntry, b: &SchemaEntry) -> bool
    ensures { IsTrue result ↔ (a.now ≡ b.now) }
{
    is_rev(a.rev, b.rev) && a.text.as_str() == b.text.as_str()
}

// Whether lists of entries differ in the first, if any.
fn firsts_differ(cut: &[SchemaEntry], add: &[SchemaEntry]) -> bool
    ensures { IsTrue result ↔ (first_of cut.now ≢ first_of add.now) }
{
    match (cut, add) {
        ([], []) => false,
        ([gone, ..], [come, ..]) => !is_same_entry(gone, come),
        _ => true,
    }
}

// Whether what a step says of schemas goes together.
fn schemas_fit(alloc: Global, schema: &SchemaStep) -> bool
    ensures { IsTrue result ↔ SchemaStepFits schema.now }
{
    let cut = schema.cut.as_slice();
    let add = schema.add.as_slice();
    are_behind(alloc, schema.on, cut)
        && are_behind(alloc, schema.on, add)
        && firsts_differ(cut, add)
}

// Whether what a step says of schemas goes together, if it says anything.
fn schema_fits(step: &Step) -> bool
    ensures { IsTrue result ↔ IfSome step.now.schema SchemaStepFits }
{
    match &step.schema {
        None => true,
        Some(schema) => schemas_fit(step.rows.allocator(), schema),
    }
}

// Whether the rules hold that look nothing up.
fn own_rules_hold(step: &Step) -> bool
    ensures { IsTrue result ↔ (StepIsRising step.now × RegistersTellOver step.now × IfSome step.now.schema SchemaStepFits) }
{
    lists_rise(step) && registers_tell(step) && schema_fits(step)
}

// Whether the rules hold that look nodes up.
fn nodes_are_right(look: &Look<OfStep<'_>>) -> bool
    ensures { let S = look.now.lists.0.now in IsTrue result ↔ (NothingIsSetHere S × NewRegistersAreEmptyBefore S × LooseNodesArePut (entries_of_step S) S.loose × StayingNodesLeadOn S) }
{
    nothing_is_set(look)
        && new_are_empty(look)
        && loose_are_put(look, look.lists.0.loose.as_slice())
        && staying_lead_on(look)
}

// Whether a step is in normal form.
fn is_normal(step: &Step) -> bool
    ensures { IsTrue result ↔ ObeysStepRules step.now }
{
    if !own_rules_hold(step) {
        return false;
    }
    let alloc = step.rows.allocator();
    let look = Look::of(alloc, OfStep(step));
    obeys_common(alloc, &look) && nodes_are_right(&look) && has_no_ring(alloc, step)
}

impl Check for Step {
    ghost ObeysRules = { ObeysStepRules };

    /// Refuses a step that breaks a rule of normal form. The rules allow each step that leads from some document to one that
    /// extends it, by the law `normal_steps_obey` of `st_normal_laws`, and are meant to allow no other, which isn't proved.
    /// They are judged alone, in the time that sorting the step would take. What is looked up is kept in maps in the memory
    /// from which the step's lists come; where there is none left the answer is the same, but slow to come.
    fn check(&self) -> Result<(), NotNormal>
        ensures { MatchResult result (λ _. ObeysStepRules self.now) (λ _. ObeysStepRules self.now → ⊥) }
    {
        if is_normal(self) {
            Ok(())
        } else {
            Err(NotNormal)
        }
    }
}
