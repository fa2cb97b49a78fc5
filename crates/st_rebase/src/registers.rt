//! The registers of a change over the rest of a step.
ghost use Rattle.std.specs.Prelude.{◌≡◌, false, IfOk};
ghost use Rattle.std.specs.Option.{option_map_or};
ghost use Rattle.st_marks.specs.Embedding.{is_among};
ghost use Rattle.st_ids.specs.Listing.{item_of};
ghost use Rattle.st_ids.specs.Order.{field_cmp};
ghost use Rattle.st_marks.specs.declared.marks.RegStep.{RegStep as RegisterOver};
ghost use Rattle.st_moves.specs.Index.{IsIndex};
ghost use Rattle.st_rebase.specs.Registers.{RegBecomes};
ghost use Rattle.st_rebase.specs.inside.Over.{AreRegistersOver};

use st_ids::{Copied, FieldId, List, NodeId, Rev, is_same_node};
use st_kind::FieldKind;
use st_marks::{RegMark, RegStep};
use st_moves::{index_registers_over, register_over_in};
use st_register::{RegChange, RegSwap, Register};
use std::alloc::{AllocError, Global};
use std::collections::BTreeMap;

// Whether the node is one of these.
fn is_among(nodes: &[NodeId], node: NodeId) -> bool
    ensures { result ≡ is_among nodes.now node }
{
    nodes.iter().any(|n| is_same_node(*n, node))
}

// Whether there is a node, and it is one of these.
fn is_some_among(nodes: &[NodeId], node: Option<NodeId>) -> bool
    ensures { result ≡ option_map_or (is_among nodes.now) node false }
{
    match node {
        Some(node) => is_among(nodes, node),
        None => false,
    }
}

// What the mark says of the register, as the change of a commit that makes these nodes.
fn reg_change(rev: Rev, new: &[NodeId], mark: &RegMark) -> RegChange
    ensures { result ≡ record {
      rev = rev;
      in_new = is_among new.now mark.now.field.node;
      held = mark.now.held;
      how = mark.now.how;
      clear = mark.now.clear;
      fill = mark.now.fill;
      fill_new = option_map_or (is_among new.now) mark.now.fill false;
    } }
{
    RegChange {
        rev,
        in_new: is_among(new, mark.field.node),
        held: mark.held,
        how: mark.how,
        clear: mark.clear,
        fill: mark.fill,
        fill_new: is_some_among(new, mark.fill),
    }
}

/// One register of a change over what is left of `step`, the step's entry of that register. The commit makes the nodes
/// `new`.
pub fn rebase_register(
    alloc: Global,
    rev: Rev,
    new: &[NodeId],
    mark: &RegMark,
    step: &Option<RegStep>,
) -> Result<RegMark, AllocError>
    ensures field { IfOk result (λ t. t.field ≡ mark.now.field) }
    ensures becomes { IfOk result (λ t. RegBecomes rev new.now step.now mark.now t) }
{
    let Some(step) = step else {
        return mark.copy(alloc);
    };
    let change = reg_change(rev, new, mark);
    let rest = RegSwap {
        before: mark.held,
        after: step.after,
    };
    let over = Register::rebase_agreed(alloc, &change, &rest)?;
    Ok(RegMark {
        field: mark.field.copy(alloc)?,
        held: over.held,
        how: over.how,
        clear: over.clear,
        fill: over.fill,
    })
}

// What the step lists for a register.
fn step_register(
    alloc: Global,
    step: &List<RegStep>,
    index: &BTreeMap<FieldId, usize>,
    field: &FieldId,
) -> Result<Option<RegStep>, AllocError>
    requires { IsIndex field_cmp (λ (s : RegisterOver). s.field) step.now index.now }
    ensures { IfOk result (λ o. o ≡ item_of field_cmp (λ (s : RegisterOver). s.field) step.now field.now) }
{
    match register_over_in(step, index, field) {
        None => Ok(None),
        Some(step) => Ok(Some(step.copy(alloc)?)),
    }
}

// A register over the step's, if the step lists it.
fn register_over(
    alloc: Global,
    rev: Rev,
    new: &[NodeId],
    mark: &RegMark,
    step: &List<RegStep>,
    index: &BTreeMap<FieldId, usize>,
) -> Result<RegMark, AllocError>
    requires { IsIndex field_cmp (λ (s : RegisterOver). s.field) step.now index.now }
    ensures field { IfOk result (λ t. t.field ≡ mark.now.field) }
    ensures becomes { IfOk result (λ t. RegBecomes rev new.now (item_of field_cmp (λ (s : RegisterOver). s.field) step.now mark.now.field) mark.now t) }
{
    let step = step_register(alloc, step, index, &mark.field)?;
    rebase_register(alloc, rev, new, mark, &step)
}

// The registers of a change, each over the step's.
fn registers_over(
    alloc: Global,
    rev: Rev,
    new: &[NodeId],
    marks: &[RegMark],
    step: &List<RegStep>,
    index: &BTreeMap<FieldId, usize>,
) -> Result<List<RegMark>, AllocError>
    requires { IsIndex field_cmp (λ (s : RegisterOver). s.field) step.now index.now }
    ensures { IfOk result (AreRegistersOver rev new.now step.now marks.now) }
{
    let mut over = List::new(alloc);
    for mark in marks {
        over.push(register_over(alloc, rev, new, mark, step, index)?)?;
    }
    Ok(over)
}

/// The registers of a change over what is left of a step's registers. The commit makes the nodes `new`.
pub fn rebase_registers(
    alloc: Global,
    rev: Rev,
    new: &[NodeId],
    marks: &List<RegMark>,
    step: &List<RegStep>,
) -> Result<List<RegMark>, AllocError>
    ensures { IfOk result (AreRegistersOver rev new.now step.now marks.now) }
{
    let index = index_registers_over(alloc, step.as_slice())?;
    registers_over(alloc, rev, new, marks.as_slice(), step, &index)
}
