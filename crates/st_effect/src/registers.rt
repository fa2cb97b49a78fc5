//! The registers of a change, carried out or void.
ghost use Rattle.std.specs.Prelude.{◌≡◌, false, IfOk};
ghost use Rattle.std.specs.Option.{option_map_or};
ghost use Rattle.st_ids.specs.Listing.{IsRising};
ghost use Rattle.st_ids.specs.Order.{node_cmp};
ghost use Rattle.st_marks.specs.Embedding.{is_among as among};
ghost use Rattle.st_effect.specs.inside.Done.{AreRegistersDone, IsRegisterDone};

use crate::names::is_among;
use st_ids::{Copied, List, NodeId, Rev};
use st_kind::FieldKind;
use st_marks::{RegMark, RegStep};
use st_register::{RegChange, Register};
use std::alloc::{AllocError, Global};

// Whether there is a node, and it is one of these.
fn is_some_among(nodes: &List<NodeId>, node: Option<NodeId>) -> bool
    ensures { IsRising node_cmp (λ n. n) nodes.now → result ≡ option_map_or (among nodes.now) node false }
{
    match node {
        Some(node) => is_among(nodes, node),
        None => false,
    }
}

// What the mark says of the register, as the change of a commit that makes these nodes.
fn reg_change(rev: Rev, new: &List<NodeId>, mark: &RegMark) -> RegChange
    ensures { IsRising node_cmp (λ n. n) new.now → result ≡ record {
      rev = rev;
      in_new = among new.now mark.now.field.node;
      held = mark.now.held;
      how = mark.now.how;
      clear = mark.now.clear;
      fill = mark.now.fill;
      fill_new = option_map_or (among new.now) mark.now.fill false;
    } }
{
    RegChange {
        rev,
        in_new: is_among(new, mark.field.node),
        held: mark.held,
        how: mark.how,
        clear: mark.clear,
        fill: mark.fill,
        fill_new: is_some_among(new, mark.fill),
    }
}

// The step's register, by the change's.
fn register_done(
    alloc: Global,
    rev: Rev,
    mark: &RegMark,
    void: bool,
    new: &List<NodeId>,
) -> Result<RegStep, AllocError>
    requires { IsRising node_cmp (λ n. n) new.now }
    ensures field { IfOk result (λ t. t.field ≡ mark.now.field) }
    ensures done { IfOk result (λ t. IsRegisterDone void rev new.now mark.now t) }
{
    let change = reg_change(rev, new, mark);
    let swap = Register::effect(alloc, &change, void)?;
    Ok(RegStep {
        field: mark.field.copy(alloc)?,
        before: swap.before,
        after: swap.after,
    })
}

/// The step's registers, by those of a change of this revision that is void or not. The commit makes the nodes `new`.
pub fn registers_done(
    alloc: Global,
    rev: Rev,
    marks: &[RegMark],
    void: bool,
    new: &List<NodeId>,
) -> Result<List<RegStep>, AllocError>
    requires { IsRising node_cmp (λ n. n) new.now }
    ensures { IfOk result (λ done. AreRegistersDone void rev new.now marks.now done) }
{
    let mut done = List::new(alloc);
    for mark in marks {
        done.push(register_done(alloc, rev, mark, void, new)?)?;
    }
    Ok(done)
}
