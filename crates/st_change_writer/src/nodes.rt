//! Registers and nodes, written behind a text.
ghost use Rattle.std.specs.Prelude.{◌≡◌, ◌++◌, Some, None, codes, OnOk};
ghost use Rattle.serde_json.specs.Data.{string};
ghost use Rattle.serde_json.specs.Written.{compact_text};
ghost use Rattle.st_ids.specs.LeafText.{leaf_data};
ghost use Rattle.st_change_writer.specs.Listed.{loose_data, made_data, new_data, node_data, node_or_null, register_data};
ghost use Rattle.st_change_writer.specs.Texts.{bool_text, how_quoted};

use crate::lists::{PushItem, bool_text, push_bool, push_quoted};
use crate::names::{PushNames, push_op_rev};
use st_ids::{Leaf, NodeId, Text};
use st_marks::{How, Loose, NewNode, RegMark};
use std::alloc::{AllocError, Global};

// What becomes of a node, as a text.
fn how_quoted(how: How) -> &'static str
    ensures { result.now ≡ how_quoted how }
{
    match how {
        How::Stay => "\"at\"",
        How::Here => "\"set\"",
        How::Leave => "\"out\"",
    }
}

/// How nodes are written.
#[derive(Clone, Copy)]
pub(crate) struct Nodes<'a, N>(pub &'a N);

impl<N: PushNames> PushItem for Nodes<'_, N> {
    type Item = NodeId;

    ghost told = { λ s. node_data (N.naming s.0.now) };

    fn push(&self, out: &mut Text, item: &NodeId) -> Result<(), AllocError> {
        self.0.push_atom(out, item.0)
    }
}

/// Writes a node, or null.
pub(crate) fn push_occupant<N: PushNames>(
    out: &mut Text,
    node: Option<NodeId>,
    names: &N,
) -> Result<(), AllocError>
    ensures { OnOk result (out.new ≡ out.old ++ compact_text (node_or_null (N.naming names.now) node)) }
{
    match node {
        None => out.push_str("null"),
        Some(node) => names.push_atom(out, node.0),
    }
}

#[tactic(auto, using(crate::proofs::Append::loose_is))]
fn push_loose<N: PushNames>(out: &mut Text, loose: Loose, names: &N) -> Result<(), AllocError>
    ensures { OnOk result (out.new ≡ out.old ++ compact_text (loose_data (N.naming names.now) loose)) }
{
    out.push_str("[")?;
    names.push_atom(out, loose.node.0)?;
    out.push_str(",")?;
    out.push_str(how_quoted(loose.how))?;
    out.push_str("]")
}

/// How mentioned nodes are written that are nowhere.
#[derive(Clone, Copy)]
pub(crate) struct Nowhere<'a, N>(pub &'a N);

impl<N: PushNames> PushItem for Nowhere<'_, N> {
    type Item = Loose;

    ghost told = { λ s. loose_data (N.naming s.0.now) };

    fn push(&self, out: &mut Text, item: &Loose) -> Result<(), AllocError> {
        push_loose(out, *item, self.0)
    }
}

// Writes the value of a leaf.
fn push_leaf(alloc: Global, out: &mut Text, leaf: &Leaf) -> Result<(), AllocError>
    ensures { OnOk result (out.new ≡ out.old ++ compact_text (leaf_data leaf.now)) }
{
    match leaf {
        Leaf::Null => out.push_str("null"),
        Leaf::Bool(value) => push_bool(out, *value),
        Leaf::Int(value) => push_op_rev(out, *value),
        Leaf::Words(text) => push_quoted(alloc, out, text.as_str()),
    }
}

#[tactic(auto, using(crate::proofs::Append::branch_is))]
fn push_branch<N: PushNames>(
    alloc: Global,
    out: &mut Text,
    node: NodeId,
    ty: &str,
    names: &N,
) -> Result<(), AllocError>
    ensures { OnOk result (out.new ≡ out.old ++ compact_text (made_data (N.naming names.now) node ty.now None)) }
{
    out.push_str("[")?;
    names.push_atom(out, node.0)?;
    out.push_str(",")?;
    push_quoted(alloc, out, ty)?;
    out.push_str("]")
}

#[tactic(auto, using(crate::proofs::Append::leaf_is))]
fn push_new_leaf<N: PushNames>(
    alloc: Global,
    out: &mut Text,
    node: NodeId,
    ty: &str,
    leaf: &Leaf,
    names: &N,
) -> Result<(), AllocError>
    ensures { OnOk result (out.new ≡ out.old ++ compact_text (made_data (N.naming names.now) node ty.now (Some leaf.now))) }
{
    out.push_str("[")?;
    names.push_atom(out, node.0)?;
    out.push_str(",")?;
    push_quoted(alloc, out, ty)?;
    out.push_str(",")?;
    push_leaf(alloc, out, leaf)?;
    out.push_str("]")
}

/// How new nodes are written.
#[derive(Clone, Copy)]
pub(crate) struct NewNodes<'a, N> {
    pub names: &'a N,
    pub alloc: Global,
}

impl<N: PushNames> PushItem for NewNodes<'_, N> {
    type Item = NewNode;

    ghost told = { λ s. new_data (N.naming s.names.now) };

    fn push(&self, out: &mut Text, item: &NewNode) -> Result<(), AllocError> {
        match &item.leaf {
            None => push_branch(self.alloc, out, item.node, item.ty.as_str(), self.names),
            Some(leaf) => push_new_leaf(
                self.alloc,
                out,
                item.node,
                item.ty.as_str(),
                leaf,
                self.names,
            ),
        }
    }
}

// Writes what becomes of who is in a register, whether it is cleared, and who comes in.
fn push_fate<N: PushNames>(out: &mut Text, register: &RegMark, names: &N) -> Result<(), AllocError>
    ensures { OnOk result (out.new ≡ out.old ++ (codes "," ++ (how_quoted register.now.how ++ (codes "," ++ (bool_text register.now.clear
        ++ (codes "," ++ (compact_text (node_or_null (N.naming names.now) register.now.fill) ++ codes "]"))))))) }
{
    out.push_str(",")?;
    out.push_str(how_quoted(register.how))?;
    out.push_str(",")?;
    out.push_str(bool_text(register.clear))?;
    out.push_str(",")?;
    push_occupant(out, register.fill, names)?;
    out.push_str("]")
}

#[tactic(auto, using(crate::proofs::Append::register_is))]
fn push_register<N: PushNames>(
    alloc: Global,
    out: &mut Text,
    register: &RegMark,
    names: &N,
) -> Result<(), AllocError>
    ensures { OnOk result (out.new ≡ out.old ++ compact_text (register_data (N.naming names.now) register.now)) }
{
    out.push_str("[")?;
    names.push_atom(out, register.field.node.0)?;
    out.push_str(",")?;
    push_quoted(alloc, out, register.field.key.0.as_str())?;
    out.push_str(",")?;
    push_occupant(out, register.held, names)?;
    push_fate(out, register, names)
}

/// How registers are written.
#[derive(Clone, Copy)]
pub(crate) struct Registers<'a, N> {
    pub names: &'a N,
    pub alloc: Global,
}

impl<N: PushNames> PushItem for Registers<'_, N> {
    type Item = RegMark;

    ghost told = { λ s. register_data (N.naming s.names.now) };

    fn push(&self, out: &mut Text, item: &RegMark) -> Result<(), AllocError> {
        push_register(self.alloc, out, item, self.names)
    }
}
