//! Rows, registers, loose nodes and new ones as JSON values.
ghost use Rattle.std.specs.Prelude.{◌≡◌, [], ◌∷◌, ◌++◌, map, codes, IfOk, OnOk};
ghost use Rattle.serde_json.specs.Data.{number, unsigned, string, boolean};
ghost use Rattle.serde_json.specs.View.{view};
ghost use Rattle.st_ids.specs.LeafText.{leaf_data};
ghost use Rattle.st_change_codec.specs.Changes.{cell_data, cell_mark_data, gap_data, how_text, list_data, loose_data, made_data, make_text, mark_data, marks_data, new_data, node_data, node_or_null, register_data, row_data};

use crate::names::{cell_value, node_or_null, node_value, text_value};
use serde_json::Value;
use st_ids::{CellId, FieldId, Leaf, List, NodeId, Text};
use st_marks::{How, Loose, Mark, NewNode, RegMark, RowMarks};
use std::alloc::{AllocError, Global};

// Puts the name of a node behind other values.
fn push_node(alloc: Global, items: &mut Vec<Value>, node: NodeId) -> Result<(), AllocError>
    ensures { OnOk result (map view items.new.items ≡ map view items.old.items ++ node_data node ∷ []) }
{
    let value = node_value(alloc, node)?;
    items.push(value)?;
    Ok(())
}

// Puts the name of a node, or null, behind other values.
fn push_node_or_null(
    alloc: Global,
    items: &mut Vec<Value>,
    node: Option<NodeId>,
) -> Result<(), AllocError>
    ensures { OnOk result (map view items.new.items ≡ map view items.old.items ++ node_or_null node ∷ []) }
{
    let value = node_or_null(alloc, node)?;
    items.push(value)?;
    Ok(())
}

// Puts a text behind other values.
fn push_text(alloc: Global, items: &mut Vec<Value>, text: &str) -> Result<(), AllocError>
    ensures { OnOk result (map view items.new.items ≡ map view items.old.items ++ string text.now ∷ []) }
{
    let value = text_value(alloc, text)?;
    items.push(value)?;
    Ok(())
}

// ## Marks

fn how_word(how: How) -> &'static str
    ensures { result.now ≡ how_text how }
{
    match how {
        How::Stay => "at",
        How::Here => "set",
        How::Leave => "out",
    }
}

// The word for a new cell.
fn make_word(full: bool) -> &'static str
    ensures { result.now ≡ make_text full }
{
    if full { "make" } else { "hole" }
}

// Puts a word and the name of a cell behind other values.
fn push_word_and_cell(
    alloc: Global,
    items: &mut Vec<Value>,
    word: &str,
    cell: CellId,
) -> Result<(), AllocError>
    ensures { OnOk result (map view items.new.items ≡ map view items.old.items ++ string word.now ∷ cell_data cell ∷ []) }
{
    push_text(alloc, items, word)?;
    items.push(cell_value(alloc, cell)?)?;
    Ok(())
}

fn gap_value(alloc: Global, cell: CellId) -> Result<Value, AllocError>
    ensures { IfOk result (λ v. view v ≡ gap_data cell) }
{
    let mut items = Vec::new(alloc);
    push_word_and_cell(alloc, &mut items, "gap", cell)?;
    Ok(Value::Array(items))
}

// A word, a cell and a node.
fn cell_mark_value(
    alloc: Global,
    word: &str,
    cell: CellId,
    node: NodeId,
) -> Result<Value, AllocError>
    ensures { IfOk result (λ v. view v ≡ cell_mark_data word.now cell node) }
{
    let mut items = Vec::new(alloc);
    push_word_and_cell(alloc, &mut items, word, cell)?;
    push_node(alloc, &mut items, node)?;
    Ok(Value::Array(items))
}

fn mark_value(alloc: Global, mark: Mark) -> Result<Value, AllocError>
    ensures { IfOk result (λ v. view v ≡ mark_data mark) }
{
    match mark {
        Mark::Skip(count) => Ok(Value::from(count)),
        Mark::Gap(cell) => gap_value(alloc, cell),
        Mark::Touch { cell, node, how } => cell_mark_value(alloc, how_word(how), cell, node),
        Mark::Make { cell, node, full } => cell_mark_value(alloc, make_word(full), cell, node),
        Mark::Fill { cell, node } => cell_mark_value(alloc, "fill", cell, node),
    }
}

fn marks_value(alloc: Global, marks: &List<Mark>) -> Result<Value, AllocError>
    ensures { IfOk result (λ v. view v ≡ marks_data marks.now) }
{
    let mut items = Vec::new(alloc);
    for mark in marks.as_slice() {
        items.push(mark_value(alloc, *mark)?)?;
    }
    Ok(Value::Array(items))
}

// ## Rows

fn row_value(alloc: Global, row: &RowMarks) -> Result<Value, AllocError>
    ensures { IfOk result (λ v. view v ≡ row_data row.now) }
{
    let mut items = Vec::new(alloc);
    push_node(alloc, &mut items, row.node)?;
    items.push(marks_value(alloc, &row.marks)?)?;
    Ok(Value::Array(items))
}

/// The rows that a change lists.
pub fn rows_value(alloc: Global, rows: &List<RowMarks>) -> Result<Value, AllocError>
    ensures { IfOk result (λ v. view v ≡ list_data (map row_data rows.now)) }
{
    let mut items = Vec::new(alloc);
    for row in rows.as_slice() {
        items.push(row_value(alloc, row)?)?;
    }
    Ok(Value::Array(items))
}

// ## Registers

// Puts a field behind other values, and who is there.
fn push_held(
    alloc: Global,
    items: &mut Vec<Value>,
    field: &FieldId,
    held: Option<NodeId>,
) -> Result<(), AllocError>
    ensures { OnOk result (map view items.new.items
        ≡ map view items.old.items ++ node_data field.now.node ∷ string field.now.key.0 ∷ node_or_null held ∷ []) }
{
    push_node(alloc, items, field.node)?;
    push_text(alloc, items, field.key.0.as_str())?;
    push_node_or_null(alloc, items, held)
}

// Puts behind other values what becomes of who is in a register, and who comes in.
fn push_fate(alloc: Global, items: &mut Vec<Value>, register: &RegMark) -> Result<(), AllocError>
    ensures { OnOk result (map view items.new.items
        ≡ map view items.old.items ++ string (how_text register.now.how) ∷ boolean register.now.clear ∷ node_or_null register.now.fill ∷ []) }
{
    push_text(alloc, items, how_word(register.how))?;
    items.push(Value::Bool(register.clear))?;
    push_node_or_null(alloc, items, register.fill)
}

fn register_value(alloc: Global, register: &RegMark) -> Result<Value, AllocError>
    ensures { IfOk result (λ v. view v ≡ register_data register.now) }
{
    let mut items = Vec::new(alloc);
    push_held(alloc, &mut items, &register.field, register.held)?;
    push_fate(alloc, &mut items, register)?;
    Ok(Value::Array(items))
}

/// The registers that a change lists.
pub fn registers_value(alloc: Global, registers: &List<RegMark>) -> Result<Value, AllocError>
    ensures { IfOk result (λ v. view v ≡ list_data (map register_data registers.now)) }
{
    let mut items = Vec::new(alloc);
    for register in registers.as_slice() {
        items.push(register_value(alloc, register)?)?;
    }
    Ok(Value::Array(items))
}

// ## Nodes

fn loose_value(alloc: Global, loose: Loose) -> Result<Value, AllocError>
    ensures { IfOk result (λ v. view v ≡ loose_data loose) }
{
    let mut items = Vec::new(alloc);
    push_node(alloc, &mut items, loose.node)?;
    push_text(alloc, &mut items, how_word(loose.how))?;
    Ok(Value::Array(items))
}

/// The mentioned nodes that are nowhere.
pub fn all_loose_value(alloc: Global, loose: &List<Loose>) -> Result<Value, AllocError>
    ensures { IfOk result (λ v. view v ≡ list_data (map loose_data loose.now)) }
{
    let mut items = Vec::new(alloc);
    for one in loose.as_slice() {
        items.push(loose_value(alloc, *one)?)?;
    }
    Ok(Value::Array(items))
}

fn leaf_value(alloc: Global, leaf: &Leaf) -> Result<Value, AllocError>
    ensures { IfOk result (λ v. view v ≡ leaf_data leaf.now) }
{
    match leaf {
        Leaf::Null => Ok(Value::Null),
        Leaf::Bool(value) => Ok(Value::Bool(*value)),
        Leaf::Int(value) => Ok(Value::from(*value)),
        Leaf::Words(text) => text_value(alloc, text.as_str()),
    }
}

// Puts the value of a leaf behind other values, if there is one.
fn push_leaf(alloc: Global, items: &mut Vec<Value>, leaf: &Leaf) -> Result<(), AllocError>
    ensures { OnOk result (map view items.new.items ≡ map view items.old.items ++ leaf_data leaf.now ∷ []) }
{
    let value = leaf_value(alloc, leaf)?;
    items.push(value)?;
    Ok(())
}

// A name and a type.
fn named_value(alloc: Global, node: NodeId, ty: &Text) -> Result<Vec<Value>, AllocError>
    ensures { IfOk result (λ v. map view v.items ≡ node_data node ∷ string ty.now ∷ []) }
{
    let mut items = Vec::new(alloc);
    push_node(alloc, &mut items, node)?;
    push_text(alloc, &mut items, ty.as_str())?;
    Ok(items)
}

fn new_leaf_value(alloc: Global, node: NodeId, ty: &Text, leaf: &Leaf) -> Result<Value, AllocError>
    ensures { IfOk result (λ v. view v ≡ list_data (node_data node ∷ string ty.now ∷ leaf_data leaf.now ∷ [])) }
{
    let mut items = named_value(alloc, node, ty)?;
    push_leaf(alloc, &mut items, leaf)?;
    Ok(Value::Array(items))
}

fn new_value(alloc: Global, new: &NewNode) -> Result<Value, AllocError>
    ensures { IfOk result (λ v. view v ≡ new_data new.now) }
{
    match &new.leaf {
        None => Ok(Value::Array(named_value(alloc, new.node, &new.ty)?)),
        Some(leaf) => new_leaf_value(alloc, new.node, &new.ty, leaf),
    }
}

/// The nodes that a change makes.
pub fn all_new_value(alloc: Global, new: &List<NewNode>) -> Result<Value, AllocError>
    ensures { IfOk result (λ v. view v ≡ list_data (map new_data new.now)) }
{
    let mut items = Vec::new(alloc);
    for one in new.as_slice() {
        items.push(new_value(alloc, one)?)?;
    }
    Ok(Value::Array(items))
}
