//! Steps read from values.
ghost use Rattle.std.specs.Prelude.{◌≡◌, codes, IfOk, option_and_then};
ghost use Rattle.serde_json.specs.View.{view};
ghost use Rattle.st_mark_reader.specs.Reading.{loose_of, mark_of, member_of};
ghost use Rattle.st_change_reader.specs.StepReading.{if_moves, step_loose_in, step_loose_of, step_mark_in, step_mark_of, step_row_in, step_row_of, turn_of, reg_step_at, reg_step_of, entry_in, entry_of, schema_lists_of, schema_step_of, schema_part_of, step_fields_of, step_nodes_of, step_of_parts, step_lists_of, step_of};

use crate::change::{rev_member, schema_text};
use crate::parts::{StepFields, StepNodes, Turn};
use serde_json::Value;
use st_mark_reader::{
    NewNodes, ReadItem, ReadNames, field, four_items, is_named, list_member, loose, mark, node,
    occupant, read_list, two_items,
};
use st_marks::{How, Loose, Mark, RegStep, RowMarks, SchemaEntry, SchemaStep, Step};
use std::alloc::{AllocError, Global};

// What becomes of a node in a step: it stays or leaves.
fn if_moves(how: How) -> Option<How>
    ensures { result ≡ if_moves how }
{
    match how {
        How::Here => None,
        _ => Some(how),
    }
}

fn step_loose_in(loose: Loose) -> Option<Loose>
    ensures { result ≡ step_loose_in loose }
{
    let how = if_moves(loose.how)?;
    Some(Loose {
        node: loose.node,
        how,
    })
}

fn step_loose<N: ReadNames>(names: &N, value: &Value) -> Option<Loose>
    ensures { result ≡ step_loose_of (N.form names.now) (view value.now) }
{
    step_loose_in(loose(names, value)?)
}

/// How mentioned nodes of a step are read that are nowhere.
#[derive(Clone, Copy)]
pub(crate) struct StepNowhere<'a, N>(pub &'a N);

impl<N: ReadNames> ReadItem for StepNowhere<'_, N> {
    type Item = Loose;

    ghost of = { λ s. step_loose_of (N.form s.0.now) };

    fn read(&self, _alloc: Global, value: &Value) -> Result<Option<Loose>, AllocError> {
        Ok(step_loose(self.0, value))
    }
}

fn step_mark_in(mark: Mark) -> Option<Mark>
    ensures { result ≡ step_mark_in mark }
{
    match mark {
        Mark::Touch { cell, node, how } => {
            let how = if_moves(how)?;
            Some(Mark::Touch { cell, node, how })
        }
        _ => Some(mark),
    }
}

fn step_mark<N: ReadNames>(names: &N, value: &Value) -> Option<Mark>
    ensures { result ≡ step_mark_of (N.form names.now) (view value.now) }
{
    step_mark_in(mark(names, value)?)
}

/// How the marks of a step are read.
#[derive(Clone, Copy)]
pub(crate) struct StepMarks<'a, N>(pub &'a N);

impl<N: ReadNames> ReadItem for StepMarks<'_, N> {
    type Item = Mark;

    ghost of = { λ s. step_mark_of (N.form s.0.now) };

    fn read(&self, _alloc: Global, value: &Value) -> Result<Option<Mark>, AllocError> {
        Ok(step_mark(self.0, value))
    }
}

// The row of a node, with its marks.
fn step_row_in<N: ReadNames>(
    alloc: Global,
    names: &N,
    whose: &Value,
    marks: &Value,
) -> Result<Option<RowMarks>, AllocError>
    ensures { IfOk result (λ o. o ≡ step_row_in (N.form names.now) (view whose.now, view marks.now)) }
{
    let Some(node) = node(names, whose) else {
        return Ok(None);
    };
    match read_list(alloc, marks, &StepMarks(names))? {
        None => Ok(None),
        Some(marks) => Ok(Some(RowMarks { node, marks })),
    }
}

/// How the rows of a step are read.
#[derive(Clone, Copy)]
pub(crate) struct StepRows<'a, N>(pub &'a N);

impl<N: ReadNames> ReadItem for StepRows<'_, N> {
    type Item = RowMarks;

    ghost of = { λ s. step_row_of (N.form s.0.now) };

    fn read(&self, alloc: Global, value: &Value) -> Result<Option<RowMarks>, AllocError> {
        match two_items(value) {
            None => Ok(None),
            Some((whose, marks)) => step_row_in(alloc, self.0, whose, marks),
        }
    }
}

// Who is in a register before and after.
fn turn<N: ReadNames>(names: &N, before: &Value, after: &Value) -> Option<Turn>
    ensures { result ≡ turn_of (N.form names.now) (view before.now) (view after.now) }
{
    let before = occupant(names, before)?;
    let after = occupant(names, after)?;
    Some(Turn { before, after })
}

// The register of a field, with its turn.
fn register_at<N: ReadNames>(
    alloc: Global,
    names: &N,
    whose: &Value,
    under: &Value,
    turn: Turn,
) -> Result<Option<RegStep>, AllocError>
    ensures { IfOk result (λ o. o ≡ reg_step_at (N.form names.now) (view whose.now) (view under.now) turn) }
{
    match field(alloc, names, whose, under)? {
        None => Ok(None),
        Some(field) => Ok(Some(RegStep {
            field,
            before: turn.before,
            after: turn.after,
        })),
    }
}

// The register of a field, if there is a turn.
fn register_with<N: ReadNames>(
    alloc: Global,
    names: &N,
    whose: &Value,
    under: &Value,
    turn: Option<Turn>,
) -> Result<Option<RegStep>, AllocError>
    ensures { IfOk result (λ o. o ≡ option_and_then (reg_step_at (N.form names.now) (view whose.now) (view under.now)) turn) }
{
    match turn {
        None => Ok(None),
        Some(turn) => register_at(alloc, names, whose, under, turn),
    }
}

/// How the registers of a step are read.
#[derive(Clone, Copy)]
pub(crate) struct StepRegisters<'a, N>(pub &'a N);

impl<N: ReadNames> ReadItem for StepRegisters<'_, N> {
    type Item = RegStep;

    ghost of = { λ s. reg_step_of (N.form s.0.now) };

    fn read(&self, alloc: Global, value: &Value) -> Result<Option<RegStep>, AllocError> {
        match four_items(value) {
            None => Ok(None),
            Some((whose, under, before, after)) => {
                let turn = turn(self.0, before, after);
                register_with(alloc, self.0, whose, under, turn)
            }
        }
    }
}

// The entry of a revision and a schema.
fn entry_in<N: ReadNames>(
    alloc: Global,
    names: &N,
    rev: &Value,
    schema: &Value,
) -> Result<Option<SchemaEntry>, AllocError>
    ensures { IfOk result (λ o. o ≡ entry_in (N.form names.now) (view rev.now, view schema.now)) }
{
    let Some(rev) = names.rev(rev) else {
        return Ok(None);
    };
    match schema_text(alloc, schema)? {
        None => Ok(None),
        Some(text) => Ok(Some(SchemaEntry { rev, text })),
    }
}

/// How schema entries are read.
#[derive(Clone, Copy)]
pub(crate) struct Entries<'a, N>(pub &'a N);

impl<N: ReadNames> ReadItem for Entries<'_, N> {
    type Item = SchemaEntry;

    ghost of = { λ s. entry_of (N.form s.0.now) };

    fn read(&self, alloc: Global, value: &Value) -> Result<Option<SchemaEntry>, AllocError> {
        match two_items(value) {
            None => Ok(None),
            Some((rev, schema)) => entry_in(alloc, self.0, rev, schema),
        }
    }
}

// What a step does to the schemas, of its members.
fn schema_lists<N: ReadNames>(
    alloc: Global,
    names: &N,
    value: &Value,
) -> Result<Option<SchemaStep>, AllocError>
    ensures { IfOk result (λ o. o ≡ schema_lists_of (N.form names.now) (view value.now)) }
{
    let Some(on) = rev_member(names, value, "on") else {
        return Ok(None);
    };
    let Some(cut) = list_member(alloc, value, "cut", &Entries(names))? else {
        return Ok(None);
    };
    match list_member(alloc, value, "add", &Entries(names))? {
        None => Ok(None),
        Some(add) => Ok(Some(SchemaStep { on, cut, add })),
    }
}

// What a step does to the schemas.
fn schema_step<N: ReadNames>(
    alloc: Global,
    names: &N,
    value: &Value,
) -> Result<Option<SchemaStep>, AllocError>
    ensures { IfOk result (λ o. o ≡ schema_step_of (N.form names.now) (view value.now)) }
{
    if is_named(value, &["add", "cut", "on"]) {
        schema_lists(alloc, names, value)
    } else {
        Ok(None)
    }
}

// What a step does to the schemas, or nothing where the value is null.
fn schema_part<N: ReadNames>(
    alloc: Global,
    names: &N,
    value: &Value,
) -> Result<Option<Option<SchemaStep>>, AllocError>
    ensures { IfOk result (λ o. o ≡ schema_part_of (N.form names.now) (view value.now)) }
{
    if value.is_null() {
        return Ok(Some(None));
    }
    match schema_step(alloc, names, value)? {
        None => Ok(None),
        Some(step) => Ok(Some(Some(step))),
    }
}

// The schema part of a member.
fn schema_member<N: ReadNames>(
    alloc: Global,
    names: &N,
    value: &Value,
) -> Result<Option<Option<SchemaStep>>, AllocError>
    ensures { IfOk result (λ o. o ≡ member_of (schema_part_of (N.form names.now)) (codes "schema") (view value.now)) }
{
    match value.get("schema") {
        None => Ok(None),
        Some(schema) => schema_part(alloc, names, schema),
    }
}

// The fields that a step lists.
fn fields<N: ReadNames>(
    alloc: Global,
    names: &N,
    value: &Value,
) -> Result<Option<StepFields>, AllocError>
    ensures { IfOk result (λ o. o ≡ step_fields_of (N.form names.now) (view value.now)) }
{
    let Some(rows) = list_member(alloc, value, "rows", &StepRows(names))? else {
        return Ok(None);
    };
    match list_member(alloc, value, "regs", &StepRegisters(names))? {
        None => Ok(None),
        Some(regs) => Ok(Some(StepFields { rows, regs })),
    }
}

// The nodes that a step makes, and those that are nowhere.
fn nodes<N: ReadNames>(
    alloc: Global,
    names: &N,
    value: &Value,
) -> Result<Option<StepNodes>, AllocError>
    ensures { IfOk result (λ o. o ≡ step_nodes_of (N.form names.now) (view value.now)) }
{
    let Some(new) = list_member(alloc, value, "new", &NewNodes(names))? else {
        return Ok(None);
    };
    match list_member(alloc, value, "loose", &StepNowhere(names))? {
        None => Ok(None),
        Some(loose) => Ok(Some(StepNodes { new, loose })),
    }
}

// A step, of its parts.
fn step(nodes: StepNodes, fields: StepFields, schema: Option<SchemaStep>) -> Step
    ensures { result ≡ step_of_parts nodes fields schema }
{
    let StepNodes { new, loose } = nodes;
    let StepFields { rows, regs } = fields;
    Step {
        new,
        rows,
        regs,
        loose,
        schema,
    }
}

// A step, of its members.
fn read_lists<N: ReadNames>(
    alloc: Global,
    names: &N,
    value: &Value,
) -> Result<Option<Step>, AllocError>
    ensures { IfOk result (λ o. o ≡ step_lists_of (N.form names.now) (view value.now)) }
{
    let Some(nodes) = nodes(alloc, names, value)? else {
        return Ok(None);
    };
    let Some(fields) = fields(alloc, names, value)? else {
        return Ok(None);
    };
    match schema_member(alloc, names, value)? {
        None => Ok(None),
        Some(schema) => Ok(Some(step(nodes, fields, schema))),
    }
}

/// The step that a value is, by its form alone.
pub fn read_step<N: ReadNames>(
    alloc: Global,
    names: &N,
    value: &Value,
) -> Result<Option<Step>, AllocError>
    ensures { IfOk result (λ o. o ≡ step_of (N.form names.now) (view value.now)) }
{
    if is_named(value, &["loose", "new", "regs", "rows", "schema"]) {
        read_lists(alloc, names, value)
    } else {
        Ok(None)
    }
}
