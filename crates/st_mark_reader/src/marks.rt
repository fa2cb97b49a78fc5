//! Marks, rows and registers read from values.
ghost use Rattle.std.specs.Prelude.{◌≡◌, IfOk, option_and_then};
ghost use Rattle.serde_json.specs.View.{view, items_view};
ghost use Rattle.st_mark_reader.specs.Reading.{how_named, how_of, mark_named, gap_of, cell_mark_of, mark_in, mark_of, row_in, row_of, field_of, fate_of, register_at, register_in, register_of, list_of};

use crate::items::{six_items, three_in, two_in, two_items};
use crate::names::{ReadNames, cell, node, occupant};
use crate::parts::Fate;
use crate::values::{ReadItem, key, read_list, small_number};
use serde_json::Value;
use st_ids::{CellId, FieldId, NodeId};
use st_marks::{How, Mark, RegMark, RowMarks};
use std::alloc::{AllocError, Global};

// What becomes of a node, by its word.
fn how_named(word: &str) -> Option<How>
    ensures { result ≡ how_named word.now }
{
    match word {
        "at" => Some(How::Stay),
        "set" => Some(How::Here),
        "out" => Some(How::Leave),
        _ => None,
    }
}

/// What becomes of a node.
pub fn how(value: &Value) -> Option<How>
    ensures { result ≡ how_of (view value.now) }
{
    how_named(value.as_str()?)
}

// The mark of a word, a cell and a node.
fn mark_named(word: &str, cell: CellId, node: NodeId) -> Option<Mark>
    ensures { result ≡ mark_named word.now cell node }
{
    match word {
        "make" => Some(Mark::Make {
            cell,
            node,
            full: true,
        }),
        "hole" => Some(Mark::Make {
            cell,
            node,
            full: false,
        }),
        "fill" => Some(Mark::Fill { cell, node }),
        _ => {
            let how = how_named(word)?;
            Some(Mark::Touch { cell, node, how })
        }
    }
}

// The mark of an empty cell that stays empty.
fn gap<N: ReadNames>(names: &N, word: &Value, empty: &Value) -> Option<Mark>
    ensures { result ≡ gap_of (N.form names.now) (view word.now) (view empty.now) }
{
    if word.as_str()? == "gap" {
        Some(Mark::Gap(cell(names, empty)?))
    } else {
        None
    }
}

// The mark of a word, a cell and a node, as values.
fn cell_mark<N: ReadNames>(names: &N, word: &Value, place: &Value, who: &Value) -> Option<Mark>
    ensures { result ≡ cell_mark_of (N.form names.now) (view word.now) (view place.now) (view who.now) }
{
    let word = word.as_str()?;
    let cell = cell(names, place)?;
    let node = node(names, who)?;
    mark_named(word, cell, node)
}

// The mark of some values.
fn mark_in<N: ReadNames>(names: &N, items: &[Value]) -> Option<Mark>
    ensures { result ≡ mark_in (N.form names.now) (items_view items.now) }
{
    if let Some((word, cell)) = two_in(items) {
        gap(names, word, cell)
    } else {
        let (word, cell, node) = three_in(items)?;
        cell_mark(names, word, cell, node)
    }
}

/// A mark.
pub fn mark<N: ReadNames>(names: &N, value: &Value) -> Option<Mark>
    ensures { result ≡ mark_of (N.form names.now) (view value.now) }
{
    match value.as_array() {
        Some(items) => mark_in(names, items.as_slice()),
        None => Some(Mark::Skip(small_number(value)?)),
    }
}

/// How marks are read.
#[derive(Clone, Copy)]
pub struct Marks<'a, N>(pub &'a N);

impl<N: ReadNames> ReadItem for Marks<'_, N> {
    type Item = Mark;

    ghost of = { λ s. mark_of (N.form s.0.now) };

    fn read(&self, _alloc: Global, value: &Value) -> Result<Option<Mark>, AllocError> {
        Ok(mark(self.0, value))
    }
}

// The row of a node, with its marks.
fn row_in<N: ReadNames>(
    alloc: Global,
    names: &N,
    whose: &Value,
    marks: &Value,
) -> Result<Option<RowMarks>, AllocError>
    ensures { IfOk result (λ o. o ≡ row_in (N.form names.now) (view whose.now, view marks.now)) }
{
    let Some(node) = node(names, whose) else {
        return Ok(None);
    };
    match read_list(alloc, marks, &Marks(names))? {
        None => Ok(None),
        Some(marks) => Ok(Some(RowMarks { node, marks })),
    }
}

/// How rows are read.
#[derive(Clone, Copy)]
pub struct Rows<'a, N>(pub &'a N);

impl<N: ReadNames> ReadItem for Rows<'_, N> {
    type Item = RowMarks;

    ghost of = { λ s. row_of (N.form s.0.now) };

    fn read(&self, alloc: Global, value: &Value) -> Result<Option<RowMarks>, AllocError> {
        match two_items(value) {
            None => Ok(None),
            Some((whose, marks)) => row_in(alloc, self.0, whose, marks),
        }
    }
}

/// A field of a node.
pub fn field<N: ReadNames>(
    alloc: Global,
    names: &N,
    whose: &Value,
    under: &Value,
) -> Result<Option<FieldId>, AllocError>
    ensures { IfOk result (λ o. o ≡ field_of (N.form names.now) (view whose.now) (view under.now)) }
{
    let Some(node) = node(names, whose) else {
        return Ok(None);
    };
    match key(alloc, under)? {
        None => Ok(None),
        Some(key) => Ok(Some(FieldId { node, key })),
    }
}

// Who is in a register, what becomes of that node, whether the register is cleared, and who comes in.
fn fate<N: ReadNames>(
    names: &N,
    held: &Value,
    word: &Value,
    clear: &Value,
    fill: &Value,
) -> Option<Fate>
    ensures { result ≡ fate_of (N.form names.now) (view held.now) (view word.now) (view clear.now) (view fill.now) }
{
    let held = occupant(names, held)?;
    let how = how(word)?;
    let clear = clear.as_bool()?;
    let fill = occupant(names, fill)?;
    Some(Fate {
        held,
        how,
        clear,
        fill,
    })
}

// The register of a field, with its fate.
fn register_at<N: ReadNames>(
    alloc: Global,
    names: &N,
    whose: &Value,
    under: &Value,
    fate: Fate,
) -> Result<Option<RegMark>, AllocError>
    ensures { IfOk result (λ o. o ≡ register_at (N.form names.now) (view whose.now) (view under.now) fate) }
{
    match field(alloc, names, whose, under)? {
        None => Ok(None),
        Some(field) => Ok(Some(RegMark {
            field,
            held: fate.held,
            how: fate.how,
            clear: fate.clear,
            fill: fate.fill,
        })),
    }
}

// The register of a field, if there is a fate.
fn register_with<N: ReadNames>(
    alloc: Global,
    names: &N,
    whose: &Value,
    under: &Value,
    fate: Option<Fate>,
) -> Result<Option<RegMark>, AllocError>
    ensures { IfOk result (λ o. o ≡ option_and_then (register_at (N.form names.now) (view whose.now) (view under.now)) fate) }
{
    match fate {
        None => Ok(None),
        Some(fate) => register_at(alloc, names, whose, under, fate),
    }
}

/// How registers are read.
#[derive(Clone, Copy)]
pub struct Registers<'a, N>(pub &'a N);

impl<N: ReadNames> ReadItem for Registers<'_, N> {
    type Item = RegMark;

    ghost of = { λ s. register_of (N.form s.0.now) };

    fn read(&self, alloc: Global, value: &Value) -> Result<Option<RegMark>, AllocError> {
        match six_items(value) {
            None => Ok(None),
            Some((whose, under, held, word, clear, fill)) => {
                let fate = fate(self.0, held, word, clear, fill);
                register_with(alloc, self.0, whose, under, fate)
            }
        }
    }
}
