//! Marks and rows, written behind a text.
ghost use Rattle.std.specs.Prelude.{◌≡◌, ◌++◌, map, OnOk};
ghost use Rattle.serde_json.specs.Written.{compact_text};
ghost use Rattle.st_change_codec.specs.Changes.{list_data};
ghost use Rattle.st_change_writer.specs.Listed.{mark_data, marks_data, node_data, row_data};
ghost use Rattle.st_change_writer.specs.Texts.{cell_mark_text, how_front, make_front};

use crate::lists::{PushItem, push_list};
use crate::names::{PushNames, push_number};
use st_ids::{CellId, NodeId, Text};
use st_marks::{How, Mark, RowMarks};
use std::alloc::AllocError;

// The beginning of a mark with a word, as far as the first name.
fn how_front(how: How) -> &'static str
    ensures { result.now ≡ how_front how }
{
    match how {
        How::Stay => "[\"at\",",
        How::Here => "[\"set\",",
        How::Leave => "[\"out\",",
    }
}

fn make_front(full: bool) -> &'static str
    ensures { result.now ≡ make_front full }
{
    if full { "[\"make\"," } else { "[\"hole\"," }
}

// A mark with a cell and a node, from its beginning on.
fn push_cell_mark<N: PushNames>(
    out: &mut Text,
    front: &str,
    cell: CellId,
    node: NodeId,
    names: &N,
) -> Result<(), AllocError>
    ensures { OnOk result (out.new ≡ out.old ++ cell_mark_text front.now (compact_text ((N.naming names.now).atom cell.0)) (compact_text ((N.naming names.now).atom node.0))) }
{
    out.push_str(front)?;
    names.push_atom(out, cell.0)?;
    out.push_str(",")?;
    names.push_atom(out, node.0)?;
    out.push_str("]")
}

#[tactic(auto, using(crate::proofs::Append::gap_is))]
fn push_gap<N: PushNames>(out: &mut Text, cell: CellId, names: &N) -> Result<(), AllocError>
    ensures { OnOk result (out.new ≡ out.old ++ compact_text (mark_data (N.naming names.now) (Mark.Gap cell))) }
{
    out.push_str("[\"gap\",")?;
    names.push_atom(out, cell.0)?;
    out.push_str("]")
}

// Writes a mark.
#[tactic(auto, using(crate::proofs::Append::touch_is, crate::proofs::Append::make_is, crate::proofs::Append::fill_is))]
fn push_mark<N: PushNames>(out: &mut Text, mark: Mark, names: &N) -> Result<(), AllocError>
    ensures { OnOk result (out.new ≡ out.old ++ compact_text (mark_data (N.naming names.now) mark)) }
{
    match mark {
        Mark::Skip(count) => push_number(out, count),
        Mark::Gap(cell) => push_gap(out, cell, names),
        Mark::Touch { cell, node, how } => push_cell_mark(out, how_front(how), cell, node, names),
        Mark::Make { cell, node, full } => push_cell_mark(out, make_front(full), cell, node, names),
        Mark::Fill { cell, node } => push_cell_mark(out, "[\"fill\",", cell, node, names),
    }
}

// How marks are written.
#[derive(Clone, Copy)]
struct Marks<'a, N>(&'a N);

impl<N: PushNames> PushItem for Marks<'_, N> {
    type Item = Mark;

    ghost told = { λ s. mark_data (N.naming s.0.now) };

    fn push(&self, out: &mut Text, item: &Mark) -> Result<(), AllocError> {
        push_mark(out, *item, self.0)
    }
}

// Writes a row.
#[tactic(auto, using(crate::proofs::Append::row_is))]
fn push_row<N: PushNames>(out: &mut Text, row: &RowMarks, names: &N) -> Result<(), AllocError>
    ensures { OnOk result (out.new ≡ out.old ++ compact_text (row_data (N.naming names.now) row.now)) }
{
    out.push_str("[")?;
    names.push_atom(out, row.node.0)?;
    out.push_str(",")?;
    push_list(out, row.marks.as_slice(), &Marks(names))?;
    out.push_str("]")
}

/// How rows are written.
#[derive(Clone, Copy)]
pub(crate) struct Rows<'a, N>(pub &'a N);

impl<N: PushNames> PushItem for Rows<'_, N> {
    type Item = RowMarks;

    ghost told = { λ s. row_data (N.naming s.0.now) };

    fn push(&self, out: &mut Text, item: &RowMarks) -> Result<(), AllocError> {
        push_row(out, item, self.0)
    }
}
