//! Whether two listings of one row show the same cells.
ghost use Rattle.std.specs.Prelude.{◌≡◌, ◌∷◌, [], ◌<◌, List as Seq};
ghost use Rattle.st_marks.specs.Listings.{CellView, cells_before};
ghost use Rattle.st_marks.specs.Row.{spread};
ghost use Rattle.st_clash.specs.Views.{same_view, same_views};
ghost use Rattle.st_clash.specs.inside.Walk.{IsFront, IsTurn, shown_view, views_left};

use crate::owners::is_same_owner;
use st_ids::{CellId, NodeId, is_same_cell};
use st_marks::Mark;

// A cell that is named, with its owner where that is told.
#[derive(Clone, Copy)]
struct Shown {
    cell: CellId,
    node: Option<NodeId>,
    full: bool,
}

// What a row shows first, and the marks behind: so many counted cells, or a named one. What is made isn't shown.
#[derive(Clone, Copy)]
enum Front<'a> {
    End,
    Counted(u32, &'a [Mark]),
    Named(Shown, &'a [Mark]),
}

// What comes of the first cells of two rows: both end, they differ, or they are the same and that is left.
#[derive(Clone, Copy)]
enum Turn<'a> {
    Same,
    Apart,
    Go {
        x_count: u32,
        xs: &'a [Mark],
        y_count: u32,
        ys: &'a [Mark],
    },
}

// What is shown first, where so many counted cells stand before the marks.
fn front_of<'a>(count: u32, marks: &'a [Mark]) -> Front<'a>
    ensures { IsFront (views_left count marks.now) result }
{
    if count > 0 {
        return Front::Counted(count, marks);
    }
    let mut rest = marks;
    while let [mark, more @ ..] = rest {
        match *mark {
            Mark::Skip(0) => rest = more,
            Mark::Make { .. } => rest = more,
            Mark::Skip(k) => return Front::Counted(k, more),
            Mark::Gap(cell) => {
                let node = None;
                let full = false;
                return Front::Named(Shown { cell, node, full }, more);
            }
            Mark::Touch { cell, node, .. } => {
                let node = Some(node);
                let full = true;
                return Front::Named(Shown { cell, node, full }, more);
            }
            Mark::Fill { cell, node } => {
                let node = Some(node);
                let full = false;
                return Front::Named(Shown { cell, node, full }, more);
            }
        }
    }
    Front::End
}

// Whether two named cells are the same.
fn is_same_cell_shown(s: Shown, t: Shown) -> bool
    ensures { result ≡ same_view (shown_view s) (shown_view t) }
{
    s.full == t.full && is_same_cell(s.cell, t.cell) && is_same_owner(s.node, t.node)
}

// A turn where the first row has ended.
fn turn_at_end<'a>(other: Front<'a>) -> Turn<'a>
    ensures { (vs : Seq CellView) → IsFront vs other.entry → IsTurn [] vs result }
{
    match other {
        Front::End => Turn::Same,
        Front::Counted(_, _) => Turn::Apart,
        Front::Named(_, _) => Turn::Apart,
    }
}

// A turn where so many counted cells come first.
fn turn_at_counted<'a>(k: u32, xs: &'a [Mark], other: Front<'a>) -> Turn<'a>
    requires { 0 < k }
    ensures { (vs : Seq CellView) → IsFront vs other.entry → IsTurn (views_left k xs.now) vs result }
{
    match other {
        Front::Counted(j, ys) => {
            let met = if k < j { k } else { j };
            Turn::Go {
                x_count: k - met,
                xs,
                y_count: j - met,
                ys,
            }
        }
        Front::Named(shown, ys) => {
            if shown.full {
                Turn::Go {
                    x_count: k - 1,
                    xs,
                    y_count: 0,
                    ys,
                }
            } else {
                Turn::Apart
            }
        }
        Front::End => Turn::Apart,
    }
}

// A turn where a named cell comes first.
fn turn_at_named<'a>(s: Shown, xs: &'a [Mark], other: Front<'a>) -> Turn<'a>
    ensures { (vs : Seq CellView) → IsFront vs other.entry
        → IsTurn (shown_view s ∷ views_left 0 xs.now) vs result }
{
    match other {
        Front::Counted(k, ys) => {
            if s.full {
                Turn::Go {
                    x_count: 0,
                    xs,
                    y_count: k.saturating_sub(1),
                    ys,
                }
            } else {
                Turn::Apart
            }
        }
        Front::Named(t, ys) => {
            if is_same_cell_shown(s, t) {
                Turn::Go {
                    x_count: 0,
                    xs,
                    y_count: 0,
                    ys,
                }
            } else {
                Turn::Apart
            }
        }
        Front::End => Turn::Apart,
    }
}

// One turn of the walk over both rows.
fn turn_of<'a>(x_count: u32, xs: &'a [Mark], y_count: u32, ys: &'a [Mark]) -> Turn<'a>
    ensures { IsTurn (views_left x_count xs.now) (views_left y_count ys.now) result }
{
    let other = front_of(y_count, ys);
    match front_of(x_count, xs) {
        Front::End => turn_at_end(other),
        Front::Counted(k, more) => turn_at_counted(k, more, other),
        Front::Named(shown, more) => turn_at_named(shown, more, other),
    }
}

/// Whether two listings of one row show the same cells before it: as many, full or empty alike, with one name and one
/// owner where both tell it. Linear in the marks, whatever they count; takes no memory.
pub fn shows_same(a: &[Mark], b: &[Mark]) -> bool
    ensures { result ≡ same_views (cells_before (spread a.now)) (cells_before (spread b.now)) }
{
    let mut x_count = 0;
    let mut xs = a;
    let mut y_count = 0;
    let mut ys = b;
    'cells: loop {
        match turn_of(x_count, xs, y_count, ys) {
            Turn::Same => return true,
            Turn::Apart => return false,
            Turn::Go {
                x_count: p,
                xs: more,
                y_count: q,
                ys: rest,
            } => {
                x_count = p;
                xs = more;
                y_count = q;
                ys = rest;
            }
        }
    }
}
