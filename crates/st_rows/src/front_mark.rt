//! Marks that are read from the front.
ghost use Rattle.std.specs.Prelude.{◌≡◌};
ghost use Rattle.st_rows.specs.Heads.{marks_left, IsFirst};

use st_marks::Mark;

/// What comes first in marks that are read: nothing, so many counted cells, a cell that is made, or another cell.
#[derive(Clone, Copy)]
pub enum Head<'a> {
    End,
    Many(u32),
    Make(&'a Mark),
    Cell(&'a Mark),
}

/// Takes what comes first, where so many counted cells stand before the marks.
#[inline(always)]
pub fn next<'a>(count: u32, marks: &'a [Mark]) -> (Head<'a>, &'a [Mark])
    ensures { IsFirst (marks_left count marks.now) result.0 result.1.now }
{
    if count > 0 {
        return (Head::Many(count), marks);
    }
    let mut rest = marks;
    while let [mark, more @ ..] = rest {
        match *mark {
            Mark::Skip(0) => rest = more,
            Mark::Skip(k) => return (Head::Many(k), more),
            Mark::Make { .. } => return (Head::Make(mark), more),
            _ => return (Head::Cell(mark), more),
        }
    }
    (Head::End, rest)
}
