//! Whether rows stay short.
ghost use Rattle.std.specs.Prelude.{◌≡◌, ◌↔◌, ◌^◌, ◌++◌, nat_le, nat_lt, true, None, length};
ghost use Rattle.std.specs.List.{list_all};
ghost use Rattle.st_marks.specs.CarryOut.{full, with_groups};
ghost use Rattle.st_marks.specs.Document.{HasShortRows, IsSoundInForm};
ghost use Rattle.st_marks.specs.Intent.{group_at};
ghost use Rattle.st_doc.specs.Doc.{document_of};

use crate::doc::Doc;
use crate::rows::{cells_at, cells_of};
use st_ids::NodeId;
use st_marks::{Intent, Owned};

const MOST_CELLS: usize = (1 << 32) - 1;

// Whether a row and the groups behind its cells have no more than so many cells.
fn is_within(intent: &Intent, node: NodeId, row: &[Owned], most: usize) -> bool
    ensures { result ≡ nat_le (length (with_groups intent.now node row.now)) most }
{
    let mut left = most;
    for owned in row {
        let more = cells_at(intent, node, Some(owned.cell)).len();
        if more >= left {
            return false;
        }
        left -= 1 + more;
    }
    true
}

// Whether a row stays short.
fn stays_short(intent: &Intent, node: NodeId, row: &[Owned]) -> bool
    ensures { result ≡ nat_lt (length (group_at intent.now node None ++ with_groups intent.now node row.now)) (2 ^ 32) }
{
    let start = cells_at(intent, node, None).len();
    start <= MOST_CELLS && is_within(intent, node, row, MOST_CELLS - start)
}

// Whether each row in which an intent makes cells stays short.
fn rows_short(doc: &Doc, intent: &Intent) -> bool
    ensures { result ≡ list_all (λ g. nat_lt (length ((full (document_of doc.now) intent.now).rows g.node)) (2 ^ 32)) intent.now.groups }
{
    let groups = intent.groups.as_slice();
    groups.iter().all(|g| stays_short(intent, g.node, cells_of(&doc.rows, g.node)))
}

impl Doc {
    /// Whether each row has fewer than 2^32 cells once an intent is carried out.
    pub fn has_room(&self, intent: &Intent) -> bool
        requires { IsSoundInForm (document_of self.now) }
        ensures { (result ≡ true) ↔ HasShortRows (full (document_of self.now) intent.now) }
    {
        rows_short(self, intent)
    }
}
