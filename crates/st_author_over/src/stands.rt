//! Whether a change finds before a step what is so, and makes what isn't there.
ghost use Rattle.std.specs.Prelude.{◌↔◌, IsTrue};
ghost use Rattle.st_marks.specs.Document.{Document, IsSoundInForm};
ghost use Rattle.st_normal.specs.Rules.{ObeysChangeRules};
ghost use Rattle.st_forest.specs.Stands.{StandsFor};
ghost use Rattle.st_author_laws.specs.Back.{IsOverBack};
ghost use Rattle.st_author_over.specs.inside.Seen.{FindsAll, FindsEntries, FindsFields, FindsNodes};

use crate::cells::cells_are_free;
use crate::schemas::{entries_before, has_its_base, has_its_schema};
use crate::seen::{Before, finds_each};
use st_forest::Forest;
use st_marks::{Change, Step};

// Whether a change finds what is so of rows and registers.
fn finds_fields(of: &Before<'_>, change: &Change) -> bool
    ensures { IsTrue result ↔ FindsFields of.now.forest.now of.now.step.now change.now }
{
    finds_each(of, change.rows.as_slice()) && finds_each(of, change.regs.as_slice())
}

// Whether a change finds what is so of nodes.
fn finds_nodes(of: &Before<'_>, change: &Change) -> bool
    ensures { IsTrue result ↔ FindsNodes of.now.forest.now of.now.step.now change.now }
{
    finds_each(of, change.loose.as_slice()) && finds_each(of, change.new.as_slice())
}

// Whether a change finds what is so of schema entries.
fn finds_entries(forest: &Forest, step: &Step, change: &Change) -> bool
    ensures { IsTrue result ↔ FindsEntries forest.now step.now change.now }
{
    let entries = entries_before(forest.schemas.as_slice(), &step.schema);
    has_its_base(&entries, change) && has_its_schema(&entries, change)
}

/// Whether a change finds before a step what is so, and makes nodes that aren't there.
pub fn finds_all(forest: &Forest, step: &Step, change: &Change) -> bool
    ensures { IsTrue result ↔ FindsAll forest.now step.now change.now }
{
    let of = Before { forest, step };
    finds_fields(&of, change) && finds_nodes(&of, change) && finds_entries(forest, step, change)
}

/// Whether a change finds before a step what is so, and makes what isn't there.
pub fn stands_before(forest: &Forest, step: &Step, change: &Change) -> bool
    ensures { (T : Document) → StandsFor forest.now T → IsSoundInForm T → ObeysChangeRules change.now
        → IsTrue result ↔ IsOverBack step.now T change.now }
{
    if !finds_all(forest, step, change) {
        return false;
    }
    cells_are_free(forest, step, change)
}
