//! Whether a step stands over a document.
ghost use Rattle.std.specs.Prelude.{◌≡◌, ◌↔◌, IsTrue, None};
ghost use Rattle.st_ids.specs.declared.names.CellId.{CellId as Cell};
ghost use Rattle.st_ids.specs.Listing.{Has};
ghost use Rattle.st_marks.specs.Document.{Document, IsSoundInForm};
ghost use Rattle.st_marks.specs.Listings.{cells_made};
ghost use Rattle.st_marks.specs.Normal.{IsNormalStep};
ghost use Rattle.st_normal.specs.Rules.{in_rows};
ghost use Rattle.st_forest.specs.Stands.{StandsFor};
ghost use Rattle.st_over_step.specs.Over.{LeadsFrom};

use crate::cells::cells_are_new;
use crate::parts::finds_what_is_so;
use crate::schemas::schemas_are_so;
use st_forest::Forest;
use st_marks::Step;

/// Whether a step whose cells are new, as the caller knows, stands over the document: whether it leads from it to one that extends
/// it. Takes no memory: each cell of a row that is listed is looked at once, and registers and nodes are looked up. Only the owner of
/// an empty cell that is made is sought among the new nodes, one after the other, where the forest hasn't got it.
pub fn is_over_step_of_new_cells(forest: &Forest, step: &Step) -> bool
    ensures { (D : Document) → StandsFor forest.now D → IsSoundInForm D → IsNormalStep step.now
        → ((c : Cell) → Has (in_rows cells_made step.now.rows) c → D.row_of c ≡ None)
        → IsTrue result ↔ LeadsFrom D step.now }
{
    finds_what_is_so(forest, step) && schemas_are_so(forest.schemas.as_slice(), &step.schema)
}

/// Whether a step stands over the document: whether it leads from it to one that extends it. Takes no memory. Where the step makes
/// cells, each cell of the document is compared with each of these; `is_over_step_of_new_cells` is for a caller who knows that they
/// are new.
pub fn is_over_step(forest: &Forest, step: &Step) -> bool
    ensures { (D : Document) → StandsFor forest.now D → IsSoundInForm D → IsNormalStep step.now
        → IsTrue result ↔ LeadsFrom D step.now }
{
    is_over_step_of_new_cells(forest, step) && cells_are_new(forest, step.rows.as_slice())
}
