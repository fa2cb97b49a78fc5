//! Whether a change is that of an intent which fits a document.
ghost use Rattle.std.specs.Prelude.{◌≡◌, ◌↔◌, Bool, IsTrue};
ghost use Rattle.st_marks.specs.Document.{Document, IsSoundInForm};
ghost use Rattle.st_marks.specs.Extends.{IsExtendedBy};
ghost use Rattle.st_marks.specs.Normal.{IsNormalChange};
ghost use Rattle.st_read_laws.specs.Reading.{IsStepRead};
ghost use Rattle.st_forest.specs.Stands.{StandsFor};
ghost use Rattle.st_author_laws.specs.Back.{IsOfAnIntent};
ghost use Rattle.st_author_over.specs.New.{MakesNewCells};
ghost use Rattle.st_author_over.specs.inside.Seen.{no_step as none};

use crate::stands::{finds_all, stands_before};
use st_author_laws::{changes_are_judged_back, changes_of_intents_are_over};
use st_forest::Forest;
use st_ids::List;
use st_marks::{Change, Step};
use st_normal_laws::normal_changes_obey;
use std::alloc::Global;

/// Whether a stranger's change is that of an intent which fits its author's document, told by the forest of the document of all
/// commits received and the bridge to it from the author's document. It takes no memory. What the change names is looked up, in the
/// bridge by going through its lists; a row that it lists is gone through beside the bridge's marks. For a change that makes cells,
/// which can't be there yet, all rows of the forest are gone through: `author_over_with_new_cells` spares that.
pub fn author_over(forest: &Forest, bridge: &Step, change: &Change) -> bool
    ensures { (listed : Bool) (A T : Document) → StandsFor forest.now T → IsExtendedBy A T → IsStepRead listed A T bridge.now
        → IsNormalChange change.now → IsTrue result ↔ IsOfAnIntent A change.now }
{
    changes_are_judged_back();
    normal_changes_obey();
    stands_before(forest, bridge, change)
}

/// As `author_over`, for a change whose cells are known to be new, as those are of a revision that nobody used before. No row is gone
/// through but those that the change lists.
pub fn author_over_with_new_cells(forest: &Forest, bridge: &Step, change: &Change) -> bool
    ensures { (listed : Bool) (A T : Document) → StandsFor forest.now T → IsExtendedBy A T → IsStepRead listed A T bridge.now
        → IsNormalChange change.now → MakesNewCells T change.now → IsTrue result ↔ IsOfAnIntent A change.now }
{
    changes_are_judged_back();
    normal_changes_obey();
    finds_all(forest, bridge, change)
}

// A step that lists nothing. No memory is taken for it.
fn no_step(alloc: Global) -> Step
    ensures { result ≡ none }
{
    Step {
        new: List::new(alloc),
        rows: List::new(alloc),
        regs: List::new(alloc),
        loose: List::new(alloc),
        schema: None,
    }
}

// As `is_over`, by a step that lists nothing.
fn is_over_by(forest: &Forest, step: &Step, change: &Change) -> bool
    requires { step.now ≡ none }
    ensures { (D : Document) → StandsFor forest.now D → IsSoundInForm D → IsNormalChange change.now
        → IsTrue result ↔ IsOfAnIntent D change.now }
{
    changes_of_intents_are_over();
    normal_changes_obey();
    stands_before(forest, step, change)
}

// As `is_over_with_new_cells`, by a step that lists nothing.
fn is_over_with_new_cells_by(forest: &Forest, step: &Step, change: &Change) -> bool
    requires { step.now ≡ none }
    ensures { (D : Document) → StandsFor forest.now D → IsSoundInForm D → IsNormalChange change.now → MakesNewCells D change.now
        → IsTrue result ↔ IsOfAnIntent D change.now }
{
    changes_of_intents_are_over();
    normal_changes_obey();
    finds_all(forest, step, change)
}

/// Whether a change is that of an intent which fits the document of a forest. For a change that makes cells, all rows of the forest
/// are gone through: `is_over_with_new_cells` spares that.
pub fn is_over(forest: &Forest, change: &Change) -> bool
    ensures { (D : Document) → StandsFor forest.now D → IsSoundInForm D → IsNormalChange change.now
        → IsTrue result ↔ IsOfAnIntent D change.now }
{
    let step = no_step(forest.schemas.allocator());
    is_over_by(forest, &step, change)
}

/// As `is_over`, for a change whose cells are known to be new. No row is gone through but those that the change lists.
pub fn is_over_with_new_cells(forest: &Forest, change: &Change) -> bool
    ensures { (D : Document) → StandsFor forest.now D → IsSoundInForm D → IsNormalChange change.now → MakesNewCells D change.now
        → IsTrue result ↔ IsOfAnIntent D change.now }
{
    let step = no_step(forest.schemas.allocator());
    is_over_with_new_cells_by(forest, &step, change)
}
