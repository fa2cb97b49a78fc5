//! A bridge that is lent with each empty cell named.
ghost use Rattle.std.specs.Prelude.{Bool, true, false, ◌≡◌, ◌↔◌, IfOk, IsErrOf};
ghost use Rattle.st_forest.specs.Stands.{StandsFor};
ghost use Rattle.st_ids.specs.declared.fault.Or.TheVariants.{Fault};
ghost use Rattle.st_lists.specs.Log.{is_connected};
ghost use Rattle.st_marks.specs.Document.{Document};
ghost use Rattle.st_read_laws.specs.Reading.{IsStepRead};
ghost use Rattle.st_seats.specs.Seats.{IsBridge};
ghost use Rattle.st_manager.specs.Stands.{Stands};
ghost use Rattle.st_manager.specs.Told.{Told};

use crate::manager::{Manager, NoSession};
use st_forest::Forest;
use st_ids::{Copied, Or};
use st_listed::list_step;
use st_marks::Step;
use st_rebaser::Rebaser;
use std::alloc::{AllocError, Global};

// A step to the document for which the tables stand, with each empty cell named.
fn with_cells_named(alloc: Global, trunk: &Forest, step: &Step) -> Result<Step, AllocError>
    ensures { (l : Bool) (D E : Document) → StandsFor trunk.now E → IsStepRead l D E step.now
        → IfOk result (λ s. IsStepRead true D E s) }
{
    let mut named = step.copy(alloc)?;
    list_step(alloc, trunk, &mut named)?;
    Ok(named)
}

impl<R: Rebaser> Manager<R> {
    /// The bridge of a session, with each empty cell named: a copy of the kept one, whose rows are gone through whole.
    pub fn bridge_of(&self, alloc: Global, session: u32) -> Result<Step, Or<NoSession>>
        ensures bridge { (t : Told) → Stands R.listed t self.now
            → IfOk result (IsBridge true t.opening t.log session) }
        ensures no_session { (t : Told) → Stands R.listed t self.now
            → IsErrOf result (Fault (record {})) ↔ (is_connected session t.log ≡ false) }
    {
        match self.kept_bridge(session) {
            Err(none) => Err(Or::Fault(none)),
            Ok(bridge) => Ok(with_cells_named(alloc, &self.trunk, bridge)?),
        }
    }
}
