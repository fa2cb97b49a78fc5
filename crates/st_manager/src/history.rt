//! The manager as undo reads it.
ghost use Rattle.std.specs.Prelude.{◌≡◌};
ghost use Rattle.std.specs.List.{list_any};
ghost use Rattle.st_ids.specs.Order.{same_rev};
ghost use Rattle.st_marks.specs.declared.changes.Change.{Change as Carried};
ghost use Rattle.st_manager.specs.Stands.{Stands};
ghost use Rattle.st_manager.specs.Told.{Told, past};

use crate::manager::Manager;
use st_history::History;
use st_ids::{List, Rev, is_same_rev};
use st_marks::Change;
use st_rebaser::Rebaser;
use st_window::Window;

// Whether one of some changes has a revision.
fn any_has(changes: &[Change], rev: Rev) -> bool
    ensures { result ≡ list_any (λ (C : Carried). same_rev C.rev rev) changes.now }
{
    changes.iter().any(|change| is_same_rev(change.rev, rev))
}

impl<R: Rebaser> History for Manager<R> {
    ghost listed = { R.listed };

    ghost tells = { λ m p. (t : Told) × Stands R.listed t m × (past t ≡ p) };

    ghost window = { λ m. m.window };

    fn kept(&self) -> &Window {
        &self.window
    }

    fn local(&self) -> &List<Change> {
        &self.pending.changes
    }

    fn has(&self, rev: Rev) -> bool {
        self.ledger.has_commit(rev) || any_has(self.pending.changes.as_slice(), rev)
    }

    fn lowest(&self) -> u32 {
        self.window.floor()
    }
}
