//! A law on the test: it is the contract of a function that does nothing.
ghost use Rattle.std.specs.Prelude.{◌≡◌, true};
ghost use Rattle.st_marks.specs.declared.changes.Change.{Change};
ghost use Rattle.st_marks.specs.declared.steps.Step.{Step};
ghost use Rattle.st_passing.specs.Whole.{Passes};
ghost use Rattle.st_fast_path.specs.Tests.{pass_each_other};

/// A change and a step of which the test holds pass each other.
pub fn tests_tell()
    ensures { (C : Change) (S : Step) → pass_each_other C S ≡ true → Passes C S }
{}
