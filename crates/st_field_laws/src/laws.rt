//! Laws on fields that a change and a step list alone: each is the contract of a function that does nothing.
ghost use Rattle.std.specs.Prelude.{◌≡◌, ◌≢◌, ◌↔◌, ℕ, [], List as Seq};
ghost use Rattle.st_ids.specs.declared.names.FieldId.{FieldId};
ghost use Rattle.st_ids.specs.declared.names.NodeId.{NodeId};
ghost use Rattle.st_field_laws.specs.Alone.{IsNamedBeside, ListsRegisterAlone, ListsRowAlone, NamesOnce, StepsRegisterAlone, StepsRowAlone};
ghost use Rattle.st_marks.specs.declared.changes.Change.{Change};
ghost use Rattle.st_marks.specs.Agree.{row_field};
ghost use Rattle.st_marks.specs.Listings.{cells_before};
ghost use Rattle.st_marks.specs.Row.{spread};
ghost use Rattle.st_marks.specs.declared.marks.Mark.{Mark};
ghost use Rattle.st_marks.specs.declared.steps.Step.{Step};
ghost use Rattle.st_seq.specs.NamedApart.{ApartAt, named_before};
ghost use Rattle.st_register.specs.Readings.{as_mark, as_step};
ghost use Rattle.st_register.specs.Register.{DifferAt};
ghost use Rattle.st_register.specs.declared.values.RegChange.{RegChange};
ghost use Rattle.st_register.specs.declared.values.RegSwap.{RegSwap};

/// A register is refused exactly where a rule on agreement names it, between a change and a step that list it alone.
pub fn registers_clash_as_listed()
    ensures { (C : Change) (S : Step) (f : FieldId) (x : RegChange) (s : RegSwap) → f.key.0 ≢ []
        → ListsRegisterAlone (as_mark f x) C → StepsRegisterAlone (as_step f s) S
        → ((k : ℕ) × DifferAt x.held s.before k) ↔ IsNamedBeside C S f }
{}

/// A row is refused exactly where a rule on agreement names it, between a change and a step that list it alone, if the change
/// names each cell and each standing node once.
pub fn rows_clash_as_listed()
    ensures { (C : Change) (S : Step) (n : NodeId) (xs ys : Seq Mark)
        → ListsRowAlone n xs C → StepsRowAlone n ys S → NamesOnce (spread xs)
        → ((k : ℕ) × ApartAt (cells_before (spread xs)) (cells_before (spread ys))
        (named_before 0 (spread xs)) (named_before 0 (spread ys)) k) ↔ IsNamedBeside C S (row_field n) }
{}
