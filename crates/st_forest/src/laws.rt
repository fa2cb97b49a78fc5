//! Laws on forests: each is the contract of a function that does nothing.
ghost use Rattle.std.specs.Prelude.{◌≡◌};
ghost use Rattle.st_marks.specs.Document.{Document, IsSoundInForm};
ghost use Rattle.st_forest.specs.declared.forest.Forest.{Forest};
ghost use Rattle.st_forest.specs.Stands.{StandsFor};

/// A forest stands for one document that is sound in form.
pub fn one_document()
    ensures { (F : Forest) (D E : Document) → IsSoundInForm D → IsSoundInForm E
        → StandsFor F D → StandsFor F E → D ≡ E }
{}
