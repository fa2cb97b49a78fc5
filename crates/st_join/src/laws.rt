//! Laws about joins: each is the contract of a function that does nothing.
ghost use Rattle.std.specs.Prelude.{◌≡◌, ◌+◌, length};
ghost use Rattle.st_marks.specs.declared.intents.Intent.{Intent};
ghost use Rattle.st_marks.specs.Document.{Document, IsSoundInForm};
ghost use Rattle.st_marks.specs.CarryOut.{full};
ghost use Rattle.st_marks.specs.Intent.{Fits, IsIntent, group_cells};
ghost use Rattle.st_marks.specs.Join.{AreParts, IsJoin};
ghost use Rattle.st_join.specs.Listed.{IsListedJoin};

/// Two parts joined fit where the first does.
pub fn joins_fit()
    ensures { (D : Document) (N M J : Intent) → IsSoundInForm D → AreParts D N M → IsJoin N M J → Fits D J }
{}

/// Lists put together of those of two parts, so that look-ups are those of a join, are an intent, which obeys its own
/// rules.
pub fn listed_joins_are_intents()
    ensures { (D : Document) (N M J : Intent) → IsSoundInForm D → AreParts D N M → IsListedJoin N M J → IsIntent J }
{}

/// Two parts joined make as many nodes and as many cells as both together, so that a limit on names that are made counts
/// the join as the two.
pub fn joins_make_the_names_of_both()
    ensures nodes { (D : Document) (N M J : Intent) → IsSoundInForm D → AreParts D N M → IsJoin N M J
        → length J.new ≡ length N.new + length M.new }
    ensures cells { (D : Document) (N M J : Intent) → IsSoundInForm D → AreParts D N M → IsJoin N M J
        → length (group_cells J) ≡ length (group_cells N) + length (group_cells M) }
{}

/// Two parts of a commit over a sound document have a join.
pub fn parts_have_a_join()
    ensures { (D : Document) (N M : Intent) → IsSoundInForm D → AreParts D N M → (J : Intent) × IsJoin N M J }
{}
