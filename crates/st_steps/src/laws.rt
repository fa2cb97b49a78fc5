//! Laws on whole steps: each is the contract of a function that does nothing.
ghost use Rattle.std.specs.Prelude.{◌≡◌, map, true, false, List, None, Option};
ghost use Rattle.st_ids.specs.declared.names.NodeId.{NodeId};
ghost use Rattle.st_kind.specs.Named.{Nodes};
ghost use Rattle.st_marks.specs.declared.places.Spot.{Spot};
ghost use Rattle.st_marks.specs.declared.steps.Step.{Step};
ghost use Rattle.st_marks.specs.declared.changes.Change.{Change};
ghost use Rattle.st_marks.specs.declared.intents.Intent.{Intent};
ghost use Rattle.st_marks.specs.CarryOut.{full, void};
ghost use Rattle.st_marks.specs.Document.{Document, HasShortRows, IsSoundInForm};
ghost use Rattle.st_marks.specs.Embedding.{IsEmbedding, is_among, is_nowhere, tells};
ghost use Rattle.st_marks.specs.Intent.{Fits};
ghost use Rattle.st_marks.specs.Extends.{IsExtendedBy};
ghost use Rattle.st_marks.specs.Step.{IsMentionedByStep, IsStep};
ghost use Rattle.st_steps.specs.Short.{HasShortRowsListed};
ghost use Rattle.st_steps.specs.Turned.{IsInTurn, TellsTurn, named_in_turn};
ghost use Rattle.st_marks.specs.Back.{retreat};
ghost use Rattle.st_marks.specs.Listings.{cells_after, cells_before, nodes_loose, placed_before};
ghost use Rattle.st_ids.specs.Order.{same_node};
ghost use Rattle.st_ids.specs.Root.{root};
ghost use Rattle.st_marks.specs.declared.marks.RegStep.{RegStep};
ghost use Rattle.st_marks.specs.Row.{CellMark};
ghost use Rattle.st_steps.specs.Across.{IsAcross};
ghost use Rattle.st_steps.specs.Left.{left_row};
ghost use Rattle.st_trim.specs.Trimmed.{ListsStep};
ghost use Rattle.st_steps.specs.WayBack.{IsBackOf, TellsBack, named_back_of};

/// What two steps in turn say of each name, listed together, lists the step from the first document to the last, with all that
/// the first names and all that the second names and the first document has.
pub fn steps_in_turn_are_listed()
    ensures { (D E F : Document) (S T G : Step) (stood : Nodes) (new : Nodes) (spots : NodeId → Option Spot)
        → IsExtendedBy D E → IsExtendedBy E F → (first : IsStep D E S) → (second : IsStep E F T)
        → TellsTurn D E F first.mentioned second.mentioned stood new spots
        → IsInTurn S T G stood new spots
        → ListsStep D F (named_in_turn D first.mentioned second.mentioned) G }
{}

/// What a step says, turned round name by name, lists the step from the later document to the retreat, with all that the step
/// names and makes.
pub fn ways_back_are_listed()
    ensures { (D E : Document) (S : Step) → IsExtendedBy D E → (step : IsStep D E S) → (G : Step) (new stood : Nodes) (spots : NodeId → Option Spot)
        → TellsBack D E step.mentioned new stood spots → IsBackOf S G new stood spots
        → ListsStep E (retreat D E) (named_back_of D E step.mentioned) G }
{}

/// A step, with an empty cell for each that a commit of data makes, lists the step between the two documents after that commit,
/// where it is void in both; and the later of these extends the earlier.
pub fn steps_go_over_void_commits()
    ensures lists { (D E : Document) (N : Intent) (C : Change) (S : Step) → IsExtendedBy D E → Fits D N → Fits E N → N.schema ≡ None
        → HasShortRows (full D N) → HasShortRows (full E N) → IsEmbedding D N C → (step : IsStep D E S)
        → (G : Step) → IsAcross C S G → ListsStep (void D N) (void E N) step.mentioned G }
    ensures extends { (D E : Document) (N : Intent) → IsExtendedBy D E → Fits D N → Fits E N → N.schema ≡ None
        → HasShortRows (full D N) → HasShortRows (full E N) → IsExtendedBy (void D N) (void E N) }
{}

/// The way back over a commit of data that is carried out whole leads to the document where it is void, and the way back over
/// that leads to the whole one; each of the two extends the other. So the step from the one to the other is the inverse of what
/// the commit does, and its inverse.
pub fn full_and_void_lead_to_each_other()
    ensures back { (D : Document) (N : Intent) → IsSoundInForm D → Fits D N → N.schema ≡ None → retreat D (full D N) ≡ void D N }
    ensures again { (D : Document) (N : Intent) → IsSoundInForm D → Fits D N → N.schema ≡ None → retreat (full D N) (void D N) ≡ full D N }
    ensures to_void { (D : Document) (N : Intent) → IsExtendedBy D (full D N) → Fits D N → N.schema ≡ None → IsExtendedBy (full D N) (void D N) }
    ensures to_full { (D : Document) (N : Intent) → IsExtendedBy D (full D N) → Fits D N → N.schema ≡ None → IsExtendedBy (void D N) (full D N) }
{}

/// What is found of the row that tells what another leaves is what that other leaves.
pub fn rows_left_are_found()
    ensures { (xs : List CellMark) → cells_before (left_row xs) ≡ cells_after xs }
{}

/// A node that the first of two steps mentions and the step over both doesn't is mentioned by the second.
pub fn names_dropped_are_the_seconds()
    ensures { (D E F : Document) (T : Step) → IsExtendedBy D E → IsExtendedBy E F → (second : IsStep E F T)
        → (n : NodeId) → (IsMentionedByStep D F n → ⊥) → IsMentionedByStep D E n → second.mentioned n ≡ true }
{}

/// Whom a step mentions it lists: where the node stands before, or as one that is nowhere.
pub fn mentioned_nodes_are_listed()
    ensures stood { (D E : Document) (S : Step) → IsExtendedBy D E → (step : IsStep D E S) → (n : NodeId) → step.mentioned n ≡ true → is_nowhere (D.place n) ≡ false
        → is_among (placed_before S.rows (map (λ (g : RegStep). g.before) S.regs)) n ≡ true }
    ensures loose { (D E : Document) (S : Step) → IsExtendedBy D E → (step : IsStep D E S) → (n : NodeId) → step.mentioned n ≡ true → is_nowhere (D.place n) ≡ true
        → same_node n root ≡ false → is_among (nodes_loose S.loose) n ≡ true }
{}

/// A step lists few enough cells of each row: of a row that it lists, its cells are those that the row has after it.
pub fn steps_have_short_rows()
    ensures { (D E : Document) (S : Step) → IsExtendedBy D E → IsStep D E S → HasShortRowsListed S }
{}
