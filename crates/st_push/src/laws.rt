//! Laws on lists of changes that stand in turn: each is the contract of a function that does nothing.
ghost use Rattle.std.specs.Prelude.{Bool, ◌≡◌, ◌++◌, ◌∷◌, [], List as Seq};
ghost use Rattle.st_marks.specs.declared.changes.Change.{Change};
ghost use Rattle.st_marks.specs.declared.intents.Intent.{Intent};
ghost use Rattle.st_marks.specs.declared.steps.Step.{Step};
ghost use Rattle.st_marks.specs.declared.verdicts.Verdict.{Verdict};
ghost use Rattle.st_marks.specs.Document.{Document, HasShortRows};
ghost use Rattle.st_marks.specs.Embedding.{IsEmbedding};
ghost use Rattle.st_marks.specs.Extends.{IsExtendedBy};
ghost use Rattle.st_marks.specs.Step.{IsStep};
ghost use Rattle.st_marks.specs.Intent.{Fits};
ghost use Rattle.st_marks.specs.CarryOut.{full};
ghost use Rattle.st_marks.specs.Run.{Run};
ghost use Rattle.st_marks.specs.Verdict.{IsVerdict, carried_document};
ghost use Rattle.st_log_laws.specs.Turns.{FitInTurn};
ghost use Rattle.st_read_laws.specs.Reading.{IsRead, IsStepRead};
ghost use Rattle.st_rebaser.specs.InTurn.{ShowInTurn};
ghost use Rattle.st_push.specs.InTurn.{CarriedTo, Carries, Composes, PushedTo, Pushes};

/// Where each change can be carried over each step, so can several that stand in turn.
pub fn changes_are_pushed()
    ensures { (l : Bool) → Carries l → Pushes l }
{}

/// Changes that show intents in turn lead where the intents lead.
pub fn shown_lists_run()
    ensures { (l : Bool) (D F : Document) (Ns : Seq Intent) (Cs : Seq Change) → ShowInTurn l D Ns Cs F → Run D Ns F }
{}

/// A commit of a session: its change in the author's document stands behind those that it sent, and the bridge after it leads from
/// the author's document with it to that of all commits with it.
pub fn seats_take_commits()
    ensures { (l : Bool) (B A T : Document) (Ns : Seq Intent) (Cs : Seq Change) (N : Intent) (C : Change) (S : Step) (v : Verdict) → Carries l
        → ShowInTurn l B Ns Cs A → IsExtendedBy A T → IsStepRead l A T S → Fits A N → Fits T N → HasShortRows (full A N) → HasShortRows (full T N)
        → IsVerdict A N v → IsRead l A N C
        → CarriedTo l A T N v × ShowInTurn l B (Ns ++ N ∷ []) (Cs ++ C ∷ []) (carried_document v A N) }
{}

/// A reference that rises over a commit of another session, whose step leads from D to E: what was sent stands over E, and the step
/// from the author's document of old leads on to that of now.
pub fn references_are_raised()
    ensures { (l : Bool) (O D E A : Document) (Ns : Seq Intent) (Cs : Seq Change) (gone S : Step) → Carries l → Composes l
        → IsExtendedBy D E → FitInTurn D Ns → FitInTurn E Ns → ShowInTurn l D Ns Cs A → IsStepRead l D E S
        → IsExtendedBy O A → IsStepRead l O A gone
        → (p : PushedTo l E A Ns) × (G : Step) × IsStepRead l O p.last G }
{}

/// There is one list of changes that show some intents in turn, and one document after them: what a manager keeps is what would be
/// computed anew.
pub fn one_list_shows()
    ensures { (l : Bool) (D F G : Document) (Ns : Seq Intent) (Cs Xs : Seq Change) → ShowInTurn l D Ns Cs F → ShowInTurn l D Ns Xs G
        → (Cs ≡ Xs) × (F ≡ G) }
{}

/// A document after an intent is extended by a later one after that intent, whatever the two verdicts are.
pub fn extends_beside()
    ensures { (D E : Document) (N : Intent) (C : Change) (S : Step) (v u : Verdict) → IsExtendedBy D E → Fits D N → Fits E N
        → HasShortRows (full D N) → HasShortRows (full E N) → IsVerdict D N v → IsVerdict E N u → IsEmbedding D N C → IsStep D E S
        → IsExtendedBy (carried_document v D N) (carried_document u E N) }
{}

/// The document after some intents is extended by that after the same intents in a later document.
pub fn later_lists_extend()
    ensures { (D E F G : Document) (Ns : Seq Intent) → IsExtendedBy D E → FitInTurn D Ns → FitInTurn E Ns → Run D Ns F → Run E Ns G
        → IsExtendedBy F G }
{}
