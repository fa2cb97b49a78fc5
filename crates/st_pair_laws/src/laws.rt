//! Laws on a change and a step over one document: each is the contract of a function that does nothing.
ghost use Rattle.std.specs.Prelude.{◌≡◌, ◌↔◌};
ghost use Rattle.st_marks.specs.declared.changes.Change.{Change};
ghost use Rattle.st_marks.specs.declared.intents.Intent.{Intent};
ghost use Rattle.st_marks.specs.declared.steps.Step.{Step};
ghost use Rattle.st_marks.specs.declared.verdicts.Verdict.{Verdict};
ghost use Rattle.st_marks.specs.Agree.{Agrees, RebaseClash};
ghost use Rattle.st_marks.specs.CarryOut.{full};
ghost use Rattle.st_marks.specs.Document.{Document, HasShortRows};
ghost use Rattle.st_marks.specs.Embedding.{IsEmbedding};
ghost use Rattle.st_marks.specs.Extends.{IsExtendedBy};
ghost use Rattle.st_marks.specs.Intent.{Fits};
ghost use Rattle.st_marks.specs.Step.{IsStep};
ghost use Rattle.st_marks.specs.Verdict.{IsVerdict, carried_document};
ghost use Rattle.st_moves.specs.Room.{HasRoomInRows};
ghost use Rattle.st_normal.specs.Rules.{ObeysChangeRules, ObeysStepRules};
ghost use Rattle.st_pair_laws.specs.Beside.{StandBeside};

/// A change and a step that obey the rules of normal form and agree stand over one document: what both find is laid out
/// together, with fresh names for what is found without one. So a call whose contract asks for documents has them for each two
/// in normal form that it doesn't refuse. Names of definitions are whole numbers, so the sessions of fresh ones may pass 2^32.
pub fn stand_beside()
    ensures { (C : Change) (S : Step)
        → ObeysChangeRules C → ObeysStepRules S → Agrees (RebaseClash C S)
        → StandBeside C S }
{}

/// A change and a step stand over one document exactly where both obey the rules of normal form and the two agree: the rules,
/// which are told from the two alone, ask neither too much nor too little.
pub fn agreement_is_exact()
    ensures { (C : Change) (S : Step)
        → StandBeside C S ↔ (ObeysChangeRules C × ObeysStepRules S × Agrees (RebaseClash C S)) }
{}

/// Over one document, where a change and a step have room together in each row, the intent leaves rows short after the step, if
/// it does so before it. That this room is needed too is `documents_have_room` of `st_moves`.
pub fn room_is_enough()
    ensures { (D E : Document) (N : Intent) (C : Change) (S : Step)
        → IsExtendedBy D E → Fits D N → HasShortRows (full D N) → IsEmbedding D N C → IsStep D E S
        → HasRoomInRows C S
        → HasShortRows (full E N) }
{}

/// For a change and a step in normal form that agree, one change alone is that of the same intent after the step, whatever
/// document the two stand over; and where they have room together in each row, one step alone is the step over what the change
/// does, whole or void. So what a rebase or a bridge that isn't refused may answer is one value.
pub fn one_answer_beside()
    ensures rebased { (C K M : Change) (S : Step)
        → ObeysChangeRules C → ObeysStepRules S → Agrees (RebaseClash C S)
        → ((D E : Document) (N : Intent)
        → IsExtendedBy D E → Fits D N → Fits E N → IsEmbedding D N C → IsStep D E S
        → IsEmbedding E N K × IsEmbedding E N M)
        → K ≡ M }
    ensures bridged { (C : Change) (S T U : Step)
        → ObeysChangeRules C → ObeysStepRules S → Agrees (RebaseClash C S) → HasRoomInRows C S
        → ((D E : Document) (N : Intent) (v u : Verdict)
        → IsExtendedBy D E → Fits D N → Fits E N → HasShortRows (full D N) → HasShortRows (full E N)
        → IsEmbedding D N C → IsStep D E S → IsVerdict D N v → IsVerdict E N u
        → IsStep (carried_document v D N) (carried_document u E N) T
        × IsStep (carried_document v D N) (carried_document u E N) U)
        → T ≡ U }
{}
