//! Laws on normal form and documents: each is the contract of a function that does nothing.
ghost use Rattle.std.specs.Prelude.{◌≡◌, ◌↔◌, ℕ, None, true};
ghost use Rattle.st_ids.specs.Listing.{Has};
ghost use Rattle.st_ids.specs.declared.names.NodeId.{NodeId};
ghost use Rattle.st_marks.specs.declared.changes.Change.{Change};
ghost use Rattle.st_marks.specs.declared.intents.Intent.{Intent};
ghost use Rattle.st_marks.specs.declared.steps.Step.{Step};
ghost use Rattle.st_marks.specs.CarryOut.{full};
ghost use Rattle.st_marks.specs.Document.{Document, HasShortRows, IsSoundInForm, content};
ghost use Rattle.st_marks.specs.Embedding.{IsEmbedding, IsMentionedByIntent};
ghost use Rattle.st_marks.specs.Intent.{Fits};
ghost use Rattle.st_marks.specs.Normal.{IsNormalChange, IsNormalStep};
ghost use Rattle.st_normal.specs.Rules.{ObeysChangeRules, ObeysDataRules, ObeysStepRules};
ghost use Rattle.st_normal_laws.specs.Laid.{IsLayout, Layout, laid_document};
ghost use Rattle.st_puts.specs.Meant.{IsOver, meant_intent};
ghost use Rattle.st_puts.specs.ChangeMentions.{mentions};
ghost use Rattle.st_normal_laws.specs.Seed.{CanBeFound, Finds, FoundHeld, FoundRow, seed};
ghost use Rattle.st_puts.specs.Seen.{AreAsSeen};
ghost use Rattle.st_normal_laws.specs.Two.{AgreeBeside, joined_finds};

/// A document that is laid out from lists is sound in form.
pub fn laid_is_sound()
    ensures { (L : Layout) → IsLayout L → IsSoundInForm (laid_document L) }
{}

/// What can be found together has a seed: a sound document that has it, with fresh names for what is found without one.
/// No session that is found reaches F. Names of definitions are whole numbers, so those of a seed may pass 2^32.
pub fn seed_is_sound()
    ensures { (F : ℕ) (W : Finds) → CanBeFound F W → IsSoundInForm (laid_document (seed F W)) }
{}

/// What the intent of a change mentions, in each sound document in which the change finds what is so, is exactly what the
/// change lists as mentioned: the document isn't needed to tell.
pub fn mentions_are_exact()
    ensures { (D : Document) (C : Change) (n : NodeId)
        → IsSoundInForm D → ObeysDataRules C → IsOver D C
        → (mentions C n ≡ true) ↔ IsMentionedByIntent D (meant_intent D C) n }
{}

/// A change of data that obeys the rules stands over each sound document in which it finds what is so: the intent that it
/// means there fits, leaves rows short, and has it as its change.
pub fn changes_stand_over()
    ensures fits { (D : Document) (C : Change)
        → IsSoundInForm D → ObeysDataRules C → C.schema ≡ None → IsOver D C
        → Fits D (meant_intent D C) }
    ensures short { (D : Document) (C : Change)
        → IsSoundInForm D → ObeysDataRules C → C.schema ≡ None → IsOver D C
        → HasShortRows (full D (meant_intent D C)) }
    ensures embedding { (D : Document) (C : Change)
        → IsSoundInForm D → ObeysDataRules C → C.schema ≡ None → IsOver D C
        → IsEmbedding D (meant_intent D C) C }
{}

/// A change that obeys the rules of normal form is normal: it stands over some document. So `Change::check` lets through
/// nothing that no intent could have given.
pub fn changes_that_obey_are_normal()
    ensures { (C : Change) → ObeysChangeRules C → IsNormalChange C }
{}

/// What two find that agree can be found together, and the seed of both has the rows and the occupants that each finds.
pub fn two_have_one_seed()
    ensures together { (F : ℕ) (A B : Finds)
        → CanBeFound F A → CanBeFound F B → AgreeBeside A B
        → CanBeFound F (joined_finds A B) }
    ensures first_rows { (F : ℕ) (A B : Finds) (r : FoundRow)
        → CanBeFound F A → CanBeFound F B → AgreeBeside A B → Has A.rows r
        → AreAsSeen (content (laid_document (seed F (joined_finds A B))) r.node) r.cells }
    ensures second_rows { (F : ℕ) (A B : Finds) (r : FoundRow)
        → CanBeFound F A → CanBeFound F B → AgreeBeside A B → Has B.rows r
        → AreAsSeen (content (laid_document (seed F (joined_finds A B))) r.node) r.cells }
    ensures first_held { (F : ℕ) (A B : Finds) (h : FoundHeld)
        → CanBeFound F A → CanBeFound F B → AgreeBeside A B → Has A.held h
        → (laid_document (seed F (joined_finds A B))).held h.field ≡ h.node }
    ensures second_held { (F : ℕ) (A B : Finds) (h : FoundHeld)
        → CanBeFound F A → CanBeFound F B → AgreeBeside A B → Has B.held h
        → (laid_document (seed F (joined_finds A B))).held h.field ≡ h.node }
{}

/// The change of an intent that fits a sound document finds there what is so; and where the intent leaves rows short, its change
/// obeys the rules: those on changes of data, or, where it changes the schema, those on changes of schema.
pub fn embeddings_obey_rules()
    ensures over { (D : Document) (N : Intent) (C : Change)
        → IsSoundInForm D → Fits D N → IsEmbedding D N C
        → IsOver D C }
    ensures rules { (D : Document) (N : Intent) (C : Change)
        → IsSoundInForm D → Fits D N → HasShortRows (full D N) → IsEmbedding D N C
        → ObeysChangeRules C }
{}

/// A change is normal exactly where it obeys the rules of normal form: what `Change::check` lets through is what some intent
/// gives, and nothing else.
pub fn normal_changes_obey()
    ensures { (C : Change) → IsNormalChange C ↔ ObeysChangeRules C }
{}

/// A step from a document to one that extends it obeys the rules of normal form. That each step which obeys them leads from some
/// document is not shown yet.
pub fn normal_steps_obey()
    ensures { (S : Step) → IsNormalStep S → ObeysStepRules S }
{}
