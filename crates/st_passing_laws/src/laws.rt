//! Laws on whole changes and the steps that they pass: each is the contract of a function that does nothing.
ghost use Rattle.std.specs.Prelude.{◌≡◌, ◌↔◌, ◌⊎◌, IsTrue, false};
ghost use Rattle.st_ids.specs.declared.names.NodeId.{NodeId};
ghost use Rattle.st_marks.specs.declared.changes.Change.{Change};
ghost use Rattle.st_marks.specs.declared.intents.Intent.{Intent};
ghost use Rattle.st_marks.specs.declared.steps.Step.{Step};
ghost use Rattle.st_marks.specs.declared.verdicts.Verdict.{Verdict};
ghost use Rattle.st_marks.specs.Document.{Document};
ghost use Rattle.st_marks.specs.Extends.{IsExtendedBy};
ghost use Rattle.st_marks.specs.Embedding.{IsMentionedByIntent};
ghost use Rattle.st_marks.specs.Intent.{Fits, is_new};
ghost use Rattle.st_marks.specs.Step.{IsMentionedByStep, gained_node};
ghost use Rattle.st_marks.specs.Verdict.{IsVerdict, carried_document};
ghost use Rattle.st_passing.specs.Whole.{ChangesPass, LeavesMentioned, Passes, raised_change, raised_step};
ghost use Rattle.st_read_laws.specs.Reading.{IsRead, IsStepRead};

/// Where the step moves none of the nodes that an intent mentions, and the same schemas are in effect, the intent has the same
/// verdict after the step.
pub fn verdicts_stay()
    ensures { (D E : Document) (N : Intent) (v : Verdict) → IsExtendedBy D E → Fits D N → Fits E N → LeavesMentioned D E N → D.schemas ≡ E.schemas
        → IsVerdict D N v → IsVerdict E N v }
{}

/// A step that passes a change moves none of the nodes that the change's intent mentions, and leaves the schemas in effect.
pub fn passing_steps_leave_mentioned()
    ensures nodes { (D E : Document) (N : Intent) (C : Change) (S : Step) → IsExtendedBy D E → IsRead false D N C → IsStepRead false D E S → Passes C S
        → LeavesMentioned D E N }
    ensures schemas { (D E : Document) (C : Change) (S : Step) → IsStepRead false D E S → Passes C S → D.schemas ≡ E.schemas }
{}

/// Where a change and a step pass each other, the change's intent has the same verdict after the step.
pub fn verdicts_pass()
    ensures { (D E : Document) (N : Intent) (C : Change) (S : Step) (v : Verdict) → IsExtendedBy D E → Fits D N → Fits E N
        → IsRead false D N C → IsStepRead false D E S → Passes C S
        → IsVerdict D N v → IsVerdict E N v }
{}

/// Where a change and a step pass each other, the change with its counts raised is the change of its intent after the step.
pub fn changes_pass()
    ensures { (D E : Document) (N : Intent) (C : Change) (S : Step) → IsExtendedBy D E → Fits D N → Fits E N
        → IsRead false D N C → IsStepRead false D E S → Passes C S
        → IsRead false E N (raised_change C S) }
{}

/// So the intent's change after the step, K, says the same of registers as before it.
pub fn registers_pass()
    ensures { (D E : Document) (N : Intent) (C K : Change) (S : Step) → IsExtendedBy D E → Fits D N → Fits E N
        → IsRead false D N C → IsStepRead false D E S → Passes C S → IsRead false E N K → K.regs ≡ C.regs }
{}

/// And the same of nodes that are nowhere.
pub fn loose_nodes_pass()
    ensures { (D E : Document) (N : Intent) (C K : Change) (S : Step) → IsExtendedBy D E → Fits D N → Fits E N
        → IsRead false D N C → IsStepRead false D E S → Passes C S → IsRead false E N K → K.loose ≡ C.loose }
{}

/// And the schema under which the intent was made is in effect after the step where it was before it.
pub fn bases_pass()
    ensures { (D E : Document) (N : Intent) (C K : Change) (S : Step) → IsExtendedBy D E → Fits D N → Fits E N
        → IsRead false D N C → IsStepRead false D E S → Passes C S → IsRead false E N K → K.base ≡ C.base }
{}

/// Where the step moves none of the nodes that an intent mentions, each that it mentions or makes stands in one place in both
/// documents after the intent, whatever its verdict is.
pub fn nodes_stand_alike()
    ensures { (D E : Document) (N : Intent) (v : Verdict) (n : NodeId) → IsExtendedBy D E → Fits D N → Fits E N → LeavesMentioned D E N
        → IsTrue (is_new N n) ⊎ IsMentionedByIntent D N n
        → (carried_document v D N).place n ≡ (carried_document v E N).place n }
{}

/// The step from the document after an intent to the later one after it makes the nodes that the step between the two makes.
pub fn new_nodes_pass()
    ensures { (D E : Document) (N : Intent) (v : Verdict) (n : NodeId) → Fits D N → Fits E N
        → gained_node n ((carried_document v D N).nodes n) ((carried_document v E N).nodes n) ≡ gained_node n (D.nodes n) (E.nodes n) }
{}

/// Where a change and a step pass each other, the step mentions the same nodes after the change, whatever the verdict is.
pub fn mentioned_nodes_pass()
    ensures { (D E : Document) (N : Intent) (C : Change) (S : Step) (v : Verdict) (n : NodeId) → IsExtendedBy D E → Fits D N → Fits E N
        → IsRead false D N C → IsStepRead false D E S → Passes C S
        → IsMentionedByStep D E n ↔ IsMentionedByStep (carried_document v D N) (carried_document v E N) n }
{}

/// Where a change and a step pass each other, the step with its counts raised is the step after the change: the one from the document
/// after the change's intent to the later document after it, whatever the verdict is.
pub fn steps_pass()
    ensures { (D E : Document) (N : Intent) (C : Change) (S : Step) (v : Verdict) → IsExtendedBy D E → Fits D N → Fits E N
        → IsRead false D N C → IsStepRead false D E S → Passes C S
        → IsStepRead false (carried_document v D N) (carried_document v E N) (raised_step C S) }
{}

/// So a whole change and a whole step that pass each other: the verdict stays, and each is after the other what it was before, with
/// raised counts.
pub fn whole_changes_pass()
    ensures { ChangesPass }
{}
