//! What a register as a field has to do with the register of a document: each law is the contract of a function that does
//! nothing.
ghost use Rattle.std.specs.Prelude.{◌≡◌, ◌⊎◌, ◌||◌, Bool, true, false, not, IsSome, IsTrue, IfSome, None, Some, if◌then◌else◌};
ghost use Rattle.st_ids.specs.Listing.{item_of};
ghost use Rattle.st_ids.specs.Order.{field_cmp, same_node};
ghost use Rattle.st_ids.specs.declared.names.FieldId.{FieldId};
ghost use Rattle.st_ids.specs.declared.names.NodeId.{NodeId};
ghost use Rattle.st_marks.specs.declared.changes.Change.{Change};
ghost use Rattle.st_marks.specs.declared.intents.Intent.{Intent};
ghost use Rattle.st_marks.specs.declared.marks.RegMark.{RegMark};
ghost use Rattle.st_marks.specs.declared.marks.RegStep.{RegStep};
ghost use Rattle.st_marks.specs.declared.steps.Step.{Step};
ghost use Rattle.st_marks.specs.Back.{retreat};
ghost use Rattle.st_marks.specs.CarryOut.{full, void};
ghost use Rattle.st_marks.specs.Document.{Document, IsSoundInForm};
ghost use Rattle.st_marks.specs.Embedding.{IsEmbedding};
ghost use Rattle.st_marks.specs.Extends.{IsExtendedBy};
ghost use Rattle.st_marks.specs.Intent.{Fits, is_new, put_in, put_of, same_option};
ghost use Rattle.st_marks.specs.Join.{AreParts, IsJoin};
ghost use Rattle.st_marks.specs.Register.{embed_register, holds_mentioned, step_register};
ghost use Rattle.st_marks.specs.Listings.{held_after};
ghost use Rattle.st_marks.specs.Step.{IsStep};
ghost use Rattle.st_register.specs.Existence.{HasChange, HasStep};
ghost use Rattle.st_register.specs.Joined.{AreRegPartsJoined, evicts};
ghost use Rattle.st_register.specs.Register.{RegPart, RegCanHold, RegFits, RegLeadsOver, reg_carried, reg_change_of, reg_part_of};
ghost use Rattle.st_register.specs.Readings.{as_mark, as_step, left_by};
ghost use Rattle.st_register.specs.declared.values.RegChange.{RegChange};
ghost use Rattle.st_register.specs.declared.values.RegHeld.{RegHeld};
ghost use Rattle.st_register.specs.declared.values.RegSwap.{RegSwap};

/// A whole change and a whole step list of a register what its change and its step say, where they list it. A step from one
/// document to another leads from each register to the register after it. What a change leaves is what its mark shows.
pub fn registers_are_listed()
    ensures change { (p : RegPart) (c : RegHeld) → embed_register p.field p.part c.node
        ≡ (if p.part.clear || holds_mentioned p.part.mentioned c.node then Some (as_mark p.field (reg_change_of p c)) else None) }
    ensures step { (f : FieldId) (m : NodeId → Bool) (c d : RegHeld) (s : RegSwap) → RegLeadsOver c d s → step_register f m c.node d.node
        ≡ (if not (same_option same_node c.node d.node) || holds_mentioned m c.node then Some (as_step f s) else None) }
    ensures document { (D E : Document) (f : FieldId) → IsExtendedBy D E
        → RegLeadsOver (record { node = D.held f }) (record { node = E.held f }) (record { before = D.held f; after = E.held f }) }
    ensures left { (f : FieldId) (x : RegChange) → held_after (as_mark f x) ≡ left_by x }
{}

/// A register of a document that is sound in form holds what a register can hold.
pub fn registers_hold()
    ensures { (D : Document) (f : FieldId) → IsSoundInForm D → RegCanHold (record { node = D.held f }) }
{}

/// The part of an intent that fits a sound document fits its register, and what the register holds after the part, whole or
/// void, is what it holds in the document after the intent. A register of a node that was there goes back to what it held.
pub fn registers_are_of_documents()
    ensures fits { (D : Document) (N : Intent) (m : NodeId → Bool) (f : FieldId) → IsSoundInForm D → Fits D N
        → RegFits (reg_part_of m N f) (record { node = D.held f }) }
    ensures whole { (D : Document) (N : Intent) (m : NodeId → Bool) (f : FieldId)
        → (full D N).held f ≡ (reg_carried (reg_part_of m N f) false (record { node = D.held f })).node }
    ensures void { (D : Document) (N : Intent) (m : NodeId → Bool) (f : FieldId) → Fits D N
        → (void D N).held f ≡ (reg_carried (reg_part_of m N f) true (record { node = D.held f })).node }
    ensures back { (D E : Document) (f : FieldId) → IsSome (D.nodes f.node) → (retreat D E).held f ≡ D.held f }
{}

/// The part of the join of two intents is that of both parts in turn, where the register's changes tell it: the second
/// doesn't put elsewhere whom the first evicts, and puts there no node that the first makes and doesn't put there.
pub fn registers_are_joined()
    ensures { (D : Document) (N M J : Intent) (m k l : NodeId → Bool) (f : FieldId) → IsSoundInForm D → AreParts D N M → IsJoin N M J
        → IfSome (D.held f) (λ n. IsTrue (evicts (reg_part_of m N f) n) → (put_of M n ≡ None) ⊎ (put_in M f ≡ Some n))
        → IfSome (put_in J f) (λ n. IsTrue (is_new N n) → put_in N f ≡ Some n)
        → AreRegPartsJoined (reg_part_of m N f) (reg_part_of k M f) (record { node = D.held f }) (reg_part_of l J f) }
{}

/// A part that fits a register has a change there, and what it leads to, whole or void, is what a register can hold. So the part
/// of an intent that fits a sound document has one in each register; and a whole change lists of each register a change of the
/// kind: that of the part.
pub fn registers_have_changes()
    ensures register { (p : RegPart) (c : RegHeld) → RegFits p c → HasChange p c }
    ensures intent { (D : Document) (N : Intent) (m : NodeId → Bool) (f : FieldId)
        → IsSoundInForm D → Fits D N → HasChange (reg_part_of m N f) (record { node = D.held f }) }
    ensures listed { (D : Document) (N : Intent) (C : Change) (f : FieldId) (e : IsEmbedding D N C)
        → IsSoundInForm D → Fits D N → let p = reg_part_of e.mentioned N f in
        RegFits p (record { node = D.held f }) × ((h : HasChange p (record { node = D.held f }))
        × (item_of field_cmp (λ (r : RegMark). r.field) C.regs f
        ≡ (if h.change.clear || holds_mentioned e.mentioned h.change.held
        then Some (as_mark f h.change)
        else None))) }
{}

/// A step leads from each content to each other one. So one leads from each register of a document to the register after it in
/// each document that extends it; and a whole step lists of each register one.
pub fn registers_have_steps()
    ensures register { (c d : RegHeld) → RegCanHold c → RegCanHold d → HasStep c d }
    ensures documents { (D E : Document) (f : FieldId) → IsExtendedBy D E
        → HasStep (record { node = D.held f }) (record { node = E.held f }) }
    ensures listed { (D E : Document) (S : Step) (f : FieldId) (s : IsStep D E S) → IsExtendedBy D E
        → (h : HasStep (record { node = D.held f }) (record { node = E.held f }))
        × (item_of field_cmp (λ (r : RegStep). r.field) S.regs f
        ≡ (if not (same_option same_node h.step.before h.step.after)
        || holds_mentioned s.mentioned h.step.before
        then Some (as_step f h.step)
        else None)) }
{}
