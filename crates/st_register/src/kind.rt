//! The kind of registers.

use crate::form::is_of_form;
use crate::joined::join_changes;
use crate::told::{agree, is_same, left_whole, occupant_left, over_occupant};
use crate::values::{RegChange, RegHeld, RegSwap};
use st_ids::Or;
use st_kind::{Apart, FieldKind};
use std::alloc::{AllocError, Global};

/// Fields that hold at most one node.
pub struct Register;

impl FieldKind for Register {
    ghost use Rattle.std.specs.Prelude.{◌≡◌, Some};
    ghost use Rattle.st_ids.specs.Order.{same_node};
    ghost use Rattle.st_marks.specs.Intent.{same_option};
    ghost use Rattle.st_register.specs.Register.{RegPart, RegCanHold, RegFits, reg_carried, reg_change_of, RegLeadsOver, RegKeeps, DifferAt};
    ghost use Rattle.st_register.specs.Readings.{left_by};
    ghost use Rattle.st_register.specs.Joined.{AreRegPartsJoined};

    type Ctx = RegHeld;

    type Change = RegChange;

    type Step = RegSwap;

    ghost Part = { RegPart };

    ghost IsContent = { RegCanHold };

    ghost Fits = { RegFits };

    ghost mentions = { λ p. p.part.mentioned };

    ghost makes = { λ p. p.makes };

    ghost carry = { reg_carried };

    ghost retreat = { λ c d. c };

    ghost IsEmbedding = { λ p c x. x ≡ reg_change_of p c };

    ghost IsStep = { λ m c d s. RegLeadsOver c d s };

    ghost brings = { λ s n. same_option same_node s.after (Some n) };

    ghost HasGrown = { λ m c d. Unit {0} };

    ghost Keeps = { RegKeeps };

    ghost AreJoined = { AreRegPartsJoined };

    ghost IsShortStep = { λ s. Unit {0} };

    ghost IsShortChange = { λ x. Unit {0} };

    ghost HasRoom = { λ x s. Unit {0} };

    ghost AfterClashAt = { λ c s. DifferAt c.node s.before };

    ghost ComposeClashAt = { λ s t. DifferAt s.after t.before };

    ghost JoinClashAt = { λ x y. DifferAt (left_by x) y.held };

    ghost RebaseClashAt = { λ x s. DifferAt x.held s.before };

    fn over(change: &RegChange, ctx: &RegHeld) -> bool {
        is_same(change.held, ctx.node) && is_of_form(change)
    }

    fn after(_alloc: Global, ctx: &RegHeld, step: &RegSwap) -> Result<RegHeld, Or<Apart>> {
        agree(ctx.node, step.before)?;
        Ok(RegHeld { node: step.after })
    }

    fn effect(_alloc: Global, change: &RegChange, void: bool) -> Result<RegSwap, AllocError> {
        Ok(RegSwap {
            before: change.held,
            after: occupant_left(change, void),
        })
    }

    fn compose(_alloc: Global, first: &RegSwap, then: &RegSwap) -> Result<RegSwap, Or<Apart>> {
        agree(first.after, then.before)?;
        Ok(RegSwap {
            before: first.before,
            after: then.after,
        })
    }

    fn join(_alloc: Global, first: &RegChange, then: &RegChange) -> Result<RegChange, Or<Apart>> {
        agree(left_whole(first), then.held)?;
        Ok(join_changes(first, then))
    }

    fn invert(_alloc: Global, step: &RegSwap) -> Result<RegSwap, AllocError> {
        Ok(RegSwap {
            before: step.after,
            after: step.before,
        })
    }

    fn rebase(_alloc: Global, change: &RegChange, step: &RegSwap) -> Result<RegChange, Or<Apart>> {
        agree(change.held, step.before)?;
        Ok(over_occupant(change, step.after))
    }

    fn rebase_agreed(
        _alloc: Global,
        change: &RegChange,
        step: &RegSwap,
    ) -> Result<RegChange, AllocError> {
        Ok(over_occupant(change, step.after))
    }

    fn bridge(
        _alloc: Global,
        step: &RegSwap,
        change: &RegChange,
        was_void: bool,
        is_void: bool,
    ) -> Result<RegSwap, Or<Apart>> {
        agree(change.held, step.before)?;
        let after = over_occupant(change, step.after);
        Ok(RegSwap {
            before: occupant_left(change, was_void),
            after: occupant_left(&after, is_void),
        })
    }

    fn has_embedding() {}

    fn has_step() {}

    fn one_embedding() {}

    fn one_step() {}

    fn keeps_in_turn() {}

    fn steps_are_short() {}

    fn changes_are_short() {}

    fn there_is_room() {}
}
