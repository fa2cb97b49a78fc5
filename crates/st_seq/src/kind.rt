//! The kind of rows.
ghost use Rattle.std.specs.Prelude.{◌≡◌, ◌↔◌, ◌<◌, ◌^◌, length, IsTrue};
ghost use Rattle.st_marks.specs.Row.{spread};

use crate::form::is_of_form;
use crate::name_clashes::{agree_beside, agree_in_turn, agree_over};
use crate::new_nodes::{merged_names, rising_nodes};
use crate::owners::agree_as_changes;
use st_ids::{Copied, List, Or};
use st_kind::{Apart, FieldKind};
use st_marks::{Mark, after};
use st_rows::{RowChange, RowHeld, RowStep};
use std::alloc::{AllocError, Global};

/// Fields that hold nodes in an order.
pub struct Sequence;

impl FieldKind for Sequence {
    ghost use Rattle.std.specs.Prelude.{◌≡◌, ◌<◌, ◌^◌, length};
    ghost use Rattle.st_marks.specs.Embedding.{is_among};
    ghost use Rattle.st_marks.specs.Extends.{GainsItems};
    ghost use Rattle.st_marks.specs.Row.{SameCell, spread};
    ghost use Rattle.st_marks.specs.Listings.{cells_after, cells_before};
    ghost use Rattle.st_rows.specs.Views.{row_views};
    ghost use Rattle.st_rows.specs.Changes.{may_list};
    ghost use Rattle.st_seq.specs.NamedApart.{ApartAt, named_after, named_before, named_in_row};
    ghost use Rattle.st_seq.specs.OwnedEarly.{TurnsApartAt};
    ghost use Rattle.st_rows.specs.Rows.{NamesMoved};
    ghost use Rattle.st_rows.specs.Sequence.{SeqPart, RowPartsAreJoined, RowCanHold, RowFits, RowKeeps, RowLeadsOver, nodes_brought, row_carried, row_change_of, retreat_to};

    type Ctx = RowHeld;

    type Change = RowChange;

    type Step = RowStep;

    ghost Part = { SeqPart };

    ghost IsContent = { λ c. RowCanHold c.cells };

    ghost Fits = { λ p c. RowFits p c.cells };

    ghost mentions = { λ p. p.part.mentioned };

    ghost makes = { λ p. is_among p.new };

    ghost carry = { λ p void c. record { cells = row_carried p void c.cells } };

    ghost retreat = { λ c d. record { cells = retreat_to c.cells d.cells } };

    ghost IsEmbedding = { λ p c x. x ≡ row_change_of p c.cells };

    ghost IsStep = { λ m c d s. RowLeadsOver m c.cells d.cells s.marks };

    ghost brings = { λ s. nodes_brought (spread s.marks) };

    ghost HasGrown = { λ m c d. (g : GainsItems SameCell c.cells d.cells) × NamesMoved m g };

    ghost Keeps = { λ p c d. RowKeeps p.part c.cells d.cells };

    ghost AreJoined = { λ p q c j. RowPartsAreJoined p q c.cells j };

    ghost IsShortStep = { λ s. length (spread s.marks) < 2 ^ 32 };

    ghost IsShortChange = { λ x. length (spread x.marks) < 2 ^ 32 };

    ghost HasRoom = { λ x s. may_list (spread x.marks) (spread s.marks) < 2 ^ 32 };

    ghost AfterClashAt = { λ c s. ApartAt (row_views c.cells) (cells_before (spread s.marks)) (named_in_row 0 c.cells) (named_before 0 (spread s.marks)) };

    ghost ComposeClashAt = { λ s t. ApartAt (cells_after (spread s.marks)) (cells_before (spread t.marks)) (named_after 0 (spread s.marks)) (named_before 0 (spread t.marks)) };

    ghost JoinClashAt = { λ x y. TurnsApartAt x.new (spread x.marks) (spread y.marks) };

    ghost RebaseClashAt = { λ x s. ApartAt (cells_before (spread x.marks)) (cells_before (spread s.marks)) (named_before 0 (spread x.marks)) (named_before 0 (spread s.marks)) };

    fn over(change: &RowChange, ctx: &RowHeld) -> bool {
        is_of_form(change, ctx.cells.as_slice())
    }

    fn after(alloc: Global, ctx: &RowHeld, step: &RowStep) -> Result<RowHeld, Or<Apart>> {
        let cells = st_rows::after(alloc, &ctx.cells, &step.marks)?;
        agree_over(alloc, ctx.cells.as_slice(), step.marks.as_slice())?;
        Ok(RowHeld { cells })
    }

    fn effect(alloc: Global, change: &RowChange, void: bool) -> Result<RowStep, AllocError> {
        if !void {
            let marks = st_rows::effect(alloc, &change.marks)?;
            return Ok(RowStep { marks });
        }
        let new = rising_nodes(alloc, &change.new)?;
        let marks = st_rows::void_effect(alloc, &change.marks, change.in_new, &new)?;
        Ok(RowStep { marks })
    }

    fn compose(alloc: Global, first: &RowStep, then: &RowStep) -> Result<RowStep, Or<Apart>> {
        let marks = st_rows::compose(alloc, &first.marks, &then.marks)?;
        agree_in_turn(alloc, first.marks.as_slice(), then.marks.as_slice())?;
        Ok(RowStep { marks })
    }

    fn join(alloc: Global, first: &RowChange, then: &RowChange) -> Result<RowChange, Or<Apart>> {
        let marks = st_rows::join(alloc, &first.marks, &then.marks)?;
        agree_as_changes(
            alloc,
            first.new.as_slice(),
            first.marks.as_slice(),
            then.marks.as_slice(),
        )?;
        let new = merged_names(alloc, &first.new, &then.new)?;
        Ok(RowChange {
            rev: first.rev,
            in_new: first.in_new | then.in_new,
            new,
            marks,
        })
    }

    fn invert(alloc: Global, step: &RowStep) -> Result<RowStep, AllocError> {
        let marks = st_rows::invert(alloc, &step.marks)?;
        Ok(RowStep { marks })
    }

    fn rebase(alloc: Global, change: &RowChange, step: &RowStep) -> Result<RowChange, Or<Apart>> {
        let marks = st_rows::rebase(alloc, &change.marks, &step.marks)?;
        agree_beside(alloc, change.marks.as_slice(), step.marks.as_slice())?;
        let new = change.new.copy(alloc)?;
        Ok(RowChange {
            rev: change.rev,
            in_new: change.in_new,
            new,
            marks,
        })
    }

    fn rebase_agreed(
        alloc: Global,
        change: &RowChange,
        step: &RowStep,
    ) -> Result<RowChange, AllocError> {
        let marks = st_rows::rebase_agreed(alloc, &change.marks, &step.marks)?;
        let new = change.new.copy(alloc)?;
        Ok(RowChange {
            rev: change.rev,
            in_new: change.in_new,
            new,
            marks,
        })
    }

    fn bridge(
        alloc: Global,
        step: &RowStep,
        change: &RowChange,
        was_void: bool,
        is_void: bool,
    ) -> Result<RowStep, Or<Apart>> {
        let new = rising_nodes(alloc, &change.new)?;
        let marks = st_rows::bridge(
            alloc,
            &step.marks,
            &change.marks,
            change.in_new,
            &new,
            was_void,
            is_void,
        )?;
        agree_beside(alloc, change.marks.as_slice(), step.marks.as_slice())?;
        Ok(RowStep { marks })
    }

    fn has_embedding() {}

    fn has_step() {}

    fn one_embedding() {}

    fn one_step() {}

    fn keeps_in_turn() {}

    fn steps_are_short() {}

    fn changes_are_short() {}

    fn there_is_room() {}
}
