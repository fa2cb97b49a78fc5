//! Edits and transactions of a client on a branch beside its main line.
ghost use Rattle.std.specs.Prelude.{◌≡◌, ◌≢◌, ◌+◌, ◌^◌, ◌<◌, length, Some, slice_get, IfOk, OnOk};
ghost use Rattle.st_script.specs.Header.{header_view};
ghost use Rattle.st_script.specs.Steps as act;
ghost use Rattle.st_script.specs.Steps.{IsEditWithin, edit_view};
ghost use Rattle.st_lists.specs.Lines.{Line, line_of};
ghost use Rattle.st_world.specs.World.{IsActOf, AtRefusal};
ghost use Rattle.st_plain.specs.Replicas.{IsSound};
ghost use Rattle.st_plain.specs.inside.Replicas.{IsSoundNext};
ghost use Rattle.st_lists.specs.declared.lists.Client.{Client as Present};

use crate::world::World;
use st_ids::Path;
use st_plain_branches::head_of;
use st_plain_edits::branch_edits;
use st_plain_schemas::schema_of;
use st_script::{Answer, EditAct, Refusal};
use std::alloc::{AllocError, Global};

impl World {
    // Makes an edit of the tree that a branch of the client at a place shows.
    pub(crate) fn edit_branch(
        &mut self,
        alloc: Global,
        i: usize,
        number: u32,
        edit: &EditAct,
    ) -> Result<Answer, AllocError>
        requires sound { IsSound self.old }
        requires few { self.old.steps + 1 < 2 ^ 32 }
        requires other { number ≢ 0 }
        requires within { IsEditWithin (edit_view edit.now) }
        ensures next { IfOk result (λ a. (c : Present) (l : Line) → slice_get self.old.lists.clients i ≡ Some c → line_of c number ≡ Some l
            → IsActOf (header_view self.old.header) self.old.lists (act.edit (edit_view edit.now)) i c number l self.new.lists a) }
        ensures sound { OnOk result (IsSoundNext self.new) }
        ensures steps { OnOk result (self.new.steps ≡ self.old.steps) }
        ensures header { OnOk result (self.new.header ≡ self.old.header) }
        ensures spent { self.new.spent ≡ self.old.spent }
        ensures refused { IfOk result (λ a. AtRefusal a (self.new ≡ self.old)) }
    {
        let Some(kept) = self.kept.get_mut(i) else {
            return Ok(Answer::No(Refusal::NoClient));
        };
        let Some(client) = self.lists.clients.get_mut(i) else {
            return Ok(Answer::No(Refusal::NoClient));
        };
        let Some(head) = head_of(client, kept, number) else {
            return Ok(Answer::No(Refusal::NoBranch));
        };
        let Some(known) = schema_of(&self.schemas, head.shown_doc()) else {
            unreachable!();
        };
        let answer = branch_edits::edit(alloc, &known.schema, client, kept, number, edit)?;
        Ok(answer)
    }

    // Has the transaction that is open on a branch of the client at a place need a node.
    pub(crate) fn need_on_branch(
        &mut self,
        alloc: Global,
        i: usize,
        number: u32,
        at: &Path,
    ) -> Result<Answer, AllocError>
        requires sound { IsSound self.old }
        requires few { self.old.steps + 1 < 2 ^ 32 }
        requires other { number ≢ 0 }
        requires short { length at.now < 2 ^ 32 }
        ensures next { IfOk result (λ a. (c : Present) (l : Line) → slice_get self.old.lists.clients i ≡ Some c → line_of c number ≡ Some l
            → IsActOf (header_view self.old.header) self.old.lists (act.need at.now) i c number l self.new.lists a) }
        ensures sound { OnOk result (IsSoundNext self.new) }
        ensures steps { OnOk result (self.new.steps ≡ self.old.steps) }
        ensures header { OnOk result (self.new.header ≡ self.old.header) }
        ensures spent { self.new.spent ≡ self.old.spent }
        ensures refused { IfOk result (λ a. AtRefusal a (self.new ≡ self.old)) }
    {
        let Some(kept) = self.kept.get_mut(i) else {
            return Ok(Answer::No(Refusal::NoClient));
        };
        let Some(client) = self.lists.clients.get_mut(i) else {
            return Ok(Answer::No(Refusal::NoClient));
        };
        let answer = branch_edits::need(alloc, client, kept, number, at)?;
        Ok(answer)
    }

    // Begins a transaction on a branch of the client at a place.
    pub(crate) fn begin_on_branch(&mut self, i: usize, number: u32) -> Answer
        requires sound { IsSound self.old }
        requires few { self.old.steps + 1 < 2 ^ 32 }
        requires other { number ≢ 0 }
        ensures next { (c : Present) (l : Line) → slice_get self.old.lists.clients i ≡ Some c → line_of c number ≡ Some l
            → IsActOf (header_view self.old.header) self.old.lists act.begin i c number l self.new.lists result }
        ensures sound { IsSoundNext self.new }
        ensures steps { self.new.steps ≡ self.old.steps }
        ensures header { self.new.header ≡ self.old.header }
        ensures spent { self.new.spent ≡ self.old.spent }
        ensures refused { AtRefusal result (self.new ≡ self.old) }
    {
        let Some(kept) = self.kept.get(i) else {
            return Answer::No(Refusal::NoClient);
        };
        let Some(client) = self.lists.clients.get_mut(i) else {
            return Answer::No(Refusal::NoClient);
        };
        branch_edits::begin(client, kept, number)
    }

    // Commits the transaction that is open on a branch of the client at a place.
    pub(crate) fn commit_on_branch(
        &mut self,
        alloc: Global,
        i: usize,
        number: u32,
    ) -> Result<Answer, AllocError>
        requires sound { IsSound self.old }
        requires few { self.old.steps + 1 < 2 ^ 32 }
        requires other { number ≢ 0 }
        ensures next { IfOk result (λ a. (c : Present) (l : Line) → slice_get self.old.lists.clients i ≡ Some c → line_of c number ≡ Some l
            → IsActOf (header_view self.old.header) self.old.lists act.commit i c number l self.new.lists a) }
        ensures sound { OnOk result (IsSoundNext self.new) }
        ensures steps { OnOk result (self.new.steps ≡ self.old.steps) }
        ensures header { OnOk result (self.new.header ≡ self.old.header) }
        ensures spent { self.new.spent ≡ self.old.spent }
        ensures refused { IfOk result (λ a. AtRefusal a (self.new ≡ self.old)) }
    {
        let Some(kept) = self.kept.get_mut(i) else {
            return Ok(Answer::No(Refusal::NoClient));
        };
        let Some(client) = self.lists.clients.get_mut(i) else {
            return Ok(Answer::No(Refusal::NoClient));
        };
        let answer = branch_edits::commit(alloc, client, kept, number)?;
        Ok(answer)
    }

    // Aborts the transaction that is open on a branch of the client at a place.
    pub(crate) fn abort_on_branch(&mut self, i: usize, number: u32) -> Answer
        requires sound { IsSound self.old }
        requires few { self.old.steps + 1 < 2 ^ 32 }
        requires other { number ≢ 0 }
        ensures next { (c : Present) (l : Line) → slice_get self.old.lists.clients i ≡ Some c → line_of c number ≡ Some l
            → IsActOf (header_view self.old.header) self.old.lists act.abort i c number l self.new.lists result }
        ensures sound { IsSoundNext self.new }
        ensures steps { self.new.steps ≡ self.old.steps }
        ensures header { self.new.header ≡ self.old.header }
        ensures spent { self.new.spent ≡ self.old.spent }
        ensures refused { AtRefusal result (self.new ≡ self.old) }
    {
        let Some(kept) = self.kept.get_mut(i) else {
            return Answer::No(Refusal::NoClient);
        };
        let Some(client) = self.lists.clients.get_mut(i) else {
            return Answer::No(Refusal::NoClient);
        };
        branch_edits::abort(client, kept, number)
    }
}
