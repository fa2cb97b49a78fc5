//! What one client does with the tree that it shows: edits, and transactions.
ghost use Rattle.std.specs.Prelude.{◌≡◌, ◌+◌, ◌^◌, ◌<◌, length, Some, slice_get, IfOk, OnOk};
ghost use Rattle.st_script.specs.Header.{header_view};
ghost use Rattle.st_script.specs.Steps as act;
ghost use Rattle.st_script.specs.Steps.{edit_view, IsEditWithin};
ghost use Rattle.st_lists.specs.Lines.{main_line};
ghost use Rattle.st_world.specs.World.{IsActOf, AtRefusal};
ghost use Rattle.st_plain.specs.Replicas.{IsSound};
ghost use Rattle.st_plain.specs.inside.Replicas.{IsSoundNext};
ghost use Rattle.st_lists.specs.declared.lists.Client.{Client as Present};

use crate::world::World;
use st_heads::last_in_effect;
use st_ids::Path;
use st_plain_edits as edits;
use st_plain_schemas::schema_of;
use st_script::{Answer, EditAct, Refusal};
use std::alloc::{AllocError, Global};

impl World {
    // Makes an edit of the tree that the client at a place shows.
    pub(crate) fn edit(
        &mut self,
        alloc: Global,
        i: usize,
        edit: &EditAct,
    ) -> Result<Answer, AllocError>
        requires sound { IsSound self.old }
        requires few { self.old.steps + 1 < 2 ^ 32 }
        requires within { IsEditWithin (edit_view edit.now) }
        ensures next { IfOk result (λ a. (c : Present) → slice_get self.old.lists.clients i ≡ Some c
            → IsActOf (header_view self.old.header) self.old.lists (act.edit (edit_view edit.now)) i c 0 (main_line c) self.new.lists a) }
        ensures sound { OnOk result (IsSoundNext self.new) }
        ensures steps { OnOk result (self.new.steps ≡ self.old.steps) }
        ensures header { OnOk result (self.new.header ≡ self.old.header) }
        ensures spent { self.new.spent ≡ self.old.spent }
        ensures refused { IfOk result (λ a. AtRefusal a (self.new ≡ self.old)) }
    {
        let Some(kept) = self.kept.get_mut(i) else {
            return Ok(Answer::No(Refusal::NoClient));
        };
        let Some(client) = self.lists.clients.get_mut(i) else {
            return Ok(Answer::No(Refusal::NoClient));
        };
        let Some(known) = schema_of(&self.schemas, kept.main.shown_doc()) else {
            unreachable!();
        };
        let answer = edits::edit(alloc, &known.schema, client, kept, edit)?;
        Ok(answer)
    }

    // The open transaction of the client at a place needs the node that a path leads to.
    pub(crate) fn need(&mut self, alloc: Global, i: usize, at: &Path) -> Result<Answer, AllocError>
        requires sound { IsSound self.old }
        requires few { self.old.steps + 1 < 2 ^ 32 }
        requires short { length at.now < 2 ^ 32 }
        ensures next { IfOk result (λ a. (c : Present) → slice_get self.old.lists.clients i ≡ Some c
            → IsActOf (header_view self.old.header) self.old.lists (act.need at.now) i c 0 (main_line c) self.new.lists a) }
        ensures sound { OnOk result (IsSoundNext self.new) }
        ensures steps { OnOk result (self.new.steps ≡ self.old.steps) }
        ensures header { OnOk result (self.new.header ≡ self.old.header) }
        ensures spent { self.new.spent ≡ self.old.spent }
        ensures refused { IfOk result (λ a. AtRefusal a (self.new ≡ self.old)) }
    {
        let Some(kept) = self.kept.get_mut(i) else {
            return Ok(Answer::No(Refusal::NoClient));
        };
        let Some(client) = self.lists.clients.get_mut(i) else {
            return Ok(Answer::No(Refusal::NoClient));
        };
        let answer = edits::need(alloc, client, kept, at)?;
        Ok(answer)
    }

    // The client at a place begins a transaction.
    pub(crate) fn begin_transaction(&mut self, i: usize) -> Answer
        requires sound { IsSound self.old }
        requires few { self.old.steps + 1 < 2 ^ 32 }
        ensures next { (c : Present) → slice_get self.old.lists.clients i ≡ Some c
            → IsActOf (header_view self.old.header) self.old.lists act.begin i c 0 (main_line c) self.new.lists result }
        ensures sound { IsSoundNext self.new }
        ensures steps { self.new.steps ≡ self.old.steps }
        ensures header { self.new.header ≡ self.old.header }
        ensures spent { self.new.spent ≡ self.old.spent }
        ensures refused { AtRefusal result (self.new ≡ self.old) }
    {
        let Some(kept) = self.kept.get(i) else {
            return Answer::No(Refusal::NoClient);
        };
        let under = last_in_effect(&kept.main.doc);
        let Some(client) = self.lists.clients.get_mut(i) else {
            return Answer::No(Refusal::NoClient);
        };
        edits::begin(client, under)
    }

    // The client at a place commits its open transaction.
    pub(crate) fn commit_transaction(
        &mut self,
        alloc: Global,
        i: usize,
    ) -> Result<Answer, AllocError>
        requires sound { IsSound self.old }
        requires few { self.old.steps + 1 < 2 ^ 32 }
        ensures next { IfOk result (λ a. (c : Present) → slice_get self.old.lists.clients i ≡ Some c
            → IsActOf (header_view self.old.header) self.old.lists act.commit i c 0 (main_line c) self.new.lists a) }
        ensures sound { OnOk result (IsSoundNext self.new) }
        ensures steps { OnOk result (self.new.steps ≡ self.old.steps) }
        ensures header { OnOk result (self.new.header ≡ self.old.header) }
        ensures spent { self.new.spent ≡ self.old.spent }
        ensures refused { IfOk result (λ a. AtRefusal a (self.new ≡ self.old)) }
    {
        let Some(kept) = self.kept.get_mut(i) else {
            return Ok(Answer::No(Refusal::NoClient));
        };
        let Some(client) = self.lists.clients.get_mut(i) else {
            return Ok(Answer::No(Refusal::NoClient));
        };
        let answer = edits::commit(alloc, client, kept)?;
        Ok(answer)
    }

    // The client at a place aborts its open transaction.
    pub(crate) fn abort_transaction(&mut self, i: usize) -> Answer
        requires sound { IsSound self.old }
        requires few { self.old.steps + 1 < 2 ^ 32 }
        ensures next { (c : Present) → slice_get self.old.lists.clients i ≡ Some c
            → IsActOf (header_view self.old.header) self.old.lists act.abort i c 0 (main_line c) self.new.lists result }
        ensures sound { IsSoundNext self.new }
        ensures steps { self.new.steps ≡ self.old.steps }
        ensures header { self.new.header ≡ self.old.header }
        ensures spent { self.new.spent ≡ self.old.spent }
        ensures refused { AtRefusal result (self.new ≡ self.old) }
    {
        let Some(kept) = self.kept.get_mut(i) else {
            return Answer::No(Refusal::NoClient);
        };
        let Some(client) = self.lists.clients.get_mut(i) else {
            return Answer::No(Refusal::NoClient);
        };
        edits::abort(client, kept)
    }
}
