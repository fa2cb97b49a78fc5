//! Branches of a client that begin, are brought up to date, are merged, and are dropped.
ghost use Rattle.std.specs.Prelude.{◌≡◌, ◌+◌, ◌^◌, ◌<◌, Some, slice_get, IfOk, OnOk};
ghost use Rattle.st_script.specs.Header.{header_view};
ghost use Rattle.st_script.specs.Steps as act;
ghost use Rattle.st_lists.specs.Lines.{Line, line_of};
ghost use Rattle.st_world.specs.World.{IsActOf, AtRefusal};
ghost use Rattle.st_plain.specs.Replicas.{IsSound};
ghost use Rattle.st_plain.specs.inside.Replicas.{IsSoundNext};
ghost use Rattle.st_lists.specs.declared.lists.Client.{Client as Present};

use crate::world::World;
use st_plain_branches as branches;
use st_script::{Answer, Refusal};
use std::alloc::{AllocError, Global};

impl World {
    // A branch begins on a line of the client at a place.
    pub(crate) fn fork(
        &mut self,
        alloc: Global,
        i: usize,
        number: u32,
    ) -> Result<Answer, AllocError>
        requires sound { IsSound self.old }
        requires few { self.old.steps + 1 < 2 ^ 32 }
        ensures next { IfOk result (λ a. (c : Present) (l : Line) → slice_get self.old.lists.clients i ≡ Some c → line_of c number ≡ Some l
            → IsActOf (header_view self.old.header) self.old.lists act.fork i c number l self.new.lists a) }
        ensures sound { OnOk result (IsSoundNext self.new) }
        ensures steps { OnOk result (self.new.steps ≡ self.old.steps) }
        ensures header { OnOk result (self.new.header ≡ self.old.header) }
        ensures spent { self.new.spent ≡ self.old.spent }
        ensures refused { IfOk result (λ a. AtRefusal a (self.new ≡ self.old)) }
    {
        let Some(kept) = self.kept.get_mut(i) else {
            return Ok(Answer::No(Refusal::NoClient));
        };
        let Some(client) = self.lists.clients.get_mut(i) else {
            return Ok(Answer::No(Refusal::NoClient));
        };
        let answer = branches::fork(alloc, client, kept, number)?;
        Ok(answer)
    }

    // A branch of the client at a place is brought up to date with its parent.
    pub(crate) fn rebase(
        &mut self,
        alloc: Global,
        i: usize,
        number: u32,
    ) -> Result<Answer, AllocError>
        requires sound { IsSound self.old }
        requires few { self.old.steps + 1 < 2 ^ 32 }
        ensures next { IfOk result (λ a. (c : Present) (l : Line) → slice_get self.old.lists.clients i ≡ Some c → line_of c number ≡ Some l
            → IsActOf (header_view self.old.header) self.old.lists act.rebase i c number l self.new.lists a) }
        ensures sound { OnOk result (IsSoundNext self.new) }
        ensures steps { OnOk result (self.new.steps ≡ self.old.steps) }
        ensures header { OnOk result (self.new.header ≡ self.old.header) }
        ensures spent { self.new.spent ≡ self.old.spent }
        ensures refused { IfOk result (λ a. AtRefusal a (self.new ≡ self.old)) }
    {
        let Some(kept) = self.kept.get_mut(i) else {
            return Ok(Answer::No(Refusal::NoClient));
        };
        let Some(client) = self.lists.clients.get_mut(i) else {
            return Ok(Answer::No(Refusal::NoClient));
        };
        let answer = branches::rebase(alloc, client, kept, number)?;
        Ok(answer)
    }

    // A branch of the client at a place is merged into its parent.
    pub(crate) fn merge(
        &mut self,
        alloc: Global,
        i: usize,
        number: u32,
    ) -> Result<Answer, AllocError>
        requires sound { IsSound self.old }
        requires few { self.old.steps + 1 < 2 ^ 32 }
        ensures next { IfOk result (λ a. (c : Present) (l : Line) → slice_get self.old.lists.clients i ≡ Some c → line_of c number ≡ Some l
            → IsActOf (header_view self.old.header) self.old.lists act.merge i c number l self.new.lists a) }
        ensures sound { OnOk result (IsSoundNext self.new) }
        ensures steps { OnOk result (self.new.steps ≡ self.old.steps) }
        ensures header { OnOk result (self.new.header ≡ self.old.header) }
        ensures spent { self.new.spent ≡ self.old.spent }
        ensures refused { IfOk result (λ a. AtRefusal a (self.new ≡ self.old)) }
    {
        let Some(kept) = self.kept.get_mut(i) else {
            return Ok(Answer::No(Refusal::NoClient));
        };
        let Some(client) = self.lists.clients.get_mut(i) else {
            return Ok(Answer::No(Refusal::NoClient));
        };
        let answer = branches::merge(alloc, client, kept, number)?;
        Ok(answer)
    }

    // A branch of the client at a place is dropped.
    pub(crate) fn drop_branch(&mut self, i: usize, number: u32) -> Answer
        requires sound { IsSound self.old }
        requires few { self.old.steps + 1 < 2 ^ 32 }
        ensures next { (c : Present) (l : Line) → slice_get self.old.lists.clients i ≡ Some c → line_of c number ≡ Some l
            → IsActOf (header_view self.old.header) self.old.lists act.drop_branch i c number l self.new.lists result }
        ensures sound { IsSoundNext self.new }
        ensures steps { self.new.steps ≡ self.old.steps }
        ensures header { self.new.header ≡ self.old.header }
        ensures spent { self.new.spent ≡ self.old.spent }
        ensures refused { AtRefusal result (self.new ≡ self.old) }
    {
        let Some(kept) = self.kept.get_mut(i) else {
            return Answer::No(Refusal::NoClient);
        };
        let Some(client) = self.lists.clients.get_mut(i) else {
            return Answer::No(Refusal::NoClient);
        };
        branches::drop_branch(client, kept, number)
    }
}
