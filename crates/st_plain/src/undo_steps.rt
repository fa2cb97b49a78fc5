//! What one client does with the log's past: it undoes commits, and tells how much it received.
ghost use Rattle.std.specs.Prelude.{◌≡◌, ◌+◌, ◌^◌, ◌<◌, ◌++◌, ◌∷◌, [], true, Some, slice_get, IfOk, OnOk};
ghost use Rattle.st_script.specs.Header.{header_view};
ghost use Rattle.st_script.specs.Steps as act;
ghost use Rattle.st_lists.specs.Clients.{with_ack};
ghost use Rattle.st_lists.specs.Lines.{main_line};
ghost use Rattle.st_world.specs.World.{IsActOf, AtRefusal};
ghost use Rattle.st_plain.specs.Replicas.{IsSound};
ghost use Rattle.st_plain.specs.inside.Replicas.{IsSoundNext};
ghost use Rattle.st_lists.specs.declared.lists.Client.{Client as Present};

use crate::world::World;
use st_ids::Rev;
use st_lists::{Body, Client, floor};
use st_plain_undo::undo;
use st_script::{Answer, Refusal};
use std::alloc::{AllocError, Global};

// Tells how many entries a client received, by a text in its queue.
fn ack(client: &mut Client) -> Result<Answer, AllocError>
    ensures client { OnOk result (client.new ≡ with_ack client.old) }
    ensures answer { IfOk result (λ a. a ≡ Answer.Ack client.old.received) }
{
    let reference = client.received;
    client.queue.push(Body::Ack { reference })?;
    Ok(Answer::Ack { reference })
}

impl World {
    // The client at a place undoes the commit of a revision.
    pub(crate) fn undo(&mut self, alloc: Global, i: usize, rev: Rev) -> Result<Answer, AllocError>
        requires sound { IsSound self.old }
        requires few { self.old.steps + 1 < 2 ^ 32 }
        ensures next { IfOk result (λ a. (c : Present) → slice_get self.old.lists.clients i ≡ Some c
            → IsActOf (header_view self.old.header) self.old.lists (act.undo rev) i c 0 (main_line c) self.new.lists a) }
        ensures sound { OnOk result (IsSoundNext self.new) }
        ensures steps { OnOk result (self.new.steps ≡ self.old.steps) }
        ensures header { OnOk result (self.new.header ≡ self.old.header) }
        ensures spent { self.new.spent ≡ self.old.spent }
        ensures refused { IfOk result (λ a. AtRefusal a (self.new ≡ self.old)) }
    {
        let Some(kept) = self.kept.get_mut(i) else {
            return Ok(Answer::No(Refusal::NoClient));
        };
        let Some(client) = self.lists.clients.get_mut(i) else {
            return Ok(Answer::No(Refusal::NoClient));
        };
        let low = floor(self.header.history, self.minima.as_slice(), client.received);
        let answer = undo(alloc, low, &self.logged, client, kept, rev)?;
        Ok(answer)
    }

    // The client at a place tells how many entries it received.
    pub(crate) fn ack(&mut self, i: usize) -> Result<Answer, AllocError>
        requires sound { IsSound self.old }
        requires few { self.old.steps + 1 < 2 ^ 32 }
        requires connected { (c : Present) → slice_get self.old.lists.clients i ≡ Some c → c.connected ≡ true }
        ensures next { IfOk result (λ a. (c : Present) → slice_get self.old.lists.clients i ≡ Some c
            → IsActOf (header_view self.old.header) self.old.lists act.ack i c 0 (main_line c) self.new.lists a) }
        ensures sound { OnOk result (IsSoundNext self.new) }
        ensures steps { OnOk result (self.new.steps ≡ self.old.steps) }
        ensures header { OnOk result (self.new.header ≡ self.old.header) }
        ensures spent { self.new.spent ≡ self.old.spent }
        ensures refused { IfOk result (λ a. AtRefusal a (self.new ≡ self.old)) }
    {
        let Some(client) = self.lists.clients.get_mut(i) else {
            return Ok(Answer::No(Refusal::NoClient));
        };
        let answer = ack(client)?;
        Ok(answer)
    }
}
