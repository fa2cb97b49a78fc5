//! Clients that leave, are dropped, and come back.
ghost use Rattle.std.specs.Prelude.{◌≡◌, ◌+◌, ◌^◌, ◌<◌, ◌++◌, ◌∷◌, [], length, Some, slice_get, IfOk, OnOk};
ghost use Rattle.std.specs.List.{remove};
ghost use Rattle.st_script.specs.Header.{header_view};
ghost use Rattle.st_script.specs.Steps as act;
ghost use Rattle.st_lists.specs.Clients.{without_connection};
ghost use Rattle.st_lists.specs.Known.{AreConnected, AreKnown};
ghost use Rattle.st_lists.specs.Limits.{entries_limit_passed};
ghost use Rattle.st_lists.specs.Log.{log_with, minimum};
ghost use Rattle.st_lists.specs.Lines.{main_line};
ghost use Rattle.st_world.specs.World.{IsActOf, AtRefusal};
ghost use Rattle.st_plain.specs.Replicas.{IsSound};
ghost use Rattle.st_plain.specs.inside.Replicas.{IsSoundNext};
ghost use Rattle.st_lists.specs.declared.lists.Client.{Client as Present};

use crate::world::World;
use st_heads::Replica;
use st_ids::{Limit, LimitOf, List};
use st_lists::{Body, Client, append_entry};
use st_plain_log::{catch_up, refusal_to_reconnect};
use st_script::{Answer, Refusal};
use std::alloc::{AllocError, Global};

/// How many entries a log has.
const MOST_ENTRIES: usize = 65_535;

// Takes a client's connection from it, and its queue.
fn disconnect(alloc: Global, client: &mut Client)
    ensures { client.new ≡ without_connection client.old }
{
    client.connected = false;
    client.queue = List::new(alloc);
}

// Lets go of the client at a place.
fn remove_client(clients: &mut List<Client>, i: usize)
    requires { i < length clients.old }
    ensures { clients.new ≡ remove clients.old i }
{
    let _ = clients.remove(i);
}

// Lets go of what is kept of the client at a place.
fn remove_replica(all: &mut List<Replica>, i: usize)
    requires { i < length all.old }
    ensures { all.new ≡ remove all.old i }
{
    let _ = all.remove(i);
}

impl World {
    // The limit that one more entry would pass, if there is one.
    fn entries_limit(&self) -> Option<Limit>
        requires { length self.now.lists.log < 2 ^ 32 }
        ensures { result ≡ entries_limit_passed self.now.lists.log }
    {
        let entries = self.lists.log.len();
        if entries >= MOST_ENTRIES {
            let of = LimitOf::Log;
            let kept = entries as u32;
            return Some(Limit { of, kept });
        }
        None
    }

    // Puts an entry at the end of the log, and tells its number.
    fn enter(&mut self, session: u32, body: Body) -> Result<u32, AllocError>
        requires entries { length self.old.lists.log < 65535 }
        requires known { AreKnown self.old.lists.log self.old.known }
        requires connected { AreConnected (log_with self.old.lists.log session body) self.old.lists.clients }
        ensures number { IfOk result (λ n. n ≡ length self.old.lists.log + 1) }
        ensures known { OnOk result (AreKnown (log_with self.old.lists.log session body) self.new.known) }
        ensures world { OnOk result (self.new ≡ record self.old {
          lists = record self.old.lists { log = log_with self.old.lists.log session body };
          known = self.new.known;
          minima = self.old.minima ++ minimum (log_with self.old.lists.log session body) ∷ [];
        }) }
        ensures spent { self.new.spent ≡ self.old.spent }
    {
        append_entry(&mut self.lists.log, &mut self.known, session, body)?;
        self.keep_minimum()?;
        Ok(self.lists.log.len() as u32)
    }

    // The client at a place leaves: nothing is kept of it.
    pub(crate) fn leave(&mut self, i: usize) -> Result<Answer, AllocError>
        requires sound { IsSound self.old }
        requires few { self.old.steps + 1 < 2 ^ 32 }
        ensures next { IfOk result (λ a. (c : Present) → slice_get self.old.lists.clients i ≡ Some c
            → IsActOf (header_view self.old.header) self.old.lists act.leave i c 0 (main_line c) self.new.lists a) }
        ensures sound { OnOk result (IsSoundNext self.new) }
        ensures steps { OnOk result (self.new.steps ≡ self.old.steps) }
        ensures header { OnOk result (self.new.header ≡ self.old.header) }
        ensures spent { self.new.spent ≡ self.old.spent }
        ensures refused { IfOk result (λ a. AtRefusal a (self.new ≡ self.old)) }
    {
        if let Some(limit) = self.entries_limit() {
            return Ok(Answer::No(Refusal::Limit(limit)));
        }
        let Some(client) = self.lists.clients.get(i) else {
            return Ok(Answer::No(Refusal::NoClient));
        };
        let session = client.session;
        remove_client(&mut self.lists.clients, i);
        remove_replica(&mut self.kept, i);
        let n = self.enter(session, Body::Leave)?;
        Ok(Answer::Leave { n })
    }

    // The client at a place is dropped: it stays, and isn't connected.
    pub(crate) fn drop_client(&mut self, alloc: Global, i: usize) -> Result<Answer, AllocError>
        requires sound { IsSound self.old }
        requires few { self.old.steps + 1 < 2 ^ 32 }
        ensures next { IfOk result (λ a. (c : Present) → slice_get self.old.lists.clients i ≡ Some c
            → IsActOf (header_view self.old.header) self.old.lists act.drop_client i c 0 (main_line c) self.new.lists a) }
        ensures sound { OnOk result (IsSoundNext self.new) }
        ensures steps { OnOk result (self.new.steps ≡ self.old.steps) }
        ensures header { OnOk result (self.new.header ≡ self.old.header) }
        ensures spent { self.new.spent ≡ self.old.spent }
        ensures refused { IfOk result (λ a. AtRefusal a (self.new ≡ self.old)) }
    {
        if let Some(limit) = self.entries_limit() {
            return Ok(Answer::No(Refusal::Limit(limit)));
        }
        let Some(client) = self.lists.clients.get_mut(i) else {
            return Ok(Answer::No(Refusal::NoClient));
        };
        let session = client.session;
        disconnect(alloc, client);
        let n = self.enter(session, Body::Leave)?;
        Ok(Answer::Drop { n })
    }

    // The client at a place comes back.
    pub(crate) fn reconnect(&mut self, alloc: Global, i: usize) -> Result<Answer, AllocError>
        requires sound { IsSound self.old }
        requires few { self.old.steps + 1 < 2 ^ 32 }
        ensures next { IfOk result (λ a. (c : Present) → slice_get self.old.lists.clients i ≡ Some c
            → IsActOf (header_view self.old.header) self.old.lists act.reconnect i c 0 (main_line c) self.new.lists a) }
        ensures sound { OnOk result (IsSoundNext self.new) }
        ensures steps { OnOk result (self.new.steps ≡ self.old.steps) }
        ensures header { OnOk result (self.new.header ≡ self.old.header) }
        ensures spent { self.new.spent ≡ self.old.spent }
        ensures refused { IfOk result (λ a. AtRefusal a (self.new ≡ self.old)) }
    {
        let Some(kept) = self.kept.get_mut(i) else {
            return Ok(Answer::No(Refusal::NoClient));
        };
        let Some(client) = self.lists.clients.get_mut(i) else {
            return Ok(Answer::No(Refusal::NoClient));
        };
        let log = self.lists.log.as_slice();
        if let Some(refusal) = refusal_to_reconnect(log, client) {
            return Ok(Answer::No(refusal));
        }
        let session = client.session;
        let uuid = client.uuid;
        let sent = catch_up(alloc, log, client, kept)?;
        let n = self.enter(session, Body::Join { uuid })?;
        Ok(Answer::Reconnect { n, sent })
    }
}
