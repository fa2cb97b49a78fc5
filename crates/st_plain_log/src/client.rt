//! A client that joins, and what is kept of it.
ghost use Rattle.std.specs.Prelude.{◌≡◌, [], ◌∷◌, ◌++◌, IfOk, OnOk, None};
ghost use Rattle.st_doc.specs.Doc.{document_of};
ghost use Rattle.st_lists.specs.Clients.{new_client};
ghost use Rattle.st_heads.specs.declared.replica.Replica.{Replica as KeptOf};
ghost use Rattle.st_plain_log.specs.Receiving.{IsNewReplica};

use st_doc::Doc;
use st_heads::{Head, Replica};
use st_ids::{Copied, List, Text};
use st_lists::Client;
use std::alloc::{AllocError, Global};

// A client that has received so many entries, with its own join as the last.
fn new_client(
    alloc: Global,
    n: u32,
    session: u32,
    uuid: u128,
    name: &Text,
) -> Result<Client, AllocError>
    ensures { IfOk result (λ c. c ≡ new_client n session uuid name.now) }
{
    Ok(Client {
        name: name.copy(alloc)?,
        session,
        uuid,
        connected: true,
        received: n,
        ids: 0,
        taken: 0,
        pending: List::new(alloc),
        transaction: None,
        queue: List::new(alloc),
        forks: 0,
        branches: List::new(alloc),
    })
}

/// Puts a client that joins behind the others: it has received so many entries, with its own join as the last.
pub fn add_client(
    alloc: Global,
    clients: &mut List<Client>,
    n: u32,
    session: u32,
    uuid: u128,
    name: &Text,
) -> Result<(), AllocError>
    ensures { OnOk result (clients.new ≡ clients.old ++ new_client n session uuid name.now ∷ []) }
{
    let client = new_client(alloc, n, session, uuid, name)?;
    clients.push(client)?;
    Ok(())
}

// The head of a line over a document, with no commit of its own.
fn first_head(alloc: Global, doc: &Doc) -> Result<Head, AllocError>
    ensures doc { IfOk result (λ h. document_of h.doc ≡ document_of doc.now) }
    ensures own { IfOk result (λ h. h.own ≡ []) }
    ensures edited { IfOk result (λ h. h.edited ≡ None) }
{
    Ok(Head {
        doc: doc.copy(alloc)?,
        own: List::new(alloc),
        edited: None,
    })
}

// What is kept of a client that has received the whole log, to whose commits `doc` is the document, and has nothing
// pending.
fn new_replica(alloc: Global, doc: &Doc) -> Result<Replica, AllocError>
    ensures { IfOk result (IsNewReplica (document_of doc.now)) }
{
    let received = doc.copy(alloc)?;
    let main = first_head(alloc, doc)?;
    Ok(Replica {
        received,
        main,
        branches: List::new(alloc),
        names: 0,
    })
}

/// Puts behind the others what is kept of a client that has received the whole log and has nothing pending.
pub fn add_replica(alloc: Global, all: &mut List<Replica>, doc: &Doc) -> Result<(), AllocError>
    ensures { OnOk result ((k : KeptOf) × (all.new ≡ all.old ++ k ∷ []) × IsNewReplica (document_of doc.now) k) }
{
    let kept = new_replica(alloc, doc)?;
    all.push(kept)?;
    Ok(())
}
