//! What is told of a client's pending commits.
ghost use Rattle.std.specs.Prelude.{◌≡◌, ℕ, List as Seq, Some, slice_get, IfOk};
ghost use Rattle.st_doc.specs.Doc.{document_of};
ghost use Rattle.st_log_laws.specs.Turns.{FitInTurn};
ghost use Rattle.st_marks.specs.Document.{IsSoundInForm};
ghost use Rattle.st_world.specs.Texts.{AreTextsOf};
ghost use Rattle.st_script.specs.Header.{header_view};
ghost use Rattle.st_world.specs.World.{IsPendingTold};
ghost use Rattle.st_plain.specs.Replicas.{IsSound};
ghost use Rattle.st_plain_branches.specs.Branches.{void_among};
ghost use Rattle.st_lists.specs.declared.lists.Client.{Client as Present};

use crate::world::World;
use st_heads::Replica;
use st_lists::Client;
use st_plain_branches::void_revs;
use st_plain_log::texts_in_turn;
use st_script::{Answer, Refusal};
use std::alloc::{AllocError, Global};

// The pending commits of a client, each as the change that it is where it comes, and those that came out void.
fn told(alloc: Global, client: &Client, kept: &Replica) -> Result<Answer, AllocError>
    requires sound { IsSoundInForm (document_of kept.now.received) }
    requires fit { FitInTurn (document_of kept.now.received) client.now.pending }
    ensures { IfOk result (λ a. (texts : Seq (Seq ℕ)) × AreTextsOf (document_of kept.now.received) client.now.pending texts
        × (a ≡ Answer.Pending texts (void_among client.now.pending kept.now.main.own))) }
{
    let own = client.pending.as_slice();
    let pending = texts_in_turn(alloc, &kept.received, own)?;
    let void = void_revs(alloc, own, kept.main.own.as_slice())?;
    Ok(Answer::Pending { pending, void })
}

impl World {
    // What is told of the pending commits of the client at a place.
    pub(crate) fn pending(&self, alloc: Global, i: usize) -> Result<Answer, AllocError>
        requires { IsSound self.now }
        ensures { IfOk result (λ a. (c : Present) → slice_get self.now.lists.clients i ≡ Some c
            → IsPendingTold (header_view self.now.header) self.now.lists c a) }
    {
        let Some(kept) = self.kept.get(i) else {
            return Ok(Answer::No(Refusal::NoClient));
        };
        let Some(client) = self.lists.clients.get(i) else {
            return Ok(Answer::No(Refusal::NoClient));
        };
        told(alloc, client, kept)
    }
}
