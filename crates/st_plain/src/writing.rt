//! What a step is that edits what its client shows.
ghost use Rattle.std.specs.Prelude.{◌≡◌, ◌+◌, ◌<◌, ◌^◌, ℕ, Ok, IfSome};
ghost use Rattle.st_doc.specs.Doc.{document_of};
ghost use Rattle.st_known_changes.specs.Writing.{IsWriting};
ghost use Rattle.st_lists.specs.declared.lists.WorldState.{WorldState as Lists};
ghost use Rattle.st_marks.specs.Document.{IsSoundInForm};
ghost use Rattle.st_marks.specs.Intent.{Fits};
ghost use Rattle.st_marks.specs.declared.intents.Intent.{Intent as Meant};
ghost use Rattle.st_plain.specs.Replicas.{IsSound};
ghost use Rattle.st_plain.specs.Stands.{Stands};
ghost use Rattle.st_script.specs.Header.{HeaderView};
ghost use Rattle.st_script.specs.Steps.{edit_view, step_view};
ghost use Rattle.st_world.specs.World.{intent_of};

use crate::world::World;
use st_doc::Doc;
use st_edits::NameCounters;
use st_lists::next_rev;
use st_plain_schemas::schema_of;
use st_schema::Schema;
use st_script::{Act, EditAct, TraceStep};

/// An edit of the tree that a client shows, as it may be made: how many entries the client received, the document that it shows,
/// the schema in effect there, and the names that the edit may give.
#[derive(Clone, Copy)]
pub struct Writing<'a> {
    pub received: u32,
    pub doc: &'a Doc,
    pub schema: &'a Schema,
    pub given: NameCounters,
    pub edit: &'a EditAct,
}

impl World {
    /// What a step writes over that may be made, if it is an edit on the main line of a client that is connected, where no
    /// transaction is open.
    pub fn writing<'a>(&'a self, step: &'a TraceStep) -> Option<Writing<'a>>
        requires sound { IsSound self.now }
        requires few { self.now.steps + 1 < 2 ^ 32 }
        ensures is { IfSome result (λ x. (k : ℕ) (h : HeaderView) (w : Lists) → Stands k self.now h w
            → IsWriting h w (step_view step.now) x.received (document_of x.doc.now) x.schema.now x.given (edit_view x.edit.now)) }
        ensures sound { IfSome result (λ x. IsSoundInForm (document_of x.doc.now)) }
        ensures fits { IfSome result (λ x. (N : Meant) → intent_of (document_of x.doc.now) x.schema.now x.given (edit_view x.edit.now) ≡ Ok N
            → Fits (document_of x.doc.now) N) }
    {
        let Act::Edit(edit) = &step.act else {
            return None;
        };
        if step.branch != 0 {
            return None;
        }
        let Some(i) = self.find(&step.client) else {
            return None;
        };
        let Some(client) = self.lists.clients.get(i) else {
            return None;
        };
        if !client.connected || client.transaction.is_some() {
            return None;
        }
        let Some(kept) = self.kept.get(i) else {
            return None;
        };
        let doc = kept.main.shown_doc();
        let Some(known) = schema_of(&self.schemas, doc) else {
            return None;
        };
        Some(Writing {
            received: client.received,
            doc,
            schema: &known.schema,
            given: NameCounters {
                rev: next_rev(client),
                nodes: 0,
                cells: 0,
            },
            edit,
        })
    }
}
