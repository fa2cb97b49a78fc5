//! The makers of nodes.
ghost use Rattle.std.specs.Prelude.{◌≡◌, ◌≢◌, ◌++◌, ◌∷◌, [], IfOk, None, OnOk, List as Seq};
ghost use Rattle.std.specs.Option.{option_copied};
ghost use Rattle.st_ids.specs.Root.{opening};
ghost use Rattle.st_doc.specs.Doc.{document_of};
ghost use Rattle.st_marks.specs.Document.{Document, IsSoundInForm};
ghost use Rattle.st_marks.specs.declared.intents.Intent.{Intent as Wanted};
ghost use Rattle.st_edits.specs.Keeping.{commit_named};
ghost use Rattle.st_makers.specs.Makers.{KnowsMakers, home_told, under_told};

use crate::homes::note_puts;
use crate::opening::opening_homes;
use st_doc::Doc;
use st_ids::{FieldId, NodeId, OPENING, Rev, is_same_rev};
use st_marks::Intent;
use std::alloc::{AllocError, Global};
use std::collections::BTreeMap;

/// Of an opening document and of commits: the schema under which each commit was made, by its revision, and the homes of
/// nodes. Look-ups take logarithmic time.
#[derive(Drop)]
pub struct Makers {
    pub(crate) unders: BTreeMap<Rev, Rev>,
    pub(crate) homes: BTreeMap<NodeId, FieldId>,
}

impl Makers {
    /// Those of an opening document.
    pub fn start(alloc: Global, doc: &Doc) -> Result<Makers, AllocError>
        requires sound { IsSoundInForm (document_of doc.now) }
        ensures { IfOk result (λ makers. KnowsMakers (document_of doc.now) [] makers) }
    {
        let homes = opening_homes(alloc, doc)?;
        let unders = BTreeMap::new(alloc);
        Ok(Makers { unders, homes })
    }

    /// Takes note of a commit with a new revision. After an `Err` nothing is promised of the tables.
    pub fn enter(&mut self, alloc: Global, intent: &Intent) -> Result<(), AllocError>
        ensures { OnOk result ((O : Document) (Ns : Seq Wanted) → KnowsMakers O Ns self.old
            → commit_named Ns intent.now.rev ≡ None → intent.now.rev ≢ opening
            → KnowsMakers O (Ns ++ intent.now ∷ []) self.new) }
    {
        note_puts(alloc, &mut self.homes, intent)?;
        self.unders.insert(intent.rev, intent.under)?;
        Ok(())
    }

    /// The schema under which a node was made, if it is known.
    pub fn under(&self, node: NodeId) -> Option<Rev>
        ensures { result ≡ under_told self.now node }
    {
        if is_same_rev(node.0.rev, OPENING) {
            return Some(OPENING);
        }
        self.unders.get(&node.0.rev).copied()
    }

    /// The register into which a node was put when it was made, if it was put into one.
    pub fn home(&self, node: NodeId) -> Option<&FieldId>
        ensures { option_copied result ≡ home_told self.now node }
    {
        self.homes.get(&node)
    }
}
