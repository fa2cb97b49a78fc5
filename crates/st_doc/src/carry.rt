//! Carrying out an intent, whole or void.
ghost use Rattle.std.specs.Prelude.{◌≡◌, cond, None, IfOk, OnOk};
ghost use Rattle.std.specs.BTreeMap.{get};
ghost use Rattle.std.specs.Option.{option_or};
ghost use Rattle.st_ids.specs.declared.names.NodeId.{NodeId as Node};
ghost use Rattle.st_ids.specs.Order.{node_cmp};
ghost use Rattle.st_marks.specs.Document.{HasShortRows, IsSoundInForm};
ghost use Rattle.st_marks.specs.Intent.{Fits, is_new};
ghost use Rattle.st_marks.specs.CarryOut.{full, void, with_names, with_schema};
ghost use Rattle.st_marks.specs.Verdict.{IsVerdict, carried_document};
ghost use Rattle.st_doc.specs.inside.Ahead.{AreTargets, inside_new, with_moves};
ghost use Rattle.st_doc.specs.inside.Evictions.{IsOneHeld};

use crate::doc::Doc;
use crate::evictions::{evict_all, fill_all_new, refill};
use crate::maps::put_all;
use crate::names::{add_nodes, add_rows};
use crate::rows::grow_rows;
use crate::targets::{targets, targets_inside};
use st_ids::{Copied, List, NodeId};
use st_marks::{Intent, SchemaEntry, Spot, Verdict};
use std::alloc::{AllocError, Global};
use std::collections::BTreeMap;

// Puts the entry of a change of schema behind the others.
fn add_schema(
    alloc: Global,
    schemas: &mut List<SchemaEntry>,
    intent: &Intent,
) -> Result<(), AllocError>
    ensures { OnOk result (schemas.new ≡ with_schema intent.now intent.now.schema schemas.old) }
{
    let Some(text) = &intent.schema else {
        return Ok(());
    };
    let rev = intent.rev;
    let text = text.copy(alloc)?;
    schemas.push(SchemaEntry { rev, text })?;
    Ok(())
}

// Puts new nodes inside new nodes where they are to stand.
fn put_inside(
    alloc: Global,
    place: &mut BTreeMap<NodeId, Spot>,
    targets: &BTreeMap<NodeId, Spot>,
    intent: &Intent,
) -> Result<(), AllocError>
    ensures { OnOk result ((n : Node) → get node_cmp place.new n
        ≡ option_or (cond (is_new intent.now n) (inside_new intent.now (get node_cmp targets.now n)) None) (get node_cmp place.old n)) }
{
    let inside = targets_inside(alloc, targets, intent)?;
    put_all(place, inside)?;
    Ok(())
}

impl Doc {
    ghost use Rattle.st_doc.specs.Doc.{document_of};

    // Makes the new nodes and cells. Nothing is moved.
    fn add_names(&mut self, alloc: Global, intent: &Intent) -> Result<(), AllocError>
        requires sound { IsSoundInForm (document_of self.old) }
        requires fits { Fits (document_of self.old) intent.now }
        ensures { OnOk result (document_of self.new ≡ with_names (document_of self.old) intent.now) }
    {
        add_nodes(alloc, &mut self.nodes, intent)?;
        add_rows(&mut self.row_of, intent)?;
        grow_rows(alloc, &mut self.rows, intent)?;
        Ok(())
    }

    // Clears, and then puts, which lead to the targets.
    fn move_nodes(
        &mut self,
        alloc: Global,
        intent: &Intent,
        mut targets: BTreeMap<NodeId, Spot>,
    ) -> Result<(), AllocError>
        requires { IsOneHeld self.old.held (document_of self.old).place }
        ensures { OnOk result (document_of self.new ≡ with_moves intent.now targets (document_of self.old)) }
    {
        evict_all(&mut targets, &self.held, intent)?;
        refill(alloc, &mut self.held, &self.place, intent)?;
        put_all(&mut self.place, targets)?;
        Ok(())
    }

    // Carries out an intent whole: new nodes and cells, then the clears, then the puts.
    fn carry_whole(
        &mut self,
        alloc: Global,
        intent: &Intent,
        targets: BTreeMap<NodeId, Spot>,
    ) -> Result<(), AllocError>
        requires sound { IsSoundInForm (document_of self.old) }
        requires fits { Fits (document_of self.old) intent.now }
        requires targets { AreTargets self.old.row_of intent.now targets }
        ensures { OnOk result (document_of self.new ≡ full (document_of self.old) intent.now) }
    {
        self.add_names(alloc, intent)?;
        self.move_nodes(alloc, intent, targets)?;
        add_schema(alloc, &mut self.schemas, intent)?;
        Ok(())
    }

    // Carries out a void intent: new nodes and cells, and new nodes stand inside new nodes.
    fn carry_void(
        &mut self,
        alloc: Global,
        intent: &Intent,
        targets: &BTreeMap<NodeId, Spot>,
    ) -> Result<(), AllocError>
        requires sound { IsSoundInForm (document_of self.old) }
        requires fits { Fits (document_of self.old) intent.now }
        requires targets { AreTargets self.old.row_of intent.now targets.now }
        ensures { OnOk result (document_of self.new ≡ void (document_of self.old) intent.now) }
    {
        if intent.schema.is_some() {
            return Ok(());
        }
        self.add_names(alloc, intent)?;
        fill_all_new(alloc, &mut self.held, intent)?;
        put_inside(alloc, &mut self.place, targets, intent)?;
        Ok(())
    }

    // Carries out an intent by its verdict.
    fn carry_by_verdict(&mut self, alloc: Global, intent: &Intent) -> Result<Verdict, AllocError>
        requires sound { IsSoundInForm (document_of self.old) }
        requires fits { Fits (document_of self.old) intent.now }
        ensures verdict { IfOk result (IsVerdict (document_of self.old) intent.now) }
        ensures after { IfOk result (λ v. document_of self.new ≡ carried_document v (document_of self.old) intent.now) }
    {
        let targets = targets(alloc, &self.row_of, intent)?;
        let verdict = self.fails_at(alloc, intent, &targets)?;
        match verdict {
            Verdict::Sound => self.carry_whole(alloc, intent, targets)?,
            _ => self.carry_void(alloc, intent, &targets)?,
        }
        Ok(verdict)
    }

    /// Carries out an intent that fits: whole where it is sound, and void where it is not. The document stays sound in
    /// form where its rows stay short enough. It takes the time that the intent's names and the rows that it grows ask
    /// for. After an `Err` nothing is promised of the document.
    pub fn carry(&mut self, alloc: Global, intent: &Intent) -> Result<Verdict, AllocError>
        requires sound { IsSoundInForm (document_of self.old) }
        requires fits { Fits (document_of self.old) intent.now }
        ensures verdict { IfOk result (IsVerdict (document_of self.old) intent.now) }
        ensures after { IfOk result (λ v. document_of self.new ≡ carried_document v (document_of self.old) intent.now) }
        ensures still_sound { OnOk result (HasShortRows (full (document_of self.old) intent.now) → IsSoundInForm (document_of self.new)) }
    {
        let verdict = self.carry_by_verdict(alloc, intent)?;
        Ok(verdict)
    }
}
