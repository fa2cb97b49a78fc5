//! What is kept of a log, as entries come.
ghost use Rattle.std.specs.BTreeMap.{get};
ghost use Rattle.st_ids.specs.Order.{rev_cmp, same_rev};
ghost use Rattle.st_ids.specs.declared.names.Rev.{Rev as RevNames};
ghost use Rattle.st_clusters.specs.Ids.{ids_of};
ghost use Rattle.st_clusters.specs.Table.{after_joining};
ghost use Rattle.st_ids.specs.Or.{IfRefused};
ghost use Rattle.st_valid.specs.Ids.{is_next_range};
ghost use Rattle.st_valid.specs.Sessions.{session_may};
ghost use Rattle.st_valid.specs.declared.message.Said.TheVariants as said;
ghost use Rattle.st_lists.specs.Names.{names_made};
ghost use Rattle.st_marks.specs.declared.intents.Intent.{Intent};
ghost use Rattle.std.specs.Prelude.{cond, Some, filter, not, IfOk, ◌≡◌, ℕ, ◌+◌, ◌==◌, ◌<◌, ◌≤◌, ◌^◌, true, false, max, length, Ok, Err, List as Seq, OnOk, if◌then◌else◌};
ghost use Rattle.st_ledger.specs.Stands.{StandsFor};
ghost use Rattle.st_lists.specs.Known.{known_so_far};
ghost use Rattle.st_lists.specs.Log.{is_connected, log_with};
ghost use Rattle.st_lists.specs.declared.lists.Body.TheVariants.{Ack, Commit, Join, Leave};
ghost use Rattle.st_lists.specs.declared.lists.Entry.{Entry};

use crate::ledger::Ledger;
use st_clusters::{Compressor, IdFault, IdRange};
use st_ids::{List, Or, Rev};
use std::alloc::{AllocError, Global};
use std::collections::BTreeMap;

// Takes note of a reference of a session.
fn note_reference(
    known: &mut BTreeMap<u32, u32>,
    session: u32,
    reference: u32,
) -> Result<(), AllocError>
    ensures { OnOk result ((s : ℕ) → known_so_far known.new s
        ≡ (if session == s then max (known_so_far known.old s) reference
        else known_so_far known.old s)) }
{
    let before = known.get(&session).copied().unwrap_or(0);
    known.insert(session, before.max(reference))?;
    Ok(())
}

// Takes note of which entry has the commit of a revision.
fn note_revision(
    revisions: &mut BTreeMap<Rev, u32>,
    rev: Rev,
    number: u32,
) -> Result<(), AllocError>
    ensures { OnOk result ((other : RevNames) → get rev_cmp revisions.new other
        ≡ cond (same_rev rev other) (Some number) (get rev_cmp revisions.old other)) }
{
    revisions.insert(rev, number)?;
    Ok(())
}

// A session more among those of a table, if it is new.
fn note_session(
    alloc: Global,
    ids: &mut Compressor,
    new: bool,
    uuid: u128,
) -> Result<(), Or<IdFault>>
    requires few { length (ids_of ids.old).sessions < 65535 }
    ensures stays { OnOk result (new ≡ false → ids_of ids.new ≡ ids_of ids.old) }
    ensures joins { OnOk result (new ≡ true → after_joining uuid (ids_of ids.old)
        ≡ Ok (length (ids_of ids.old).sessions + 1, ids_of ids.new)) }
    ensures refused { IfRefused result (λ f. (new ≡ true)
        × (after_joining uuid (ids_of ids.old) ≡ Err f)) }
{
    if new {
        ids.add_session(alloc, uuid)?;
    }
    Ok(())
}

// The sessions but one.
fn others(alloc: Global, sessions: &[u32], session: u32) -> Result<List<u32>, AllocError>
    ensures { IfOk result (λ rest. rest ≡ filter (λ s. not (s == session)) sessions.now) }
{
    let mut rest = List::new(alloc);
    for one in sessions {
        if *one != session {
            rest.push(*one)?;
        }
    }
    Ok(rest)
}

impl Ledger {
    /// Takes note of an entry in which a session joins: a new one, or one that comes back. Refused is none that may join. After
    /// an `Err` nothing is promised of what is kept.
    pub fn enter_join(&mut self, alloc: Global, session: u32, uuid: u128) -> Result<(), Or<IdFault>>
        requires few { self.old.entries < 65535 }
        requires sessions { length (ids_of self.old.ids).sessions ≤ self.old.entries }
        ensures ok { OnOk result ((log : Seq Entry) → StandsFor self.old log
            → session_may log session (said.Join uuid) ≡ true
            → StandsFor self.new (log_with log session (Join uuid))) }
        ensures refused { IfRefused result (λ _. (log : Seq Entry) → StandsFor self.old log
            → session_may log session (said.Join uuid) ≡ false) }
    {
        let new = !self.has_joined(session, uuid);
        match note_session(alloc, &mut self.ids, new, uuid) {
            Err(why) => Err(why),
            Ok(()) => {
                note_reference(&mut self.known, session, self.entries + 1)?;
                self.connected.push(session)?;
                self.entries += 1;
                Ok(())
            }
        }
    }

    /// Takes note of an entry in which a session that is connected leaves. After an `Err` nothing is promised of what is kept.
    pub fn enter_leave(&mut self, alloc: Global, session: u32) -> Result<(), AllocError>
        requires few { self.old.entries + 1 < 2 ^ 32 }
        ensures { OnOk result ((log : Seq Entry) → StandsFor self.old log
            → is_connected session log ≡ true
            → StandsFor self.new (log_with log session Leave)) }
    {
        self.connected = others(alloc, self.connected.as_slice(), session)?;
        self.entries += 1;
        Ok(())
    }

    /// Takes note of an entry in which a session that is connected tells how many entries it has received. After an `Err`
    /// nothing is promised of what is kept.
    pub fn enter_ack(&mut self, session: u32, reference: u32) -> Result<(), AllocError>
        requires few { self.old.entries + 1 < 2 ^ 32 }
        ensures { OnOk result ((log : Seq Entry) → StandsFor self.old log
            → is_connected session log ≡ true
            → StandsFor self.new (log_with log session (Ack reference))) }
    {
        note_reference(&mut self.known, session, reference)?;
        self.entries += 1;
        Ok(())
    }

    /// Takes note of an entry in which a session that is connected commits, of its range of ids, and of the revision and the
    /// names of its commit. Refused is a range that isn't the session's next. After an `Err` nothing is promised of what is
    /// kept.
    pub fn enter_commit(
        &mut self,
        session: u32,
        reference: u32,
        ids: IdRange,
        rev: Rev,
        names: u32,
    ) -> Result<(), Or<IdFault>>
        requires few { self.old.entries + 1 < 2 ^ 32 }
        requires names { self.old.names + names < 2 ^ 32 }
        ensures ok { OnOk result ((log : Seq Entry) (N : Intent) → StandsFor self.old log
            → is_connected session log ≡ true → rev ≡ N.rev → names ≡ names_made N
            → StandsFor self.new (log_with log session (Commit reference ids N))) }
        ensures refused { IfRefused result (λ _. (log : Seq Entry) → StandsFor self.old log
            → is_connected session log ≡ true → is_next_range log session ids ≡ false) }
    {
        match self.ids.finalize(ids) {
            Err(why) => Err(why),
            Ok(()) => {
                note_reference(&mut self.known, session, reference)?;
                note_revision(&mut self.revisions, rev, self.entries + 1)?;
                self.names += names;
                self.entries += 1;
                Ok(())
            }
        }
    }
}
