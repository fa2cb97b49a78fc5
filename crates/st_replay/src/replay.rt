//! A replay of messages.
ghost use Rattle.std.specs.Prelude.{◌≡◌, ◌≤◌, ◌+◌, ◌<◌, ◌^◌, true, None, Some, [], length, IfOk, OnOk, List as Seq};
ghost use Rattle.serde_json.specs.View.{view};
ghost use Rattle.st_author_docs.specs.Authors.{LeadsTo};
ghost use Rattle.st_doc.specs.Doc.{document_of};
ghost use Rattle.st_ids.specs.Or.{IfRefused};
ghost use Rattle.st_ledger.specs.Stands.{StandsFor};
ghost use Rattle.st_lists.specs.Log.{commits_in, is_connected, known_reference, log_with};
ghost use Rattle.st_lists.specs.Names.{names_made};
ghost use Rattle.st_lists.specs.declared.lists.Body.TheVariants.{Ack, Commit, Join, Leave};
ghost use Rattle.st_lists.specs.declared.lists.Entry.{Entry as Logged};
ghost use Rattle.st_makers.specs.Makers.{KnowsMakers};
ghost use Rattle.st_marks.specs.Document.{Document};
ghost use Rattle.st_marks.specs.Verdict.{IsVerdict};
ghost use Rattle.st_replay.specs.Stands.{MayOpen, Stands, StandsAt};
ghost use Rattle.st_replay.specs.inside.Judging.{IsJudged, IsTurnedDown};
ghost use Rattle.st_replay.specs.inside.Taking.{GoesOnBy, IsEntered, IsRefused, IsStanding, MayFollow, opening_of};
ghost use Rattle.st_valid.specs.Ids.{is_next_range};
ghost use Rattle.st_valid.specs.Refusals.{refused_by_log};
ghost use Rattle.st_valid.specs.Room.{has_room_for_names};
ghost use Rattle.st_valid.specs.Sessions.{session_may};
ghost use Rattle.st_valid.specs.declared.message.Said.TheVariants as said;
ghost use Rattle.st_valid_laws.specs.Shape.{IsValueRefusedFor};
ghost use Rattle.st_valid_laws.specs.Taking.{IsTaken};

use crate::authors::Authors;
use crate::enter::{number_commit, number_join, push_entry};
use crate::judge::judge_change;
use crate::message::read_message;
use serde_json::Value;
use st_clusters::IdRange;
use st_doc::Doc;
use st_ids::{List, Or};
use st_ledger::Ledger;
use st_lists::{Body, Entry};
use st_makers::Makers;
use st_marks::{Change, Intent, Verdict};
use st_schema_texts::KnownSchemas;
use st_valid::{Message, ReplayCause, Said};
use std::alloc::{AllocError, Global};

/// A log of messages, and what is kept of it so that the next one can be judged: numbers and names, the document of all commits,
/// those of the authors, who made which node, and the schemas that were read. A message costs what its own names and rows ask for,
/// the entries that came since its session's last commit, the search of the log for the commit of its schema, and look-ups in
/// ordered maps; a join, and a commit whose reference rises, a copy of a document besides.
#[derive(Drop)]
pub struct Replay {
    pub(crate) alloc: Global,
    pub(crate) log: List<Entry>,
    pub(crate) ledger: Ledger,
    pub(crate) doc: Doc,
    pub(crate) authors: Authors,
    pub(crate) makers: Makers,
    pub(crate) schemas: KnownSchemas,
}

/// A message that was taken: its number, and the verdict of its commit, if it is one.
#[derive(Clone, Copy, Debug, PartialEq, Eq)]
pub struct Taken {
    pub n: u32,
    pub verdict: Option<Verdict>,
}

impl Replay {
    /// That of the empty log, which opens with a document.
    pub fn new(alloc: Global, opening: Doc) -> Result<Replay, AllocError>
        requires opens { MayOpen (document_of opening) }
        ensures { IfOk result (λ r. StandsAt r (document_of opening) []) }
    {
        let doc = opening.copy(alloc)?;
        let makers = Makers::start(alloc, &opening)?;
        Ok(Replay {
            alloc,
            log: List::new(alloc),
            ledger: Ledger::new(alloc),
            doc,
            authors: Authors::start(alloc, opening),
            makers,
            schemas: KnownSchemas::new(alloc),
        })
    }

    /// The document of the log: that of the opening, with all commits carried out.
    pub fn doc(&self) -> &Doc
        ensures { (O : Document) (log : Seq Logged) → StandsAt self.now O log
            → LeadsTo O (commits_in log) result.now }
    {
        &self.doc
    }

    // A session joins.
    fn join(&mut self, session: u32, uuid: u128) -> Result<(), AllocError>
        requires stands { IsStanding self.old }
        requires follows { MayFollow self.old session (Join uuid) }
        requires may { session_may self.old.log session (said.Join uuid) ≡ true }
        ensures { OnOk result (GoesOnBy self.old session (Join uuid) self.new) }
    {
        number_join(
            self.alloc,
            &mut self.ledger,
            self.log.as_slice(),
            session,
            uuid,
        )?;
        push_entry(&mut self.log, session, Body::Join { uuid })?;
        let at = self.log.len() as u32;
        self.authors.join(self.alloc, session, &self.doc, at)
    }

    // A session leaves.
    fn leave(&mut self, session: u32) -> Result<(), AllocError>
        requires stands { IsStanding self.old }
        requires follows { MayFollow self.old session Leave }
        requires connected { is_connected session self.old.log ≡ true }
        ensures { OnOk result (GoesOnBy self.old session Leave self.new) }
    {
        self.ledger.enter_leave(self.alloc, session)?;
        push_entry(&mut self.log, session, Body::Leave)?;
        self.authors.leave(session);
        Ok(())
    }

    // A session tells how many entries it has received.
    fn ack(&mut self, session: u32, reference: u32) -> Result<(), AllocError>
        requires stands { IsStanding self.old }
        requires follows { MayFollow self.old session (Ack reference) }
        requires connected { is_connected session self.old.log ≡ true }
        ensures { OnOk result (GoesOnBy self.old session (Ack reference) self.new) }
    {
        self.ledger.enter_ack(session, reference)?;
        push_entry(&mut self.log, session, Body::Ack { reference })
    }

    // A commit is numbered and carried out, before it is an entry of the log.
    fn carry_out(
        &mut self,
        session: u32,
        reference: u32,
        ids: IdRange,
        intent: &Intent,
    ) -> Result<Verdict, AllocError>
        requires stands { IsStanding self.old }
        requires follows { MayFollow self.old session (Commit reference ids intent.now) }
        requires connected { is_connected session self.old.log ≡ true }
        requires next { is_next_range self.old.log session ids ≡ true }
        requires room { has_room_for_names self.old.log (names_made intent.now) ≡ true }
        ensures verdict { IfOk result (IsVerdict (document_of self.old.doc) intent.now) }
        ensures numbers { OnOk result (StandsFor self.new.ledger
            (log_with self.old.log session (Commit reference ids intent.now))) }
        ensures document { OnOk result (LeadsTo (opening_of self.old)
            (commits_in (log_with self.old.log session (Commit reference ids intent.now)))
            self.new.doc) }
        ensures makers { OnOk result (KnowsMakers (opening_of self.old)
            (commits_in (log_with self.old.log session (Commit reference ids intent.now)))
            self.new.makers) }
        ensures entries { OnOk result (self.new.log ≡ self.old.log) }
        ensures authors { OnOk result (self.new.authors ≡ self.old.authors) }
    {
        number_commit(
            &mut self.ledger,
            self.log.as_slice(),
            session,
            reference,
            ids,
            intent,
        )?;
        self.makers.enter(self.alloc, intent)?;
        self.doc.carry(self.alloc, intent)
    }

    // A session commits.
    fn commit(
        &mut self,
        session: u32,
        reference: u32,
        ids: IdRange,
        intent: Intent,
    ) -> Result<Verdict, AllocError>
        requires stands { IsStanding self.old }
        requires follows { MayFollow self.old session (Commit reference ids intent) }
        requires connected { is_connected session self.old.log ≡ true }
        requires next { is_next_range self.old.log session ids ≡ true }
        requires room { has_room_for_names self.old.log (names_made intent) ≡ true }
        ensures verdict { IfOk result (IsVerdict (document_of self.old.doc) intent) }
        ensures goes { OnOk result (GoesOnBy self.old session (Commit reference ids intent) self.new) }
    {
        let verdict = self.carry_out(session, reference, ids, &intent)?;
        push_entry(
            &mut self.log,
            session,
            Body::Commit {
                reference,
                ids,
                intent,
            },
        )?;
        Ok(verdict)
    }

    // The intent that a change means in the document over which a session wrote it.
    fn judge(
        &mut self,
        session: u32,
        reference: u32,
        change: &Change,
    ) -> Result<Intent, Or<ReplayCause>>
        requires stands { IsStanding self.old }
        requires known { known_reference session self.old.log ≤ reference }
        requires within { reference ≤ length self.old.log }
        ensures passed { IfOk result (λ N.
            IsJudged (opening_of self.old) self.old.log session reference change.now N
            × StandsAt self.new (opening_of self.old) self.old.log) }
        ensures refused { IfRefused result (λ c.
            IsTurnedDown (opening_of self.old) self.old.log session reference change.now c
            × StandsAt self.new (opening_of self.old) self.old.log) }
    {
        self.authors
            .go_to(self.alloc, self.log.as_slice(), session, reference)?;
        let Some(doc) = self.authors.doc(session) else {
            unreachable!()
        };
        judge_change(
            self.alloc,
            &mut self.schemas,
            &self.makers,
            doc,
            self.log.as_slice(),
            session,
            reference,
            change,
        )
    }

    // Takes the commit of a change that passed the tests which read the log alone.
    fn take_change(
        &mut self,
        message: &Message,
        reference: u32,
        ids: IdRange,
        change: &Change,
    ) -> Result<Option<Verdict>, Or<ReplayCause>>
        requires stands { IsStanding self.old }
        requires passed { refused_by_log self.old.log message.now ≡ None }
        requires says { message.now.said ≡ said.Commit reference ids (Some change.now) }
        ensures entered { IfOk result (λ v. IsEntered self.old message.now v self.new) }
        ensures refused { IfRefused result (λ c. IsRefused self.old message.now c self.new) }
    {
        match self.judge(message.session, reference, change) {
            Ok(intent) => {
                let verdict = self.commit(message.session, reference, ids, intent)?;
                Ok(Some(verdict))
            }
            Err(cause) => Err(cause),
        }
    }

    // Takes a message that passed the tests which read the log alone.
    fn enter(&mut self, message: &Message) -> Result<Option<Verdict>, Or<ReplayCause>>
        requires stands { IsStanding self.old }
        requires passed { refused_by_log self.old.log message.now ≡ None }
        ensures entered { IfOk result (λ v. IsEntered self.old message.now v self.new) }
        ensures refused { IfRefused result (λ c. IsRefused self.old message.now c self.new) }
    {
        match &message.said {
            Said::Join { uuid } => {
                self.join(message.session, *uuid)?;
                Ok(None)
            }
            Said::Leave => {
                self.leave(message.session)?;
                Ok(None)
            }
            Said::Ack { reference } => {
                self.ack(message.session, *reference)?;
                Ok(None)
            }
            Said::Commit {
                reference,
                ids,
                change,
            } => match change {
                Some(change) => self.take_change(message, *reference, *ids, change),
                None => unreachable!(),
            },
        }
    }

    // Takes a message as the next one.
    fn take_message(&mut self, message: &Message) -> Result<Taken, Or<ReplayCause>>
        requires stands { IsStanding self.old }
        ensures number { IfOk result (λ t. t.n ≡ message.now.n) }
        ensures entered { IfOk result (λ t. IsEntered self.old message.now t.verdict self.new) }
        ensures refused { IfRefused result (λ c. IsRefused self.old message.now c self.new) }
    {
        if let Some(cause) = self.ledger.refused_by_log(message) {
            return Err(Or::Fault(cause));
        }
        match self.enter(message) {
            Ok(verdict) => Ok(Taken {
                n: message.n,
                verdict,
            }),
            Err(cause) => Err(cause),
        }
    }

    /// Takes a value as the next message, where it is read as one that passes every test; else the first test that it fails is
    /// told, and the log stays as it is. After `NoMemory` nothing is promised of the replay.
    pub fn take(&mut self, value: &Value) -> Result<Taken, Or<ReplayCause>>
        requires stands { Stands self.old }
        ensures taken { (O : Document) (log : Seq Logged) → StandsAt self.old O log
            → IfOk result (λ t. (after : Seq Logged)
            × IsTaken O log (view value.now) after t.n t.verdict × StandsAt self.new O after) }
        ensures refused { (O : Document) (log : Seq Logged) → StandsAt self.old O log
            → IfRefused result (λ c. IsValueRefusedFor O log (view value.now) c
            × StandsAt self.new O log) }
    {
        match read_message(self.alloc, self.ledger.ids(), self.log.as_slice(), value) {
            Ok(message) => self.take_message(&message),
            Err(Or::Fault(_)) => Err(Or::Fault(ReplayCause::Shape)),
            Err(Or::NoMemory) => Err(Or::NoMemory),
        }
    }
}
