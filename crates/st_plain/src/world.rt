//! The world: its lists, and the documents and numbers that its answers are read off.
ghost use Rattle.std.specs.Prelude.{ℕ, ◌≡◌, ◌≢◌, ◌↔◌, ◌+◌, ◌-◌, ◌^◌, ◌<◌, ◌≤◌, ◌++◌, ◌∷◌, ◌&&◌, not, true, false, is_some, length, [], None, Some, slice_get, IfOk, IfSome, OnOk, IsErrOf};
ghost use Rattle.serde_json.specs.Written.{compact_text};
ghost use Rattle.st_ids.specs.Root.{opening};
ghost use Rattle.st_schema.specs.Written.{schema_data};
ghost use Rattle.st_marks.specs.Document.{IsSoundInForm};
ghost use Rattle.st_marks.specs.Intent.{Fits};
ghost use Rattle.st_doc.specs.Doc.{document_of};
ghost use Rattle.st_script.specs.Header.{HeaderView, header_view};
ghost use Rattle.st_script.specs.Steps.{act_view, step_view, IsActWithin, IsWithinLimits};
ghost use Rattle.st_lists.specs.Clients.{empty_state, place_of};
ghost use Rattle.st_world.specs.World.{opening_document, limit_refusal, enter, join, sequence, uuid_for, act_of_none, branch_at, needs_connection, IsDelivered, IsShown, IsActOf, IsNext, AtRefusal, ShowsAllowed};
ghost use Rattle.st_lists.specs.Lines.{Line, line_of, main_line};
ghost use Rattle.st_lists.specs.Names.{names_in_text};
ghost use Rattle.st_lists.specs.Limits.{log_limit_passed};
ghost use Rattle.st_plain_schemas.specs.Schemas.{HasReading};
ghost use Rattle.st_world_laws.specs.Worlds.{IsHeader};
ghost use Rattle.st_plain.specs.Replicas.{IsSound};
ghost use Rattle.st_plain.specs.Stands.{IsSpent, MayStep, Stands};
ghost use Rattle.st_plain.specs.inside.Replicas.{HasLogged, IsSoundNext};
ghost use Rattle.st_lists.specs.Known.{AreConnected, AreKnown};
ghost use Rattle.st_lists.specs.Log.{commit_in, log_with, minimum, sessions_in};
ghost use Rattle.st_lists.specs.declared.lists.Client.{Client as Present};
ghost use Rattle.st_lists.specs.declared.lists.WorldState.{WorldState as Lists};

use st_clusters::uuid_of;
use st_doc::Doc;
use st_heads::{Replica, carry_one};
use st_ids::{Copied, Limit, LimitOf, List, Or, Rev, Text};
use st_lists::{Body, Client, WorldState, append_entry, clashes, minimum, names_in_text};
use st_plain_branches::{head_of, line_state};
use st_plain_log::{add_client, add_replica, deliver, names_waiting, take_text};
use st_plain_schemas::{KnownSchema, keep, know, schema_of};
use st_plain_undo::{Logged, log_commit};
use st_schema::Header;
use st_script::{Act, Answer, Refusal, TraceStep};
use std::alloc::{AllocError, Global};
use std::collections::BTreeMap;

/// How many clients there are at a time.
const MOST_CLIENTS: usize = 64;

/// How many entries a log has.
const MOST_ENTRIES: usize = 65_535;

/// How many names the commits of a log make.
const MOST_NAMES: u64 = 131_072;

/// The lists, and beside them what is read off them: what is kept of the header's schema and of that of each upgrade, by the
/// revision that brought it in, the document after the whole log, what is kept of each client, the greatest reference known
/// of each session, the minimum after each entry, of each commit of the log how it came out, how many names the log makes,
/// and how many sessions it has given. `spent` is set after want of memory, and `steps` counts the steps.
#[derive(Drop)]
pub struct World {
    pub(crate) header: Header,
    pub(crate) schemas: BTreeMap<Rev, KnownSchema>,
    pub(crate) log_document: Doc,
    pub(crate) lists: WorldState,
    pub(crate) kept: List<Replica>,
    pub(crate) known: BTreeMap<u32, u32>,
    pub(crate) minima: List<u32>,
    pub(crate) logged: BTreeMap<Rev, Logged>,
    pub(crate) names: u64,
    pub(crate) sessions: u32,
    pub(crate) steps: u32,
    pub(crate) spent: bool,
}

/// The world found no memory before, and makes no more steps.
#[derive(Clone, Copy, Debug, PartialEq, Eq)]
pub struct Spent;

// The place of the client with a name.
fn place_of(clients: &[Client], name: &str) -> Option<usize>
    ensures { result ≡ place_of name.now clients.now }
{
    clients
        .iter()
        .position(|client| client.name.as_str() == name)
}

// A refusal by a limit, with the count that stands.
fn limit_refusal(of: LimitOf, kept: u32) -> Answer
    ensures { result ≡ limit_refusal (record { of = of; kept = kept }) }
{
    Answer::No(Refusal::Limit(Limit { of, kept }))
}

// The UUID of a session: the one that is told, or else the one whose free number is the session's times 2^64.
fn uuid_for(session: u32, told: Option<u128>) -> u128
    ensures { result ≡ uuid_for session told }
{
    match told {
        None => uuid_of(u128::from(session) * (1 << 64)),
        Some(uuid) => uuid,
    }
}

// The document of a header's tree.
pub(crate) fn opening(alloc: Global, header: &Header) -> Result<Doc, AllocError>
    requires { IsHeader (header_view header.now) }
    ensures is { IfOk result (λ d. document_of d ≡ opening_document (header_view header.now)) }
    ensures sound { IfOk result (λ d. IsSoundInForm (document_of d)) }
{
    let schema = header.schema.text(alloc)?;
    let doc = Doc::start(alloc, schema, &header.tree)?;
    Ok(doc)
}

// The table of schemas that has a header's alone, as that under which a trace opens.
fn first_schemas(alloc: Global, header: &Header) -> Result<BTreeMap<Rev, KnownSchema>, AllocError>
    requires { IsHeader (header_view header.now) }
    ensures { IfOk result (λ schemas. HasReading schemas opening (compact_text (schema_data (header_view header.now).schema))) }
{
    let mut schemas = BTreeMap::new(alloc);
    let schema = header.schema.copy(alloc)?;
    let known = know(alloc, schema)?;
    keep(&mut schemas, Rev { session: 0, num: 0 }, known)?;
    Ok(schemas)
}

// What is read off a header: the table that has its schema, and the opening document.
fn read_off(alloc: Global, header: &Header) -> Result<(BTreeMap<Rev, KnownSchema>, Doc), AllocError>
    requires { IsHeader (header_view header.now) }
    ensures schemas { IfOk result (λ r. HasReading r.0 opening (compact_text (schema_data (header_view header.now).schema))) }
    ensures log_document { IfOk result (λ r. document_of r.1 ≡ opening_document (header_view header.now)) }
{
    let schemas = first_schemas(alloc, header)?;
    let log_document = opening(alloc, header)?;
    Ok((schemas, log_document))
}

// The branch that a step's act is on: 0 where the act names none.
fn branch_of(step: &TraceStep) -> u32
    ensures { result ≡ branch_at step.now.branch (act_view step.now.act) }
{
    match &step.act {
        Act::Edit(_)
        | Act::Need { .. }
        | Act::Begin
        | Act::Commit
        | Act::Abort
        | Act::Fork
        | Act::Rebase
        | Act::Merge
        | Act::DropBranch
        | Act::Show => { step.branch }
        Act::Join { .. }
        | Act::Undo { .. }
        | Act::Upgrade { .. }
        | Act::Sequence
        | Act::Ack
        | Act::Deliver
        | Act::Leave
        | Act::Drop
        | Act::Reconnect
        | Act::Pending => 0,
    }
}

// Whether only a client that is connected does the act.
fn needs_connection(act: &Act) -> bool
    ensures { result ≡ needs_connection (act_view act.now) }
{
    match act {
        Act::Sequence | Act::Ack | Act::Deliver | Act::Leave | Act::Drop => true,
        Act::Join { .. }
        | Act::Edit(_)
        | Act::Need { .. }
        | Act::Begin
        | Act::Commit
        | Act::Abort
        | Act::Undo { .. }
        | Act::Upgrade { .. }
        | Act::Reconnect
        | Act::Fork
        | Act::Rebase
        | Act::Merge
        | Act::DropBranch
        | Act::Show
        | Act::Pending => false,
    }
}

impl World {
    /// The world that opens with a header, before any client joins.
    pub fn new(alloc: Global, header: Header) -> Result<World, AllocError>
        requires { IsHeader (header_view header) }
        ensures stands { IfOk result (λ w. Stands 0 w (header_view header) empty_state) }
    {
        let (schemas, log_document) = read_off(alloc, &header)?;
        Ok(World::begin(alloc, header, schemas, log_document))
    }

    // The world of a header, with the table that has its schema and the opening document.
    fn begin(
        alloc: Global,
        header: Header,
        schemas: BTreeMap<Rev, KnownSchema>,
        log_document: Doc,
    ) -> World
        requires header { IsHeader (header_view header) }
        requires schemas { HasReading schemas opening (compact_text (schema_data (header_view header).schema)) }
        requires log_document { document_of log_document ≡ opening_document (header_view header) }
        ensures lists { result.lists ≡ empty_state }
        ensures header { result.header ≡ header }
        ensures sound { IsSound result }
        ensures fresh { (result.spent ≡ false) × (result.steps ≡ 0) }
    {
        World {
            header,
            schemas,
            log_document,
            lists: WorldState {
                log: List::new(alloc),
                clients: List::new(alloc),
            },
            kept: List::new(alloc),
            known: BTreeMap::new(alloc),
            minima: List::new(alloc),
            logged: BTreeMap::new(alloc),
            names: 0,
            sessions: 0,
            steps: 0,
            spent: false,
        }
    }

    // The client at a place receives the next entry.
    fn deliver(&mut self, alloc: Global, i: usize) -> Result<Answer, AllocError>
        requires sound { IsSound self.old }
        requires few { self.old.steps + 1 < 2 ^ 32 }
        ensures next { IfOk result (λ a. (c : Present) → slice_get self.old.lists.clients i ≡ Some c
            → IsDelivered (header_view self.old.header) self.old.lists i c self.new.lists a) }
        ensures sound { OnOk result (IsSoundNext self.new) }
        ensures steps { OnOk result (self.new.steps ≡ self.old.steps) }
        ensures header { OnOk result (self.new.header ≡ self.old.header) }
        ensures spent { self.new.spent ≡ self.old.spent }
        ensures refused { IfOk result (λ a. AtRefusal a (self.new ≡ self.old)) }
    {
        let Some(kept) = self.kept.get_mut(i) else {
            return Ok(Answer::No(Refusal::NoClient));
        };
        let Some(client) = self.lists.clients.get_mut(i) else {
            return Ok(Answer::No(Refusal::NoClient));
        };
        let log = self.lists.log.as_slice();
        let answer = deliver(alloc, log, client, kept)?;
        Ok(answer)
    }

    // The limit that one more entry with so many names would pass, if there is one.
    fn limit_passed(&self, made: u64) -> Option<Limit>
        requires { IsSound self.now }
        ensures { result ≡ log_limit_passed self.now.lists.log made }
    {
        let entries = self.lists.log.len();
        if entries >= MOST_ENTRIES {
            let of = LimitOf::Log;
            let kept = entries as u32;
            return Some(Limit { of, kept });
        }
        if self.names.saturating_add(made) > MOST_NAMES {
            let of = LimitOf::Names;
            let kept = self.names as u32;
            return Some(Limit { of, kept });
        }
        None
    }

    // Carries out in the document of the whole log what a text says, if it is a commit, and takes note of how it came out.
    fn carry_text(&mut self, alloc: Global, text: &Body) -> Result<(), AllocError>
        requires sound { IsSoundInForm (document_of self.old.log_document) }
        requires fits { IfSome (commit_in text.now) (Fits (document_of self.old.log_document)) }
        requires entries { length self.old.lists.log < 65535 }
        ensures logged { OnOk result (HasLogged (document_of self.old.log_document) self.old.logged (length self.old.lists.log + 1) (commit_in text.now)
            (document_of self.new.log_document) self.new.logged) }
        ensures world { OnOk result (self.new ≡ record self.old { log_document = self.new.log_document; logged = self.new.logged }) }
        ensures spent { self.new.spent ≡ self.old.spent }
    {
        if let Body::Commit { intent, .. } = text {
            let n = self.lists.log.len() as u32 + 1;
            let carried = carry_one(alloc, &mut self.log_document, intent)?;
            log_commit(&mut self.logged, n, intent, carried)?;
        }
        Ok(())
    }

    // Keeps the minimum after a log that has one entry more.
    pub(crate) fn keep_minimum(&mut self) -> Result<u32, AllocError>
        requires few { length self.old.lists.log < 2 ^ 32 }
        requires known { AreKnown self.old.lists.log self.old.known }
        requires connected { AreConnected self.old.lists.log self.old.lists.clients }
        ensures minimum { IfOk result (λ m. m ≡ minimum self.old.lists.log) }
        ensures world { OnOk result (self.new ≡ record self.old { minima = self.old.minima ++ minimum self.old.lists.log ∷ [] }) }
        ensures spent { self.new.spent ≡ self.old.spent }
    {
        let least = minimum(
            self.lists.log.as_slice(),
            self.lists.clients.as_slice(),
            &self.known,
        );
        self.minima.push(least)?;
        Ok(least)
    }

    // Puts a text into the log.
    fn sequence_text(
        &mut self,
        alloc: Global,
        session: u32,
        text: Body,
    ) -> Result<Answer, AllocError>
        requires sound { IsSoundInForm (document_of self.old.log_document) }
        requires fits { IfSome (commit_in text) (Fits (document_of self.old.log_document)) }
        requires entries { length self.old.lists.log < 65535 }
        requires names { self.old.names + names_in_text text ≤ 131072 }
        requires known { AreKnown self.old.lists.log self.old.known }
        requires connected { AreConnected (log_with self.old.lists.log session text) self.old.lists.clients }
        ensures answer { IfOk result (λ a. a ≡ Answer.Sequence (minimum self.new.lists.log) (length self.new.lists.log)) }
        ensures known { OnOk result (AreKnown self.new.lists.log self.new.known) }
        ensures logged { OnOk result (HasLogged (document_of self.old.log_document) self.old.logged (length self.old.lists.log + 1) (commit_in text)
            (document_of self.new.log_document) self.new.logged) }
        ensures world { OnOk result (self.new ≡ record self.old {
          lists = record self.old.lists { log = log_with self.old.lists.log session text };
          log_document = self.new.log_document;
          known = self.new.known;
          minima = self.old.minima ++ minimum (log_with self.old.lists.log session text) ∷ [];
          logged = self.new.logged;
          names = self.old.names + names_in_text text;
        }) }
        ensures spent { self.new.spent ≡ self.old.spent }
    {
        self.names += names_in_text(&text);
        self.carry_text(alloc, &text)?;
        append_entry(&mut self.lists.log, &mut self.known, session, text)?;
        let n = self.lists.log.len() as u32;
        let min = self.keep_minimum()?;
        Ok(Answer::Sequence { min, n })
    }

    // The oldest text of the client at a place enters the log.
    fn sequence(&mut self, alloc: Global, i: usize) -> Result<Answer, AllocError>
        requires sound { IsSound self.old }
        requires few { self.old.steps + 1 < 2 ^ 32 }
        ensures next { IfOk result (λ a. (c : Present) → slice_get self.old.lists.clients i ≡ Some c
            → sequence self.old.lists i c c.queue ≡ (self.new.lists, a)) }
        ensures sound { OnOk result (IsSoundNext self.new) }
        ensures steps { OnOk result (self.new.steps ≡ self.old.steps) }
        ensures header { OnOk result (self.new.header ≡ self.old.header) }
        ensures spent { self.new.spent ≡ self.old.spent }
        ensures refused { IfOk result (λ a. AtRefusal a (self.new ≡ self.old)) }
    {
        let Some(client) = self.lists.clients.get(i) else {
            return Ok(Answer::No(Refusal::NoClient));
        };
        let Some(made) = names_waiting(client) else {
            return Ok(Answer::No(Refusal::NothingToSend));
        };
        if let Some(limit) = self.limit_passed(made) {
            return Ok(Answer::No(Refusal::Limit(limit)));
        }
        let Some(client) = self.lists.clients.get_mut(i) else {
            return Ok(Answer::No(Refusal::NoClient));
        };
        let session = client.session;
        match take_text(client) {
            None => Ok(Answer::No(Refusal::NothingToSend)),
            Some(text) => {
                let answer = self.sequence_text(alloc, session, text)?;
                Ok(answer)
            }
        }
    }

    // A client of that name enters by the next session, with a UUID.
    fn enter_client(&mut self, alloc: Global, name: &Text, uuid: u128) -> Result<Answer, AllocError>
        requires sound { IsSound self.old }
        requires few { self.old.steps + 1 < 2 ^ 32 }
        requires clients { length self.old.lists.clients < 64 }
        requires entries { length self.old.lists.log < 65535 }
        ensures next { IfOk result (λ a. enter self.old.lists (sessions_in self.old.lists.log + 1) uuid name.now ≡ (self.new.lists, a)) }
        ensures sound { OnOk result (IsSoundNext self.new) }
        ensures steps { OnOk result (self.new.steps ≡ self.old.steps) }
        ensures header { OnOk result (self.new.header ≡ self.old.header) }
        ensures spent { self.new.spent ≡ self.old.spent }
    {
        let s = self.sessions + 1;
        append_entry(&mut self.lists.log, &mut self.known, s, Body::Join { uuid })?;
        let n = self.lists.log.len() as u32;
        add_replica(alloc, &mut self.kept, &self.log_document)?;
        add_client(alloc, &mut self.lists.clients, n, s, uuid, name)?;
        self.keep_minimum()?;
        self.sessions = s;
        Ok(Answer::Join { n, s })
    }

    // A client of that name joins, unless there are too many, or too many entries, or the stable ids of its session would be
    // those of another.
    fn join(&mut self, alloc: Global, name: &Text, told: Option<u128>) -> Result<Answer, AllocError>
        requires sound { IsSound self.old }
        requires few { self.old.steps + 1 < 2 ^ 32 }
        ensures next { IfOk result (λ a. join self.old.lists name.now told ≡ (self.new.lists, a)) }
        ensures sound { OnOk result (IsSoundNext self.new) }
        ensures steps { OnOk result (self.new.steps ≡ self.old.steps) }
        ensures header { OnOk result (self.new.header ≡ self.old.header) }
        ensures spent { self.new.spent ≡ self.old.spent }
        ensures refused { IfOk result (λ a. AtRefusal a (self.new ≡ self.old)) }
    {
        let count = self.lists.clients.len();
        if count >= MOST_CLIENTS {
            return Ok(limit_refusal(LimitOf::Clients, count as u32));
        }
        let entries = self.lists.log.len();
        if entries >= MOST_ENTRIES {
            return Ok(limit_refusal(LimitOf::Log, entries as u32));
        }
        let uuid = uuid_for(self.sessions + 1, told);
        if clashes(uuid, self.lists.log.as_slice()) {
            return Ok(Answer::No(Refusal::Clash));
        }
        self.enter_client(alloc, name, uuid)
    }

    // The tree that a line of the client at a place shows.
    fn show(&self, alloc: Global, i: usize, number: u32) -> Result<Answer, AllocError>
        requires { IsSound self.now }
        ensures { IfOk result (λ a. (c : Present) (l : Line) → slice_get self.now.lists.clients i ≡ Some c → line_of c number ≡ Some l
            → IsShown (header_view self.now.header) self.now.lists l a) }
    {
        let Some(kept) = self.kept.get(i) else {
            return Ok(Answer::No(Refusal::NoClient));
        };
        let Some(client) = self.lists.clients.get(i) else {
            return Ok(Answer::No(Refusal::NoClient));
        };
        let Some(head) = head_of(client, kept, number) else {
            return Ok(Answer::No(Refusal::NoBranch));
        };
        let doc = head.shown_doc();
        let Some(known) = schema_of(&self.schemas, doc) else {
            unreachable!();
        };
        let tree = doc.whole(alloc, known.arrays.as_slice())?;
        Ok(Answer::Show { tree })
    }

    // The place of the client with a name.
    pub(crate) fn find(&self, name: &Text) -> Option<usize>
        ensures { result ≡ place_of name.now self.now.lists.clients }
    {
        place_of(self.lists.clients.as_slice(), name.as_str())
    }

    // Acts where no client has the name: one joins, and nothing else is done.
    fn answer_none(&mut self, alloc: Global, step: &TraceStep) -> Result<Answer, AllocError>
        requires sound { IsSound self.old }
        requires few { self.old.steps + 1 < 2 ^ 32 }
        ensures next { IfOk result (λ a. act_of_none self.old.lists step.now.client (act_view step.now.act) ≡ (self.new.lists, a)) }
        ensures sound { OnOk result (IsSoundNext self.new) }
        ensures steps { OnOk result (self.new.steps ≡ self.old.steps) }
        ensures header { OnOk result (self.new.header ≡ self.old.header) }
        ensures spent { self.new.spent ≡ self.old.spent }
        ensures refused { IfOk result (λ a. AtRefusal a (self.new ≡ self.old)) }
    {
        match &step.act {
            Act::Join { uuid } => self.join(alloc, &step.client, *uuid),
            Act::Edit(_)
            | Act::Need { .. }
            | Act::Begin
            | Act::Commit
            | Act::Abort
            | Act::Undo { .. }
            | Act::Upgrade { .. }
            | Act::Sequence
            | Act::Ack
            | Act::Deliver
            | Act::Leave
            | Act::Drop
            | Act::Reconnect
            | Act::Fork
            | Act::Rebase
            | Act::Merge
            | Act::DropBranch
            | Act::Show
            | Act::Pending => Ok(Answer::No(Refusal::NoClient)),
        }
    }

    // Acts for the client at a place, as a whole or on its main line.
    fn answer_at(&mut self, alloc: Global, i: usize, act: &Act) -> Result<Answer, AllocError>
        requires sound { IsSound self.old }
        requires few { self.old.steps + 1 < 2 ^ 32 }
        requires form { IsActWithin (act_view act.now) }
        requires connected { needs_connection (act_view act.now) ≡ true → (c : Present) → slice_get self.old.lists.clients i ≡ Some c → c.connected ≡ true }
        ensures next { IfOk result (λ a. (c : Present) → slice_get self.old.lists.clients i ≡ Some c
            → IsActOf (header_view self.old.header) self.old.lists (act_view act.now) i c 0 (main_line c) self.new.lists a) }
        ensures sound { OnOk result (IsSoundNext self.new) }
        ensures steps { OnOk result (self.new.steps ≡ self.old.steps) }
        ensures header { OnOk result (self.new.header ≡ self.old.header) }
        ensures spent { self.new.spent ≡ self.old.spent }
        ensures refused { IfOk result (λ a. AtRefusal a (self.new ≡ self.old)) }
    {
        match act {
            Act::Join { .. } => Ok(Answer::No(Refusal::Taken)),
            Act::Edit(edit) => self.edit(alloc, i, edit),
            Act::Need { at } => self.need(alloc, i, at),
            Act::Begin => Ok(self.begin_transaction(i)),
            Act::Commit => self.commit_transaction(alloc, i),
            Act::Abort => Ok(self.abort_transaction(i)),
            Act::Undo { rev } => self.undo(alloc, i, *rev),
            Act::Upgrade { schema } => self.upgrade(alloc, i, schema),
            Act::Sequence => self.sequence(alloc, i),
            Act::Ack => self.ack(i),
            Act::Deliver => self.deliver(alloc, i),
            Act::Leave => self.leave(i),
            Act::Drop => self.drop_client(alloc, i),
            Act::Reconnect => self.reconnect(alloc, i),
            Act::Fork => self.fork(alloc, i, 0),
            Act::Rebase => self.rebase(alloc, i, 0),
            Act::Merge => self.merge(alloc, i, 0),
            Act::DropBranch => Ok(self.drop_branch(i, 0)),
            Act::Show => {
                let answer = self.show(alloc, i, 0)?;
                Ok(answer)
            }
            Act::Pending => {
                let answer = self.pending(alloc, i)?;
                Ok(answer)
            }
        }
    }

    // Acts for the client at a place, as a whole or on a branch beside the main one.
    fn answer_on_branch(
        &mut self,
        alloc: Global,
        i: usize,
        number: u32,
        act: &Act,
    ) -> Result<Answer, AllocError>
        requires sound { IsSound self.old }
        requires few { self.old.steps + 1 < 2 ^ 32 }
        requires other { number ≢ 0 }
        requires form { IsActWithin (act_view act.now) }
        requires connected { needs_connection (act_view act.now) ≡ true → (c : Present) → slice_get self.old.lists.clients i ≡ Some c → c.connected ≡ true }
        ensures next { IfOk result (λ a. (c : Present) (l : Line) → slice_get self.old.lists.clients i ≡ Some c → line_of c number ≡ Some l
            → IsActOf (header_view self.old.header) self.old.lists (act_view act.now) i c number l self.new.lists a) }
        ensures sound { OnOk result (IsSoundNext self.new) }
        ensures steps { OnOk result (self.new.steps ≡ self.old.steps) }
        ensures header { OnOk result (self.new.header ≡ self.old.header) }
        ensures spent { self.new.spent ≡ self.old.spent }
        ensures refused { IfOk result (λ a. AtRefusal a (self.new ≡ self.old)) }
    {
        match act {
            Act::Edit(edit) => self.edit_branch(alloc, i, number, edit),
            Act::Need { at } => self.need_on_branch(alloc, i, number, at),
            Act::Begin => Ok(self.begin_on_branch(i, number)),
            Act::Commit => self.commit_on_branch(alloc, i, number),
            Act::Abort => Ok(self.abort_on_branch(i, number)),
            Act::Fork => self.fork(alloc, i, number),
            Act::Rebase => self.rebase(alloc, i, number),
            Act::Merge => self.merge(alloc, i, number),
            Act::DropBranch => Ok(self.drop_branch(i, number)),
            Act::Show => {
                let answer = self.show(alloc, i, number)?;
                Ok(answer)
            }
            Act::Join { .. }
            | Act::Undo { .. }
            | Act::Upgrade { .. }
            | Act::Sequence
            | Act::Ack
            | Act::Deliver
            | Act::Leave
            | Act::Drop
            | Act::Reconnect
            | Act::Pending => self.answer_at(alloc, i, act),
        }
    }

    // Whether the client at a place has the line of a number.
    fn has_line(&self, i: usize, number: u32) -> bool
        ensures { (c : Present) → slice_get self.now.lists.clients i ≡ Some c → result ≡ is_some (line_of c number) }
    {
        match self.lists.clients.get(i) {
            None => false,
            Some(client) => line_state(client, number).is_some(),
        }
    }

    // Acts for the client at a place on the line of a number, which it has.
    fn answer_on(
        &mut self,
        alloc: Global,
        i: usize,
        number: u32,
        act: &Act,
    ) -> Result<Answer, AllocError>
        requires sound { IsSound self.old }
        requires few { self.old.steps + 1 < 2 ^ 32 }
        requires form { IsActWithin (act_view act.now) }
        requires connected { needs_connection (act_view act.now) ≡ true → (c : Present) → slice_get self.old.lists.clients i ≡ Some c → c.connected ≡ true }
        ensures next { IfOk result (λ a. (c : Present) (l : Line) → slice_get self.old.lists.clients i ≡ Some c → line_of c number ≡ Some l
            → IsActOf (header_view self.old.header) self.old.lists (act_view act.now) i c number l self.new.lists a) }
        ensures sound { OnOk result (IsSoundNext self.new) }
        ensures steps { OnOk result (self.new.steps ≡ self.old.steps) }
        ensures header { OnOk result (self.new.header ≡ self.old.header) }
        ensures spent { self.new.spent ≡ self.old.spent }
        ensures refused { IfOk result (λ a. AtRefusal a (self.new ≡ self.old)) }
    {
        if number == 0 {
            return self.answer_at(alloc, i, act);
        }
        self.answer_on_branch(alloc, i, number, act)
    }

    // Whether the act of the client at a place is refused because it isn't connected.
    fn is_out(&self, i: usize, act: &Act) -> bool
        ensures { (c : Present) → slice_get self.now.lists.clients i ≡ Some c → result ≡ (needs_connection (act_view act.now) && not c.connected) }
    {
        match self.lists.clients.get(i) {
            None => false,
            Some(client) => needs_connection(act) && !client.connected,
        }
    }

    // Makes a step: its client is there or joins, and has the line that the act is on.
    fn answer(&mut self, alloc: Global, step: &TraceStep) -> Result<Answer, AllocError>
        requires sound { IsSound self.old }
        requires few { self.old.steps + 1 < 2 ^ 32 }
        requires form { IsWithinLimits (step_view step.now) }
        ensures next { IfOk result (λ a. IsNext (header_view self.old.header) self.old.lists (step_view step.now) self.new.lists a) }
        ensures sound { OnOk result (IsSoundNext self.new) }
        ensures steps { OnOk result (self.new.steps ≡ self.old.steps) }
        ensures header { OnOk result (self.new.header ≡ self.old.header) }
        ensures spent { self.new.spent ≡ self.old.spent }
        ensures refused { IfOk result (λ a. AtRefusal a (self.new ≡ self.old)) }
    {
        let Some(i) = self.find(&step.client) else {
            let answer = self.answer_none(alloc, step)?;
            return Ok(answer);
        };
        let number = branch_of(step);
        if !self.has_line(i, number) {
            return Ok(Answer::No(Refusal::NoBranch));
        }
        if self.is_out(i, &step.act) {
            return Ok(Answer::No(Refusal::NotConnected));
        }
        let answer = self.answer_on(alloc, i, number, &step.act)?;
        Ok(answer)
    }

    // Makes a step, as it shows in what is kept.
    fn make_step(&mut self, alloc: Global, step: &TraceStep) -> Result<Answer, Or<Spent>>
        requires sound { self.old.spent ≡ false → IsSound self.old }
        requires few { self.old.spent ≡ false → self.old.steps + 1 < 2 ^ 32 }
        requires form { IsWithinLimits (step_view step.now) }
        ensures next { IfOk result (λ a. IsNext (header_view self.old.header) self.old.lists (step_view step.now) self.new.lists a) }
        ensures sound { OnOk result (IsSound self.new) }
        ensures fresh { OnOk result (self.new.spent ≡ false) }
        ensures steps { OnOk result (self.new.steps ≡ self.old.steps + 1) }
        ensures header { OnOk result (self.new.header ≡ self.old.header) }
        ensures refused { IfOk result (λ a. AtRefusal a (self.new ≡ record self.old { steps = self.old.steps + 1 })) }
        ensures allowed { IfOk result (λ a. ShowsAllowed (header_view self.old.header) self.old.lists (step_view step.now) a) }
        ensures spent { IsErrOf result (Or.Fault (record {})) ↔ (self.old.spent ≡ true) }
        ensures stays { IsErrOf result (Or.Fault (record {})) → self.new ≡ self.old }
        ensures no_memory { IsErrOf result Or.NoMemory → self.new.spent ≡ true }
    {
        if self.spent {
            return Err(Or::Fault(Spent));
        }
        self.spent = true;
        let answer = self.answer(alloc, step)?;
        self.spent = false;
        self.steps += 1;
        Ok(answer)
    }
    /// Makes a step. After a refused step the world stands for the same lists. After want of memory it is spent, and answers
    /// `Spent` from then on, and at no other time.
    pub fn step(&mut self, alloc: Global, step: &TraceStep) -> Result<Answer, Or<Spent>>
        requires may { MayStep self.old }
        requires form { IsWithinLimits (step_view step.now) }
        ensures next { IfOk result (λ a. (k : ℕ) (h : HeaderView) (w : Lists) → Stands k self.old h w
            → (v : Lists) × IsNext h w (step_view step.now) v a × Stands (k + 1) self.new h v) }
        ensures refused { IfOk result (λ a. AtRefusal a ((k : ℕ) (h : HeaderView) (w : Lists)
            → Stands k self.old h w → Stands (k + 1) self.new h w)) }
        ensures allowed { IfOk result (λ a. (k : ℕ) (h : HeaderView) (w : Lists)
            → Stands k self.old h w → ShowsAllowed h w (step_view step.now) a) }
        ensures spent { IsErrOf result (Or.Fault (record {})) ↔ IsSpent self.old }
        ensures stays { IsErrOf result (Or.Fault (record {})) → self.new ≡ self.old }
        ensures no_memory { IsErrOf result Or.NoMemory → IsSpent self.new }
    {
        self.make_step(alloc, step)
    }
}
