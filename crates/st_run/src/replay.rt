//! The answers to messages, which enter a log.
ghost use Rattle.std.specs.Prelude.{◌≡◌, Ok, Err, IfOk, List as Seq, [], codes};
ghost use Rattle.serde_json.specs.View.{view};
ghost use Rattle.st_answers.specs.Meaning.{EndsAt, FailsAt, FinishesAt};
ghost use Rattle.st_answers.specs.Replay.{ReplayState, TakesReplay, replay, taken_data, taken_line, unopened, opened, void_told};
ghost use Rattle.st_doc.specs.Doc.{document_of};
ghost use Rattle.st_ids.specs.Or.{IfRefused};
ghost use Rattle.st_lists.specs.declared.lists.Entry.{Entry};
ghost use Rattle.st_marks.specs.Document.{Document};
ghost use Rattle.st_pieces.specs.Told.{IsReply};
ghost use Rattle.st_replay.specs.Stands.{Stands, StandsAt};
ghost use Rattle.st_run.specs.inside.Replaying.{IsMessageReply, IsReplayAt, IsReplayIn, IsTreeReply, StandsForReplay};
ghost use Rattle.st_run.specs.inside.Replies.{IsTelling};
ghost use Rattle.st_script.specs.Header.{HeaderView, header_line, header_view};
ghost use Rattle.st_world.specs.World.{opening_document};
ghost use Rattle.st_world_laws.specs.Worlds.{IsHeader};

use crate::reply::{refuse, refuse_message, tell, tell_header};
use crate::tree::tree_text;
use serde_json::{Value, json};
use st_answers::EndCause;
use st_doc::Doc;
use st_ids::{Or, Text};
use st_json::{BadCause, read_line, write_line};
use st_marks::Verdict;
use st_pieces::{Reply, Responder};
use st_replay::Replay;
use st_schema::Header;
use st_script::{Answer, answer_line, read_header as header_of, void_value};
use std::alloc::{AllocError, Global};

/// Messages that are answered: the replay of their log, once a header has opened one.
#[derive(Drop)]
pub struct Replaying {
    pub replay: Option<Replay>,
}

// The document with which a log opens.
fn opening(alloc: Global, header: &Header) -> Result<Doc, AllocError>
    requires { IsHeader (header_view header.now) }
    ensures { IfOk result (λ d. document_of d ≡ opening_document (header_view header.now)) }
{
    let schema = header.schema.text(alloc)?;
    let doc = Doc::start(alloc, schema, &header.tree)?;
    Ok(doc)
}

// The replay that a header opens.
fn open(alloc: Global, header: &Header) -> Result<Replay, AllocError>
    requires { IsHeader (header_view header.now) }
    ensures { IfOk result (λ r. StandsAt r (opening_document (header_view header.now)) []) }
{
    let doc = opening(alloc, header)?;
    Replay::new(alloc, doc)
}

// The replay that a line opens.
fn read_opening(alloc: Global, line: &[u8]) -> Result<Replay, Or<BadCause>>
    ensures ok { IfOk result (λ r. (h : HeaderView) × (header_line (codes "replay") line.now ≡ Ok h)
        × IsHeader h × StandsAt r (opening_document h) []) }
    ensures bad { IfRefused result (λ c. header_line (codes "replay") line.now ≡ Err c) }
{
    let header = header_of(alloc, line, "replay")?;
    Ok(open(alloc, &header)?)
}

// Answers the first line.
fn take_opening(
    alloc: Global,
    opening: &mut Option<Replay>,
    number: u32,
    line: &[u8],
) -> Result<Reply<EndCause>, AllocError>
    ensures { IfOk result (IsReply (TakesReplay unopened number line.now)
        (EndsAt replay unopened number line.now) (IsReplayIn opening.new)) }
{
    match read_opening(alloc, line) {
        Ok(read) => {
            *opening = Some(read);
            tell_header(alloc)
        }
        Err(Or::NoMemory) => Err(AllocError),
        Err(Or::Fault(cause)) => refuse(alloc, number, cause),
    }
}

// Why the commit of an entry is void, or null.
fn void_told(alloc: Global, void: Option<Verdict>) -> Result<Value, AllocError>
    ensures { IfOk result (λ v. view v ≡ void_told void) }
{
    match void {
        Some(verdict) => void_value(alloc, verdict),
        None => Ok(Value::Null),
    }
}

// What says that a message was taken.
fn taken_value(alloc: Global, n: u32, void: Option<Verdict>) -> Result<Value, AllocError>
    ensures { IfOk result (λ v. view v ≡ taken_data n void) }
{
    let void = void_told(alloc, void)?;
    json!(in alloc; {"n": n, "ok": "message", "void": void})
}

// The line that says it.
#[tactic(auto, using(crate::proofs::Replaying::taken_plain))]
fn taken_line(alloc: Global, n: u32, void: Option<Verdict>) -> Result<Text, AllocError>
    ensures { IfOk result (λ t. t ≡ taken_line n void) }
{
    let value = taken_value(alloc, n, void)?;
    write_line(alloc, &value)
}

// Says that a message was taken.
fn tell_taken(alloc: Global, n: u32, void: Option<Verdict>) -> Result<Reply<EndCause>, AllocError>
    ensures { IfOk result (IsTelling (taken_line n void)) }
{
    let text = taken_line(alloc, n, void)?;
    tell(alloc, &text)
}

// Answers a value.
fn take_value(
    alloc: Global,
    replay: &mut Replay,
    number: u32,
    value: &Value,
) -> Result<Reply<EndCause>, AllocError>
    requires stands { Stands replay.old }
    ensures { IfOk result (λ r. (O : Document) (log : Seq Entry) → StandsAt replay.old O log
        → IsMessageReply number O log (view value.now) (StandsAt replay.new O) r) }
{
    match replay.take(value) {
        Ok(taken) => tell_taken(alloc, taken.n, taken.verdict),
        Err(Or::NoMemory) => Err(AllocError),
        Err(Or::Fault(cause)) => refuse_message(alloc, number, cause),
    }
}

// Answers a line that follows the header.
fn take_message(
    alloc: Global,
    messages: &mut Replay,
    number: u32,
    line: &[u8],
) -> Result<Reply<EndCause>, AllocError>
    requires stands { Stands messages.old }
    ensures { IfOk result (λ r. (h : HeaderView) (log : Seq Entry) → IsHeader h
        → StandsAt messages.old (opening_document h) log
        → IsReply (TakesReplay (opened h log) number line.now)
        (EndsAt replay (opened h log) number line.now) (IsReplayAt messages.new) r) }
{
    match read_line(alloc, line) {
        Ok(value) => take_value(alloc, messages, number, &value),
        Err(Or::NoMemory) => Err(AllocError),
        Err(Or::Fault(_)) => refuse(alloc, number, BadCause::Json),
    }
}

// Tells the tree of a log.
fn tell_tree(alloc: Global, replay: &Replay) -> Result<Reply<EndCause>, AllocError>
    requires stands { (t : ReplayState) × IsReplayAt replay.now t }
    ensures { IfOk result (λ r. (h : HeaderView) (log : Seq Entry) → IsHeader h
        → StandsAt replay.now (opening_document h) log
        → IsTreeReply (opening_document h) log r) }
{
    let tree = tree_text(alloc, replay.doc())?;
    let text = answer_line(alloc, &Answer::Show { tree })?;
    tell(alloc, &text)
}

impl Responder for Replaying {
    type Ending = EndCause;

    ghost State = { ReplayState };

    ghost Stands = { StandsForReplay };

    ghost Takes = { TakesReplay };

    ghost Ends = { EndsAt replay };

    ghost Finishes = { FinishesAt replay };

    ghost Fails = { FailsAt replay };

    fn take(
        &mut self,
        alloc: Global,
        number: u32,
        line: &[u8],
    ) -> Result<Reply<EndCause>, AllocError> {
        match &mut self.replay {
            Some(replay) => take_message(alloc, replay, number, line),
            None => take_opening(alloc, &mut self.replay, number, line),
        }
    }

    fn end(&mut self, alloc: Global, number: u32) -> Result<Reply<EndCause>, AllocError> {
        match &self.replay {
            Some(replay) => tell_tree(alloc, replay),
            None => refuse(alloc, number, BadCause::Header),
        }
    }
}
