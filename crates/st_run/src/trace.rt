//! The answers to the lines of a trace.
ghost use Rattle.std.specs.Prelude.{◌≡◌, ◌<◌, ◌^◌, ℕ, ◌+◌, Some, Ok, Err, IfOk, IfSome, OnOk, codes};
ghost use Rattle.st_author_lists.specs.KnownChanges.{is_no};
ghost use Rattle.st_doc.specs.Doc.{document_of};
ghost use Rattle.st_edits.specs.Resolve.{IsWithin};
ghost use Rattle.st_ids.specs.Or.{IfRefused};
ghost use Rattle.st_marks.specs.Document.{IsSoundInForm};
ghost use Rattle.st_marks.specs.Intent.{Fits};
ghost use Rattle.st_marks.specs.declared.intents.Intent.{Intent as Meant};
ghost use Rattle.st_script.specs.Header.{HeaderView, header_line};
ghost use Rattle.st_script.specs.Line.{step_of_line, line_view};
ghost use Rattle.st_script.specs.Steps.{edit_view, step_view, IsWithinLimits};
ghost use Rattle.st_lists.specs.Clients.{empty_state};
ghost use Rattle.st_lists.specs.declared.lists.WorldState.{WorldState};
ghost use Rattle.st_pieces.specs.Told.{IsReply};
ghost use Rattle.st_plain.specs.Stands.{Stands};
ghost use Rattle.st_told_edits.specs.Told.{IsToldOf};
ghost use Rattle.st_world.specs.Edits.{edit_of};
ghost use Rattle.st_world.specs.World.{IsNext, intent_of};
ghost use Rattle.st_world_laws.specs.Worlds.{KeepsRules};
ghost use Rattle.st_answers.specs.Meaning.{EndsAt, FailsAt, FinishesAt};
ghost use Rattle.st_answers.specs.Trace.{TraceState, TakesTrace, trace, unopened, opened};
ghost use Rattle.st_run.specs.inside.Standing.{GoesOn, HasNoted, IsNewFor, IsOpened, IsOpenedBy, IsOpenedIn, IsStepReply, IsUnderWay, StandsForTrace, TellsTexts};

use crate::reply::{refuse, tell, tell_header, tell_nothing};
use crate::text::{entry_asked, tell_entry};
use st_answers::EndCause;
use st_entry_texts::Authors;
use st_ids::Or;
use st_json::BadCause;
use st_marks::Change;
use st_pieces::{Reply, Responder};
use st_plain::{World, Writing};
use st_script::{Answer, Line, TraceStep, answer_line, read_header as header_of, read_step_line};
use st_told_edits::told_of_edit;
use std::alloc::{AllocError, Global};

/// A trace that is answered: its world, once a header has opened one, and what is kept of the authors of its log, once a text
/// was asked for.
#[derive(Drop)]
pub struct Tracing {
    pub world: Option<World>,
    pub authors: Option<Authors>,
}

/// The change that a step is about to write, and how many entries its client received.
#[derive(Drop)]
pub struct NewChange {
    pub received: u32,
    pub change: Change,
}

// Makes a step of a world that isn't spent.
#[tactic(auto, using(crate::proofs::Tracing::may_step, crate::proofs::Tracing::never_spent))]
pub fn make_step(alloc: Global, world: &mut World, step: &TraceStep) -> Result<Answer, AllocError>
    requires goes { GoesOn world.old }
    requires form { IsWithinLimits (step_view step.now) }
    ensures { IfOk result (λ a. (k : ℕ) (h : HeaderView) (w : WorldState) → Stands k world.old h w
        → (v : WorldState) × IsNext h w (step_view step.now) v a × Stands (k + 1) world.new h v) }
{
    match world.step(alloc, step) {
        Ok(answer) => Ok(answer),
        Err(Or::NoMemory) => Err(AllocError),
        Err(Or::Fault(_)) => unreachable!(),
    }
}

// The change of the commit that an edit is about to write, if it has one.
fn told_of(alloc: Global, writing: &Writing) -> Result<Option<NewChange>, AllocError>
    requires within { IsWithin (edit_of writing.now.edit.now) }
    requires nodes { writing.now.given.nodes < 2 ^ 31 }
    requires cells { writing.now.given.cells < 2 ^ 31 }
    requires sound { IsSoundInForm (document_of writing.now.doc.now) }
    requires fits { (N : Meant) → intent_of (document_of writing.now.doc.now) writing.now.schema.now writing.now.given (edit_view writing.now.edit.now) ≡ Ok N
        → Fits (document_of writing.now.doc.now) N }
    ensures { IfOk result (λ o. IfSome o (λ new. (new.received ≡ writing.now.received)
        × IsToldOf (document_of writing.now.doc.now) (intent_of (document_of writing.now.doc.now) writing.now.schema.now writing.now.given (edit_view writing.now.edit.now)) (Some new.change))) }
{
    let told = told_of_edit(
        alloc,
        writing.doc,
        writing.schema,
        writing.given,
        writing.edit,
    )?;
    let received = writing.received;
    match told {
        None => Ok(None),
        Some(change) => Ok(Some(NewChange { received, change })),
    }
}

// The change of the commit that a step is about to write, if it is an edit by which that is known.
fn change_before(
    alloc: Global,
    world: &World,
    step: &TraceStep,
) -> Result<Option<NewChange>, AllocError>
    requires goes { GoesOn world.now }
    requires form { IsWithinLimits (step_view step.now) }
    ensures { IfOk result (λ o. IfSome o (IsNewFor world.now (step_view step.now))) }
{
    match world.writing(step) {
        None => Ok(None),
        Some(writing) => told_of(alloc, &writing),
    }
}

// The same, once a text was asked for.
fn told_before(
    alloc: Global,
    world: &World,
    authors: &Option<Authors>,
    step: &TraceStep,
) -> Result<Option<NewChange>, AllocError>
    requires goes { GoesOn world.now }
    requires form { IsWithinLimits (step_view step.now) }
    ensures { IfOk result (λ o. IfSome o (IsNewFor world.now (step_view step.now))) }
{
    if authors.is_none() {
        return Ok(None);
    }
    change_before(alloc, world, step)
}

// Whether an answer is a refusal.
fn is_no(answer: &Answer) -> bool
    ensures { result ≡ is_no answer.now }
{
    match answer {
        Answer::No(_) => true,
        _ => false,
    }
}

// Takes note of a change that was told before a step, once that is answered and not refused.
fn note(
    alloc: Global,
    authors: &mut Option<Authors>,
    told: Option<NewChange>,
    answer: &Answer,
) -> Result<(), AllocError>
    ensures { OnOk result (HasNoted told answer.now authors.old authors.new) }
{
    let Some(new) = told else {
        return Ok(());
    };
    if is_no(answer) {
        return Ok(());
    }
    match authors {
        None => Ok(()),
        Some(authors) => authors.know(alloc, new.received, new.change),
    }
}

// Makes a step, and takes note of the change that it writes.
fn make_told_step(
    alloc: Global,
    world: &mut World,
    authors: &mut Option<Authors>,
    step: &TraceStep,
) -> Result<Answer, AllocError>
    requires goes { GoesOn world.old }
    requires form { IsWithinLimits (step_view step.now) }
    requires rules { KeepsRules (step_view step.now).act }
    ensures { IfOk result (λ a. (k : ℕ) (h : HeaderView) (w : WorldState) → IsUnderWay k world.old authors.old h w
        → (v : WorldState) × IsNext h w (step_view step.now) v a × IsUnderWay (k + 1) world.new authors.new h v) }
{
    let told = told_before(alloc, world, authors, step)?;
    let answer = make_step(alloc, world, step)?;
    note(alloc, authors, told, &answer)?;
    Ok(answer)
}

// Answers a step.
fn take_step(
    alloc: Global,
    world: &mut World,
    authors: &mut Option<Authors>,
    step: &TraceStep,
) -> Result<Reply<EndCause>, AllocError>
    requires goes { GoesOn world.old }
    requires form { IsWithinLimits (step_view step.now) }
    requires rules { KeepsRules (step_view step.now).act }
    ensures { IfOk result (λ r. (k : ℕ) (h : HeaderView) (w : WorldState) → IsUnderWay k world.old authors.old h w
        → IsStepReply h w (step_view step.now) (IsUnderWay (k + 1) world.new authors.new h) r) }
{
    let answer = make_told_step(alloc, world, authors, step)?;
    let text = answer_line(alloc, &answer)?;
    tell(alloc, &text)
}

// Answers a line that is no step.
fn take_other(
    alloc: Global,
    world: &World,
    authors: &mut Option<Authors>,
    number: u32,
    line: &[u8],
    cause: BadCause,
) -> Result<Reply<EndCause>, AllocError>
    requires under_way { TellsTexts world.now authors.old }
    requires no_step { step_of_line line.now ≡ Err cause }
    ensures { IfOk result (λ r. (k : ℕ) (h : HeaderView) (w : WorldState) → IsUnderWay k world.now authors.old h w
        → IsReply (TakesTrace (opened h w) number line.now) (EndsAt trace (opened h w) number line.now)
        (IsOpened k world.now authors.new) r) }
{
    match entry_asked(alloc, line)? {
        None => refuse(alloc, number, cause),
        Some(n) => {
            let text = tell_entry(alloc, world, authors, n)?;
            tell(alloc, &text)
        }
    }
}

// Answers what a line was read as.
fn take_read(
    alloc: Global,
    world: &mut World,
    authors: &mut Option<Authors>,
    number: u32,
    line: &[u8],
    read: &Line,
) -> Result<Reply<EndCause>, AllocError>
    requires under_way { TellsTexts world.old authors.old }
    requires read { line_view read.now ≡ step_of_line line.now }
    ensures { IfOk result (λ r. (k : ℕ) (h : HeaderView) (w : WorldState) → IsUnderWay k world.old authors.old h w
        → IsReply (TakesTrace (opened h w) number line.now) (EndsAt trace (opened h w) number line.now)
        (IsOpenedBy (k + 1) world.new authors.new) r) }
{
    match read {
        Line::Step(step) => take_step(alloc, world, authors, step),
        Line::Bad(cause) => take_other(alloc, world, authors, number, line, *cause),
    }
}

// Answers a line that follows the header.
fn take_line(
    alloc: Global,
    world: &mut World,
    authors: &mut Option<Authors>,
    number: u32,
    line: &[u8],
) -> Result<Reply<EndCause>, AllocError>
    requires under_way { TellsTexts world.old authors.old }
    ensures { IfOk result (λ r. (k : ℕ) (h : HeaderView) (w : WorldState) → IsUnderWay k world.old authors.old h w
        → IsReply (TakesTrace (opened h w) number line.now) (EndsAt trace (opened h w) number line.now)
        (IsOpenedBy (k + 1) world.new authors.new) r) }
{
    let read = read_step_line(alloc, line)?;
    take_read(alloc, world, authors, number, line, &read)
}

// The world that a line opens.
pub fn read_header(alloc: Global, line: &[u8]) -> Result<World, Or<BadCause>>
    ensures ok { IfOk result (λ w. (h : HeaderView) × (header_line (codes "trace") line.now ≡ Ok h)
        × Stands 0 w h empty_state) }
    ensures bad { IfRefused result (λ c. header_line (codes "trace") line.now ≡ Err c) }
{
    let header = header_of(alloc, line, "trace")?;
    Ok(World::new(alloc, header)?)
}

// Answers the first line.
fn take_header(
    alloc: Global,
    opening: &mut Option<World>,
    number: u32,
    line: &[u8],
) -> Result<Reply<EndCause>, AllocError>
    ensures { IfOk result (IsReply (TakesTrace unopened number line.now)
        (EndsAt trace unopened number line.now) (IsOpenedIn opening.new)) }
{
    match read_header(alloc, line) {
        Ok(world) => {
            *opening = Some(world);
            tell_header(alloc)
        }
        Err(Or::NoMemory) => Err(AllocError),
        Err(Or::Fault(cause)) => refuse(alloc, number, cause),
    }
}

impl Responder for Tracing {
    type Ending = EndCause;

    ghost State = { TraceState };

    ghost Stands = { StandsForTrace };

    ghost Takes = { TakesTrace };

    ghost Ends = { EndsAt trace };

    ghost Finishes = { FinishesAt trace };

    ghost Fails = { FailsAt trace };

    fn take(
        &mut self,
        alloc: Global,
        number: u32,
        line: &[u8],
    ) -> Result<Reply<EndCause>, AllocError> {
        match &mut self.world {
            Some(world) => take_line(alloc, world, &mut self.authors, number, line),
            None => take_header(alloc, &mut self.world, number, line),
        }
    }

    fn end(&mut self, alloc: Global, number: u32) -> Result<Reply<EndCause>, AllocError> {
        match &self.world {
            Some(_) => Ok(tell_nothing(alloc)),
            None => refuse(alloc, number, BadCause::Header),
        }
    }
}
