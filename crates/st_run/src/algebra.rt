//! The answers to requests to the algebra of changes.
ghost use Rattle.std.specs.Prelude.{codes, IfOk};
ghost use Rattle.st_requests.specs.Answers.{apart_answer, change_answer, line_of, step_answer, verdict_answer};
ghost use Rattle.st_requests.specs.Normal.{IsNormal};
ghost use Rattle.st_requests.specs.declared.request.Request.{Request as Asked};
ghost use Rattle.st_answers.specs.Algebra.{algebra};
ghost use Rattle.st_answers.specs.Meaning.{EndsAt, FailsAt, FinishesAt};
ghost use Rattle.st_run.specs.inside.Replies.{IsAnswerTo, IsTelling};

use crate::reply::{refuse, tell, tell_nothing};
use st_agree::FieldApart;
use st_answers::EndCause;
use st_back_laws::each_step_has_a_way_back;
use st_bridge::bridge;
use st_compose::compose;
use st_effect::{Consequence, effect};
use st_family::rebase;
use st_ids::{Or, Rev};
use st_join_parts::join;
use st_log_laws::each_has_a_verdict;
use st_marks::{Change, Step};
use st_normal_laws::changes_that_obey_are_normal;
use st_normal_step_laws::steps_that_obey_are_normal;
use st_pair_laws::{room_is_enough, stand_beside};
use st_part_pair_laws::parts_stand;
use st_pieces::{Reply, Responder};
use st_requests::{Request, apart_line, change_line, effect_line, read_request, step_line};
use st_revert::revert;
use st_steps::invert;
use st_turn_pair_laws::stand_in_turn;
use std::alloc::{AllocError, Global};

/// Requests that are answered, each by itself.
#[derive(Drop)]
pub struct Asking {}

// Tells a step.
fn tell_step(alloc: Global, word: &str, step: &Step) -> Result<Reply<EndCause>, AllocError>
    ensures { IfOk result (IsTelling (line_of (step_answer word.now step.now))) }
{
    let text = step_line(alloc, word, step)?;
    tell(alloc, &text)
}

// Tells a change.
fn tell_change(alloc: Global, word: &str, change: &Change) -> Result<Reply<EndCause>, AllocError>
    ensures { IfOk result (IsTelling (line_of (change_answer word.now change.now))) }
{
    let text = change_line(alloc, word, change)?;
    tell(alloc, &text)
}

// Tells what a change does.
fn tell_effect(alloc: Global, done: &Consequence) -> Result<Reply<EndCause>, AllocError>
    ensures { IfOk result
        (IsTelling (line_of (verdict_answer (codes "effect") done.now.step done.now.verdict))) }
{
    let text = effect_line(alloc, "effect", &done.step, done.verdict)?;
    tell(alloc, &text)
}

// Tells where two arguments don't agree.
fn tell_apart(alloc: Global, apart: &FieldApart) -> Result<Reply<EndCause>, AllocError>
    ensures { IfOk result (IsTelling (line_of (apart_answer apart.now.field))) }
{
    let text = apart_line(alloc, &apart.field)?;
    tell(alloc, &text)
}

// Two steps in turn as one.
fn answer_compose(alloc: Global, first: &Step, then: &Step) -> Result<Reply<EndCause>, AllocError>
    requires { IsNormal (Asked.Compose first.now then.now) }
    ensures { IfOk result (IsAnswerTo (Asked.Compose first.now then.now)) }
{
    match compose(alloc, first, then) {
        Ok(step) => {
            stand_in_turn();
            tell_step(alloc, "compose", &step)
        }
        Err(Or::Fault(apart)) => tell_apart(alloc, &apart),
        Err(Or::NoMemory) => Err(AllocError),
    }
}

// Two parts of a commit as one change.
fn answer_join(alloc: Global, first: &Change, then: &Change) -> Result<Reply<EndCause>, AllocError>
    requires { IsNormal (Asked.Join first.now then.now) }
    ensures { IfOk result (IsAnswerTo (Asked.Join first.now then.now)) }
{
    match join(alloc, first, then) {
        Ok(change) => {
            parts_stand();
            tell_change(alloc, "join", &change)
        }
        Err(Or::Fault(apart)) => tell_apart(alloc, &apart),
        Err(Or::NoMemory) => Err(AllocError),
    }
}

// The way back over a step.
fn answer_invert(alloc: Global, step: &Step) -> Result<Reply<EndCause>, AllocError>
    requires { IsNormal (Asked.Invert step.now) }
    ensures { IfOk result (IsAnswerTo (Asked.Invert step.now)) }
{
    let back = invert(alloc, step)?;
    steps_that_obey_are_normal();
    tell_step(alloc, "invert", &back)
}

// A change after a step.
fn answer_rebase(alloc: Global, change: &Change, over: &Step) -> Result<Reply<EndCause>, AllocError>
    requires { IsNormal (Asked.Rebase change.now over.now) }
    ensures { IfOk result (IsAnswerTo (Asked.Rebase change.now over.now)) }
{
    match rebase(alloc, change, over) {
        Ok(later) => {
            stand_beside();
            tell_change(alloc, "rebase", &later)
        }
        Err(Or::Fault(apart)) => tell_apart(alloc, &apart),
        Err(Or::NoMemory) => Err(AllocError),
    }
}

// A step after a change.
fn answer_bridge(alloc: Global, change: &Change, step: &Step) -> Result<Reply<EndCause>, AllocError>
    requires { IsNormal (Asked.Bridge change.now step.now) }
    ensures { IfOk result (IsAnswerTo (Asked.Bridge change.now step.now)) }
{
    match bridge(alloc, step, change) {
        Ok(later) => {
            stand_beside();
            room_is_enough();
            each_has_a_verdict();
            tell_step(alloc, "bridge", &later)
        }
        Err(Or::Fault(apart)) => tell_apart(alloc, &apart),
        Err(Or::NoMemory) => Err(AllocError),
    }
}

// What a change does where it stands.
fn answer_effect(alloc: Global, change: &Change) -> Result<Reply<EndCause>, AllocError>
    requires { IsNormal (Asked.Effect change.now) }
    ensures { IfOk result (IsAnswerTo (Asked.Effect change.now)) }
{
    let done = effect(alloc, change)?;
    changes_that_obey_are_normal();
    tell_effect(alloc, &done)
}

// The change that takes a step back.
fn answer_revert(
    alloc: Global,
    step: &Step,
    rev: Rev,
    under: Rev,
) -> Result<Reply<EndCause>, AllocError>
    requires { IsNormal (Asked.Revert step.now rev under) }
    ensures { IfOk result (IsAnswerTo (Asked.Revert step.now rev under)) }
{
    let change = revert(alloc, step, rev, under)?;
    each_step_has_a_way_back();
    tell_change(alloc, "revert", &change)
}

// Answers a request.
fn answer(alloc: Global, request: &Request) -> Result<Reply<EndCause>, AllocError>
    requires { IsNormal request.now }
    ensures { IfOk result (IsAnswerTo request.now) }
{
    match request {
        Request::Compose { first, then } => answer_compose(alloc, first, then),
        Request::Join { first, then } => answer_join(alloc, first, then),
        Request::Invert { step } => answer_invert(alloc, step),
        Request::Rebase { change, over } => answer_rebase(alloc, change, over),
        Request::Bridge { change, step } => answer_bridge(alloc, change, step),
        Request::Effect { change } => answer_effect(alloc, change),
        Request::Revert { step, rev, under } => answer_revert(alloc, step, *rev, *under),
    }
}

impl Responder for Asking {
    type Ending = EndCause;

    ghost State = { algebra.State };

    ghost Stands = { λ asking n s. Unit {0} };

    ghost Takes = { algebra.Takes };

    ghost Ends = { EndsAt algebra };

    ghost Finishes = { FinishesAt algebra };

    ghost Fails = { FailsAt algebra };

    fn take(
        &mut self,
        alloc: Global,
        number: u32,
        line: &[u8],
    ) -> Result<Reply<EndCause>, AllocError> {
        match read_request(alloc, line) {
            Ok(request) => answer(alloc, &request),
            Err(Or::NoMemory) => Err(AllocError),
            Err(Or::Fault(cause)) => refuse(alloc, number, cause),
        }
    }

    fn end(&mut self, alloc: Global, _number: u32) -> Result<Reply<EndCause>, AllocError> {
        Ok(tell_nothing(alloc))
    }
}
