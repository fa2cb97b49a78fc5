//! The answer to the lines of two schemas.
ghost use Rattle.std.specs.Prelude.{◌≡◌, Ok, Err, IfOk, true};
ghost use Rattle.st_compat.specs.Relation.{IsRelation};
ghost use Rattle.st_compat.specs.RelationText.{relation_line};
ghost use Rattle.st_compat.specs.SchemaLine.{further_cause};
ghost use Rattle.st_compat.specs.declared.relation.Relation.{Relation};
ghost use Rattle.st_pieces.specs.Told.{IsReply};
ghost use Rattle.st_answers.specs.Compat.{CompatState, TakesCompat, compat, unread, stored, related};
ghost use Rattle.st_answers.specs.Meaning.{EndsAt, FailsAt, FinishesAt};
ghost use Rattle.st_run.specs.inside.Replies.{IsRefusal, IsTelling};
ghost use Rattle.st_run.specs.inside.Comparing.{IsStoredIn, StandsForCompat};

use crate::reply::{refuse, tell, tell_nothing};
use st_answers::EndCause;
use st_compat::{compat, further_cause, read_schema_line, relation_line};
use st_ids::Or;
use st_json::BadCause;
use st_pieces::{Reply, Responder};
use st_schema::Schema;
use std::alloc::{AllocError, Global};

/// Two schemas that are compared: the stored one, once it is read, and whether both are.
#[derive(Drop)]
pub struct Comparing {
    pub schema: Option<Schema>,
    pub done: bool,
}

// Takes the first line, which is to be the stored schema.
fn take_stored(
    alloc: Global,
    schema: &mut Option<Schema>,
    number: u32,
    line: &[u8],
) -> Result<Reply<EndCause>, AllocError>
    ensures { IfOk result (IsReply (TakesCompat unread number line.now)
        (EndsAt compat unread number line.now) (IsStoredIn schema.new)) }
{
    match read_schema_line(alloc, line) {
        Ok(read) => {
            *schema = Some(read);
            Ok(tell_nothing(alloc))
        }
        Err(Or::NoMemory) => Err(AllocError),
        Err(Or::Fault(cause)) => refuse(alloc, number, cause),
    }
}

// Tells the relation of two schemas.
fn tell_relation(
    alloc: Global,
    stored: &Schema,
    view: &Schema,
) -> Result<Reply<EndCause>, AllocError>
    ensures { IfOk result (λ r. (relation : Relation) × IsRelation stored.now view.now relation
        × IsTelling (relation_line relation) r) }
{
    let relation = compat(alloc, stored, view)?;
    let text = relation_line(alloc, &relation)?;
    tell(alloc, &text)
}

// Answers the second line, which is to be the other schema.
fn take_view(
    alloc: Global,
    schema: &Schema,
    number: u32,
    line: &[u8],
) -> Result<Reply<EndCause>, AllocError>
    ensures { IfOk result (IsReply (TakesCompat (stored schema.now) number line.now)
        (EndsAt compat (stored schema.now) number line.now) (λ t. t ≡ related)) }
{
    match read_schema_line(alloc, line) {
        Ok(view) => tell_relation(alloc, schema, &view),
        Err(Or::NoMemory) => Err(AllocError),
        Err(Or::Fault(cause)) => refuse(alloc, number, cause),
    }
}

// Refuses a line that should not be there.
fn refuse_further(alloc: Global, number: u32, line: &[u8]) -> Result<Reply<EndCause>, AllocError>
    ensures { IfOk result (IsRefusal number (EndCause.Bad (further_cause line.now))) }
{
    let cause = further_cause(alloc, line)?;
    refuse(alloc, number, cause)
}

impl Responder for Comparing {
    type Ending = EndCause;

    ghost State = { CompatState };

    ghost Stands = { StandsForCompat };

    ghost Takes = { TakesCompat };

    ghost Ends = { EndsAt compat };

    ghost Finishes = { FinishesAt compat };

    ghost Fails = { FailsAt compat };

    fn take(
        &mut self,
        alloc: Global,
        number: u32,
        line: &[u8],
    ) -> Result<Reply<EndCause>, AllocError> {
        if self.done {
            return refuse_further(alloc, number, line);
        }
        match &self.schema {
            Some(schema) => {
                self.done = true;
                take_view(alloc, schema, number, line)
            }
            None => take_stored(alloc, &mut self.schema, number, line),
        }
    }

    fn end(&mut self, alloc: Global, number: u32) -> Result<Reply<EndCause>, AllocError> {
        if self.done {
            return Ok(tell_nothing(alloc));
        }
        refuse(alloc, number, BadCause::Shape)
    }
}
