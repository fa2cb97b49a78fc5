//! Replies to lines.
ghost use Rattle.std.specs.Prelude.{◌≡◌, [], IfOk};
ghost use Rattle.serde_json.specs.View.{view};
ghost use Rattle.st_answers.specs.Endings.{bad_data, bad_text, cause_name, refused_data, refused_name, refused_text};
ghost use Rattle.st_run.specs.inside.Replies.{IsRefusal, IsTelling};
ghost use Rattle.st_script.specs.AnswerText.{answer_line};

use serde_json::{Value, json};
use st_answers::EndCause;
use st_ids::Text;
use st_json::{BadCause, write_line};
use st_pieces::Reply;
use st_script::{Answer, answer_line};
use st_valid::ReplayCause;
use std::alloc::{AllocError, Global};

// The word for a cause.
fn cause_word(cause: BadCause) -> &'static str
    ensures { result.now ≡ cause_name cause }
{
    match cause {
        BadCause::Json => "Json",
        BadCause::Header => "Header",
        BadCause::Shape => "Shape",
        BadCause::NotNormal => "NotNormal",
    }
}

// What names a bad line.
fn bad_value(alloc: Global, number: u32, cause: BadCause) -> Result<Value, AllocError>
    ensures { IfOk result (λ v. view v ≡ bad_data number cause) }
{
    let word = cause_word(cause);
    json!(in alloc; {"bad": word, "line": number})
}

// The bytes of a text.
fn bytes_of(alloc: Global, text: &Text) -> Result<Vec<u8>, AllocError>
    ensures { IfOk result (λ v. v.items ≡ text.now) }
{
    let bytes = Vec::from_slice(alloc, text.as_str().as_bytes())?;
    Ok(bytes)
}

// The line that names a bad one.
fn bad_text(alloc: Global, number: u32, cause: BadCause) -> Result<Text, AllocError>
    ensures { IfOk result (λ t. t ≡ bad_text number cause) }
{
    let value = bad_value(alloc, number, cause)?;
    write_line(alloc, &value)
}

/// The run ends at the line of a number, which is bad.
pub fn refuse(alloc: Global, number: u32, cause: BadCause) -> Result<Reply<EndCause>, AllocError>
    ensures { IfOk result (IsRefusal number (EndCause.Bad cause)) }
{
    let text = bad_text(alloc, number, cause)?;
    let bytes = bytes_of(alloc, &text)?;
    Ok(Reply::Ends(bytes, EndCause::Bad(cause)))
}

// The word for what a message is refused for.
fn refused_word(cause: ReplayCause) -> &'static str
    ensures { result.now ≡ refused_name cause }
{
    match cause {
        ReplayCause::Shape => "Shape",
        ReplayCause::Sequence => "Sequence",
        ReplayCause::Session => "Session",
        ReplayCause::Window => "Window",
        ReplayCause::RefBack => "RefBack",
        ReplayCause::Ids => "Ids",
        ReplayCause::Revision => "Revision",
        ReplayCause::Limit => "Limit",
        ReplayCause::Context => "Context",
        ReplayCause::Schema => "Schema",
    }
}

// What names a message that is refused.
fn refused_value(alloc: Global, number: u32, cause: ReplayCause) -> Result<Value, AllocError>
    ensures { IfOk result (λ v. view v ≡ refused_data number cause) }
{
    let word = refused_word(cause);
    json!(in alloc; {"line": number, "refused": word})
}

// The line that names it.
fn refused_text(alloc: Global, number: u32, cause: ReplayCause) -> Result<Text, AllocError>
    ensures { IfOk result (λ t. t ≡ refused_text number cause) }
{
    let value = refused_value(alloc, number, cause)?;
    write_line(alloc, &value)
}

/// The run ends at the line of a number, which is a message that isn't valid.
pub fn refuse_message(
    alloc: Global,
    number: u32,
    cause: ReplayCause,
) -> Result<Reply<EndCause>, AllocError>
    ensures { IfOk result (IsRefusal number (EndCause.Refused cause)) }
{
    let text = refused_text(alloc, number, cause)?;
    let bytes = bytes_of(alloc, &text)?;
    Ok(Reply::Ends(bytes, EndCause::Refused(cause)))
}

/// The run goes on, and a text is told.
pub fn tell(alloc: Global, text: &Text) -> Result<Reply<EndCause>, AllocError>
    ensures { IfOk result (IsTelling text.now) }
{
    let bytes = bytes_of(alloc, text)?;
    Ok(Reply::Goes(bytes))
}

/// The run goes on: a header was read.
pub fn tell_header(alloc: Global) -> Result<Reply<EndCause>, AllocError>
    ensures { IfOk result (IsTelling (answer_line Answer.Header)) }
{
    let text = answer_line(alloc, &Answer::Header)?;
    tell(alloc, &text)
}

/// The run goes on, and nothing is told.
pub fn tell_nothing(alloc: Global) -> Reply<EndCause>
    ensures { IsTelling [] result }
{
    Reply::Goes(Vec::new(alloc))
}
