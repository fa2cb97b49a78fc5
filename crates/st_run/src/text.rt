//! The answers to lines that ask for the texts of entries.
ghost use Rattle.std.specs.Prelude.{◌≡◌, ℕ, ◌<◌, ◌≤◌, ◌^◌, length, Some, IfOk, OnOk, codes};
ghost use Rattle.serde_json.specs.View.{view};
ghost use Rattle.st_entry_texts.specs.declared.entry.Authors.{Authors as AuthorsOf};
ghost use Rattle.st_answers.specs.Trace.{IsEntryTold, asked_by, entry_asked, message_line, no_entry_line, number_beside};
ghost use Rattle.st_lists.specs.declared.lists.WorldState.{WorldState};
ghost use Rattle.st_msg.specs.Messages.{MessageView};
ghost use Rattle.st_script.specs.Header.{HeaderView};
ghost use Rattle.st_script.specs.Members.{number_in};
ghost use Rattle.st_texts.specs.Texts.{IsMessageOf};
ghost use Rattle.st_world.specs.World.{opening_document};
ghost use Rattle.st_run.specs.inside.Standing.{IsKeptFor, IsUnderWay, TellsTexts};

use serde_json::Value;
use st_entry_texts::Authors;
use st_ids::{Or, Text};
use st_json::{only, read_line};
use st_plain::World;
use std::alloc::{AllocError, Global};

// The number of a value's member `n`.
fn number_of(value: &Value) -> Option<u32>
    ensures { result ≡ number_in (codes "n") (view value.now) }
{
    let number = value.get("n")?.as_u64()?;
    if number < 1 << 32 {
        Some(number as u32)
    } else {
        None
    }
}

// The number that stands beside the word `text`.
fn number_beside(word: &str, value: &Value) -> Option<u32>
    ensures { result ≡ number_beside word.now (view value.now) }
{
    if word == "text" {
        number_of(value)
    } else {
        None
    }
}

// The entry whose text a value asks for.
fn asked_by(value: &Value) -> Option<u32>
    ensures { result ≡ asked_by (view value.now) }
{
    if only(value, "do n").is_err() {
        return None;
    }
    let word = value.get("do")?.as_str()?;
    number_beside(word, value)
}

/// The entry whose text a line asks for.
pub fn entry_asked(alloc: Global, line: &[u8]) -> Result<Option<u32>, AllocError>
    ensures { IfOk result (λ o. o ≡ entry_asked line.now) }
{
    match read_line(alloc, line) {
        Ok(value) => Ok(asked_by(&value)),
        Err(Or::NoMemory) => Err(AllocError),
        Err(Or::Fault(_)) => Ok(None),
    }
}

// The line that says that there is no such entry.
fn no_entry(alloc: Global) -> Result<Text, AllocError>
    ensures { IfOk result (λ t. t ≡ no_entry_line) }
{
    Text::from_str(alloc, "{\"no\":\"NoEntry\"}\n")
}

// The line of the message of an entry that is there.
fn message_line(
    alloc: Global,
    world: &World,
    authors: &mut Authors,
    n: u32,
) -> Result<Text, AllocError>
    requires under_way { TellsTexts world.now (Some authors.old) }
    requires there { (k : ℕ) (h : HeaderView) (w : WorldState) → IsUnderWay k world.now (Some authors.old) h w → (0 < n) × (n ≤ length w.log) }
    ensures told { IfOk result (λ t. (k : ℕ) (h : HeaderView) (w : WorldState) → IsUnderWay k world.now (Some authors.old) h w
        → (m : MessageView) × IsMessageOf (opening_document h) w.log n m × (t ≡ message_line m)) }
    ensures kept { OnOk result ((k : ℕ) (h : HeaderView) (w : WorldState) → IsUnderWay k world.now (Some authors.old) h w → IsKeptFor h w authors.new) }
{
    let Some(min) = world.minimum_after(n) else {
        unreachable!();
    };
    let mut out = Text::from_str(alloc, "{\"msg\":")?;
    authors.push_message(alloc, &mut out, world.log(), n, min)?;
    out.push_str(",\"ok\":\"text\"}\n")?;
    Ok(out)
}

// Keeps what is asked for of authors, from the first time on.
fn keep_authors(
    alloc: Global,
    world: &World,
    authors: &mut Option<Authors>,
) -> Result<(), AllocError>
    requires under_way { TellsTexts world.now authors.old }
    ensures there { OnOk result ((x : AuthorsOf) × (authors.new ≡ Some x)) }
    ensures under_way { OnOk result ((k : ℕ) (h : HeaderView) (w : WorldState) → IsUnderWay k world.now authors.old h w → IsUnderWay k world.now authors.new h w) }
{
    if authors.is_none() {
        let opening = world.opening(alloc)?;
        *authors = Some(Authors::new(alloc, opening));
    }
    Ok(())
}

/// What one is told who asks for the text of an entry.
pub fn tell_entry(
    alloc: Global,
    world: &World,
    authors: &mut Option<Authors>,
    n: u32,
) -> Result<Text, AllocError>
    requires under_way { TellsTexts world.now authors.old }
    ensures told { IfOk result (λ t. (k : ℕ) (h : HeaderView) (w : WorldState) → IsUnderWay k world.now authors.old h w → IsEntryTold (opening_document h) w.log n t) }
    ensures under_way { OnOk result ((k : ℕ) (h : HeaderView) (w : WorldState) → IsUnderWay k world.now authors.old h w → IsUnderWay k world.now authors.new h w) }
{
    if n == 0 || n as usize > world.log().len() {
        return no_entry(alloc);
    }
    keep_authors(alloc, world, authors)?;
    match authors {
        None => unreachable!(),
        Some(authors) => message_line(alloc, world, authors, n),
    }
}
