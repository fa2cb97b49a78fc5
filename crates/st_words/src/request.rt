//! What the words ask for.
ghost use Rattle.std.specs.Prelude.{◌≡◌, map, string_bytes, option_map, IfOk, true};
ghost use Rattle.clap.specs.Words.{first_of, found_of, rows_of, subcommand_rows_of};
ghost use Rattle.st_words.specs.Table.{request_in, work_of};
ghost use Rattle.st_words.specs.inside.Forms.{is_form, request_read, work_read};

use crate::number::number;
use crate::parser::parse;
use crate::table::{is_form, named};
use clap::ArgMatches;
use std::alloc::{AllocError, Global};

/// What is asked for.
#[derive(Clone, Copy, Debug, PartialEq, Eq)]
pub enum Request {
    /// The answers to a header and steps.
    Trace,
    /// The answers to messages from elsewhere.
    Replay,
    /// The answers to requests on changes.
    Algebra,
    /// The relation of two schemas.
    Compat,
    /// A load that the program makes itself.
    Work { seed: u64, steps: u32 },
}

// The load that two texts ask for.
fn work_of(seed: &str, steps: &str) -> Option<Request>
    ensures { result ≡ work_of seed.now steps.now }
{
    let seed = number(seed)?;
    let steps = number(steps)?;
    if steps <= 50_000 {
        Some(Request::Work {
            seed,
            steps: steps as u32,
        })
    } else {
        None
    }
}

// The value of an option.
fn value_of<'a>(matches: &ArgMatches<'a>, name: &str) -> Option<&'a str>
    ensures { option_map (λ s. s.now) result ≡ first_of name.now (rows_of (found_of matches.now)) }
{
    matches.get_str(name)
}

// The load that clap read.
fn work_read(matches: &ArgMatches) -> Option<Request>
    ensures { result ≡ work_read (rows_of (found_of matches.now)) }
{
    work_of(value_of(matches, "seed")?, value_of(matches, "steps")?)
}

// The command that clap read.
fn request_read(matches: &ArgMatches) -> Option<Request>
    ensures { result ≡ request_read (subcommand_rows_of matches.now) }
{
    let (name, inner) = matches.subcommand()?;
    if name == "work" {
        work_read(inner)
    } else {
        named(name)
    }
}

/// The command that the words are, if they are one. Words that have the form of none, as all that hold the word `--`,
/// aren't given to clap.
pub fn request_of(alloc: Global, words: &[String]) -> Result<Option<Request>, AllocError>
    ensures { IfOk result (λ r. r ≡ request_in (map string_bytes words.now)) }
{
    if !is_form(words) {
        return Ok(None);
    }
    let matches = parse(alloc, words)?;
    Ok(request_read(&matches))
}
