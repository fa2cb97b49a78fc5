//! The command line, as clap is told it.
ghost use Rattle.std.specs.Prelude.{◌≡◌, map, string_bytes, false, true, codes, IfOk};
ghost use Rattle.clap.specs.Words.{app_of, takes, subcommand_of, subcommand_rows_of, rule_of};
ghost use Rattle.clap.specs.declared.builder.command.Command.TheViews.{out-Command as fields_of};
ghost use Rattle.st_words.specs.Parser.{plain, top, given, with_plain, names, work, program};

use clap::error::ErrorKind;
use clap::{Arg, ArgAction, ArgMatches, Command};
use std::alloc::{AllocError, Global};

// A command without options, and without those that clap adds.
fn plain<'a>(alloc: Global, name: &'a str) -> Command<'a>
    ensures app { app_of result ≡ plain name.entry.now }
    ensures globals { (fields_of result).has_globals ≡ false }
{
    Command::new(alloc, name)
        .disable_help_flag(true)
        .disable_version_flag(true)
}

// One more subcommand without options.
fn with_plain<'a>(
    alloc: Global,
    command: Command<'a>,
    name: &'a str,
) -> Result<Command<'a>, AllocError>
    ensures { IfOk result (λ c. app_of c ≡ with_plain (app_of command.entry) name.entry.now) }
{
    command.subcommand(plain(alloc, name))
}

// An option that has to be given, with a value.
fn given<'a>(alloc: Global, name: &'a str) -> Arg<'a>
    ensures rule { rule_of result ≡ given name.entry.now }
    ensures global { result.global ≡ false }
{
    Arg::new(alloc, name)
        .long(name)
        .required(true)
        .action(ArgAction::Set)
}

// The subcommand with the two numbers.
fn work<'a>(alloc: Global) -> Result<Command<'a>, AllocError>
    ensures app { IfOk result (λ c. app_of c ≡ work) }
    ensures globals { IfOk result (λ c. (fields_of c).has_globals ≡ false) }
{
    let command = plain(alloc, "work").arg(given(alloc, "seed"))?;
    command.arg(given(alloc, "steps"))
}

// The program without its subcommands.
fn top<'a>(alloc: Global) -> Command<'a>
    ensures { app_of result ≡ top }
{
    plain(alloc, "sharedtree")
        .no_binary_name(true)
        .disable_help_subcommand(true)
        .subcommand_required(true)
}

// The program with the subcommands that have no options.
fn with_names<'a>(alloc: Global) -> Result<Command<'a>, AllocError>
    ensures { IfOk result (λ c. app_of c ≡ names) }
{
    let command = with_plain(alloc, top(alloc), "trace")?;
    let command = with_plain(alloc, command, "replay")?;
    let command = with_plain(alloc, command, "algebra")?;
    with_plain(alloc, command, "compat")
}

// The whole command line.
fn program<'a>(alloc: Global) -> Result<Command<'a>, AllocError>
    ensures { IfOk result (λ c. app_of c ≡ program) }
{
    let command = with_names(alloc)?;
    command.subcommand(work(alloc)?)
}

/// What clap makes of words that it takes.
pub fn parse<'a>(alloc: Global, words: &'a [String]) -> Result<ArgMatches<'a>, AllocError>
    requires { takes program (map string_bytes words.now) ≡ true }
    ensures { IfOk result (λ m.
        subcommand_rows_of m ≡ subcommand_of program (map string_bytes words.now)) }
{
    let command = program(alloc)?;
    match command.try_get_matches_from(words) {
        Ok(matches) => Ok(matches),
        Err(error) => {
            if error.kind() == ErrorKind::OutOfMemory {
                Err(AllocError)
            } else {
                unreachable!()
            }
        }
    }
}
