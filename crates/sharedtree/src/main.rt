//! Clients that edit one typed document at once, from lines of JSON to lines of JSON.
#![tactic(auto)]

use st_answers::Outcome;
use st_io::{StdSink, StdSource};
use st_run::run;
use std::io::{Error, ErrorKind};
use std::process::ExitCode;
use std::{env, io};

// The words without the program's name. Where one is no text there are none, which is no command.
fn words(rt: &HostRuntime) -> Result<Vec<String>, Error> {
    let mut words = Vec::new(rt.alloc());
    match env::args(rt) {
        Ok(args) => {
            for word in args.skip(1) {
                words.push(word)?;
            }
        }
        Err(error) => {
            if error.kind() != ErrorKind::InvalidData {
                return Err(error);
            }
        }
    }
    Ok(words)
}

fn main(rt: HostRuntime) -> ExitCode {
    let outcome = match words(&rt) {
        Ok(words) => {
            let mut source = StdSource::new(rt.reader());
            let mut sink = StdSink::new(io::writer(&rt));
            run(rt.alloc(), &words, &mut source, &mut sink)
        }
        Err(_) => Outcome::NoMemory,
    };
    ExitCode::from(outcome.status())
}
