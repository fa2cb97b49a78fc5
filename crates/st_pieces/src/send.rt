//! Writing answers.
ghost use Rattle.std.specs.Prelude.{◌≡◌, ◌≢◌, string_bytes, ◌+◌, ◌<◌, ◌≤◌, ◌-◌, Ok, Err, IfOk, IfErr, OnOk, OnErr};
ghost use Rattle.st_pieces.specs.inside.Sent.{IsLongSent, IsReplyEnd, IsSent};
ghost use Rattle.st_io.specs.Bytes.{Appends};
ghost use Rattle.st_io.specs.Counts.{Rose, HasCause};
ghost use Rattle.st_pieces.specs.Told.{AppendsPrefix, long_line};

use crate::responder::{Reply, RunEnd};
use st_io::{Failed, Sink};
use std::alloc::{AllocError, Global};

/// Writes all of a piece, in as many writes as it takes.
pub fn write_all<K: Sink>(sink: &mut K, bytes: &[u8]) -> Result<(), Failed>
    ensures ok { OnOk result (Appends (K.written sink.old) bytes.now (K.written sink.new)) }
    ensures err { OnErr result (AppendsPrefix (K.written sink.old) bytes.now (K.written sink.new)) }
    ensures cause { HasCause (K.faults sink.old) (K.faults sink.new) result }
{
    let mut done = 0;
    while done < bytes.len() {
        let count = sink.write(&bytes[done..])?;
        done += count;
    }
    Ok(())
}

// The line that says that one is too long.
fn long_line(alloc: Global, number: u32) -> Result<String, AllocError>
    ensures { IfOk result (λ t. string_bytes t ≡ long_line number) }
{
    format!(in alloc; "{{\"line\":{number},\"too\":\"long\"}}\n")
}

/// Says that a line is too long.
pub fn send_long<E, K: Sink>(alloc: Global, number: u32, sink: &mut K) -> RunEnd<E>
    ensures told { IsLongSent number (K.written sink.old) (K.written sink.new) result }
    ensures fault { result ≡ RunEnd.WriteFault → Rose (K.faults sink.old) (K.faults sink.new) }
    ensures later { K.faults sink.old ≤ K.faults sink.new }
{
    let Ok(line) = long_line(alloc, number) else {
        return RunEnd::NoMemory;
    };
    match write_all(sink, line.as_str().as_bytes()) {
        Ok(()) => RunEnd::TooLong(number),
        Err(_) => RunEnd::WriteFault,
    }
}

/// Writes what a line is answered with.
pub fn send_reply<E: Copy, K: Sink>(
    reply: &Reply<E>,
    number: u32,
    sink: &mut K,
) -> Result<(), RunEnd<E>>
    ensures goes { OnOk result (IsSent reply.now (K.written sink.old) (K.written sink.new)) }
    ensures ended { IfErr result (λ o.
        IsReplyEnd reply.now number (K.written sink.old) (K.written sink.new) o) }
    ensures unread { result ≢ Err RunEnd.ReadFault }
    ensures fault { result ≡ Err RunEnd.WriteFault → Rose (K.faults sink.old) (K.faults sink.new) }
    ensures later { K.faults sink.old ≤ K.faults sink.new }
{
    match reply {
        Reply::Goes(text) => match write_all(sink, text.as_slice()) {
            Ok(()) => Ok(()),
            Err(_) => Err(RunEnd::WriteFault),
        },
        Reply::Ends(text, ending) => match write_all(sink, text.as_slice()) {
            Ok(()) => Err(RunEnd::Bad(number, *ending)),
            Err(_) => Err(RunEnd::WriteFault),
        },
    }
}
