//! What was read and isn't answered yet.
ghost use Rattle.std.specs.Prelude.{◌≡◌, None, Option, ◌+◌, ◌<◌, ◌≤◌, ◌^◌, ◌-◌, ◌++◌, Ok, length, OnOk, ◌==◌, position, IfSome, Some, true, false};
ghost use Rattle.st_pieces.specs.Lines.{IsFeedAt};
ghost use Rattle.st_pieces.specs.inside.Placed.{IsPlaced, tail_of};
ghost use Rattle.st_pieces.specs.Lines.{NoFeed, is_long, line_of};

use std::alloc::{AllocError, Global};

// How many lines an input may have, how many bytes a line, and how many the whole.
const MAX_LINES: u32 = 65_536;

const MAX_LINE: usize = 1 << 20;

const MAX_INPUT: usize = 16 << 20;

/// Where a run stands: what was read and isn't answered yet, from a place on, how much of that was
/// searched and has no line feed, the number of the next line, and how many bytes stand before it.
#[derive(Drop)]
pub struct Reading {
    pub pending: Vec<u8>,
    pub from: usize,
    pub seen: usize,
    pub number: u32,
    pub start: u32,
}

// Where the first line feed stands.
fn first_feed(bytes: &[u8]) -> Option<usize>
    ensures { result ≡ position (λ b. b == 10) bytes.now }
{
    bytes.iter().position(|b| *b == b'\n')
}

/// Whether a line is too long, with so many line feeds behind it.
pub fn is_long(number: u32, start: u32, bytes: &[u8], feed: u32) -> bool
    requires { (start ≤ 16777216) × (feed ≤ 1) × (length bytes.now < 2 ^ 32) }
    ensures { result ≡ is_long number start (line_of bytes.now feed) }
{
    number > MAX_LINES
        || bytes.len() > MAX_LINE
        || start as usize + bytes.len() + feed as usize > MAX_INPUT
}

/// Whether what isn't answered yet is too long, whatever follows.
pub fn is_tail_long(reading: &Reading) -> bool
    requires { IsPlaced reading.now }
    ensures some { result ≡ true → 0 < length (tail_of reading.now) }
    ensures long { result ≡ true
        → is_long reading.now.number reading.now.start (line_of (tail_of reading.now) 0) ≡ true }
    ensures short { result ≡ false → 0 < length (tail_of reading.now)
        → is_long reading.now.number reading.now.start (line_of (tail_of reading.now) 0) ≡ false }
{
    let tail = &reading.pending[reading.from..];
    !tail.is_empty() && is_long(reading.number, reading.start, tail, 0)
}

/// Where the next line feed stands in what isn't answered yet.
pub fn next_feed(reading: &Reading) -> Option<usize>
    requires { IsPlaced reading.now }
    ensures feed { IfSome result (IsFeedAt (tail_of reading.now)) }
    ensures none { result ≡ None → NoFeed (tail_of reading.now) }
{
    let seen = reading.seen;
    match first_feed(&reading.pending[reading.from + seen..]) {
        Some(at) => Some(seen + at),
        None => None,
    }
}

/// Lets go of what is answered, and puts more bytes behind the rest.
pub fn keep_more(alloc: Global, reading: &mut Reading, more: &[u8]) -> Result<(), AllocError>
    requires place { IsPlaced reading.old }
    requires unended { NoFeed (tail_of reading.old) }
    requires piece { length more.now ≤ 65536 }
    requires within { reading.old.start + length (tail_of reading.old) ≤ 16777216 }
    ensures tail { OnOk result (tail_of reading.new ≡ tail_of reading.old ++ more.now) }
    ensures number { OnOk result (reading.new.number ≡ reading.old.number) }
    ensures start { OnOk result (reading.new.start ≡ reading.old.start) }
    ensures placed { OnOk result (IsPlaced reading.new) }
{
    let seen = reading.pending.len() - reading.from;
    let mut pending = Vec::new(alloc);
    pending.extend_from_slice(&reading.pending[reading.from..])?;
    pending.extend_from_slice(more)?;
    reading.pending = pending;
    reading.from = 0;
    reading.seen = seen;
    Ok(())
}
