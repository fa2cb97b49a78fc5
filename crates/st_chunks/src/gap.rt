//! Where a place of the whole list stands among the blocks.
ghost use Rattle.std.specs.Prelude.{◌≡◌, ◌<◌, ◌≤◌, ◌+◌, ◌*◌, ◌^◌, ◌↔◌, length, drop, IfOk, IsErr, IfSome, MatchOption};
ghost use Rattle.st_chunks.specs.Slots.{all_slots, count_full, IsFullPlace};
ghost use Rattle.st_chunks.specs.inside.Gaps.{IsGap, IsItem};
ghost use Rattle.st_chunks.specs.inside.Groups.{AreGroups};

use crate::block::{Block, one_if};
use crate::group::{BLOCKS, Group, before_full, before_gap, count_of, full_in};
use st_marks::Slot;

/// Behind so many slots of a block.
#[derive(Clone, Copy)]
pub struct Gap {
    pub block: usize,
    pub offset: usize,
}

/// A place past the end.
#[derive(Clone, Copy, Debug, PartialEq, Eq)]
pub struct Range;

// The first block in which or behind which a gap of the whole list is.
fn gap_at(blocks: &[Block], place: u64) -> Option<Gap>
    ensures gap { IfSome result (λ g. IsGap blocks.now place g.block g.offset) }
    ensures none { MatchOption result
        (0 < length blocks.now → length (all_slots blocks.now) < place) (λ _. Unit {0}) }
{
    let mut rest = place;
    for (i, block) in blocks.iter().enumerate() {
        let size = block.len() as u64;
        if rest <= size {
            return Some(Gap {
                block: i,
                offset: rest as usize,
            });
        }
        rest -= size;
    }
    None
}

// The first block behind so many groups.
fn first_block(blocks: &[Block], group: usize) -> usize
    requires { group * 64 ≤ length blocks.now }
    ensures first { result ≡ group * 64 }
    ensures within { result ≤ length blocks.now }
{
    let _most = blocks.len();
    group * BLOCKS
}

// The blocks from one on.
fn behind(blocks: &[Block], from: usize) -> &[Block]
    requires { from ≤ length blocks.now }
    ensures { result.now ≡ drop from blocks.now }
{
    &blocks[from..]
}

/// The first of the blocks from one on in which or behind which a gap of theirs is.
pub fn gap_from(blocks: &[Block], from: usize, place: u64) -> Option<Gap>
    requires { from ≤ length blocks.now }
    ensures gap { IfSome result (λ g. IsGap (drop from blocks.now) place g.block g.offset) }
    ensures none { MatchOption result
        (from < length blocks.now → length (all_slots (drop from blocks.now)) < place) (λ _. Unit {0}) }
{
    gap_at(behind(blocks, from), place)
}

/// A block in which or behind which a gap of the whole list is.
pub fn find_gap(blocks: &[Block], groups: &[Group], place: u64) -> Option<Gap>
    requires { AreGroups groups.now blocks.now }
    ensures gap { IfSome result (λ g. IsGap blocks.now place g.block g.offset) }
    ensures none { MatchOption result
        (0 < length blocks.now → length (all_slots blocks.now) < place) (λ _. Unit {0}) }
{
    let start = before_gap(groups, place);
    let from = first_block(blocks, start.group);
    match gap_from(blocks, from, start.rest) {
        Some(gap) => Some(Gap {
            block: from + gap.block,
            offset: gap.offset,
        }),
        None => None,
    }
}

// The block in which the item at a place of the whole list is.
fn item_at(blocks: &[Block], place: u64) -> Result<Gap, Range>
    ensures item { IfOk result (λ g. IsItem blocks.now place g.block g.offset) }
    ensures range { IsErr result ↔ (length (all_slots blocks.now) ≤ place) }
{
    let mut rest = place;
    for (i, block) in blocks.iter().enumerate() {
        let size = block.len() as u64;
        if rest < size {
            return Ok(Gap {
                block: i,
                offset: rest as usize,
            });
        }
        rest -= size;
    }
    Err(Range)
}

/// The block in which the item at a place of the whole list is.
pub fn find_item(blocks: &[Block], groups: &[Group], place: u64) -> Result<Gap, Range>
    requires { AreGroups groups.now blocks.now }
    ensures item { IfOk result (λ g. IsItem blocks.now place g.block g.offset) }
    ensures range { IsErr result ↔ (length (all_slots blocks.now) ≤ place) }
{
    let start = before_gap(groups, place);
    let from = first_block(blocks, start.group);
    match item_at(behind(blocks, from), start.rest) {
        Ok(item) => Ok(Gap {
            block: from + item.block,
            offset: item.offset,
        }),
        Err(Range) => Err(Range),
    }
}

// The full slot before which so many full ones stand.
fn nth_full(slots: &[Slot], index: u64) -> Result<u64, Range>
    requires { length slots.now < 2 ^ 32 }
    ensures ok { IfOk result (λ place. IsFullPlace slots.now index place) }
    ensures range { IsErr result ↔ (count_full slots.now ≤ index) }
{
    let mut before = 0;
    for (i, slot) in slots.iter().enumerate() {
        if slot.full && before == index {
            return Ok(i as u64);
        }
        before += u64::from(one_if(slot.full));
    }
    Err(Range)
}

// The full slot of some blocks before which so many full ones stand.
fn full_at(blocks: &[Block], index: u64) -> Result<u64, Range>
    requires { length (all_slots blocks.now) < 2 ^ 32 }
    ensures ok { IfOk result (λ place. IsFullPlace (all_slots blocks.now) index place) }
    ensures range { IsErr result ↔ (count_full (all_slots blocks.now) ≤ index) }
{
    let mut before = 0;
    let mut rest = index;
    for block in blocks {
        let full = u64::from(block.full_len());
        if rest < full {
            return match nth_full(block.as_slice(), rest) {
                Ok(place) => Ok(before + place),
                Err(Range) => Err(Range),
            };
        }
        before += block.len() as u64;
        rest -= full;
    }
    Err(Range)
}

/// The full slot of the whole list before which so many full ones stand.
pub fn find_full(blocks: &[Block], groups: &[Group], index: u64) -> Result<u64, Range>
    requires groups { AreGroups groups.now blocks.now }
    requires short { length (all_slots blocks.now) < 2 ^ 32 }
    ensures ok { IfOk result (λ place. IsFullPlace (all_slots blocks.now) index place) }
    ensures range { IsErr result ↔ (count_full (all_slots blocks.now) ≤ index) }
{
    let start = before_full(groups, index);
    let from = first_block(blocks, start.group);
    match full_at(behind(blocks, from), start.rest) {
        Ok(place) => Ok(start.slots + place),
        Err(Range) => Err(Range),
    }
}

/// How many slots of the whole list are full.
pub fn count_all(blocks: &[Block], groups: &[Group]) -> u64
    requires groups { AreGroups groups.now blocks.now }
    requires short { length (all_slots blocks.now) < 2 ^ 32 }
    ensures { result ≡ count_full (all_slots blocks.now) }
{
    let from = first_block(blocks, groups.len());
    full_in(groups) + count_of(behind(blocks, from)).full
}
