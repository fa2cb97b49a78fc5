//! Slots that are put in the place of others.
ghost use Rattle.std.specs.Prelude.{ℕ, ◌≡◌, ◌<◌, ◌≤◌, ◌+◌, ◌-◌, ◌^◌, ◌++◌, ◌∷◌, [], length, set, take, drop, IfOk, IsTrue, OnOk, OnErr};
ghost use Rattle.std.specs.Prelude.{List as Seq};
ghost use Rattle.std.specs.Vec.{vec_len};
ghost use Rattle.st_marks.specs.declared.places.Slot.{Slot as Cell};
ghost use Rattle.st_chunks.specs.Slots.{all_slots, with_full};
ghost use Rattle.st_chunks.specs.inside.Gaps.{HasPut, HasSpliced, IsGap, IsItem};
ghost use Rattle.st_chunks.specs.inside.Groups.{AreGroups};

use crate::block::Block;
use crate::gap::{Gap, find_gap, gap_from};
use crate::group::{BLOCKS, Group, recount};
use st_marks::Slot;
use std::alloc::{AllocError, Global};

/// At most so many slots stand in a block.
const MOST: usize = 128;

/// So many stand in each but the last of the blocks into which more are cut, so that there is room in each.
const HALF: usize = 64;

// Puts a slot into a block.
fn insert_into(blocks: &mut Vec<Block>, gap: Gap, slot: Slot) -> Result<(), AllocError>
    requires gap { (place : ℕ) × IsGap blocks.old.items place gap.block gap.offset }
    requires room { length (all_slots blocks.old.items) + 1 < 2 ^ 32 }
    ensures ok { OnOk result ((at : ℕ) → IsGap blocks.old.items at gap.block gap.offset
        → HasPut blocks.old.items at slot blocks.new.items) }
    ensures block { OnOk result ((block : Seq Cell)
        × (blocks.new.items ≡ set blocks.old.items gap.block block)) }
    ensures err { OnErr result (blocks.new.items ≡ blocks.old.items) }
{
    blocks[gap.block].insert(gap.offset, slot)
}

// Puts a slot into a block, and counts it.
fn put_into(
    blocks: &mut Vec<Block>,
    groups: &mut Vec<Group>,
    gap: Gap,
    slot: Slot,
) -> Result<(), AllocError>
    requires gap { (place : ℕ) × IsGap blocks.old.items place gap.block gap.offset }
    requires room { length (all_slots blocks.old.items) + 1 < 2 ^ 32 }
    requires groups { AreGroups groups.old.items blocks.old.items }
    ensures ok { OnOk result ((at : ℕ) → IsGap blocks.old.items at gap.block gap.offset
        → HasPut blocks.old.items at slot blocks.new.items) }
    ensures groups { AreGroups groups.new.items blocks.new.items }
    ensures err { OnErr result (blocks.new.items ≡ blocks.old.items) }
{
    insert_into(blocks, gap, slot)?;
    recount(groups, blocks.as_slice(), gap.block / BLOCKS);
    Ok(())
}

// Makes a slot of a block full or not.
fn flip_in(blocks: &mut Vec<Block>, gap: Gap, full: bool)
    requires item { (place : ℕ) × IsItem blocks.old.items place gap.block gap.offset }
    requires room { length (all_slots blocks.old.items) < 2 ^ 32 }
    ensures flip { (place : ℕ) → IsItem blocks.old.items place gap.block gap.offset
        → all_slots blocks.new.items ≡ with_full (all_slots blocks.old.items) place full }
    ensures block { (block : Seq Cell) × (blocks.new.items ≡ set blocks.old.items gap.block block) }
{
    blocks[gap.block].flip(gap.offset, full)
}

/// Makes a slot of a block full or not, and counts it so.
pub fn flip_at(blocks: &mut Vec<Block>, groups: &mut Vec<Group>, gap: Gap, full: bool)
    requires item { (place : ℕ) × IsItem blocks.old.items place gap.block gap.offset }
    requires room { length (all_slots blocks.old.items) < 2 ^ 32 }
    requires groups { AreGroups groups.old.items blocks.old.items }
    ensures flip { (place : ℕ) → IsItem blocks.old.items place gap.block gap.offset
        → all_slots blocks.new.items ≡ with_full (all_slots blocks.old.items) place full }
    ensures groups { AreGroups groups.new.items blocks.new.items }
{
    flip_in(blocks, gap, full);
    recount(groups, blocks.as_slice(), gap.block / BLOCKS);
}

// Cuts slots into blocks of at most so many.
fn blocks_of(alloc: Global, slots: &[Slot]) -> Result<Vec<Block>, AllocError>
    requires { length slots.now < 2 ^ 32 }
    ensures { IfOk result (λ bs. all_slots bs.items ≡ slots.now) }
{
    let mut blocks = Vec::new(alloc);
    let mut rest = slots;
    while rest.len() > MOST {
        let (front, more) = rest.split_at(HALF);
        blocks.push(Block::of(Vec::from_slice(alloc, front)?))?;
        rest = more;
    }
    blocks.push(Block::of(Vec::from_slice(alloc, rest)?))?;
    Ok(blocks)
}

// Puts other blocks in the place of some. All the memory that it takes, it takes before anything
// changes.
fn replace(
    blocks: &mut Vec<Block>,
    from: usize,
    to: usize,
    mut with: Vec<Block>,
) -> Result<(), AllocError>
    requires order { from ≤ to }
    requires within { to ≤ vec_len blocks.old }
    ensures ok { OnOk result
        (blocks.new.items ≡ take from blocks.old.items ++ (with.items ++ drop to blocks.old.items)) }
    ensures err { OnErr result (blocks.new.items ≡ blocks.old.items) }
{
    blocks.reserve(with.len())?;
    let mut rest = blocks.split_off(to)?;
    blocks.truncate(from);
    blocks.append(&mut with)?;
    blocks.append(&mut rest)?;
    Ok(())
}

// The slots of the blocks from one gap to another that stay, with others between.
fn joined(
    alloc: Global,
    front: &[Slot],
    with: &[Slot],
    tail: &[Slot],
) -> Result<Vec<Slot>, AllocError>
    ensures { IfOk result (λ v. v.items ≡ front.now ++ (with.now ++ tail.now)) }
{
    let mut slots = Vec::from_slice(alloc, front)?;
    slots.extend_from_slice(with)?;
    slots.extend_from_slice(tail)?;
    Ok(slots)
}

// Puts slots in the place of those between two gaps; the second is counted from the block of the
// first.
fn splice_between(
    alloc: Global,
    blocks: &mut Vec<Block>,
    from: Gap,
    to: Gap,
    with: &[Slot],
) -> Result<(), AllocError>
    requires from { (place : ℕ) × IsGap blocks.old.items place from.block from.offset }
    requires to { (count : ℕ)
        × IsGap (drop from.block blocks.old.items) (from.offset + count) to.block to.offset
        × (length (all_slots blocks.old.items) - count + length with.now < 2 ^ 32) }
    ensures ok { OnOk result ((place count : ℕ)
        → IsGap blocks.old.items place from.block from.offset
        → IsGap (drop from.block blocks.old.items) (from.offset + count) to.block to.offset
        → HasSpliced blocks.old.items place count with.now blocks.new.items) }
    ensures front { OnOk result ((behind : Seq (Seq Cell))
        × (blocks.new.items ≡ take from.block blocks.old.items ++ behind)) }
    ensures err { OnErr result (blocks.new.items ≡ blocks.old.items) }
{
    let last = from.block + to.block;
    let front = &blocks[from.block].as_slice()[..from.offset];
    let tail = &blocks[last].as_slice()[to.offset..];
    let slots = joined(alloc, front, with, tail)?;
    let new = blocks_of(alloc, slots.as_slice())?;
    replace(blocks, from.block, last + 1, new)
}

// Puts slots in the place of some, where there are blocks.
fn splice_at(
    alloc: Global,
    blocks: &mut Vec<Block>,
    from: Gap,
    count: u64,
    with: &[Slot],
) -> Result<(), AllocError>
    requires from { (place : ℕ) × IsGap blocks.old.items place from.block from.offset }
    requires count { from.offset + count ≤ length (all_slots (drop from.block blocks.old.items)) }
    requires short { length (all_slots blocks.old.items) < 2 ^ 32 }
    requires room { length (all_slots blocks.old.items) - count + length with.now < 2 ^ 32 }
    ensures ok { OnOk result ((place : ℕ) → IsGap blocks.old.items place from.block from.offset
        → HasSpliced blocks.old.items place count with.now blocks.new.items) }
    ensures front { OnOk result ((behind : Seq (Seq Cell))
        × (blocks.new.items ≡ take from.block blocks.old.items ++ behind)) }
    ensures err { OnErr result (blocks.new.items ≡ blocks.old.items) }
{
    match gap_from(blocks.as_slice(), from.block, from.offset as u64 + count) {
        Some(to) => splice_between(alloc, blocks, from, to, with),
        None => unreachable!(),
    }
}

// Puts slots in the place of some, where there are blocks, and counts the blocks before them alone.
fn splice_counted(
    alloc: Global,
    blocks: &mut Vec<Block>,
    groups: &mut Vec<Group>,
    from: Gap,
    count: u64,
    with: &[Slot],
) -> Result<(), AllocError>
    requires from { (place : ℕ) × IsGap blocks.old.items place from.block from.offset }
    requires count { from.offset + count ≤ length (all_slots (drop from.block blocks.old.items)) }
    requires short { length (all_slots blocks.old.items) < 2 ^ 32 }
    requires room { length (all_slots blocks.old.items) - count + length with.now < 2 ^ 32 }
    requires groups { AreGroups groups.old.items blocks.old.items }
    ensures ok { OnOk result ((place : ℕ) → IsGap blocks.old.items place from.block from.offset
        → HasSpliced blocks.old.items place count with.now blocks.new.items) }
    ensures groups { AreGroups groups.new.items blocks.new.items }
    ensures err { OnErr result (blocks.new.items ≡ blocks.old.items) }
{
    splice_at(alloc, blocks, from, count, with)?;
    groups.truncate(from.block / BLOCKS);
    Ok(())
}

// Whether one slot is put into a block that has room.
fn is_small(blocks: &[Block], gap: Gap, count: u64, with: &[Slot]) -> bool
    requires { gap.block + 1 ≤ length blocks.now }
    ensures { IsTrue result → (count ≡ 0) × (length with.now ≡ 1) }
{
    count == 0 && with.len() == 1 && blocks[gap.block].len() < MOST
}

// Puts slots in the place of some, where there are blocks.
fn put_at(
    alloc: Global,
    blocks: &mut Vec<Block>,
    groups: &mut Vec<Group>,
    place: u64,
    at: Gap,
    count: u64,
    with: &[Slot],
) -> Result<(), AllocError>
    requires gap { IsGap blocks.old.items place at.block at.offset }
    requires within { place + count ≤ length (all_slots blocks.old.items) }
    requires short { length (all_slots blocks.old.items) < 2 ^ 32 }
    requires room { length (all_slots blocks.old.items) - count + length with.now < 2 ^ 32 }
    requires groups { AreGroups groups.old.items blocks.old.items }
    ensures ok { OnOk result (HasSpliced blocks.old.items place count with.now blocks.new.items) }
    ensures groups { AreGroups groups.new.items blocks.new.items }
    ensures err { OnErr result (blocks.new.items ≡ blocks.old.items) }
{
    if is_small(blocks.as_slice(), at, count, with) {
        put_into(blocks, groups, at, with[0])
    } else {
        splice_counted(alloc, blocks, groups, at, count, with)
    }
}

// Puts slots where there are no blocks.
fn put_first(alloc: Global, blocks: &mut Vec<Block>, with: &[Slot]) -> Result<(), AllocError>
    requires { length with.now < 2 ^ 32 }
    ensures ok { OnOk result ((new : Seq (Seq Cell))
        × (all_slots new ≡ with.now) × (blocks.new.items ≡ blocks.old.items ++ new)) }
    ensures err { OnErr result (blocks.new.items ≡ blocks.old.items) }
{
    let mut new = blocks_of(alloc, with)?;
    blocks.append(&mut new)
}

/// Puts slots in the place of some.
pub fn put(
    alloc: Global,
    blocks: &mut Vec<Block>,
    groups: &mut Vec<Group>,
    place: u64,
    count: u64,
    with: &[Slot],
) -> Result<(), AllocError>
    requires within { place + count ≤ length (all_slots blocks.old.items) }
    requires short { length (all_slots blocks.old.items) < 2 ^ 32 }
    requires room { length (all_slots blocks.old.items) - count + length with.now < 2 ^ 32 }
    requires groups { AreGroups groups.old.items blocks.old.items }
    ensures ok { OnOk result (HasSpliced blocks.old.items place count with.now blocks.new.items) }
    ensures groups { AreGroups groups.new.items blocks.new.items }
    ensures err { OnErr result (blocks.new.items ≡ blocks.old.items) }
{
    match find_gap(blocks.as_slice(), groups.as_slice(), place) {
        Some(at) => put_at(alloc, blocks, groups, place, at, count, with),
        None => put_first(alloc, blocks, with),
    }
}
