//! Counts over many neighbouring blocks at once.
ghost use Rattle.std.specs.Prelude.{◌≡◌, ◌<◌, ◌≤◌, ◌+◌, ◌*◌, ◌^◌, ◌++◌, ◌∷◌, [], length, take, drop, if◌then◌else◌};
ghost use Rattle.st_chunks.specs.Slots.{all_slots};
ghost use Rattle.st_chunks.specs.inside.Groups.{AreGroups, AreGroupsBut, IsCountOf, fulls, sizes};

use crate::block::Block;

/// So many blocks are counted together.
pub const BLOCKS: usize = 64;

/// How many slots some neighbouring blocks have, and how many of these are full.
#[derive(Clone, Copy)]
pub struct Group {
    pub slots: u64,
    pub full: u64,
}

/// The groups that a search goes past, how many slots they have, and how much of what it looks for is left behind them.
#[derive(Clone, Copy)]
pub struct Start {
    pub group: usize,
    pub slots: u64,
    pub rest: u64,
}

/// The groups that end before a gap.
pub fn before_gap(groups: &[Group], place: u64) -> Start
    ensures within { result.group ≤ length groups.now }
    ensures slots { result.slots ≡ sizes (take result.group groups.now) }
    ensures before { result.slots + result.rest ≡ place }
    ensures more { 0 < result.group → 0 < result.rest }
{
    let mut rest = place;
    for (i, group) in groups.iter().enumerate() {
        if rest <= group.slots {
            return Start {
                group: i,
                slots: place - rest,
                rest,
            };
        }
        rest -= group.slots;
    }
    Start {
        group: groups.len(),
        slots: place - rest,
        rest,
    }
}

/// The groups that end before a full slot.
pub fn before_full(groups: &[Group], index: u64) -> Start
    requires { sizes groups.now < 2 ^ 32 }
    ensures within { result.group ≤ length groups.now }
    ensures slots { result.slots ≡ sizes (take result.group groups.now) }
    ensures before { fulls (take result.group groups.now) + result.rest ≡ index }
{
    let mut slots = 0;
    let mut rest = index;
    for (i, group) in groups.iter().enumerate() {
        if rest < group.full {
            return Start {
                group: i,
                slots,
                rest,
            };
        }
        slots += group.slots;
        rest -= group.full;
    }
    Start {
        group: groups.len(),
        slots,
        rest,
    }
}

/// How many full slots groups count.
pub fn full_in(groups: &[Group]) -> u64
    requires { fulls groups.now < 2 ^ 32 }
    ensures { result ≡ fulls groups.now }
{
    let mut full = 0;
    for group in groups {
        full += group.full;
    }
    full
}

/// What some blocks have.
pub fn count_of(blocks: &[Block]) -> Group
    requires { length (all_slots blocks.now) < 2 ^ 32 }
    ensures { IsCountOf result blocks.now }
{
    let mut slots = 0;
    let mut full = 0;
    for block in blocks {
        slots += block.len() as u64;
        full += u64::from(block.full_len());
    }
    Group { slots, full }
}

// What the blocks of a group have.
#[tactic(auto, using(crate::proofs::Walks::part_short))]
fn count_group(blocks: &[Block], place: usize) -> Group
    requires there { place * 64 + 64 ≤ length blocks.now }
    requires short { length (all_slots blocks.now) < 2 ^ 32 }
    ensures { IsCountOf result (take 64 (drop (place * 64) blocks.now)) }
{
    let from = place * BLOCKS;
    count_of(&blocks[from..from + BLOCKS])
}

/// Counts a group anew in which a block has changed, if there is that group.
pub fn recount(groups: &mut Vec<Group>, blocks: &[Block], place: usize)
    requires groups { AreGroupsBut place groups.old.items blocks.now }
    requires short { length (all_slots blocks.now) < 2 ^ 32 }
    ensures { AreGroups groups.new.items blocks.now }
{
    if place < groups.as_slice().len() {
        groups[place] = count_group(blocks, place);
    }
}

// Puts a group behind the others, where there is memory for it.
fn push_group(groups: &mut Vec<Group>, group: Group) -> bool
    ensures { groups.new.items
        ≡ (if result then groups.old.items ++ group ∷ [] else groups.old.items) }
{
    groups.push(group).is_ok()
}

/// Counts the blocks that no group counts yet, as far as memory allows: what no group counts is found all the same.
pub fn fill(groups: &mut Vec<Group>, blocks: &[Block])
    requires groups { AreGroups groups.old.items blocks.now }
    requires short { length (all_slots blocks.now) < 2 ^ 32 }
    ensures { AreGroups groups.new.items blocks.now }
{
    let most = blocks.len() / BLOCKS;
    'groups: while groups.as_slice().len() < most {
        let group = count_group(blocks, groups.as_slice().len());
        if !push_group(groups, group) {
            return;
        }
    }
}
