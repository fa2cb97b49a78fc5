//! A row of slots.
ghost use Rattle.std.specs.Prelude.{◌≡◌, ◌<◌, ◌≤◌, ◌+◌, ◌-◌, ◌^◌, ◌↔◌, ◌++◌, [], length, take, drop, slice_get, IfOk, IsErr, IsErrOf, OnOk, OnErr, Some};
ghost use Rattle.st_ids.specs.declared.fault.Or;
ghost use Rattle.st_chunks.specs.Slots.{all_slots, chunk_count, count_full, with_full, IsFullPlace};

use crate::block::{Block, copy_blocks};
use crate::chunks::count_chunks;
use crate::gap::{Range, count_all, find_full, find_item};
use crate::group::{Group, fill};
use crate::splice::{flip_at, put};
use st_ids::{Copied, Or};
use st_marks::Slot;
use std::alloc::{AllocError, Global};
use std::marker::Model;

/// A row of slots. Contracts see it as a list.
#[derive(Drop)]
pub struct ChunkRow {
    blocks: Vec<Block>,
    groups: Vec<Group>,
    total: u64,
}

impl Model for ChunkRow {
    ghost use Rattle.std.specs.Prelude.{◌≡◌, ◌<◌, ◌^◌, length, List as Seq};
    ghost use Rattle.st_chunks.specs.Slots.{all_slots as all};
    ghost use Rattle.st_chunks.specs.inside.Groups.{AreGroups as count};
    ghost use Rattle.st_marks.specs.declared.places.Slot.{Slot as AnySlot};

    ghost Value = { Seq AnySlot };

    ghost view = { λ r. all r.blocks.items };

    ghost invariant = { λ r. (r.total ≡ length (all r.blocks.items)) × (length (all r.blocks.items) < 2 ^ 32)
        × count r.groups.items r.blocks.items };
}

impl ChunkRow {
    /// A row without cells.
    pub fn new(alloc: Global) -> ChunkRow
        ensures { result ≡ [] }
    {
        ChunkRow {
            blocks: Vec::new(alloc),
            groups: Vec::new(alloc),
            total: 0,
        }
    }

    /// How many slots there are: fewer than 2^32.
    pub fn len(&self) -> u64
        ensures len { result ≡ length self.now }
        ensures short { result < 2 ^ 32 }
    {
        self.total
    }

    /// How many slots are full: how long the row is that is shown.
    pub fn full_len(&self) -> u64
        ensures { result ≡ count_full self.now }
    {
        count_all(self.blocks.as_slice(), self.groups.as_slice())
    }

    /// How many chunks there are: longest runs of slots that are all full or all empty, whose cells have one revision and
    /// numbers that rise by one, and whose nodes do too. It goes through the row.
    pub fn chunks(&self) -> u64
        ensures { result ≡ chunk_count self.now }
    {
        count_chunks(self.blocks.as_slice())
    }

    /// The slot at a place.
    pub fn get(&self, place: u64) -> Result<Slot, Range>
        ensures ok { IfOk result (λ s. slice_get self.now place ≡ Some s) }
        ensures range { IsErr result ↔ (length self.now ≤ place) }
    {
        match find_item(self.blocks.as_slice(), self.groups.as_slice(), place) {
            Ok(at) => Ok(self.blocks[at.block].as_slice()[at.offset]),
            Err(Range) => Err(Range),
        }
    }

    /// The place of the full slot before which so many full ones stand: of the item at an index of what is shown.
    pub fn full_place(&self, index: u64) -> Result<u64, Range>
        ensures ok { IfOk result (λ place. IsFullPlace self.now index place) }
        ensures range { IsErr result ↔ (count_full self.now ≤ index) }
    {
        find_full(self.blocks.as_slice(), self.groups.as_slice(), index)
    }

    /// Takes some slots out at a place, and puts others there. After an `Err` nothing has changed.
    pub fn splice(
        &mut self,
        alloc: Global,
        place: u64,
        count: u64,
        with: &[Slot],
    ) -> Result<(), Or<Range>>
        requires { length self.old - count + length with.now < 2 ^ 32 }
        ensures ok { OnOk result
            (self.new ≡ take place self.old ++ (with.now ++ drop (place + count) self.old)) }
        ensures range { IsErrOf result (Or.Fault (record {})) ↔ (length self.old < place + count) }
        ensures err { OnErr result (self.new ≡ self.old) }
    {
        if place > self.total || count > self.total - place {
            return Err(Or::Fault(Range));
        }
        put(
            alloc,
            &mut self.blocks,
            &mut self.groups,
            place,
            count,
            with,
        )?;
        self.total = self.total - count + with.len() as u64;
        fill(&mut self.groups, self.blocks.as_slice());
        Ok(())
    }

    /// Makes the slot at a place full or empty. After an `Err` nothing has changed.
    pub fn flip(&mut self, place: u64, full: bool) -> Result<(), Range>
        ensures ok { OnOk result (self.new ≡ with_full self.old place full) }
        ensures range { IsErr result ↔ (length self.old ≤ place) }
        ensures err { OnErr result (self.new ≡ self.old) }
    {
        let at = find_item(self.blocks.as_slice(), self.groups.as_slice(), place)?;
        flip_at(&mut self.blocks, &mut self.groups, at, full);
        Ok(())
    }
}

impl Copied for ChunkRow {
    fn copy(&self, alloc: Global) -> Result<Self, AllocError> {
        let blocks = copy_blocks(alloc, self.blocks.as_slice())?;
        let mut groups = Vec::new(alloc);
        fill(&mut groups, blocks.as_slice());
        Ok(ChunkRow {
            blocks,
            groups,
            total: self.total,
        })
    }
}
