//! A block of neighbouring slots, with a count of the full ones.
ghost use Rattle.std.specs.Prelude.{◌≡◌, ◌<◌, ◌≤◌, ◌+◌, ◌^◌, length, insert, IfOk, OnOk, OnErr, option_copied};
ghost use Rattle.st_chunks.specs.Slots.{count_full, one_if, with_full};

use st_ids::Copied;
use st_marks::Slot;
use std::alloc::{AllocError, Global};
use std::marker::Model;

/// Some neighbouring slots. Contracts see them as a list.
#[derive(Drop)]
pub struct Block {
    slots: Vec<Slot>,
    full: u32,
}

impl Model for Block {
    ghost use Rattle.std.specs.Prelude.{◌≡◌, List as Seq};
    ghost use Rattle.st_chunks.specs.Slots.{count_full as counted};
    ghost use Rattle.st_marks.specs.declared.places.Slot.{Slot as AnySlot};

    ghost Value = { Seq AnySlot };

    ghost view = { λ b. b.slots.items };

    ghost invariant = { λ b. b.full ≡ counted b.slots.items };
}

/// One, or nothing.
pub fn one_if(full: bool) -> u32
    ensures { result ≡ one_if full }
{
    if full { 1 } else { 0 }
}

// How many slots are full.
fn count(slots: &[Slot]) -> u32
    requires { length slots.now < 2 ^ 32 }
    ensures { result ≡ count_full slots.now }
{
    let mut full = 0;
    for slot in slots {
        full += one_if(slot.full);
    }
    full
}

impl Block {
    /// A block of these slots.
    pub fn of(slots: Vec<Slot>) -> Block
        requires { length slots.items < 2 ^ 32 }
        ensures { result ≡ slots.items }
    {
        let full = count(slots.as_slice());
        Block { slots, full }
    }

    /// The slots.
    pub fn as_slice(&self) -> &[Slot]
        ensures { result.now ≡ self.now }
    {
        self.slots.as_slice()
    }

    /// How many slots there are.
    #[inline(always)]
    pub fn len(&self) -> usize
        ensures { result ≡ length self.now }
    {
        self.slots.len()
    }

    /// How many of them are full.
    #[inline(always)]
    pub fn full_len(&self) -> u32
        ensures { result ≡ count_full self.now }
    {
        self.full
    }

    /// Puts a slot behind so many. After an `Err` nothing has changed.
    pub fn insert(&mut self, offset: usize, slot: Slot) -> Result<(), AllocError>
        requires within { offset ≤ length self.old }
        requires room { length self.old + 1 < 2 ^ 32 }
        ensures ok { OnOk result (self.new ≡ insert self.old offset slot) }
        ensures err { OnErr result (self.new ≡ self.old) }
    {
        self.slots.insert(offset, slot)?;
        self.full += one_if(slot.full);
        Ok(())
    }

    /// Makes a slot full or not.
    pub fn flip(&mut self, offset: usize, full: bool)
        requires within { offset < length self.old }
        requires room { length self.old < 2 ^ 32 }
        ensures { self.new ≡ with_full self.old offset full }
    {
        let was = self.slots[offset].full;
        self.slots[offset].full = full;
        self.full = self.full - one_if(was) + one_if(full);
    }
}

impl Copied for Block {
    fn copy(&self, alloc: Global) -> Result<Self, AllocError> {
        let slots = Vec::from_slice(alloc, self.as_slice())?;
        Ok(Block {
            slots,
            full: self.full,
        })
    }
}

/// Equal blocks.
pub fn copy_blocks(alloc: Global, blocks: &[Block]) -> Result<Vec<Block>, AllocError>
    ensures { IfOk result (λ copies. copies.items ≡ blocks.now) }
{
    let mut copies = Vec::new(alloc);
    for block in blocks {
        copies.push(block.copy(alloc)?)?;
    }
    Ok(copies)
}
