//! The final numbers that a log gives to ids, up to a reference.
ghost use Rattle.std.specs.Prelude.{◌≡◌, ◌≤◌, ◌<◌, ◌+◌, ◌^◌, ◌++◌, true, ℕ, Some, Ok, List as Seq, length, slice_get, take, OnOk};
ghost use Rattle.serde_json.specs.Written.{compact_text};
ghost use Rattle.st_clusters.specs.Ids.{ids_of};
ghost use Rattle.st_clusters.specs.Log.{IsTableOf};
ghost use Rattle.st_clusters.specs.Table.{after_finalising, after_joining, is_next, session_of};
ghost use Rattle.st_clusters.specs.declared.ids.IdRange.{IdRange as Range};
ghost use Rattle.st_clusters.specs.declared.ids.SessionIds.{SessionIds};
ghost use Rattle.st_change_writer.specs.Told.{change_data};
ghost use Rattle.st_lists.specs.declared.lists.Entry.{Entry as Logged};
ghost use Rattle.st_texts.specs.Names.{names_seen};
ghost use Rattle.st_valid.specs.Author.{generated_with};
ghost use Rattle.st_entry_texts.specs.Numbered.{AreStandIns, HasFewIds, IsNumberedTo, IsRangeAt, stand_in};

use st_change_writer::push_change;
use st_clusters::{At, Compressor, IdRange, uuid_of};
use st_ids::{List, Or, Text};
use st_lists::{Body, Entry};
use st_mark_reader::OpNames;
use st_marks::Change;
use std::alloc::{AllocError, Global};

/// The final numbers that the first entries of a log give to ids, so many of them.
#[derive(Drop)]
pub struct Numbers {
    pub(crate) ids: Compressor,
    pub(crate) read: u32,
}

// One more session joins, by a UUID that stands in for its own.
fn add_session(alloc: Global, ids: &mut Compressor) -> Result<(), AllocError>
    requires few { length (ids_of ids.old).sessions < 65535 }
    requires stand_ins { AreStandIns (ids_of ids.old).sessions }
    ensures { OnOk result ((n : ℕ) × (after_joining (stand_in (length (ids_of ids.old).sessions + 1)) (ids_of ids.old) ≡ Ok (n, ids_of ids.new))) }
{
    let uuid = uuid_of((ids.sessions().len() as u128 + 1) * (1 << 64));
    match ids.add_session(alloc, uuid) {
        Ok(_) => Ok(()),
        Err(Or::NoMemory) => Err(AllocError),
        Err(Or::Fault(_)) => unreachable!(),
    }
}

// All sessions up to one join.
fn add_sessions(alloc: Global, ids: &mut Compressor, session: u32) -> Result<(), AllocError>
    requires few { session ≤ 65535 }
    requires stand_ins { AreStandIns (ids_of ids.old).sessions }
    ensures there { OnOk result (session ≤ length (ids_of ids.new).sessions) }
    ensures stand_ins { OnOk result (AreStandIns (ids_of ids.new).sessions) }
    ensures table { OnOk result ((rs : Seq Range) → IsTableOf rs (ids_of ids.old) → IsTableOf rs (ids_of ids.new)) }
{
    'joining: while ids.sessions().len() < session as usize {
        add_session(alloc, ids)?;
    }
    Ok(())
}

// The next range of a session is finalised.
fn finalize(ids: &mut Compressor, range: IdRange) -> Result<(), AllocError>
    requires { (x : SessionIds) × (session_of (ids_of ids.old).sessions range.session ≡ Some x) × (is_next range x ≡ true) }
    ensures { OnOk result (after_finalising range (ids_of ids.old) ≡ Ok (ids_of ids.new)) }
{
    match ids.finalize(range) {
        Ok(()) => Ok(()),
        Err(Or::NoMemory) => Err(AllocError),
        Err(Or::Fault(_)) => unreachable!(),
    }
}

impl Numbers {
    /// Those that no entry gives.
    pub fn new(alloc: Global) -> Numbers
        ensures { (log : Seq Logged) → IsNumberedTo log 0 result }
    {
        Numbers {
            ids: Compressor::new(alloc),
            read: 0,
        }
    }

    /// How many entries were read.
    pub fn read(&self) -> u32
        ensures { result ≡ self.now.read }
    {
        self.read
    }

    // Adds the range of the next entry, if it has one.
    fn read_range(&mut self, alloc: Global, log: &[Entry], range: IdRange) -> Result<(), AllocError>
        requires numbered { IsNumberedTo log.now self.old.read self.old }
        requires next { IsRangeAt log.now self.old.read range }
        requires few { HasFewIds log.now }
        requires short { length log.now < 2 ^ 32 }
        ensures { OnOk result (IsNumberedTo log.now (self.old.read + 1) self.new) }
    {
        add_sessions(alloc, &mut self.ids, range.session)?;
        finalize(&mut self.ids, range)?;
        self.read += 1;
        Ok(())
    }

    // Reads the next entry.
    fn read_one(&mut self, alloc: Global, log: &[Entry], entry: &Entry) -> Result<(), AllocError>
        requires numbered { IsNumberedTo log.now self.old.read self.old }
        requires next { slice_get log.now self.old.read ≡ Some entry.now }
        requires few { HasFewIds log.now }
        requires short { length log.now < 2 ^ 32 }
        ensures { OnOk result (IsNumberedTo log.now (self.old.read + 1) self.new) }
    {
        match &entry.body {
            Body::Join { .. } | Body::Leave | Body::Ack { .. } => {
                self.read += 1;
                Ok(())
            }
            Body::Commit { ids, .. } => self.read_range(alloc, log, *ids),
        }
    }

    /// Reads on to a reference. After an `Err` nothing is promised of the value.
    pub fn read_to(
        &mut self,
        alloc: Global,
        log: &[Entry],
        reference: u32,
    ) -> Result<(), AllocError>
        requires numbered { IsNumberedTo log.now self.old.read self.old }
        requires on { self.old.read ≤ reference }
        requires within { reference ≤ length log.now }
        requires short { length log.now < 2 ^ 32 }
        requires few { HasFewIds log.now }
        ensures { OnOk result (IsNumberedTo log.now reference self.new) }
    {
        'reading: while self.read < reference {
            let Some(entry) = log.get(self.read as usize) else {
                unreachable!();
            };
            self.read_one(alloc, log, entry)?;
        }
        Ok(())
    }

    /// Writes a change as the author of a message told it who had read the same entries, with the ids that the message carries.
    pub fn push_change(
        &self,
        alloc: Global,
        out: &mut Text,
        session: u32,
        ids: IdRange,
        change: &Change,
    ) -> Result<(), AllocError>
        ensures { OnOk result ((log : Seq Logged) (reference : ℕ) → IsNumberedTo log reference self.now
            → out.new ≡ out.old ++ compact_text (change_data (names_seen log session reference ids) change.now)) }
    {
        let later = List::new(alloc);
        let names = OpNames(At {
            ids: &self.ids,
            own: session,
            have: generated_with(ids),
            later: &later,
        });
        push_change(alloc, out, change, &names)?;
        Ok(())
    }
}

// How many ids the author had generated.
fn generated_with(ids: IdRange) -> u32
    ensures { result ≡ generated_with ids }
{
    let last = u64::from(ids.first) + u64::from(ids.count);
    last.saturating_sub(1).min(u64::from(u32::MAX)) as u32
}
