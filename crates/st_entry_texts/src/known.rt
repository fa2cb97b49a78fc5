//! Changes that are known of commits before their texts are asked for.
ghost use Rattle.std.specs.Prelude.{◌≡◌, ◌⊎◌, None, OnOk};
ghost use Rattle.std.specs.BTreeMap.{get};
ghost use Rattle.st_ids.specs.Order.{rev_cmp};
ghost use Rattle.st_ids.specs.declared.names.Rev.{Rev as RevNames};
ghost use Rattle.st_entry_texts.specs.KnownChanges.{IsKept, told_at};
ghost use Rattle.st_entry_texts.specs.declared.known.Known.{Known as KnownOf};

use st_ids::Rev;
use st_marks::Change;
use std::alloc::{AllocError, Global};
use std::collections::BTreeMap;

/// How many changes are kept at most.
const MOST_CHANGES: usize = 512;

/// The change that a commit is where its author wrote it, at a reference.
#[derive(Drop)]
pub struct Known {
    pub reference: u32,
    pub change: Change,
}

/// The changes that are known, by the revisions of their commits: at most 512. Where one more comes, all are forgotten.
#[derive(Drop)]
pub struct KnownChanges {
    pub(crate) map: BTreeMap<Rev, Known>,
}

// The change, if it was made at a reference.
fn told_at(known: Option<Known>, reference: u32) -> Option<Change>
    ensures { result ≡ told_at reference known }
{
    let known = known?;
    if known.reference == reference {
        Some(known.change)
    } else {
        None
    }
}

impl KnownChanges {
    /// None are known.
    pub fn new(alloc: Global) -> KnownChanges
        ensures { (r : RevNames) → get rev_cmp result.map r ≡ None }
    {
        KnownChanges {
            map: BTreeMap::new(alloc),
        }
    }

    // Makes room for one more.
    fn make_room(&mut self, alloc: Global)
        ensures { (r : RevNames) (k : KnownOf) → IsKept self.new r k → IsKept self.old r k }
    {
        if self.map.len() >= MOST_CHANGES {
            self.map = BTreeMap::new(alloc);
        }
    }

    /// Takes note of the change of a commit. After an `Err` nothing is promised of the value.
    pub fn note(&mut self, alloc: Global, reference: u32, change: Change) -> Result<(), AllocError>
        ensures there { OnOk result (IsKept self.new change.rev (record { reference = reference; change = change })) }
        ensures others { OnOk result ((r : RevNames) (k : KnownOf) → IsKept self.new r k
            → (IsKept self.old r k) ⊎ ((r ≡ change.rev) × (k ≡ record { reference = reference; change = change }))) }
    {
        self.make_room(alloc);
        let rev = change.rev;
        self.map.insert(rev, Known { reference, change })?;
        Ok(())
    }

    /// Takes out the change of a revision's commit, if it is known and was made at a reference.
    pub fn take(&mut self, rev: Rev, reference: u32) -> Option<Change>
        ensures told { result ≡ told_at reference (get rev_cmp self.old.map rev) }
        ensures rest { (r : RevNames) (k : KnownOf) → IsKept self.new r k → IsKept self.old r k }
    {
        let known = self.map.remove(&rev);
        told_at(known, reference)
    }
}
