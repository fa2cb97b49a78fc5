//! What is counted of the log.
ghost use Rattle.std.specs.Prelude.{◌≡◌, ℕ, List as Seq, filter, length};
ghost use Rattle.st_ids.specs.declared.names.Rev.{Rev as RevNames};
ghost use Rattle.st_lists.specs.Log.{commits_in};
ghost use Rattle.st_lists.specs.Voids.{AreVoid};
ghost use Rattle.st_lists.specs.declared.lists.WorldState.{WorldState as Lists};
ghost use Rattle.st_script.specs.Header.{HeaderView};
ghost use Rattle.st_world.specs.World.{opening_document};
ghost use Rattle.st_plain.specs.Stands.{Stands};
ghost use Rattle.st_plain.specs.inside.Counted.{came_out_void, kept_void};

use crate::world::World;
use st_ids::Rev;
use st_lists::{Body, Entry};
use st_marks::Intent;
use st_plain_undo::Logged;
use std::collections::BTreeMap;

// Whether what is kept of a commit says that it was void.
fn kept_void(logged: &BTreeMap<Rev, Logged>, intent: &Intent) -> bool
    ensures { result ≡ kept_void logged.now intent.now }
{
    logged
        .get(&intent.rev)
        .is_some_and(|kept| kept.carried.void)
}

// Whether the commit of an entry came out void; an entry without one didn't.
fn came_out_void(logged: &BTreeMap<Rev, Logged>, entry: &Entry) -> bool
    ensures { result ≡ came_out_void logged.now entry.now }
{
    match &entry.body {
        Body::Commit { intent, .. } => kept_void(logged, intent),
        _ => false,
    }
}

// How many of some entries have commits that came out void.
fn count_void(logged: &BTreeMap<Rev, Logged>, log: &[Entry]) -> usize
    ensures { result ≡ length (filter (came_out_void logged.now) log.now) }
{
    let mut count: usize = 0;
    for entry in log {
        if came_out_void(logged, entry) {
            count += 1;
        }
    }
    count
}

impl World {
    /// How many entries the log has.
    pub fn entries(&self) -> usize
        ensures { (k : ℕ) (h : HeaderView) (w : Lists) → Stands k self.now h w → result ≡ length w.log }
    {
        self.lists.log.len()
    }

    /// How many commits of the log are void where they come.
    pub fn voided(&self) -> usize
        ensures { (k : ℕ) (h : HeaderView) (w : Lists) → Stands k self.now h w
            → (void : Seq RevNames) × AreVoid (opening_document h) (commits_in w.log) void × (result ≡ length void) }
    {
        count_void(&self.logged, self.lists.log.as_slice())
    }
}
