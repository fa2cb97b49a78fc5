//! What is kept of a log, so that a message can be tested beside it without a document.
ghost use Rattle.std.specs.List.{list_any};
ghost use Rattle.std.specs.Prelude.{◌≡◌, ◌==◌, ℕ, List as Seq, [], is_some};
ghost use Rattle.st_ledger.specs.Stands.{StandsFor};
ghost use Rattle.st_clusters.specs.Ids.{ids_of};
ghost use Rattle.st_clusters.specs.Log.{IsTableOf};
ghost use Rattle.st_lists.specs.Log.{is_connected, known_reference, ranges_in};
ghost use Rattle.st_lists.specs.declared.lists.Entry.{Entry};
ghost use Rattle.st_valid.specs.Ids.{carried_in};

use st_clusters::Compressor;
use st_ids::{List, Rev};
use std::alloc::Global;
use std::collections::BTreeMap;

/// Numbers and names of a log: how many entries it has, the ids and UUIDs of its sessions, which sessions are connected,
/// which reference is known of each, how many names its commits make, and which entry has the commit of a revision.
#[derive(Drop)]
pub struct Ledger {
    pub(crate) entries: u32,
    pub(crate) ids: Compressor,
    pub(crate) connected: List<u32>,
    pub(crate) known: BTreeMap<u32, u32>,
    pub(crate) names: u32,
    pub(crate) revisions: BTreeMap<Rev, u32>,
}

// Whether a session is among some.
fn is_listed(sessions: &[u32], session: u32) -> bool
    ensures { result ≡ list_any (λ s. s == session) sessions.now }
{
    sessions.iter().any(|one| *one == session)
}

impl Ledger {
    /// That of the empty log.
    pub fn new(alloc: Global) -> Ledger
        ensures { StandsFor result [] }
    {
        Ledger {
            entries: 0,
            ids: Compressor::new(alloc),
            connected: List::new(alloc),
            known: BTreeMap::new(alloc),
            names: 0,
            revisions: BTreeMap::new(alloc),
        }
    }

    /// The table of the log's ids.
    pub fn ids(&self) -> &Compressor
        ensures { (log : Seq Entry) → StandsFor self.now log
            → IsTableOf (ranges_in log) (ids_of result.now) }
    {
        &self.ids
    }

    #[tactic(auto, using(crate::proofs::CarriedIds::connected_of_ledger))]
    /// Whether a session is connected. There are 64 such sessions at most in a log of valid messages.
    pub fn is_connected(&self, session: u32) -> bool
        ensures { (log : Seq Entry) → StandsFor self.now log → result ≡ is_connected session log }
    {
        is_listed(self.connected.as_slice(), session)
    }

    /// The known reference of a session, 0 before its first entry.
    pub fn known_reference(&self, session: u32) -> u32
        ensures { (log : Seq Entry) → StandsFor self.now log
            → result ≡ known_reference session log }
    {
        self.known.get(&session).copied().unwrap_or(0)
    }

    #[tactic(auto, using(crate::proofs::CarriedIds::carried_of_ledger))]
    /// How many ids of a session the log carries.
    pub fn carried(&self, session: u32) -> u32
        ensures { (log : Seq Entry) → StandsFor self.now log → result ≡ carried_in log session }
    {
        self.ids.finalised_count(session).unwrap_or(0)
    }
}
