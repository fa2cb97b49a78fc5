//! The ids that a commit carries, and its revision.
ghost use Rattle.std.specs.Prelude.{◌≡◌, ◌+◌, ◌==◌, ◌&&◌, nat_le, not, is_some, List as Seq};
ghost use Rattle.std.specs.BTreeMap.{get};
ghost use Rattle.std.specs.List.{list_any};
ghost use Rattle.st_ids.specs.Order.{rev_cmp, same_rev};
ghost use Rattle.st_clusters.specs.Table.{most_ids};
ghost use Rattle.st_ledger.specs.Stands.{StandsFor};
ghost use Rattle.st_lists.specs.Log.{commits_in};
ghost use Rattle.st_lists.specs.declared.lists.Entry.{Entry};
ghost use Rattle.st_marks.specs.declared.intents.Intent.{Intent};
ghost use Rattle.st_valid.specs.Ids.{has_new_revision, has_next_ids, ids_are_next, is_new_revision, is_next_range, revision_is_new};

use crate::ledger::Ledger;
use st_clusters::IdRange;
use st_ids::Rev;
use st_valid::{Message, Said};
use std::collections::BTreeMap;

// How many ids a session can have.
const MOST_IDS: u64 = 4294967294;

// Whether a range of a session goes on after so many ids, and passes no bound.
fn goes_on(session: u32, carried: u32, ids: IdRange) -> bool
    ensures { result ≡ (ids.session == session
        && (ids.first == carried + 1 && nat_le (carried + ids.count) most_ids)) }
{
    let next = carried as u64 + 1;
    let last = carried as u64 + ids.count as u64;
    ids.session == session && (ids.first as u64 == next && last <= MOST_IDS)
}

// Whether a revision is among those of commits.
fn is_known(revisions: &BTreeMap<Rev, u32>, rev: Rev) -> bool
    ensures { result ≡ is_some (get rev_cmp revisions.now rev) }
{
    revisions.get(&rev).is_some()
}

// Whether a revision is of a session, and not among those of commits.
fn is_new(revisions: &BTreeMap<Rev, u32>, session: u32, rev: Rev) -> bool
    ensures { result ≡ (rev.session == session && not (is_some (get rev_cmp revisions.now rev))) }
{
    rev.session == session && revisions.get(&rev).is_none()
}

impl Ledger {
    /// Whether the log has a commit of a revision.
    #[tactic(auto, using(crate::proofs::CarriedIds::commit_of_ledger))]
    pub fn has_commit(&self, rev: Rev) -> bool
        ensures { (log : Seq Entry) → StandsFor self.now log
            → result ≡ list_any (λ (N : Intent). same_rev N.rev rev) (commits_in log) }
    {
        is_known(&self.revisions, rev)
    }

    // Whether a range is the next one of a session.
    #[tactic(auto, using(crate::proofs::CarriedIds::next_of_ledger))]
    fn is_next_range(&self, session: u32, ids: IdRange) -> bool
        ensures { (log : Seq Entry) → StandsFor self.now log
            → result ≡ is_next_range log session ids }
    {
        let carried = self.carried(session);
        goes_on(session, carried, ids)
    }

    // Whether a revision is of a session, and that of no commit yet.
    #[tactic(auto, using(crate::proofs::CarriedIds::revision_of_ledger))]
    fn is_new_revision(&self, session: u32, rev: Rev) -> bool
        ensures { (log : Seq Entry) → StandsFor self.now log
            → result ≡ is_new_revision log session rev }
    {
        is_new(&self.revisions, session, rev)
    }

    // Whether what a session says carries its next ids, with names that all have ids.
    fn ids_are_next(&self, session: u32, said: &Said) -> bool
        ensures { (log : Seq Entry) → StandsFor self.now log
            → result ≡ ids_are_next log session said.now }
    {
        match said {
            Said::Commit { ids, change, .. } => {
                self.is_next_range(session, *ids) && change.is_some()
            }
            Said::Join { .. } => true,
            Said::Leave => true,
            Said::Ack { .. } => true,
        }
    }

    // Whether what a session says has a new revision.
    fn revision_is_new(&self, session: u32, said: &Said) -> bool
        ensures { (log : Seq Entry) → StandsFor self.now log
            → result ≡ revision_is_new log session said.now }
    {
        match said {
            Said::Commit { change, .. } => match change {
                Some(change) => self.is_new_revision(session, change.rev),
                None => false,
            },
            Said::Join { .. } => true,
            Said::Leave => true,
            Said::Ack { .. } => true,
        }
    }

    /// Whether a message carries the next ids of its session, and each name of its change has an id.
    pub fn has_next_ids(&self, message: &Message) -> bool
        ensures { (log : Seq Entry) → StandsFor self.now log
            → result ≡ has_next_ids log message.now }
    {
        self.ids_are_next(message.session, &message.said)
    }

    /// Whether the revision of a message's change is of its session and new.
    pub fn has_new_revision(&self, message: &Message) -> bool
        ensures { (log : Seq Entry) → StandsFor self.now log
            → result ≡ has_new_revision log message.now }
    {
        self.revision_is_new(message.session, &message.said)
    }
}
