//! The table of ids as running code.
ghost use Rattle.std.specs.Prelude.{◌≡◌, ◌≤◌, ◌<◌, ◌+◌, ◌-◌, Ok, Err, None, true, length, vec_len, [], ◌∷◌, ◌++◌, MatchOption, IfOk, IfErr, OnOk, OnErr, slice_get, option_map, option_copied};
ghost use Rattle.std.specs.List.{insert};
ghost use Rattle.st_ids.specs.Or.{IfRefused};
ghost use Rattle.st_clusters.specs.Free.{is_v4};
ghost use Rattle.st_clusters.specs.Table.{is_next, raise_to, new_session};
ghost use Rattle.st_clusters.specs.inside.Kept.{IsSound, AreInOrder};

use crate::cluster::put_range;
use crate::free::{free_number, is_v4};
use crate::ids::{Cluster, IdFault, IdRange, SessionIds};
use st_ids::{List, Or};
use std::alloc::{AllocError, Global};

/// How many ids a session can have.
const MOST_IDS: u32 = 4_294_967_294;

/// The sessions, the ids that each has generated, and the clusters that give final numbers. Beside
/// the clusters it keeps the places of each session's, and beside the sessions their places in the
/// order in which their spans begin, so that an id, a number and a UUID are found by halving.
#[derive(Drop)]
pub struct Compressor {
    pub(crate) sessions: Vec<SessionIds>,
    pub(crate) clusters: Vec<Cluster>,
    pub(crate) places: Vec<List<usize>>,
    pub(crate) order: Vec<usize>,
    ghost sound: { IsSound sessions.items clusters.items places.items },
    ghost in_order: { AreInOrder sessions.items order.items },
}

impl Compressor {
    ghost use Rattle.st_clusters.specs.Table.{session_of, after_generating, after_taking, after_rewinding, after_finalising, after_joining, clash};
    ghost use Rattle.st_clusters.specs.Ids.{ids_of};

    /// A table of no sessions.
    pub fn new(alloc: Global) -> Compressor
        ensures { ids_of result ≡ record { sessions = []; clusters = [] } }
    {
        Compressor {
            sessions: Vec::new(alloc),
            clusters: Vec::new(alloc),
            places: Vec::new(alloc),
            order: Vec::new(alloc),
        }
    }

    /// The first session whose span of 2^32 stable ids meets that of a UUID.
    pub fn clash(&self, uuid: u128) -> Option<u32>
        ensures { result ≡ clash uuid (ids_of self.now).sessions }
    {
        let place = self.session_meeting(uuid)?;
        Some(place as u32 + 1)
    }

    // Why a session with that UUID can't join, if it can't.
    fn refusal(&self, uuid: u128) -> Option<IdFault>
        ensures { MatchOption result
            ((is_v4 uuid ≡ true) × (clash uuid self.now.sessions.items ≡ None))
            (λ f. after_joining uuid (ids_of self.now) ≡ Err f) }
    {
        if !is_v4(uuid) {
            return Some(IdFault::NotV4);
        }
        let session = self.clash(uuid)?;
        Some(IdFault::Clash { session })
    }

    /// A session with that UUID joins: it gets the next number, from 1 on. After an `Err` nothing
    /// has changed.
    pub fn add_session(&mut self, alloc: Global, uuid: u128) -> Result<u32, Or<IdFault>>
        requires { length (ids_of self.old).sessions < 65535 }
        ensures ok { IfOk result (λ s. after_joining uuid (ids_of self.old)
            ≡ Ok (s, ids_of self.new)) }
        ensures refused { IfRefused result (λ f. after_joining uuid (ids_of self.old) ≡ Err f) }
        ensures err { OnErr result (ids_of self.new ≡ ids_of self.old) }
        ensures count { OnOk result (length (ids_of self.new).sessions
            ≡ length (ids_of self.old).sessions + 1) }
    {
        if let Some(fault) = self.refusal(uuid) {
            return Err(Or::Fault(fault));
        }
        let before = self.count_before(free_number(uuid));
        self.sessions.reserve(1)?;
        add_place(alloc, &mut self.places, &mut self.order, before)?;
        self.sessions.push_reserved(new_session(uuid));
        Ok(self.sessions.len() as u32)
    }

    // The place of a session among the others.
    pub(crate) fn place_of(&self, session: u32) -> Option<usize>
        ensures { MatchOption result (session_of self.now.sessions.items session ≡ None)
            (λ i. (session ≡ i + 1) × (i < length self.now.sessions.items)) }
    {
        let place = (session as usize).checked_sub(1)?;
        if place < self.sessions.len() {
            Some(place)
        } else {
            None
        }
    }

    /// Gives a session one more id, and tells its number.
    pub fn generate(&mut self, session: u32) -> Result<u32, IdFault>
        ensures ok { IfOk result (λ n. after_generating session (ids_of self.old)
            ≡ Ok (n, ids_of self.new)) }
        ensures refused { IfErr result (λ f. after_generating session (ids_of self.old) ≡ Err f) }
        ensures err { OnErr result (ids_of self.new ≡ ids_of self.old) }
        ensures count { length (ids_of self.new).sessions ≡ length (ids_of self.old).sessions }
    {
        let Some(place) = self.place_of(session) else {
            return Err(IdFault::Session);
        };
        let ids = self.sessions[place];
        if ids.generated >= MOST_IDS {
            return Err(IdFault::Full);
        }
        let generated = ids.generated + 1;
        self.sessions[place] = SessionIds { generated, ..ids };
        Ok(generated)
    }

    /// Takes the ids that a session generated and that weren't taken yet.
    pub fn take_range(&mut self, session: u32) -> Result<IdRange, IdFault>
        ensures ok { IfOk result (λ r. after_taking session (ids_of self.old)
            ≡ Ok (r, ids_of self.new)) }
        ensures refused { IfErr result (λ f. after_taking session (ids_of self.old) ≡ Err f) }
        ensures err { OnErr result (ids_of self.new ≡ ids_of self.old) }
        ensures count { length (ids_of self.new).sessions ≡ length (ids_of self.old).sessions }
    {
        let Some(place) = self.place_of(session) else {
            return Err(IdFault::Session);
        };
        let ids = self.sessions[place];
        let taken = ids.generated;
        self.sessions[place] = SessionIds { taken, ..ids };
        Ok(IdRange {
            session,
            first: ids.taken + 1,
            count: taken - ids.taken,
        })
    }

    /// Gives the ids that a session took and that aren't finalised back, to be taken again.
    pub fn rewind(&mut self, session: u32) -> Result<(), IdFault>
        ensures ok { IfOk result (λ _. after_rewinding session (ids_of self.old)
            ≡ Ok (ids_of self.new)) }
        ensures refused { IfErr result (λ f. after_rewinding session (ids_of self.old) ≡ Err f) }
        ensures err { OnErr result (ids_of self.new ≡ ids_of self.old) }
        ensures count { length (ids_of self.new).sessions ≡ length (ids_of self.old).sessions }
    {
        let Some(place) = self.place_of(session) else {
            return Err(IdFault::Session);
        };
        let ids = self.sessions[place];
        let taken = ids.finalised;
        self.sessions[place] = SessionIds { taken, ..ids };
        Ok(())
    }

    /// Finalises the ids of the next range of a session. After an `Err` nothing has changed.
    pub fn finalize(&mut self, range: IdRange) -> Result<(), Or<IdFault>>
        ensures ok { OnOk result (after_finalising range (ids_of self.old)
            ≡ Ok (ids_of self.new)) }
        ensures refused { IfRefused result (λ f. after_finalising range (ids_of self.old)
            ≡ Err f) }
        ensures err { OnErr result (ids_of self.new ≡ ids_of self.old) }
        ensures count { length (ids_of self.new).sessions ≡ length (ids_of self.old).sessions }
    {
        let Some(place) = self.place_of(range.session) else {
            return Err(Or::Fault(IdFault::Session));
        };
        let ids = self.sessions[place];
        if !is_next(&range, &ids) {
            let next = ids.finalised + 1;
            return Err(Or::Fault(IdFault::RangeOrder { next }));
        }
        put_range(&mut self.clusters, &mut self.places[place], range)?;
        self.sessions[place] = raise_to(ids, ids.finalised + range.count);
        Ok(())
    }
}

// Whether a range is the next one of a session.
fn is_next(range: &IdRange, ids: &SessionIds) -> bool
    requires { ids.now.finalised ≤ 4294967294 }
    ensures { result ≡ is_next range.now ids.now }
{
    range.first == ids.finalised + 1 && range.count <= MOST_IDS - ids.finalised
}

// A session whose ids are finalised up to a number.
fn raise_to(ids: SessionIds, count: u32) -> SessionIds
    ensures { result ≡ raise_to ids count }
{
    SessionIds {
        generated: ids.generated.max(count),
        taken: ids.taken.max(count),
        finalised: count,
        ..ids
    }
}

// Puts the place of one more session into the order. The session has no clusters yet.
fn add_place(
    alloc: Global,
    places: &mut Vec<List<usize>>,
    order: &mut Vec<usize>,
    before: usize,
) -> Result<(), AllocError>
    requires { before ≤ vec_len order.old }
    ensures ok { OnOk result (places.new.items ≡ places.old.items ++ [] ∷ []) }
    ensures place { OnOk result (order.new.items
        ≡ insert order.old.items before (vec_len places.old)) }
    ensures err { OnErr result (places.new.items ≡ places.old.items) }
    ensures err_place { OnErr result (order.new.items ≡ order.old.items) }
{
    places.reserve(1)?;
    order.insert(before, places.len())?;
    places.push_reserved(List::new(alloc));
    Ok(())
}

// A session that has no ids yet.
fn new_session(uuid: u128) -> SessionIds
    ensures { result ≡ new_session uuid }
{
    SessionIds {
        uuid,
        generated: 0,
        taken: 0,
        finalised: 0,
    }
}
