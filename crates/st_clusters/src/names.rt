//! Final numbers, op-space numbers and stable ids.
ghost use Rattle.std.specs.Prelude.{◌≡◌, ℕ, ◌+◌, ◌-◌, ◌<◌, ◌≤◌, ◌^◌, ℤ, [], Some, None, Ok, length, slice_get, option_copied, option_map, MatchOption, MatchResult, IfOk, IfSome};
ghost use Rattle.std.specs.Option.{ok_or};
ghost use Rattle.st_clusters.specs.Table.{session_of};
ghost use Rattle.st_clusters.specs.inside.Spans.{id_at};
ghost use Rattle.st_clusters.specs.Names.{IsInTable, IsFinal, IsFinalBefore, IsOp, is_of, is_later, stable_of, nth_uuid, generated_by};
ghost use Rattle.st_ids.specs.declared.names.Rev.{Rev as RevNames};

use crate::compressor::Compressor;
use crate::free::{ahead, free_after, free_number, is_v4, uuid_of};
use crate::ids::{Cluster, IdRange, SessionIds, Unknown};
use crate::look::{final_in, id_in};
use st_ids::Rev;

// Whether an id is of a range.
fn is_of(rev: Rev, range: &IdRange) -> bool
    ensures { result ≡ is_of rev range.now }
{
    range.session == rev.session && range.first <= rev.num && rev.num - range.first < range.count
}

// Whether an id is of one of some ranges.
fn is_later(later: &[IdRange], rev: Rev) -> bool
    ensures { result ≡ is_later later.now rev }
{
    later.iter().any(|range| is_of(rev, range))
}

impl Compressor {
    ghost use Rattle.st_clusters.specs.Ids.{IsOpOf, ids_of};

    // The final number that the clusters give an id.
    fn final_of(&self, rev: Rev) -> Option<u64>
        ensures value { MatchOption result ((n : ℕ) → ¬ IsInTable self.now.clusters.items rev n)
            (λ n. IsInTable self.now.clusters.items rev n) }
        ensures bound { IfSome result (λ n. (1 ≤ n) × (n < 2 ^ 63)) }
    {
        let Some(place) = self.place_of(rev.session) else {
            return None;
        };
        final_in(self.clusters.as_slice(), self.places[place].as_slice(), rev)
    }

    // The id that has a final number in the clusters.
    fn id_of(&self, number: u64) -> Option<Rev>
        ensures { MatchOption result ((r : RevNames)
            → ¬ IsInTable self.now.clusters.items r number)
            (λ r. IsInTable self.now.clusters.items r number) }
    {
        id_in(self.clusters.as_slice(), number)
    }

    // The final number of an id, where the ids of the later ranges have none.
    fn final_before(&self, later: &[IdRange], rev: Rev) -> Option<u64>
        ensures value { MatchOption result ((n : ℕ)
            → ¬ IsFinalBefore self.now.clusters.items later.now rev n)
            (λ n. IsFinalBefore self.now.clusters.items later.now rev n) }
        ensures bound { IfSome result (λ n. n < 2 ^ 63) }
    {
        if rev.session == 0 && rev.num == 0 {
            return Some(0);
        }
        if is_later(later, rev) {
            return None;
        }
        self.final_of(rev)
    }

    // The id that has a final number, where the ids of the later ranges have none.
    fn id_before(&self, later: &[IdRange], number: u64) -> Option<Rev>
        ensures { MatchOption result ((r : RevNames)
            → ¬ IsFinalBefore self.now.clusters.items later.now r number)
            (λ r. IsFinalBefore self.now.clusters.items later.now r number) }
    {
        if number == 0 {
            return Some(Rev { session: 0, num: 0 });
        }
        let Some(rev) = self.id_of(number) else {
            return None;
        };
        if is_later(later, rev) {
            None
        } else {
            Some(rev)
        }
    }

    // The op-space number of an id, where the ids of the later ranges have no final number.
    pub(crate) fn op_before(
        &self,
        later: &[IdRange],
        own: u32,
        have: u32,
        rev: Rev,
    ) -> Result<i64, Unknown>
        ensures { MatchResult result (λ z. IsOp self.now.clusters.items later.now own have rev z)
            (λ _. (z : ℤ) → ¬ IsOp self.now.clusters.items later.now own have rev z) }
    {
        if let Some(number) = self.final_before(later, rev) {
            return Ok(number as i64);
        }
        if rev.session == own && 1 <= rev.num && rev.num <= have {
            Ok(-i64::from(rev.num))
        } else {
            Err(Unknown)
        }
    }

    // The id that has an op-space number, where the ids of the later ranges have no final number.
    pub(crate) fn id_before_op(
        &self,
        later: &[IdRange],
        own: u32,
        have: u32,
        id: i64,
    ) -> Result<Rev, Unknown>
        ensures { MatchResult result (λ r. IsOp self.now.clusters.items later.now own have r id)
            (λ _. (r : RevNames) → ¬ IsOp self.now.clusters.items later.now own have r id) }
    {
        if id >= 0 {
            return self.id_before(later, id as u64).ok_or(Unknown);
        }
        let num = id.unsigned_abs();
        if num > u64::from(have) {
            return Err(Unknown);
        }
        let rev = Rev {
            session: own,
            num: num as u32,
        };
        match self.final_before(later, rev) {
            Some(_) => Err(Unknown),
            None => Ok(rev),
        }
    }

    /// The final number of a finalised id. The opening has 0.
    pub fn to_final(&self, rev: Rev) -> Result<u64, Unknown>
        ensures ok { IfOk result (λ n. IsFinal self.now.clusters.items rev n) }
        ensures back { (n : ℕ) → IsFinal self.now.clusters.items rev n → result ≡ Ok n }
    {
        self.final_before(&[], rev).ok_or(Unknown)
    }

    /// The op-space number of an id that is finalised, or that the session `own` has generated.
    pub fn to_op(&self, own: u32, rev: Rev) -> Result<i64, Unknown>
        ensures ok { IfOk result (λ z. IsOpOf self.now own rev z) }
        ensures back { (z : ℤ) → IsOpOf self.now own rev z → result ≡ Ok z }
    {
        self.op_before(&[], own, self.generated_by(own), rev)
    }

    /// The id that has an op-space number.
    pub fn from_op(&self, own: u32, id: i64) -> Result<Rev, Unknown>
        ensures ok { IfOk result (λ r. IsOpOf self.now own r id) }
        ensures back { (r : RevNames) → IsOpOf self.now own r id → result ≡ Ok r }
    {
        self.id_before_op(&[], own, self.generated_by(own), id)
    }

    // How many ids a session has generated.
    fn generated_by(&self, session: u32) -> u32
        ensures { result ≡ generated_by (session_of self.now.sessions.items session) }
    {
        match self.place_of(session) {
            Some(place) => self.sessions[place].generated,
            None => 0,
        }
    }

    /// The stable id of an id that is generated: a UUID.
    pub fn stable(&self, rev: Rev) -> Result<u128, Unknown>
        ensures { result ≡ ok_or (stable_of (ids_of self.now).sessions rev) (record {}) }
    {
        let Some(place) = self.place_of(rev.session) else {
            return Err(Unknown);
        };
        let ids = self.sessions[place];
        if 1 <= rev.num && rev.num <= ids.generated {
            Ok(nth_uuid(&ids, rev.num))
        } else {
            Err(Unknown)
        }
    }

    /// The id that has a stable id.
    pub fn find(&self, uuid: u128) -> Result<Rev, Unknown>
        ensures ok { IfOk result (λ r. stable_of (ids_of self.now).sessions r ≡ Some uuid) }
        ensures back { (r : RevNames) → stable_of (ids_of self.now).sessions r ≡ Some uuid
            → result ≡ Ok r }
    {
        if !is_v4(uuid) {
            return Err(Unknown);
        }
        let free = free_number(uuid);
        match self.session_spanning(free) {
            Some(place) => id_at(place, &self.sessions[place], free),
            None => Err(Unknown),
        }
    }

    /// The UUID of a session.
    pub fn uuid(&self, session: u32) -> Option<u128>
        ensures { result ≡ option_map
            (λ x. x.uuid) (session_of (ids_of self.now).sessions session) }
    {
        let place = self.place_of(session)?;
        Some(self.sessions[place].uuid)
    }

    /// How many ids of a session are finalised.
    pub fn finalised_count(&self, session: u32) -> Option<u32>
        ensures { result ≡ option_map
            (λ x. x.finalised) (session_of (ids_of self.now).sessions session) }
    {
        let place = self.place_of(session)?;
        Some(self.sessions[place].finalised)
    }

    /// The clusters in order.
    pub fn clusters(&self) -> &[Cluster]
        ensures { result.now ≡ (ids_of self.now).clusters }
    {
        self.clusters.as_slice()
    }

    /// The sessions in order, of which the first has number 1.
    pub fn sessions(&self) -> &[SessionIds]
        ensures { result.now ≡ (ids_of self.now).sessions }
    {
        self.sessions.as_slice()
    }

    /// The cluster at a place of the table, counted from 0.
    pub fn cluster(&self, i: usize) -> Option<&Cluster>
        ensures { option_copied result ≡ slice_get (ids_of self.now).clusters i }
    {
        self.clusters.get(i)
    }
}

// The UUID of the n-th id of a session.
fn nth_uuid(ids: &SessionIds, n: u32) -> u128
    requires { 1 ≤ n }
    ensures { result ≡ nth_uuid ids.now n }
{
    uuid_of(free_after(free_number(ids.uuid), n - 1))
}

// The id of a free number in the span of the session at a place.
fn id_at(place: usize, ids: &SessionIds, free: u128) -> Result<Rev, Unknown>
    requires free { free < 2 ^ 122 }
    requires place { place < 65535 }
    ensures { result ≡ id_at place ids.now free }
{
    let n = ahead(free_number(ids.uuid), free);
    if n < u128::from(ids.generated) {
        let session = place as u32 + 1;
        let num = n as u32 + 1;
        Ok(Rev { session, num })
    } else {
        Err(Unknown)
    }
}
