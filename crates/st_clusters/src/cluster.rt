//! Clusters, and how the ids of a range go into them.
ghost use Rattle.std.specs.Prelude.{◌≡◌, ◌≢◌, ℕ, ◌+◌, ◌-◌, ◌*◌, ◌<◌, ◌≤◌, ◌^◌, [], ◌∷◌, ◌++◌, length, vec_len, OnOk, OnErr};
ghost use Rattle.st_clusters.specs.Table.{at, room, next_free, new_cluster, put_at, with_range, places_of};
ghost use Rattle.st_clusters.specs.inside.Kept.{AreApart, IsLastOf};

use crate::ids::{Cluster, IdRange};
use st_ids::List;
use std::alloc::AllocError;

/// The least that a cluster begins with or grows by.
const GROWTH: u64 = 512;

/// How many more ids a cluster takes.
fn room(cluster: &Cluster) -> u64
    requires { cluster.now.used ≤ cluster.now.capacity }
    ensures { result ≡ room cluster.now }
{
    cluster.capacity - u64::from(cluster.used)
}

/// The first number after the last cluster.
fn next_free(clusters: &[Cluster]) -> u64
    requires { next_free clusters.now < 2 ^ 63 }
    ensures { result ≡ next_free clusters.now }
{
    match clusters.last() {
        Some(last) => last.first_final + last.capacity,
        None => 1,
    }
}

/// A new cluster behind the others, for some ids of a session.
fn new_cluster(clusters: &[Cluster], session: u32, first: u32, count: u32) -> Cluster
    requires { next_free clusters.now < 2 ^ 63 }
    ensures { result ≡ new_cluster clusters.now session first count }
{
    Cluster {
        session,
        first,
        first_final: next_free(clusters),
        capacity: GROWTH.max(u64::from(count)),
        used: count,
    }
}

/// Puts a cluster behind the others, and its place behind those of its session.
fn begin(
    clusters: &mut Vec<Cluster>,
    places: &mut List<usize>,
    cluster: Cluster,
) -> Result<(), AllocError>
    ensures ok { OnOk result (clusters.new.items ≡ clusters.old.items ++ cluster ∷ []) }
    ensures place { OnOk result (places.new ≡ places.old ++ vec_len clusters.old ∷ []) }
    ensures err { OnErr result (clusters.new.items ≡ clusters.old.items) }
    ensures err_place { OnErr result (places.new ≡ places.old) }
{
    clusters.reserve(1)?;
    places.push(clusters.len())?;
    clusters.push_reserved(cluster);
    Ok(())
}

/// Puts the ids of a range into the last cluster of its session, and behind the others what has
/// no room there.
fn put_at(
    clusters: &mut Vec<Cluster>,
    places: &mut List<usize>,
    range: IdRange,
    place: usize,
) -> Result<(), AllocError>
    requires apart { AreApart clusters.old.items }
    requires there { place < vec_len clusters.old }
    requires own { (at clusters.old.items place).session ≡ range.session }
    requires numbers { next_free clusters.old.items + 512 * range.count < 2 ^ 63 }
    requires ids { (at clusters.old.items place).first + (at clusters.old.items place).used +
        range.count < 2 ^ 32 }
    requires range_ids { range.first + range.count < 2 ^ 32 }
    ensures ok { OnOk result (clusters.new.items ≡ put_at range clusters.old.items place) }
    ensures places { OnOk result (places.old ≡ places_of range.session clusters.old.items
        → places.new ≡ places_of range.session clusters.new.items) }
    ensures err { OnErr result (clusters.new.items ≡ clusters.old.items) }
    ensures err_places { OnErr result (places.new ≡ places.old) }
{
    let last = clusters[place];
    let room = room(&last);
    if u64::from(range.count) <= room {
        let used = last.used + range.count;
        clusters[place] = Cluster { used, ..last };
        return Ok(());
    }
    if place + 1 == clusters.len() {
        let used = last.used + range.count;
        let capacity = last.capacity + GROWTH.max(u64::from(range.count) - room);
        clusters[place] = Cluster {
            used,
            capacity,
            ..last
        };
        return Ok(());
    }
    let room = room as u32;
    let next = new_cluster(
        clusters.as_slice(),
        range.session,
        range.first + room,
        range.count - room,
    );
    begin(clusters, places, next)?;
    let used = last.used + room;
    clusters[place] = Cluster { used, ..last };
    Ok(())
}

/// Puts the ids of a range into the clusters. `places` are those of its session's.
pub(crate) fn put_range(
    clusters: &mut Vec<Cluster>,
    places: &mut List<usize>,
    range: IdRange,
) -> Result<(), AllocError>
    requires apart { AreApart clusters.old.items }
    requires places { places.old ≡ places_of range.session clusters.old.items }
    requires numbers { next_free clusters.old.items + 512 * range.count < 2 ^ 63 }
    requires ids { (i : ℕ) → i < vec_len clusters.old → (at clusters.old.items i).session
        ≡ range.session
        → (at clusters.old.items i).first + (at clusters.old.items i).used ≤ range.first }
    requires range_ids { range.first + range.count < 2 ^ 32 }
    ensures ok { OnOk result (clusters.new.items ≡ with_range range clusters.old.items) }
    ensures places { OnOk result (places.new ≡ places_of range.session clusters.new.items) }
    ensures err { OnErr result (clusters.new.items ≡ clusters.old.items) }
    ensures err_places { OnErr result (places.new ≡ places.old) }
{
    if range.count == 0 {
        return Ok(());
    }
    match places.as_slice().last().copied() {
        Some(place) => put_at(clusters, places, range, place),
        None => {
            let first = new_cluster(clusters.as_slice(), range.session, range.first, range.count);
            begin(clusters, places, first)
        }
    }
}
