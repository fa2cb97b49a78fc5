//! Look-ups in the clusters, by halving.
ghost use Rattle.std.specs.Prelude.{◌≡◌, ℕ, ◌+◌, ◌-◌, ◌<◌, ◌≤◌, ◌^◌, ◌&&◌, nat_lt, nat_le, length, MatchOption};
ghost use Rattle.st_clusters.specs.Table.{at, next_free, places_of};
ghost use Rattle.st_clusters.specs.Names.{IsInTable, IsWithin};
ghost use Rattle.st_clusters.specs.inside.Kept.{AreApart, MayHaveId, MayHaveNumber, begins_by};
ghost use Rattle.st_ids.specs.declared.names.Rev.{Rev as RevNames};

use crate::ids::Cluster;
use st_ids::Rev;

// Whether a place has a cluster, and one that begins with that id or before.
fn begins_by(clusters: &[Cluster], num: u32, place: usize) -> bool
    ensures { result ≡ begins_by clusters.now num place }
{
    match clusters.get(place) {
        Some(cluster) => cluster.first <= num,
        None => false,
    }
}

// The final number of an id, if the cluster has it.
fn final_within(cluster: &Cluster, num: u32) -> Option<u64>
    requires begins { cluster.now.first ≤ num }
    requires fits { cluster.now.first_final + cluster.now.used < 2 ^ 64 }
    ensures { MatchOption result (cluster.now.first + cluster.now.used ≤ num)
        (λ n. (num < cluster.now.first + cluster.now.used) × (n
        ≡ cluster.now.first_final + (num - cluster.now.first))) }
{
    let ahead = num - cluster.first;
    if ahead < cluster.used {
        Some(cluster.first_final + u64::from(ahead))
    } else {
        None
    }
}

// The id that has a final number, if the cluster has it.
fn id_within(cluster: &Cluster, number: u64) -> Option<Rev>
    requires begins { cluster.now.first_final ≤ number }
    requires ids { cluster.now.first + cluster.now.used < 2 ^ 32 }
    ensures { MatchOption result (cluster.now.first_final + cluster.now.used ≤ number)
        (λ r. IsWithin cluster.now r number) }
{
    let ahead = number - cluster.first_final;
    if ahead < u64::from(cluster.used) {
        let session = cluster.session;
        let num = cluster.first + ahead as u32;
        Some(Rev { session, num })
    } else {
        None
    }
}

// The place of the one cluster that can have an id: the last of its session that begins with that
// id or before.
fn place_of_id(clusters: &[Cluster], places: &[usize], rev: Rev) -> Option<usize>
    requires apart { AreApart clusters.now }
    requires places { places.now ≡ places_of rev.session clusters.now }
    ensures { MatchOption result ((n : ℕ) → ¬ IsInTable clusters.now rev n)
        (λ i. MayHaveId clusters.now rev i) }
{
    let count = places.partition_point(|place| begins_by(clusters, rev.num, *place));
    if count == 0 {
        return None;
    }
    Some(places[count - 1])
}

// The place of the one cluster that can have a number: the last whose numbers begin with it or
// before.
fn place_of_number(clusters: &[Cluster], number: u64) -> Option<usize>
    requires apart { AreApart clusters.now }
    ensures { MatchOption result ((r : RevNames) → ¬ IsInTable clusters.now r number)
        (λ i. MayHaveNumber clusters.now number i) }
{
    let count = clusters.partition_point(|cluster| cluster.first_final <= number);
    if count == 0 {
        return None;
    }
    Some(count - 1)
}

/// The final number of an id. `places` are those of its session's clusters.
pub(crate) fn final_in(clusters: &[Cluster], places: &[usize], rev: Rev) -> Option<u64>
    requires apart { AreApart clusters.now }
    requires places { places.now ≡ places_of rev.session clusters.now }
    requires fits { next_free clusters.now < 2 ^ 63 }
    ensures { MatchOption result ((n : ℕ) → ¬ IsInTable clusters.now rev n)
        (λ n. IsInTable clusters.now rev n) }
{
    let place = place_of_id(clusters, places, rev)?;
    final_within(&clusters[place], rev.num)
}

/// The id that has a final number.
pub(crate) fn id_in(clusters: &[Cluster], number: u64) -> Option<Rev>
    requires apart { AreApart clusters.now }
    requires ids { (i : ℕ) → i < length clusters.now
        → (at clusters.now i).first + (at clusters.now i).used < 2 ^ 32 }
    ensures { MatchOption result ((r : RevNames) → ¬ IsInTable clusters.now r number)
        (λ r. IsInTable clusters.now r number) }
{
    let place = place_of_number(clusters, number)?;
    id_within(&clusters[place], number)
}
