//! The table of ids that a value is.
ghost use Rattle.std.specs.Prelude.{◌≡◌, ◌↔◌, ◌≤◌, true, Some, None, IfOk, OnOk, option_map};
ghost use Rattle.serde_json.specs.View.{view, items_view, members_view};
ghost use Rattle.st_clusters.specs.Ids.{ids_of};
ghost use Rattle.st_clusters.specs.Table.{Ids};
ghost use Rattle.st_ids.specs.Or.{IfRefused};
ghost use Rattle.st_idcodec.specs.inside.Reading.{same, cluster_of_numbers, cluster_in, cluster_of, clusters_of, with_text, uuid_of_text, uuid_of, both_items, items_in, table_items, after_uuid, after_uuid_value, after_uuids, part, front_of, rest_of, after_range, after_cluster, after_clusters, led_to, IsRead};
ghost use Rattle.st_idcodec.specs.TableText.{uuid_text, table_data};
ghost use Rattle.st_clusters.specs.Reached.{no_ids};
ghost use Rattle.st_idcodec.specs.Tables.{IsTable};

use crate::names::place_number;
use crate::uuids::parsed_uuid;
use serde_json::{Map, Value};
use st_clusters::{Cluster, Compressor, IdRange};
use st_ids::Or;
use st_json::{Shape, number};
use std::alloc::Global;
use uuid::Uuid;

// The cluster of five numbers.
fn cluster_of_numbers(
    session: &Value,
    first: &Value,
    first_final: &Value,
    capacity: &Value,
    used: &Value,
) -> Option<Cluster>
    ensures { result ≡ cluster_of_numbers (view session.now) (view first.now)
        (view first_final.now) (view capacity.now) (view used.now) }
{
    let session = place_number(session)?;
    let first = place_number(first)?;
    let first_final = number(first_final).ok()?;
    let capacity = number(capacity).ok()?;
    let used = place_number(used)?;
    Some(Cluster {
        session,
        first,
        first_final,
        capacity,
        used,
    })
}

// The cluster of five values, where there are no others.
fn cluster_in(values: &[Value]) -> Option<Cluster>
    ensures { result ≡ cluster_in (items_view values.now) }
{
    match values {
        [session, first, first_final, capacity, used] => {
            cluster_of_numbers(session, first, first_final, capacity, used)
        }
        _ => None,
    }
}

// The cluster that a value is.
fn cluster_of(value: &Value) -> Option<Cluster>
    ensures { result ≡ cluster_of (view value.now) }
{
    cluster_in(value.as_array()?.as_slice())
}

// The clusters that values are.
fn clusters_of(alloc: Global, values: &[Value]) -> Result<Vec<Cluster>, Or<Shape>>
    ensures ok { IfOk result (λ cs. clusters_of (items_view values.now) ≡ Some cs.items) }
    ensures refused { IfRefused result (λ _. clusters_of (items_view values.now) ≡ None) }
{
    let mut clusters = Vec::new(alloc);
    for value in values {
        let Some(cluster) = cluster_of(value) else {
            return Err(Or::Fault(Shape));
        };
        clusters.push(cluster)?;
    }
    Ok(clusters)
}

// Whether a text is that of a UUID in lower case with hyphens.
fn is_text(uuid: u128, text: &str) -> bool
    ensures { result ≡ same (uuid_text uuid) text.now }
{
    let mut buffer = Uuid::encode_buffer();
    let written = Uuid::from_u128(uuid).hyphenated().encode_lower(&mut buffer);
    let written: &str = written;
    written == text
}

// The number of a UUID, where a text is its text.
fn with_text(text: &str, uuid: u128) -> Option<u128>
    ensures { result ≡ with_text text.now uuid }
{
    if is_text(uuid, text) {
        Some(uuid)
    } else {
        None
    }
}

// The number of the UUID whose text it is.
fn uuid_of_text(text: &str) -> Option<u128>
    ensures { result ≡ uuid_of_text text.now }
{
    with_text(text, parsed_uuid(text)?.as_u128())
}

// The number of the UUID that a value is.
fn uuid_of(value: &Value) -> Option<u128>
    ensures { result ≡ uuid_of (view value.now) }
{
    uuid_of_text(value.as_str()?)
}

// The items of two values.
fn both_items<'a>(first: &'a Value, second: &'a Value) -> Option<(&'a [Value], &'a [Value])>
    ensures { option_map (λ p. (items_view p.0.now, items_view p.1.now)) result
        ≡ both_items (view first.now) (view second.now) }
{
    let first = first.as_array()?.as_slice();
    let second = second.as_array()?.as_slice();
    Some((first, second))
}

// The items of the clusters and of the UUIDs, where there are no other members.
fn items_in(members: &Map<String, Value>) -> Option<(&[Value], &[Value])>
    ensures { option_map (λ p. (items_view p.0.now, items_view p.1.now)) result
        ≡ items_in (members_view members.now.entries) }
{
    let mut members = members.iter();
    let (one, clusters) = members.next()?;
    let (other, uuids) = members.next()?;
    if members.next().is_none() && one.as_str() == "clusters" && other.as_str() == "uuids" {
        both_items(clusters, uuids)
    } else {
        None
    }
}

// The same of a value.
fn table_items(value: &Value) -> Option<(&[Value], &[Value])>
    ensures { option_map (λ p. (items_view p.0.now, items_view p.1.now)) result
        ≡ table_items (view value.now) }
{
    items_in(value.as_object()?)
}

// A session joins with a UUID.
fn join_uuid(alloc: Global, ids: &mut Compressor, uuid: u128) -> Result<(), Or<Shape>>
    ensures ok { OnOk result (after_uuid uuid (ids_of ids.old) ≡ Some (ids_of ids.new)) }
    ensures refused { IfRefused result (λ _. after_uuid uuid (ids_of ids.old) ≡ None) }
{
    if ids.sessions().len() >= 65535 {
        return Err(Or::Fault(Shape));
    }
    match ids.add_session(alloc, uuid) {
        Ok(_) => Ok(()),
        Err(Or::Fault(_)) => Err(Or::Fault(Shape)),
        Err(Or::NoMemory) => Err(Or::NoMemory),
    }
}

// A session joins with the UUID that a value is.
fn join(alloc: Global, ids: &mut Compressor, value: &Value) -> Result<(), Or<Shape>>
    ensures ok { OnOk result (after_uuid_value (view value.now) (ids_of ids.old)
        ≡ Some (ids_of ids.new)) }
    ensures refused { IfRefused result (λ _. after_uuid_value (view value.now) (ids_of ids.old)
        ≡ None) }
{
    match uuid_of(value) {
        Some(uuid) => join_uuid(alloc, ids, uuid),
        None => Err(Or::Fault(Shape)),
    }
}

// The sessions join.
fn join_all(alloc: Global, ids: &mut Compressor, values: &[Value]) -> Result<(), Or<Shape>>
    ensures ok { OnOk result (after_uuids (items_view values.now) (ids_of ids.old)
        ≡ Some (ids_of ids.new)) }
    ensures refused { IfRefused result (λ _. after_uuids (items_view values.now) (ids_of ids.old)
        ≡ None) }
{
    for value in values {
        join(alloc, ids, value)?;
    }
    Ok(())
}

// How many ids the first range of a cluster has.
fn part(cluster: &Cluster) -> u32
    ensures value { result ≡ part cluster.now }
    ensures within { result ≤ cluster.now.used }
{
    let used = u64::from(cluster.used);
    if used == cluster.capacity {
        cluster.used
    } else {
        cluster.capacity.saturating_sub(512).min(used) as u32
    }
}

// The first of two ranges that give a cluster.
fn front_of(cluster: &Cluster) -> IdRange
    ensures { result ≡ front_of cluster.now }
{
    IdRange {
        session: cluster.session,
        first: cluster.first,
        count: part(cluster),
    }
}

// The second of them.
fn rest_of(cluster: &Cluster) -> IdRange
    ensures { result ≡ rest_of cluster.now }
{
    let part = part(cluster);
    IdRange {
        session: cluster.session,
        first: cluster.first.saturating_add(part),
        count: cluster.used - part,
    }
}

// The ids of a range are finalised.
fn put(ids: &mut Compressor, range: IdRange) -> Result<(), Or<Shape>>
    ensures ok { OnOk result (after_range range (ids_of ids.old) ≡ Some (ids_of ids.new)) }
    ensures refused { IfRefused result (λ _. after_range range (ids_of ids.old) ≡ None) }
{
    match ids.finalize(range) {
        Ok(()) => Ok(()),
        Err(Or::Fault(_)) => Err(Or::Fault(Shape)),
        Err(Or::NoMemory) => Err(Or::NoMemory),
    }
}

// The ids of a cluster are finalised.
fn put_cluster(ids: &mut Compressor, cluster: &Cluster) -> Result<(), Or<Shape>>
    ensures ok { OnOk result (after_cluster cluster.now (ids_of ids.old) ≡ Some (ids_of ids.new)) }
    ensures refused { IfRefused result (λ _. after_cluster cluster.now (ids_of ids.old) ≡ None) }
{
    put(ids, front_of(cluster))?;
    put(ids, rest_of(cluster))
}

// The ids of clusters are finalised.
fn put_all(ids: &mut Compressor, clusters: &[Cluster]) -> Result<(), Or<Shape>>
    ensures ok { OnOk result (after_clusters clusters.now (ids_of ids.old)
        ≡ Some (ids_of ids.new)) }
    ensures refused { IfRefused result (λ _. after_clusters clusters.now (ids_of ids.old)
        ≡ None) }
{
    for cluster in clusters {
        put_cluster(ids, cluster)?;
    }
    Ok(())
}

// The sessions join, and the ids of the clusters are finalised.
fn fill(
    alloc: Global,
    ids: &mut Compressor,
    uuids: &[Value],
    clusters: &[Cluster],
) -> Result<(), Or<Shape>>
    requires { ids_of ids.old ≡ no_ids }
    ensures ok { OnOk result (led_to (items_view uuids.now) clusters.now
        ≡ Some (ids_of ids.new)) }
    ensures refused { IfRefused result (λ _. led_to (items_view uuids.now) clusters.now
        ≡ None) }
{
    join_all(alloc, ids, uuids)?;
    put_all(ids, clusters)
}

// Whether two lists of clusters are the same.
fn are_same(first: &[Cluster], second: &[Cluster]) -> bool
    ensures { (result ≡ true) ↔ (first.now ≡ second.now) }
{
    first == second
}

// The table of sessions, where it has these clusters.
fn rebuild_table(
    alloc: Global,
    uuids: &[Value],
    clusters: &[Cluster],
) -> Result<Compressor, Or<Shape>>
    ensures ok { IfOk result (λ c. (led_to (items_view uuids.now) clusters.now ≡ Some (ids_of c))
        × ((ids_of c).clusters ≡ clusters.now)) }
    ensures refused { IfRefused result (λ _. (t : Ids) → led_to (items_view uuids.now) clusters.now
        ≡ Some t → ¬ (t.clusters ≡ clusters.now)) }
{
    let mut ids = Compressor::new(alloc);
    fill(alloc, &mut ids, uuids, clusters)?;
    if are_same(ids.clusters(), clusters) {
        Ok(ids)
    } else {
        Err(Or::Fault(Shape))
    }
}

// What is read of a value as a table.
fn read(alloc: Global, value: &Value) -> Result<Compressor, Or<Shape>>
    ensures ok { IfOk result (λ c. IsRead (view value.now) (ids_of c)) }
    ensures refused { IfRefused result (λ _. (t : Ids) → ¬ IsRead (view value.now) t) }
{
    let Some((clusters, uuids)) = table_items(value) else {
        return Err(Or::Fault(Shape));
    };
    let clusters = clusters_of(alloc, clusters)?;
    rebuild_table(alloc, uuids, clusters.as_slice())
}

/// The table that a value is: all its ids that are finalised are generated, and no others. `Shape`
/// where sessions and ranges lead to no table that is written so.
pub fn read_table(alloc: Global, value: &Value) -> Result<Compressor, Or<Shape>>
    ensures ok { IfOk result (λ c. IsTable (ids_of c)
        × (view value.now ≡ table_data (ids_of c))) }
    ensures refused { IfRefused result (λ _. (t : Ids) → IsTable t
        → ¬ (view value.now ≡ table_data t)) }
{
    read(alloc, value)
}
