//! The table of ids as a JSON value.
ghost use Rattle.std.specs.Prelude.{◌≡◌, ℕ, IfOk, OnOk, codes, map};
ghost use Rattle.serde_json.specs.Data.{array, put};
ghost use Rattle.serde_json.specs.View.{view, items_of, members_view};
ghost use Rattle.st_clusters.specs.Ids.{ids_of};
ghost use Rattle.st_idcodec.specs.TableText.{plain_number, cluster_data, uuid_data, table_data};

use crate::uuids::uuid_value;
use serde_json::{Map, Value};
use st_clusters::{Cluster, Compressor, SessionIds};
use std::alloc::{AllocError, Global};

// The values of numbers.
fn numbers_value(alloc: Global, numbers: &[u64]) -> Result<Value, AllocError>
    ensures { IfOk result (λ v. view v ≡ array (items_of (map plain_number numbers.now))) }
{
    let mut items = Vec::new(alloc);
    for number in numbers {
        items.push(Value::from(*number))?;
    }
    Ok(Value::Array(items))
}

// The value of a cluster.
fn cluster_value(alloc: Global, cluster: &Cluster) -> Result<Value, AllocError>
    ensures { IfOk result (λ v. view v ≡ cluster_data cluster.now) }
{
    let session = u64::from(cluster.session);
    let first = u64::from(cluster.first);
    let used = u64::from(cluster.used);
    let numbers = [session, first, cluster.first_final, cluster.capacity, used];
    numbers_value(alloc, &numbers)
}

// The values of clusters.
fn clusters_value(alloc: Global, clusters: &[Cluster]) -> Result<Value, AllocError>
    ensures { IfOk result (λ v. view v ≡ array (items_of (map cluster_data clusters.now))) }
{
    let mut items = Vec::new(alloc);
    for cluster in clusters {
        items.push(cluster_value(alloc, cluster)?)?;
    }
    Ok(Value::Array(items))
}

// The values of sessions: their UUIDs, in lower case with hyphens.
fn uuids_value(alloc: Global, sessions: &[SessionIds]) -> Result<Value, AllocError>
    ensures { IfOk result (λ v. view v ≡ array (items_of (map uuid_data sessions.now))) }
{
    let mut items = Vec::new(alloc);
    for session in sessions {
        items.push(uuid_value(alloc, session.uuid)?)?;
    }
    Ok(Value::Array(items))
}

// Puts the clusters into a table.
fn put_clusters(
    alloc: Global,
    table: &mut Map<String, Value>,
    clusters: &[Cluster],
) -> Result<(), AllocError>
    ensures { OnOk result (members_view table.new.entries
        ≡ put (codes "clusters") (array (items_of (map cluster_data clusters.now))) (members_view table.old.entries)) }
{
    let clusters = clusters_value(alloc, clusters)?;
    serde_json::put(table, alloc, "clusters", clusters)?;
    Ok(())
}

// Puts the UUIDs of the sessions into a table.
fn put_uuids(
    alloc: Global,
    table: &mut Map<String, Value>,
    sessions: &[SessionIds],
) -> Result<(), AllocError>
    ensures { OnOk result (members_view table.new.entries
        ≡ put (codes "uuids") (array (items_of (map uuid_data sessions.now))) (members_view table.old.entries)) }
{
    let uuids = uuids_value(alloc, sessions)?;
    serde_json::put(table, alloc, "uuids", uuids)?;
    Ok(())
}

/// The value of a table: its clusters, and the UUIDs of its sessions. Ids that aren't finalised
/// aren't in it.
pub fn table_value(alloc: Global, ids: &Compressor) -> Result<Value, AllocError>
    ensures { IfOk result (λ v. view v ≡ table_data (ids_of ids.now)) }
{
    let mut table = Map::new(alloc);
    put_clusters(alloc, &mut table, ids.clusters())?;
    put_uuids(alloc, &mut table, ids.sessions())?;
    Ok(Value::Object(table))
}
