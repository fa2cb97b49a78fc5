//! Copies of forests.
ghost use Rattle.std.specs.Prelude.{◌≡◌, ◌++◌, ◌∷◌, [], IfOk, OnOk};
ghost use Rattle.std.specs.BTreeMap.{IsOrdered, get};
ghost use Rattle.st_marks.specs.Document.{Document};

use crate::forest::{Forest, Seated};
use st_ids::Copied;
use std::alloc::{AllocError, Global};
use std::collections::BTreeMap;
use std::iter::FromIterator;

impl Copied for Seated {
    fn copy(&self, alloc: Global) -> Result<Self, AllocError> {
        let node = self.node.copy(alloc)?;
        let place = self.place.copy(alloc)?;
        Ok(Seated { node, place })
    }
}

// Puts a copy of an entry behind others.
fn push_copy<K: Copied + Drop, V: Copied + Drop>(
    alloc: Global,
    entries: &mut Vec<(K, V)>,
    key: &K,
    value: &V,
) -> Result<(), AllocError>
    ensures { OnOk result (entries.new.items ≡ entries.old.items ++ (key.now, value.now) ∷ []) }
{
    let key = key.copy(alloc)?;
    let value = value.copy(alloc)?;
    entries.push((key, value))?;
    Ok(())
}

// The entries of a map, in order.
fn copy_entries<K: Ord + Copied + Drop, V: Copied + Drop>(
    alloc: Global,
    map: &BTreeMap<K, V>,
) -> Result<Vec<(K, V)>, AllocError>
    ensures entries { IfOk result (λ es. es.items ≡ map.now.entries) }
    ensures ordered { OnOk result (IsOrdered K.cmp map.now) }
{
    let mut entries = Vec::new(alloc);
    for (key, value) in map.iter() {
        push_copy(alloc, &mut entries, key, value)?;
    }
    Ok(entries)
}

// The same map. Its entries are in order already, so none is looked up.
fn copy_map<K: Ord + Copied + Drop, V: Copied + Drop>(
    alloc: Global,
    map: &BTreeMap<K, V>,
) -> Result<BTreeMap<K, V>, AllocError>
    ensures { IfOk result (λ m. (q : K) → get K.cmp m q ≡ get K.cmp map.now q) }
{
    BTreeMap::from_iter(alloc, copy_entries(alloc, map)?)
}

impl Forest {
    ghost use Rattle.st_forest.specs.Stands.{StandsFor};

    /// The same forest once more, in the time that its size asks for: it stands for the document for which this one does.
    pub fn copy(&self, alloc: Global) -> Result<Forest, AllocError>
        ensures { (D : Document) → StandsFor self.now D → IfOk result (λ f. StandsFor f D) }
    {
        let nodes = copy_map(alloc, &self.nodes)?;
        let rows = copy_map(alloc, &self.rows)?;
        let held = copy_map(alloc, &self.held)?;
        let schemas = self.schemas.copy(alloc)?;
        Ok(Forest {
            nodes,
            rows,
            held,
            schemas,
        })
    }
}
