//! A table that is copied into fresh memory.
ghost use Rattle.std.specs.Prelude.{◌≡◌, IfOk};

use crate::compressor::Compressor;
use st_ids::List;
use std::alloc::{AllocError, Global};

impl Compressor {
    ghost use Rattle.st_clusters.specs.Ids.{ids_of};

    /// An equal table in fresh memory.
    pub fn copy(&self, alloc: Global) -> Result<Compressor, AllocError>
        ensures { IfOk result (λ c. ids_of c ≡ ids_of self.now) }
    {
        let (places, order) = copy_kept(alloc, self.places.as_slice(), self.order.as_slice())?;
        let sessions = self.sessions.iter().copied().collect(alloc)?;
        let clusters = self.clusters.iter().copied().collect(alloc)?;
        Ok(Compressor {
            sessions,
            clusters,
            places,
            order,
        })
    }
}

fn copy_list(alloc: Global, places: &[usize]) -> Result<List<usize>, AllocError>
    ensures { IfOk result (λ l. l ≡ places.now) }
{
    Ok(List::from_vec(places.iter().copied().collect(alloc)?))
}

fn copy_places(alloc: Global, places: &[List<usize>]) -> Result<Vec<List<usize>>, AllocError>
    ensures { IfOk result (λ v. v.items ≡ places.now) }
{
    let mut copy = Vec::new(alloc);
    for list in places {
        copy.push(copy_list(alloc, list.as_slice())?)?;
    }
    Ok(copy)
}

// Copies what is kept beside the clusters and beside the sessions.
fn copy_kept(
    alloc: Global,
    places: &[List<usize>],
    order: &[usize],
) -> Result<(Vec<List<usize>>, Vec<usize>), AllocError>
    ensures places { IfOk result (λ kept. kept.0.items ≡ places.now) }
    ensures order { IfOk result (λ kept. kept.1.items ≡ order.now) }
{
    let places = copy_places(alloc, places)?;
    let order = order.iter().copied().collect(alloc)?;
    Ok((places, order))
}
