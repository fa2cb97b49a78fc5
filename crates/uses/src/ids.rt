//! A use of `st_clusters`.
ghost use Rattle.std.specs.Prelude.{◌≡◌, OnOk};
ghost use Rattle.st_clusters.specs.Ids.{ids_of};

use st_clusters::{Compressor, IdFault, IdRange};
use st_ids::Or;

/// Finalises a range of ids at two clients whose clusters are alike. They stay alike, so that each id has the same final
/// number at both.
#[tactic(auto, using(crate::proofs::Clusters::finalised_alike))]
pub fn finalize_at_both(
    here: &mut Compressor,
    there: &mut Compressor,
    range: IdRange,
) -> Result<(), Or<IdFault>>
    requires alike { (ids_of here.old).clusters ≡ (ids_of there.old).clusters }
    ensures still_alike { OnOk result ((ids_of here.new).clusters ≡ (ids_of there.new).clusters) }
{
    here.finalize(range)?;
    there.finalize(range)?;
    Ok(())
}
