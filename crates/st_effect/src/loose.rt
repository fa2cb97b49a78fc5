//! The nodes that are nowhere, where a change is carried out or void.
ghost use Rattle.std.specs.Prelude.{◌≡◌, map, IfOk};
ghost use Rattle.st_effect.specs.inside.Done.{loose_done as done};

use st_ids::List;
use st_marks::{How, Loose};
use std::alloc::{AllocError, Global};

// What the step says of a loose node.
fn loose_done(loose: Loose, void: bool) -> Loose
    ensures { result ≡ done void loose }
{
    let how = match loose.how {
        How::Leave if !void => How::Leave,
        _ => How::Stay,
    };
    Loose {
        node: loose.node,
        how,
    }
}

/// What the step says of loose nodes, by what a change says that is void or not.
pub fn all_loose_done(alloc: Global, loose: &[Loose], void: bool) -> Result<List<Loose>, AllocError>
    ensures { IfOk result (λ l. l ≡ map (done void) loose.now) }
{
    let mut all = List::new(alloc);
    for one in loose {
        all.push(loose_done(*one, void))?;
    }
    Ok(all)
}
