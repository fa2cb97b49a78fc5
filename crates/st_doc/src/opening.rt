//! The names of the opening.
ghost use Rattle.std.specs.Prelude.{◌≡◌};
ghost use Rattle.st_ids.specs.Root.{opening, root};

use st_ids::{NodeId, OPENING, ROOT, Rev};

/// The revision of the opening.
pub fn opening_rev() -> Rev
    ensures { result ≡ opening }
{
    OPENING
}

/// The root.
pub fn root_node() -> NodeId
    ensures { result ≡ root }
{
    ROOT
}
