//! Why a commit isn't undone.
ghost use Rattle.std.specs.Prelude.{◌≡◌};
ghost use Rattle.st_undo.specs.Undone.{fault_over};

use st_ids::Text;
use st_marks::Verdict;

/// Why a commit isn't undone: none has the revision; it is another's; it was received at or below the floor, so that its step isn't
/// kept; it is void where it stands; or it changes the schema.
#[derive(Clone, Copy, Debug, PartialEq, Eq)]
pub enum UndoFault {
    NoCommit,
    NotOwn,
    Gone { floor: u32 },
    VoidCommit,
    Kind,
}

// Why a commit isn't undone that has a verdict and may change the schema, if it isn't.
pub(crate) fn fault_over(verdict: Verdict, schema: &Option<Text>) -> Option<UndoFault>
    ensures { result ≡ fault_over verdict schema.now }
{
    if verdict != Verdict::Sound {
        return Some(UndoFault::VoidCommit);
    }
    if schema.is_some() {
        return Some(UndoFault::Kind);
    }
    None
}
