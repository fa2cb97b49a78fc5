//! The verdict of a change, and the step to the document after it.
ghost use Rattle.std.specs.Prelude.{◌≡◌, IfOk};
ghost use Rattle.st_kind.specs.Named.{either};
ghost use Rattle.st_marks.specs.declared.intents.Intent.{Intent};
ghost use Rattle.st_marks.specs.Document.{Document, HasShortRows, IsSoundInForm};
ghost use Rattle.st_marks.specs.CarryOut.{full};
ghost use Rattle.st_marks.specs.Embedding.{IsEmbedding};
ghost use Rattle.st_marks.specs.Intent.{Fits};
ghost use Rattle.st_marks.specs.Step.{IsStep};
ghost use Rattle.st_marks.specs.Verdict.{IsVerdict, carried_document};
ghost use Rattle.st_mention_laws.specs.Shown.{Shows, ShowsStep};
ghost use Rattle.st_trim.specs.Evicted.{in_cleared};
ghost use Rattle.st_trim.specs.Trimmed.{ListsStep};
ghost use Rattle.st_effect.specs.Short.{HasShortRowsListed};
ghost use Rattle.st_effect.specs.inside.Done.{ShowsListed, is_void as void_by};

use crate::listing::listing_of;
use st_marks::{Change, Step, Verdict};
use st_trim::trim_step;
use st_void::verdict;
use std::alloc::{AllocError, Global};

/// What a change does where it stands.
#[derive(Drop)]
pub struct Consequence {
    pub verdict: Verdict,
    pub step: Step,
}

// Whether a change with this verdict is void.
fn is_void(verdict: Verdict) -> bool
    ensures { result ≡ void_by verdict }
{
    match verdict {
        Verdict::Sound => false,
        _ => true,
    }
}

// The step of a change that has the verdict, with all that the change names.
fn listed_step(alloc: Global, change: &Change, verdict: Verdict) -> Result<Step, AllocError>
    requires { HasShortRowsListed change.now }
    ensures exact { (D : Document) (N : Intent) → IsSoundInForm D → Fits D N → HasShortRows (full D N)
        → (embedding : IsEmbedding D N change.now) → IsVerdict D N verdict
        → IfOk result (λ g. ListsStep D (carried_document verdict D N) (either embedding.mentioned (in_cleared D N)) g) }
    ensures shown { (D : Document) (N : Intent) → IsSoundInForm D → Fits D N → HasShortRows (full D N)
        → (shown : Shows D N change.now) → IsVerdict D N verdict
        → IfOk result (ShowsListed D (carried_document verdict D N) (either shown.1.mentioned (in_cleared D N))) }
{
    listing_of(alloc, change, is_void(verdict))
}

// The step of a change that has the verdict.
fn step_by(alloc: Global, change: &Change, verdict: Verdict) -> Result<Step, AllocError>
    requires { HasShortRowsListed change.now }
    ensures exact { (D : Document) (N : Intent) → IsSoundInForm D → Fits D N → HasShortRows (full D N)
        → IsEmbedding D N change.now → IsVerdict D N verdict
        → IfOk result (λ s. IsStep D (carried_document verdict D N) s) }
    ensures shown { (D : Document) (N : Intent) → IsSoundInForm D → Fits D N → HasShortRows (full D N)
        → Shows D N change.now → IsVerdict D N verdict
        → IfOk result (λ s. ShowsStep D (carried_document verdict D N) s) }
{
    let listing = listed_step(alloc, change, verdict)?;
    trim_step(alloc, listing)
}

/// What a change does in the document where it stands: whether it is void, and the step from there to the document after it,
/// which is the one where the change is carried out, or where it is void. Which empty cells that stay empty the change names
/// isn't read: of a change that counts some of them the step may count these too. Beside the verdict it takes O(n log n) for n
/// marks and names, whatever a Skip counts, where the new nodes rise by name, as those of each intent's change do.
pub fn effect(alloc: Global, change: &Change) -> Result<Consequence, AllocError>
    requires { HasShortRowsListed change.now }
    ensures exact { (D : Document) (N : Intent) → IsSoundInForm D → Fits D N → HasShortRows (full D N)
        → IsEmbedding D N change.now
        → IfOk result (λ r. IsVerdict D N r.verdict × IsStep D (carried_document r.verdict D N) r.step) }
    ensures shown { (D : Document) (N : Intent) → IsSoundInForm D → Fits D N → HasShortRows (full D N)
        → Shows D N change.now
        → IfOk result (λ r. IsVerdict D N r.verdict × ShowsStep D (carried_document r.verdict D N) r.step) }
{
    let verdict = verdict(change);
    let step = step_by(alloc, change, verdict)?;
    Ok(Consequence { verdict, step })
}
