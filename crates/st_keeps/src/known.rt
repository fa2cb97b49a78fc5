//! Whether the makers of nodes that a commit moves were known to its author's schema.
ghost use Rattle.std.specs.Prelude.{◌≡◌, ◌↔◌, true, List as Seq};
ghost use Rattle.std.specs.List.{list_any};
ghost use Rattle.st_ids.specs.Order.{same_rev};
ghost use Rattle.st_marks.specs.Document.{Document, revs};
ghost use Rattle.st_marks.specs.declared.intents.Intent.{Intent as Wanted};
ghost use Rattle.st_makers.specs.Makers.{KnowsMakers};
ghost use Rattle.st_keeps.specs.Moves.{ClearMakersKnown, PutMakersKnown};
ghost use Rattle.st_keeps.specs.inside.Tests.{clears_known, is_among, is_known, puts_known};

use st_ids::{NodeId, Rev, is_same_rev};
use st_intent::is_new;
use st_makers::Makers;
use st_marks::{Intent, SchemaEntry};

// Whether one of some entries is of a revision.
fn has_rev(front: &[SchemaEntry], rev: Rev) -> bool
    ensures { result ≡ list_any (λ e. same_rev e.rev rev) front.now }
{
    front.iter().any(|e| is_same_rev(e.rev, rev))
}

// Whether one of some entries is of the revision, if there is one.
fn is_among(front: &[SchemaEntry], rev: Option<Rev>) -> bool
    ensures { result ≡ is_among front.now rev }
{
    match rev {
        None => false,
        Some(rev) => has_rev(front, rev),
    }
}

// Whether a node is new, or was made under one of some schemas.
fn is_known(makers: &Makers, front: &[SchemaEntry], intent: &Intent, node: NodeId) -> bool
    ensures { result ≡ is_known makers.now front.now intent.now node }
{
    is_among(front, makers.under(node)) || is_new(intent, node)
}

// Whether all nodes that are put are.
fn puts_known(makers: &Makers, front: &[SchemaEntry], intent: &Intent) -> bool
    ensures { result ≡ puts_known makers.now front.now intent.now }
{
    intent
        .put
        .as_slice()
        .iter()
        .all(|p| is_known(makers, front, intent, p.node))
}

// Whether all nodes of registers that are cleared are.
fn clears_known(makers: &Makers, front: &[SchemaEntry], intent: &Intent) -> bool
    ensures { result ≡ clears_known makers.now front.now intent.now }
{
    intent
        .clear
        .as_slice()
        .iter()
        .all(|f| is_known(makers, front, intent, f.node))
}

/// Whether each old node that a commit puts somewhere was made under one of some schemas.
pub fn put_makers_known(makers: &Makers, front: &[SchemaEntry], intent: &Intent) -> bool
    ensures { (O : Document) (log : Seq Wanted) → KnowsMakers O log makers.now
        → (result ≡ true) ↔ PutMakersKnown O log (revs front.now) intent.now }
{
    puts_known(makers, front, intent)
}

/// Whether each old node of which a commit clears a register was made under one of some schemas.
pub fn clear_makers_known(makers: &Makers, front: &[SchemaEntry], intent: &Intent) -> bool
    ensures { (O : Document) (log : Seq Wanted) → KnowsMakers O log makers.now
        → (result ≡ true) ↔ ClearMakersKnown O log (revs front.now) intent.now }
{
    clears_known(makers, front, intent)
}
