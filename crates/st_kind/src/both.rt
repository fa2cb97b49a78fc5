//! A change over two steps.
ghost use Rattle.std.specs.Prelude.{◌≡◌, false};
ghost use Rattle.st_kind.specs.Named.{Nodes};
ghost use Rattle.st_kind.specs.Refused.{IfMemory};

use crate::apart::Apart;
use crate::kind::FieldKind;
use st_ids::Or;
use std::alloc::Global;

/// One value that was reached in two ways.
#[derive(Drop)]
pub struct Sides<T> {
    pub in_turn: T,
    pub at_once: T,
}

/// A change rebased over two steps in turn, and over the two as one. The arguments stand over contents of one field:
/// the change over the first of three, from which the steps lead to the second and to the third.
pub fn rebase_over_both<K: FieldKind>(
    alloc: Global,
    change: &K::Change,
    first: &K::Step,
    then: &K::Step,
) -> Result<Sides<K::Change>, Or<Apart>>
where
    K::Change: Drop,
    K::Step: Drop,
    requires { (n : K.Part) × (m : Nodes) × (k : Nodes) × (c : K.Ctx) × (d : K.Ctx) × (e : K.Ctx)
        × K.IsEmbedding n c change.now × K.IsStep m c d first.now × K.IsStep k d e then.now × K.Fits n c × K.Fits n d × K.Fits n e
        × K.Keeps n c d × K.Keeps n d e × K.IsContent (K.carry n false d) × K.IsContent (K.carry n false e) }
    ensures one { IfMemory result (λ s. s.in_turn ≡ s.at_once) }
    ensures embedded { (n : K.Part) (m k : Nodes) (c d e : K.Ctx)
        → K.IsEmbedding n c change.now → K.IsStep m c d first.now → K.IsStep k d e then.now → K.Fits n c → K.Fits n d → K.Fits n e
        → K.Keeps n c d → K.Keeps n d e → IfMemory result (λ s. K.IsEmbedding n e s.in_turn) }
{
    K::steps_are_short();
    K::keeps_in_turn();
    K::there_is_room();
    K::one_embedding();
    let between = K::rebase(alloc, change, first)?;
    let in_turn = K::rebase(alloc, &between, then)?;
    let both = K::compose(alloc, first, then)?;
    let at_once = K::rebase(alloc, change, &both)?;
    Ok(Sides { in_turn, at_once })
}
