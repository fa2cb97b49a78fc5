//! Kinds of fields.
ghost use Rattle.std.specs.Prelude.{◌≡◌, ◌↔◌, ℕ, Bool, true, false, IfOk, IsTrue};
ghost use Rattle.st_kind.specs.Named.{Nodes, either, named_beside};
ghost use Rattle.st_kind.specs.Refused.{IfMemory, IsApartWhere};

use crate::apart::Apart;
use st_ids::{Copied, Or};
use std::alloc::{AllocError, Global};

/// A kind of field: what one field of a document holds, what a change and a step say of it, and the operations on
/// them. Each operation has as its contract the law that it keeps over every content; what holds of a kind as a whole is
/// the contract of a function that does nothing. A kind defines the ghost members in the terms of documents, intents,
/// changes and steps, restricted to one field.
pub trait FieldKind: Sized {
    /// What a field holds.
    type Ctx: Copied;

    /// What a change says of a field.
    type Change: Copied;

    /// What a step says of a field.
    type Step: Copied;

    /// The part of an intent that concerns one field.
    ghost Part: { Type 0 };

    /// A field of a document that is sound in form can hold this.
    ghost IsContent: { Self.Ctx → Type 0 };

    /// The part is that of an intent which fits where the field holds this.
    ghost Fits: { Part → Self.Ctx → Type 0 };

    /// The nodes that the part mentions.
    ghost mentions: { Part → Nodes };

    /// The nodes that the part makes.
    ghost makes: { Part → Nodes };

    /// What the field holds after the part, which is void where the second argument is true.
    ghost carry: { Part → Bool → Self.Ctx → Self.Ctx };

    /// The later of two contents, with what stands where it stood in the earlier one. The field is one of a node that
    /// is there in both.
    ghost retreat: { Self.Ctx → Self.Ctx → Self.Ctx };

    /// The change says what the part wants of the field that holds this.
    ghost IsEmbedding: { Part → Self.Ctx → Self.Change → Type 0 };

    /// The step leads from one content to another, which has all that the first has. It names the nodes of a set, to
    /// which those that it moves belong.
    ghost IsStep: { Nodes → Self.Ctx → Self.Ctx → Self.Step → Type 0 };

    /// The nodes that come into the field with what the step makes.
    ghost brings: { Self.Step → Nodes };

    /// The second content has all that the first has, and the nodes that move from one to the other belong to a set.
    ghost HasGrown: { Nodes → Self.Ctx → Self.Ctx → Type 0 };

    /// No mentioned node comes into the field, from one content to another, unless the marks tell what becomes of it.
    ghost Keeps: { Part → Self.Ctx → Self.Ctx → Type 0 };

    /// The last part is that of two in turn, as far as the field's changes tell.
    ghost AreJoined: { Part → Part → Self.Ctx → Part → Type 0 };

    /// Fewer than 2^32 cells are listed before and after.
    ghost IsShortStep: { Self.Step → Type 0 };

    /// Fewer than 2^32 cells are listed before and after.
    ghost IsShortChange: { Self.Change → Type 0 };

    /// The cells that the step finds and those that both make are fewer than 2^32.
    ghost HasRoom: { Self.Change → Self.Step → Type 0 };

    /// The places at which a step isn't over a content.
    ghost AfterClashAt: { Self.Ctx → Self.Step → ℕ → Type 0 };

    /// The places at which what a step leaves differs from what the next one finds.
    ghost ComposeClashAt: { Self.Step → Self.Step → ℕ → Type 0 };

    /// The places at which what a change leaves differs from what the next one finds.
    ghost JoinClashAt: { Self.Change → Self.Change → ℕ → Type 0 };

    /// The places at which what a change finds differs from what a step finds.
    ghost RebaseClashAt: { Self.Change → Self.Step → ℕ → Type 0 };

    /// Whether the change is the embedding of some part in this content.
    fn over(change: &Self::Change, ctx: &Self::Ctx) -> bool
        ensures { IsContent ctx.now → (IsTrue result ↔ ((n : Part) × Fits n ctx.now × IsEmbedding n ctx.now change.now)) };

    /// The content after a step.
    fn after(alloc: Global, ctx: &Self::Ctx, step: &Self::Step) -> Result<Self::Ctx, Or<Apart>>
        requires { IsShortStep step.now }
        ensures after { (m : Nodes) (d : Self.Ctx) → IsStep m ctx.now d step.now → IfMemory result (λ e. e ≡ d) }
        ensures apart { IsApartWhere result (AfterClashAt ctx.now step.now) };

    /// What a change does, void or whole.
    fn effect(alloc: Global, change: &Self::Change, void: bool) -> Result<Self::Step, AllocError>
        requires { IsShortChange change.now }
        ensures { (n : Part) (c : Self.Ctx) → Fits n c → IsEmbedding n c change.now → IsContent (carry n void c)
            → IfOk result (IsStep (mentions n) c (carry n void c)) };

    /// Two steps in turn as one.
    fn compose(
        alloc: Global,
        first: &Self::Step,
        then: &Self::Step,
    ) -> Result<Self::Step, Or<Apart>>
        requires first { IsShortStep first.now }
        requires then { IsShortStep then.now }
        ensures composed { (m k : Nodes) (c d e : Self.Ctx) → IsStep m c d first.now → IsStep k d e then.now
            → IfMemory result (IsStep (either m k) c e) }
        ensures apart { IsApartWhere result (ComposeClashAt first.now then.now) };

    /// Two changes of one commit in turn as one.
    fn join(
        alloc: Global,
        first: &Self::Change,
        then: &Self::Change,
    ) -> Result<Self::Change, Or<Apart>>
        requires first { IsShortChange first.now }
        requires then { IsShortChange then.now }
        ensures joined { (n p j : Part) (c : Self.Ctx) → AreJoined n p c j → Fits n c → IsEmbedding n c first.now
            → Fits p (carry n false c) → IsEmbedding p (carry n false c) then.now → IfMemory result (IsEmbedding j c) }
        ensures apart { IsApartWhere result (JoinClashAt first.now then.now) };

    /// The step back. What a step made stays, and is empty after it.
    fn invert(alloc: Global, step: &Self::Step) -> Result<Self::Step, AllocError>
        requires { IsShortStep step.now }
        ensures { (m : Nodes) (c d : Self.Ctx) → IsStep m c d step.now → IfOk result (IsStep (either m (brings step.now)) d (retreat c d)) };

    /// The change where it stands after a step.
    fn rebase(
        alloc: Global,
        change: &Self::Change,
        step: &Self::Step,
    ) -> Result<Self::Change, Or<Apart>>
        requires { HasRoom change.now step.now }
        ensures rebased { (n : Part) (m : Nodes) (c d : Self.Ctx) → Fits n c → Fits n d → Keeps n c d
            → IsEmbedding n c change.now → IsStep m c d step.now → IfMemory result (IsEmbedding n d) }
        ensures apart { IsApartWhere result (RebaseClashAt change.now step.now) };

    /// The change where it stands after a step, for two that are known to stand over one content: it doesn't test
    /// whether they agree, and of two that don't, anything may be answered.
    fn rebase_agreed(
        alloc: Global,
        change: &Self::Change,
        step: &Self::Step,
    ) -> Result<Self::Change, AllocError>
        requires { HasRoom change.now step.now }
        ensures { (n : Part) (m : Nodes) (c d : Self.Ctx) → Fits n c → Fits n d → Keeps n c d
            → IsEmbedding n c change.now → IsStep m c d step.now → IfOk result (IsEmbedding n d) };

    /// The step where it stands after a change, which was and is void or not.
    fn bridge(
        alloc: Global,
        step: &Self::Step,
        change: &Self::Change,
        was_void: bool,
        is_void: bool,
    ) -> Result<Self::Step, Or<Apart>>
        requires { HasRoom change.now step.now }
        ensures bridged { (n : Part) (m : Nodes) (c d : Self.Ctx) → Fits n c → Fits n d → (is_void ≡ false → Keeps n c d)
            → IsEmbedding n c change.now → IsStep m c d step.now → IsContent (carry n was_void c) → IsContent (carry n is_void d)
            → IfMemory result (IsStep (named_beside m (mentions n) (makes n) was_void is_void) (carry n was_void c) (carry n is_void d)) }
        ensures apart { IsApartWhere result (RebaseClashAt change.now step.now) };

    /// A part has an embedding in each content that it fits.
    fn has_embedding()
        ensures { (n : Part) (c : Self.Ctx) → Fits n c → (x : Self.Change) × IsEmbedding n c x };

    /// A step leads from a content to each that has all that it has.
    fn has_step()
        ensures { (m : Nodes) (c d : Self.Ctx) → IsContent c → IsContent d → HasGrown m c d → (s : Self.Step) × IsStep m c d s };

    /// A part has one embedding in a content.
    fn one_embedding()
        ensures { (n : Part) (c : Self.Ctx) (x y : Self.Change) → IsEmbedding n c x → IsEmbedding n c y → x ≡ y };

    /// One step leads from one content to another and names given nodes.
    fn one_step()
        ensures { (m : Nodes) (c d : Self.Ctx) (s t : Self.Step) → IsStep m c d s → IsStep m c d t → s ≡ t };

    /// What becomes of the nodes that come in by one step and then by another is told by the two together.
    fn keeps_in_turn()
        ensures { (n : Part) (c d e : Self.Ctx) → Keeps n c d → Keeps n d e → Keeps n c e };

    /// A step over contents is short.
    fn steps_are_short()
        ensures { (m : Nodes) (c d : Self.Ctx) (s : Self.Step) → IsStep m c d s → IsShortStep s };

    /// A change over a content is short where what it leads to is one too.
    fn changes_are_short()
        ensures { (n : Part) (c : Self.Ctx) (x : Self.Change) → Fits n c → IsContent (carry n false c)
            → IsEmbedding n c x → IsShortChange x };

    /// There is room where the change after the step leads to a content.
    fn there_is_room()
        ensures { (n : Part) (m : Nodes) (c d : Self.Ctx) (x : Self.Change) (s : Self.Step) → Fits n c → Fits n d
            → IsContent (carry n false d) → IsEmbedding n c x → IsStep m c d s → HasRoom x s };
}
