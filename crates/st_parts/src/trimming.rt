//! A change out of a listing that names more nodes than its intent mentions.
ghost use Rattle.std.specs.Prelude.{◌≡◌, ◌↔◌, ◌||◌, true, filter, IfOk};
ghost use Rattle.std.specs.BTreeSet.{contains};
ghost use Rattle.st_ids.specs.Order.{node_cmp};
ghost use Rattle.st_ids.specs.declared.names.NodeId.{NodeId as Node};
ghost use Rattle.st_kind.specs.Named.{Nodes};
ghost use Rattle.st_marks.specs.declared.changes.Change.{Change as Listing};
ghost use Rattle.st_marks.specs.declared.intents.Intent.{Intent};
ghost use Rattle.st_marks.specs.declared.marks.Loose.{Loose as LooseNode};
ghost use Rattle.st_marks.specs.CarryOut.{full};
ghost use Rattle.st_marks.specs.Document.{Document, HasShortRows, IsSoundInForm};
ghost use Rattle.st_marks.specs.Embedding.{IsEmbedding, IsMentionedByIntent};
ghost use Rattle.st_marks.specs.Intent.{Fits};
ghost use Rattle.st_marks.specs.Register.{holds_mentioned};
ghost use Rattle.st_mention_laws.specs.Shown.{Shows, thin};
ghost use Rattle.st_parts.specs.TrimmedChange.{ListsChange};
ghost use Rattle.st_puts.specs.Mentions.{AreMentions};
ghost use Rattle.st_parts.specs.Short.{HasShortRowsListed};
ghost use Rattle.st_parts.specs.inside.Cut.{IsCutTo, tells_register as tells};

use crate::rows::trim_rows;
use crate::short::has_short_rows;
use st_change_listings::{names_listed, places_listed};
use st_ids::{List, NodeId};
use st_marks::{Change, Loose, RegMark};
use st_puts::upwards;
use std::alloc::{AllocError, Global};
use std::collections::BTreeSet;

// Whether the occupant of a register is named.
fn holds_named(named: &BTreeSet<NodeId>, held: Option<NodeId>) -> bool
    ensures { result ≡ holds_mentioned (contains node_cmp named.now) held }
{
    match held {
        None => false,
        Some(node) => named.contains(&node),
    }
}

// Whether a register is listed where some nodes alone are named.
fn tells_register(named: &BTreeSet<NodeId>, reg: &RegMark) -> bool
    ensures { result ≡ tells (contains node_cmp named.now) reg.now }
{
    reg.clear || holds_named(named, reg.held)
}

// The registers that are cleared or hold one of some nodes.
fn trim_registers(named: &BTreeSet<NodeId>, regs: List<RegMark>) -> List<RegMark>
    ensures { result ≡ filter (tells (contains node_cmp named.now)) regs }
{
    let mut items = regs.into_vec();
    items.retain(|reg| tells_register(named, reg));
    List::from_vec(items)
}

// Those of the nodes that are nowhere that are named.
fn trim_loose(named: &BTreeSet<NodeId>, loose: List<Loose>) -> List<Loose>
    ensures { result ≡ filter (λ (l : LooseNode). contains node_cmp named.now l.node) loose }
{
    let mut items = loose.into_vec();
    items.retain(|one| named.contains(&one.node));
    List::from_vec(items)
}

// A listing where some nodes alone are named.
fn cut(alloc: Global, listing: Change, named: &BTreeSet<NodeId>) -> Result<Change, AllocError>
    requires { HasShortRowsListed listing }
    ensures { IfOk result (IsCutTo (contains node_cmp named.now) listing) }
{
    let Change {
        rev,
        under,
        base,
        need,
        new,
        rows,
        regs,
        loose,
        schema,
    } = listing;
    Ok(Change {
        rows: trim_rows(alloc, named, rows.as_slice())?,
        regs: trim_registers(named, regs),
        loose: trim_loose(named, loose),
        rev,
        under,
        base,
        need,
        new,
        schema,
    })
}

/// The change of which a listing tells, perhaps with more nodes named than the intent mentions, and rows and registers listed that
/// tell nothing: what is said with `named` alone named, the nodes that the intent mentions. Empty cells that stay empty aren't
/// read: of a listing that counts some of them the change counts these too. Takes O(n log n) for n marks and names, whatever a Skip
/// counts.
pub fn trim_change(
    alloc: Global,
    listing: Change,
    named: &BTreeSet<NodeId>,
) -> Result<Change, AllocError>
    requires { HasShortRowsListed listing }
    ensures exact { (D : Document) (N : Intent) (K : Nodes) → IsSoundInForm D → ListsChange D N K listing
        → ((n : Node) → (contains node_cmp named.now n ≡ true) ↔ IsMentionedByIntent D N n) → IfOk result (IsEmbedding D N) }
    ensures shown { (D : Document) (N : Intent) (K : Nodes) (G : Listing) → IsSoundInForm D → ListsChange D N K G
        → thin listing ≡ thin G → ((n : Node) → (contains node_cmp named.now n ≡ true) ↔ IsMentionedByIntent D N n)
        → IfOk result (Shows D N) }
{
    cut(alloc, listing, named)
}

// The nodes that the intent of a listing mentions: those that the listing tells as named, and all above them.
fn mentions_of(alloc: Global, listing: &Change) -> Result<BTreeSet<NodeId>, AllocError>
    ensures { (D : Document) (N : Intent) (K : Nodes) (G : Listing) → IsSoundInForm D → Fits D N → ListsChange D N K G
        → thin listing.now ≡ thin G → IfOk result (λ s. AreMentions D N (contains node_cmp s)) }
{
    let names = names_listed(alloc, listing)?;
    let places = places_listed(alloc, listing)?;
    upwards(alloc, &places, &names)
}

/// The change of which a listing tells, perhaps with more nodes named than the intent mentions, and rows and registers listed that
/// tell nothing. Empty cells that stay empty aren't read: of a listing that counts some of them the change counts these too. Takes
/// O(n log n) for n marks and names, whatever a Skip counts.
pub fn trim_listing(alloc: Global, listing: Change) -> Result<Change, AllocError>
    requires { HasShortRowsListed listing }
    ensures exact { (D : Document) (N : Intent) (K : Nodes) → IsSoundInForm D → Fits D N → ListsChange D N K listing → IfOk result (IsEmbedding D N) }
    ensures shown { (D : Document) (N : Intent) (K : Nodes) (G : Listing) → IsSoundInForm D → Fits D N → ListsChange D N K G
        → thin listing ≡ thin G → IfOk result (Shows D N) }
{
    let named = mentions_of(alloc, &listing)?;
    trim_change(alloc, listing, &named)
}

/// The same, where the intent is known to leave rows short, but not that the listing lists few cells of each; else the listing.
pub fn trim_if_short(alloc: Global, listing: Change) -> Result<Change, AllocError>
    ensures exact { (D : Document) (N : Intent) (K : Nodes) → IsSoundInForm D → Fits D N → HasShortRows (full D N) → ListsChange D N K listing
        → IfOk result (IsEmbedding D N) }
    ensures shown { (D : Document) (N : Intent) (K : Nodes) (G : Listing) → IsSoundInForm D → Fits D N → HasShortRows (full D N)
        → ListsChange D N K G → thin listing ≡ thin G → IfOk result (Shows D N) }
{
    if has_short_rows(&listing) {
        trim_listing(alloc, listing)
    } else {
        Ok(listing)
    }
}
