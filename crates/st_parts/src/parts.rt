//! Two parts of one commit as one change.
ghost use Rattle.std.specs.Prelude.{◌≡◌, ◌||◌, [], None, IfOk, OnOk};
ghost use Rattle.std.specs.BTreeSet.{contains};
ghost use Rattle.std.specs.List.{flat_map};
ghost use Rattle.st_ids.specs.Order.{node_cmp};
ghost use Rattle.st_ids.specs.declared.names.NodeId.{NodeId as Node};
ghost use Rattle.st_marks.specs.declared.intents.Intent.{Intent};
ghost use Rattle.st_marks.specs.declared.marks.RegMark.{RegMark as Register};
ghost use Rattle.st_marks.specs.CarryOut.{full};
ghost use Rattle.st_marks.specs.Document.{Document, HasShortRows, IsSoundInForm};
ghost use Rattle.st_marks.specs.Embedding.{IsEmbedding, is_among};
ghost use Rattle.st_marks.specs.Extends.{IsExtendedBy};
ghost use Rattle.st_marks.specs.Join.{AreParts, IsJoin};
ghost use Rattle.st_marks.specs.Listings.{one_or_none};
ghost use Rattle.st_marks.specs.Verdict.{IsAboveItself};
ghost use Rattle.st_mention_laws.specs.Shown.{Shows};
ghost use Rattle.st_parts.specs.JoinedParts.{TellsParts, named_by_parts};
ghost use Rattle.st_parts.specs.Short.{HasShortRowsListed};
ghost use Rattle.st_parts.specs.TrimmedChange.{ListsChange};
ghost use Rattle.st_part_listings.specs.Together.{goes_of, known_by};
ghost use Rattle.st_parts.specs.inside.OfParts.{ShowsListed, ToldOfParts};

use crate::rows_of_parts::rows_of_parts;
use crate::trimming::trim_if_short;
use st_climb::{add_one, new_names};
use st_ids::{List, NodeId};
use st_listings::union;
use st_marks::{Change, RegMark};
use st_part_listings::{Tables, loose_of_parts, needs_of_parts, registers_of_parts, table_of};
use st_puts::puts_of;
use std::alloc::{AllocError, Global};
use std::collections::BTreeSet;

// Adds those who are found in registers.
fn add_held(set: &mut BTreeSet<NodeId>, regs: &[RegMark]) -> Result<(), AllocError>
    ensures { OnOk result ((n : Node) → contains node_cmp set.new n
        ≡ (contains node_cmp set.old n || is_among (flat_map (λ (r : Register). one_or_none r.held) regs.now) n)) }
{
    for reg in regs {
        add_one(set, reg.held)?;
    }
    Ok(())
}

// Those who are found in registers.
fn held_nodes(alloc: Global, regs: &[RegMark]) -> Result<BTreeSet<NodeId>, AllocError>
    ensures { IfOk result (λ s. (n : Node) → contains node_cmp s n ≡ is_among (flat_map (λ (r : Register). one_or_none r.held) regs.now) n) }
{
    let mut set = BTreeSet::new(alloc);
    add_held(&mut set, regs)?;
    Ok(set)
}

// What two parts tell of nodes and registers.
fn tables_of(alloc: Global, first: &Change, second: &Change) -> Result<Tables, AllocError>
    ensures { (D : Document) (N M : Intent) → IsExtendedBy D (full D N) → AreParts D N M
        → (c : Shows D N first.now) → (d : Shows (full D N) M second.now)
        → IfOk result (λ t. TellsParts D N M c.1.mentioned d.1.mentioned (contains node_cmp t.new) (known_by t) (goes_of t)) }
{
    let firsts = puts_of(alloc, first)?;
    let seconds = puts_of(alloc, second)?;
    let regs = table_of(alloc, second.regs.as_slice())?;
    let new = new_names(alloc, first.new.as_slice())?;
    let held = held_nodes(alloc, first.regs.as_slice())?;
    Ok(Tables {
        first: firsts,
        second: seconds,
        regs,
        new,
        held,
    })
}

// A change that lists nothing, of the commit of another.
fn blank(alloc: Global, first: &Change) -> Change
    ensures { result ≡ record { rev = first.now.rev; under = first.now.under; base = first.now.base; need = []; new = []; rows = []; regs = []; loose = []; schema = None } }
{
    Change {
        rev: first.rev,
        under: first.under,
        base: first.base,
        need: List::new(alloc),
        new: List::new(alloc),
        rows: List::new(alloc),
        regs: List::new(alloc),
        loose: List::new(alloc),
        schema: None,
    }
}

// Lists what two parts say together, by what tables tell.
fn fill(
    alloc: Global,
    first: &Change,
    second: &Change,
    tables: &Tables,
    change: &mut Change,
) -> Result<(), AllocError>
    requires { HasShortRowsListed second.now }
    ensures { change.entry.now.rev ≡ first.now.rev → change.entry.now.under ≡ first.now.under → change.entry.now.base ≡ first.now.base → change.entry.now.schema ≡ None
        → OnOk result (ToldOfParts first.now second.now change.exit.now (contains node_cmp tables.now.new) (known_by tables.now) (goes_of tables.now)) }
{
    change.rows = rows_of_parts(alloc, first.rows.as_slice(), second.rows.as_slice())?;
    change.regs = registers_of_parts(alloc, tables, first.regs.as_slice(), second.regs.as_slice())?;
    change.need = needs_of_parts(
        alloc,
        &tables.new,
        first.need.as_slice(),
        second.need.as_slice(),
    )?;
    change.new = union(alloc, first.new.as_slice(), second.new.as_slice())?;
    change.loose = loose_of_parts(
        alloc,
        tables,
        first.loose.as_slice(),
        second.loose.as_slice(),
    )?;
    Ok(())
}

// What two parts say together, by what tables tell.
fn told_by(
    alloc: Global,
    first: &Change,
    second: &Change,
    tables: &Tables,
) -> Result<Change, AllocError>
    requires { HasShortRowsListed second.now }
    ensures { IfOk result (λ g. ToldOfParts first.now second.now g (contains node_cmp tables.now.new) (known_by tables.now) (goes_of tables.now)) }
{
    let mut change = blank(alloc, first);
    fill(alloc, first, second, tables, &mut change)?;
    Ok(change)
}

// What two parts say together. It may name more than both as one mention.
fn listing_of_parts(alloc: Global, first: &Change, second: &Change) -> Result<Change, AllocError>
    requires { HasShortRowsListed second.now }
    ensures exact { (D : Document) (N M J : Intent) → IsExtendedBy D (full D N) → AreParts D N M → IsJoin N M J
        → (c : IsEmbedding D N first.now) → (d : IsEmbedding (full D N) M second.now)
        → IfOk result (ListsChange D J (named_by_parts D c.mentioned d.mentioned)) }
    ensures shown { (D : Document) (N M J : Intent) → IsExtendedBy D (full D N) → AreParts D N M → IsJoin N M J
        → (c : Shows D N first.now) → (d : Shows (full D N) M second.now)
        → IfOk result (ShowsListed D J (named_by_parts D c.1.mentioned d.1.mentioned)) }
{
    let tables = tables_of(alloc, first, second)?;
    told_by(alloc, first, second, &tables)
}

/// Two parts of one commit as one change, where it is known that the second goes on from where the first leads, and that the two are
/// parts of one commit which have a join: the change of both as one intent. Which empty cells that stay empty either of them names
/// isn't read: of changes that count some of them the change of both may count these too. Takes O(n log n) for n marks and names,
/// whatever a Skip counts.
pub fn join_agreed(alloc: Global, first: &Change, then: &Change) -> Result<Change, AllocError>
    requires first { HasShortRowsListed first.now }
    requires second { HasShortRowsListed then.now }
    ensures exact { (D : Document) (N M J : Intent) → IsSoundInForm D → AreParts D N M → ((n : Node) → IsAboveItself D N n → ⊥) → IsJoin N M J
        → HasShortRows (full D N) → HasShortRows (full (full D N) M) → IsEmbedding D N first.now → IsEmbedding (full D N) M then.now
        → IfOk result (IsEmbedding D J) }
    ensures shown { (D : Document) (N M J : Intent) → IsSoundInForm D → AreParts D N M → ((n : Node) → IsAboveItself D N n → ⊥) → IsJoin N M J
        → HasShortRows (full D N) → HasShortRows (full (full D N) M) → Shows D N first.now → Shows (full D N) M then.now
        → IfOk result (Shows D J) }
{
    let listing = listing_of_parts(alloc, first, then)?;
    trim_if_short(alloc, listing)
}
