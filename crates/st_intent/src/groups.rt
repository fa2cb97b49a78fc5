//! The rules on new nodes and on groups.
ghost use Rattle.std.specs.Prelude.{◌≡◌, ◌||◌, not, false};
ghost use Rattle.std.specs.List.{list_all};
ghost use Rattle.st_ids.specs.Order.{same_rev};
ghost use Rattle.st_intent.specs.Rules.{makes, is_put as is_put_by};
ghost use Rattle.st_intent.specs.inside.Rules.{new_names_hold, cells_are_distinct, anchor_made, group_holds, groups_hold};
ghost use Rattle.st_marks.specs.Intent.{is_new as is_new_by};

use crate::distinct::{
    anchors_are_distinct, cells_are_distinct, new_are_distinct, places_are_distinct,
};
use crate::finds::{is_made, is_new, is_put};
use st_ids::{CellId, Rev, is_same_rev};
use st_marks::{Group, Intent, NewNode, Owned};

// Whether all new nodes have a revision.
fn nodes_have_rev(new: &[NewNode], rev: Rev) -> bool
    ensures { result ≡ list_all (λ m. same_rev m.node.0.rev rev) new.now }
{
    new.iter().all(|m| is_same_rev(m.node.0.rev, rev))
}

/// Whether the new nodes have the intent's revision, each another name.
pub fn new_names_hold(intent: &Intent) -> bool
    ensures { result ≡ new_names_hold intent.now }
{
    nodes_have_rev(intent.new.as_slice(), intent.rev) && new_are_distinct(intent.new.as_slice())
}

// Whether all cells have a revision.
fn cells_have_rev(cells: &[Owned], rev: Rev) -> bool
    ensures { result ≡ list_all (λ o. same_rev o.cell.0.rev rev) cells.now }
{
    cells.iter().all(|o| is_same_rev(o.cell.0.rev, rev))
}

// Whether a node is new or put.
fn is_touched(intent: &Intent, owned: &Owned) -> bool
    ensures { result ≡ (is_new_by intent.now owned.now.node || is_put_by intent.now owned.now.node) }
{
    is_new(intent, owned.node) || is_put(intent, owned.node)
}

// Whether the owners of all cells are new or put.
fn owners_touched(intent: &Intent, cells: &[Owned]) -> bool
    ensures { result ≡ list_all (λ o. is_new_by intent.now o.node || is_put_by intent.now o.node) cells.now }
{
    cells.iter().all(|o| is_touched(intent, o))
}

// Whether a group stands after a new cell.
fn anchor_made(intent: &Intent, after: Option<CellId>) -> bool
    ensures { result ≡ anchor_made intent.now after }
{
    match after {
        None => false,
        Some(cell) => is_made(intent.groups.as_slice(), cell),
    }
}

// Whether a group by itself obeys the rules.
fn group_holds(intent: &Intent, group: &Group) -> bool
    ensures { result ≡ group_holds intent.now group.now }
{
    let cells = group.cells.as_slice();
    cells_have_rev(cells, intent.rev)
        && !cells.is_empty()
        && owners_touched(intent, cells)
        && !anchor_made(intent, group.after)
}

// Whether each group by itself obeys the rules.
fn each_group_holds(intent: &Intent) -> bool
    ensures { result ≡ list_all (group_holds intent.now) intent.now.groups }
{
    intent
        .groups
        .as_slice()
        .iter()
        .all(|g| group_holds(intent, g))
}

// Whether none of some cells is in one of some groups.
fn none_made(groups: &[Group], cells: &[Owned]) -> bool
    ensures { result ≡ list_all (λ o. not (makes groups.now o.cell)) cells.now }
{
    cells.iter().all(|o| !is_made(groups, o.cell))
}

// Whether each cell is there once in all groups together.
fn all_cells_distinct(groups: &[Group]) -> bool
    ensures { result ≡ cells_are_distinct groups.now }
{
    for (i, group) in groups.iter().enumerate() {
        let cells = group.cells.as_slice();
        if !cells_are_distinct(cells) {
            return false;
        }
        if !none_made(&groups[i + 1..], cells) {
            return false;
        }
    }
    true
}

/// Whether the groups obey the rules.
pub fn groups_hold(intent: &Intent) -> bool
    ensures { result ≡ groups_hold intent.now }
{
    let groups = intent.groups.as_slice();
    each_group_holds(intent)
        && all_cells_distinct(groups)
        && places_are_distinct(groups)
        && anchors_are_distinct(groups)
}
