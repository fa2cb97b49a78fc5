//! The rules of normal form that changes and steps have in common.
ghost use Rattle.std.specs.Prelude.{◌↔◌, IsTrue};
ghost use Rattle.st_normal.specs.Rules.{CellsAreOnce, FieldsAreFound, FilledCellsAreOld, LooseNodesArePut, MarksAreMerged, NewNodesAreNotFound, NewRowsAreMade, NodesAreFoundOnce, NodesArePutOnce, ObeysCommonRules, PutNodesLeave, RootStays, RowsAreShort, RowsTell};

use crate::extract::{CellsIn, FillOwners};
use crate::index::Index;
use crate::listing::HasEntries;
use crate::lookup::Look;
use crate::row_rules::{Merged, Short, Telling};
use crate::rules::{ComesIn, IsKnown, IsOld, IsUnknown, LeavesFromNowhere, NewRow};
use crate::scan::{each, each_of, in_rows};
use st_ids::ROOT;
use st_marks::Loose;
use std::alloc::Global;

// Whether the rules on the marks of single rows hold.
fn marks_obey<L: HasEntries>(look: &Look<L>) -> bool
    ensures { let A = L.listed look.now.lists in IsTrue result ↔ (MarksAreMerged A × RowsTell A × RowsAreShort A) }
{
    let rows = look.lists.rows();
    each_of(rows, &Merged) && each_of(rows, &Telling) && each_of(rows, &Short)
}

// Whether no cell is listed twice.
fn cells_once<L: HasEntries>(alloc: Global, look: &Look<L>) -> bool
    ensures { IsTrue result ↔ CellsAreOnce (L.listed look.now.lists) }
{
    Index::of(alloc, in_rows(look.lists.rows(), CellsIn)).once
}

// Whether the rows of new nodes have only cells that are made.
fn new_rows_are_made<L: HasEntries>(look: &Look<L>) -> bool
    ensures { IsTrue result ↔ NewRowsAreMade (L.listed look.now.lists) }
{
    each_of(look.lists.rows(), &NewRow(look))
}

// Whether filled cells and their owners were there before.
fn filled_are_old<L: HasEntries>(look: &Look<L>) -> bool
    ensures { IsTrue result ↔ FilledCellsAreOld (L.listed look.now.lists) }
{
    each(in_rows(look.lists.rows(), FillOwners), &IsOld(look))
}

// Whether nodes that are put are new or leave the place where they are found.
fn put_nodes_leave<L: HasEntries>(look: &Look<L>) -> bool
    ensures { NodesAreFoundOnce (L.listed look.now.lists) → (IsTrue result ↔ PutNodesLeave (L.listed look.now.lists)) }
{
    each(look.lists.puts(), &ComesIn(look))
}

// Whether no new node is found and none is the root.
fn new_are_not_found<L: HasEntries>(look: &Look<L>) -> bool
    ensures { IsTrue result ↔ NewNodesAreNotFound (L.listed look.now.lists) }
{
    each(look.lists.fresh(), &IsUnknown(look))
}

// Whether the root is neither found nor put.
fn root_stays<L: HasEntries>(look: &Look<L>) -> bool
    ensures { IsTrue result ↔ RootStays (L.listed look.now.lists) }
{
    !look.is_found(ROOT) && !look.is_put(ROOT)
}

// Whether the nodes of listed fields are the root, new or found.
fn fields_are_found<L: HasEntries>(look: &Look<L>) -> bool
    ensures { IsTrue result ↔ FieldsAreFound (L.listed look.now.lists) }
{
    each(look.lists.fields(), &IsKnown(look))
}

/// Whether nodes that leave from nowhere are put.
pub fn loose_are_put<L: HasEntries>(look: &Look<L>, loose: &[Loose]) -> bool
    ensures { IsTrue result ↔ LooseNodesArePut (L.listed look.now.lists) loose.now }
{
    each_of(loose, &LeavesFromNowhere(look))
}

// Whether the rules on rows hold.
fn rows_obey<L: HasEntries>(alloc: Global, look: &Look<L>) -> bool
    ensures { let A = L.listed look.now.lists in IsTrue result ↔ ((MarksAreMerged A × RowsTell A × RowsAreShort A) × CellsAreOnce A × NewRowsAreMade A × FilledCellsAreOld A) }
{
    marks_obey(look) && cells_once(alloc, look) && new_rows_are_made(look) && filled_are_old(look)
}

// Whether the rules on nodes hold.
fn nodes_obey<L: HasEntries>(look: &Look<L>) -> bool
    requires found { IsTrue look.now.found_once ↔ NodesAreFoundOnce (L.listed look.now.lists) }
    requires put { IsTrue look.now.put_once ↔ NodesArePutOnce (L.listed look.now.lists) }
    ensures { let A = L.listed look.now.lists in IsTrue result ↔ (NodesAreFoundOnce A × NodesArePutOnce A × PutNodesLeave A × NewNodesAreNotFound A × RootStays A × FieldsAreFound A) }
{
    look.found_once
        && look.put_once
        && put_nodes_leave(look)
        && new_are_not_found(look)
        && root_stays(look)
        && fields_are_found(look)
}

/// Whether the rules that changes and steps have in common hold.
pub fn obeys_common<L: HasEntries>(alloc: Global, look: &Look<L>) -> bool
    requires found { IsTrue look.now.found_once ↔ NodesAreFoundOnce (L.listed look.now.lists) }
    requires put { IsTrue look.now.put_once ↔ NodesArePutOnce (L.listed look.now.lists) }
    ensures { IsTrue result ↔ ObeysCommonRules (L.listed look.now.lists) }
{
    rows_obey(alloc, look) && nodes_obey(look) && look.lists.has_keys()
}
