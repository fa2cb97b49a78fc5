//! What changes and steps list, by the parts in which it stands.
ghost use Rattle.std.specs.Prelude.{map, refl};
ghost use Rattle.std.specs.List.{flat_map};
ghost use Rattle.st_ids.specs.declared.names.FieldId.{FieldId as Field};
ghost use Rattle.st_marks.specs.Row.{spread};
ghost use Rattle.st_normal.specs.Rules.{found_in, found_loose, incoming_nodes, kept_at, hole_owners, fill_owners};
ghost use Rattle.st_marks.specs.Listings.{cells_in, cells_made, nodes_new};
ghost use Rattle.st_marks.specs.declared.marks.RowMarks.{RowMarks as Row};
ghost use Rattle.st_marks.specs.declared.schemas.SchemaEntry.{SchemaEntry as Entry};

use crate::entries::Found;
use crate::registers::Register;
use crate::scan::{InRow, Part};
use st_ids::{CellId, NodeId, Rev};
use st_marks::{Loose, Mark, NewNode, RegMark, RowMarks, SchemaEntry};

/// The nodes that are found in full cells.
#[derive(Clone, Copy)]
pub struct FoundIn;

#[tactic(auto, using(crate::proofs::Counted::found_counted))]
impl InRow for FoundIn {
    type Item = Found;

    ghost of = { λ row ms. found_in (spread ms) };

    ghost none = { λ row. refl };

    fn pick(&self, _row: NodeId, mark: Mark) -> Option<Found> {
        match mark {
            Mark::Touch { node, how, .. } => Some(Found { node, how }),
            _ => None,
        }
    }
}

/// The nodes that come into cells.
#[derive(Clone, Copy)]
pub struct Incoming;

#[tactic(auto, using(crate::proofs::Counted::incoming_counted))]
impl InRow for Incoming {
    type Item = NodeId;

    ghost of = { λ row ms. incoming_nodes (spread ms) };

    ghost none = { λ row. refl };

    fn pick(&self, _row: NodeId, mark: Mark) -> Option<NodeId> {
        match mark {
            Mark::Make { node, full, .. } if full => Some(node),
            Mark::Fill { node, .. } => Some(node),
            _ => None,
        }
    }
}

/// The owners of empty cells that are made.
#[derive(Clone, Copy)]
pub struct HoleOwners;

#[tactic(auto, using(crate::proofs::Counted::holes_counted))]
impl InRow for HoleOwners {
    type Item = NodeId;

    ghost of = { λ row ms. hole_owners (spread ms) };

    ghost none = { λ row. refl };

    fn pick(&self, _row: NodeId, mark: Mark) -> Option<NodeId> {
        match mark {
            Mark::Make { node, full, .. } if !full => Some(node),
            _ => None,
        }
    }
}

/// The owners of cells that are filled.
#[derive(Clone, Copy)]
pub struct FillOwners;

#[tactic(auto, using(crate::proofs::Counted::fills_counted))]
impl InRow for FillOwners {
    type Item = NodeId;

    ghost of = { λ row ms. fill_owners (spread ms) };

    ghost none = { λ row. refl };

    fn pick(&self, _row: NodeId, mark: Mark) -> Option<NodeId> {
        match mark {
            Mark::Fill { node, .. } => Some(node),
            _ => None,
        }
    }
}

/// The cells that are named.
#[derive(Clone, Copy)]
pub struct CellsIn;

#[tactic(auto, using(crate::proofs::Counted::cells_counted))]
impl InRow for CellsIn {
    type Item = CellId;

    ghost of = { λ row ms. cells_in (spread ms) };

    ghost none = { λ row. refl };

    fn pick(&self, _row: NodeId, mark: Mark) -> Option<CellId> {
        match mark {
            Mark::Skip(_) => None,
            Mark::Gap(cell)
            | Mark::Touch { cell, .. }
            | Mark::Make { cell, .. }
            | Mark::Fill { cell, .. } => Some(cell),
        }
    }
}

/// The cells that are made.
#[derive(Clone, Copy)]
pub struct CellsMade;

#[tactic(auto, using(crate::proofs::Counted::made_counted))]
impl InRow for CellsMade {
    type Item = CellId;

    ghost of = { λ row ms. cells_made (spread ms) };

    ghost none = { λ row. refl };

    fn pick(&self, _row: NodeId, mark: Mark) -> Option<CellId> {
        match mark {
            Mark::Make { cell, .. } => Some(cell),
            _ => None,
        }
    }
}

/// The nodes that are found in registers.
#[derive(Clone, Copy)]
pub struct HeldAt;

impl<G: Register> Part<G> for HeldAt {
    type Item = Found;

    ghost of = { flat_map G.found };

    ghost none = { refl };

    fn pick(&self, from: &G) -> Option<Found> {
        from.found_node()
    }
}

/// The nodes that are put into registers.
#[derive(Clone, Copy)]
pub struct PutAt;

impl<G: Register> Part<G> for PutAt {
    type Item = NodeId;

    ghost of = { flat_map G.put };

    ghost none = { refl };

    fn pick(&self, from: &G) -> Option<NodeId> {
        from.put()
    }
}

/// The nodes whose registers are listed.
#[derive(Clone, Copy)]
pub struct OfRegisters;

impl<G: Register> Part<G> for OfRegisters {
    type Item = NodeId;

    ghost of = { λ rs. map (λ (f : Field). f.node) (map G.field rs) };

    ghost none = { refl };

    fn pick(&self, from: &G) -> Option<NodeId> {
        Some(from.field().node)
    }
}

/// The nodes whose rows are listed.
#[derive(Clone, Copy)]
pub struct OfRows;

impl Part<RowMarks> for OfRows {
    type Item = NodeId;

    ghost of = { map (λ (r : Row). r.node) };

    ghost none = { refl };

    fn pick(&self, from: &RowMarks) -> Option<NodeId> {
        Some(from.node)
    }
}

/// The nodes that are nowhere.
#[derive(Clone, Copy)]
pub struct Nowhere;

impl Part<Loose> for Nowhere {
    type Item = Found;

    ghost of = { found_loose };

    ghost none = { refl };

    fn pick(&self, from: &Loose) -> Option<Found> {
        Some(Found {
            node: from.node,
            how: from.how,
        })
    }
}

/// The nodes that are new.
#[derive(Clone, Copy)]
pub struct Fresh;

impl Part<NewNode> for Fresh {
    type Item = NodeId;

    ghost of = { nodes_new };

    ghost none = { refl };

    fn pick(&self, from: &NewNode) -> Option<NodeId> {
        Some(from.node)
    }
}

/// The nodes that are found in registers that aren't cleared.
#[derive(Clone, Copy)]
pub struct KeptAt;

impl Part<RegMark> for KeptAt {
    type Item = Found;

    ghost of = { flat_map kept_at };

    ghost none = { refl };

    fn pick(&self, from: &RegMark) -> Option<Found> {
        if from.clear { None } else { from.found_node() }
    }
}

/// Nodes, as they are listed.
#[derive(Clone, Copy)]
pub struct Each;

impl Part<NodeId> for Each {
    type Item = NodeId;

    ghost of = { λ ns. ns };

    ghost none = { refl };

    fn pick(&self, from: &NodeId) -> Option<NodeId> {
        Some(*from)
    }
}

/// The revisions of entries.
#[derive(Clone, Copy)]
pub struct RevOf;

impl Part<SchemaEntry> for RevOf {
    type Item = Rev;

    ghost of = { map (λ (e : Entry). e.rev) };

    ghost none = { refl };

    fn pick(&self, from: &SchemaEntry) -> Option<Rev> {
        Some(from.rev)
    }
}
