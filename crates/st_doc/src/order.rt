//! The order in which the nodes of the live tree are gone through.
ghost use Rattle.std.specs.Prelude.{◌≡◌, ◌++◌, map, slice_get, OnOk, IfOk};
ghost use Rattle.st_marks.specs.Document.{IsSoundInForm, content};
ghost use Rattle.st_marks.specs.LiveTree.{owners_shown};
ghost use Rattle.st_doc.specs.declared.seats.Seat.{Seat as Held};
ghost use Rattle.st_doc.specs.Doc.{document_of};
ghost use Rattle.st_doc.specs.inside.LiveText.{AreSeats};
ghost use Rattle.st_doc.specs.inside.TopDown.{IsTopDown};

use crate::doc::Doc;
use crate::live::is_full;
use crate::opening::root_node;
use crate::rows::cells_of;
use crate::seats::{Seat, seats_at};
use st_ids::{List, NodeId};
use std::alloc::{AllocError, Global};
use std::collections::BTreeMap;

// Puts the items of a row behind other nodes.
fn push_items(doc: &Doc, node: NodeId, order: &mut Vec<NodeId>) -> Result<(), AllocError>
    ensures { OnOk result (order.new.items ≡ order.old.items ++ owners_shown (content (document_of doc.now) node)) }
{
    for owned in cells_of(&doc.rows, node) {
        if is_full(&doc.place, owned) {
            order.push(owned.node)?;
        }
    }
    Ok(())
}

// Puts the occupants of registers behind other nodes.
fn push_occupants(seats: &[Seat], order: &mut Vec<NodeId>) -> Result<(), AllocError>
    ensures { OnOk result (order.new.items ≡ order.old.items ++ map (λ (s : Held). s.node) seats.now) }
{
    for seat in seats {
        order.push(seat.node)?;
    }
    Ok(())
}

// The node at a place.
fn node_at(order: &[NodeId], place: usize) -> Option<NodeId>
    ensures { result ≡ slice_get order.now place }
{
    order.get(place).copied()
}

/// The live nodes: the root, and each before those directly beneath it.
pub fn top_down(
    alloc: Global,
    doc: &Doc,
    seats: &BTreeMap<NodeId, List<Seat>>,
) -> Result<Vec<NodeId>, AllocError>
    requires sound { IsSoundInForm (document_of doc.now) }
    requires seats { AreSeats doc.now.held seats.now }
    ensures { IfOk result (λ order. IsTopDown (document_of doc.now) order.items) }
{
    let mut order = Vec::new(alloc);
    order.push(root_node())?;
    let mut next = 0;
    while let Some(node) = node_at(order.as_slice(), next) {
        push_items(doc, node, &mut order)?;
        push_occupants(seats_at(seats, node), &mut order)?;
        next += 1;
    }
    Ok(order)
}
