//! Whether a node stands alike in two documents.
ghost use Rattle.std.specs.Prelude.{◌≡◌, unwrap_or};
ghost use Rattle.std.specs.Option.{option_copied};
ghost use Rattle.st_marks.specs.declared.places.Spot.{Spot as Standing};
ghost use Rattle.st_doc.specs.Doc.{document_of};
ghost use Rattle.st_step.specs.inside.Marks.{same_spot};

use st_doc::Doc;
use st_ids::{NodeId, is_same_cell, is_same_field, is_same_node};
use st_marks::Spot;

// Whether two places are the same.
fn is_same_spot(a: &Spot, b: &Spot) -> bool
    ensures { result ≡ same_spot a.now b.now }
{
    match (a, b) {
        (Spot::Nowhere, Spot::Nowhere) => true,
        (Spot::Row { node: m, cell: c }, Spot::Row { node: n, cell: d }) => {
            is_same_node(*m, *n) && is_same_cell(*c, *d)
        }
        (Spot::Register(f), Spot::Register(g)) => is_same_field(f, g),
        _ => false,
    }
}

// Whether a place is nowhere.
fn is_no_spot(spot: &Spot) -> bool
    ensures first { result ≡ same_spot Standing.Nowhere spot.now }
    ensures second { result ≡ same_spot spot.now Standing.Nowhere }
{
    match spot {
        Spot::Nowhere => true,
        _ => false,
    }
}

// Whether two places are the same, where none says nowhere.
fn is_same_place(a: Option<&Spot>, b: Option<&Spot>) -> bool
    ensures { result ≡ same_spot (unwrap_or (option_copied a.entry) Standing.Nowhere)
        (unwrap_or (option_copied b.entry) Standing.Nowhere) }
{
    match (a, b) {
        (None, None) => true,
        (None, Some(spot)) => is_no_spot(spot),
        (Some(spot), None) => is_no_spot(spot),
        (Some(a), Some(b)) => is_same_spot(a, b),
    }
}

/// Whether a node stands where it stood.
pub fn stands_alike(doc: &Doc, later: &Doc, node: NodeId) -> bool
    ensures { result ≡ same_spot ((document_of doc.now).place node) ((document_of later.now).place node) }
{
    is_same_place(doc.place(node), later.place(node))
}
