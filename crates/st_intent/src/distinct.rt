//! Whether no two items of a list are the same.
ghost use Rattle.std.specs.Prelude.{◌≡◌, ◌&&◌};
ghost use Rattle.std.specs.List.{list_any};
ghost use Rattle.st_ids.specs.Order.{same_node, same_cell, same_field};
ghost use Rattle.st_marks.specs.Intent.{same_anchor, cell_of, register_of};
ghost use Rattle.st_intent.specs.inside.Rules.{are_distinct, are_same};

use crate::finds::has_cell;
use crate::same::is_same_anchor;
use st_ids::{CellId, is_same_cell, is_same_field, is_same_node};
use st_marks::{Group, NewNode, Owned, Put, To};

fn has_new(new: &[NewNode], node: &NewNode) -> bool
    ensures { result ≡ list_any (λ m. same_node m.node node.now.node) new.now }
{
    new.iter().any(|m| is_same_node(m.node, node.node))
}

/// Whether no two new nodes have one name.
pub fn new_are_distinct(new: &[NewNode]) -> bool
    ensures { result ≡ are_distinct (λ m k. same_node m.node k.node) new.now }
{
    for (i, node) in new.iter().enumerate() {
        if has_new(&new[i + 1..], node) {
            return false;
        }
    }
    true
}

/// Whether no two cells have one name.
pub fn cells_are_distinct(cells: &[Owned]) -> bool
    ensures { result ≡ are_distinct (λ o p. same_cell o.cell p.cell) cells.now }
{
    for (i, owned) in cells.iter().enumerate() {
        if has_cell(&cells[i + 1..], owned.cell) {
            return false;
        }
    }
    true
}

// Whether two groups stand at one place of one row.
fn are_at_one_place(g: &Group, h: &Group) -> bool
    ensures { result ≡ (same_node g.now.node h.now.node && same_anchor g.now.after h.now.after) }
{
    is_same_node(g.node, h.node) && is_same_anchor(g.after, h.after)
}

fn has_place(groups: &[Group], group: &Group) -> bool
    ensures { result ≡ list_any (λ g. same_node g.node group.now.node && same_anchor g.after group.now.after) groups.now }
{
    groups.iter().any(|g| are_at_one_place(g, group))
}

/// Whether no two groups stand at one place of one row.
pub fn places_are_distinct(groups: &[Group]) -> bool
    ensures { result ≡ are_distinct (λ g h. same_node g.node h.node && same_anchor g.after h.after) groups.now }
{
    for (i, group) in groups.iter().enumerate() {
        if has_place(&groups[i + 1..], group) {
            return false;
        }
    }
    true
}

// Whether two cells are there and the same.
fn are_one_cell(a: Option<CellId>, b: Option<CellId>) -> bool
    ensures { result ≡ are_same same_cell a b }
{
    match (a, b) {
        (Some(a), Some(b)) => is_same_cell(a, b),
        _ => false,
    }
}

fn has_anchor(groups: &[Group], group: &Group) -> bool
    ensures { result ≡ list_any (λ g. are_same same_cell g.after group.now.after) groups.now }
{
    groups.iter().any(|g| are_one_cell(g.after, group.after))
}

/// Whether no two groups stand after one cell.
pub fn anchors_are_distinct(groups: &[Group]) -> bool
    ensures { result ≡ are_distinct (λ g h. are_same same_cell g.after h.after) groups.now }
{
    for (i, group) in groups.iter().enumerate() {
        if has_anchor(&groups[i + 1..], group) {
            return false;
        }
    }
    true
}

fn has_put(puts: &[Put], put: &Put) -> bool
    ensures { result ≡ list_any (λ p. same_node p.node put.now.node) puts.now }
{
    puts.iter().any(|p| is_same_node(p.node, put.node))
}

/// Whether no two puts are of one node.
pub fn puts_are_distinct(puts: &[Put]) -> bool
    ensures { result ≡ are_distinct (λ p q. same_node p.node q.node) puts.now }
{
    for (i, put) in puts.iter().enumerate() {
        if has_put(&puts[i + 1..], put) {
            return false;
        }
    }
    true
}

/// The cell into which a node is put.
pub fn cell_of(to: &To) -> Option<CellId>
    ensures { result ≡ cell_of to.now }
{
    match to {
        To::Cell(cell) => Some(*cell),
        _ => None,
    }
}

// Whether two puts are into one cell.
fn are_in_one_cell(p: &Put, q: &Put) -> bool
    ensures { result ≡ are_same same_cell (cell_of p.now.to) (cell_of q.now.to) }
{
    are_one_cell(cell_of(&p.to), cell_of(&q.to))
}

fn has_put_cell(puts: &[Put], put: &Put) -> bool
    ensures { result ≡ list_any (λ p. are_same same_cell (cell_of p.to) (cell_of put.now.to)) puts.now }
{
    puts.iter().any(|p| are_in_one_cell(p, put))
}

/// Whether no two puts are into one cell.
pub fn put_cells_are_distinct(puts: &[Put]) -> bool
    ensures { result ≡ are_distinct (λ p q. are_same same_cell (cell_of p.to) (cell_of q.to)) puts.now }
{
    for (i, put) in puts.iter().enumerate() {
        if has_put_cell(&puts[i + 1..], put) {
            return false;
        }
    }
    true
}

// Whether two puts are into one register.
fn are_in_one_register(p: &Put, q: &Put) -> bool
    ensures { result ≡ are_same same_field (register_of p.now.to) (register_of q.now.to) }
{
    match (&p.to, &q.to) {
        (To::Register(f), To::Register(g)) => is_same_field(f, g),
        _ => false,
    }
}

fn has_put_register(puts: &[Put], put: &Put) -> bool
    ensures { result ≡ list_any (λ p. are_same same_field (register_of p.to) (register_of put.now.to)) puts.now }
{
    puts.iter().any(|p| are_in_one_register(p, put))
}

/// Whether no two puts are into one register.
pub fn put_registers_are_distinct(puts: &[Put]) -> bool
    ensures { result ≡ are_distinct (λ p q. are_same same_field (register_of p.to) (register_of q.to)) puts.now }
{
    for (i, put) in puts.iter().enumerate() {
        if has_put_register(&puts[i + 1..], put) {
            return false;
        }
    }
    true
}
