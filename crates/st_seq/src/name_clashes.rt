//! The cells and nodes that listings of one row name, and whether two listings can both be true of them.
ghost use Rattle.std.specs.Prelude.{◌≡◌, ◌⊎◌, ◌^◌, ◌<◌, ◌∷◌, ◌++◌, [], length, List as Seq, IfOk, OnOk, Some, option_to_list};
ghost use Rattle.std.specs.BTreeMap.{get};
ghost use Rattle.std.specs.Option.{option_or};
ghost use Rattle.st_ids.specs.Order.{atom_cmp, lesser as lesser_of};
ghost use Rattle.st_ids.specs.declared.names.Atom.{Atom as Name};
ghost use Rattle.st_kind.specs.Refused.{IsApartWhere};
ghost use Rattle.st_marks.specs.Row.{spread};
ghost use Rattle.st_marks.specs.Listings.{cells_after, cells_before};
ghost use Rattle.st_rows.specs.Views.{row_views};
ghost use Rattle.st_seq.specs.NamedApart.{NamedApart, SaidInTurn, found_at as at, first_named, named_after as after_names, named_before as before_names, named_in_row as row_names, stands_at as stands, standing_at as standing};
ghost use Rattle.st_seq.specs.inside.NamedApart.{IsPlace, SaidBeside, SaidOver, clash_with, first_clash};
ghost use Rattle.st_seq.specs.declared.name_clashes.NamedAt.{NamedAt as Named};

use st_ids::{Atom, List, NodeId, Or};
use st_kind::Apart;
use st_marks::{How, Mark, Slot};
use std::alloc::{AllocError, Global};
use std::collections::BTreeMap;

/// A cell, or a node that stands, as a listing names it: whether the listing makes it, and how many cells that it finds stand
/// left of it.
#[derive(Clone, Copy)]
pub struct NamedAt {
    pub name: Atom,
    pub left: u32,
    pub made: bool,
}

/// What a listing names.
#[derive(Drop)]
struct Names {
    cells: List<NamedAt>,
    nodes: List<NamedAt>,
}

/// What is found at a place.
pub fn found_at(name: Atom, left: u32) -> NamedAt
    ensures { result ≡ at name left }
{
    NamedAt {
        name,
        left,
        made: false,
    }
}

/// The cell that a mark names, where the listing stands, and so many cells are found before it.
fn name_before(mark: Mark, left: u32) -> Option<NamedAt>
    ensures { before_names left (spread (mark ∷ [])) ≡ option_to_list result }
{
    match mark {
        Mark::Skip(_) => None,
        Mark::Gap(cell) => Some(found_at(cell.0, left)),
        Mark::Touch { cell, .. } => Some(found_at(cell.0, left)),
        Mark::Fill { cell, .. } => Some(found_at(cell.0, left)),
        Mark::Make { cell, .. } => Some(NamedAt {
            name: cell.0,
            left,
            made: true,
        }),
    }
}

/// The cell that a mark names, as what comes next finds it behind so many cells.
fn name_after(mark: Mark, left: u32) -> Option<NamedAt>
    ensures { after_names left (spread (mark ∷ [])) ≡ option_to_list result }
{
    match mark {
        Mark::Skip(_) => None,
        Mark::Gap(cell) => Some(found_at(cell.0, left)),
        Mark::Touch { cell, .. } => Some(found_at(cell.0, left)),
        Mark::Fill { cell, .. } => Some(found_at(cell.0, left)),
        Mark::Make { cell, .. } => Some(found_at(cell.0, left)),
    }
}

/// The node that a cell is full with, if it is full.
fn stands_at(full: bool, node: NodeId, left: u32) -> Option<NamedAt>
    ensures { stands full (Some node) left ≡ option_to_list result }
{
    if full {
        Some(found_at(node.0, left))
    } else {
        None
    }
}

/// The node that a mark names where it stands, and so many cells are found before it.
fn standing_before(mark: Mark, left: u32) -> Option<NamedAt>
    ensures { standing left (cells_before (spread (mark ∷ []))) ≡ option_to_list result }
{
    match mark {
        Mark::Skip(_) => None,
        Mark::Gap(_) => None,
        Mark::Touch { node, .. } => stands_at(true, node, left),
        Mark::Make { .. } => None,
        Mark::Fill { .. } => None,
    }
}

/// The node that a mark leaves in its cell.
fn standing_after(mark: Mark, left: u32) -> Option<NamedAt>
    ensures { standing left (cells_after (spread (mark ∷ []))) ≡ option_to_list result }
{
    match mark {
        Mark::Skip(_) => None,
        Mark::Gap(_) => None,
        Mark::Touch { node, how, .. } => stands_at(!matches!(how, How::Leave), node, left),
        Mark::Make { node, full, .. } => stands_at(full, node, left),
        Mark::Fill { node, .. } => stands_at(true, node, left),
    }
}

/// How many cells a mark finds.
pub fn cells_found(mark: Mark) -> u32
    ensures { result ≡ length (cells_before (spread (mark ∷ []))) }
{
    match mark {
        Mark::Skip(count) => count,
        Mark::Make { .. } => 0,
        Mark::Gap(_) => 1,
        Mark::Touch { .. } => 1,
        Mark::Fill { .. } => 1,
    }
}

/// How many cells a mark leaves.
fn left_by(mark: Mark) -> u32
    ensures { result ≡ length (cells_after (spread (mark ∷ []))) }
{
    match mark {
        Mark::Skip(count) => count,
        Mark::Make { .. } => 1,
        Mark::Gap(_) => 1,
        Mark::Touch { .. } => 1,
        Mark::Fill { .. } => 1,
    }
}

/// Adds what may be named.
pub fn push_name(out: &mut List<NamedAt>, name: Option<NamedAt>) -> Result<(), AllocError>
    ensures { OnOk result (out.new ≡ out.old ++ option_to_list name) }
{
    match name {
        None => Ok(()),
        Some(name) => {
            out.push(name)?;
            Ok(())
        }
    }
}

/// Adds a cell and a node that may be named.
fn push_names(
    out: &mut Names,
    cell: Option<NamedAt>,
    node: Option<NamedAt>,
) -> Result<(), AllocError>
    ensures cells { OnOk result (out.new.cells ≡ out.old.cells ++ option_to_list cell) }
    ensures nodes { OnOk result (out.new.nodes ≡ out.old.nodes ++ option_to_list node) }
{
    push_name(&mut out.cells, cell)?;
    push_name(&mut out.nodes, node)
}

/// No names.
fn no_names(alloc: Global) -> Names
    ensures cells { result.cells ≡ [] }
    ensures nodes { result.nodes ≡ [] }
{
    Names {
        cells: List::new(alloc),
        nodes: List::new(alloc),
    }
}

/// What a listing names, where it stands.
fn named_before(alloc: Global, marks: &[Mark]) -> Result<Names, AllocError>
    requires { length (cells_before (spread marks.now)) < 2 ^ 32 }
    ensures cells { IfOk result (λ names. names.cells ≡ before_names 0 (spread marks.now)) }
    ensures nodes { IfOk result (λ names. names.nodes ≡ standing 0 (cells_before (spread marks.now))) }
{
    let mut out = no_names(alloc);
    let mut left = 0;
    for mark in marks {
        push_names(
            &mut out,
            name_before(*mark, left),
            standing_before(*mark, left),
        )?;
        left += cells_found(*mark);
    }
    Ok(out)
}

/// What a listing names, as what comes next finds it.
fn named_after(alloc: Global, marks: &[Mark]) -> Result<Names, AllocError>
    requires { length (cells_after (spread marks.now)) < 2 ^ 32 }
    ensures cells { IfOk result (λ names. names.cells ≡ after_names 0 (spread marks.now)) }
    ensures nodes { IfOk result (λ names. names.nodes ≡ standing 0 (cells_after (spread marks.now))) }
{
    let mut out = no_names(alloc);
    let mut left = 0;
    for mark in marks {
        push_names(
            &mut out,
            name_after(*mark, left),
            standing_after(*mark, left),
        )?;
        left += left_by(*mark);
    }
    Ok(out)
}

/// What a row holds.
fn named_in_row(alloc: Global, row: &[Slot]) -> Result<Names, AllocError>
    requires { length row.now < 2 ^ 32 }
    ensures cells { IfOk result (λ names. names.cells ≡ row_names 0 row.now) }
    ensures nodes { IfOk result (λ names. names.nodes ≡ standing 0 (row_views row.now)) }
{
    let mut out = no_names(alloc);
    let mut left = 0;
    for slot in row {
        let cell = Some(found_at(slot.cell.0, left));
        push_names(&mut out, cell, stands_at(slot.full, slot.node, left))?;
        left += 1;
    }
    Ok(out)
}

/// What is kept of a name.
pub fn name_entry(names: &BTreeMap<Atom, NamedAt>, name: Atom) -> Option<NamedAt>
    ensures { result ≡ get atom_cmp names.now name }
{
    names.get(&name).copied()
}

/// Keeps what is named by its name, unless there is something of that name.
fn keep(names: &mut BTreeMap<Atom, NamedAt>, name: NamedAt) -> Result<(), AllocError>
    ensures { OnOk result ((a : Name) → get atom_cmp names.new a
        ≡ option_or (get atom_cmp names.old a) (first_named (name ∷ []) a)) }
{
    match name_entry(names, name.name) {
        None => {
            names.insert(name.name, name)?;
            Ok(())
        }
        Some(_) => Ok(()),
    }
}

/// The first of each name.
pub fn by_name(alloc: Global, names: &[NamedAt]) -> Result<BTreeMap<Atom, NamedAt>, AllocError>
    ensures { IfOk result (λ map. (a : Name) → get atom_cmp map a ≡ first_named names.now a) }
{
    let mut map = BTreeMap::new(alloc);
    for name in names {
        keep(&mut map, *name)?;
    }
    Ok(map)
}

/// The first place at which what is said twice of one name can't both be true.
fn clash(name: NamedAt, other: Option<NamedAt>) -> Option<u32>
    ensures { result ≡ clash_with name other }
{
    match other {
        None => None,
        Some(other) => {
            if !other.made && !name.made && other.left == name.left {
                None
            } else {
                Some(other.left.min(name.left))
            }
        }
    }
}

/// The lesser of two places.
pub fn lesser(a: Option<u32>, b: Option<u32>) -> Option<u32>
    ensures { result ≡ lesser_of a b }
{
    match (a, b) {
        (None, b) => b,
        (Some(a), None) => Some(a),
        (Some(a), Some(b)) => Some(a.min(b)),
    }
}

/// The first place at which something is named apart.
fn first_apart(first: &BTreeMap<Atom, NamedAt>, then: &[NamedAt]) -> Option<u32>
    ensures { (A : Seq Named) → ((a : Name) → get atom_cmp first.now a ≡ first_named A a)
        → result ≡ first_clash A then.now }
{
    let mut place = None;
    for name in then {
        place = lesser(place, clash(*name, name_entry(first, name.name)));
    }
    place
}

/// The first place at which two lists name something apart.
fn place_apart(
    alloc: Global,
    first: &List<NamedAt>,
    then: &List<NamedAt>,
) -> Result<Option<u32>, AllocError>
    ensures { IfOk result (λ place. place ≡ first_clash first.now then.now) }
{
    let names = by_name(alloc, first.as_slice())?;
    Ok(first_apart(&names, then.as_slice()))
}

/// The first place at which two listings name a cell apart, or a node that stands.
fn place_said(alloc: Global, first: &Names, then: &Names) -> Result<Option<u32>, AllocError>
    ensures { IfOk result (IsPlace (λ k. NamedApart first.now.cells then.now.cells k
        ⊎ NamedApart first.now.nodes then.now.nodes k)) }
{
    let cell = place_apart(alloc, &first.cells, &then.cells)?;
    let node = place_apart(alloc, &first.nodes, &then.nodes)?;
    Ok(lesser(cell, node))
}

/// Refuses two listings that name a cell apart, or a node that stands.
fn agree(alloc: Global, first: &Names, then: &Names) -> Result<(), Or<Apart>>
    ensures { IsApartWhere result (λ k. NamedApart first.now.cells then.now.cells k
        ⊎ NamedApart first.now.nodes then.now.nodes k) }
{
    match place_said(alloc, first, then)? {
        None => Ok(()),
        Some(place) => Err(Or::Fault(Apart { place })),
    }
}

/// Refuses a row and a step that names a cell or a node apart from it.
pub fn agree_over(alloc: Global, row: &[Slot], step: &[Mark]) -> Result<(), Or<Apart>>
    requires row { length row.now < 2 ^ 32 }
    requires step { length (cells_before (spread step.now)) < 2 ^ 32 }
    ensures { IsApartWhere result (SaidOver row.now (spread step.now)) }
{
    let there = named_in_row(alloc, row)?;
    let found = named_before(alloc, step)?;
    agree(alloc, &there, &found)
}

/// The first place at which two listings in turn name a cell or a node apart: what the first leaves, and what the second finds
/// and makes.
pub fn said_in_turn(alloc: Global, first: &[Mark], then: &[Mark]) -> Result<Option<u32>, AllocError>
    requires first { length (cells_after (spread first.now)) < 2 ^ 32 }
    requires then { length (cells_before (spread then.now)) < 2 ^ 32 }
    ensures { IfOk result (IsPlace (SaidInTurn (spread first.now) (spread then.now))) }
{
    let left = named_after(alloc, first)?;
    let found = named_before(alloc, then)?;
    place_said(alloc, &left, &found)
}

/// Refuses two steps in turn that name a cell or a node apart.
pub fn agree_in_turn(alloc: Global, first: &[Mark], then: &[Mark]) -> Result<(), Or<Apart>>
    requires first { length (cells_after (spread first.now)) < 2 ^ 32 }
    requires then { length (cells_before (spread then.now)) < 2 ^ 32 }
    ensures { IsApartWhere result (SaidInTurn (spread first.now) (spread then.now)) }
{
    match said_in_turn(alloc, first, then)? {
        None => Ok(()),
        Some(place) => Err(Or::Fault(Apart { place })),
    }
}

/// Refuses two listings side by side that name a cell or a node apart.
pub fn agree_beside(alloc: Global, first: &[Mark], then: &[Mark]) -> Result<(), Or<Apart>>
    requires first { length (cells_before (spread first.now)) < 2 ^ 32 }
    requires then { length (cells_before (spread then.now)) < 2 ^ 32 }
    ensures { IsApartWhere result (SaidBeside (spread first.now) (spread then.now)) }
{
    let found = named_before(alloc, first)?;
    let others = named_before(alloc, then)?;
    agree(alloc, &found, &others)
}
