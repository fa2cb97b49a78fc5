//! The way back over a commit, made of the commit and the document before it.
ghost use Rattle.std.specs.Prelude.{◌≡◌, ◌||◌, ◌&&◌, ◌++◌, ◌∷◌, [], cond, Some, None, IfOk, OnOk, option_map, unwrap_or};
ghost use Rattle.std.specs.BTreeMap.{get};
ghost use Rattle.std.specs.BTreeSet.{contains};
ghost use Rattle.std.specs.List.{filter_map, find, list_any};
ghost use Rattle.std.specs.Option.{option_copied, option_to_list};
ghost use Rattle.st_ids.specs.Listing.{AreDistinct};
ghost use Rattle.st_ids.specs.Order.{node_cmp, cell_cmp, same_cell, same_node};
ghost use Rattle.st_ids.specs.declared.names.CellId.{CellId as Cell};
ghost use Rattle.st_ids.specs.declared.names.NodeId.{NodeId as Node};
ghost use Rattle.st_marks.specs.declared.intents.Put.{Put as PutOf};
ghost use Rattle.st_marks.specs.declared.intents.To.{To as Target};
ghost use Rattle.st_marks.specs.Back.{is_in as has_node, to_of as to_place};
ghost use Rattle.st_marks.specs.Document.{IsSoundInForm};
ghost use Rattle.st_marks.specs.Intent.{Fits, put_of, register_of as register, same_option};
ghost use Rattle.st_doc.specs.Doc.{document_of};
ghost use Rattle.st_heads.specs.Remembered.{IsWayBack};
ghost use Rattle.st_heads.specs.inside.GoingBack.{back_by, back_of_put, entered_field as entered_by, if_evicted, in_old_row, leads_into_old as leads_into};
ghost use Rattle.st_marks.specs.Row.{same_to};

use crate::ways::Way;
use st_doc::Doc;
use st_ids::{CellId, Copied, FieldId, List, NodeId, is_same_cell, is_same_field};
use st_marks::{Group, Intent, Owned, Put, Spot, To};
use std::alloc::{AllocError, Global};
use std::collections::{BTreeMap, BTreeSet};

// Whether a node is there.
pub(crate) fn is_in(doc: &Doc, node: NodeId) -> bool
    ensures { result ≡ has_node (document_of doc.now) node }
{
    doc.type_of(node).is_some()
}

// Adds the names of cells to others.
fn add_cells(names: &mut BTreeSet<CellId>, cells: &[Owned]) -> Result<(), AllocError>
    ensures { OnOk result ((c : Cell) → contains cell_cmp names.new c
        ≡ (contains cell_cmp names.old c || list_any (λ o. same_cell o.cell c) cells.now)) }
{
    for owned in cells {
        names.insert(owned.cell)?;
    }
    Ok(())
}

// Adds the names of a group's cells, if the group is in the row of an old node.
fn add_group(names: &mut BTreeSet<CellId>, doc: &Doc, group: &Group) -> Result<(), AllocError>
    ensures { OnOk result ((c : Cell) → contains cell_cmp names.new c
        ≡ (contains cell_cmp names.old c || (has_node (document_of doc.now) group.now.node && list_any (λ o. same_cell o.cell c) group.now.cells))) }
{
    if is_in(doc, group.node) {
        add_cells(names, group.cells.as_slice())?;
        return Ok(());
    }
    Ok(())
}

// The cells that an intent makes in rows of old nodes.
fn cells_in_old_rows(
    alloc: Global,
    doc: &Doc,
    intent: &Intent,
) -> Result<BTreeSet<CellId>, AllocError>
    ensures { IfOk result (λ names. (c : Cell) → contains cell_cmp names c ≡ in_old_row (document_of doc.now) intent.now.groups c) }
{
    let mut names = BTreeSet::new(alloc);
    for group in intent.groups.as_slice() {
        add_group(&mut names, doc, group)?;
    }
    Ok(names)
}

// Says where a node goes back.
fn set(back: &mut BTreeMap<NodeId, To>, node: NodeId, to: To) -> Result<(), AllocError>
    ensures { OnOk result ((n : Node) → get node_cmp back.new n ≡ cond (same_node node n) (Some to) (get node_cmp back.old n)) }
{
    back.insert(node, to)?;
    Ok(())
}

// Says that a node does not go back.
fn unset(back: &mut BTreeMap<NodeId, To>, node: NodeId)
    ensures { (n : Node) → get node_cmp back.new n ≡ cond (same_node node n) None (get node_cmp back.old n) }
{
    back.remove(&node);
}

// Sends the occupant of a register back into it.
fn bring_back(
    alloc: Global,
    back: &mut BTreeMap<NodeId, To>,
    doc: &Doc,
    field: &FieldId,
) -> Result<(), AllocError>
    ensures { OnOk result ((n : Node) → get node_cmp back.new n
        ≡ cond (same_option same_node ((document_of doc.now).held field.now) (Some n)) (Some (Target.Register field.now)) (get node_cmp back.old n)) }
{
    let Some(node) = doc.held(field) else {
        return Ok(());
    };
    let field = field.copy(alloc)?;
    set(back, node, To::Register(field))?;
    Ok(())
}

// The occupants of cleared registers, each back into its register.
fn bring_all_back(
    alloc: Global,
    doc: &Doc,
    intent: &Intent,
) -> Result<BTreeMap<NodeId, To>, AllocError>
    requires { IsSoundInForm (document_of doc.now) }
    ensures { IfOk result (λ back. (n : Node) → get node_cmp back n ≡ if_evicted intent.now.clear ((document_of doc.now).place n)) }
{
    let mut back = BTreeMap::new(alloc);
    for field in intent.clear.as_slice() {
        bring_back(alloc, &mut back, doc, field)?;
    }
    Ok(back)
}

// The put that leads to a place.
fn to_of(alloc: Global, spot: &Spot) -> Result<To, AllocError>
    ensures { IfOk result (λ to. to ≡ to_place spot.now) }
{
    match spot {
        Spot::Nowhere => Ok(To::Nowhere),
        Spot::Row { cell, .. } => Ok(To::Cell(*cell)),
        Spot::Register(field) => Ok(To::Register(field.copy(alloc)?)),
    }
}

// The put that leads to where a node stands.
pub(crate) fn to_place_of(alloc: Global, doc: &Doc, node: NodeId) -> Result<To, AllocError>
    ensures { IfOk result (λ to. to ≡ to_place ((document_of doc.now).place node)) }
{
    match doc.place(node) {
        None => Ok(To::Nowhere),
        Some(spot) => to_of(alloc, spot),
    }
}

// Whether a put leads nowhere.
fn is_nowhere(to: &To) -> bool
    ensures { result ≡ same_to to.now Target.Nowhere }
{
    match to {
        To::Nowhere => true,
        _ => false,
    }
}

// Whether a put leads to a place.
fn leads_to(to: &To, spot: &Spot) -> bool
    ensures { result ≡ same_to to.now (to_place spot.now) }
{
    match (to, spot) {
        (To::Nowhere, Spot::Nowhere) => true,
        (To::Cell(c), Spot::Row { cell, .. }) => is_same_cell(*c, *cell),
        (To::Register(f), Spot::Register(g)) => is_same_field(f, g),
        _ => false,
    }
}

// Whether a put leads to where a node stands.
pub(crate) fn leads_to_place(doc: &Doc, node: NodeId, to: &To) -> bool
    ensures { result ≡ same_to to.now (to_place ((document_of doc.now).place node)) }
{
    match doc.place(node) {
        None => is_nowhere(to),
        Some(spot) => leads_to(to, spot),
    }
}

// Whether a put leads to where its node stands.
fn stays(doc: &Doc, put: &Put) -> bool
    ensures { result ≡ same_to put.now.to (to_place ((document_of doc.now).place put.now.node)) }
{
    leads_to_place(doc, put.node, &put.to)
}

// Whether a put of a new node leads into a field of an old node. `names` has the cells made in rows of old nodes.
fn leads_into_old(doc: &Doc, names: &BTreeSet<CellId>, to: &To) -> bool
    ensures { result ≡ leads_into (document_of doc.now) (contains cell_cmp names.now) to.now }
{
    match to {
        To::Nowhere => false,
        To::Cell(cell) => names.contains(cell),
        To::Register(field) => is_in(doc, field.node),
    }
}

// Where a node that is put goes back, if it does.
fn goes_back(
    alloc: Global,
    doc: &Doc,
    names: &BTreeSet<CellId>,
    put: &Put,
) -> Result<Option<To>, AllocError>
    ensures { IfOk result (λ to. to ≡ back_of_put (document_of doc.now) (contains cell_cmp names.now) put.now.node put.now.to) }
{
    if !is_in(doc, put.node) {
        let out = leads_into_old(doc, names, &put.to);
        return Ok(if out { Some(To::Nowhere) } else { None });
    }
    if stays(doc, put) {
        return Ok(None);
    }
    let to = to_place_of(alloc, doc, put.node)?;
    Ok(Some(to))
}

// Says where a node goes back, or that it does not.
fn set_back(back: &mut BTreeMap<NodeId, To>, node: NodeId, to: Option<To>) -> Result<(), AllocError>
    ensures { OnOk result ((n : Node) → get node_cmp back.new n ≡ cond (same_node node n) to (get node_cmp back.old n)) }
{
    match to {
        None => {
            unset(back, node);
            Ok(())
        }
        Some(to) => {
            set(back, node, to)?;
            Ok(())
        }
    }
}

// Says of each node that an intent puts where it goes back, by its first put. The puts are taken from the last to the
// first.
fn put_all_back(
    alloc: Global,
    back: &mut BTreeMap<NodeId, To>,
    doc: &Doc,
    names: &BTreeSet<CellId>,
    intent: &Intent,
) -> Result<(), AllocError>
    ensures { OnOk result ((n : Node) → get node_cmp back.new n
        ≡ back_by (document_of doc.now) (contains cell_cmp names.now) n (put_of intent.now n) (get node_cmp back.old n)) }
{
    let puts = intent.put.as_slice();
    let mut left = puts.len();
    while left > 0 {
        left -= 1;
        let put = &puts[left];
        let to = goes_back(alloc, doc, names, put)?;
        set_back(back, put.node, to)?;
    }
    Ok(())
}

// Where each node goes back that does.
fn places_back(
    alloc: Global,
    doc: &Doc,
    intent: &Intent,
) -> Result<BTreeMap<NodeId, To>, AllocError>
    requires { IsSoundInForm (document_of doc.now) }
    ensures { IfOk result (λ back. (n : Node) → get node_cmp back n
        ≡ back_by (document_of doc.now) (in_old_row (document_of doc.now) intent.now.groups) n (put_of intent.now n) (if_evicted intent.now.clear ((document_of doc.now).place n))) }
{
    let names = cells_in_old_rows(alloc, doc, intent)?;
    let mut back = bring_all_back(alloc, doc, intent)?;
    put_all_back(alloc, &mut back, doc, &names, intent)?;
    Ok(back)
}

// Puts a put behind others.
fn push_put(alloc: Global, puts: &mut List<Put>, node: NodeId, to: &To) -> Result<(), AllocError>
    ensures { OnOk result (puts.new ≡ puts.old ++ record { node = node; to = to.now } ∷ []) }
{
    let to = to.copy(alloc)?;
    puts.push(Put { node, to })?;
    Ok(())
}

// The puts of a map, in order.
fn puts_of(alloc: Global, back: &BTreeMap<NodeId, To>) -> Result<List<Put>, AllocError>
    ensures found { IfOk result (λ puts. (n : Node)
        → option_map (λ (p : PutOf). p.to) (find (λ (p : PutOf). same_node p.node n) puts) ≡ get node_cmp back.now n) }
    ensures once { IfOk result (λ puts. AreDistinct (λ (p : PutOf). p.node) puts) }
{
    let mut puts = List::new(alloc);
    for (node, to) in back.iter() {
        push_put(alloc, &mut puts, *node, to)?;
    }
    Ok(puts)
}

// The register into which a node is put.
fn register_of(to: &To) -> Option<&FieldId>
    ensures { option_copied result ≡ register to.now }
{
    match to {
        To::Register(field) => Some(field),
        _ => None,
    }
}

// The register of an old node that a put leads into anew.
fn entered_field<'a>(doc: &Doc, put: &'a Put) -> Option<&'a FieldId>
    ensures { option_copied result ≡ entered_by (document_of doc.now) put.now.node put.now.to }
{
    let field = register_of(&put.to)?;
    if is_in(doc, field.node) && !stays(doc, put) {
        Some(field)
    } else {
        None
    }
}

// Puts a register behind others, if there is one.
pub(crate) fn push_field(
    alloc: Global,
    fields: &mut List<FieldId>,
    field: Option<&FieldId>,
) -> Result<(), AllocError>
    ensures { OnOk result (fields.new ≡ fields.old ++ option_to_list (option_copied field.entry)) }
{
    let Some(field) = field else {
        return Ok(());
    };
    let field = field.copy(alloc)?;
    fields.push(field)?;
    Ok(())
}

// Puts the registers into which nodes are put behind others.
fn push_registers(alloc: Global, fields: &mut List<FieldId>, puts: &[Put]) -> Result<(), AllocError>
    ensures { OnOk result (fields.new ≡ fields.old ++ filter_map (λ (p : PutOf). register p.to) puts.now) }
{
    for put in puts {
        push_field(alloc, fields, register_of(&put.to))?;
    }
    Ok(())
}

// Puts the registers of old nodes that puts lead into anew behind others.
fn push_entered(
    alloc: Global,
    fields: &mut List<FieldId>,
    doc: &Doc,
    puts: &[Put],
) -> Result<(), AllocError>
    ensures { OnOk result (fields.new ≡ fields.old ++ filter_map (λ (p : PutOf). entered_by (document_of doc.now) p.node p.to) puts.now) }
{
    for put in puts {
        push_field(alloc, fields, entered_field(doc, put))?;
    }
    Ok(())
}

// The registers of old nodes whose occupants differ afterwards: those into which nodes go back, and those that are
// entered.
fn fields_to_clear(
    alloc: Global,
    doc: &Doc,
    intent: &Intent,
    back: &[Put],
) -> Result<List<FieldId>, AllocError>
    ensures { IfOk result (λ fields. fields ≡ filter_map (λ (p : PutOf). register p.to) back.now
        ++ filter_map (λ (p : PutOf). entered_by (document_of doc.now) p.node p.to) intent.now.put) }
{
    let mut fields = List::new(alloc);
    push_registers(alloc, &mut fields, back)?;
    push_entered(alloc, &mut fields, doc, intent.put.as_slice())?;
    Ok(fields)
}

/// The way back over a commit, made before the commit is carried out: from the document after it, where it is carried
/// out whole, to the one before. With k names in the intent and d in the document it takes the time of k look-ups,
/// O(k log d), and no document is copied.
pub fn way_back(alloc: Global, doc: &Doc, intent: &Intent) -> Result<Way, AllocError>
    requires sound { IsSoundInForm (document_of doc.now) }
    requires fits { Fits (document_of doc.now) intent.now }
    ensures { IfOk result (IsWayBack (document_of doc.now) intent.now) }
{
    let back = places_back(alloc, doc, intent)?;
    let put = puts_of(alloc, &back)?;
    let clear = fields_to_clear(alloc, doc, intent, put.as_slice())?;
    Ok(Way { clear, put })
}
