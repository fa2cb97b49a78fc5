//! The registers of two parts of one commit.
ghost use Rattle.std.specs.Prelude.{◌≡◌, map, IfOk, None, option_copied};
ghost use Rattle.std.specs.Option.{option_or};
ghost use Rattle.st_ids.specs.Listing.{item_of};
ghost use Rattle.st_ids.specs.Order.{field_cmp, same_node};
ghost use Rattle.st_marks.specs.declared.intents.To.{To as Aim};
ghost use Rattle.st_marks.specs.declared.marks.RegMark.{RegMark as Register};
ghost use Rattle.st_marks.specs.Intent.{same_option};
ghost use Rattle.st_marks.specs.Register.{comes_in as comes};
ghost use Rattle.st_part_listings.specs.Together.{AreRegistersOf, goes_of, if_it_goes as it_goes, mark_joined as joined, put_there as there, register_behind as behind};

use crate::joint_puts::{Tables, how_it_goes, if_it_goes};
use crate::unions::{table_of, union};
use st_ids::{Copied, FieldId, List, NodeId, is_same_node};
use st_marks::{How, RegMark, To};
use std::alloc::{AllocError, Global};

// Whom the mark of a register puts there: who comes in, or is set where it is.
fn put_there(reg: &RegMark) -> Option<NodeId>
    ensures { result ≡ there reg.now }
{
    match reg.fill {
        Some(node) => Some(node),
        None => match reg.how {
            How::Here => reg.held,
            How::Stay => None,
            How::Leave => None,
        },
    }
}

// Whether two occupants are one, or both are missing.
fn is_same_occupant(held: Option<NodeId>, gets: Option<NodeId>) -> bool
    ensures { result ≡ same_option same_node held gets }
{
    match (held, gets) {
        (None, None) => true,
        (Some(held), Some(gets)) => is_same_node(held, gets),
        _ => false,
    }
}

// Who comes in, unless it is there already.
fn comes_in(held: Option<NodeId>, gets: Option<NodeId>) -> Option<NodeId>
    ensures { result ≡ comes held gets }
{
    if is_same_occupant(held, gets) {
        None
    } else {
        gets
    }
}

// The first of two nodes that is there.
fn first_of(a: Option<NodeId>, b: Option<NodeId>) -> Option<NodeId>
    ensures { result ≡ option_or a b }
{
    match a {
        Some(node) => Some(node),
        None => b,
    }
}

// The mark of a register by both parts, where one or the other puts someone there.
fn mark_of(
    alloc: Global,
    tables: &Tables,
    field: &FieldId,
    held: Option<NodeId>,
    clear: bool,
    puts: (Option<NodeId>, Option<NodeId>),
) -> Result<RegMark, AllocError>
    ensures { IfOk result (λ r. r ≡ joined (goes_of tables.now) field.now held clear
        (option_or (it_goes (goes_of tables.now) (Aim.Register field.now) puts.0) (it_goes (goes_of tables.now) (Aim.Register field.now) puts.1))) }
{
    let here = To::Register(field.copy(alloc)?);
    let gets = first_of(
        if_it_goes(tables, puts.0, &here),
        if_it_goes(tables, puts.1, &here),
    );
    let how = how_it_goes(tables, held, &here);
    Ok(RegMark {
        field: field.copy(alloc)?,
        held,
        how,
        clear,
        fill: comes_in(held, gets),
    })
}

// A register of one part, behind that of the first, if that lists it.
fn register_behind(
    alloc: Global,
    tables: &Tables,
    first: Option<&RegMark>,
    reg: &RegMark,
) -> Result<RegMark, AllocError>
    ensures { IfOk result (λ r. r ≡ behind (goes_of tables.now) (option_copied first.entry) reg.now) }
{
    match first {
        None => mark_of(
            alloc,
            tables,
            &reg.field,
            reg.held,
            reg.clear,
            (None, put_there(reg)),
        ),
        Some(first) => mark_of(
            alloc,
            tables,
            &reg.field,
            first.held,
            first.clear || reg.clear,
            (put_there(reg), put_there(first)),
        ),
    }
}

// The registers of the second part, each behind that of the first.
fn registers_behind(
    alloc: Global,
    tables: &Tables,
    first: &[RegMark],
    second: &[RegMark],
) -> Result<List<RegMark>, AllocError>
    ensures { IfOk result (λ l. l ≡ map (λ (r : Register). behind (goes_of tables.now) (item_of field_cmp (λ (q : Register). q.field) first.now r.field) r) second.now) }
{
    let table = table_of(alloc, first)?;
    let mut regs = List::new(alloc);
    for reg in second {
        let before = table.get(&reg.field);
        regs.push(register_behind(alloc, tables, before, reg)?)?;
    }
    Ok(regs)
}

// The registers of the first part, by where both parts put nodes.
fn registers_before(
    alloc: Global,
    tables: &Tables,
    first: &[RegMark],
) -> Result<List<RegMark>, AllocError>
    ensures { IfOk result (λ l. l ≡ map (behind (goes_of tables.now) None) first.now) }
{
    let mut regs = List::new(alloc);
    for reg in first {
        regs.push(register_behind(alloc, tables, None, reg)?)?;
    }
    Ok(regs)
}

/// The registers of two parts.
pub fn registers_of_parts(
    alloc: Global,
    tables: &Tables,
    first: &[RegMark],
    second: &[RegMark],
) -> Result<List<RegMark>, AllocError>
    ensures { IfOk result (AreRegistersOf (goes_of tables.now) first.now second.now) }
{
    let behind = registers_behind(alloc, tables, first, second)?;
    let before = registers_before(alloc, tables, first)?;
    union(alloc, behind.as_slice(), before.as_slice())
}
