//! Cells that are seen, looked for in a list where they rise by name.
ghost use Rattle.std.specs.Prelude.{◌≡◌, ◌↔◌, ◌++◌, true, OnOk};
ghost use Rattle.std.specs.List.{flat_map};
ghost use Rattle.st_ids.specs.Listing.{IsRising, item_of};
ghost use Rattle.st_ids.specs.Order.{cell_cmp};
ghost use Rattle.st_clash.specs.declared.seen.Seen.{Seen as View};
ghost use Rattle.st_clash.specs.inside.Seen.{apart_cell, apart_from};

use crate::named::{Named, place_of, rise};
use crate::seen::Seen;
use crate::twice::push_if_other;
use st_ids::{CellId, List};
use std::alloc::AllocError;

impl Named<CellId> for Seen {
    ghost key = { λ s. s.cell };

    fn name(&self) -> &CellId {
        &self.cell
    }
}

/// Whether the cells of a list rise by name.
pub fn cells_rise(list: &[Seen]) -> bool
    ensures { (result ≡ true) ↔ IsRising cell_cmp (λ (s : View). s.cell) list.now }
{
    rise(list)
}

// Adds a cell that others show elsewhere, which is looked for at one place first; answers where the next may be.
fn push_near(
    bad: &mut List<CellId>,
    others: &[Seen],
    near: usize,
    seen: Seen,
) -> Result<usize, AllocError>
    requires { IsRising cell_cmp (λ (s : View). s.cell) others.now }
    ensures { OnOk result (bad.new ≡ bad.old ++ apart_from seen (item_of cell_cmp (λ (s : View). s.cell) others.now seen.cell)) }
{
    match place_of(others, near, &seen.cell) {
        Err(at) => Ok(at),
        Ok(at) => {
            push_if_other(bad, seen, others[at])?;
            Ok(at.wrapping_add(1))
        }
    }
}

/// Adds the cells that others show elsewhere, where these rise by name. A cell that stands right behind the last one found costs
/// one look, any other a search by halving.
pub fn push_by_search(
    bad: &mut List<CellId>,
    list: &[Seen],
    others: &[Seen],
) -> Result<(), AllocError>
    requires { IsRising cell_cmp (λ (s : View). s.cell) others.now }
    ensures { OnOk result (bad.new ≡ bad.old ++ flat_map (apart_cell (item_of cell_cmp (λ (s : View). s.cell) others.now)) list.now) }
{
    let mut near = 0;
    for seen in list {
        near = push_near(bad, others, near, *seen)?;
    }
    Ok(())
}
