//! Copies, counts of cells, and laws that are called for their contracts.

use st_ids::{
    Atom, CellId, Copied, FieldId, Key, List, NodeId, Rev, Text, is_same_cell, is_same_node,
    is_same_rev,
};
use st_marks::{
    Change, How, Intent, Mark, RegMark, RowMarks, Spot, Step, Verdict, after, back_leads_back,
    before, carrying_out_extends, extends_in_turn, fits_later, joined_in_turn, one_embedding,
    one_step, one_tree, one_verdict, retreat_extends, rows_keep_their_order, run_in_turn,
};
use std::alloc::{AllocError, Global};
use std::test::Fail;

const REV: Rev = Rev { session: 2, num: 1 };

const NODE: NodeId = NodeId(Atom { rev: REV, at: 4 });

const CELL: CellId = CellId(Atom { rev: REV, at: 5 });

const FILL: Mark = Mark::Fill {
    cell: CELL,
    node: NODE,
};

const MAKE: Mark = Mark::Make {
    cell: CELL,
    node: NODE,
    full: false,
};

fn row(alloc: Global) -> Result<RowMarks, AllocError> {
    let marks = List::from_vec(vec![in alloc; Mark::Skip(3), Mark::Gap(CELL), MAKE, FILL]?);
    Ok(RowMarks { node: NODE, marks })
}

fn cells_are_counted(alloc: Global) -> Result<bool, AllocError> {
    let row = row(alloc)?;
    Ok(before(&row.marks) == 5 && after(&row.marks) == 6)
}

fn row_is_copied(alloc: Global) -> Result<bool, AllocError> {
    let row = row(alloc)?;
    Ok(row.copy(alloc)? == row)
}

fn register_is_copied(alloc: Global) -> Result<bool, AllocError> {
    let key = Key(Text::from_str(alloc, "note")?);
    let register = RegMark {
        field: FieldId { node: NODE, key },
        held: None,
        how: How::Stay,
        clear: true,
        fill: Some(NODE),
    };
    Ok(register.copy(alloc)? == register)
}

fn blank_change(alloc: Global) -> Change {
    Change {
        rev: REV,
        under: REV,
        base: true,
        need: List::new(alloc),
        new: List::new(alloc),
        rows: List::new(alloc),
        regs: List::new(alloc),
        loose: List::new(alloc),
        schema: None,
    }
}

fn change_is_copied(alloc: Global) -> Result<bool, AllocError> {
    let change = blank_change(alloc);
    Ok(change.copy(alloc)? == change)
}

fn blank_step(alloc: Global) -> Step {
    Step {
        new: List::new(alloc),
        rows: List::new(alloc),
        regs: List::new(alloc),
        loose: List::new(alloc),
        schema: None,
    }
}

fn step_is_copied(alloc: Global) -> Result<bool, AllocError> {
    let step = blank_step(alloc);
    Ok(step.copy(alloc)? == step)
}

fn blank_intent(alloc: Global) -> Intent {
    Intent {
        rev: REV,
        under: REV,
        new: List::new(alloc),
        groups: List::new(alloc),
        clear: List::new(alloc),
        put: List::new(alloc),
        need: List::new(alloc),
        schema: None,
    }
}

fn intent_is_copied(alloc: Global) -> Result<bool, AllocError> {
    let intent = blank_intent(alloc);
    Ok(intent.copy(alloc)? == intent)
}

fn spot_is_copied(alloc: Global) -> Result<bool, AllocError> {
    let spot = Spot::Row {
        node: NODE,
        cell: CELL,
    };
    Ok(spot.copy(alloc)? == spot)
}

fn verdict_is_copied(alloc: Global) -> Result<bool, AllocError> {
    Ok(Verdict::Need(NODE).copy(alloc)? == Verdict::Need(NODE))
}

fn names_are_compared() -> bool {
    is_same_node(NODE, NODE) && is_same_cell(CELL, CELL) && is_same_rev(REV, REV)
}

#[test]
fn copies_lists(rt: HostRuntime) -> Result<(), Fail> {
    let alloc = rt.alloc();
    let (row, register) = (row_is_copied(alloc)?, register_is_copied(alloc)?);
    let (spot, verdict) = (spot_is_copied(alloc)?, verdict_is_copied(alloc)?);
    assert!(rt;
        row && register && spot && verdict,
        "{row} {register} {spot} {verdict}"
    );
    Ok(())
}

#[test]
fn copies_wholes(rt: HostRuntime) -> Result<(), Fail> {
    let alloc = rt.alloc();
    let (change, step) = (change_is_copied(alloc)?, step_is_copied(alloc)?);
    let intent = intent_is_copied(alloc)?;
    assert!(rt; change && step && intent, "{change} {step} {intent}");
    Ok(())
}

#[test]
fn first_use(rt: HostRuntime) -> Result<(), Fail> {
    back_leads_back();
    carrying_out_extends();
    extends_in_turn();
    fits_later();
    joined_in_turn();
    one_embedding();
    one_step();
    one_tree();
    one_verdict();
    retreat_extends();
    rows_keep_their_order();
    run_in_turn();
    let counted = cells_are_counted(rt.alloc())?;
    assert!(rt; counted && names_are_compared(), "{counted}");
    Ok(())
}
