//! What the tests share: names and marks of two nodes that were there and of two new ones, and lists of rows and of new nodes.
use st_ids::{Atom, CellId, List, NodeId, OPENING, Rev, Text};
use st_marks::{How, Mark, NewNode, RowMarks};
use std::alloc::{AllocError, Global};

pub const OURS: Rev = Rev { session: 2, num: 1 };

/// A node that moves.
pub const A: NodeId = NodeId(Atom {
    rev: OPENING,
    at: 1,
});

/// The node into whose row it moves.
pub const B: NodeId = NodeId(Atom {
    rev: OPENING,
    at: 2,
});

/// A new node.
pub const P: NodeId = NodeId(Atom { rev: OURS, at: 0 });

/// Another, in the row of that one.
pub const Q: NodeId = NodeId(Atom { rev: OURS, at: 1 });

pub const CELL_OF_A: CellId = CellId(Atom {
    rev: OPENING,
    at: 1,
});

pub const CELL_OF_B: CellId = CellId(Atom {
    rev: OPENING,
    at: 2,
});

pub const EMPTY_CELL: CellId = CellId(Atom {
    rev: OPENING,
    at: 3,
});

pub const CELL_OF_P: CellId = CellId(Atom { rev: OURS, at: 0 });

pub const CELL_OF_Q: CellId = CellId(Atom { rev: OURS, at: 1 });

pub const B_STAYS: Mark = Mark::Touch {
    cell: CELL_OF_B,
    node: B,
    how: How::Stay,
};

pub const A_LEAVES: Mark = Mark::Touch {
    cell: CELL_OF_A,
    node: A,
    how: How::Leave,
};

pub const A_COMES: Mark = Mark::Fill {
    cell: EMPTY_CELL,
    node: A,
};

pub const P_PUT: Mark = Mark::Make {
    cell: CELL_OF_P,
    node: P,
    full: true,
};

pub const P_UNPUT: Mark = Mark::Make {
    cell: CELL_OF_P,
    node: P,
    full: false,
};

pub const Q_PUT: Mark = Mark::Make {
    cell: CELL_OF_Q,
    node: Q,
    full: true,
};

fn push_row(
    alloc: Global,
    rows: &mut List<RowMarks>,
    node: NodeId,
    marks: &[Mark],
) -> Result<(), AllocError> {
    let marks = List::from_vec(marks.to_vec(alloc)?);
    rows.push(RowMarks { node, marks })?;
    Ok(())
}

/// The rows that are listed.
pub fn rows(
    alloc: Global,
    listed: &[(NodeId, &'static [Mark])],
) -> Result<List<RowMarks>, AllocError> {
    let mut rows = List::new(alloc);
    for (node, marks) in listed {
        push_row(alloc, &mut rows, *node, marks)?;
    }
    Ok(rows)
}

fn push_new(alloc: Global, new: &mut List<NewNode>, node: NodeId) -> Result<(), AllocError> {
    let ty = Text::from_str(alloc, "t")?;
    new.push(NewNode {
        node,
        ty,
        leaf: None,
    })?;
    Ok(())
}

/// The new nodes, of one type.
pub fn new_nodes(alloc: Global, nodes: &[NodeId]) -> Result<List<NewNode>, AllocError> {
    let mut new = List::new(alloc);
    for node in nodes {
        push_new(alloc, &mut new, *node)?;
    }
    Ok(new)
}
