//! What an intent may not do.
use st_ids::{Atom, CellId, FieldId, Key, List, NodeId, OPENING, ROOT, Rev, Text};
use st_intent::is_intent;
use st_marks::{Group, Intent, NewNode, Owned, Put, To};
use std::alloc::{AllocError, Global};
use std::test::Fail;

const REV: Rev = Rev { session: 1, num: 1 };

fn cell(at: u32) -> CellId {
    CellId(Atom { rev: REV, at })
}

fn field(alloc: Global, node: NodeId, key: &str) -> Result<FieldId, AllocError> {
    let key = Key(Text::from_str(alloc, key)?);
    Ok(FieldId { node, key })
}

fn new_node(alloc: Global, node: NodeId) -> Result<NewNode, AllocError> {
    let ty = Text::from_str(alloc, "list")?;
    Ok(NewNode {
        node,
        ty,
        leaf: None,
    })
}

// A group of one cell in a node's row.
fn group(
    alloc: Global,
    node: NodeId,
    after: Option<CellId>,
    cell: CellId,
    owner: NodeId,
) -> Result<Group, AllocError> {
    let mut cells = List::new(alloc);
    cells.push(Owned { cell, node: owner })?;
    Ok(Group { node, after, cells })
}

fn cell_put(node: NodeId, at: u32) -> Put {
    let to = To::Cell(cell(at));
    Put { node, to }
}

fn out(node: NodeId) -> Put {
    let to = To::Nowhere;
    Put { node, to }
}

fn register_put(alloc: Global, node: NodeId, above: NodeId) -> Result<Put, AllocError> {
    let to = To::Register(field(alloc, above, "k")?);
    Ok(Put { node, to })
}

fn add_new(alloc: Global, list: &mut List<NewNode>, node: NodeId) -> Result<(), AllocError> {
    let node = new_node(alloc, node)?;
    list.push(node)?;
    Ok(())
}

fn add_group(
    alloc: Global,
    list: &mut List<Group>,
    node: NodeId,
    after: Option<CellId>,
    at: u32,
    owner: NodeId,
) -> Result<(), AllocError> {
    let group = group(alloc, node, after, cell(at), owner)?;
    list.push(group)?;
    Ok(())
}

fn add_empty_group(alloc: Global, list: &mut List<Group>) -> Result<(), AllocError> {
    let group = Group {
        node: OLD_1,
        after: None,
        cells: List::new(alloc),
    };
    list.push(group)?;
    Ok(())
}

fn add_put(list: &mut List<Put>, put: Put) -> Result<(), AllocError> {
    list.push(put)?;
    Ok(())
}

fn add_register(
    alloc: Global,
    list: &mut List<Put>,
    node: NodeId,
    above: NodeId,
) -> Result<(), AllocError> {
    let put = register_put(alloc, node, above)?;
    list.push(put)?;
    Ok(())
}

fn add_clear(
    alloc: Global,
    list: &mut List<FieldId>,
    node: NodeId,
    key: &str,
) -> Result<(), AllocError> {
    let field = field(alloc, node, key)?;
    list.push(field)?;
    Ok(())
}

fn nothing(alloc: Global) -> Intent {
    Intent {
        rev: REV,
        under: OPENING,
        new: List::new(alloc),
        groups: List::new(alloc),
        clear: List::new(alloc),
        put: List::new(alloc),
        need: List::new(alloc),
        schema: None,
    }
}

fn add_need(list: &mut List<NodeId>, node: NodeId) -> Result<(), AllocError> {
    list.push(node)?;
    Ok(())
}

// What is added to an intent.
#[derive(Clone, Copy)]
enum Added {
    New(NodeId),
    Start(NodeId, u32, NodeId),
    After(u32, u32),
    EmptyGroup,
    CellPut(NodeId, u32),
    Out(NodeId),
    Register(NodeId, NodeId),
    Clear(NodeId, &'static str),
    Need(NodeId),
    Schema,
}

fn add(alloc: Global, intent: &mut Intent, added: Added) -> Result<(), AllocError> {
    match added {
        Added::New(node) => add_new(alloc, &mut intent.new, node),
        Added::Start(node, at, owner) => {
            add_group(alloc, &mut intent.groups, node, None, at, owner)
        }
        Added::After(anchor, at) => {
            add_group(
                alloc,
                &mut intent.groups,
                ROOT,
                Some(cell(anchor)),
                at,
                NEW_0,
            )
        }
        Added::EmptyGroup => add_empty_group(alloc, &mut intent.groups),
        Added::CellPut(node, at) => add_put(&mut intent.put, cell_put(node, at)),
        Added::Out(node) => add_put(&mut intent.put, out(node)),
        Added::Register(node, above) => add_register(alloc, &mut intent.put, node, above),
        Added::Clear(node, key) => add_clear(alloc, &mut intent.clear, node, key),
        Added::Need(node) => add_need(&mut intent.need, node),
        Added::Schema => add_schema(alloc, intent),
    }
}

fn add_schema(alloc: Global, intent: &mut Intent) -> Result<(), AllocError> {
    intent.schema = Some(Text::from_str(alloc, "{}")?);
    Ok(())
}

fn add_all(alloc: Global, intent: &mut Intent, all: &[Added]) -> Result<(), AllocError> {
    for added in all {
        add(alloc, intent, *added)?;
    }
    Ok(())
}

const NEW_0: NodeId = NodeId(Atom { rev: REV, at: 0 });

const NEW_1: NodeId = NodeId(Atom { rev: REV, at: 1 });

const NEW_2: NodeId = NodeId(Atom { rev: REV, at: 2 });

const NEW_3: NodeId = NodeId(Atom { rev: REV, at: 3 });

const OLD_1: NodeId = NodeId(Atom {
    rev: OPENING,
    at: 1,
});

const OLD_2: NodeId = NodeId(Atom {
    rev: OPENING,
    at: 2,
});

const OLD_5: NodeId = NodeId(Atom {
    rev: OPENING,
    at: 5,
});

// A new list at the start of the root's row, with another one inside.
const NESTED: [Added; 6] = [
    Added::New(NEW_0),
    Added::New(NEW_1),
    Added::Start(ROOT, 0, NEW_0),
    Added::Start(NEW_0, 1, NEW_1),
    Added::CellPut(NEW_0, 0),
    Added::CellPut(NEW_1, 1),
];

fn holds(alloc: Global, intent: &mut Intent, all: &[Added]) -> Result<bool, AllocError> {
    add_all(alloc, intent, &NESTED)?;
    add_all(alloc, intent, all)?;
    Ok(is_intent(intent))
}

// Whether the nested lists are an intent with all of these too.
fn holds_with(alloc: Global, all: &[Added]) -> Result<bool, AllocError> {
    let mut intent = nothing(alloc);
    holds(alloc, &mut intent, all)
}

// Whether each of these, added to the nested lists, leaves them within the rules, or each breaks one.
fn all_hold(alloc: Global, cases: &[Added], holds: bool) -> Result<bool, AllocError> {
    for added in cases {
        if holds_with(alloc, &[*added])? != holds {
            return Ok(false);
        }
    }
    Ok(true)
}

fn first_is_used(alloc: Global) -> Result<[bool; 2], AllocError> {
    let held = holds_with(alloc, &[])?;
    Ok([held, holds_with(alloc, &[Added::Need(NEW_1)])?])
}

#[test]
fn first_use(rt: HostRuntime) -> Result<(), Fail> {
    let so = first_is_used(rt.alloc())?;
    assert!(rt; so == [true, false], "{so:?}");
    Ok(())
}

const BROKEN: [Added; 14] = [
    // A new node of another revision, and one that is there twice.
    Added::New(OLD_5),
    Added::New(NEW_1),
    // A cell that is there twice, two groups at one start, an owner that is neither new nor put.
    Added::Start(OLD_1, 1, NEW_1),
    Added::Start(ROOT, 2, NEW_0),
    Added::Start(OLD_1, 2, OLD_2),
    // A new anchor, and no cells.
    Added::After(1, 2),
    Added::EmptyGroup,
    // A node that is put twice, two nodes in one cell, the root put, and a new node put nowhere.
    Added::CellPut(NEW_1, 7),
    Added::CellPut(OLD_1, 1),
    Added::Out(ROOT),
    Added::Out(NEW_1),
    // A register that is filled and not cleared, the empty key, and a schema beside other wishes.
    Added::Register(OLD_1, ROOT),
    Added::Clear(ROOT, ""),
    Added::Schema,
];

const ALLOWED: [Added; 3] = [
    Added::Clear(ROOT, "k"),
    Added::New(NEW_2),
    Added::Out(OLD_1),
];

fn rules_are_kept(alloc: Global) -> Result<[bool; 2], AllocError> {
    let refused = all_hold(alloc, &BROKEN, false)?;
    Ok([refused, all_hold(alloc, &ALLOWED, true)?])
}

#[test]
fn broken_rules(rt: HostRuntime) -> Result<(), Fail> {
    let so = rules_are_kept(rt.alloc())?;
    assert!(rt; so == [true; 2], "{so:?}");
    Ok(())
}

// Two new nodes, one in the register of the other; and then each in the register of the other.
const RING: [Added; 6] = [
    Added::New(NEW_2),
    Added::New(NEW_3),
    Added::Clear(NEW_2, "k"),
    Added::Clear(NEW_3, "k"),
    Added::Register(NEW_2, NEW_3),
    Added::Register(NEW_3, NEW_2),
];

fn ring_is_seen(alloc: Global) -> Result<[bool; 2], AllocError> {
    let held = holds_with(alloc, &RING[..5])?;
    Ok([held, holds_with(alloc, &RING)?])
}

#[test]
fn ring(rt: HostRuntime) -> Result<(), Fail> {
    let so = ring_is_seen(rt.alloc())?;
    assert!(rt; so == [true, false], "{so:?}");
    Ok(())
}
