//! A list with two texts, bread and milk, over which two sessions write, of which the second is the own one. The answers were worked
//! out by hand.

use crate::changes::{
    are_marks, change_of, change_with_text, has_marks, ids, is_nothing, leads_by, leave, make,
    put_back, uuid_of,
};
use st_carry::ThinCarrier;
use st_forest::Forest;
use st_forest_start::start;
use st_ids::{Key, Leaf, List, OPENING, Or, Rev, Text};
use st_manager::{Manager, NoSession, Received, Spent};
use st_marks::{Change, Mark, Step, Verdict};
use st_tree::{Field, Tree, check};
use st_undo::undo;
use std::alloc::{AllocError, Global};
use std::test::Fail;

/// The first and the second text.
const BREAD: u32 = 1;

const MILK: u32 = 2;

/// Managers that count empty cells.
pub type Counting = Manager<ThinCarrier>;

fn text(alloc: Global, words: &str) -> Result<Tree, AllocError> {
    let ty = Text::from_str(alloc, "text")?;
    let leaf = Some(Leaf::Words(Text::from_str(alloc, words)?));
    Ok(Tree {
        ty,
        leaf,
        fields: List::new(alloc),
    })
}

fn texts(alloc: Global) -> Result<List<Tree>, AllocError> {
    let mut items = List::new(alloc);
    items.push(text(alloc, "bread")?)?;
    items.push(text(alloc, "milk")?)?;
    Ok(items)
}

fn fields(alloc: Global) -> Result<List<Field>, AllocError> {
    let mut fields = List::new(alloc);
    let items = texts(alloc)?;
    let key = Key(Text::new(alloc));
    fields.push(Field {
        key,
        row: true,
        items,
    })?;
    Ok(fields)
}

fn tree(alloc: Global) -> Result<Tree, AllocError> {
    let ty = Text::from_str(alloc, "list")?;
    let fields = fields(alloc)?;
    Ok(Tree {
        ty,
        leaf: None,
        fields,
    })
}

/// The forest of the list.
pub fn list(alloc: Global) -> Result<Forest, Fail> {
    let tree = tree(alloc)?;
    if check(&tree) != Ok(()) {
        return Err(Fail::from("too large"));
    }
    Ok(start(alloc, Text::from_str(alloc, "{}")?, &tree)?)
}

// Whether a commit is sound where it comes, and the local view goes on by these marks.
fn answers(received: Result<Received, Or<Spent>>, marks: &[Mark]) -> bool {
    match received {
        Ok(received) => received.verdict == Verdict::Sound && leads_by(&received.step, marks),
        Err(_) => false,
    }
}

// Whether it is sound, and the local view stays.
fn stays(received: Result<Received, Or<Spent>>) -> bool {
    match received {
        Ok(received) => received.verdict == Verdict::Sound && is_nothing(&received.step),
        Err(_) => false,
    }
}

// Whether a bridge has these marks.
fn is_bridge(bridge: Result<&Step, NoSession>, marks: &[Mark]) -> bool {
    match bridge {
        Ok(bridge) => leads_by(bridge, marks),
        Err(_) => false,
    }
}

// Whether a session has received all and sent all.
fn is_level(bridge: Result<&Step, NoSession>) -> bool {
    match bridge {
        Ok(bridge) => is_nothing(bridge),
        Err(_) => false,
    }
}

// Whether one change is pending, with these marks.
fn waits(pending: &[Change], marks: &[Mark]) -> bool {
    match pending {
        [change] => has_marks(change, marks),
        _ => false,
    }
}

// Whether two are.
fn both_wait(pending: &[Change], first: &[Mark], then: &[Mark]) -> bool {
    match pending {
        [one, two] => has_marks(one, first) && has_marks(two, then),
        _ => false,
    }
}

// Both sessions join.
fn join(alloc: Global, manager: &mut Counting) -> bool {
    let one = manager.receive_join(alloc, 1, uuid_of(1)).is_ok();
    let two = manager.receive_join(alloc, 2, uuid_of(2)).is_ok();
    one && two && manager.number() == 2
}

// Two commits are made here: bread goes out, and a text comes to the front.
fn add_both(alloc: Global, manager: &mut Counting) -> Result<bool, AllocError> {
    let out = change_of(alloc, 2, 1, &[leave(BREAD), Mark::Skip(1)])?;
    let first = manager.add_local(alloc, out).is_ok();
    let front = change_with_text(alloc, 2, 2, &[make(2, 2), Mark::Skip(2)])?;
    let then = manager.add_local(alloc, front).is_ok();
    Ok(first && then && manager.pending().len() == 2)
}

// The other session puts a text between bread and milk: what waits goes over it.
fn put_between(alloc: Global, manager: &mut Counting) -> Result<bool, AllocError> {
    let between = [Mark::Skip(1), make(1, 1), Mark::Skip(1)];
    let change = change_with_text(alloc, 1, 1, &between)?;
    let received = manager.receive_known(alloc, change, 1, 2, ids(1, 1, 2));
    let pending = manager.pending().as_slice();
    let (first, then) = ([leave(BREAD), Mark::Skip(2)], [make(2, 2), Mark::Skip(3)]);
    Ok(
        answers(received, &[Mark::Skip(2), make(1, 1), Mark::Skip(1)])
            && both_wait(pending, &first, &then)
            && is_level(manager.kept_bridge(1))
            && is_bridge(manager.kept_bridge(2), &between),
    )
}

// The first own commit comes back: what is shown stays.
fn come_back(alloc: Global, manager: &mut Counting) -> Result<bool, AllocError> {
    let change = change_of(alloc, 2, 1, &[leave(BREAD), Mark::Skip(1)])?;
    let received = manager.receive_known(alloc, change, 2, 2, ids(2, 1, 2));
    let pending = manager.pending().as_slice();
    let between = [Mark::Skip(1), make(1, 1), Mark::Skip(1)];
    Ok(
        stays(received)
            && waits(pending, &[make(2, 2), Mark::Skip(3)])
            && is_bridge(manager.kept_bridge(1), &[leave(BREAD), Mark::Skip(2)])
            && is_bridge(manager.kept_bridge(2), &between),
    )
}

// The other session, which has received that, takes milk out.
fn take_out(alloc: Global, manager: &mut Counting) -> Result<bool, AllocError> {
    let change = change_of(alloc, 1, 2, &[Mark::Skip(2), leave(MILK)])?;
    let received = manager.receive_known(alloc, change, 1, 4, ids(1, 3, 2));
    let both = [Mark::Skip(1), make(1, 1), leave(MILK)];
    Ok(
        answers(received, &[Mark::Skip(3), leave(MILK)])
            && waits(manager.pending().as_slice(), &[make(2, 2), Mark::Skip(3)])
            && is_level(manager.kept_bridge(1))
            && is_bridge(manager.kept_bridge(2), &both),
    )
}

// What is kept at the end.
fn numbers_stand(alloc: Global, manager: &Counting) -> bool {
    let rows = match manager.bridge_of(alloc, 2) {
        Ok(bridge) => bridge.rows.len(),
        Err(_) => 0,
    };
    manager.number() == 5 && manager.minimum() == 2 && manager.window().count() == 3 && rows == 1
}

// Whether what takes the own commit back that came back puts bread into its cell again, where that is in the local view now.
fn is_undone(alloc: Global, manager: &Counting) -> bool {
    let (rev, fresh) = (Rev { session: 2, num: 1 }, Rev { session: 2, num: 3 });
    match undo::<ThinCarrier, Counting>(alloc, manager, 2, rev, fresh, OPENING) {
        Ok(change) => {
            let marks = [Mark::Skip(1), put_back(BREAD), Mark::Skip(2)];
            change.rev == fresh
                && change.loose.len() == 1
                && are_marks(change.rows.as_slice(), &marks)
        }
        Err(_) => false,
    }
}

// What stands at the end.
fn stands_then(alloc: Global, manager: &Counting) -> u32 {
    if !numbers_stand(alloc, manager) {
        return 5;
    }
    if is_undone(alloc, manager) { 7 } else { 6 }
}

// How many of the entries are taken rightly, up to the first that isn't.
fn taken(alloc: Global, manager: &mut Counting) -> Result<u32, AllocError> {
    if !join(alloc, manager) {
        return Ok(0);
    }
    if !add_both(alloc, manager)? {
        return Ok(1);
    }
    if !put_between(alloc, manager)? {
        return Ok(2);
    }
    taken_then(alloc, manager)
}

fn taken_then(alloc: Global, manager: &mut Counting) -> Result<u32, AllocError> {
    if !come_back(alloc, manager)? {
        return Ok(3);
    }
    if !take_out(alloc, manager)? {
        return Ok(4);
    }
    Ok(stands_then(alloc, manager))
}

fn taken_of_list(alloc: Global) -> Result<u32, Fail> {
    let forest = list(alloc)?;
    let mut manager = Counting::start(alloc, forest, 0, Some(2));
    Ok(taken(alloc, &mut manager)?)
}

#[test]
fn entries_are_taken(rt: HostRuntime) -> Result<(), Fail> {
    let taken = taken_of_list(rt.alloc())?;
    assert!(rt; taken == 7, "{taken}");
    Ok(())
}
