//! Looking things up by their names.
ghost use Rattle.std.specs.Prelude.{◌≡◌, ◌∷◌, [], ◌↔◌, IsTrue, IfOk, OnOk, is_none, true};
ghost use Rattle.std.specs.BTreeMap.{get};
ghost use Rattle.std.specs.List.{find};
ghost use Rattle.std.specs.Option.{option_or};
ghost use Rattle.st_ids.specs.Listing.{AreDistinct, Has};
ghost use Rattle.st_ids.specs.Order.{atom_cmp};
ghost use Rattle.st_ids.specs.declared.names.Atom.{Atom as Name};
ghost use Rattle.st_normal.specs.inside.Naming.{is_named};

use crate::entries::{Found, Link};
use crate::scan::Walk;
use st_ids::{Atom, CellId, NodeId, Rev, atom_order};
use std::alloc::{AllocError, Global};
use std::collections::BTreeMap;

/// A thing that is named by an atom.
pub trait Named: Copy {
    ghost name: { Self → Name };

    /// Its name.
    fn name(&self) -> Atom
        ensures { result ≡ name self.now };
}

impl Named for NodeId {
    ghost name = { λ n. n.0 };

    fn name(&self) -> Atom {
        self.0
    }
}

impl Named for Found {
    ghost name = { λ f. f.node.0 };

    fn name(&self) -> Atom {
        self.node.0
    }
}

impl Named for Link {
    ghost name = { λ l. l.node.0 };

    fn name(&self) -> Atom {
        self.node.0
    }
}

impl Named for Rev {
    ghost name = { λ r. record { rev = r; at = 0 } };

    fn name(&self) -> Atom {
        Atom { rev: *self, at: 0 }
    }
}

impl Named for CellId {
    ghost name = { λ c. c.0 };

    fn name(&self) -> Atom {
        self.0
    }
}

/// The first thing of a name, of all that are left. It goes through them.
pub fn find_in<I: Named, W: Walk<Item = I>>(mut walk: W, name: Atom) -> Option<I>
    ensures { result ≡ find (is_named I.name name) (W.left walk) }
{
    while let Some(item) = walk.step() {
        if atom_order(&item.name(), &name).is_eq() {
            return Some(item);
        }
    }
    None
}

/// Whether no two of the things that are left have one name. It compares each with all behind it.
pub fn once_in<I: Named, W: Walk<Item = I>>(mut walk: W) -> bool
    ensures { IsTrue result ↔ AreDistinct I.name (W.left walk) }
{
    while let Some(item) = walk.step() {
        if find_in(walk, item.name()).is_some() {
            return false;
        }
    }
    true
}

// Adds a thing, unless there is one of its name; answers whether there was none.
fn add<I: Named>(map: &mut BTreeMap<Atom, I>, item: I) -> Result<bool, AllocError>
    ensures fresh { IfOk result (λ fresh. fresh ≡ is_none (get atom_cmp map.old (I.name item))) }
    ensures added { OnOk result ((a : Name) → get atom_cmp map.new a ≡ option_or (get atom_cmp map.old a) (find (is_named I.name a) (item ∷ []))) }
{
    let name = item.name();
    if map.contains_key(&name) {
        return Ok(false);
    }
    map.insert(name, item)?;
    Ok(true)
}

// All that are left by their names, the first of each name; and whether no two have one name.
fn map_of<I: Named, W: Walk<Item = I>>(
    alloc: Global,
    mut walk: W,
) -> Result<(BTreeMap<Atom, I>, bool), AllocError>
    ensures found { IfOk result (λ r. (a : Name) → get atom_cmp r.0 a ≡ find (is_named I.name a) (W.left walk)) }
    ensures once { IfOk result (λ r. IsTrue r.1 ↔ AreDistinct I.name (W.left walk)) }
{
    let mut map = BTreeMap::new(alloc);
    let mut once = true;
    while let Some(item) = walk.step() {
        once &= add(&mut map, item)?;
    }
    Ok((map, once))
}

/// Things by their names: in a map, or where there is no memory for one, as they are listed.
#[derive(Drop)]
pub struct Index<I: Named, W: Walk<Item = I>> {
    pub walk: W,
    map: BTreeMap<Atom, I>,
    whole: bool,
    pub once: bool,
    ghost found: { whole ≡ true → (a : Name) → get atom_cmp map a ≡ find (is_named I.name a) (W.left walk) },
}

impl<I: Named, W: Walk<Item = I>> Index<I, W> {
    /// The things that are left.
    pub fn of(alloc: Global, walk: W) -> Self
        ensures walk { result.walk ≡ walk }
        ensures once { IsTrue result.once ↔ AreDistinct I.name (W.left walk) }
    {
        match map_of(alloc, walk) {
            Ok((map, once)) => Index {
                walk,
                map,
                whole: true,
                once,
            },
            Err(_) => Index {
                walk,
                map: BTreeMap::new(alloc),
                whole: false,
                once: once_in(walk),
            },
        }
    }

    /// The first thing of a name.
    pub fn find(&self, name: Atom) -> Option<I>
        ensures { result ≡ find (is_named I.name name) (W.left self.now.walk) }
    {
        if self.whole {
            self.map.get(&name).copied()
        } else {
            find_in(self.walk, name)
        }
    }
}

impl<W: Walk<Item = NodeId>> Index<NodeId, W> {
    /// Whether a node is among those that are left.
    pub fn has(&self, node: NodeId) -> bool
        ensures { IsTrue result ↔ Has (W.left self.now.walk) node }
    {
        self.find(node.name()).is_some()
    }
}
