//! Copies of trees, of their lists of nodes and of edits.
ghost use Rattle.std.specs.Prelude.{◌≡◌, IfOk};
ghost use Rattle.st_tree.specs.declared.edit.Edit.TheVariants.{Insert, Remove, Move, Put, Clear};

use crate::edit::Edit;
use crate::flat::{Flat, FlatAt, FlatNode};
use crate::tree::{Field, Tree};
use st_ids::{Copied, Key, List, Path};
use std::alloc::{AllocError, Global};

#[cycle(copying)]
fn copy_tree(alloc: Global, tree: &Tree) -> Result<Tree, AllocError>
    ensures { IfOk result (λ t. t ≡ tree.now) }
{
    let mut fields = List::new(alloc);
    for field in tree.fields.as_slice() {
        fields.push(copy_field(alloc, field)?)?;
    }
    let ty = tree.ty.copy(alloc)?;
    let leaf = tree.leaf.copy(alloc)?;
    Ok(Tree { ty, leaf, fields })
}

#[cycle(copying)]
fn copy_field(alloc: Global, field: &Field) -> Result<Field, AllocError>
    ensures { IfOk result (λ f. f ≡ field.now) }
{
    let key = field.key.copy(alloc)?;
    let row = field.row;
    let mut items = List::new(alloc);
    for item in field.items.as_slice() {
        items.push(copy_tree(alloc, item)?)?;
    }
    Ok(Field { key, row, items })
}

impl Copied for Tree {
    fn copy(&self, alloc: Global) -> Result<Self, AllocError> {
        copy_tree(alloc, self)
    }
}

impl Copied for Field {
    fn copy(&self, alloc: Global) -> Result<Self, AllocError> {
        copy_field(alloc, self)
    }
}

impl Copied for FlatAt {
    fn copy(&self, alloc: Global) -> Result<Self, AllocError> {
        match self {
            FlatAt::Root => Ok(FlatAt::Root),
            FlatAt::Top(cell) => Ok(FlatAt::Top(*cell)),
            FlatAt::Row { node, cell } => Ok(FlatAt::Row {
                node: *node,
                cell: *cell,
            }),
            FlatAt::Register(field) => Ok(FlatAt::Register(field.copy(alloc)?)),
        }
    }
}

impl Copied for FlatNode {
    fn copy(&self, alloc: Global) -> Result<Self, AllocError> {
        Ok(FlatNode {
            node: self.node,
            ty: self.ty.copy(alloc)?,
            leaf: self.leaf.copy(alloc)?,
            row: self.row,
            at: self.at.copy(alloc)?,
        })
    }
}

impl Copied for Flat {
    fn copy(&self, alloc: Global) -> Result<Self, AllocError> {
        Ok(Flat {
            nodes: self.nodes.copy(alloc)?,
        })
    }
}

// Copies of a path and of a key, which together name a field.
fn copy_site(alloc: Global, at: &Path, key: &Key) -> Result<(Path, Key), AllocError>
    ensures { IfOk result (λ s. s ≡ (at.now, key.now)) }
{
    let at = at.copy(alloc)?;
    let key = key.copy(alloc)?;
    Ok((at, key))
}

fn copy_insert(
    alloc: Global,
    at: &Path,
    key: &Key,
    index: u32,
    items: &List<Tree>,
) -> Result<Edit, AllocError>
    ensures { IfOk result (λ e. e ≡ Insert at.now key.now index items.now) }
{
    Ok(Edit::Insert {
        at: at.copy(alloc)?,
        key: key.copy(alloc)?,
        index,
        items: items.copy(alloc)?,
    })
}

fn copy_remove(
    alloc: Global,
    at: &Path,
    key: &Key,
    index: u32,
    count: u32,
) -> Result<Edit, AllocError>
    ensures { IfOk result (λ e. e ≡ Remove at.now key.now index count) }
{
    Ok(Edit::Remove {
        at: at.copy(alloc)?,
        key: key.copy(alloc)?,
        index,
        count,
    })
}

fn copy_move(
    alloc: Global,
    at: &Path,
    key: &Key,
    index: u32,
    count: u32,
    to: &Path,
    to_key: &Key,
    to_index: u32,
) -> Result<Edit, AllocError>
    ensures { IfOk result (λ e. e ≡ Move at.now key.now index count to.now to_key.now to_index) }
{
    let (at, key) = copy_site(alloc, at, key)?;
    let (to, to_key) = copy_site(alloc, to, to_key)?;
    Ok(Edit::Move {
        at,
        key,
        index,
        count,
        to,
        to_key,
        to_index,
    })
}

fn copy_put(alloc: Global, at: &Path, key: &Key, item: &Tree) -> Result<Edit, AllocError>
    ensures { IfOk result (λ e. e ≡ Put at.now key.now item.now) }
{
    Ok(Edit::Put {
        at: at.copy(alloc)?,
        key: key.copy(alloc)?,
        item: item.copy(alloc)?,
    })
}

fn copy_clear(alloc: Global, at: &Path, key: &Key) -> Result<Edit, AllocError>
    ensures { IfOk result (λ e. e ≡ Clear at.now key.now) }
{
    Ok(Edit::Clear {
        at: at.copy(alloc)?,
        key: key.copy(alloc)?,
    })
}

impl Copied for Edit {
    fn copy(&self, alloc: Global) -> Result<Self, AllocError> {
        match self {
            Edit::Insert {
                at,
                key,
                index,
                items,
            } => copy_insert(alloc, at, key, *index, items),
            Edit::Remove {
                at,
                key,
                index,
                count,
            } => copy_remove(alloc, at, key, *index, *count),
            Edit::Move {
                at,
                key,
                index,
                count,
                to,
                to_key,
                to_index,
            } => copy_move(alloc, at, key, *index, *count, to, to_key, *to_index),
            Edit::Put { at, key, item } => copy_put(alloc, at, key, item),
            Edit::Clear { at, key } => copy_clear(alloc, at, key),
            Edit::Need { at } => Ok(Edit::Need {
                at: at.copy(alloc)?,
            }),
        }
    }
}
