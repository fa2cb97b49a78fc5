//! Going through things that are listed in several places, one after the other.
ghost use Rattle.std.specs.Prelude.{◌≡◌, List, [], ◌∷◌, ◌↔◌, ◌++◌, IsTrue, option_to_list};
ghost use Rattle.std.specs.List.{AllByRecursion, flat_map};
ghost use Rattle.st_ids.specs.declared.names.NodeId.{NodeId as Node};
ghost use Rattle.st_marks.specs.declared.marks.Mark.{Mark as Marked};
ghost use Rattle.st_normal.specs.inside.Scan.{TakesFirst};

use st_ids::{NodeId, ROOT};
use st_marks::{Mark, RowMarks};

/// A way through a list of things, of which some are left.
pub trait Walk: Copy {
    type Item;

    ghost left: { Self → List Self.Item };

    /// The next thing.
    fn step(&mut self) -> Option<Self::Item>
        ensures { TakesFirst result (left self.old) (left self.new) };
}

/// What may be asked of a thing.
pub trait Rule {
    type Item;

    ghost Holds: { Self → Self.Item → Type 0 };

    /// Whether it holds of a thing.
    fn holds(&self, item: &Self::Item) -> bool
        ensures { IsTrue result ↔ Holds self.now item.now };
}

/// Whether a rule holds of each thing that is left.
pub fn each<W: Walk, R: Rule<Item = W::Item>>(mut walk: W, rule: &R) -> bool
where
    W::Item: Drop,
    ensures { IsTrue result ↔ AllByRecursion (R.Holds rule.now) (W.left walk) }
{
    while let Some(item) = walk.step() {
        if !rule.holds(&item) {
            return false;
        }
    }
    true
}

/// Whether a rule holds of each thing of a slice.
pub fn each_of<R: Rule>(items: &[R::Item], rule: &R) -> bool
    ensures { IsTrue result ↔ AllByRecursion (R.Holds rule.now) items.now }
{
    for item in items {
        if !rule.holds(item) {
            return false;
        }
    }
    true
}

/// One way after another.
#[derive(Clone, Copy)]
pub struct Then<A, B> {
    pub first: A,
    pub second: B,
}

impl<T, A: Walk<Item = T>, B: Walk<Item = T>> Walk for Then<A, B> {
    type Item = T;

    ghost left = { λ s. A.left s.first ++ B.left s.second };

    fn step(&mut self) -> Option<T> {
        match self.first.step() {
            None => self.second.step(),
            found => found,
        }
    }
}

/// What is picked of each thing of a list.
pub trait Part<F>: Copy {
    type Item;

    ghost of: { List F → List Self.Item };

    /// What is picked of a thing, if anything.
    fn pick(&self, from: &F) -> Option<Self::Item>
        ensures { (rest : List F) → of (from.now ∷ rest) ≡ option_to_list result ++ of rest };

    ghost none: { of [] ≡ [] };
}

/// What is picked of the things of a slice.
#[derive_where(Clone, Copy; P)]
pub struct Along<'a, F, P> {
    pub items: &'a [F],
    pub part: P,
}

impl<'a, F, P: Part<F>> Walk for Along<'a, F, P> {
    type Item = P::Item;

    ghost left = { λ s. P.of s.items.now };

    fn step(&mut self) -> Option<P::Item> {
        while let [first, rest @ ..] = self.items {
            self.items = rest;
            if let Some(item) = self.part.pick(first) {
                return Some(item);
            }
        }
        None
    }
}

/// What is picked of each mark of a row, whose node is given.
pub trait InRow: Copy {
    type Item;

    ghost of: { Node → List Marked → List Self.Item };

    /// What is picked of a mark, if anything.
    fn pick(&self, row: NodeId, mark: Mark) -> Option<Self::Item>
        ensures { (rest : List Marked) → of row (mark ∷ rest) ≡ option_to_list result ++ of row rest };

    ghost none: { (row : Node) → of row [] ≡ [] };
}

/// What is picked of the marks that are left of a row, and of those of the rows behind it.
#[derive(Clone, Copy)]
pub struct InRows<'a, P> {
    pub row: NodeId,
    pub marks: &'a [Mark],
    pub rows: &'a [RowMarks],
    pub part: P,
}

impl<'a, P: InRow> InRows<'a, P> {
    // The next thing of the row.
    fn in_row(&mut self) -> Option<P::Item>
        ensures next { TakesFirst result (P.of self.old.row self.old.marks.now) (P.of self.new.row self.new.marks.now) }
        ensures rows { self.new.rows ≡ self.old.rows }
    {
        while let [first, rest @ ..] = self.marks {
            self.marks = rest;
            if let Some(item) = self.part.pick(self.row, *first) {
                return Some(item);
            }
        }
        None
    }
}

impl<'a, P: InRow> Walk for InRows<'a, P> {
    type Item = P::Item;

    ghost left = { λ s. P.of s.row s.marks.now ++ flat_map (λ r. P.of r.node r.marks) s.rows.now };

    fn step(&mut self) -> Option<P::Item> {
        loop {
            if let Some(item) = self.in_row() {
                return Some(item);
            }
            let [first, rest @ ..] = self.rows else {
                return None;
            };
            self.row = first.node;
            self.marks = first.marks.as_slice();
            self.rows = rest;
        }
    }
}

/// What is picked of all rows.
pub fn in_rows<P: InRow>(rows: &[RowMarks], part: P) -> InRows<'_, P>
    ensures { P.of result.row result.marks.now ++ flat_map (λ r. P.of r.node r.marks) result.rows.now ≡ flat_map (λ r. P.of r.node r.marks) rows.now }
{
    InRows {
        row: ROOT,
        marks: &[],
        rows,
        part,
    }
}
