//! What a change or a step lists, as far as one rule judges both.
ghost use Rattle.std.specs.Prelude.{◌≡◌, ◌≢◌, ◌↔◌, ◌++◌, [], IsTrue, map};
ghost use Rattle.std.specs.List.{AllByRecursion, flat_map};
ghost use Rattle.st_ids.specs.declared.names.FieldId.{FieldId as Field};
ghost use Rattle.st_normal.specs.Rules.{KeysAreThere, Entries, fields_of, found_in, found_loose, in_rows, incoming_nodes, entries_of_change, entries_of_step};
ghost use Rattle.st_marks.specs.declared.marks.RowMarks.{RowMarks as Row};

use crate::entries::Found;
use crate::extract::{FoundIn, Fresh, HeldAt, Incoming, Nowhere, OfRegisters, OfRows, PutAt};
use crate::registers::Register;
use crate::scan::{Along, InRows, Rule, Then, Walk, each_of, in_rows};
use st_ids::NodeId;
use st_marks::{Change, Loose, NewNode, RegMark, RegStep, RowMarks, Step};
use std::marker::PhantomData;

/// What lists nodes.
pub trait HasEntries: Copy {
    type Fresh: Walk<Item = NodeId>;

    type Finds: Walk<Item = Found>;

    type Puts: Walk<Item = NodeId>;

    type Fields: Walk<Item = NodeId>;

    ghost listed: { Self → Entries };

    /// The nodes that it makes.
    fn fresh(&self) -> Self::Fresh
        ensures { Self.Fresh.left result ≡ (listed self.now).new };

    /// The nodes that it finds.
    fn finds(&self) -> Self::Finds
        ensures { Self.Finds.left result ≡ (listed self.now).found };

    /// The nodes that it puts.
    fn puts(&self) -> Self::Puts
        ensures { Self.Puts.left result ≡ (listed self.now).put };

    /// The nodes whose fields are listed.
    fn fields(&self) -> Self::Fields
        ensures { Self.Fields.left result ≡ fields_of (listed self.now) };

    /// The rows.
    fn rows(&self) -> &[RowMarks]
        ensures { result.now ≡ (listed self.now).rows };

    /// Whether no register has the empty key.
    fn has_keys(&self) -> bool
        ensures { IsTrue result ↔ KeysAreThere (listed self.now) };
}

/// The key of a register isn't empty.
#[derive(Drop)]
struct HasKey<G> {
    of: PhantomData<G>,
}

impl<G: Register> Rule for HasKey<G> {
    type Item = G;

    ghost Holds = { λ s r. (G.field r).key.0 ≢ [] };

    fn holds(&self, register: &G) -> bool {
        register.has_key()
    }
}

// Whether no register has the empty key.
fn keys_are_there<G: Register>(regs: &[G]) -> bool
    ensures { IsTrue result ↔ AllByRecursion (λ (f : Field). f.key.0 ≢ []) (map G.field regs.now) }
{
    each_of(regs, &HasKey { of: PhantomData })
}

/// The nodes that are found.
pub type Finds<'a, G> = Then<
    InRows<'a, FoundIn>,
    Then<Along<'a, G, HeldAt>, Along<'a, Loose, Nowhere>>,
>;

// The nodes that these find.
fn finds_in<'a, G: Register + 'static>(
    rows: &'a [RowMarks],
    regs: &'a [G],
    loose: &'a [Loose],
) -> Finds<'a, G>
    ensures { ⟦<Finds<'static, G> as Walk>⟧.left result ≡ in_rows found_in rows.now ++ (flat_map G.found regs.now ++ found_loose loose.now) }
{
    let held = Along {
        items: regs,
        part: HeldAt,
    };
    let loose = Along {
        items: loose,
        part: Nowhere,
    };
    Then {
        first: in_rows(rows, FoundIn),
        second: Then {
            first: held,
            second: loose,
        },
    }
}

/// The nodes that are put.
pub type Puts<'a, G> = Then<InRows<'a, Incoming>, Along<'a, G, PutAt>>;

// The nodes that these put.
fn puts_in<'a, G: Register + 'static>(rows: &'a [RowMarks], regs: &'a [G]) -> Puts<'a, G>
    ensures { ⟦<Puts<'static, G> as Walk>⟧.left result ≡ in_rows incoming_nodes rows.now ++ flat_map G.put regs.now }
{
    let put = Along {
        items: regs,
        part: PutAt,
    };
    Then {
        first: in_rows(rows, Incoming),
        second: put,
    }
}

/// The nodes whose fields are listed.
pub type Fields<'a, G> = Then<Along<'a, RowMarks, OfRows>, Along<'a, G, OfRegisters>>;

// The nodes of these rows and registers.
fn fields_in<'a, G: Register + 'static>(rows: &'a [RowMarks], regs: &'a [G]) -> Fields<'a, G>
    ensures { ⟦<Fields<'static, G> as Walk>⟧.left result ≡ map (λ (r : Row). r.node) rows.now ++ map (λ (f : Field). f.node) (map G.field regs.now) }
{
    let rows = Along {
        items: rows,
        part: OfRows,
    };
    let regs = Along {
        items: regs,
        part: OfRegisters,
    };
    Then {
        first: rows,
        second: regs,
    }
}

/// The lists of a change.
#[derive(Clone, Copy)]
pub struct OfChange<'a>(pub &'a Change);

impl<'a> HasEntries for OfChange<'a> {
    type Fresh = Along<'a, NewNode, Fresh>;

    type Finds = Finds<'a, RegMark>;

    type Puts = Puts<'a, RegMark>;

    type Fields = Fields<'a, RegMark>;

    ghost listed = { λ s. entries_of_change s.0.now };

    fn fresh(&self) -> Along<'a, NewNode, Fresh> {
        Along {
            items: self.0.new.as_slice(),
            part: Fresh,
        }
    }

    fn finds(&self) -> Finds<'a, RegMark> {
        finds_in(
            self.0.rows.as_slice(),
            self.0.regs.as_slice(),
            self.0.loose.as_slice(),
        )
    }

    fn puts(&self) -> Puts<'a, RegMark> {
        puts_in(self.0.rows.as_slice(), self.0.regs.as_slice())
    }

    fn fields(&self) -> Fields<'a, RegMark> {
        fields_in(self.0.rows.as_slice(), self.0.regs.as_slice())
    }

    fn rows(&self) -> &[RowMarks] {
        self.0.rows.as_slice()
    }

    fn has_keys(&self) -> bool {
        keys_are_there(self.0.regs.as_slice())
    }
}

/// The lists of a step.
#[derive(Clone, Copy)]
pub struct OfStep<'a>(pub &'a Step);

impl<'a> HasEntries for OfStep<'a> {
    type Fresh = Along<'a, NewNode, Fresh>;

    type Finds = Finds<'a, RegStep>;

    type Puts = Puts<'a, RegStep>;

    type Fields = Fields<'a, RegStep>;

    ghost listed = { λ s. entries_of_step s.0.now };

    fn fresh(&self) -> Along<'a, NewNode, Fresh> {
        Along {
            items: self.0.new.as_slice(),
            part: Fresh,
        }
    }

    fn finds(&self) -> Finds<'a, RegStep> {
        finds_in(
            self.0.rows.as_slice(),
            self.0.regs.as_slice(),
            self.0.loose.as_slice(),
        )
    }

    fn puts(&self) -> Puts<'a, RegStep> {
        puts_in(self.0.rows.as_slice(), self.0.regs.as_slice())
    }

    fn fields(&self) -> Fields<'a, RegStep> {
        fields_in(self.0.rows.as_slice(), self.0.regs.as_slice())
    }

    fn rows(&self) -> &[RowMarks] {
        self.0.rows.as_slice()
    }

    fn has_keys(&self) -> bool {
        keys_are_there(self.0.regs.as_slice())
    }
}
