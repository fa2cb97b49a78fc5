//! Whether a change and a step pass each other.
ghost use Rattle.std.specs.Prelude.{◌≡◌, true};
ghost use Rattle.std.specs.List.{list_all};
ghost use Rattle.st_ids.specs.Listing.{IsRising};
ghost use Rattle.st_ids.specs.Order.{field_cmp, node_cmp, same_node};
ghost use Rattle.st_marks.specs.declared.marks.RegStep.{RegStep as Register};
ghost use Rattle.st_marks.specs.declared.marks.RowMarks.{RowMarks as Row};
ghost use Rattle.st_marks.specs.How.{is_stay};
ghost use Rattle.st_marks.specs.Intent.{same_option};
ghost use Rattle.st_over.specs.Laid.{CanBeLaid};
ghost use Rattle.st_passing.specs.Whole.{Passes};
ghost use Rattle.st_fast_path.specs.Tests.{
  all_loose_pass as loose_test,
  is_leave as leaves,
  list_few_loose as few_test,
  loose_pass as pair_test,
  no_schema_parts as schema_test,
  pass_each_other,
  register_passes as register_test,
  registers_pass as registers_test,
  row_passes as row_test,
};

use crate::laws::tests_tell;
use st_ids::{List, NodeId, is_same_node};
use st_marks::{Change, How, Loose, RegMark, RegStep, RowMarks, Step};
use st_over::item_at;
use st_passing::does_not_meet;

/// Nodes that are nowhere are looked for one by one where one of the two lists no more of them than this.
const FEW: usize = 16;

fn stays(how: How) -> bool
    ensures { result ≡ is_stay how }
{
    match how {
        How::Stay => true,
        _ => false,
    }
}

fn leaves(how: How) -> bool
    ensures { result ≡ leaves how }
{
    match how {
        How::Leave => true,
        _ => false,
    }
}

// Whether a register has the same occupant before and after a step.
fn is_same_occupant(before: Option<NodeId>, after: Option<NodeId>) -> bool
    ensures { result ≡ same_option same_node before after }
{
    match (before, after) {
        (None, None) => true,
        (Some(before), Some(after)) => is_same_node(before, after),
        _ => false,
    }
}

// Whether a row of the change passes the step's, if the step lists it.
fn row_passes(row: &RowMarks, step: &List<RowMarks>) -> bool
    requires { IsRising node_cmp (λ (r : Row). r.node) step.now }
    ensures { result ≡ row_test step.now row.now }
{
    match item_at(step.as_slice(), &row.node) {
        None => true,
        Some(other) => does_not_meet(row.marks.as_slice(), other.marks.as_slice()),
    }
}

// Whether a register passes that both list.
fn registers_pass(mark: &RegMark, step: &RegStep) -> bool
    ensures { result ≡ registers_test mark.now step.now }
{
    is_same_occupant(step.before, step.after)
        && !mark.clear
        && mark.fill.is_none()
        && !leaves(mark.how)
}

// Whether a register of the change passes the step's, if the step lists it.
fn register_passes(mark: &RegMark, step: &List<RegStep>) -> bool
    requires { IsRising field_cmp (λ (r : Register). r.field) step.now }
    ensures { result ≡ register_test step.now mark.now }
{
    match item_at(step.as_slice(), &mark.field) {
        None => true,
        Some(other) => registers_pass(mark, other),
    }
}

// Whether two nodes that are nowhere pass.
fn loose_pass(change: &Loose, step: &Loose) -> bool
    ensures { result ≡ pair_test change.now step.now }
{
    !is_same_node(change.node, step.node) || (stays(step.how) && !leaves(change.how))
}

// Whether one of the change passes all of the step.
fn passes_loose(change: &Loose, step: &[Loose]) -> bool
    ensures { result ≡ list_all (pair_test change.now) step.now }
{
    step.iter().all(|other| loose_pass(change, other))
}

// Whether all do.
fn all_loose_pass(change: &[Loose], step: &[Loose]) -> bool
    ensures { result ≡ loose_test change.now step.now }
{
    change.iter().all(|one| passes_loose(one, step))
}

// Whether one of the two lists few nodes that are nowhere.
fn list_few_loose(change: &[Loose], step: &[Loose]) -> bool
    ensures { result ≡ few_test change.now step.now }
{
    change.len() <= FEW || step.len() <= FEW
}

// Whether neither concerns the schema.
fn no_schema_parts(change: &Change, step: &Step) -> bool
    ensures { result ≡ schema_test change.now step.now }
{
    change.schema.is_none() && step.schema.is_none()
}

// Whether all registers of the change pass the step's.
fn all_registers_pass(change: &[RegMark], step: &List<RegStep>) -> bool
    requires { IsRising field_cmp (λ (r : Register). r.field) step.now }
    ensures { result ≡ list_all (register_test step.now) change.now }
{
    change.iter().all(|mark| register_passes(mark, step))
}

// Whether all rows of the change pass the step's.
fn all_rows_pass(change: &[RowMarks], step: &List<RowMarks>) -> bool
    requires { IsRising node_cmp (λ (r : Row). r.node) step.now }
    ensures { result ≡ list_all (row_test step.now) change.now }
{
    change.iter().all(|row| row_passes(row, step))
}

// What the test says.
fn tested(change: &Change, step: &Step) -> bool
    requires { CanBeLaid change.now step.now }
    ensures { result ≡ pass_each_other change.now step.now }
{
    no_schema_parts(change, step)
        && list_few_loose(change.loose.as_slice(), step.loose.as_slice())
        && all_loose_pass(change.loose.as_slice(), step.loose.as_slice())
        && all_registers_pass(change.regs.as_slice(), &step.regs)
        && all_rows_pass(change.rows.as_slice(), &step.rows)
}

/// Whether a change and a step, both with empty cells counted, pass each other: no row, no register and no node that is nowhere is
/// met, and neither concerns the schema. Where both list more than 16 nodes that are nowhere, it says no. It looks at no node but
/// those, and takes some nanoseconds for a mark.
pub fn pass(change: &Change, step: &Step) -> bool
    requires { CanBeLaid change.now step.now }
    ensures exact { result ≡ pass_each_other change.now step.now }
    ensures passes { result ≡ true → Passes change.now step.now }
{
    tests_tell();
    tested(change, step)
}
