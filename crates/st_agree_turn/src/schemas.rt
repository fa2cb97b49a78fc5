//! Whether schema entries can be in effect before two steps in turn, between them and after them.
ghost use Rattle.std.specs.Prelude.{◌≡◌, ◌≤◌, ◌<◌, ◌↔◌, ◌&&◌, true, length, Some, IfSome};
ghost use Rattle.std.specs.List.{list_all, list_any};
ghost use Rattle.st_ids.specs.Order.{same_rev};
ghost use Rattle.st_marks.specs.declared.schemas.SchemaEntry.{SchemaEntry as Entry};
ghost use Rattle.st_marks.specs.declared.steps.Step.{Step as Over};
ghost use Rattle.st_marks.specs.Agree.{HaveSchemasInTurn};
ghost use Rattle.st_normal.specs.Rules.{SchemaStepFits};
ghost use Rattle.st_agree_turn.specs.inside.Meets.{Meets, is_apart as apart, last_behind as behind};

use st_ids::{Rev, is_same_rev};
use st_marks::{SchemaEntry, SchemaStep, Step};

// Whether two lists have the same entries.
fn are_same(a: &[SchemaEntry], b: &[SchemaEntry]) -> bool
    ensures { (result ≡ true) ↔ (a.now ≡ b.now) }
{
    a == b
}

// The revision of the last of some entries, or else of the one before them.
fn last_behind(on: Rev, entries: &[SchemaEntry]) -> Rev
    ensures { result ≡ behind on entries.now }
{
    match entries.last() {
        None => on,
        Some(entry) => entry.rev,
    }
}

// Whether one of some entries has a revision.
fn has_rev(entries: &[SchemaEntry], rev: Rev) -> bool
    ensures { result ≡ list_any (λ (e : Entry). same_rev e.rev rev) entries.now }
{
    entries.iter().any(|entry| is_same_rev(entry.rev, rev))
}

// Whether an entry has another revision than the given one, and than some entries.
fn is_apart(on: Rev, entries: &[SchemaEntry], other: &SchemaEntry) -> bool
    ensures { result ≡ apart on entries.now other.now }
{
    !is_same_rev(other.rev, on) && !has_rev(entries, other.rev)
}

// Whether each of some entries does.
fn are_apart(on: Rev, entries: &[SchemaEntry], others: &[SchemaEntry]) -> bool
    ensures { result ≡ list_all (apart on entries.now) others.now }
{
    others.iter().all(|other| is_apart(on, entries, other))
}

// Whether some entries behind one end at another, and others can stand there in place of what comes behind.
fn can_follow(on: Rev, front: &[SchemaEntry], at: Rev, others: &[SchemaEntry]) -> bool
    ensures { result ≡ (same_rev (behind on front.now) at && list_all (apart on front.now) others.now) }
{
    is_same_rev(last_behind(on, front), at) && are_apart(on, front, others)
}

// Whether the longer list behind one entry ends with the shorter behind another, which is the last before it, and others can
// stand there in its place.
fn meets(
    on: Rev,
    long: &[SchemaEntry],
    at: Rev,
    short: &[SchemaEntry],
    others: &[SchemaEntry],
) -> bool
    requires { length short.now ≤ length long.now }
    ensures { (result ≡ true) ↔ Meets on long.now at short.now others.now }
{
    let (front, end) = long.split_at(long.len() - short.len());
    if !are_same(end, short) {
        return false;
    }
    can_follow(on, front, at, others)
}

// Whether what one step brings is what another takes away, or one of the two ends with the other.
fn do_meet(first: &SchemaStep, then: &SchemaStep) -> bool
    ensures first { length then.now.cut ≤ length first.now.add → (result ≡ true) ↔ Meets first.now.on first.now.add then.now.on then.now.cut then.now.add }
    ensures then { length first.now.add < length then.now.cut → (result ≡ true) ↔ Meets then.now.on then.now.cut first.now.on first.now.add first.now.cut }
{
    let (came, goes) = (first.add.as_slice(), then.cut.as_slice());
    if goes.len() <= came.len() {
        meets(first.on, came, then.on, goes, then.add.as_slice())
    } else {
        meets(then.on, goes, first.on, came, first.cut.as_slice())
    }
}

// The same, where the first changes the schemas so.
fn goes_on(part: &SchemaStep, then: &Step) -> bool
    ensures all { (S : Over) → S.schema ≡ Some part.now → HaveSchemasInTurn S then.now → result ≡ true }
    ensures some { (S : Over) → S.schema ≡ Some part.now → SchemaStepFits part.now → IfSome then.now.schema SchemaStepFits → result ≡ true
        → HaveSchemasInTurn S then.now }
{
    match &then.schema {
        None => true,
        Some(next) => do_meet(part, next),
    }
}

/// Whether entries can be in effect before two steps in turn, between them and after them: what the second takes away is the end of
/// what the first brings, or ends with that, and what stands there in its place has other revisions. Linear in the entries that
/// come and go, but for those that stay between: of these each is looked at for each that comes in their place.
pub fn have_schemas_in_turn(first: &Step, then: &Step) -> bool
    ensures all { HaveSchemasInTurn first.now then.now → result ≡ true }
    ensures some { IfSome first.now.schema SchemaStepFits → IfSome then.now.schema SchemaStepFits → result ≡ true
        → HaveSchemasInTurn first.now then.now }
{
    match &first.schema {
        None => true,
        Some(part) => goes_on(part, then),
    }
}
