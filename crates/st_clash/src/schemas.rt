//! Whether schema entries can be in effect where a change and a step stand, told from the two alone.
ghost use Rattle.std.specs.Prelude.{◌≡◌, true, IfSome};
ghost use Rattle.st_marks.specs.Agree.{HaveSchemasBeside};
ghost use Rattle.st_normal.specs.Rules.{SchemaStepFits};
ghost use Rattle.st_clash.specs.inside.Schemas.{
  has_rev,
  is_known,
  last_before,
  may_be_between,
  suits_alone,
  suits_data,
  suits_part,
  suits_schema,
};

use st_ids::{OPENING, Rev, is_same_rev};
use st_marks::{Change, SchemaEntry, SchemaStep, Step};

// Whether one of some entries has a revision.
fn has_rev(entries: &[SchemaEntry], rev: Rev) -> bool
    ensures { result ≡ has_rev entries.now rev }
{
    for entry in entries {
        if is_same_rev(entry.rev, rev) {
            return true;
        }
    }
    false
}

// Whether a revision is surely in effect before a step: the opening's, the last that both lists share, or one that goes.
fn is_known(part: &SchemaStep, rev: Rev) -> bool
    ensures { result ≡ is_known part.now rev }
{
    is_same_rev(rev, OPENING) || is_same_rev(rev, part.on) || has_rev(part.cut.as_slice(), rev)
}

// Whether a revision that isn't told may be in effect before and after a step.
fn may_be_between(part: &SchemaStep, rev: Rev) -> bool
    ensures { result ≡ may_be_between part.now rev }
{
    !is_same_rev(part.on, OPENING) && !has_rev(part.add.as_slice(), rev)
}

// The revision of the last entry before a step.
fn last_before(part: &SchemaStep) -> Rev
    ensures { result ≡ last_before part.now }
{
    match part.cut.as_slice().last() {
        None => part.on,
        Some(entry) => entry.rev,
    }
}

// Whether a change of data, under a schema, suits what a step does to the schemas.
fn suits_data(part: &SchemaStep, under: Rev, base: bool) -> bool
    ensures { result ≡ suits_data part.now under base }
{
    if base {
        is_known(part, under) || may_be_between(part, under)
    } else {
        !is_known(part, under)
    }
}

// Whether a change of schema, under another, suits what a step does to the schemas.
fn suits_schema(part: &SchemaStep, rev: Rev, under: Rev, base: bool) -> bool
    ensures { result ≡ suits_schema part.now rev under base }
{
    !is_known(part, rev)
        && !has_rev(part.add.as_slice(), rev)
        && base == is_same_rev(last_before(part), under)
}

// Whether a change suits what a step does to the schemas.
fn suits_part(part: &SchemaStep, change: &Change) -> bool
    ensures { result ≡ suits_part part.now change.now }
{
    match &change.schema {
        None => suits_data(part, change.under, change.base),
        Some(_) => suits_schema(part, change.rev, change.under, change.base),
    }
}

// Whether a change suits some schemas, which a step leaves as they are.
fn suits_alone(change: &Change) -> bool
    ensures { result ≡ suits_alone change.now }
{
    match &change.schema {
        None => change.base || !is_same_rev(change.under, OPENING),
        Some(_) => {
            !is_same_rev(change.rev, OPENING)
                && !(change.base && is_same_rev(change.under, change.rev))
        }
    }
}

/// Whether some schema entries can be in effect where a change and a step stand. Where the step's own part fits, as in normal
/// form, this is exact; linear in the entries that come and go.
pub fn have_schemas(change: &Change, step: &Step) -> bool
    ensures all { HaveSchemasBeside change.now step.now → result ≡ true }
    ensures some { IfSome step.now.schema SchemaStepFits → result ≡ true → HaveSchemasBeside change.now step.now }
{
    match &step.schema {
        None => suits_alone(change),
        Some(part) => suits_part(part, change),
    }
}
