//! What a step says of schemas.
ghost use Rattle.std.specs.Prelude.{◌≡◌, ◌≢◌, ◌↔◌, ◌++◌, IsTrue, IfSome, List as Seq, MatchOption, Some};
ghost use Rattle.std.specs.List.{AllByRecursion};
ghost use Rattle.st_ids.specs.declared.names.Rev.{Rev as Revision};
ghost use Rattle.st_ids.specs.Listing.{AreDistinct};
ghost use Rattle.st_marks.specs.declared.schemas.SchemaEntry.{SchemaEntry as Entry};
ghost use Rattle.st_marks.specs.Document.{CanBeInEffect, last_of, revs};
ghost use Rattle.st_normal.specs.Rules.{SchemaStepFits};
ghost use Rattle.st_normal_step_laws.specs.StepOver.{EndsWithCut};
ghost use Rattle.st_over_step.specs.inside.Tables.{IsNotAmong};

use crate::each::{Rule, each_of};
use st_ids::{Rev, is_same_rev};
use st_marks::{SchemaEntry, SchemaStep};

/// An entry has another revision.
#[derive(Drop)]
struct HasOtherRev(Rev);

impl Rule for HasOtherRev {
    type Item = SchemaEntry;

    ghost Holds = { λ s e. s.0 ≢ e.rev };

    fn holds(&self, entry: &SchemaEntry) -> bool {
        !is_same_rev(self.0, entry.rev)
    }
}

/// An entry's revision is that of none of these.
#[derive(Drop)]
struct IsNotOf<'a>(&'a [SchemaEntry]);

impl<'a> Rule for IsNotOf<'a> {
    type Item = SchemaEntry;

    ghost Holds = { λ s e. IsNotAmong s.0.now e };

    fn holds(&self, entry: &SchemaEntry) -> bool {
        each_of(self.0, &HasOtherRev(entry.rev))
    }
}

// Whether a revision is that of the last entry.
fn is_last(entries: &[SchemaEntry], rev: Rev) -> bool
    ensures { IsTrue result ↔ (last_of (revs entries.now) ≡ Some rev) }
{
    match entries.last() {
        None => false,
        Some(entry) => is_same_rev(entry.rev, rev),
    }
}

// The entries before those with which they end.
fn before_last<'a>(entries: &'a [SchemaEntry], last: &[SchemaEntry]) -> Option<&'a [SchemaEntry]>
    ensures { MatchOption result
        ((front : Seq Entry) → entries.now ≢ front ++ last.now) (λ front. entries.now ≡ front.now ++ last.now) }
{
    entries.strip_suffix(last)
}

// Whether entries can be in effect with those that a step adds behind the ones at which it goes on.
fn goes_on(front: &[SchemaEntry], part: &SchemaStep) -> bool
    ensures { CanBeInEffect (front.now ++ part.now.cut) → SchemaStepFits part.now
        → IsTrue result ↔ ((last_of (revs front.now) ≡ Some part.now.on) × CanBeInEffect (front.now ++ part.now.add)) }
{
    is_last(front, part.on) && each_of(part.add.as_slice(), &IsNotOf(front))
}

// Whether entries end with those that a step cuts, behind the one at which it goes on, and can be in effect with those that it adds.
fn end_with_cut(entries: &[SchemaEntry], part: &SchemaStep) -> bool
    ensures { CanBeInEffect entries.now → SchemaStepFits part.now → IsTrue result ↔ EndsWithCut entries.now part.now }
{
    match before_last(entries, part.cut.as_slice()) {
        None => false,
        Some(front) => goes_on(front, part),
    }
}

/// Whether what a step says of schemas is so of entries, if it says anything.
pub fn schemas_are_so(entries: &[SchemaEntry], part: &Option<SchemaStep>) -> bool
    ensures { CanBeInEffect entries.now → IfSome part.now SchemaStepFits → IsTrue result ↔ IfSome part.now (EndsWithCut entries.now) }
{
    match part {
        None => true,
        Some(part) => end_with_cut(entries, part),
    }
}
