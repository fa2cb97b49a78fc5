//! Two intents of one commit, as one.
ghost use Rattle.std.specs.Prelude.{◌≡◌, IfOk, OnOk};
ghost use Rattle.st_marks.specs.Document.{Document, IsSoundInForm};
ghost use Rattle.st_marks.specs.Join.{AreParts, IsJoin};
ghost use Rattle.st_join.specs.inside.Lists.{join_of};

use crate::groups::join_groups;
use crate::lists::{join_clears, join_needs, join_new};
use crate::puts::join_puts;
use st_ids::List;
use st_marks::Intent;
use std::alloc::{AllocError, Global};

// Fills in what a join wants.
fn join_wants(
    alloc: Global,
    first: &Intent,
    second: &Intent,
    joined: &mut Intent,
) -> Result<(), AllocError>
    ensures { OnOk result (joined.exit.now ≡ record (join_of first.now second.now) {
      rev = joined.entry.now.rev;
      under = joined.entry.now.under;
      schema = joined.entry.now.schema;
    }) }
{
    joined.new = join_new(alloc, first, second)?;
    joined.groups = join_groups(alloc, first, second)?;
    joined.clear = join_clears(alloc, first, second)?;
    joined.put = join_puts(alloc, first, second)?;
    joined.need = join_needs(alloc, first, second)?;
    Ok(())
}

// The join, list by list.
fn join_lists(alloc: Global, first: &Intent, second: &Intent) -> Result<Intent, AllocError>
    ensures { IfOk result (λ J. J ≡ join_of first.now second.now) }
{
    let mut joined = Intent {
        rev: first.rev,
        under: first.under,
        new: List::new(alloc),
        groups: List::new(alloc),
        clear: List::new(alloc),
        put: List::new(alloc),
        need: List::new(alloc),
        schema: None,
    };
    join_wants(alloc, first, second, &mut joined)?;
    Ok(joined)
}

/// Two parts of a commit over a sound document as one intent: carried out whole, it does what the first and then the
/// second do. It has the revision and the schema that the first is made under. Of intents that are no parts of one commit
/// nothing is said. It takes O(k log k) steps, k being the length of both together. An error says that memory ran out.
pub fn join(alloc: Global, first: &Intent, second: &Intent) -> Result<Intent, AllocError>
    ensures { (D : Document) → IsSoundInForm D → AreParts D first.now second.now → IfOk result (IsJoin first.now second.now) }
{
    join_lists(alloc, first, second)
}
