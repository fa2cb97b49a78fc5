//! What is kept of each commit of the log beside it.
ghost use Rattle.std.specs.Prelude.{◌≡◌, cond, is_some, Some, OnOk};
ghost use Rattle.std.specs.BTreeMap.{get};
ghost use Rattle.st_ids.specs.Order.{rev_cmp, same_rev};
ghost use Rattle.st_ids.specs.declared.names.Rev.{Rev as RevNames};

use st_heads::Carried;
use st_ids::Rev;
use st_marks::Intent;
use std::alloc::AllocError;
use std::collections::BTreeMap;

/// A commit of the log: the number of its entry, whether it changes the schema, and how it came out where it came.
#[derive(Drop)]
pub struct Logged {
    pub n: u32,
    pub is_schema: bool,
    pub carried: Carried,
}

/// Takes note of a commit that enters the log as the entry of a number. After an `Err` nothing is promised of the map.
pub fn log_commit(
    logged: &mut BTreeMap<Rev, Logged>,
    n: u32,
    intent: &Intent,
    carried: Carried,
) -> Result<(), AllocError>
    ensures { OnOk result ((rev : RevNames) → get rev_cmp logged.new rev
        ≡ cond (same_rev intent.now.rev rev) (Some (record { n = n; is_schema = is_some intent.now.schema; carried = carried })) (get rev_cmp logged.old rev)) }
{
    let is_schema = intent.schema.is_some();
    logged.insert(
        intent.rev,
        Logged {
            n,
            is_schema,
            carried,
        },
    )?;
    Ok(())
}
