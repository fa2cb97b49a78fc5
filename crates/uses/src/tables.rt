//! A use of `st_idcodec`.
ghost use Rattle.std.specs.Prelude.{◌≡◌, IfOk};
ghost use Rattle.st_ids.specs.Or.{IfRefused};
ghost use Rattle.st_clusters.specs.Ids.{ids_of};
ghost use Rattle.st_clusters.specs.Reached.{IsReached};
ghost use Rattle.st_idcodec.specs.Tables.{only_final};

use st_clusters::Compressor;
use st_idcodec::{only_finalised_ids_are_written, read_table, table_value, tables_are_read_back};
use st_ids::Or;
use st_json::Shape;
use std::alloc::Global;

/// Hands a table of ids to a client that joins, as a value. The client gets all that is finalised, and nothing else.
pub fn hand_over(alloc: Global, ids: &Compressor) -> Result<Compressor, Or<Shape>>
    requires { IsReached (ids_of ids.now) }
    ensures same { IfOk result (λ c. ids_of c ≡ only_final (ids_of ids.now)) }
    ensures taken { IfRefused result (λ _. ⊥) }
{
    let value = table_value(alloc, ids)?;
    tables_are_read_back();
    only_finalised_ids_are_written();
    let table = read_table(alloc, &value)?;
    Ok(table)
}
