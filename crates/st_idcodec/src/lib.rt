//! Op-space names, and the table of ids, as JSON values.
#![tactic(auto)]

mod laws;
mod names;
mod read;
mod table;
mod uuids;

pub use laws::{
    names_are_read_back, only_finalised_ids_are_written, ops_are_read_back, tables_are_read_back,
    uuids_are_read_back,
};
pub use names::{CodecFault, op_atom, op_rev, read_op_atom, read_op_rev};
pub use read::read_table;
pub use table::table_value;
pub use uuids::{read_uuid, uuid_value};
