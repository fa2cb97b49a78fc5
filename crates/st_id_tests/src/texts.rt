//! Names and the table as JSON.

use crate::sessions::compressor_in_use;
use serde_json::Value;
use st_clusters::{At, Compressor, IdRange};
use st_idcodec::{CodecFault, op_atom, op_rev, read_op_atom, read_op_rev, read_table, table_value};
use st_ids::{Atom, List, Or, Rev};
use std::alloc::{AllocError, Global};
use std::test::Fail;

const TABLE: &str =
    "{\"clusters\":[[1,1,1,512,512],[2,1,513,512,1],[1,513,1025,512,1]],\"uuids\":[\"00000000-0000-4004-8000-000000000000\",\"00000000-0000-4008-8000-000000000000\"]}";

fn is_table(alloc: Global, ids: &Compressor, text: &str) -> Result<bool, AllocError> {
    let written = table_value(alloc, ids)?.to_string(alloc)?;
    Ok(written.as_str() == text)
}

fn text_of(alloc: Global, value: Option<Value>) -> Result<bool, AllocError> {
    match value {
        Some(value) => Ok(value.to_string(alloc)?.as_str() == "[1025,7]"),
        None => Ok(false),
    }
}

fn atom() -> Atom {
    let rev = Rev {
        session: 1,
        num: 513,
    };
    Atom { rev, at: 7 }
}

fn goes_back(alloc: Global, at: &At) -> bool {
    let rev = op_rev(at, atom().rev).is_ok_and(|v| read_op_rev(at, &v) == Ok(atom().rev));
    let pair = op_atom(alloc, at, atom()).is_ok_and(|v| read_op_atom(at, &v) == Ok(atom()));
    rev && pair
}

fn refuses(at: &At) -> bool {
    let form = read_op_rev(at, &Value::Null) == Err(CodecFault::Shape);
    let name = read_op_rev(at, &Value::from(514u32)) == Err(CodecFault::Unknown);
    form && name && read_op_atom(at, &Value::from(1u32)) == Err(CodecFault::Shape)
}

fn names(alloc: Global, ids: &Compressor) -> Result<bool, AllocError> {
    let later: List<IdRange> = List::new(alloc);
    let at = At {
        ids,
        own: 2,
        have: 1,
        later: &later,
    };
    let text = text_of(alloc, op_atom(alloc, &at, atom()).ok())?;
    Ok(text && goes_back(alloc, &at) && refuses(&at))
}

#[test]
fn texts(rt: HostRuntime) -> Result<(), Fail> {
    let alloc = rt.alloc();
    let ids = compressor_in_use(alloc).ok_or("a table")?;
    let (table, names) = (is_table(alloc, &ids, TABLE)?, names(alloc, &ids)?);
    assert!(rt; table && names);
    Ok(())
}

// A table whose first cluster grew.
const GROWN: &str =
    "{\"clusters\":[[2,1,1,1024,1000],[1,1,1025,512,7]],\"uuids\":[\"00000000-0000-4004-8000-000000000000\",\"00000000-0000-4008-8000-000000000000\"]}";

// In turn: a gap before the first number, a cluster of 511, one that isn't full before the next of
// its session, two neighbours of one session, a session that isn't there, one that grew while it had
// room, a UUID in upper case, one of version 1, two that clash, no UUIDs, and no object.
const REFUSED: [&str; 11] = [
    "{\"clusters\":[[1,1,2,512,512]],\"uuids\":[\"00000000-0000-4004-8000-000000000000\"]}",
    "{\"clusters\":[[1,1,1,511,511]],\"uuids\":[\"00000000-0000-4004-8000-000000000000\"]}",
    "{\"clusters\":[[1,1,1,512,511],[2,1,513,512,1],[1,512,1025,512,1]],\"uuids\":[\"00000000-0000-4004-8000-000000000000\",\"00000000-0000-4008-8000-000000000000\"]}",
    "{\"clusters\":[[1,1,1,512,512],[1,513,513,512,1]],\"uuids\":[\"00000000-0000-4004-8000-000000000000\"]}",
    "{\"clusters\":[[2,1,1,512,1]],\"uuids\":[\"00000000-0000-4004-8000-000000000000\"]}",
    "{\"clusters\":[[1,1,1,1024,512]],\"uuids\":[\"00000000-0000-4004-8000-000000000000\"]}",
    "{\"clusters\":[],\"uuids\":[\"00000000-0000-4004-8000-00000000000A\"]}",
    "{\"clusters\":[],\"uuids\":[\"00000000-0000-1004-8000-000000000000\"]}",
    "{\"clusters\":[],\"uuids\":[\"00000000-0000-4004-8000-000000000000\",\"00000000-0000-4004-8000-000000000001\"]}",
    "{\"clusters\":[]}",
    "[]",
];

fn read(alloc: Global, text: &str) -> Option<Compressor> {
    let value = Value::from_str(alloc, text).ok()?;
    read_table(alloc, &value).ok()
}

fn reads(alloc: Global, text: &str) -> Result<bool, AllocError> {
    match read(alloc, text) {
        Some(ids) => is_table(alloc, &ids, text),
        None => Ok(false),
    }
}

fn reads_ids(alloc: Global) -> Option<bool> {
    let mut ids = read(alloc, TABLE)?;
    let finalised = ids.finalised_count(1) == Some(513) && ids.finalised_count(2) == Some(1);
    Some(finalised && ids.generate(1) == Ok(514) && ids.generate(2) == Ok(2))
}

fn is_refused(alloc: Global, text: &str) -> bool {
    match Value::from_str(alloc, text) {
        Ok(value) => matches!(read_table(alloc, &value), Err(Or::Fault(_))),
        Err(_) => false,
    }
}

#[test]
fn tables_are_read(rt: HostRuntime) -> Result<(), Fail> {
    let alloc = rt.alloc();
    let (table, grown) = (reads(alloc, TABLE)?, reads(alloc, GROWN)?);
    assert!(rt; table && grown && reads_ids(alloc) == Some(true));
    Ok(())
}

#[test]
fn tables_are_refused(rt: HostRuntime) -> Result<(), Fail> {
    let alloc = rt.alloc();
    let wrong = REFUSED.iter().position(|text| !is_refused(alloc, text));
    assert!(rt; wrong.is_none(), "{wrong:?}");
    Ok(())
}
