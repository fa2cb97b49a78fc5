//! Messages, read by their form and written back.

use serde_json::Value;
use st_ids::Text;
use st_msg::{Form, Said, read_form};
use st_msg_writer::{Head, push_ack, push_commit, push_join, push_leave};
use std::alloc::{AllocError, Global};
use std::test::Fail;

// Each text with what it is read as: a message whose text it is, a message that is written in another way, or none.
const TEXTS: [(&str, &str); 28] = [
    (
        r#"{"kind":"join","min":1,"n":1,"s":1,"uuid":"00000000-0000-4004-8000-000000000000"}"#,
        "same",
    ),
    (
        r#"{"kind":"join","min":1,"n":1,"s":1,"uuid":"00000000-0000-1000-8000-000000000000"}"#,
        "same",
    ),
    (
        r#"{"kind":"join","min":1,"n":1,"s":1,"uuid":"FFFFFFFF-FFFF-4FFF-BFFF-FFFFFFFFFFFF"}"#,
        "other",
    ),
    (
        r#"{"kind":"join","min":1,"n":1,"s":1,"uuid":"{00000000-0000-4004-8000-000000000000}"}"#,
        "other",
    ),
    (
        r#"{"kind":"join","min":1,"n":1,"s":1,"uuid":"urn:uuid:00000000-0000-4004-8000-000000000000"}"#,
        "other",
    ),
    (
        r#"{"kind":"join","min":1,"n":1,"s":1,"uuid":"00000000000040048000000000000000"}"#,
        "other",
    ),
    (
        r#"{"kind":"join","min":1,"n":1,"s":1,"uuid":"{00000000000040048000000000000000}"}"#,
        "Shape",
    ),
    (r#"{"kind":"join","min":1,"n":1,"s":1,"uuid":"x"}"#, "Shape"),
    (r#"{"kind":"join","min":1,"n":1,"s":1}"#, "Shape"),
    (r#"{"kind":"leave","min":4294967295,"n":0,"s":7}"#, "same"),
    (r#"{"s":7,"n":0,"min":1,"kind":"leave"}"#, "other"),
    (r#"{"kind":"leave","min":4294967296,"n":0,"s":7}"#, "Shape"),
    (r#"{"kind":"leave","min":1.0,"n":0,"s":7}"#, "Shape"),
    (r#"{"kind":"leave","min":1,"n":-0,"s":7}"#, "Shape"),
    (r#"{"kind":"leave","min":1,"n":0,"s":"7"}"#, "Shape"),
    (r#"{"kind":"leave","min":1,"n":0,"ref":0,"s":7}"#, "Shape"),
    (r#"{"kind":"ack","min":1,"n":2,"ref":1,"s":1}"#, "same"),
    (r#"{"kind":"ack","min":1,"n":2,"s":1}"#, "Shape"),
    (
        r#"{"change":{"base":true,"rev":-1},"ids":[1,1],"kind":"op","min":1,"n":3,"ref":2,"s":1}"#,
        "same",
    ),
    (
        r#"{"change":{"rev":-1,"schema":null},"ids":[2,0],"kind":"schema","min":1,"n":4,"ref":2,"s":1}"#,
        "same",
    ),
    (
        r#"{"change":{"rev":-1,"schema":null},"ids":[2,0],"kind":"op","min":1,"n":4,"ref":2,"s":1}"#,
        "Shape",
    ),
    (
        r#"{"change":{"rev":-1},"ids":[2,0],"kind":"schema","min":1,"n":4,"ref":2,"s":1}"#,
        "Shape",
    ),
    (
        r#"{"change":["schema"],"ids":[2,0],"kind":"op","min":1,"n":4,"ref":2,"s":1}"#,
        "Shape",
    ),
    (
        r#"{"change":{},"ids":[2],"kind":"op","min":1,"n":4,"ref":2,"s":1}"#,
        "Shape",
    ),
    (
        r#"{"change":{},"ids":[2,0,0],"kind":"op","min":1,"n":4,"ref":2,"s":1}"#,
        "Shape",
    ),
    (
        r#"{"change":{},"ids":[2,0],"kind":"edit","min":1,"n":4,"ref":2,"s":1}"#,
        "Shape",
    ),
    (r#"{"min":1,"n":0,"s":7}"#, "Shape"),
    (r#"["leave",1,0,7]"#, "Shape"),
];

// The text of a commit's change, or no text.
fn change_text(alloc: Global, said: &Said<'_>) -> Result<String, AllocError> {
    match said {
        Said::Commit { change, .. } => change.to_string(alloc),
        _ => String::from_str(alloc, ""),
    }
}

// Writes a message that was read, with the text of its change.
fn push_form(
    alloc: Global,
    out: &mut Text,
    form: &Form<'_>,
    change: &str,
) -> Result<(), AllocError> {
    let head = Head {
        n: form.n,
        min: form.min,
        session: form.session,
    };
    match &form.said {
        Said::Join { uuid } => push_join(alloc, out, head, *uuid),
        Said::Leave => push_leave(out, head),
        Said::Ack { reference } => push_ack(out, head, *reference),
        Said::Commit {
            reference,
            ids,
            change: value,
        } => {
            let upgrade = value.get("schema").is_some();
            push_commit(out, head, *reference, *ids, upgrade, change)
        }
    }
}

// Whether a message is written as that text.
fn is_written(alloc: Global, form: &Form<'_>, text: &str) -> Result<bool, AllocError> {
    let change = change_text(alloc, &form.said)?;
    let mut out = Text::from_str(alloc, "")?;
    push_form(alloc, &mut out, form, change.as_str())?;
    Ok(out.as_str() == text)
}

fn read_as(alloc: Global, value: &Value, text: &str) -> Result<&'static str, AllocError> {
    match read_form(value) {
        Err(_) => Ok("Shape"),
        Ok(form) => {
            if is_written(alloc, &form, text)? {
                Ok("same")
            } else {
                Ok("other")
            }
        }
    }
}

fn value_of(alloc: Global, text: &str) -> Result<Value, AllocError> {
    match Value::from_str(alloc, text) {
        Ok(value) => Ok(value),
        Err(_) => Err(AllocError),
    }
}

// How many of the texts are read as they should be.
fn read(alloc: Global) -> Result<u32, AllocError> {
    let mut count: u32 = 0;
    for (text, word) in TEXTS.iter() {
        let value = value_of(alloc, text)?;
        if read_as(alloc, &value, text)? == *word {
            count = count.saturating_add(1);
        }
    }
    Ok(count)
}

#[test]
fn messages_are_read(rt: HostRuntime) -> Result<(), Fail> {
    let count = read(rt.alloc())?;
    assert!(rt; count == 28, "{count}");
    Ok(())
}
