//! Each public call of the lines of a trace once, and lines that are no steps.
use st_ids::{Atom, Key, Leaf, List, NodeId, Or, Path, Rev, Text};
use st_json::BadCause;
use st_marks::Verdict;
use st_script::{
    Act, Answer, EditAct, Line, Refusal, TraceStep, answer_line, read_header,
    read_headers_may_open, read_step_line, read_steps_are_of_form, read_steps_are_read_again,
    read_steps_fit_lines, read_steps_have_shape, step_line, step_lines_are_read,
};
use st_tree::{Field, Tree, TreeFault};
use std::alloc::{AllocError, Global};
use std::test::Fail;

// The first test that a line fails.
fn cause_in(alloc: Global, line: &str) -> Option<BadCause> {
    match read_step_line(alloc, line.as_bytes()) {
        Ok(Line::Bad(cause)) => Some(cause),
        _ => None,
    }
}

// The line of a step.
fn line_of(alloc: Global, step: &TraceStep) -> Option<Text> {
    step_line(alloc, step).ok()
}

// Whether a line is read as a step that is written as that line.
fn is_written_as(alloc: Global, line: &str, whole: &str) -> bool {
    match read_step_line(alloc, line.as_bytes()) {
        Ok(Line::Step(step)) => line_of(alloc, &step).is_some_and(|text| text.as_str() == whole),
        _ => false,
    }
}

const INSERT_LINE: &str =
    r#"{"at":["",2],"client":"A","do":"insert","index":1,"items":[7,{"list":["a"]}]}"#;

const WHOLE_INSERT_LINE: &str =
    "{\"at\":[\"\",2],\"branch\":0,\"client\":\"A\",\"do\":\"insert\",\"index\":1,\"items\":[7,{\"list\":[\"a\"]}],\"key\":\"\"}\n";

#[test]
fn first_use(rt: HostRuntime) {
    assert!(rt; is_written_as(rt.alloc(), INSERT_LINE, WHOLE_INSERT_LINE));
    read_steps_are_of_form();
    read_steps_fit_lines();
    read_steps_have_shape();
    step_lines_are_read();
    read_steps_are_read_again();
    read_headers_may_open();
}

// A line of each step, with every member. The last holds a tree that no schema allows.
const WHOLE_LINES: [&str; 18] = [
    r#"{"client":"A","do":"join"}"#,
    r#"{"client":"A","do":"join","uuid":"00000000-0000-4004-8000-000000000000"}"#,
    r#"{"at":["",2],"branch":3,"client":"A","do":"insert","index":1,"items":[null,{"m":{"a":true,"b":-7}}],"key":"k"}"#,
    r#"{"at":[],"branch":0,"client":"A","count":2,"do":"remove","index":1,"key":""}"#,
    r#"{"at":["",0,"k",0],"branch":4294967295,"client":"A","count":1,"do":"move","index":5,"key":"","to":["",1],"to_index":6,"to_key":"q"}"#,
    r#"{"at":[],"branch":0,"client":"\"é","do":"set","item":{"list":["x"]},"key":"k"}"#,
    r#"{"at":["",1],"branch":0,"client":"A","do":"clear","key":"k"}"#,
    r#"{"at":["",2],"branch":3,"client":"A","do":"need"}"#,
    r#"{"branch":0,"client":"A","do":"begin"}"#,
    r#"{"branch":4294967295,"client":"A","do":"commit"}"#,
    r#"{"branch":1,"client":"A","do":"abort"}"#,
    r#"{"client":"A","do":"undo","rev":"1.4294967295"}"#,
    r#"{"client":"A","do":"upgrade","schema":{"root":["o"],"types":[{"array":["text","int"],"name":"list"},{"name":"o","object":{"a":["opt",["list"]],"b":["req",["text"]]}}]}}"#,
    r#"{"client":"A","do":"sequence"}"#,
    r#"{"client":"A","do":"ack"}"#,
    r#"{"client":"A","do":"deliver"}"#,
    r#"{"branch":1,"client":"A","do":"show"}"#,
    r#"{"at":[],"branch":0,"client":"A","do":"set","item":{"m":{"":1,"a":2}},"key":""}"#,
];

fn is_written_again(alloc: Global, line: &str) -> Result<bool, AllocError> {
    let whole = format!(in alloc; "{line}\n")?;
    Ok(is_written_as(alloc, line, whole.as_str()))
}

#[test]
fn steps_written_again(rt: HostRuntime) -> Result<(), Fail> {
    let alloc = rt.alloc();
    for line in &WHOLE_LINES {
        let again = is_written_again(alloc, line)?;
        assert!(rt; again, "{line}");
    }
    Ok(())
}

fn null(alloc: Global) -> Result<Tree, AllocError> {
    let leaf = Some(Leaf::Null);
    Ok(Tree {
        ty: Text::from_str(alloc, "null")?,
        leaf,
        fields: List::new(alloc),
    })
}

// The list of one item.
fn list_of(alloc: Global, item: Tree) -> Result<Tree, AllocError> {
    let mut items = List::new(alloc);
    items.push(item)?;
    let key = Key(Text::new(alloc));
    let row = true;
    let mut fields = List::new(alloc);
    fields.push(Field { key, row, items })?;
    let leaf = None;
    Ok(Tree {
        ty: Text::from_str(alloc, "list")?,
        leaf,
        fields,
    })
}

// A tree of so many levels.
fn tall_tree(alloc: Global, levels: u32) -> Result<Tree, AllocError> {
    let mut tree = null(alloc)?;
    for _level in 1..levels {
        tree = list_of(alloc, tree)?;
    }
    Ok(tree)
}

// The line of a set of a tree of so many levels.
fn tall_line(alloc: Global, levels: u32) -> Result<Text, Or<TreeFault>> {
    let client = Text::from_str(alloc, "A")?;
    let item = tall_tree(alloc, levels)?;
    let at = Path::new(alloc);
    let key = Key(Text::new(alloc));
    let act = Act::Edit(EditAct::Set { at, key, item });
    let step = TraceStep {
        client,
        branch: 0,
        act,
    };
    step_line(alloc, &step)
}

#[test]
fn tall_trees(rt: HostRuntime) {
    let alloc = rt.alloc();
    let most = tall_line(alloc, 48).is_ok();
    let more = tall_line(alloc, 49).err() == Some(Or::Fault(TreeFault::TooDeep));
    assert!(rt; most && more, "{most} {more}");
}

// Lines that are no steps, each with the first test that it fails.
const BAD_LINES: [(&str, BadCause); 19] = [
    (r#"{"client":"A","do":"show""#, BadCause::Json),
    (r#"[]"#, BadCause::Shape),
    (r#"{"client":"A"}"#, BadCause::Shape),
    (r#"{"client":"A","do":"branch"}"#, BadCause::Shape),
    (
        r#"{"client":"A","do":"undo","rev":"1.01"}"#,
        BadCause::Shape,
    ),
    (
        r#"{"client":"A","do":"undo","rev":"1.4294967296"}"#,
        BadCause::Shape,
    ),
    (r#"{"client":"","do":"show"}"#, BadCause::Shape),
    (r#"{"client":"A","do":"join","branch":0}"#, BadCause::Shape),
    (
        r#"{"client":"A","do":"show","branch":4294967296}"#,
        BadCause::Shape,
    ),
    (r#"{"client":"A","do":"clear","at":[""]}"#, BadCause::Shape),
    (r#"{"client":"A","do":"upgrade"}"#, BadCause::Shape),
    (
        r#"{"client":"A","do":"upgrade","schema":{"root":["list"],"types":[]}}"#,
        BadCause::Shape,
    ),
    (
        r#"{"branch":0,"client":"A","do":"upgrade","schema":{"root":["int"],"types":[]}}"#,
        BadCause::Shape,
    ),
    (r#"{"client":"A","do":"need"}"#, BadCause::Shape),
    (r#"{"client":"A","do":"begin","at":[]}"#, BadCause::Shape),
    (r#"{"client":"A","do":"set","at":[]}"#, BadCause::Shape),
    (
        r#"{"client":"A","do":"insert","at":[],"index":0,"items":[]}"#,
        BadCause::Shape,
    ),
    (
        r#"{"client":"A","do":"remove","at":[],"index":0,"count":0}"#,
        BadCause::Shape,
    ),
    (
        r#"{"client":"A","do":"remove","at":[],"index":1.0}"#,
        BadCause::Shape,
    ),
];

#[test]
fn no_steps(rt: HostRuntime) {
    let alloc = rt.alloc();
    let other = BAD_LINES
        .iter()
        .position(|(line, cause)| cause_in(alloc, line) != Some(*cause));
    assert!(rt; other.is_none(), "{other:?}");
}

const REV: Rev = Rev { session: 2, num: 3 };

const VOID: Answer = Answer::Deliver {
    n: 5,
    void: Verdict::Need(NodeId(Atom { rev: REV, at: 4 })),
};

const VOID_LINE: &str = "{\"n\":5,\"ok\":\"deliver\",\"void\":{\"need\":\"2.3.4\"}}\n";

const NO_NODE_LINE: &str = "{\"depth\":1,\"no\":\"NoNode\"}\n";

fn answers_are_written(alloc: Global) -> Result<bool, AllocError> {
    let void = answer_line(alloc, &VOID)?;
    let refusal = answer_line(alloc, &Answer::No(Refusal::NoNode { depth: 1 }))?;
    Ok(void.as_str() == VOID_LINE && refusal.as_str() == NO_NODE_LINE)
}

const NO_COMMIT_LINE: &str = "{\"ok\":\"commit\",\"rev\":null}\n";

const COMMIT_LINE: &str = "{\"ok\":\"commit\",\"rev\":\"2.3\"}\n";

fn commits_are_written(alloc: Global) -> Result<bool, AllocError> {
    let none = answer_line(alloc, &Answer::Commit { rev: None })?;
    let commit = answer_line(alloc, &Answer::Commit { rev: Some(REV) })?;
    Ok(none.as_str() == NO_COMMIT_LINE && commit.as_str() == COMMIT_LINE)
}

const ACK_LINE: &str = "{\"ok\":\"ack\",\"ref\":5}\n";

const GONE_LINE: &str = "{\"floor\":7,\"no\":\"Gone\"}\n";

fn numbers_are_written(alloc: Global) -> Result<bool, AllocError> {
    let ack = answer_line(alloc, &Answer::Ack { reference: 5 })?;
    let gone = answer_line(alloc, &Answer::No(Refusal::Gone { floor: 7 }))?;
    Ok(ack.as_str() == ACK_LINE && gone.as_str() == GONE_LINE)
}

const UPGRADE_LINE: &str = "{\"ok\":\"upgrade\",\"rev\":\"2.3\"}\n";

const NOT_WIDER_LINE: &str = "{\"at\":1,\"no\":\"NotWider\"}\n";

fn upgrades_are_written(alloc: Global) -> Result<bool, AllocError> {
    let upgrade = answer_line(alloc, &Answer::Upgrade { rev: REV })?;
    let narrower = answer_line(alloc, &Answer::No(Refusal::NotWider { at: 1 }))?;
    Ok(upgrade.as_str() == UPGRADE_LINE && narrower.as_str() == NOT_WIDER_LINE)
}

#[test]
fn answers(rt: HostRuntime) -> Result<(), Fail> {
    let alloc = rt.alloc();
    let (answers, commits) = (answers_are_written(alloc)?, commits_are_written(alloc)?);
    let (numbers, upgrades) = (numbers_are_written(alloc)?, upgrades_are_written(alloc)?);
    assert!(rt;
        answers && commits && numbers && upgrades,
        "{answers} {commits} {numbers} {upgrades}"
    );
    Ok(())
}

const HEADER: &str = r#"{"schema":{"root":["int"],"types":[]},"trace":1,"tree":7}"#;

fn header_is_read(alloc: Global) -> bool {
    read_header(alloc, HEADER.as_bytes(), "trace").is_ok_and(|header| header.history == 64
        && header.tree.ty.as_str() == "int")
}

// Lines that are no headers, each with the first test that it fails.
const BAD_HEADERS: [(&str, BadCause); 5] = [
    ("{", BadCause::Json),
    ("[]", BadCause::Header),
    (
        r#"{"schema":{"root":["int"],"types":[]},"trace":2,"tree":7}"#,
        BadCause::Header,
    ),
    (
        r#"{"schema":{"root":["int"],"types":[]},"trace":1,"tree":true}"#,
        BadCause::Header,
    ),
    (
        r#"{"history":1025,"schema":{"root":["int"],"types":[]},"trace":1,"tree":7}"#,
        BadCause::Header,
    ),
];

fn header_fault(alloc: Global, line: &str) -> Option<Or<BadCause>> {
    read_header(alloc, line.as_bytes(), "trace").err()
}

#[test]
fn headers(rt: HostRuntime) {
    let alloc = rt.alloc();
    let other = BAD_HEADERS.iter().position(|(line, cause)| header_fault(alloc, line)
        != Some(Or::Fault(*cause)));
    assert!(rt; other.is_none() && header_is_read(alloc), "{other:?}");
}
