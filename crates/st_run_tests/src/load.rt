//! The generator of a load: its first numbers, and the first steps of a seed.
use st_script::{Act, EditAct, TraceStep};
use st_work::Work;
use std::alloc::{AllocError, Global};

// Seeds and their first steps, which were computed apart from this program.
const FIRST_STEPS: [(u64, &str); 2] = [
    (
        7,
        "C deliver, B deliver, B move 0 4, D deliver, D deliver, A deliver, B remove 5, ",
    ),
    (
        843,
        "B sequence, A sequence, C insert 5, C remove 6, B sequence, B move 4 2, A deliver, ",
    ),
];

fn draws(work: &mut Work, numbers: &[u32]) -> bool {
    numbers.iter().all(|number| work.draw(4) == *number)
}

// What an edit of a load is, in short.
fn edit_words(alloc: Global, edit: &EditAct) -> Result<String, AllocError> {
    match edit {
        EditAct::Insert { index, .. } => format!(in alloc; "insert {index}"),
        EditAct::Remove { index, .. } => format!(in alloc; "remove {index}"),
        EditAct::Move {
            index,
            to_index,
            ..
        } => format!(in alloc; "move {index} {to_index}"),
        _ => String::from_str(alloc, "edit"),
    }
}

// What a step of a load is, in short.
fn act_words(alloc: Global, act: &Act) -> Result<String, AllocError> {
    match act {
        Act::Edit(edit) => edit_words(alloc, edit),
        Act::Sequence => String::from_str(alloc, "sequence"),
        Act::Deliver => String::from_str(alloc, "deliver"),
        _ => String::from_str(alloc, "act"),
    }
}

fn push_step(alloc: Global, steps: &mut String, step: &TraceStep) -> Result<(), AllocError> {
    let words = act_words(alloc, &step.act)?;
    steps.push_str(step.client.as_str())?;
    steps.push_str(" ")?;
    steps.push_str(words.as_str())?;
    steps.push_str(", ")
}

// The first seven steps of a seed.
fn seven_steps(alloc: Global, seed: u64) -> Result<String, AllocError> {
    let mut work = Work::new(seed);
    let mut steps = String::new(alloc);
    for _ in 0..7 {
        if work.made < 7 {
            let step = work.next(alloc)?;
            push_step(alloc, &mut steps, &step)?;
        }
    }
    Ok(steps)
}

fn begin_so(alloc: Global, seed: u64, first: &str) -> bool {
    seven_steps(alloc, seed).is_ok_and(|text| text.as_str() == first)
}

#[test]
fn first_numbers(rt: HostRuntime) {
    let mut work = Work::new(1);
    assert!(rt; draws(&mut work, &[2, 1, 0, 2, 2, 3]));
}

#[test]
fn first_steps(rt: HostRuntime) {
    for (seed, first) in &FIRST_STEPS {
        assert!(rt; begin_so(rt.alloc(), *seed, first));
    }
}
