//! Rounds: an entry that comes, or a new own commit.
ghost use Rattle.st_marks.specs.Document.{IsSoundInForm};
ghost use Rattle.st_doc.specs.Doc.{document_of};

use crate::checks::Desk;
use crate::exchange::{Coming, ack, commit, join, leave, make};
use crate::pages::takes;
use crate::plain::{OWN, Plain};
use crate::tally::{Tally, add};
use crate::views::{author_of, views_of};
use st_carry::{ListedCarrier, ThinCarrier};
use st_doc::Doc;
use st_draws::{Draw, empty_list, intent_over};
use st_forest::Forest;
use st_forest_start::start;
use st_ids::{Copied, Text};
use st_manager::Manager;
use st_marks::Intent;
use st_rebaser::Rebaser;
use st_tree::check;
use std::alloc::{AllocError, Global};
use std::test::Fail;

/// How many documents there are, and how many rounds over each.
const SEEDS: u64 = 24;

const ROUNDS: u32 = 60;

// The next number: below a bound, or 0 where that is 0.
fn below(draw: &mut Draw, bound: u32) -> u32 {
    draw.state = draw
        .state
        .wrapping_mul(6_364_136_223_846_793_005)
        .wrapping_add(1_442_695_040_888_963_407);
    let bound = u64::from(bound.max(1));
    u32::try_from((draw.state >> 33) % bound).unwrap_or(0)
}

// One of the two other sessions.
fn other(draw: &mut Draw) -> u32 {
    if below(draw, 2) == 0 { 1 } else { 3 }
}

// A reference from one number to another, often the first.
fn reference(draw: &mut Draw, from: u32, to: u32) -> u32 {
    if below(draw, 3) > 0 {
        return from;
    }
    let more = to.saturating_sub(from).saturating_add(1);
    from.saturating_add(below(draw, more))
}

// A commit comes, if it fits the document over which it was written.
fn come<R: Rebaser>(
    alloc: Global,
    manager: &mut Manager<R>,
    desk: &mut Desk,
    author: &Doc,
    coming: &Coming,
    tally: &mut Tally,
) -> Result<(), AllocError>
    requires { IsSoundInForm (document_of author.now) }
{
    if takes(author, &coming.intent) {
        commit(alloc, manager, desk, author, coming, tally)
    } else {
        Ok(())
    }
}

// Another session draws a commit over the document over which it writes.
fn draw_coming(
    alloc: Global,
    desk: &Desk,
    author: &Doc,
    draw: &mut Draw,
    session: u32,
    reference: u32,
) -> Result<Coming, AllocError> {
    let rev = desk.plain.next_rev(session);
    let intent = intent_over(alloc, draw, author, rev)?;
    Ok(Coming {
        session,
        reference,
        intent,
    })
}

// It draws how much of the log it has received, and a commit.
fn draw_commit<R: Rebaser>(
    alloc: Global,
    manager: &mut Manager<R>,
    desk: &mut Desk,
    draw: &mut Draw,
    session: u32,
    tally: &mut Tally,
) -> Result<(), AllocError> {
    let known = desk.plain.member(session).known;
    let reference = reference(draw, known, desk.plain.entries);
    let author = author_of(alloc, &desk.plain, session, reference)?;
    let coming = draw_coming(alloc, desk, &author, draw, session, reference)?;
    come(alloc, manager, desk, &author, &coming, tally)
}

// A new own commit, if it fits the local view.
fn make_next<R: Rebaser>(
    alloc: Global,
    manager: &mut Manager<R>,
    desk: &mut Desk,
    local: &Doc,
    intent: &Intent,
    tally: &mut Tally,
) -> Result<(), AllocError>
    requires { IsSoundInForm (document_of local.now) }
{
    if takes(local, intent) {
        make(alloc, manager, desk, local, intent, tally)
    } else {
        Ok(())
    }
}

// A new own commit is drawn.
fn draw_own<R: Rebaser>(
    alloc: Global,
    manager: &mut Manager<R>,
    desk: &mut Desk,
    draw: &mut Draw,
    tally: &mut Tally,
) -> Result<(), AllocError> {
    let views = views_of(alloc, &desk.plain)?;
    let rev = desk.plain.next_own();
    let intent = intent_over(alloc, draw, &views.local, rev)?;
    make_next(alloc, manager, desk, &views.local, &intent, tally)
}

// The first of the own commits that wait, if there is one.
fn first_waiting(alloc: Global, plain: &Plain) -> Result<Option<Coming>, AllocError> {
    match plain.waiting.get(0) {
        None => Ok(None),
        Some(first) => Ok(Some(Coming {
            session: OWN,
            reference: first.reference,
            intent: first.intent.copy(alloc)?,
        })),
    }
}

// An own commit comes back, over the document over which it was written.
fn come_back<R: Rebaser>(
    alloc: Global,
    manager: &mut Manager<R>,
    desk: &mut Desk,
    coming: &Coming,
    tally: &mut Tally,
) -> Result<(), AllocError> {
    let author = author_of(alloc, &desk.plain, OWN, coming.reference)?;
    commit(alloc, manager, desk, &author, coming, tally)
}

// The first one comes back.
fn bring_back<R: Rebaser>(
    alloc: Global,
    manager: &mut Manager<R>,
    desk: &mut Desk,
    tally: &mut Tally,
) -> Result<(), AllocError> {
    match first_waiting(alloc, &desk.plain)? {
        None => Ok(()),
        Some(coming) => come_back(alloc, manager, desk, &coming, tally),
    }
}

// A session tells a reference that is higher than the one that is known, if there is one.
fn draw_ack<R: Rebaser>(
    alloc: Global,
    manager: &mut Manager<R>,
    desk: &mut Desk,
    draw: &mut Draw,
    session: u32,
    limit: u32,
    tally: &mut Tally,
) -> Result<(), AllocError> {
    let next = desk.plain.member(session).known.saturating_add(1);
    if next > limit {
        return Ok(());
    }
    let reference = reference(draw, next, limit);
    ack(alloc, manager, desk, session, reference, tally)
}

// What another session does that is connected.
fn draw_entry<R: Rebaser>(
    alloc: Global,
    manager: &mut Manager<R>,
    desk: &mut Desk,
    draw: &mut Draw,
    session: u32,
    tally: &mut Tally,
) -> Result<(), AllocError> {
    let limit = desk.plain.entries;
    match below(draw, 10) {
        0 => leave(alloc, manager, desk, session, tally),
        1 | 2 => draw_ack(alloc, manager, desk, draw, session, limit, tally),
        _ => draw_commit(alloc, manager, desk, draw, session, tally),
    }
}

// What another session does.
fn others_turn<R: Rebaser>(
    alloc: Global,
    manager: &mut Manager<R>,
    desk: &mut Desk,
    draw: &mut Draw,
    tally: &mut Tally,
) -> Result<(), AllocError> {
    let session = other(draw);
    if desk.plain.member(session).on {
        draw_entry(alloc, manager, desk, draw, session, tally)
    } else {
        join(alloc, manager, desk, session, tally)
    }
}

// One round.
fn round<R: Rebaser>(
    alloc: Global,
    manager: &mut Manager<R>,
    desk: &mut Desk,
    draw: &mut Draw,
    tally: &mut Tally,
) -> Result<(), AllocError> {
    let limit = desk.plain.own_limit();
    match below(draw, 12) {
        0 | 1 | 2 => draw_own(alloc, manager, desk, draw, tally),
        3 | 4 => bring_back(alloc, manager, desk, tally),
        5 => draw_ack(alloc, manager, desk, draw, OWN, limit, tally),
        _ => others_turn(alloc, manager, desk, draw, tally),
    }
}

// One round, which counts whether the floor rises.
fn counted_round<R: Rebaser>(
    alloc: Global,
    manager: &mut Manager<R>,
    desk: &mut Desk,
    draw: &mut Draw,
    tally: &mut Tally,
) -> Result<(), AllocError> {
    let floor = manager.floor();
    round(alloc, manager, desk, draw, tally)?;
    add(&mut tally.risen, floor < manager.floor());
    Ok(())
}

// The three sessions join, and then there are rounds.
fn rounds<R: Rebaser>(
    alloc: Global,
    manager: &mut Manager<R>,
    desk: &mut Desk,
    draw: &mut Draw,
    tally: &mut Tally,
) -> Result<(), AllocError> {
    for session in 1..4 {
        join(alloc, manager, desk, session, tally)?;
    }
    for _ in 0..ROUNDS {
        counted_round(alloc, manager, desk, draw, tally)?;
    }
    Ok(())
}

// The forest of an empty list.
fn forest_alone(alloc: Global) -> Result<Forest, Fail> {
    let tree = empty_list(alloc)?;
    if check(&tree) != Ok(()) {
        return Err(Fail::from("too large"));
    }
    Ok(start(alloc, Text::from_str(alloc, "{}")?, &tree)?)
}

// How long a history is kept.
fn history_of(seed: u64) -> u32 {
    match seed % 4 {
        0 => 3,
        1 => 8,
        _ => 0,
    }
}

// What a manager of an empty list is compared with.
fn desk_of(alloc: Global, seed: u64, thin: bool) -> Desk {
    Desk {
        plain: Plain::new(alloc),
        history: history_of(seed),
        thin,
    }
}

// Rounds of a manager.
fn rounds_of<R: Rebaser>(
    alloc: Global,
    forest: Forest,
    desk: &mut Desk,
    seed: u64,
    tally: &mut Tally,
) -> Result<(), AllocError> {
    let mut draw = Draw { state: seed };
    let mut manager = Manager::<R>::start(alloc, forest, desk.history, Some(OWN));
    rounds(alloc, &mut manager, desk, &mut draw, tally)
}

fn rounds_from<R: Rebaser>(
    alloc: Global,
    seed: u64,
    thin: bool,
    tally: &mut Tally,
) -> Result<(), Fail> {
    let forest = forest_alone(alloc)?;
    let mut desk = desk_of(alloc, seed, thin);
    rounds_of::<R>(alloc, forest, &mut desk, seed, tally)?;
    Ok(())
}

fn all_rounds<R: Rebaser>(alloc: Global, thin: bool) -> Result<Tally, Fail> {
    let mut tally = Tally::new();
    for seed in 0..SEEDS {
        rounds_from::<R>(alloc, seed, thin, &mut tally)?;
    }
    Ok(tally)
}

#[test]
fn counted_cells_go_along(rt: HostRuntime) -> Result<(), Fail> {
    let tally = all_rounds::<ThinCarrier>(rt.alloc(), true)?;
    assert!(rt; tally.wrong == 0 && tally.has_each(20), "{tally:?}");
    Ok(())
}

#[test]
fn named_cells_go_along(rt: HostRuntime) -> Result<(), Fail> {
    let tally = all_rounds::<ListedCarrier>(rt.alloc(), false)?;
    assert!(rt; tally.wrong == 0 && tally.has_each(20), "{tally:?}");
    Ok(())
}
