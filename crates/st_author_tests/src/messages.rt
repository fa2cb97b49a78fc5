//! Before each message of a session, the document over which it writes is that of a plain replay.
ghost use Rattle.std.specs.Prelude.{◌≡◌, ◌≤◌, length, OnOk};
ghost use Rattle.st_doc.specs.Doc.{document_of};
ghost use Rattle.st_marks.specs.Document.{IsSoundInForm};
ghost use Rattle.st_author_docs.specs.Authors.{IsAuthorOf};

use crate::given::{Does, Message, Said, log_of, open};
use crate::replaying::replay;
use st_author_docs::{AuthorDoc, authors_documents_stay};
use st_doc::Doc;
use st_ids::Text;
use st_lists::Entry;
use std::alloc::{AllocError, Global};
use std::test::Fail;

fn shown(alloc: Global, doc: &Doc) -> Result<Text, AllocError>
    requires { IsSoundInForm (document_of doc.now) }
{
    let arrays = [Text::from_str(alloc, "list")?];
    doc.whole(alloc, &arrays)
}

// Whether two documents show the same.
fn show_alike(alloc: Global, a: &Doc, b: &Doc) -> Result<bool, AllocError>
    requires first { IsSoundInForm (document_of a.now) }
    requires second { IsSoundInForm (document_of b.now) }
{
    let a = shown(alloc, a)?;
    let b = shown(alloc, b)?;
    Ok(a.as_str() == b.as_str())
}

// Goes on to a reference, to which a plain replay leads too, and tells whether both documents show the same.
fn agrees(
    alloc: Global,
    opening: &Doc,
    log: &[Entry],
    author: &mut AuthorDoc,
    session: u32,
    reference: u32,
) -> Result<bool, Fail>
    requires sound { IsSoundInForm (document_of opening.now) }
    requires is { IsAuthorOf (document_of opening.now) log.now session author.old }
    ensures is { OnOk result (IsAuthorOf (document_of opening.now) log.now session author.new) }
    ensures seen { OnOk result (author.new.seen ≡ length log.now) }
{
    if reference < author.at() || log.len() > 99 || reference as usize > log.len() {
        return Err(Fail::from("no reference"));
    }
    let plain = replay(alloc, opening, log, session, reference as usize)?;
    author.go_to(alloc, log, session, reference)?;
    let same = show_alike(alloc, &plain, author.doc())?;
    Ok(same)
}

// The same before a message, by the entries before it.
fn agrees_before(
    alloc: Global,
    opening: &Doc,
    log: &[Entry],
    author: &mut AuthorDoc,
    session: u32,
    reference: u32,
    place: usize,
) -> Result<bool, Fail>
    requires sound { IsSoundInForm (document_of opening.now) }
    requires is { IsAuthorOf (document_of opening.now) log.now session author.old }
    requires seen { author.old.seen ≤ place }
    requires within { place ≤ length log.now }
    ensures is { OnOk result (IsAuthorOf (document_of opening.now) log.now session author.new) }
    ensures seen { OnOk result (author.new.seen ≡ place) }
{
    authors_documents_stay();
    let (before, _) = log.split_at(place);
    let same = agrees(alloc, opening, before, author, session, reference)?;
    Ok(same)
}

// Whether a message is a commit of a session.
fn is_written(message: Message, session: u32) -> bool {
    match message.2 {
        Said::Commits(..) => message.0 == session,
        Said::Joins | Said::Acks => false,
    }
}

// Before each commit of a session, from the opening on: the place of the first before which the documents differ.
fn first_other(
    alloc: Global,
    opening: &Doc,
    log: &[Entry],
    messages: &[Message],
    session: u32,
) -> Result<Option<usize>, Fail>
    requires sound { IsSoundInForm (document_of opening.now) }
    requires length { length messages.now ≡ length log.now }
{
    let mut author = AuthorDoc::start(opening.copy(alloc)?, 0);
    for (place, message) in messages.iter().enumerate() {
        if is_written(*message, session)
            && !agrees_before(alloc, opening, log, &mut author, session, message.1, place)?
        {
            return Ok(Some(place));
        }
    }
    Ok(None)
}

// A log, and whether each of its first two sessions writes each of its commits over the document of a plain replay.
fn is_replayed(alloc: Global, messages: &[Message]) -> Result<bool, Fail> {
    let opening = open(alloc)?;
    let log = log_of(alloc, messages)?;
    let log = log.as_slice();
    if log.len() != messages.len() {
        return Ok(false);
    }
    let first = first_other(alloc, &opening, log, messages, 1)?;
    let second = first_other(alloc, &opening, log, messages, 2)?;
    Ok(first.is_none() && second.is_none())
}

// Session 2 commits while two commits of session 1 are on their way, and takes one of them out that session 1 takes out too.
const CROSSED: [Message; 10] = [
    (1, 0, Said::Joins),
    (2, 0, Said::Joins),
    (1, 2, Said::Commits(1, Does::Inserts("a"))),
    (1, 2, Said::Commits(2, Does::Inserts("b"))),
    (2, 2, Said::Commits(1, Does::Inserts("c"))),
    (2, 3, Said::Commits(2, Does::Removes(1, 1))),
    (1, 5, Said::Commits(3, Does::Removes(1, 1))),
    (1, 5, Said::Commits(4, Does::Inserts("d"))),
    (2, 7, Said::Acks),
    (2, 8, Said::Commits(3, Does::Inserts("e"))),
];

// Session 1 writes alone, and its reference rises over its own commits.
const ALONE: [Message; 7] = [
    (1, 0, Said::Joins),
    (1, 1, Said::Commits(1, Does::Inserts("a"))),
    (1, 1, Said::Commits(2, Does::Inserts("b"))),
    (1, 1, Said::Commits(3, Does::Inserts("c"))),
    (1, 2, Said::Commits(4, Does::Removes(1, 1))),
    (1, 4, Said::Commits(5, Does::Inserts("d"))),
    (1, 6, Said::Commits(6, Does::Inserts("e"))),
];

#[test]
fn authors_are_replayed(rt: HostRuntime) -> Result<(), Fail> {
    let alloc = rt.alloc();
    let (crossed, alone) = (is_replayed(alloc, &CROSSED)?, is_replayed(alloc, &ALONE)?);
    assert!(rt; crossed && alone, "{crossed} {alone}");
    Ok(())
}
