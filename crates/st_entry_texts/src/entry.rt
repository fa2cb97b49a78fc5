//! The message of an entry.
ghost use Rattle.std.specs.Prelude.{◌≡◌, ◌⊎◌, ◌≤◌, ◌<◌, ◌+◌, ◌-◌, ◌^◌, ◌++◌, ◌∷◌, ◌&&◌, [], nat_le, ℕ, Some, None, List as Seq, length, slice_get, take, IfOk, IfSome, OnOk};
ghost use Rattle.serde_json.specs.Written.{compact_text};
ghost use Rattle.st_change_writer.specs.Told.{change_data};
ghost use Rattle.st_doc.specs.Doc.{document_of};
ghost use Rattle.st_lists.specs.Log.{minimum};
ghost use Rattle.st_lists.specs.declared.lists.Entry.{Entry as Logged};
ghost use Rattle.st_log_laws.specs.Turns.{FitInTurn};
ghost use Rattle.st_marks.specs.Document.{Document, IsSoundInForm};
ghost use Rattle.st_marks.specs.Embedding.{IsEmbedding};
ghost use Rattle.st_marks.specs.Intent.{Fits};
ghost use Rattle.st_marks.specs.declared.changes.Change.{Change as Told};
ghost use Rattle.st_msg.specs.Messages.{Commit, MessageView, SaidView, message_data, said_data};
ghost use Rattle.st_texts.specs.Names.{names_seen};
ghost use Rattle.st_texts.specs.Texts.{IsCommitSaid, IsMessageOf};
ghost use Rattle.st_valid.specs.Author.{author_list};
ghost use Rattle.st_entry_texts.specs.Authors.{AreAuthorsOf, CanTell, FitWhereWritten, IsAuthor, MayTell, MayTellCommit};
ghost use Rattle.st_entry_texts.specs.KnownChanges.{AreKnownIn, IsKept, told_of};
ghost use Rattle.st_entry_texts.specs.declared.known.Known.{Known as KnownOf};
ghost use Rattle.st_ids.specs.declared.names.Rev.{Rev as RevNames};
ghost use Rattle.st_known_changes.specs.Known.{IsChangeOver};
ghost use Rattle.st_entry_texts.specs.Numbered.{HasFewIds, IsNumberedTo};

use crate::known::KnownChanges;
use crate::numbers::Numbers;
use st_author_docs::AuthorDoc;
use st_clusters::IdRange;
use st_doc::Doc;
use st_embed::embed;
use st_ids::Text;
use st_lists::{Body, Entry};
use st_marks::{Change, Intent};
use st_msg_writer::{Head, push_ack, push_commit, push_join, push_leave};
use std::alloc::{AllocError, Global};
use std::collections::BTreeMap;

/// What is kept of a session: the document over which it writes, and the numbers of ids that it knows.
#[derive(Drop)]
pub struct Author {
    pub(crate) doc: AuthorDoc,
    pub(crate) numbers: Numbers,
}

/// What is kept of the authors of a log's commits, by session, the changes that are known of commits, and the document with which
/// the log opens.
#[derive(Drop)]
pub struct Authors {
    pub(crate) opening: Doc,
    pub(crate) map: BTreeMap<u32, Author>,
    pub(crate) known: KnownChanges,
}

// A session that has read nothing yet.
fn new_author(alloc: Global, opening: &Doc) -> Result<Author, AllocError>
    requires { IsSoundInForm (document_of opening.now) }
    ensures is { IfOk result (λ a. (log : Seq Logged) (session : ℕ) → IsAuthor (document_of opening.now) log session a) }
    ensures can { IfOk result (λ a. (before reference : ℕ) → CanTell before reference a) }
{
    let base = opening.copy(alloc)?;
    Ok(Author {
        doc: AuthorDoc::start(base, 0),
        numbers: Numbers::new(alloc),
    })
}

// Whether what is kept of an author can go on to a reference, behind so many entries.
fn can_tell(author: &Author, before: u32, reference: u32) -> bool
    ensures { result ≡ (nat_le author.now.doc.at reference && (nat_le author.now.doc.seen before && nat_le author.now.numbers.read reference)) }
{
    author.doc.at() <= reference
        && (author.doc.seen() <= before && author.numbers.read() <= reference)
}

// What is kept of an author, where that can go on to a reference, behind so many entries, and else one that has read nothing yet.
fn or_new_author(
    alloc: Global,
    kept: Option<Author>,
    opening: &Doc,
    before: u32,
    reference: u32,
) -> Result<Author, AllocError>
    requires { IsSoundInForm (document_of opening.now) }
    ensures can { IfOk result (CanTell before reference) }
    ensures is { IfOk result (λ a. (log : Seq Logged) (session : ℕ) → IfSome kept (IsAuthor (document_of opening.now) log session)
        → IsAuthor (document_of opening.now) log session a) }
{
    if let Some(author) = kept {
        if can_tell(&author, before, reference) {
            return Ok(author);
        }
    }
    new_author(alloc, opening)
}

// The first entries, so many of them.
fn first_of(log: &[Entry], count: u32) -> &[Entry]
    requires { count ≤ length log.now }
    ensures { result.now ≡ take count log.now }
{
    &log[..count as usize]
}

// The entry with a number, counted from 1.
fn entry_of(log: &[Entry], n: u32) -> &Entry
    requires counted { 0 < n }
    requires within { n ≤ length log.now }
    ensures { slice_get log.now (n - 1) ≡ Some result.now }
{
    &log[n as usize - 1]
}

// An author goes on to a reference, behind so many entries.
fn go_on(
    author: &mut Author,
    alloc: Global,
    log: &[Entry],
    before: u32,
    session: u32,
    reference: u32,
) -> Result<(), AllocError>
    requires can { CanTell before reference author.old }
    requires known { reference ≤ before }
    requires within { before ≤ length log.now }
    requires short { length log.now < 2 ^ 32 }
    requires few { HasFewIds log.now }
    requires may { MayTell log.now before session reference author.old }
    ensures is { OnOk result ((O : Document) → IsAuthor O log.now session author.old
        → IsAuthor O log.now session author.new) }
    ensures at { OnOk result (author.new.doc.at ≡ reference) }
    ensures seen { OnOk result (author.new.doc.seen ≡ before) }
    ensures numbers { OnOk result (IsNumberedTo log.now reference author.new.numbers) }
{
    let front = first_of(log, before);
    author.doc.go_to(alloc, front, session, reference)?;
    author.numbers.read_to(alloc, log, reference)?;
    Ok(())
}

// Writes the message of a commit, of which its author tells a change, who knew these numbers.
fn push_change_of(
    alloc: Global,
    out: &mut Text,
    numbers: &Numbers,
    head: Head,
    reference: u32,
    ids: IdRange,
    change: &Change,
) -> Result<(), AllocError>
    ensures { OnOk result ((log : Seq Logged) (at : ℕ) → IsNumberedTo log at numbers.now → out.new ≡ out.old
        ++ compact_text (said_data head.n head.min head.session (Commit reference ids (change_data (names_seen log head.session at ids) change.now)))) }
{
    let mut text = Text::new(alloc);
    let session = head.session;
    numbers.push_change(alloc, &mut text, session, ids, change)?;
    let upgrade = change.schema.is_some();
    push_commit(out, head, reference, ids, upgrade, text.as_str())?;
    Ok(())
}

// Writes the message of a commit, as one tells it who wrote it over a document, and knew these numbers.
fn push_told(
    alloc: Global,
    out: &mut Text,
    doc: &Doc,
    numbers: &Numbers,
    head: Head,
    reference: u32,
    ids: IdRange,
    intent: &Intent,
) -> Result<(), AllocError>
    requires sound { IsSoundInForm (document_of doc.now) }
    requires fits { Fits (document_of doc.now) intent.now }
    ensures { OnOk result ((C : Told) × IsEmbedding (document_of doc.now) intent.now C
        × ((log : Seq Logged) (at : ℕ) → IsNumberedTo log at numbers.now → out.new ≡ out.old
        ++ compact_text (said_data head.n head.min head.session (Commit reference ids (change_data (names_seen log head.session at ids) C))))) }
{
    let change = embed(alloc, doc, intent)?;
    push_change_of(alloc, out, numbers, head, reference, ids, &change)?;
    Ok(())
}

// Reads on, and writes the message of a commit of which its author tells a change.
fn push_known(
    alloc: Global,
    out: &mut Text,
    log: &[Entry],
    numbers: &mut Numbers,
    head: Head,
    reference: u32,
    ids: IdRange,
    change: &Change,
) -> Result<(), AllocError>
    requires numbered { IsNumberedTo log.now numbers.old.read numbers.old }
    requires on { numbers.old.read ≤ reference }
    requires within { reference ≤ length log.now }
    requires short { length log.now < 2 ^ 32 }
    requires few { HasFewIds log.now }
    ensures numbers { OnOk result (IsNumberedTo log.now reference numbers.new) }
    ensures told { OnOk result (out.new ≡ out.old
        ++ compact_text (said_data head.n head.min head.session (Commit reference ids (change_data (names_seen log.now head.session reference ids) change.now)))) }
{
    numbers.read_to(alloc, log, reference)?;
    push_change_of(alloc, out, numbers, head, reference, ids, change)?;
    Ok(())
}

// Goes on, and writes the message of a commit by the change that it is in its author's document.
fn push_anew(
    alloc: Global,
    out: &mut Text,
    log: &[Entry],
    author: &mut Author,
    head: Head,
    reference: u32,
    ids: IdRange,
    intent: &Intent,
) -> Result<(), AllocError>
    requires can { CanTell (head.n - 1) reference author.old }
    requires counted { 0 < head.n }
    requires within { head.n ≤ length log.now }
    requires short { length log.now < 2 ^ 32 }
    requires few { HasFewIds log.now }
    requires before { reference ≤ head.n - 1 }
    requires may { (O : Document) × MayTellCommit O log.now (head.n - 1) head.session reference intent.now None author.old }
    ensures told { OnOk result ((O : Document) → IsAuthor O log.now head.session author.old
        → (said : SaidView) × IsCommitSaid O (take (head.n - 1) log.now) head.session reference ids intent.now said
        × (out.new ≡ out.old ++ compact_text (said_data head.n head.min head.session said))) }
    ensures is { OnOk result ((O : Document) → IsAuthor O log.now head.session author.old → IsAuthor O log.now head.session author.new) }
{
    let session = head.session;
    go_on(author, alloc, log, head.n - 1, session, reference)?;
    let doc = author.doc.doc();
    push_told(
        alloc,
        out,
        doc,
        &author.numbers,
        head,
        reference,
        ids,
        intent,
    )?;
    Ok(())
}

// Writes the message of a commit by its author: by the change that is known of it, or else by its author's document.
fn push_by(
    alloc: Global,
    out: &mut Text,
    log: &[Entry],
    author: &mut Author,
    known: &mut KnownChanges,
    head: Head,
    reference: u32,
    ids: IdRange,
    intent: &Intent,
) -> Result<(), AllocError>
    requires can { CanTell (head.n - 1) reference author.old }
    requires counted { 0 < head.n }
    requires within { head.n ≤ length log.now }
    requires short { length log.now < 2 ^ 32 }
    requires few { HasFewIds log.now }
    requires before { reference ≤ head.n - 1 }
    requires may { (O : Document) × MayTellCommit O log.now (head.n - 1) head.session reference intent.now (told_of known.old reference intent.now) author.old }
    ensures told { OnOk result ((O : Document) → MayTellCommit O log.now (head.n - 1) head.session reference intent.now (told_of known.old reference intent.now) author.old
        → (said : SaidView) × IsCommitSaid O (take (head.n - 1) log.now) head.session reference ids intent.now said
        × (out.new ≡ out.old ++ compact_text (said_data head.n head.min head.session said))) }
    ensures is { OnOk result ((O : Document) → IsAuthor O log.now head.session author.old → IsAuthor O log.now head.session author.new) }
    ensures known { (r : RevNames) (k : KnownOf) → IsKept known.new r k → IsKept known.old r k }
{
    match known.take(intent.rev, reference) {
        Some(change) => {
            let numbers = &mut author.numbers;
            push_known(alloc, out, log, numbers, head, reference, ids, &change)
        }
        None => push_anew(alloc, out, log, author, head, reference, ids, intent),
    }
}

impl Authors {
    /// Of a log that opens with a document, before any text was asked for.
    pub fn new(alloc: Global, opening: Doc) -> Authors
        requires { IsSoundInForm (document_of opening) }
        ensures opening { document_of result.opening ≡ document_of opening }
        ensures authors { (log : Seq Logged) → AreAuthorsOf log result }
        ensures known { (r : RevNames) (k : KnownOf) → IsKept result.known r k → ⊥ }
    {
        Authors {
            opening,
            map: BTreeMap::new(alloc),
            known: KnownChanges::new(alloc),
        }
    }

    /// Takes note of the change that a commit is where its author wrote it, at a reference: its text is then told by it. After an
    /// `Err` nothing is promised of the value.
    pub fn know(&mut self, alloc: Global, reference: u32, change: Change) -> Result<(), AllocError>
        ensures there { OnOk result (IsKept self.new.known change.rev (record { reference = reference; change = change })) }
        ensures others { OnOk result ((r : RevNames) (k : KnownOf) → IsKept self.new.known r k
            → (IsKept self.old.known r k) ⊎ ((r ≡ change.rev) × (k ≡ record { reference = reference; change = change }))) }
        ensures rest { OnOk result (self.new ≡ record self.old { known = self.new.known }) }
    {
        self.known.note(alloc, reference, change)
    }

    // Takes out what is kept of a session, or begins anew where that can't go on to a reference, behind so many entries.
    fn take_author(
        &mut self,
        alloc: Global,
        before: u32,
        session: u32,
        reference: u32,
    ) -> Result<Author, AllocError>
        requires sound { IsSoundInForm (document_of self.old.opening) }
        ensures can { IfOk result (CanTell before reference) }
        ensures is { IfOk result (λ a. (log : Seq Logged) → AreAuthorsOf log self.old → IsAuthor (document_of self.old.opening) log session a) }
        ensures opening { OnOk result (self.new.opening ≡ self.old.opening) }
        ensures rest { OnOk result ((log : Seq Logged) → AreAuthorsOf log self.old → AreAuthorsOf log self.new) }
        ensures known { OnOk result (self.new.known ≡ self.old.known) }
    {
        let kept = self.map.remove(&session);
        let author = or_new_author(alloc, kept, &self.opening, before, reference)?;
        Ok(author)
    }

    // Writes the message of a commit.
    fn push_commit_of(
        &mut self,
        alloc: Global,
        out: &mut Text,
        log: &[Entry],
        head: Head,
        reference: u32,
        ids: IdRange,
        intent: &Intent,
    ) -> Result<(), AllocError>
        requires authors { AreAuthorsOf log.now self.old }
        requires counted { 0 < head.n }
        requires within { head.n ≤ length log.now }
        requires short { length log.now < 2 ^ 32 }
        requires few { HasFewIds log.now }
        requires known { reference ≤ head.n - 1 }
        requires fit { FitInTurn (document_of self.old.opening) (author_list (take (head.n - 1) log.now) head.session reference ++ intent.now ∷ []) }
        requires told { (C : Told) → told_of self.old.known reference intent.now ≡ Some C
            → IsChangeOver (document_of self.old.opening) (author_list (take (head.n - 1) log.now) head.session reference) intent.now C }
        ensures told { OnOk result ((said : SaidView) × IsCommitSaid (document_of self.old.opening) (take (head.n - 1) log.now) head.session reference ids intent.now said
            × (out.new ≡ out.old ++ compact_text (said_data head.n head.min head.session said))) }
        ensures opening { OnOk result (self.new.opening ≡ self.old.opening) }
        ensures authors { OnOk result (AreAuthorsOf log.now self.new) }
        ensures known { OnOk result ((r : RevNames) (k : KnownOf) → IsKept self.new.known r k → IsKept self.old.known r k) }
    {
        let session = head.session;
        let mut author = self.take_author(alloc, head.n - 1, session, reference)?;
        push_by(
            alloc,
            out,
            log,
            &mut author,
            &mut self.known,
            head,
            reference,
            ids,
            intent,
        )?;
        self.map.insert(session, author)?;
        Ok(())
    }

    /// Writes the message of the entry with a number, behind a text: as its author told it who had received the entries up to
    /// its reference. A change that is known is told, and then forgotten. For another, what is kept of the author goes on from
    /// its last message that was asked for, and from the beginning where that is a later one. After an `Err` nothing is promised
    /// of the value.
    pub fn push_message(
        &mut self,
        alloc: Global,
        out: &mut Text,
        log: &[Entry],
        n: u32,
        min: u32,
    ) -> Result<(), AllocError>
        requires authors { AreAuthorsOf log.now self.old }
        requires counted { 0 < n }
        requires within { n ≤ length log.now }
        requires short { length log.now < 2 ^ 32 }
        requires min { min ≡ minimum (take n log.now) }
        requires few { HasFewIds log.now }
        requires fit { FitWhereWritten (document_of self.old.opening) log.now }
        requires known { AreKnownIn (document_of self.old.opening) log.now self.old.known }
        ensures told { OnOk result ((m : MessageView) × IsMessageOf (document_of self.old.opening) log.now n m
            × (out.new ≡ out.old ++ compact_text (message_data m))) }
        ensures opening { OnOk result (self.new.opening ≡ self.old.opening) }
        ensures authors { OnOk result (AreAuthorsOf log.now self.new) }
        ensures known { OnOk result ((r : RevNames) (k : KnownOf) → IsKept self.new.known r k → IsKept self.old.known r k) }
    {
        let entry = entry_of(log, n);
        let head = Head {
            n,
            min,
            session: entry.session,
        };
        match &entry.body {
            Body::Join { uuid } => push_join(alloc, out, head, *uuid),
            Body::Leave => push_leave(out, head),
            Body::Ack { reference } => push_ack(out, head, *reference),
            Body::Commit {
                reference,
                ids,
                intent,
            } => self.push_commit_of(alloc, out, log, head, *reference, *ids, intent),
        }
    }
}
