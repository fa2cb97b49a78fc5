//! Laws on valid messages: each is the contract of a function that does nothing.
ghost use Rattle.std.specs.Prelude.{◌≡◌, ◌≢◌, ◌↔◌, ◌≤◌, ◌+◌, ℕ, Option, None, Some, List as Seq, [], ◌∷◌, length, slice_get, ◌⊎◌};
ghost use Rattle.st_clusters.specs.Log.{AreInTurn};
ghost use Rattle.st_clusters.specs.Table.{most_ids};
ghost use Rattle.st_ids.specs.Listing.{Has};
ghost use Rattle.st_ids.specs.Root.{opening};
ghost use Rattle.st_lists.specs.Log.{commit_of, commits_in, known_reference, log_with, minimum, ranges_in};
ghost use Rattle.st_lists.specs.Names.{names_in};
ghost use Rattle.st_lists.specs.declared.lists.Body.{Body};
ghost use Rattle.st_lists.specs.declared.lists.Entry.{Entry};
ghost use Rattle.st_log_laws.specs.Names.{HaveNewRevisions, IsMadeUnder};
ghost use Rattle.st_log_laws.specs.Turns.{FitInTurn};
ghost use Rattle.st_marks.specs.Document.{Document, IsSoundInForm};
ghost use Rattle.st_marks.specs.Run.{Run};
ghost use Rattle.st_marks.specs.declared.intents.Intent.{Intent};
ghost use Rattle.st_valid.specs.Author.{author_list};
ghost use Rattle.serde_json.specs.Data.{Data};
ghost use Rattle.st_marks.specs.declared.changes.Change.{Change};
ghost use Rattle.st_valid.specs.Context.{AuthorsIntent, IsInContext, known_revisions};
ghost use Rattle.st_valid.specs.Ids.{carried_in};
ghost use Rattle.st_valid_laws.specs.Messages.{IsBodyOf, IsRefusedFor, IsValid, IsValidLog, Passes};
ghost use Rattle.st_edits.specs.Keeping.{HasRoomForSchema, PassesSchema};
ghost use Rattle.st_valid_laws.specs.Schema.{KeepsInContext, KeepsToItsSchema};
ghost use Rattle.st_valid_laws.specs.Shape.{IsRead, IsValidValue, IsValueRefusedFor};
ghost use Rattle.st_valid.specs.Refusals.{refused_by_log};
ghost use Rattle.st_valid.specs.Room.{HasRoomForNames};
ghost use Rattle.st_valid.specs.declared.message.Message.{Message as Told};
ghost use Rattle.st_valid.specs.declared.message.ReplayCause.{ReplayCause as Cause};
ghost use Rattle.st_valid.specs.declared.message.ReplayCause.TheVariants as cause;

/// A message is refused for one cause at most, and one that is valid for none. Where its context and
/// its schema can be decided, it is valid or is refused: the other tests read the log alone.
pub fn messages_are_judged_once()
    ensures one { (O : Document) (log : Seq Entry) (m : Told) (c d : Cause)
        → IsRefusedFor O log m c → IsRefusedFor O log m d → c ≡ d }
    ensures apart { (O : Document) (log : Seq Entry) (m : Told) (c : Cause)
        → IsRefusedFor O log m c → IsValid O log m → ⊥ }
    ensures judged { (O : Document) (log : Seq Entry) (m : Told) → (IsInContext O log m
        ⊎ (IsInContext O log m → ⊥)) → (KeepsToItsSchema O log m ⊎ (KeepsToItsSchema O log m → ⊥))
        → IsValid O log m ⊎ ((c : Cause) × IsRefusedFor O log m c) }
{}

/// The first test that a message fails of those that read the log alone is what it is refused for;
/// where it fails none of them, it passes all but those of its context and its schema.
pub fn log_tests_come_first()
    ensures refused { (O : Document) (log : Seq Entry) (m : Told) (c : Cause)
        → refused_by_log log m ≡ Some c → IsRefusedFor O log m c }
    ensures passed { (O : Document) (log : Seq Entry) (m : Told) → refused_by_log log m ≡ None
        → (test : Cause) → test ≢ cause.Context → test ≢ cause.Schema → Passes O log m test }
{}

/// In a log of valid messages each entry has the number of its place and a session, the ranges of
/// ids go on from one another and pass no bound, and each commit has a revision of its session that
/// no other has; there are at most 65,535 entries.
pub fn valid_logs_are_in_order()
    ensures numbers { (O : Document) (log : Seq Entry) → IsValidLog O log → (i : ℕ) (e : Entry)
        → slice_get log i ≡ Some e → e.n ≡ i + 1 }
    ensures sessions { (O : Document) (log : Seq Entry) → IsValidLog O log → (e : Entry)
        → Has log e → 1 ≤ e.session }
    ensures ranges { (O : Document) (log : Seq Entry) → IsValidLog O log
        → AreInTurn (ranges_in log) }
    ensures bound { (O : Document) (log : Seq Entry) → IsValidLog O log → (session : ℕ)
        → carried_in log session ≤ most_ids }
    ensures revisions { (O : Document) (log : Seq Entry) → IsValidLog O log
        → HaveNewRevisions (opening ∷ []) (commits_in log) }
    ensures own { (O : Document) (log : Seq Entry) → IsValidLog O log → (e : Entry) → Has log e
        → (N : Intent) → commit_of e ≡ Some N → N.rev.session ≡ e.session }
    ensures entries { (O : Document) (log : Seq Entry) → IsValidLog O log → length log ≤ 65535 }
{}

/// After a valid message the log has the minimum that the message tells.
pub fn minimum_is_told()
    ensures { (O : Document) (log : Seq Entry) (m : Told) (body : Body) → IsValid O log m
        → IsBodyOf O log m.session m.said body → minimum (log_with log m.session body) ≡ m.min }
{}

/// In a log of valid messages over an opening document: the commits fit in turn; so do those over
/// which a session writes, from its known reference on, and they lead to one document, which is
/// sound. Each commit was made under the opening's schema or that of another commit over which its
/// author wrote. The commits make at most 131,072 names.
pub fn valid_logs_fit()
    ensures log { (O : Document) (log : Seq Entry) → IsSoundInForm O
        → IsMadeUnder (opening ∷ []) O → HasRoomForNames O → IsValidLog O log
        → FitInTurn O (commits_in log) }
    ensures author { (O : Document) (log : Seq Entry) → IsSoundInForm O
        → IsMadeUnder (opening ∷ []) O → HasRoomForNames O → IsValidLog O log
        → (session reference : ℕ) → known_reference session log ≤ reference
        → FitInTurn O (author_list log session reference) }
    ensures document { (O : Document) (log : Seq Entry) → IsSoundInForm O
        → IsMadeUnder (opening ∷ []) O → HasRoomForNames O → IsValidLog O log
        → (session reference : ℕ) → known_reference session log ≤ reference → (D : Document)
        × Run O (author_list log session reference) D × IsSoundInForm D }
    ensures one { (O D E : Document) (log : Seq Entry) (session reference : ℕ)
        → Run O (author_list log session reference) D
        → Run O (author_list log session reference) E → D ≡ E }
    ensures closed { (O : Document) (log : Seq Entry) → IsSoundInForm O
        → IsMadeUnder (opening ∷ []) O → HasRoomForNames O → IsValidLog O log
        → (session reference : ℕ) → known_reference session log ≤ reference → (M : Intent)
        → Has (author_list log session reference) M
        → Has (known_revisions (author_list log session reference)) M.under }
    ensures names { (O : Document) (log : Seq Entry) → IsSoundInForm O
        → IsMadeUnder (opening ∷ []) O → HasRoomForNames O → IsValidLog O log
        → names_in (commits_in log) ≤ 131072 }
{}

/// Beside a log a value is read as at most one message. One that is read as none is refused for its shape; another is refused for
/// what its message is refused for, and is valid where its message is.
pub fn values_are_judged_as_messages()
    ensures one { (log : Seq Entry) (d : Data) (a b : Option Told) → IsRead log d a → IsRead log d b → a ≡ b }
    ensures none { (O : Document) (log : Seq Entry) (d : Data) → IsRead log d None
        → IsValueRefusedFor O log d cause.Shape }
    ensures refused { (O : Document) (log : Seq Entry) (d : Data) (m : Told) (c : Cause)
        → IsRead log d (Some m) → IsRefusedFor O log m c ↔ IsValueRefusedFor O log d c }
    ensures valid { (O : Document) (log : Seq Entry) (d : Data) (m : Told) → IsRead log d (Some m)
        → IsValid O log m ↔ IsValidValue O log d }
{}

/// What a change says in its author's document is one intent, but for the order of its lists: where one such keeps to its schema
/// and has room for it, each does.
pub fn one_meaning_keeps_for_all()
    ensures { (O : Document) (log : Seq Entry) (session reference : ℕ) (C : Change)
        (a : AuthorsIntent O log session reference C) → IsSoundInForm a.document
        → PassesSchema O a.document (commits_in log) a.intent → HasRoomForSchema a.document a.intent
        → KeepsInContext O log session reference C }
{}
