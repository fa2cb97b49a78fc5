//! Laws on messages that are replayed: each is the contract of a function that does nothing.
ghost use Rattle.std.specs.Prelude.{◌≡◌, ◌↔◌, ℕ, ℤ, true, None, Some, List as Seq};
ghost use Rattle.st_clusters.specs.Log.{AreInTurn};
ghost use Rattle.st_clusters.specs.declared.ids.IdRange.{IdRange as Range};
ghost use Rattle.st_ids.specs.declared.names.Rev.{Rev as RevNames};
ghost use Rattle.st_lists.specs.Log.{is_connected, ranges_in};
ghost use Rattle.st_lists.specs.Names.{names_made};
ghost use Rattle.st_lists.specs.declared.lists.Entry.{Entry};
ghost use Rattle.st_marks.specs.declared.changes.Change.{Change};
ghost use Rattle.st_marks.specs.Document.{Document, IsSoundInForm};
ghost use Rattle.st_replay.specs.Numbers.{IsSeen};
ghost use Rattle.st_valid.specs.Author.{IsSeenBy};
ghost use Rattle.st_valid.specs.Context.{AuthorsIntent};
ghost use Rattle.st_valid.specs.Ids.{is_next_range};
ghost use Rattle.st_valid.specs.Refusals.{refused_by_log};
ghost use Rattle.st_valid.specs.Room.{has_room_for_names};
ghost use Rattle.st_valid.specs.declared.message.Message.{Message as Told};
ghost use Rattle.st_valid.specs.declared.message.Said.TheVariants as said;

/// The law that an id has an op-space number for the author of a message exactly where it is the opening's, or the log carries
/// it up to the message's reference, or it is one of the author's own: no other has a number.
pub fn others_have_no_number()
    ensures seen { (log : Seq Entry) (session reference : ℕ) (ids : Range)
        → AreInTurn (ranges_in log) → (r : RevNames) → IsSeen log session reference ids r
        → (z : ℤ) × IsSeenBy log session reference ids r z }
    ensures only { (log : Seq Entry) (session reference : ℕ) (ids : Range)
        → AreInTurn (ranges_in log) → (r : RevNames) (z : ℤ) → IsSeenBy log session reference ids r z
        → IsSeen log session reference ids r }
{}

/// The law that a commit which passes the tests that read the log alone may enter the ledger, with what its change means in
/// its author's document: its session is connected, its range is the next one, and there is room for the names that it makes.
pub fn accepted_commits_may_enter()
    ensures { (O : Document) (log : Seq Entry) (m : Told) (reference : ℕ) (ids : Range) (C : Change)
        → m.said ≡ said.Commit reference ids (Some C) → refused_by_log log m ≡ None
        → (a : AuthorsIntent O log m.session reference C) → IsSoundInForm a.document
        → (is_connected m.session log ≡ true) × (is_next_range log m.session ids ≡ true)
        × (has_room_for_names log (names_made a.intent) ≡ true) }
{}
