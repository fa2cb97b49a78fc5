//! Laws on authors' lists: each is the contract of a function that does nothing.
ghost use Rattle.std.specs.Prelude.{◌≡◌, ◌≤◌, ◌+◌, ℕ, true, false, List, ◌∷◌, ◌++◌, Some, Ok, length, slice_get, take};
ghost use Rattle.st_clusters.specs.declared.ids.IdRange.{IdRange};
ghost use Rattle.st_edits.specs.declared.names.NameCounters.{NameCounters};
ghost use Rattle.st_ids.specs.Listing.{Has};
ghost use Rattle.st_ids.specs.declared.names.Rev.{Rev};
ghost use Rattle.st_known_changes.specs.Writing.{IsWriting};
ghost use Rattle.st_marks.specs.Document.{Document};
ghost use Rattle.st_marks.specs.Embedding.{IsEmbedding};
ghost use Rattle.st_marks.specs.declared.changes.Change.{Change};
ghost use Rattle.st_schema.specs.Schema.{SchemaView};
ghost use Rattle.st_marks.specs.declared.intents.Intent.{Intent};
ghost use Rattle.st_lists.specs.Clients.{empty_state};
ghost use Rattle.st_lists.specs.Lines.{commits_of, main_line};
ghost use Rattle.st_lists.specs.Log.{commits_by, intents_of};
ghost use Rattle.st_lists.specs.declared.lists.Body.{Body};
ghost use Rattle.st_lists.specs.declared.lists.Body.TheVariants.{Commit};
ghost use Rattle.st_lists.specs.declared.lists.Client.{Client};
ghost use Rattle.st_lists.specs.declared.lists.Entry.{Entry};
ghost use Rattle.st_lists.specs.declared.lists.WorldState.{WorldState};
ghost use Rattle.st_script.specs.Header.{HeaderView};
ghost use Rattle.st_script.specs.Steps.{EditView, StepView};
ghost use Rattle.st_script.specs.declared.answer.Answer.{Answer};
ghost use Rattle.st_valid.specs.Author.{author_list};
ghost use Rattle.st_world.specs.World.{IsNext, intent_of, opening_document};
ghost use Rattle.st_world_laws.specs.Worlds.{IsHeader, IsWorld, KeepsRules};
ghost use Rattle.st_texts.specs.Texts.{IsTextOf};
ghost use Rattle.st_author_lists.specs.Authors.{FitAuthors, IsWritten};
ghost use Rattle.st_author_lists.specs.KnownChanges.{IsKnownChange, is_no};

/// An author's list grows by the session's own commits among the entries that come.
pub fn author_lists_grow()
    ensures { (log es : List Entry) (session reference : ℕ) → reference ≤ length log
        → author_list (log ++ es) session reference ≡ author_list log session reference
        ++ commits_by session es }
{}

/// What a client writes over is what it shows: while it is connected, its author's list at what it
/// received, and then what waits in its queue, are the commits of its main line.
pub fn author_lists_are_shown()
    ensures { (h : HeaderView) (w : WorldState) (c : Client) → IsWorld h w → Has w.clients c
        → c.connected ≡ true → author_list w.log c.session c.received ++ intents_of c.queue
        ≡ commits_of w.log (main_line c) }
{}

/// Before any client joins no commit is in the log, and none waits.
pub fn authors_begin()
    ensures { (h : HeaderView) → FitAuthors h empty_state }
{}

/// Whatever a step leads to from a world, each commit of the log and each that waits fits the
/// document of its author's list again, unless the step brings in a schema that breaks the rules.
pub fn authors_go_on()
    ensures { (h : HeaderView) (w v : WorldState) (s : StepView) (a : Answer) → IsWorld h w
        → FitAuthors h w → KeepsRules s.act → IsNext h w s v a → FitAuthors h v }
{}

/// Each commit of the log, and each that waits, was written in a sound document to which its
/// author's list leads: it fits there, and has a change there.
pub fn authors_are_fitted()
    ensures logged { (h : HeaderView) (w : WorldState) (i : ℕ) (e : Entry) (reference : ℕ)
        (ids : IdRange) (N : Intent) → IsHeader h → FitAuthors h w → slice_get w.log i ≡ Some e
        → e.body ≡ Commit reference ids N
        → IsWritten (opening_document h) (author_list (take i w.log) e.session reference) N }
    ensures waiting { (h : HeaderView) (w : WorldState) (c : Client) (before later : List Body)
        (reference : ℕ) (ids : IdRange) (N : Intent) → IsHeader h → FitAuthors h w
        → Has w.clients c → c.queue ≡ before ++ Commit reference ids N ∷ later
        → IsWritten (opening_document h) (author_list w.log c.session reference
        ++ intents_of before) N }
{}

/// Each entry of the log has a text.
pub fn entries_have_texts()
    ensures { (h : HeaderView) (w : WorldState) (i : ℕ) (e : Entry) → IsHeader h → FitAuthors h w → slice_get w.log i ≡ Some e
        → (text : List ℕ) × IsTextOf (opening_document h) w.log (i + 1) text }
{}

/// A change that is known stays known, whatever a step leads to, unless the step brings in a schema
/// that breaks the rules.
pub fn known_changes_stay()
    ensures { (h : HeaderView) (w v : WorldState) (s : StepView) (a : Answer) (r : Rev) (n : ℕ)
        (C : Change) → IsWorld h w → KeepsRules s.act → IsKnownChange h w r n C
        → IsNext h w s v a → IsKnownChange h v r n C }
{}

/// The change of an edit's intent, made in the document that the edit's client shows before the
/// step, is known after the step, unless that is refused: no other commit of the log, and none
/// that waits, has its revision.
pub fn written_changes_are_known()
    ensures { (h : HeaderView) (w v : WorldState) (s : StepView) (a : Answer) (received : ℕ)
        (D : Document) (schema : SchemaView) (given : NameCounters) (e : EditView) (N : Intent)
        (C : Change) → IsWorld h w → IsWriting h w s received D schema given e
        → intent_of D schema given e ≡ Ok N → IsEmbedding D N C → IsNext h w s v a
        → is_no a ≡ false → IsKnownChange h v C.rev received C }
{}
