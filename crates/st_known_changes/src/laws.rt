//! A law on changes that are known: the contract of a function that does nothing.
ghost use Rattle.std.specs.Prelude.{◌≤◌, ◌++◌, [], ℕ, List, length};
ghost use Rattle.st_ids.specs.declared.names.Rev.{Rev};
ghost use Rattle.st_known_changes.specs.Known.{AreKnownTexts, IsKnownIn, IsKnownText};
ghost use Rattle.st_lists.specs.Log.{commits_by, log_with};
ghost use Rattle.st_lists.specs.declared.lists.Body.{Body};
ghost use Rattle.st_lists.specs.declared.lists.Entry.{Entry};
ghost use Rattle.st_marks.specs.Document.{Document};
ghost use Rattle.st_marks.specs.declared.changes.Change.{Change};
ghost use Rattle.st_marks.specs.declared.intents.Intent.{Intent};

/// As entries come, a change stays known of the texts of a session that wait, behind its commits
/// among these entries; and of a log it stays known with an entry of which it is.
pub fn known_changes_grow()
    ensures texts { (O : Document) (log es : List Entry) (session : ℕ) (before : List Intent)
        (r : Rev) (n : ℕ) (C : Change) (texts : List Body) → n ≤ length log
        → AreKnownTexts O log session (commits_by session es ++ before) r n C texts
        → AreKnownTexts O (log ++ es) session before r n C texts }
    ensures entries { (O : Document) (log : List Entry) (session : ℕ) (r : Rev) (n : ℕ)
        (C : Change) (body : Body) → IsKnownIn O log r n C
        → IsKnownText O log session [] r n C body
        → IsKnownIn O (log_with log session body) r n C }
{}
