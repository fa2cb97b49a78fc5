//! Laws on windows of logs: each is the contract of a function that does nothing.
ghost use Rattle.std.specs.Prelude.{◌≡◌, ◌≢◌, ◌<◌, ◌≤◌, ◌+◌, ◌↔◌, ℕ, Bool, List as Seq, [], ◌∷◌, ◌++◌, length, slice_get, Some, None};
ghost use Rattle.std.specs.List.{All};
ghost use Rattle.st_ids.specs.declared.names.Rev.{Rev as RevNames};
ghost use Rattle.st_ids.specs.Listing.{Has};
ghost use Rattle.st_marks.specs.declared.intents.Intent.{Intent};
ghost use Rattle.st_marks.specs.Document.{Document, IsSoundInForm};
ghost use Rattle.st_marks.specs.Run.{Run, FitsInTurn};
ghost use Rattle.st_marks.specs.Verdict.{IsVerdict, carried_document};
ghost use Rattle.st_lists.specs.declared.lists.Body.{Body};
ghost use Rattle.st_lists.specs.declared.lists.Body.TheVariants.{Commit};
ghost use Rattle.st_lists.specs.declared.lists.Entry.{Entry};
ghost use Rattle.st_lists.specs.Log.{commit_in, commits_in, floor as floor_of, log_with, minimum};
ghost use Rattle.st_read_laws.specs.Reading.{IsRead, IsStepRead};
ghost use Rattle.st_window.specs.declared.kept.Kept.{Kept};
ghost use Rattle.st_window.specs.Window.{WindowView, kept_above, kept_with};
ghost use Rattle.st_window_laws.specs.Windows.{IsWindowOf};

/// An entry more never lowers the minimum.
pub fn minima_never_fall()
    ensures { (log : Seq Entry) (session : ℕ) (body : Body) → minimum log ≤ minimum (log_with log session body) }
{}

/// The floor of one who receives an entry more isn't lower, and it is at most the number of entries received.
pub fn floors_never_fall()
    ensures one_more { (history i : ℕ) (log : Seq Entry) (e : Entry) → slice_get log i ≡ Some e → e.n ≡ i + 1
        → floor_of history log i ≤ floor_of history log (i + 1) }
    ensures within { (history i : ℕ) (log : Seq Entry) → floor_of history log i ≤ i }
{}

/// What is found of a revision is a kept commit that has it, and nothing is found exactly where none has it.
pub fn commits_are_found()
    ensures found { (rev : RevNames) (ks : Seq Kept) (k : Kept) → kept_with rev ks ≡ Some k → Has ks k × (k.change.rev ≡ rev) }
    ensures none { (rev : RevNames) (ks : Seq Kept)
        → (kept_with rev ks ≡ None) ↔ ((k : Kept) → Has ks k → k.change.rev ≢ rev) }
{}

/// A window without commits is that of the log without entries.
pub fn windows_begin()
    ensures { (l : Bool) (D : Document) (floor : ℕ) → IsWindowOf l D [] (record { floor = floor; kept = [] }) }
{}

/// A commit that comes next can be kept, and then the window is that of the log with it.
pub fn windows_take_commits()
    ensures room { (l : Bool) (D : Document) (log : Seq Entry) (w : WindowView) → IsWindowOf l D log w
        → All (λ k. k.n < length log + 1) w.kept }
    ensures taken { (l : Bool) (D E : Document) (log : Seq Entry) (w : WindowView) (session reference : ℕ) (N : Intent) (k : Kept)
        → IsWindowOf l D log w → w.floor ≤ length log → k.n ≡ length log + 1 → Run D (commits_in log) E
        → IsVerdict E N k.verdict → IsRead l E N k.change → IsStepRead l E (carried_document k.verdict E N) k.step
        → IsWindowOf l D (log_with log session (Commit reference k.ids N)) (record { floor = w.floor; kept = w.kept ++ k ∷ [] }) }
{}

/// After an entry that is no commit it is the window still.
pub fn windows_pass_others()
    ensures { (l : Bool) (D : Document) (log : Seq Entry) (w : WindowView) (session : ℕ) (body : Body)
        → IsWindowOf l D log w → commit_in body ≡ None → IsWindowOf l D (log_with log session body) w }
{}

/// With the commits above a floor that isn't lower it is the window from there.
pub fn windows_rise()
    ensures { (l : Bool) (D : Document) (log : Seq Entry) (w : WindowView) (floor : ℕ)
        → IsWindowOf l D log w → w.floor ≤ floor → IsWindowOf l D log (record { floor = floor; kept = kept_above floor w.kept }) }
{}

/// A log has one window above a floor, where its commits fit in turn.
pub fn one_window()
    ensures { (l : Bool) (D T : Document) (log : Seq Entry) (v w : WindowView) → IsSoundInForm D
        → (r : Run D (commits_in log) T) → FitsInTurn r
        → IsWindowOf l D log v → IsWindowOf l D log w → v.floor ≡ w.floor → v ≡ w }
{}
