//! Laws on what messages say beside a log: each is the contract of a function that does nothing.
ghost use Rattle.std.specs.Prelude.{◌≡◌, ◌≤◌, ◌+◌, ℕ, List as Seq, ◌++◌, length};
ghost use Rattle.st_lists.specs.Log.{commits_by, commits_in};
ghost use Rattle.st_lists.specs.Names.{names_made};
ghost use Rattle.st_lists.specs.declared.lists.Entry.{Entry};
ghost use Rattle.st_log_laws.specs.Turns.{IsSublist};
ghost use Rattle.st_marks.specs.Document.{Document, IsSoundInForm};
ghost use Rattle.st_marks.specs.Embedding.{IsEmbedding};
ghost use Rattle.st_marks.specs.Intent.{Fits};
ghost use Rattle.st_marks.specs.declared.changes.Change.{Change};
ghost use Rattle.st_marks.specs.declared.intents.Intent.{Intent};
ghost use Rattle.st_valid.specs.Author.{author_list};
ghost use Rattle.st_valid.specs.Room.{names_of_change};

/// The commits over which a session writes are among those of the log, in their order; with a
/// later reference there are no fewer; and as the log grows, its own come behind them.
pub fn authors_lists_grow()
    ensures among { (log : Seq Entry) (session reference : ℕ)
        → IsSublist (author_list log session reference) (commits_in log) }
    ensures later { (log : Seq Entry) (session reference next : ℕ) → reference ≤ next
        → IsSublist (author_list log session reference) (author_list log session next) }
    ensures more { (log more : Seq Entry) (session reference : ℕ) → reference ≤ length log
        → author_list (log ++ more) session reference
        ≡ author_list log session reference ++ commits_by session more }
{}

/// An intent makes no more names than the change that it is embedded as.
pub fn changes_make_all_names()
    ensures { (D : Document) (N : Intent) (C : Change) → IsSoundInForm D → Fits D N
        → IsEmbedding D N C → names_made N ≤ names_of_change C }
{}
