//! A law about authors' documents: the contract of a function that does nothing.
ghost use Rattle.std.specs.Prelude.{ℕ, List, ◌++◌, ◌≤◌, take};
ghost use Rattle.st_author_docs.specs.Authors.{IsAuthorOf};
ghost use Rattle.st_author_docs.specs.declared.author_doc.AuthorDoc.{AuthorDoc};
ghost use Rattle.st_lists.specs.declared.lists.Entry.{Entry};
ghost use Rattle.st_marks.specs.Document.{Document};

/// Only the entries that were gone through matter: what is kept is that of the session in a log that is longer behind them,
/// or shorter.
pub fn authors_documents_stay()
    ensures longer { (O : Document) (log more : List Entry) (session : ℕ) (a : AuthorDoc)
        → IsAuthorOf O log session a → IsAuthorOf O (log ++ more) session a }
    ensures shorter { (O : Document) (log : List Entry) (session k : ℕ) (a : AuthorDoc)
        → a.seen ≤ k → IsAuthorOf O log session a → IsAuthorOf O (take k log) session a }
{}
