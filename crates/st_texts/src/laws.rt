//! Laws on the texts of entries: each is the contract of a function that does nothing.
ghost use Rattle.std.specs.Prelude.{◌≡◌, ◌++◌, ℕ, List};
ghost use Rattle.st_lists.specs.declared.lists.Entry.{Entry};
ghost use Rattle.st_marks.specs.Document.{Document};
ghost use Rattle.st_texts.specs.Texts.{IsTextOf};

/// An entry has at most one text: its author's document is one, and so is the change there that says what its commit wants.
pub fn entries_have_one_text()
    ensures { (O : Document) (log : List Entry) (n : ℕ) (a b : List ℕ) → IsTextOf O log n a → IsTextOf O log n b → a ≡ b }
{}

/// The text of an entry stays as it is, whatever comes behind it in the log.
pub fn texts_stay()
    ensures { (O : Document) (log more : List Entry) (n : ℕ) (a : List ℕ) → IsTextOf O log n a → IsTextOf O (log ++ more) n a }
{}
