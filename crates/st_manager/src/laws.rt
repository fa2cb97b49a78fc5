//! Laws: each is the contract of a function that does nothing.
ghost use Rattle.std.specs.Prelude.{◌≡◌, ◌↔◌, Bool, ℕ, None, List as Seq};
ghost use Rattle.st_author_laws.specs.Back.{IsOverBack, node_back, row_of_back};
ghost use Rattle.st_ids.specs.Listing.{Has};
ghost use Rattle.st_ids.specs.declared.names.CellId.{CellId};
ghost use Rattle.st_ids.specs.declared.names.NodeId.{NodeId};
ghost use Rattle.st_ids.specs.declared.names.Rev.{Rev};
ghost use Rattle.st_lists.specs.declared.lists.Entry.{Entry};
ghost use Rattle.st_log_laws.specs.Names.{IsMadeUnder};
ghost use Rattle.st_marks.specs.declared.changes.Change.{Change};
ghost use Rattle.st_marks.specs.declared.steps.Step.{Step};
ghost use Rattle.st_marks.specs.Document.{Document, IsSoundInForm};
ghost use Rattle.st_marks.specs.Extends.{IsExtendedBy};
ghost use Rattle.st_marks.specs.Listings.{cells_made, nodes_new};
ghost use Rattle.st_marks.specs.Run.{Run};
ghost use Rattle.st_normal.specs.Rules.{NewNamesHaveItsRevision, ObeysChangeRules, in_rows};
ghost use Rattle.st_read_laws.specs.Reading.{IsStepRead};
ghost use Rattle.st_valid.specs.Author.{author_list};
ghost use Rattle.st_valid.specs.Context.{HasContext, known_revisions};

/// Whether a change says something in its author's document, under a schema of which its author knew, is judged by the document of all
/// commits received and the bridge from the author's document to it, which isn't made.
pub fn contexts_are_judged()
    ensures { (l : Bool) (O A T : Document) (log : Seq Entry) (session reference : ℕ) (S : Step)
        (C : Change) → Run O (author_list log session reference) A → IsExtendedBy A T
        → IsStepRead l A T S → ObeysChangeRules C → HasContext O log session reference C
        ↔ (IsOverBack S T C × Has (known_revisions (author_list log session reference)) C.under) }
{}

/// What a change makes isn't there before a step, where its revision is none under which anything behind the step was made: for this
/// nothing is looked up.
pub fn new_names_are_new()
    ensures { (rs : Seq Rev) (S : Step) (T : Document) (C : Change) → IsSoundInForm T
        → IsMadeUnder rs T → (Has rs C.rev → ⊥) → NewNamesHaveItsRevision C
        → ((n : NodeId) → Has (nodes_new C.new) n → node_back S T n ≡ None)
        × ((c : CellId) → Has (in_rows cells_made C.rows) c → row_of_back S T c ≡ None) }
{}
