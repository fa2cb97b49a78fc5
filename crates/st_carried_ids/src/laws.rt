//! Laws on the ids that texts carry: each is the contract of a function that does nothing.
ghost use Rattle.std.specs.Prelude.{◌≡◌, ◌≤◌, ℕ, List, [], ◌∷◌, ◌++◌, Some, slice_get, take};
ghost use Rattle.std.specs.List.{AllByRecursion};
ghost use Rattle.st_clusters.specs.Log.{carried_count};
ghost use Rattle.st_clusters.specs.declared.ids.IdRange.{IdRange};
ghost use Rattle.st_ids.specs.Listing.{Has};
ghost use Rattle.st_marks.specs.declared.intents.Intent.{Intent};
ghost use Rattle.st_lists.specs.Clients.{empty_state};
ghost use Rattle.st_lists.specs.Log.{commits_in, intents_of, ranges_in};
ghost use Rattle.st_lists.specs.declared.lists.Body.{Body};
ghost use Rattle.st_lists.specs.declared.lists.Body.TheVariants.{Commit};
ghost use Rattle.st_lists.specs.declared.lists.Client.{Client};
ghost use Rattle.st_lists.specs.declared.lists.Entry.{Entry};
ghost use Rattle.st_lists.specs.declared.lists.WorldState.{WorldState};
ghost use Rattle.st_script.specs.Header.{HeaderView};
ghost use Rattle.st_script.specs.Steps.{StepView};
ghost use Rattle.st_script.specs.declared.answer.Answer.{Answer};
ghost use Rattle.st_valid.specs.Author.{author_list};
ghost use Rattle.st_world.specs.World.{IsNext};
ghost use Rattle.st_world_laws.specs.Worlds.{IsWorld, KeepsRules};
ghost use Rattle.st_texts.specs.Names.{IsKnownAt};
ghost use Rattle.st_carried_ids.specs.CarriedIds.{CarryFew, CarryIds};

/// Before any client joins no commit is in the log, and none waits.
pub fn ids_begin()
    ensures { CarryIds empty_state }
{}

/// Whatever a step leads to from a world, the texts carry the id of each commit of the log and of
/// each that waits again, unless the step brings in a schema that breaks the rules.
pub fn ids_go_on()
    ensures { (h : HeaderView) (w v : WorldState) (s : StepView) (a : Answer) → IsWorld h w
        → CarryIds w → KeepsRules s.act → IsNext h w s v a → CarryIds v }
{}

/// The entries up to a reference carry the revision of each of their commits: one who has read them
/// knows a number for it.
pub fn names_are_numbered()
    ensures { (h : HeaderView) (w : WorldState) (reference : ℕ) (N : Intent) → IsWorld h w
        → CarryIds w → Has (commits_in (take reference w.log)) N
        → N.rev.num ≤ carried_count N.rev.session (ranges_in (take reference w.log)) }
{}

/// Of each commit over which an author writes one, and of that one itself, the entries up to its
/// reference carry the revision, or it is the author's own, and none after those that the text
/// carries: so of a commit of the log, and of one that waits.
pub fn author_names_are_numbered()
    ensures logged { (h : HeaderView) (w : WorldState) (i : ℕ) (e : Entry) (reference : ℕ)
        (ids : IdRange) (N M : Intent) → IsWorld h w → CarryIds w → slice_get w.log i ≡ Some e
        → e.body ≡ Commit reference ids N
        → Has (author_list (take i w.log) e.session reference ++ N ∷ []) M
        → IsKnownAt (take i w.log) e.session reference ids M.rev }
    ensures waiting { (h : HeaderView) (w : WorldState) (c : Client) (before later : List Body)
        (reference : ℕ) (ids : IdRange) (N M : Intent) → IsWorld h w → CarryIds w
        → Has w.clients c → c.queue ≡ before ++ Commit reference ids N ∷ later
        → Has (author_list w.log c.session reference ++ (intents_of before ++ N ∷ [])) M
        → IsKnownAt w.log c.session reference ids M.rev }
{}

/// The log carries no more ids of a session than its clients have generated at most: whatever a step leads to, it is so of as many
/// as there were before the step.
pub fn few_ids_stay()
    ensures { (h : HeaderView) (w v : WorldState) (s : StepView) (a : Answer) (most : ℕ) → IsWorld h w
        → AllByRecursion (λ (c : Client). c.ids ≤ most) w.clients → CarryFew most w.log
        → IsNext h w s v a → CarryFew most v.log }
{}

/// The log only grows: whatever a step leads to, its entries stay, and others may come behind them.
pub fn logs_grow()
    ensures { (h : HeaderView) (w v : WorldState) (s : StepView) (a : Answer) → IsNext h w s v a
        → (es : List Entry) × (v.log ≡ w.log ++ es) }
{}
