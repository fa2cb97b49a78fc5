//! Laws on what clients show: each is the contract of a function that does nothing.
ghost use Rattle.std.specs.Prelude.{◌≡◌, ℕ, List, [], None, true};
ghost use Rattle.st_lists.specs.Lines.{main_line};
ghost use Rattle.st_lists.specs.declared.lists.Client.{Client as Present};
ghost use Rattle.st_lists.specs.declared.lists.WorldState.{WorldState};
ghost use Rattle.st_script.specs.Header.{HeaderView};
ghost use Rattle.st_script.specs.declared.answer.Answer.{Answer};
ghost use Rattle.st_world.specs.World.{IsShown};
ghost use Rattle.st_answers.specs.Work.{IsWorkLine};

/// Clients that received as many entries, and have nothing pending and no transaction open, show one tree.
pub fn received_alike_show_alike()
    ensures { (h : HeaderView) (w : WorldState) (c d : Present) (a b : Answer)
        → c.received ≡ d.received → c.pending ≡ [] → d.pending ≡ [] → c.transaction ≡ None → d.transaction ≡ None
        → IsShown h w (main_line c) a → IsShown h w (main_line d) b → a ≡ b }
{}

/// At the end of each load its four clients show one tree: whatever line is told of a load, it says so.
pub fn loads_end_alike()
    ensures { (seed steps : ℕ) (line : List ℕ) (told : IsWorkLine seed steps line) → told.tally.equal ≡ true }
{}
