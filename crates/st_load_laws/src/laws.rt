//! Laws about loads: each is the contract of a function that does nothing.
ghost use Rattle.std.specs.Prelude.{ℕ, ◌+◌, ◌≤◌, List, None, map};
ghost use Rattle.st_ids.specs.Listing.{Has};
ghost use Rattle.st_lists.specs.Clients.{empty_state};
ghost use Rattle.st_lists.specs.declared.lists.WorldState.{WorldState};
ghost use Rattle.st_script.specs.Header.{HeaderView};
ghost use Rattle.st_script.specs.Steps as step;
ghost use Rattle.st_script.specs.declared.answer.Answer.TheVariants as answer;
ghost use Rattle.st_script.specs.declared.refusal.Refusal.TheVariants as no;
ghost use Rattle.st_load_laws.specs.Load.{AreMade, IsMadeUntil, load_clients, step_by};
ghost use Rattle.st_load_laws.specs.Loaded.{EndsSoon, IsLoaded};
ghost use Rattle.st_work.specs.Generator.{steps_from};
ghost use Rattle.st_work.specs.declared.work.Work.{Work};

/// After the clients have joined, each step that is drawn brings at most one text more, and no more than two names with it.
pub fn loads_grow_slowly()
    ensures joined { (h : HeaderView) (v : WorldState) (refused : ℕ)
        → AreMade h empty_state (map (step_by (step.join None)) load_clients) v refused → IsLoaded load_clients 4 v }
    ensures drawn { (h : HeaderView) (g : Work) (count n : ℕ) (w v : WorldState) (refused : ℕ) → IsLoaded load_clients n w
        → AreMade h w (steps_from g count) v refused → IsLoaded load_clients (n + count) v }
{}

/// From a world with at most 60,000 texts a client of the load comes to the end of what it has to send, and of what it has
/// to receive, and no limit stops it before.
pub fn loads_come_to_an_end()
    ensures sending { (h : HeaderView) (name : List ℕ) (n : ℕ) (w : WorldState) → Has load_clients name → n ≤ 60000
        → IsLoaded load_clients n w → EndsSoon h (step_by step.sequence name) (answer.No no.NothingToSend) w }
    ensures receiving { (h : HeaderView) (name : List ℕ) (n : ℕ) (w : WorldState) → Has load_clients name → n ≤ 60000
        → IsLoaded load_clients n w → EndsSoon h (step_by step.deliver name) (answer.No no.NothingNew) w }
{}
