//! Laws about lists: each is the contract of a function that does nothing.
ghost use Rattle.std.specs.Prelude.{◌≡◌, ◌≢◌, ℕ, Option, [], ◌∷◌, ◌++◌, List as Seq, option_map};
ghost use Rattle.st_ids.specs.Listing.{Has};
ghost use Rattle.st_log_laws.specs.Turns.{IsSublist};
ghost use Rattle.st_marks.specs.declared.intents.Intent.{Intent};
ghost use Rattle.st_lists.specs.Lines.{AreStanding, Line, branch_line, commits_of, line_of, own_of, with_commit_on, with_transaction_on};
ghost use Rattle.st_lists.specs.declared.lists.Client.{Client};
ghost use Rattle.st_lists.specs.declared.lists.Transaction.{Transaction as Open};
ghost use Rattle.st_lists.specs.declared.lists.Branch.{Branch};
ghost use Rattle.st_lists.specs.declared.lists.Entry.{Entry};

/// What is written on one line of a client is read there, and all other lines stay.
pub fn lines_are_written()
    ensures commit { (c : Client) (k : ℕ) (N : Intent) → line_of (with_commit_on c k N) k ≡ option_map {T = Line} {U = Line} (λ l. record l { own = l.own ++ N ∷ [] }) (line_of c k) }
    ensures commit_elsewhere { (c : Client) (k j : ℕ) (N : Intent) → j ≢ k → line_of (with_commit_on c k N) j ≡ line_of c j }
    ensures transaction { (c : Client) (k : ℕ) (t : Option Open) → line_of (with_transaction_on c k t) k ≡ option_map {T = Line} {U = Line} (λ l. record l { transaction = t }) (line_of c k) }
    ensures transaction_elsewhere { (c : Client) (k j : ℕ) (t : Option Open) → j ≢ k → line_of (with_transaction_on c k t) j ≡ line_of c j }
{}

/// The commits of each branch are, in their order, among those of the main one and the own commits of all branches.
pub fn lines_are_among()
    ensures { (log : Seq Entry) (main : Line) (all : Seq Intent) (branches : Seq Branch) (b : Branch) → IsSublist (commits_of log main) all
        → AreStanding log main [] branches → Has branches b → IsSublist (commits_of log (branch_line b)) (all ++ own_of branches) }
{}
