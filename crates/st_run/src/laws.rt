//! Laws about answers: each is the contract of a function that does nothing.
ghost use Rattle.std.specs.Prelude.{◌≢◌, ℕ, List, Option, Some};
ghost use Rattle.st_answers.specs.Answers.{Answers};
ghost use Rattle.st_answers.specs.Endings.{Output};
ghost use Rattle.st_answers.specs.Run.{IsAnswered, NothingFailed, command_of};
ghost use Rattle.st_answers.specs.declared.command.Command.{Command};
ghost use Rattle.st_answers.specs.declared.outcome.Outcome.{Outcome};

/// Each input has its answers under `trace` and `compat`, from the first line to the one that ends the run, and not cut short. Of
/// a request to the algebra, and of a message that is replayed, no law says that it has an answer, but the clause of `run`, which
/// answers each.
pub fn each_input_has_answers()
    ensures { (command : Command) (bytes : List ℕ) → command ≢ Command.Algebra
        → command ≢ Command.Replay → (out : Output) × Answers command bytes out × NothingFailed out.outcome }
{}

/// Whatever the words are, unless they ask for `algebra` or `replay`, whatever bytes a source has left and whatever a sink has written: there
/// is an outcome at which nothing failed, with what is then left and written.
pub fn each_run_has_an_answer()
    ensures { (words : List (List ℕ)) (left written : List ℕ) → command_of words ≢ Some Command.Algebra
        → command_of words ≢ Some Command.Replay → (outcome : Outcome) × (rest : Option (List ℕ)) × (after : Option (List ℕ)) × NothingFailed outcome
        × IsAnswered words (Some left) rest (Some written) after outcome }
{}
