//! Laws on answers: each is the contract of a function that does nothing but call the laws that it rests on.
ghost use Rattle.std.specs.Prelude.{◌≡◌, ◌++◌, ℕ, List as Seq, Option, Some, Result};
ghost use Rattle.st_compat.specs.Compared.{IsCompared};
ghost use Rattle.st_compat.specs.declared.compare.BadSchema.{BadSchema};
ghost use Rattle.st_script.specs.Header.{HeaderView};
ghost use Rattle.st_script.specs.Steps.{StepView};
ghost use Rattle.st_script.specs.declared.answer.Answer.{Answer};
ghost use Rattle.st_answers.specs.Algebra.{IsAsked};
ghost use Rattle.st_answers.specs.Answers.{Answers};
ghost use Rattle.st_answers.specs.Endings.{Output};
ghost use Rattle.st_answers.specs.Run.{IsAnswered, NothingFailed};
ghost use Rattle.st_answers.specs.declared.command.Command.{Command};
ghost use Rattle.std.specs.List.{AllByRecursion};
ghost use Rattle.st_lists.specs.declared.lists.WorldState.{WorldState};
ghost use Rattle.st_world_laws.specs.Worlds.{IsWorld};
ghost use Rattle.st_answers.specs.declared.outcome.Outcome.{Outcome};
ghost use Rattle.st_one_answers.specs.StepAnswers.{AreAnswers, HasSoundSchema};

/// Steps from a world that steps lead to have one list of answers.
pub fn one_list_of_steps()
    ensures { (h : HeaderView) (w : WorldState) (steps : Seq StepView) (a b : Seq Answer)
        → IsWorld h w → AllByRecursion HasSoundSchema steps → AreAnswers h w steps a
        → AreAnswers h w steps b → a ≡ b }
{}

/// Two lines of schemas come to one line.
pub fn one_relation()
    ensures { (stored view : Option (Seq ℕ)) (a b : Result (Seq ℕ) BadSchema)
        → IsCompared stored view a → IsCompared stored view b → a ≡ b }
{}

/// A request to the algebra has at most one answer: where its arguments agree, they stand over documents, and there the value that
/// is asked for is one; of others the least field at which they don't agree is told.
pub fn requests_have_one_answer()
    ensures { (line a b : Seq ℕ) → IsAsked line a → IsAsked line b → a ≡ b }
{}

/// The answers to an input under a command are one, where nothing failed; and else they are a front of these.
pub fn one_list_of_answers()
    ensures one { (command : Command) (bytes : Seq ℕ) (a b : Output)
        → Answers command bytes a → Answers command bytes b → NothingFailed a.outcome → NothingFailed b.outcome → a ≡ b }
    ensures front { (command : Command) (bytes : Seq ℕ) (a b : Output)
        → Answers command bytes a → Answers command bytes b → NothingFailed b.outcome → (rest : Seq ℕ)
        × (b.bytes ≡ a.bytes ++ rest) }
{
    requests_have_one_answer();
}

/// Two runs by the same words over the same bytes, at which nothing failed, end alike and have written the same; and what a run
/// has written at any outcome is a front of that.
pub fn one_run()
    ensures whole { (words : Seq (Seq ℕ)) (left written : Seq ℕ)
        (rest more after later : Option (Seq ℕ)) (o p : Outcome)
        → IsAnswered words (Some left) rest (Some written) after o
        → IsAnswered words (Some left) more (Some written) later p → NothingFailed o
        → NothingFailed p → (o ≡ p) × (after ≡ later) }
    ensures front { (words : Seq (Seq ℕ)) (left written : Seq ℕ)
        (rest more after later : Option (Seq ℕ)) (o p : Outcome)
        → IsAnswered words (Some left) rest (Some written) after o
        → IsAnswered words (Some left) more (Some written) later p → NothingFailed p
        → (x y : Seq ℕ) × (after ≡ Some x) × (later ≡ Some (x ++ y)) }
{
    requests_have_one_answer();
}
