//! Laws on lines that were answered: each is the contract of a function that does nothing.
ghost use Rattle.std.specs.Prelude.{◌≡◌, ◌+◌, ℕ, List, length};
ghost use Rattle.st_pieces.specs.Lines.{Line, size_of};
ghost use Rattle.st_pieces.specs.Told.{Answered};

use crate::responder::Responder;

/// The number that stands for the next line is one more than the lines that were answered, and the bytes before it are
/// all of theirs. So the line that a run names is the one that follows those that it answered.
pub fn answered_lines_are_counted<R: Responder>()
    ensures { (first s : R.State) (ls : List Line) (n start : ℕ) (text : List ℕ)
        → Answered R.Takes first ls n start text s → (n ≡ length ls + 1) × (start ≡ size_of ls) }
{}
