//! What answers the lines of an input.
ghost use Rattle.std.specs.Prelude.{ℕ, List, ◌+◌, ◌≤◌, IfOk};
ghost use Rattle.st_pieces.specs.Told.{IsReply, IsEnd};

use std::alloc::{AllocError, Global};

/// How a run ends.
#[derive(Clone, Copy)]
pub enum RunEnd<E> {
    /// The input was read to its end, and every line is answered.
    Done,
    /// The line at which the responder ended the run, counted from 1, and why.
    Bad(u32, E),
    /// The line that is too long, counted from 1.
    TooLong(u32),
    /// The source failed.
    ReadFault,
    /// The sink failed.
    WriteFault,
    /// Memory ran out.
    NoMemory,
}

/// What a line, or the end of the input, is answered with.
#[derive(Drop)]
pub enum Reply<E> {
    /// The run goes on; at the end of the input it ends well.
    Goes(Vec<u8>),
    /// The run ends here, and why.
    Ends(Vec<u8>, E),
}

/// What answers lines.
pub trait Responder {
    /// Why it ends a run.
    type Ending: Copy;

    /// What it may stand for, and what stands for which before the line of a number. What follows is
    /// said of each state that it stands for.
    ghost State: { Type 0 };

    ghost Stands: { Self → ℕ → State → Type 0 };

    /// The line of a number is answered, and the state is another.
    ghost Takes: { State → ℕ → List ℕ → List ℕ → State → Type 0 };

    /// The run ends at the line of a number.
    ghost Ends: { State → ℕ → List ℕ → List ℕ → Self.Ending → Type 0 };

    /// The input ends before the line of a number, as it may or as it may not.
    ghost Finishes: { State → ℕ → List ℕ → Type 0 };

    ghost Fails: { State → ℕ → List ℕ → Self.Ending → Type 0 };

    /// Answers a line.
    fn take(
        &mut self,
        alloc: Global,
        number: u32,
        line: &[u8],
    ) -> Result<Reply<Self::Ending>, AllocError>
        requires few { number ≤ 65536 }
        requires stands { (s : State) × Stands self.old number s }
        ensures { IfOk result (λ r. (s : State) → Stands self.old number s
            → IsReply (Takes s number line.now) (Ends s number line.now) (Stands self.new (number + 1)) r) };

    /// Answers the end of the input.
    fn end(&mut self, alloc: Global, number: u32) -> Result<Reply<Self::Ending>, AllocError>
        requires stands { (s : State) × Stands self.old number s }
        ensures { IfOk result (λ r. (s : State) → Stands self.old number s
            → IsEnd (Finishes s number) (Fails s number) r) };
}
