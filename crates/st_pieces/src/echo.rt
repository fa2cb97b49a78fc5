//! A responder that answers each line with itself.
ghost use Rattle.std.specs.Prelude.{⊤, ◌≡◌, ◌++◌, ◌∷◌, []};

use crate::responder::{Reply, Responder};
use std::alloc::{AllocError, Global};

/// Answers each line with itself.
#[derive(Drop)]
pub struct Echo;

impl Responder for Echo {
    type Ending = ();

    ghost State = { ⊤ };

    ghost Stands = { λ e n s. ⊤ };

    ghost Takes = { λ s n line told v. told ≡ line ++ 10 ∷ [] };

    ghost Ends = { λ s n line last e. ⊥ };

    ghost Finishes = { λ s n last. last ≡ [] };

    ghost Fails = { λ s n last e. ⊥ };

    fn take(&mut self, alloc: Global, _: u32, line: &[u8]) -> Result<Reply<()>, AllocError> {
        let mut text = Vec::from_slice(alloc, line)?;
        text.push(b'\n')?;
        Ok(Reply::Goes(text))
    }

    fn end(&mut self, alloc: Global, _: u32) -> Result<Reply<()>, AllocError> {
        Ok(Reply::Goes(Vec::new(alloc)))
    }
}
