//! What a world tells of its log.
ghost use Rattle.std.specs.Prelude.{◌≡◌, ◌<◌, ◌≤◌, ℕ, Some, length, take, IfOk};
ghost use Rattle.st_doc.specs.Doc.{document_of};
ghost use Rattle.st_marks.specs.Document.{IsSoundInForm};
ghost use Rattle.st_lists.specs.Log.{minimum};
ghost use Rattle.st_lists.specs.declared.lists.WorldState.{WorldState as Lists};
ghost use Rattle.st_plain.specs.Stands.{Stands};
ghost use Rattle.st_script.specs.Header.{HeaderView, header_view};
ghost use Rattle.st_world.specs.World.{opening_document};
ghost use Rattle.st_world_laws.specs.Worlds.{IsHeader};

use crate::world::{World, opening};
use st_doc::Doc;
use st_lists::Entry;
use std::alloc::{AllocError, Global};

impl World {
    /// The entries of the log.
    pub fn log(&self) -> &[Entry]
        ensures { (k : ℕ) (h : HeaderView) (w : Lists) → Stands k self.now h w → result.now ≡ w.log }
    {
        self.lists.log.as_slice()
    }

    /// The minimum after the entry with a number, if there is one.
    pub fn minimum_after(&self, n: u32) -> Option<u32>
        ensures { (k : ℕ) (h : HeaderView) (w : Lists) → Stands k self.now h w → 0 < n → n ≤ length w.log → result ≡ Some (minimum (take n w.log)) }
    {
        if n == 0 {
            return None;
        }
        self.minima.get(n as usize - 1).copied()
    }

    /// The document with which the log opens.
    pub fn opening(&self, alloc: Global) -> Result<Doc, AllocError>
        requires { IsHeader (header_view self.now.header) }
        ensures is { IfOk result (λ d. (k : ℕ) (h : HeaderView) (w : Lists) → Stands k self.now h w → document_of d ≡ opening_document h) }
        ensures sound { IfOk result (λ d. IsSoundInForm (document_of d)) }
    {
        opening(alloc, &self.header)
    }
}
