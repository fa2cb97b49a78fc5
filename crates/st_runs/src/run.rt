//! What a run is.
ghost use Rattle.std.specs.Prelude.{◌≡◌, ◌<◌, ◌++◌, List, length, take, drop, MatchOption};

/// A value that stands for a list of items, of which there is at least one.
pub trait Run: Sized {
    type Item;

    /// The items.
    ghost items: { Self → List Self.Item };

    /// How many items there are.
    fn size(&self) -> u32
        ensures { result ≡ length (items self.now) };

    /// Keeps the items before a place strictly inside, and gives the rest.
    fn cut(&mut self, at: u32) -> Self
        requires some { 0 < at }
        requires within { at < length (items self.old) }
        ensures front { items self.new ≡ take at (items self.old) }
        ensures rest { items result ≡ drop at (items self.old) };

    /// Takes in the items of the next run, or hands it back and changes nothing.
    fn meld(&mut self, next: Self) -> Option<Self>
        ensures { MatchOption result (items self.new ≡ items self.old ++ items next)
            (λ back. (back ≡ next) × (self.new ≡ self.old)) };

    ghost some: { (r : Self) → 0 < length (items r) };
}
