//! What holds of each thing of a list.
ghost use Rattle.std.specs.Prelude.{◌↔◌, IsTrue};
ghost use Rattle.std.specs.List.{AllByRecursion};

/// What may be asked of a thing.
pub trait Rule {
    type Item;

    ghost Holds: { Self → Self.Item → Type 0 };

    /// Whether it holds of a thing.
    fn holds(&self, item: &Self::Item) -> bool
        ensures { IsTrue result ↔ Holds self.now item.now };
}

/// Whether a rule holds of each thing of a slice.
pub fn each_of<R: Rule>(items: &[R::Item], rule: &R) -> bool
    ensures { IsTrue result ↔ AllByRecursion (R.Holds rule.now) items.now }
{
    for item in items {
        if !rule.holds(item) {
            return false;
        }
    }
    true
}
