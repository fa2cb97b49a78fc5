//! The commits that can be taken back.
ghost use Rattle.std.specs.Prelude.{Bool, ◌≡◌};
ghost use Rattle.st_window.specs.Window.{WindowView};
ghost use Rattle.st_window_laws.specs.Windows.{IsWindowOf};
ghost use Rattle.st_history.specs.Past.{ArePending, Past, has_commit};

use st_ids::{List, Rev};
use st_marks::Change;
use st_window::Window;

/// What keeps the commits received above a floor, and the own ones that are pending.
pub trait History: Sized {
    /// Whether its changes and steps name each empty cell, or count those that stay empty.
    ghost listed: { Bool };

    /// The commits of which it tells.
    ghost tells: { Self → Past → Type 0 };

    /// What it keeps of those received.
    ghost window: { Self → WindowView };

    /// The commits received above the floor, each as it came.
    fn kept(&self) -> &Window
        ensures window { result.now ≡ window self.now }
        ensures kept { (p : Past) → tells self.now p → IsWindowOf listed p.opening p.log result.now };

    /// The pending commits, each in the document before it.
    fn local(&self) -> &List<Change>
        ensures { (p : Past) → tells self.now p → ArePending listed p result.now };

    /// Whether a commit that was received or is pending has a revision.
    fn has(&self, rev: Rev) -> bool
        ensures { (p : Past) → tells self.now p → result ≡ has_commit p rev };

    /// The floor: commits up to that number aren't kept.
    fn lowest(&self) -> u32
        ensures { result ≡ (window self.now).floor };
}
