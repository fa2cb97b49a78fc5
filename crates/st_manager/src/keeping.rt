//! What is kept of the commits that came.
ghost use Rattle.std.specs.Prelude.{◌≡◌, ◌<◌, ◌≤◌, ◌↔◌, ◌++◌, ◌∷◌, [], true, OnOk};
ghost use Rattle.std.specs.List.{All};
ghost use Rattle.st_window.specs.Window.{kept_above};

use st_window::{Kept, Window};
use std::alloc::AllocError;

// Whether a number is above the floor, and above those of all commits that are kept.
fn comes_behind(window: &Window, n: u32) -> bool
    ensures { (result ≡ true) ↔ ((window.now.floor < n) × All (λ k. k.n < n) window.now.kept) }
{
    if n == 0 {
        return false;
    }
    match window.since(n - 1) {
        Ok(later) => later.is_empty(),
        Err(_) => false,
    }
}

/// One more commit is kept, and those up to a floor are dropped. Nothing is done where the number doesn't come behind those that
/// are kept, or the floor is lower than it was.
pub(crate) fn keep(window: &mut Window, kept: Kept, floor: u32) -> Result<(), AllocError>
    ensures { OnOk result (window.old.floor < kept.n → All (λ k. k.n < kept.n) window.old.kept
        → window.old.floor ≤ floor → window.new
        ≡ record { floor = floor; kept = kept_above floor (window.old.kept ++ kept ∷ []) }) }
{
    if window.floor() <= floor && comes_behind(window, kept.n) {
        window.push(kept)?;
        window.advance(floor);
    }
    Ok(())
}

/// The commits up to a floor are dropped. Nothing is done where the floor is lower than it was.
pub(crate) fn raise_floor(window: &mut Window, floor: u32)
    ensures { window.old.floor ≤ floor → window.new ≡ record { floor = floor; kept = kept_above floor window.old.kept } }
{
    if window.floor() <= floor {
        window.advance(floor);
    }
}
