//! The limits on the commits of a line and on the names that wait.
ghost use Rattle.std.specs.Prelude.{◌≡◌, ◌≤◌, length};
ghost use Rattle.st_lists.specs.Limits.{limit_on, line_limit, names_limit, own_limit_passed, pending_limit_passed};
ghost use Rattle.st_lists.specs.Lines.{Line};

use crate::counts::names_made;
use crate::lists::Client;
use st_ids::{Limit, LimitOf};
use st_marks::Intent;

/// How many commits of its own a line may have.
const MOST_OWN: usize = 256;

/// How many names may wait at a client.
const MOST_NAMES: u64 = 16_384;

// What is limited on the line of a number.
fn limit_on(number: u32) -> LimitOf
    ensures { result ≡ limit_on number }
{
    if number == 0 {
        LimitOf::Pending
    } else {
        LimitOf::Branch
    }
}

// The limit that so many more commits on the line of a number would pass beside so many.
fn line_limit(number: u32, own: usize, more: usize) -> Option<Limit>
    requires { own ≤ 256 }
    ensures { result ≡ line_limit number own more }
{
    if own.saturating_add(more) > MOST_OWN {
        let of = limit_on(number);
        let kept = own as u32;
        return Some(Limit { of, kept });
    }
    None
}

/// The limit that so many more commits on the line of a number would pass, which has so many of its own, if they pass it.
pub fn own_limit_passed(number: u32, own: usize, more: usize) -> Option<Limit>
    requires { own ≤ 256 }
    ensures { (l : Line) → length l.own ≡ own → result ≡ own_limit_passed number l more }
{
    line_limit(number, own, more)
}

/// The limit that one more pending commit would pass, if it passes one.
pub fn pending_limit_passed(client: &Client) -> Option<Limit>
    requires { length client.now.pending ≤ 256 }
    ensures { result ≡ pending_limit_passed client.now }
{
    own_limit_passed(0, client.pending.len(), 1)
}

/// The limit that the names of an intent would pass beside so many that wait, if they pass it.
pub fn names_limit_passed(names: u64, intent: &Intent) -> Option<Limit>
    requires { names ≤ 16384 }
    ensures { result ≡ names_limit names intent.now }
{
    if names.saturating_add(names_made(intent)) > MOST_NAMES {
        let of = LimitOf::Unsequenced;
        let kept = names as u32;
        return Some(Limit { of, kept });
    }
    None
}
