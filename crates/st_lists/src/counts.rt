//! How many names commits make.
ghost use Rattle.std.specs.Prelude.{◌≡◌, ◌-◌, ◌^◌, [], ◌∷◌, min, length};
ghost use Rattle.std.specs.List.{flat_map};
ghost use Rattle.std.specs.Option.{option_map_or};
ghost use Rattle.st_clusters.specs.Log.{carried_count};
ghost use Rattle.st_lists.specs.Log.{commits_by, ranges_in};
ghost use Rattle.st_lists.specs.Names.{names_in, names_in_text, names_made};
ghost use Rattle.st_lists.specs.inside.Own.{is_own_of};

use crate::lists::{Body, Entry};
use st_marks::{Group, Intent};

// How many cells there are in groups, or the greatest number if there are more.
fn cells_in(groups: &[Group]) -> u64
    ensures { result ≡ min (length (flat_map (λ g. g.cells) groups.now)) (2 ^ 64 - 1) }
{
    let mut count: u64 = 0;
    for group in groups {
        count = count.saturating_add(group.cells.len() as u64);
    }
    count
}

/// How many nodes and cells an intent makes, or the greatest number if there are more.
pub fn names_made(intent: &Intent) -> u64
    ensures { result ≡ min (names_made intent.now) (2 ^ 64 - 1) }
{
    let cells = cells_in(intent.groups.as_slice());
    (intent.new.len() as u64).saturating_add(cells)
}

/// How many nodes and cells commits make together, or the greatest number if there are more.
pub fn names_in(intents: &[Intent]) -> u64
    ensures { result ≡ min (names_in intents.now) (2 ^ 64 - 1) }
{
    let mut count: u64 = 0;
    for intent in intents {
        let made = names_made(intent);
        count = count.saturating_add(made);
    }
    count
}

/// How many names were made in a transaction, by what was edited in it, or the greatest number if there are more.
pub fn names_edited(joined: &Option<Intent>) -> u64
    ensures { result ≡ min (option_map_or names_made joined.now 0) (2 ^ 64 - 1) }
{
    match joined {
        None => 0,
        Some(joined) => names_made(joined),
    }
}

// Whether an entry is a commit of a session.
fn is_own(entry: &Entry, session: u32) -> bool
    ensures { result ≡ is_own_of entry.now session }
{
    match &entry.body {
        Body::Join { .. } | Body::Leave | Body::Ack { .. } => false,
        Body::Commit { .. } => entry.session == session,
    }
}

/// How many commits of a session there are among some entries.
pub fn count_own(entries: &[Entry], session: u32) -> usize
    ensures { result ≡ length (commits_by session entries.now) }
{
    let mut count: usize = 0;
    for entry in entries {
        if is_own(entry, session) {
            count += 1;
        }
    }
    count
}

// How many ids of a session an entry carries.
fn ids_in(entry: &Entry, session: u32) -> u32
    ensures { result ≡ carried_count session (ranges_in (entry.now ∷ [])) }
{
    match &entry.body {
        Body::Join { .. } | Body::Leave | Body::Ack { .. } => 0,
        Body::Commit { ids, .. } => { if ids.session == session { ids.count } else { 0 } }
    }
}

/// How many ids of a session entries carry, or the greatest number if there are more.
pub fn ids_carried(entries: &[Entry], session: u32) -> u32
    ensures { result ≡ min (carried_count session (ranges_in entries.now)) (2 ^ 32 - 1) }
{
    let mut count: u32 = 0;
    for entry in entries {
        let carried = ids_in(entry, session);
        count = count.saturating_add(carried);
    }
    count
}

/// How many nodes and cells the commit of a text makes, or the greatest number if there are more; none where it has none.
pub fn names_in_text(text: &Body) -> u64
    ensures { result ≡ min (names_in_text text.now) (2 ^ 64 - 1) }
{
    match text {
        Body::Commit { intent, .. } => names_made(intent),
        Body::Join { .. } | Body::Leave | Body::Ack { .. } => 0,
    }
}
