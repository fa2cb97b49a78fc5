//! The ids that the author of a message saw.
ghost use Rattle.std.specs.Prelude.{◌≡◌, ◌∷◌, [], ◌++◌, drop, IfOk, OnOk};
ghost use Rattle.st_lists.specs.Log.{range_of, ranges_in};
ghost use Rattle.st_valid.specs.Author.{generated_with};

use st_clusters::IdRange;
use st_ids::List;
use st_lists::{Body, Entry};
use std::alloc::{AllocError, Global};

// The range of ids that an entry carries, if it carries one.
fn range_of(entry: &Entry) -> Option<IdRange>
    ensures { result ≡ range_of entry.now }
{
    match &entry.body {
        Body::Commit { ids, .. } => Some(*ids),
        Body::Join { .. } => None,
        Body::Leave => None,
        Body::Ack { .. } => None,
    }
}

// Puts the range that an entry carries behind others, if it carries one.
fn push_range(ranges: &mut List<IdRange>, entry: &Entry) -> Result<(), AllocError>
    ensures { OnOk result (ranges.new ≡ ranges.old ++ ranges_in (entry.now ∷ [])) }
{
    if let Some(ids) = range_of(entry) {
        ranges.push(ids)?;
    }
    Ok(())
}

/// The ranges of ids that entries carry, in their order.
pub(crate) fn ranges_in(alloc: Global, entries: &[Entry]) -> Result<List<IdRange>, AllocError>
    ensures { IfOk result (λ ranges. ranges ≡ ranges_in entries.now) }
{
    let mut ranges = List::new(alloc);
    for entry in entries {
        push_range(&mut ranges, entry)?;
    }
    Ok(ranges)
}

/// The entries of a log behind a reference, which may be past the log.
pub(crate) fn entries_behind(log: &[Entry], reference: u32) -> &[Entry]
    ensures { result.now ≡ drop reference log.now }
{
    let from = (reference as usize).min(log.len());
    &log[from..]
}

/// How many ids the author of a message had generated that carries a range.
pub(crate) fn generated_with(ids: IdRange) -> u32
    ensures { result ≡ generated_with ids }
{
    let last = (ids.first as u64 + ids.count as u64).saturating_sub(1);
    last.min(u32::MAX as u64) as u32
}
