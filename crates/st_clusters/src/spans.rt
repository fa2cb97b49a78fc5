//! Which session's span has a free number, by halving the order in which the spans begin.
ghost use Rattle.std.specs.Prelude.{◌≡◌, ◌<◌, ◌^◌, [], MatchOption};
ghost use Rattle.st_clusters.specs.Table.{session_meeting};
ghost use Rattle.st_clusters.specs.inside.Spans.{session_spanning, starts_by, StartBy, IsNearest};
ghost use Rattle.st_ids.specs.Order.{lesser};

use crate::compressor::Compressor;
use crate::free::{SPAN, ahead, free_after, free_number};
use crate::ids::SessionIds;

// Whether a place has a session, and one whose span begins with a free number or before.
fn starts_by(sessions: &[SessionIds], free: u128, place: usize) -> bool
    ensures { result ≡ starts_by sessions.now free place }
{
    match sessions.get(place) {
        Some(ids) => free_number(ids.uuid) <= free,
        None => false,
    }
}

// The least of the places that there are.
fn least(a: Option<usize>, b: Option<usize>) -> Option<usize>
    ensures { result ≡ lesser a b }
{
    match (a, b) {
        (Some(a), Some(b)) => Some(a.min(b)),
        (Some(a), None) => Some(a),
        (None, b) => b,
    }
}

impl Compressor {
    // How many spans begin with a free number or before.
    pub(crate) fn count_before(&self, free: u128) -> usize
        ensures { StartBy self.now.sessions.items self.now.order.items free result }
    {
        let sessions = self.sessions.as_slice();
        self.order
            .as_slice()
            .partition_point(|place| starts_by(sessions, free, *place))
    }

    // The place of the session whose span begins nearest before a free number. Before the first
    // span comes the last one, as the numbers go round.
    fn nearest(&self, free: u128) -> Option<usize>
        requires { free < 2 ^ 122 }
        ensures { MatchOption result (self.now.sessions.items ≡ [])
            (λ i. IsNearest self.now.sessions.items free i) }
    {
        let count = self.count_before(free);
        if count == 0 {
            return self.order.as_slice().last().copied();
        }
        Some(self.order[count - 1])
    }

    // The place of the first session that has a free number in its span. There is one at most.
    pub(crate) fn session_spanning(&self, free: u128) -> Option<usize>
        requires { free < 2 ^ 122 }
        ensures { result ≡ session_spanning free self.now.sessions.items }
    {
        let place = self.nearest(free)?;
        if ahead(free_number(self.sessions[place].uuid), free) < SPAN {
            Some(place)
        } else {
            None
        }
    }

    // The place of the first session whose span meets that of a UUID: a span that has the first
    // number of that one, or the last.
    pub(crate) fn session_meeting(&self, uuid: u128) -> Option<usize>
        ensures { result ≡ session_meeting uuid self.now.sessions.items }
    {
        let first = free_number(uuid);
        let last = free_after(first, u32::MAX);
        least(self.session_spanning(first), self.session_spanning(last))
    }
}
