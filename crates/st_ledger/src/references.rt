//! The reference of a message, and the minimum after it.
ghost use Rattle.std.specs.Option.{option_map_or};
ghost use Rattle.std.specs.Prelude.{◌≡◌, ℕ, ◌+◌, ◌&&◌, nat_le, nat_lt, true, List as Seq};
ghost use Rattle.st_ledger.specs.Stands.{StandsFor};
ghost use Rattle.st_ledger.specs.inside.Least.{least_after, least_of, least_without};
ghost use Rattle.st_lists.specs.Known.{known_so_far};
ghost use Rattle.st_lists.specs.Log.{log_with, minimum};
ghost use Rattle.st_lists.specs.declared.lists.Entry.{Entry};
ghost use Rattle.st_valid.specs.References.{is_in_window, is_no_step_back, is_within, minimum_after, reference_said, body_without_change};

use crate::ledger::Ledger;
use st_valid::{Message, Said};
use std::collections::BTreeMap;

// How many entries the author says that it had received, if it says so.
fn reference_said(said: &Said) -> Option<u32>
    ensures { result ≡ reference_said said.now }
{
    match said {
        Said::Join { .. } => None,
        Said::Leave => None,
        Said::Ack { reference } => Some(*reference),
        Said::Commit { reference, .. } => Some(*reference),
    }
}

// The greatest reference of a session that is known.
fn known_so_far(known: &BTreeMap<u32, u32>, session: u32) -> u32
    ensures { result ≡ known_so_far known.now session }
{
    known.get(&session).copied().unwrap_or(0)
}

// The least known reference of the sessions but one, or a number where it is less.
fn least_without(connected: &[u32], known: &BTreeMap<u32, u32>, session: u32, number: u64) -> u64
    ensures { result ≡ least_without connected.now known.now session number }
{
    let mut least = number;
    for one in connected {
        if *one != session {
            least = least.min(known_so_far(known, *one) as u64);
        }
    }
    least
}

// The least known reference of some sessions, or a number where it is less.
fn least_of(connected: &[u32], known: &BTreeMap<u32, u32>, number: u32) -> u32
    ensures { result ≡ least_of connected.now known.now number }
{
    let mut least = number;
    for one in connected {
        least = least.min(known_so_far(known, *one));
    }
    least
}

impl Ledger {
    // The least known reference after a session said something with a reference.
    fn least_after(&self, session: u32, on: bool, reference: u64) -> u64
        ensures { result ≡ least_after self.now.connected self.now.known session on reference
            (self.now.entries + 1) }
    {
        let number = self.entries as u64 + 1;
        let least = least_without(self.connected.as_slice(), &self.known, session, number);
        if on {
            let known = known_so_far(&self.known, session) as u64;
            least.min(known.max(reference))
        } else {
            least
        }
    }

    /// The minimum of the log.
    #[tactic(auto, using(crate::proofs::LeastKnown::least_now))]
    pub fn minimum(&self) -> u32
        ensures { (log : Seq Entry) → StandsFor self.now log → result ≡ minimum log }
    {
        least_of(self.connected.as_slice(), &self.known, self.entries)
    }

    // The minimum after a session said something.
    #[tactic(auto, using(crate::proofs::LeastKnown::least_joined, crate::proofs::LeastKnown::least_left, crate::proofs::LeastKnown::least_told))]
    fn least_known(&self, session: u32, said: &Said) -> u64
        ensures { (log : Seq Entry) → StandsFor self.now log
            → result ≡ minimum (log_with log session (body_without_change said.now)) }
    {
        let on = self.is_connected(session);
        match said {
            Said::Join { .. } => self.least_after(session, true, self.entries as u64 + 1),
            Said::Leave => self.least_after(session, false, 0),
            Said::Ack { reference } => self.least_after(session, on, *reference as u64),
            Said::Commit { reference, .. } => self.least_after(session, on, *reference as u64),
        }
    }

    // Whether a reference isn't below the minimum, and is of an entry before the message.
    fn is_within(&self, n: u32, reference: u32) -> bool
        ensures { (log : Seq Entry) → StandsFor self.now log → result ≡ is_within log n reference }
    {
        self.minimum() <= reference && reference < n
    }

    /// Whether the reference of a message isn't below the one that is known of its session.
    pub fn is_no_step_back(&self, message: &Message) -> bool
        ensures { (log : Seq Entry) → StandsFor self.now log
            → result ≡ is_no_step_back log message.now }
    {
        match reference_said(&message.said) {
            Some(reference) => self.known_reference(message.session) <= reference,
            None => true,
        }
    }

    /// Whether the reference of a message is in the window, and the message tells the minimum after it.
    pub fn is_in_window(&self, message: &Message) -> bool
        ensures { (log : Seq Entry) → StandsFor self.now log
            → result ≡ is_in_window log message.now }
    {
        let within = match reference_said(&message.said) {
            Some(reference) => self.is_within(message.n, reference),
            None => true,
        };
        within && message.min as u64 == self.least_known(message.session, &message.said)
    }
}
