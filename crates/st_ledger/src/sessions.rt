//! Which session may say what a message says.
ghost use Rattle.std.specs.Option.{option_map_or};
ghost use Rattle.std.specs.Prelude.{◌≡◌, ◌+◌, ◌==◌, ◌&&◌, not, false, is_some, length, option_map, List as Seq};
ghost use Rattle.st_clusters.specs.Free.{is_v4};
ghost use Rattle.st_clusters.specs.Ids.{ids_of};
ghost use Rattle.st_clusters.specs.Table.{clash, session_of};
ghost use Rattle.st_ledger.specs.Stands.{StandsFor};
ghost use Rattle.st_lists.specs.declared.lists.Entry.{Entry};
ghost use Rattle.st_valid.specs.Sessions.{comes_back, has_joined, is_new_session, is_of_session, session_may};

use crate::ledger::Ledger;
use st_clusters::{Compressor, is_v4};
use st_valid::{Message, Said};

// Whether a session of a table has a UUID.
fn has_uuid(ids: &Compressor, session: u32, uuid: u128) -> bool
    ensures { result ≡ option_map_or (λ x. x == uuid) (option_map (λ x. x.uuid)
        (session_of (ids_of ids.now).sessions session)) false }
{
    match ids.uuid(session) {
        Some(own) => own == uuid,
        None => false,
    }
}

// Whether a session comes next in a table, with a UUID whose stable ids are free.
fn comes_next(ids: &Compressor, session: u32, uuid: u128) -> bool
    ensures { result ≡ (session == length (ids_of ids.now).sessions + 1
        && (is_v4 uuid && not (is_some (clash uuid (ids_of ids.now).sessions)))) }
{
    let next = ids.sessions().len() + 1;
    session as usize == next && (is_v4(uuid) && ids.clash(uuid).is_none())
}

impl Ledger {
    // Whether a session has joined with a UUID.
    #[tactic(auto, using(crate::proofs::JoinedSessions::joined_of_ledger))]
    pub(crate) fn has_joined(&self, session: u32, uuid: u128) -> bool
        ensures { (log : Seq Entry) → StandsFor self.now log
            → result ≡ has_joined session uuid log }
    {
        has_uuid(&self.ids, session, uuid)
    }

    // Whether a session is the next one to join, with a UUID whose stable ids are free.
    #[tactic(auto, using(crate::proofs::JoinedSessions::new_of_ledger))]
    fn is_new_session(&self, session: u32, uuid: u128) -> bool
        ensures { (log : Seq Entry) → StandsFor self.now log
            → result ≡ is_new_session session uuid log }
    {
        comes_next(&self.ids, session, uuid)
    }

    // Whether a session that isn't connected comes back with its UUID.
    fn comes_back(&self, session: u32, uuid: u128) -> bool
        ensures { (log : Seq Entry) → StandsFor self.now log
            → result ≡ comes_back session uuid log }
    {
        !self.is_connected(session) && self.has_joined(session, uuid)
    }

    // Whether a session may say so.
    fn session_may(&self, session: u32, said: &Said) -> bool
        ensures { (log : Seq Entry) → StandsFor self.now log
            → result ≡ session_may log session said.now }
    {
        match said {
            Said::Join { uuid } => {
                self.is_new_session(session, *uuid) || self.comes_back(session, *uuid)
            }
            Said::Leave => self.is_connected(session),
            Said::Ack { .. } => self.is_connected(session),
            Said::Commit { .. } => self.is_connected(session),
        }
    }

    /// Whether a message is of a session that may say so: a new one joins, one comes back, or one that is connected says it.
    pub fn is_of_session(&self, message: &Message) -> bool
        ensures { (log : Seq Entry) → StandsFor self.now log
            → result ≡ is_of_session log message.now }
    {
        self.session_may(message.session, &message.said)
    }
}
