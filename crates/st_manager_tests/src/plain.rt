//! A plain log: what came, who is connected, and the own commits that aren't received back.

use st_clusters::IdRange;
use st_ids::{List, Rev};
use st_marks::Intent;
use std::alloc::{AllocError, Global};

/// The own session.
pub const OWN: u32 = 2;

/// A commit of the log.
#[derive(Drop)]
pub struct Sent {
    pub n: u32,
    pub session: u32,
    pub intent: Intent,
}

/// An own commit that isn't received back, and how many entries were received when it was made.
#[derive(Drop)]
pub struct Waiting {
    pub reference: u32,
    pub intent: Intent,
}

/// A session: whether it is connected, its known reference, and how many ids its commits carry.
#[derive(Clone, Copy)]
pub struct Member {
    pub session: u32,
    pub on: bool,
    pub known: u32,
    pub carried: u32,
}

/// The log, with its three sessions.
#[derive(Drop)]
pub struct Plain {
    pub sent: List<Sent>,
    pub waiting: List<Waiting>,
    pub made: u32,
    pub entries: u32,
    pub one: Member,
    pub two: Member,
    pub three: Member,
}

// A session that hasn't joined.
fn stranger(session: u32) -> Member {
    Member {
        session,
        on: false,
        known: 0,
        carried: 0,
    }
}

// What a session has received for sure, if it is connected.
fn received(member: Member) -> u32 {
    if member.on { member.known } else { u32::MAX }
}

impl Plain {
    /// The empty log.
    pub fn new(alloc: Global) -> Plain {
        Plain {
            sent: List::new(alloc),
            waiting: List::new(alloc),
            made: 0,
            entries: 0,
            one: stranger(1),
            two: stranger(2),
            three: stranger(3),
        }
    }

    /// A session.
    pub fn member(&self, session: u32) -> Member {
        match session {
            1 => self.one,
            2 => self.two,
            _ => self.three,
        }
    }

    // A session is so now.
    fn set(&mut self, member: Member) {
        match member.session {
            1 => self.one = member,
            2 => self.two = member,
            _ => self.three = member,
        }
    }

    /// The least known reference of those that are connected, or the number of entries.
    pub fn least(&self) -> u32 {
        let least = received(self.one).min(received(self.two));
        least.min(received(self.three)).min(self.entries)
    }

    /// How many commits have a number above one.
    pub fn above(&self, n: u32) -> usize {
        let mut count: usize = 0;
        for sent in self.sent.as_slice() {
            if sent.n > n {
                count = count.saturating_add(1);
            }
        }
        count
    }

    /// The revision of the next commit of a session.
    pub fn next_rev(&self, session: u32) -> Rev {
        let num = self.member(session).carried.saturating_add(1);
        Rev { session, num }
    }

    /// The revision of the next commit that is made here.
    pub fn next_own(&self) -> Rev {
        Rev {
            session: OWN,
            num: self.made.saturating_add(1),
        }
    }

    /// The ids that the next commit of a session carries.
    pub fn next_ids(&self, session: u32) -> IdRange {
        IdRange {
            session,
            first: self.member(session).carried.saturating_add(1),
            count: 1,
        }
    }

    // One entry more. Gives its number.
    fn enter(&mut self) -> u32 {
        self.entries = self.entries.saturating_add(1);
        self.entries
    }

    /// A session joins.
    pub fn join(&mut self, session: u32) {
        let known = self.enter();
        let on = true;
        let member = self.member(session);
        self.set(Member {
            on,
            known,
            ..member
        });
    }

    /// A session leaves.
    pub fn leave(&mut self, session: u32) {
        let _n = self.enter();
        let member = self.member(session);
        self.set(Member {
            on: false,
            ..member
        });
    }

    /// A session tells what it has received.
    pub fn ack(&mut self, session: u32, known: u32) {
        let _n = self.enter();
        let member = self.member(session);
        self.set(Member { known, ..member });
    }

    /// An own commit is made.
    pub fn make(&mut self, intent: Intent) -> Result<(), AllocError> {
        let reference = self.entries;
        self.made = self.made.saturating_add(1);
        self.waiting.push(Waiting { reference, intent })?;
        Ok(())
    }

    // The first of the own commits that wait is received.
    fn come_back(&mut self) {
        if !self.waiting.is_empty() {
            let _first = self.waiting.remove(0);
        }
    }

    /// A commit comes.
    pub fn commit(
        &mut self,
        session: u32,
        reference: u32,
        intent: Intent,
    ) -> Result<(), AllocError> {
        let n = self.enter();
        let member = self.member(session);
        self.set(Member {
            known: reference,
            carried: member.carried.saturating_add(1),
            ..member
        });
        if session == OWN {
            self.come_back();
        }
        self.sent.push(Sent { n, session, intent })?;
        Ok(())
    }

    /// Up to which entry the own session may say that it has received the log: what waits was made behind that.
    pub fn own_limit(&self) -> u32 {
        match self.waiting.get(0) {
            Some(first) => first.reference,
            None => self.entries,
        }
    }
}
