//! For what there is room in a log.
ghost use Rattle.std.specs.List.{sum_by};
ghost use Rattle.std.specs.Prelude.{◌≡◌, ◌↔◌, ◌<◌, ◌≤◌, ◌+◌, ◌-◌, ◌^◌, ◌&&◌, min, nat_le, nat_lt, length, true, List as Seq};
ghost use Rattle.st_clusters.specs.Ids.{ids_of};
ghost use Rattle.st_ledger.specs.Stands.{StandsFor};
ghost use Rattle.st_lists.specs.declared.lists.Entry.{Entry};
ghost use Rattle.st_valid.specs.Room.{cells_made_in, connected_in, has_room, has_room_for_entry, has_room_for_names, has_room_to_say, makes_cell, names_of_change};

use crate::ledger::Ledger;
use st_marks::{Change, Mark, RowMarks};
use st_valid::{Message, Said};

// How many cells a mark makes.
fn makes_cell(mark: &Mark) -> u64
    ensures { result ≡ makes_cell mark.now }
{
    match mark {
        Mark::Make { .. } => 1,
        Mark::Skip(_) => 0,
        Mark::Gap(_) => 0,
        Mark::Touch { .. } => 0,
        Mark::Fill { .. } => 0,
    }
}

// How many cells are made in a row, or the greatest number if there are more.
fn cells_made_in(row: &RowMarks) -> u64
    ensures { result ≡ min (cells_made_in row.now) (2 ^ 64 - 1) }
{
    let mut count: u64 = 0;
    for mark in row.marks.as_slice() {
        count = count.saturating_add(makes_cell(mark));
    }
    count
}

// How many cells are made in rows, or the greatest number if there are more.
fn cells_made(rows: &[RowMarks]) -> u64
    ensures { result ≡ min (sum_by cells_made_in rows.now) (2 ^ 64 - 1) }
{
    let mut count: u64 = 0;
    for row in rows {
        count = count.saturating_add(cells_made_in(row));
    }
    count
}

/// How many nodes and cells a change makes, or the greatest number if there are more.
pub fn names_of_change(change: &Change) -> u64
    ensures { result ≡ min (names_of_change change.now) (2 ^ 64 - 1) }
{
    let cells = cells_made(change.rows.as_slice());
    (change.new.len() as u64).saturating_add(cells)
}

// Whether so many names are few enough, beside those of a log.
fn names_fit(entries: u32, names: u32, made: u64) -> bool
    ensures { result ≡ (nat_le made 2048
        && (nat_lt entries 65535 && nat_le (names + made) 131072)) }
{
    made <= 2048 && (entries < 65535 && names as u64 + made <= 131072)
}

impl Ledger {
    // Whether there is room for an entry.
    #[tactic(auto, using(crate::proofs::RoomLeft::entry_of_ledger))]
    fn has_room_for_entry(&self) -> bool
        ensures { (log : Seq Entry) → StandsFor self.now log → result ≡ has_room_for_entry log }
    {
        self.entries < 65535
    }

    // Whether one more session may be connected.
    #[tactic(auto, using(crate::proofs::RoomLeft::sessions_of_ledger))]
    fn has_room_for_session(&self) -> bool
        ensures { (log : Seq Entry) → StandsFor self.now log
            → result ≡ nat_lt (connected_in log) 64 }
    {
        self.connected.len() < 64
    }

    // Whether there is room for the names that a change makes.
    #[tactic(auto, using(crate::proofs::RoomLeft::names_of_ledger))]
    fn has_room_for_names(&self, change: &Change) -> bool
        ensures { (log : Seq Entry) → StandsFor self.now log
            → result ≡ has_room_for_names log (names_of_change change.now) }
    {
        let made = names_of_change(change);
        names_fit(self.entries, self.names, made)
    }

    // Whether there is room for what is said.
    fn has_room_to_say(&self, said: &Said) -> bool
        ensures { (log : Seq Entry) → StandsFor self.now log
            → result ≡ has_room_to_say log said.now }
    {
        match said {
            Said::Join { .. } => self.has_room_for_entry() && self.has_room_for_session(),
            Said::Leave => self.has_room_for_entry(),
            Said::Ack { .. } => self.has_room_for_entry(),
            Said::Commit { change, .. } => self.has_room_for_entry()
                && match change {
                    Some(change) => self.has_room_for_names(change),
                    None => false,
                },
        }
    }

    /// Whether numbers are left for one more entry, whose commit makes so many names: `enter_commit` asks for it. They are where
    /// there is room in the log.
    pub fn has_numbers_for(&self, names: u32) -> bool
        ensures { (result ≡ true)
            ↔ ((self.now.entries + 1 < 2 ^ 32) × (self.now.names + names < 2 ^ 32)) }
    {
        self.entries < u32::MAX && names <= u32::MAX - self.names
    }

    /// Whether numbers are left for one more entry in which a session joins: `enter_join` asks for it. They are where there is
    /// room in the log.
    pub fn has_numbers_for_session(&self) -> bool
        ensures { (result ≡ true)
            ↔ ((self.now.entries < 65535) × (length (ids_of self.now.ids).sessions ≤ self.now.entries)) }
    {
        self.entries < 65535 && self.ids.sessions().len() <= self.entries as usize
    }

    /// Whether there is room in the log for a message: for an entry, for a session that joins, and for the names of a change.
    pub fn has_room(&self, message: &Message) -> bool
        ensures { (log : Seq Entry) → StandsFor self.now log → result ≡ has_room log message.now }
    {
        self.has_room_to_say(&message.said)
    }
}
