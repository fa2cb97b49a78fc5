//! The manager: what it keeps, what it lends, and new local commits.
ghost use Rattle.std.specs.Prelude.{Bool, true, false, ◌≡◌, ◌<◌, ◌↔◌, ◌++◌, ◌∷◌, [], ℕ, Option, length, IsErr, IfOk, OnOk, IsErrOf, Some, List as Seq};
ghost use Rattle.st_clusters.specs.Ids.{ids_of};
ghost use Rattle.st_clusters.specs.Log.{IsTableOf};
ghost use Rattle.st_forest.specs.Stands.{StandsFor};
ghost use Rattle.st_ids.specs.Or.{IfRefused};
ghost use Rattle.st_ids.specs.Root.{opening};
ghost use Rattle.st_ids.specs.declared.fault.Or.TheVariants.{Fault, NoMemory};
ghost use Rattle.st_ids.specs.declared.names.Limit.{Limit as Bound};
ghost use Rattle.st_lists.specs.Log.{floor, is_connected, minimum, ranges_in};
ghost use Rattle.st_log_laws.specs.Names.{IsMadeUnder};
ghost use Rattle.st_marks.specs.declared.intents.Intent.{Intent};
ghost use Rattle.st_marks.specs.Document.{Document, IsSoundInForm};
ghost use Rattle.st_valid.specs.Room.{HasRoomForNames};
ghost use Rattle.st_window_laws.specs.Windows.{IsWindowOf};
ghost use Rattle.st_seats.specs.Seats.{IsBridge};
ghost use Rattle.st_history.specs.Past.{ArePending};
ghost use Rattle.st_manager.specs.Stands.{IsEffect, Stands};
ghost use Rattle.st_manager.specs.Told.{IsLocal, IsNextLocal, Told, past, pending_limit, told_first, with_local};

use st_clusters::Compressor;
use st_forest::Forest;
use st_ids::{Limit, LimitOf, List, Or};
use st_ledger::Ledger;
use st_marks::{Change, Step};
use st_rebaser::{Effected, Rebaser};
use st_seats::{Seat, Turns};
use st_window::Window;
use std::alloc::{AllocError, Global};
use std::collections::BTreeMap;
use std::marker::PhantomData;

/// How many commits may be pending.
const MOST_PENDING: usize = 256;

/// The session isn't connected.
#[derive(Clone, Copy, Debug, PartialEq, Eq)]
pub struct NoSession;

/// Why a local commit isn't taken.
#[derive(Clone, Copy, Debug, PartialEq, Eq)]
pub enum AddFault {
    Limit(Limit),
    Spent,
}

/// What is kept of the entries received and of the own commits that aren't received back: the numbers and names of the log, the
/// commits above the floor, the document of all commits received, the pending ones over it, and a seat for each session that is
/// connected. The rebaser says how changes and steps read empty cells; no value of it is kept.
#[derive(Drop)]
pub struct Manager<R: Rebaser> {
    pub ledger: Ledger,
    pub window: Window,
    pub trunk: Forest,
    pub pending: Turns,
    pub seats: BTreeMap<u32, Seat>,
    pub own: Option<u32>,
    pub history: u32,
    pub number: u32,
    pub minimum: u32,
    pub spent: bool,
    pub rebaser: PhantomData<R>,
}

impl<R: Rebaser> Manager<R> {
    /// That of the opening document: it has received nothing.
    pub fn start(alloc: Global, trunk: Forest, history: u32, own: Option<u32>) -> Manager<R>
        ensures { (O : Document) → StandsFor trunk O → IsSoundInForm O
            → IsMadeUnder (opening ∷ []) O → HasRoomForNames O
            → Stands R.listed (told_first O history own) result }
    {
        Manager {
            ledger: Ledger::new(alloc),
            window: Window::new(alloc, 0),
            trunk,
            pending: Turns::new(alloc),
            seats: BTreeMap::new(alloc),
            own,
            history,
            number: 0,
            minimum: 0,
            spent: false,
            rebaser: PhantomData,
        }
    }

    /// How many entries were received.
    pub fn number(&self) -> u32
        ensures { (t : Told) → Stands R.listed t self.now → result ≡ length t.log }
    {
        self.number
    }

    /// The minimum after the last entry.
    pub fn minimum(&self) -> u32
        ensures { (t : Told) → Stands R.listed t self.now → result ≡ minimum t.log }
    {
        self.minimum
    }

    /// The floor: the minimum less the history that is kept.
    pub fn floor(&self) -> u32
        ensures { (t : Told) → Stands R.listed t self.now
            → result ≡ floor t.history t.log (length t.log) }
    {
        self.window.floor()
    }

    /// Whether a session is connected.
    pub fn has(&self, session: u32) -> bool
        ensures { (t : Told) → Stands R.listed t self.now → result ≡ is_connected session t.log }
    {
        self.ledger.is_connected(session)
    }

    /// The table of the log's ids.
    pub fn ids(&self) -> &Compressor
        ensures { (t : Told) → Stands R.listed t self.now
            → IsTableOf (ranges_in t.log) (ids_of result.now) }
    {
        self.ledger.ids()
    }

    /// The pending commits, each in the document before it.
    pub fn pending(&self) -> &List<Change>
        ensures { (t : Told) → Stands R.listed t self.now → ArePending R.listed (past t) result.now }
    {
        &self.pending.changes
    }

    /// The commits received above the floor.
    pub fn window(&self) -> &Window
        ensures floor { (t : Told) → Stands R.listed t self.now
            → result.now.floor ≡ floor t.history t.log (length t.log) }
        ensures kept { (t : Told) → Stands R.listed t self.now
            → IsWindowOf R.listed t.opening t.log result.now }
    {
        &self.window
    }

    /// The bridge of a session, from the document over which it writes to that of all commits received.
    pub fn kept_bridge(&self, session: u32) -> Result<&Step, NoSession>
        ensures bridge { (t : Told) → Stands R.listed t self.now
            → IfOk result (λ s. IsBridge R.listed t.opening t.log session s.now) }
        ensures no_session { (t : Told) → Stands R.listed t self.now
            → IsErr result ↔ (is_connected session t.log ≡ false) }
    {
        match self.seats.get(&session) {
            Some(seat) => Ok(&seat.bridge),
            None => Err(NoSession),
        }
    }

    // The effect of a new local commit, which is pending then.
    fn add(&mut self, alloc: Global, change: Change) -> Result<Effected, AllocError>
        ensures stands { (t : Told) (N : Intent) → Stands R.listed t self.old
            → length t.pending < 256
            → ((F : Document) → IsLocal t F → IsNextLocal R.listed t N change F)
            → OnOk result (Stands R.listed (with_local N t) self.new) }
        ensures effect { (t : Told) (N : Intent) (F : Document) → Stands R.listed t self.old
            → IsLocal t F → IsNextLocal R.listed t N change F
            → IfOk result (IsEffect R.listed F N) }
        ensures want { IsErr result → self.new.spent ≡ true }
    {
        self.spent = true;
        let effected = R::effect(alloc, &change)?;
        self.pending.push(change, effected.verdict)?;
        self.spent = false;
        Ok(effected)
    }

    /// A new local commit, whose change is over the local view: its verdict there, and the step to the view with it.
    pub fn add_local(&mut self, alloc: Global, change: Change) -> Result<Effected, Or<AddFault>>
        ensures spent { IsErrOf result (Fault AddFault.Spent) ↔ (self.old.spent ≡ true) }
        ensures limit { (t : Told) (k : Bound) → Stands R.listed t self.old
            → IsErrOf result (Fault (AddFault.Limit k)) ↔ (pending_limit t ≡ Some k) }
        ensures kept { IfRefused result (λ _. self.new ≡ self.old) }
        ensures want { IsErrOf result NoMemory → self.new.spent ≡ true }
        ensures stands { (t : Told) (N : Intent) → Stands R.listed t self.old
            → ((F : Document) → IsLocal t F → IsNextLocal R.listed t N change F)
            → OnOk result (Stands R.listed (with_local N t) self.new) }
        ensures effect { (t : Told) (N : Intent) (F : Document) → Stands R.listed t self.old
            → IsLocal t F → IsNextLocal R.listed t N change F
            → IfOk result (IsEffect R.listed F N) }
    {
        if self.spent {
            return Err(Or::Fault(AddFault::Spent));
        }
        if self.pending.changes.len() >= MOST_PENDING {
            let of = LimitOf::Pending;
            return Err(Or::Fault(AddFault::Limit(Limit { of, kept: 256 })));
        }
        match self.add(alloc, change) {
            Ok(effected) => Ok(effected),
            Err(_) => Err(Or::NoMemory),
        }
    }
}
