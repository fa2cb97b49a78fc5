//! What occurs in the rounds, so that it can be seen that they try what they are for.

use st_doc::Doc;
use st_ids::NodeId;
use st_marks::{Change, Intent, RegMark, RegStep, Spot, Step, Verdict};

/// How many rounds fit, how many of them are told wrongly, and in how many:
/// - a node that the intent puts was moved to another field meanwhile, or it moves one itself
/// - a register that its change lists changed meanwhile, or one is cleared in which a node stands
/// - its change is void after others' intents, for its schema, for a need, or for a ring
/// - it is sound before others' intents and void after them, or the other way round
#[derive(Debug, Drop)]
pub struct Tally {
    pub fit: u32,
    pub wrong: u32,
    pub moved: u32,
    pub moves: u32,
    pub registers: u32,
    pub clears: u32,
    pub schemas: u32,
    pub needs: u32,
    pub rings: u32,
    pub turned: u32,
}

/// Counts what is so.
pub fn add(count: &mut u32, so: bool) {
    if so {
        *count = count.saturating_add(1);
    }
}

impl Tally {
    pub fn new() -> Tally {
        Tally {
            fit: 0,
            wrong: 0,
            moved: 0,
            moves: 0,
            registers: 0,
            clears: 0,
            schemas: 0,
            needs: 0,
            rings: 0,
            turned: 0,
        }
    }

    /// Whether each thing occurred so many times.
    pub fn has_each(&self, least: u32) -> bool {
        self.moved >= least
            && self.moves >= least
            && self.registers >= least
            && self.clears >= least
            && self.schemas >= least
            && self.needs >= least
            && self.rings >= least
            && self.turned >= least
    }

    /// Counts a change, the step over which it goes, and its verdicts before and after that.
    pub fn count(&mut self, change: &Change, step: &Step, before: Verdict, after: Verdict) {
        let regs = change.regs.as_slice();
        add(&mut self.registers, have_changed(regs, step));
        add(&mut self.clears, regs.iter().any(evicts));
        add(
            &mut self.turned,
            (before == Verdict::Sound) != (after == Verdict::Sound),
        );
        match after {
            Verdict::Sound => {}
            Verdict::Schema(_) => add(&mut self.schemas, true),
            Verdict::Need(_) => add(&mut self.needs, true),
            Verdict::Cycle(_) => add(&mut self.rings, true),
        }
    }
}

fn evicts(reg: &RegMark) -> bool {
    reg.clear && reg.held.is_some()
}

// Whether a step changes the register of a mark.
fn changes(step: &RegStep, reg: &RegMark) -> bool {
    step.field == reg.field && step.before != step.after
}

// Whether a step changes any of the registers of some marks.
fn have_changed(regs: &[RegMark], step: &Step) -> bool {
    regs.iter().any(|reg| step.regs.as_slice().iter().any(|it| changes(it, reg)))
}

// The node in whose row, or in whose register, a node stands.
fn field_of(doc: &Doc, node: NodeId) -> Option<(NodeId, bool)> {
    match doc.place(node)? {
        Spot::Nowhere => None,
        Spot::Row { node, .. } => Some((*node, false)),
        Spot::Register(field) => Some((field.node, true)),
    }
}

// Whether a node stands in one field and in another later.
fn crosses(doc: &Doc, later: &Doc, node: NodeId) -> bool {
    match (field_of(doc, node), field_of(later, node)) {
        (Some(before), Some(after)) => before != after,
        _ => false,
    }
}

/// Whether a node that an intent puts goes from one field to another between two documents.
pub fn has_moved(doc: &Doc, later: &Doc, intent: &Intent) -> bool {
    intent
        .put
        .as_slice()
        .iter()
        .any(|put| crosses(doc, later, put.node))
}
