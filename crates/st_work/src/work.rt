//! The generator: the client, the kind and the indexes of each step, drawn one after the other.
ghost use Rattle.std.specs.Prelude.{◌≡◌, ℕ, ◌+◌, ◌<◌, ◌^◌, IfOk};
ghost use Rattle.st_script.specs.Steps.{step_view, IsWithinLimits};
ghost use Rattle.st_work.specs.Generator.{turned, drawn, plan_after, first_work, step_drawn, after_step};

use crate::make::make_step;
use st_script::TraceStep;
use std::alloc::{AllocError, Global};

/// By what each draw multiplies the number, and what it then adds.
const FACTOR: u64 = 6_364_136_223_846_793_005;

const SUMMAND: u64 = 1_442_695_040_888_963_407;

/// A generator of steps: its number, and how many steps it has drawn.
#[derive(Clone, Copy)]
pub struct Work {
    pub state: u64,
    pub made: u32,
}

/// What a step is to do, as it was drawn.
#[derive(Clone, Copy)]
pub enum Plan {
    /// Inserts one text at an index of the root row.
    Insert { index: u32 },
    /// Removes the item at an index.
    Remove { index: u32 },
    /// Moves the item at an index within the row.
    Move { index: u32, to_index: u32 },
    Sequence,
    Deliver,
}

impl Work {
    /// The generator of a seed, before its first step.
    pub fn new(seed: u64) -> Work
        ensures { result ≡ first_work seed }
    {
        Work {
            state: seed,
            made: 0,
        }
    }

    /// Draws a number below another one.
    pub fn draw(&mut self, below: u32) -> u32
        requires some { 0 < below }
        ensures drawn { result ≡ drawn below (turned self.old.state) }
        ensures after { self.new ≡ record self.old { state = turned self.old.state } }
    {
        self.state = self.state.wrapping_mul(FACTOR).wrapping_add(SUMMAND);
        ((self.state >> 33) % below as u64) as u32
    }

    // Draws the indexes of a step of a kind.
    fn plan(&mut self, kind: u32) -> Plan
        ensures plan { (result, self.new.state) ≡ plan_after kind self.old.state }
        ensures made { self.new.made ≡ self.old.made }
    {
        if kind < 2 {
            let index = self.draw(8);
            return Plan::Insert { index };
        }
        if kind == 2 {
            let index = self.draw(8);
            return Plan::Remove { index };
        }
        if kind == 3 {
            let index = self.draw(8);
            let to_index = self.draw(8);
            return Plan::Move { index, to_index };
        }
        if kind < 8 {
            return Plan::Sequence;
        }
        Plan::Deliver
    }

    /// Draws the next step. Want of memory takes no part in what is drawn.
    pub fn next(&mut self, alloc: Global) -> Result<TraceStep, AllocError>
        requires few { self.old.made + 1 < 2 ^ 32 }
        ensures step { IfOk result (λ s. step_view s ≡ step_drawn self.old) }
        ensures within { IfOk result (λ s. IsWithinLimits (step_view s)) }
        ensures after { self.new ≡ after_step self.old }
    {
        let client = self.draw(4);
        let kind = self.draw(32);
        let plan = self.plan(kind);
        self.made += 1;
        make_step(alloc, self.made, client, plan)
    }
}
