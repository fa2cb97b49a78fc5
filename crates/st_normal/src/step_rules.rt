//! The rules of normal form of what a step alone says.
ghost use Rattle.std.specs.Prelude.{◌≡◌, ◌≢◌, ◌⊎◌, IsSome, IsTrue, None};
ghost use Rattle.st_ids.specs.Listing.{Has};
ghost use Rattle.st_normal.specs.Rules.{HasListedField};
ghost use Rattle.st_marks.specs.How.{is_stay};
ghost use Rattle.st_marks.specs.declared.marks.How.TheVariants.{Here as HereMark};

use crate::entries::Found;
use crate::listing::HasEntries;
use crate::lookup::Look;
use crate::scan::Rule;
use st_marks::{How, RegStep};

/// A node isn't set where it is.
#[derive(Drop)]
pub struct IsNotSet;

impl Rule for IsNotSet {
    type Item = Found;

    ghost Holds = { λ s f. f.how ≢ HereMark };

    fn holds(&self, found: &Found) -> bool {
        !matches!(found.how, How::Here)
    }
}

/// A register is listed for who is there before or after.
#[derive(Drop)]
pub struct StepTells;

impl Rule for StepTells {
    type Item = RegStep;

    ghost Holds = { λ s r. IsSome r.before ⊎ IsSome r.after };

    fn holds(&self, register: &RegStep) -> bool {
        register.before.is_some() || register.after.is_some()
    }
}

/// A register of a new node holds nothing before.
#[derive(Drop)]
pub struct EmptyBefore<'a, L: HasEntries>(pub &'a Look<L>);

impl<'a, L: HasEntries> Rule for EmptyBefore<'a, L> {
    type Item = RegStep;

    ghost Holds = { λ s r. Has (L.listed s.0.now.lists).new r.field.node → r.before ≡ None };

    fn holds(&self, register: &RegStep) -> bool {
        register.before.is_none() || !self.0.is_new(register.field.node)
    }
}

/// A node that stays has a listed field.
#[derive(Drop)]
pub struct LeadsOn<'a, L: HasEntries>(pub &'a Look<L>);

impl<'a, L: HasEntries> Rule for LeadsOn<'a, L> {
    type Item = Found;

    ghost Holds = { λ s f. IsTrue (is_stay f.how) → HasListedField (L.listed s.0.now.lists) f.node };

    fn holds(&self, found: &Found) -> bool {
        !matches!(found.how, How::Stay) || self.0.has_field(found.node)
    }
}
