//! Kinds of names.
ghost use Rattle.st_ids.specs.declared.names.Atom.{Atom};
ghost use Rattle.st_ids.specs.declared.names.Rev.{Rev};

use st_clusters::At;

/// A kind of names: which revisions and which atoms are of it. A clause ranges over values and not
/// over predicates, so a law on every kind is one on every type that has one.
pub trait NameKind: Sized {
    ghost revs: { Self → Rev → Type 0 };

    ghost atoms: { Self → Atom → Type 0 };
}

/// Names with numbers below 2^32, as every name in memory has.
#[derive(Clone, Copy)]
pub struct ShortNames;

impl NameKind for ShortNames {
    ghost use Rattle.st_change_laws.specs.Within.{IsShortAtom, IsShortRev};

    ghost revs = { λ k. IsShortRev };

    ghost atoms = { λ k. IsShortAtom };
}

// Names that have a number, as the author of a message saw the table of ids.
impl<'a> NameKind for At<'a> {
    ghost use Rattle.st_change_laws.specs.Within.{AtomHasNumber, HasNumber};

    ghost revs = { HasNumber };

    ghost atoms = { AtomHasNumber };
}
