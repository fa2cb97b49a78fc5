//! Whether parts of two documents are the same.
ghost use Rattle.std.specs.Prelude.{◌≡◌};
ghost use Rattle.std.specs.Option.{option_copied};
ghost use Rattle.st_marks.specs.Intent.{same_option};
ghost use Rattle.st_later.specs.inside.Extending.{same_entry, same_owned, same_text, same_value};

use st_ids::{Leaf, Text, is_same_cell, is_same_node, is_same_rev};
use st_marks::{Owned, SchemaEntry};

// Whether two leaves have one value.
fn is_same_value(a: &Leaf, b: &Leaf) -> bool
    ensures { result ≡ same_value a.now b.now }
{
    match (a, b) {
        (Leaf::Null, Leaf::Null) => true,
        (Leaf::Bool(a), Leaf::Bool(b)) => *a == *b,
        (Leaf::Int(a), Leaf::Int(b)) => *a == *b,
        (Leaf::Words(a), Leaf::Words(b)) => a == b,
        _ => false,
    }
}

/// Whether two leaves have one value, or neither is there.
pub fn is_same_leaf(a: Option<&Leaf>, b: Option<&Leaf>) -> bool
    ensures { result ≡ same_option same_value (option_copied a.entry) (option_copied b.entry) }
{
    match (a, b) {
        (None, None) => true,
        (Some(a), Some(b)) => is_same_value(a, b),
        _ => false,
    }
}

/// Whether two texts are the same, or neither is there.
pub fn is_same_type(a: Option<&Text>, b: Option<&Text>) -> bool
    ensures { result ≡ same_option same_text (option_copied a.entry) (option_copied b.entry) }
{
    match (a, b) {
        (None, None) => true,
        (Some(a), Some(b)) => a == b,
        _ => false,
    }
}

/// Whether two cells have one name and one owner.
pub fn is_same_owned(a: &Owned, b: &Owned) -> bool
    ensures { result ≡ same_owned a.now b.now }
{
    is_same_cell(a.cell, b.cell) && is_same_node(a.node, b.node)
}

// Whether two schema entries have one revision and one text.
fn is_same_entry(a: &SchemaEntry, b: &SchemaEntry) -> bool
    ensures { result ≡ same_entry a.now b.now }
{
    is_same_rev(a.rev, b.rev) && a.text == b.text
}

/// Whether two schema entries have one revision and one text, or neither is there.
pub fn is_same_first(a: Option<&SchemaEntry>, b: Option<&SchemaEntry>) -> bool
    ensures { result ≡ same_option same_entry (option_copied a.entry) (option_copied b.entry) }
{
    match (a, b) {
        (None, None) => true,
        (Some(a), Some(b)) => is_same_entry(a, b),
        _ => false,
    }
}
