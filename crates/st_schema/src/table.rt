//! The table of definitions, in order.
ghost use Rattle.std.specs.Prelude.{◌≡◌, ◌++◌, ◌∷◌, [], true, false, is_some, not, None, IfOk, OnOk};
ghost use Rattle.st_schema.specs.Schema.{form_of, is_distinct, type_names};
ghost use Rattle.st_ids.specs.Or.{IfRefused};

use crate::names::Form;
use indexmap::IndexMap;
use st_ids::{Copied, List, Or, Text};
use st_json::Shape;
use std::alloc::{AllocError, Global};

/// A defined type: its name and its form.
pub(crate) type Definition = (Text, Form);

// Puts a definition at the end, unless its name is taken. Says whether it was.
#[tactic(auto, using(crate::proofs::Known::put_new))]
fn is_taken(types: &mut IndexMap<Text, Form>, name: Text, form: Form) -> Result<bool, AllocError>
    ensures taken { IfOk result (λ b. b ≡ is_some (form_of types.old.entries name)) }
    ensures put { IfOk result (λ b. b ≡ false → types.new.entries ≡ types.old.entries ++ (name, form) ∷ []) }
{
    let before = types.insert(name, form)?;
    Ok(before.is_some())
}

// The table of these definitions. Refused where two have one name.
#[tactic(auto, using(crate::proofs::Known::known_found, crate::proofs::Known::distinct_more, crate::proofs::Known::distinct_fails))]
pub(crate) fn table_of(
    alloc: Global,
    definitions: List<Definition>,
) -> Result<IndexMap<Text, Form>, Or<Shape>>
    ensures ok { IfOk result (λ m. m.entries ≡ definitions) }
    ensures distinct { OnOk result (is_distinct (type_names definitions) ≡ true) }
    ensures bad { IfRefused result (λ _. is_distinct (type_names definitions) ≡ false) }
{
    let mut types = IndexMap::new(alloc);
    for (name, form) in definitions.into_vec() {
        if is_taken(&mut types, name, form)? {
            return Err(Or::Fault(Shape));
        }
    }
    Ok(types)
}

// Copies of the definitions of a table, in order.
fn copy_definitions(
    alloc: Global,
    types: &IndexMap<Text, Form>,
) -> Result<List<Definition>, AllocError>
    ensures { IfOk result (λ ds. ds ≡ types.now.entries) }
{
    let mut definitions = List::new(alloc);
    for (name, form) in types.iter() {
        definitions.push((name.copy(alloc)?, form.copy(alloc)?))?;
    }
    Ok(definitions)
}

// A copy of a table.
pub(crate) fn copy_table(
    alloc: Global,
    types: &IndexMap<Text, Form>,
) -> Result<IndexMap<Text, Form>, AllocError>
    requires { is_distinct (type_names types.now.entries) ≡ true }
    ensures { IfOk result (λ m. m.entries ≡ types.now.entries) }
{
    match table_of(alloc, copy_definitions(alloc, types)?) {
        Ok(copy) => Ok(copy),
        Err(Or::NoMemory) => Err(AllocError),
        Err(Or::Fault(_)) => unreachable!(),
    }
}
