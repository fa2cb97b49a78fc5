//! Laws of schemas in effect and of their texts: each is the contract of a function that does nothing.
ghost use Rattle.std.specs.Prelude.{◌≡◌, ℕ, List, Option};
ghost use Rattle.st_ids.specs.declared.names.Rev.{Rev};
ghost use Rattle.st_schema.specs.Schema.{SchemaView};
ghost use Rattle.st_edits.specs.Keeping.{IsUpTo};
ghost use Rattle.st_schema_texts.specs.Reading.{IsSchemaOf};

/// The schemas up to one are one list.
#[tactic(auto, using(crate::proofs::Once::front_once))]
pub fn one_front()
    ensures { (u : Rev) (rs f g : List Rev) → IsUpTo u rs f → IsUpTo u rs g → f ≡ g }
{}

/// A text is that of one schema, or of none.
#[tactic(auto, using(crate::proofs::Once::schema_once))]
pub fn one_schema()
    ensures { (text : List ℕ) (o p : Option SchemaView) → IsSchemaOf text o → IsSchemaOf text p → o ≡ p }
{}
