//! The schemas that were read of texts.
ghost use Rattle.std.specs.Prelude.{◌≡◌, ℕ, List, Option, true, false, Some, None, IfOk, IfSome, IsSome, OnOk};
ghost use Rattle.std.specs.Option.{option_copied};
ghost use Rattle.st_schema.specs.Schema.{SchemaView};
ghost use Rattle.st_schema_texts.specs.Known.{known_of};
ghost use Rattle.st_schema_texts.specs.Reading.{IsSchemaOf};

use crate::text::read_schema;
use st_ids::{Copied, Text};
use st_schema::Schema;
use std::alloc::{AllocError, Global};
use std::collections::BTreeMap;
use std::marker::Model;

/// The schemas that were read, by their texts, so that each text is read once.
#[derive(Drop)]
pub struct KnownSchemas {
    schemas: BTreeMap<Text, Schema>,
}

impl Model for KnownSchemas {
    ghost use Rattle.std.specs.Prelude.{ℕ, List};
    ghost use Rattle.st_schema.specs.Schema.{SchemaView};
    ghost use Rattle.st_schema_texts.specs.Known.{AreRead};

    ghost Value = { List (List ℕ × SchemaView) };

    ghost view = { λ k. k.schemas.entries };

    ghost invariant = { λ k. AreRead k.schemas.entries };
}

impl KnownSchemas {
    /// None yet.
    pub fn new(alloc: Global) -> Self
        ensures { (text : List ℕ) → known_of result text ≡ None }
    {
        KnownSchemas {
            schemas: BTreeMap::new(alloc),
        }
    }

    /// The schema that is known of a text.
    pub fn get(&self, text: &Text) -> Option<&Schema>
        ensures known { option_copied result ≡ known_of self.now text.now }
        ensures schema { IfSome result (λ s. IsSchemaOf text.now (Some s.now)) }
    {
        self.schemas.get(text)
    }

    // Keeps the schema of a text that isn't known.
    fn keep(&mut self, text: Text, schema: Schema) -> Result<(), AllocError>
        requires schema { IsSchemaOf text (Some schema) }
        requires new { known_of self.old text ≡ None }
        ensures known { OnOk result (known_of self.new text ≡ Some schema) }
        ensures stays { OnOk result ((t : List ℕ) → IsSome (known_of self.old t) → known_of self.new t ≡ known_of self.old t) }
    {
        self.schemas.insert(text, schema)?;
        Ok(())
    }

    // Reads a text that isn't known.
    fn read(&mut self, alloc: Global, text: &Text) -> Result<bool, AllocError>
        requires new { known_of self.old text.now ≡ None }
        ensures some { IfOk result (λ b. b ≡ true → IsSome (known_of self.new text.now)) }
        ensures none { IfOk result (λ b. b ≡ false → IsSchemaOf text.now None) }
        ensures stays { OnOk result ((t : List ℕ) → IsSome (known_of self.old t) → known_of self.new t ≡ known_of self.old t) }
    {
        let Some(schema) = read_schema(alloc, text)? else {
            return Ok(false);
        };
        let name = text.copy(alloc)?;
        self.keep(name, schema)?;
        Ok(true)
    }

    /// Whether a text is that of a schema, which is known from then on.
    pub fn learn(&mut self, alloc: Global, text: &Text) -> Result<bool, AllocError>
        ensures some { IfOk result (λ b. b ≡ true → IsSome (known_of self.new text.now)) }
        ensures none { IfOk result (λ b. b ≡ false → IsSchemaOf text.now None) }
        ensures stays { OnOk result ((t : List ℕ) → IsSome (known_of self.old t) → known_of self.new t ≡ known_of self.old t) }
    {
        if self.get(text).is_some() {
            Ok(true)
        } else {
            self.read(alloc, text)
        }
    }

    /// The schema of a text, read where it isn't known yet.
    pub fn schema_of(&mut self, alloc: Global, text: &Text) -> Result<Option<&Schema>, AllocError>
        ensures { IfOk result (λ o. IsSchemaOf text.now (option_copied o)) }
    {
        if self.learn(alloc, text)? {
            Ok(self.get(text))
        } else {
            Ok(None)
        }
    }
}
