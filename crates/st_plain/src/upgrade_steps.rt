//! Making the schema wider.
ghost use Rattle.std.specs.Prelude.{◌≡◌, ◌+◌, ◌^◌, ◌<◌, Some, slice_get, IfOk, OnOk};
ghost use Rattle.st_script.specs.Header.{header_view};
ghost use Rattle.st_script.specs.Steps as act;
ghost use Rattle.st_lists.specs.Lines.{main_line};
ghost use Rattle.st_world.specs.World.{IsActOf, AtRefusal};
ghost use Rattle.st_plain.specs.Replicas.{IsSound};
ghost use Rattle.st_plain.specs.inside.Replicas.{IsSoundNext};
ghost use Rattle.st_lists.specs.declared.lists.Client.{Client as Present};

use crate::world::World;
use st_plain_schemas::{keep_upgrade, schema_of, upgrade};
use st_schema::Schema;
use st_script::{Answer, Refusal};
use std::alloc::{AllocError, Global};

impl World {
    // The client at a place makes the schema of its main line wider.
    pub(crate) fn upgrade(
        &mut self,
        alloc: Global,
        i: usize,
        schema: &Schema,
    ) -> Result<Answer, AllocError>
        requires sound { IsSound self.old }
        requires few { self.old.steps + 1 < 2 ^ 32 }
        ensures next { IfOk result (λ a. (c : Present) → slice_get self.old.lists.clients i ≡ Some c
            → IsActOf (header_view self.old.header) self.old.lists (act.upgrade schema.now) i c 0 (main_line c) self.new.lists a) }
        ensures sound { OnOk result (IsSoundNext self.new) }
        ensures steps { OnOk result (self.new.steps ≡ self.old.steps) }
        ensures header { OnOk result (self.new.header ≡ self.old.header) }
        ensures spent { self.new.spent ≡ self.old.spent }
        ensures refused { IfOk result (λ a. AtRefusal a (self.new ≡ self.old)) }
    {
        schema.is_kept();
        let Some(kept) = self.kept.get_mut(i) else {
            return Ok(Answer::No(Refusal::NoClient));
        };
        let Some(client) = self.lists.clients.get_mut(i) else {
            return Ok(Answer::No(Refusal::NoClient));
        };
        let Some(known) = schema_of(&self.schemas, &kept.main.doc) else {
            unreachable!()
        };
        let answer = upgrade(alloc, &known.schema, client, kept, schema)?;
        keep_upgrade(alloc, &mut self.schemas, &answer, schema)?;
        Ok(answer)
    }
}
