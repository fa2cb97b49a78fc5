//! Laws of relations: each is the contract of a function that does nothing.
ghost use Rattle.std.specs.Prelude.{◌≡◌, ℕ, List, true, Option, Result, Ok};
ghost use Rattle.st_tree.specs.Node.{Node};
ghost use Rattle.st_schema.specs.Schema.{SchemaView, is_sound};
ghost use Rattle.st_schema.specs.Conforms.{conforms};
ghost use Rattle.st_schema.specs.Wider.{wider_of};
ghost use Rattle.st_compat.specs.Compared.{IsCompared};
ghost use Rattle.st_compat.specs.Relation.{AreEqual, IsRelation, Reads, is_readable};
ghost use Rattle.st_compat.specs.declared.compare.BadSchema.{BadSchema};
ghost use Rattle.st_compat.specs.declared.relation.Relation.{Relation};

/// Where a view reads what is stored, it allows each tree that the stored schema allows as a whole
/// document.
pub fn reads_allows()
    ensures { (stored view : SchemaView) (t : Node) → Reads stored view → conforms stored stored.root t ≡ true → conforms view view.root t ≡ true }
{}

/// An equal view reads what is stored.
pub fn equal_reads()
    ensures { (stored view : SchemaView) → AreEqual stored view → Reads stored view }
{}

/// A wider view reads what is stored.
pub fn wider_reads()
    ensures { (stored view : SchemaView) → wider_of stored view ≡ Ok tt → Reads stored view }
{}

/// Where the relation is not `Refuse` the view reads what is stored.
pub fn related_reads()
    ensures { (stored view : SchemaView) (r : Relation) → IsRelation stored view r → is_readable r ≡ true → Reads stored view }
{}

/// Each two schemas have a relation.
pub fn each_pair_is_related()
    ensures { (stored view : SchemaView) → is_sound stored ≡ true → is_sound view ≡ true → (r : Relation) × IsRelation stored view r }
{}

/// Each two lines, there or missing, come to a relation or to a line that is no schema.
pub fn each_two_lines_are_compared()
    ensures { (stored view : Option (List ℕ)) → (r : Result (List ℕ) BadSchema) × IsCompared stored view r }
{}
