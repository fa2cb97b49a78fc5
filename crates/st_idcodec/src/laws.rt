//! Laws of the texts of op-space names, and of tables.
ghost use Rattle.std.specs.Prelude.{◌≡◌, ◌<◌, ◌^◌, ℕ, ℤ, true, Some, Ok};
ghost use Rattle.st_clusters.specs.Free.{is_v4};
ghost use Rattle.st_clusters.specs.Ids.{IsOpAt};
ghost use Rattle.st_clusters.specs.Reached.{IsReached};
ghost use Rattle.st_clusters.specs.Table.{Ids, after_joining, after_generating, after_taking, after_rewinding, after_finalising};
ghost use Rattle.st_clusters.specs.declared.ids.IdRange.{IdRange as Range};
ghost use Rattle.st_ids.specs.declared.names.Rev.{Rev as RevNames};
ghost use Rattle.st_idcodec.specs.OpText.{rev_data, atom_data, rev_number, atom_numbers, IsShort};
ghost use Rattle.st_idcodec.specs.TableText.{table_data, uuid_text};
ghost use Rattle.st_idcodec.specs.Tables.{IsTable, AreSettled, only_final};
ghost use Rattle.st_idcodec.specs.Uuids.{uuid_read};

use st_clusters::At;

/// The law that what is written for a number, or for a number and a place, is read as these.
pub fn names_are_read_back()
    ensures revs { (z : ℤ) → IsShort z → rev_number (rev_data z) ≡ Some z }
    ensures atoms { (z : ℤ) (n : ℕ) → IsShort z → n < 2 ^ 32
        → atom_numbers (atom_data z n) ≡ Some (z, n) }
{}

/// The law that the value of an id, or of an atom, as the author of a message wrote it, is read there
/// as no other.
pub fn ops_are_read_back(at: &At)
    ensures revs { (r s : RevNames) (z w : ℤ) → IsOpAt at.now r z → rev_number (rev_data z) ≡ Some w
        → IsOpAt at.now s w → s ≡ r }
    ensures atoms { (r s : RevNames) (z w : ℤ) (n m : ℕ) → IsOpAt at.now r z
        → atom_numbers (atom_data z n) ≡ Some (w, m) → IsOpAt at.now s w → (s ≡ r) × (m ≡ n) }
{
    at.ids.names_are_distinct();
}

/// The law that the text of a UUID of version 4 is read as that UUID.
pub fn uuids_are_read_back()
    ensures { (u : ℕ) → u < 2 ^ 128 → is_v4 u ≡ true → uuid_read (uuid_text u) ≡ Some u }
{}

/// The law that what is written for a table is written for no other, and that each session of a
/// table has taken and generated the ids that are finalised, and no others.
pub fn tables_are_read_back()
    ensures one { (t u : Ids) → IsTable t → IsTable u → table_data t ≡ table_data u → t ≡ u }
    ensures settled { (t : Ids) → IsTable t → AreSettled t }
{}

/// The law that ids that aren't finalised change neither what is written for a table nor what it
/// becomes: each call does with the table of the finalised ids what it does with the whole, or
/// nothing. So what is written for a table that any calls lead to is written for the table of its
/// finalised ids, as which it is read.
pub fn only_finalised_ids_are_written()
    ensures reached { (t : Ids) → IsReached t → IsTable (only_final t) }
    ensures value { (t : Ids) → table_data (only_final t) ≡ table_data t }
    ensures joins { (u n : ℕ) (t v : Ids) → after_joining u t ≡ Ok (n, v)
        → after_joining u (only_final t) ≡ Ok (n, only_final v) }
    ensures generates { (s n : ℕ) (t v : Ids) → after_generating s t ≡ Ok (n, v)
        → only_final v ≡ only_final t }
    ensures takes { (s : ℕ) (r : Range) (t v : Ids) → after_taking s t ≡ Ok (r, v)
        → only_final v ≡ only_final t }
    ensures rewinds { (s : ℕ) (t v : Ids) → after_rewinding s t ≡ Ok v
        → only_final v ≡ only_final t }
    ensures finalises { (r : Range) (t v : Ids) → after_finalising r t ≡ Ok v
        → after_finalising r (only_final t) ≡ Ok (only_final v) }
{}
