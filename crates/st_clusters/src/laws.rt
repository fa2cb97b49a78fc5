//! Laws of the table, over its definition.
ghost use Rattle.std.specs.Prelude.{◌≡◌, ◌↔◌, ◌⊎◌, ◌<◌, ◌≤◌, ◌^◌, ℕ, ℤ, Ok, Some, List as Seq, [], ◌∷◌, ◌++◌, length};
ghost use Rattle.st_clusters.specs.Log.{AreInTurn, IsTableOf, carried_count};
ghost use Rattle.st_clusters.specs.Names.{IsFinal, IsFinalBefore, IsOp, stable_of};
ghost use Rattle.st_clusters.specs.Reached.{IsReached, no_ids};
ghost use Rattle.st_ids.specs.Root.{opening};
ghost use Rattle.st_clusters.specs.Table.{Ids, after_finalising, after_generating, after_joining, after_rewinding, after_taking, table_of, with_range};
ghost use Rattle.st_clusters.specs.declared.ids.Cluster.{Cluster as Clusters};
ghost use Rattle.st_clusters.specs.declared.ids.IdRange.{IdRange as Range};
ghost use Rattle.st_ids.specs.declared.names.Rev.{Rev as RevNames};

use crate::compressor::Compressor;

/// The law that a table stays that of the ranges finalised in it, in their order, whatever sessions
/// join and whatever ids are generated, taken and given back between them; and that the ranges in
/// their order tell the final numbers: two such tables of the same ranges have the same.
pub fn tables_go_on()
    ensures begins { IsTableOf [] no_ids }
    ensures joins { (rs : Seq Range) (u n : ℕ) (t v : Ids) → IsTableOf rs t
        → after_joining u t ≡ Ok (n, v) → IsTableOf rs v }
    ensures generates { (rs : Seq Range) (s n : ℕ) (t v : Ids) → IsTableOf rs t
        → after_generating s t ≡ Ok (n, v) → IsTableOf rs v }
    ensures takes { (rs : Seq Range) (s : ℕ) (r : Range) (t v : Ids) → IsTableOf rs t
        → after_taking s t ≡ Ok (r, v) → IsTableOf rs v }
    ensures rewinds { (rs : Seq Range) (s : ℕ) (t v : Ids) → IsTableOf rs t
        → after_rewinding s t ≡ Ok v → IsTableOf rs v }
    ensures finalises { (rs : Seq Range) (r : Range) (t v : Ids) → IsTableOf rs t
        → after_finalising r t ≡ Ok v → IsTableOf (rs ++ r ∷ []) v }
    ensures one { (rs : Seq Range) (t v : Ids) → IsTableOf rs t → IsTableOf rs v
        → t.clusters ≡ v.clusters }
{}

/// The law that a table to which calls lead is led on by each further call, while there are at most
/// 65,535 sessions and each UUID has 128 bits.
pub fn reached_tables_go_on()
    ensures begins { IsReached no_ids }
    ensures joins { (u n : ℕ) (t v : Ids) → IsReached t → length t.sessions < 65535 → u < 2 ^ 128
        → after_joining u t ≡ Ok (n, v) → IsReached v }
    ensures generates { (s n : ℕ) (t v : Ids) → IsReached t → after_generating s t ≡ Ok (n, v)
        → IsReached v }
    ensures takes { (s : ℕ) (r : Range) (t v : Ids) → IsReached t → after_taking s t ≡ Ok (r, v)
        → IsReached v }
    ensures rewinds { (s : ℕ) (t v : Ids) → IsReached t → after_rewinding s t ≡ Ok v
        → IsReached v }
    ensures finalises { (r : Range) (t v : Ids) → IsReached t → after_finalising r t ≡ Ok v
        → IsReached v }
{}

/// The law that the ranges of a log, each of which goes on where the last one of its session
/// ended, give no two ids one final number.
pub fn final_numbers_are_distinct()
    ensures { (rs : Seq Range) → AreInTurn rs → (r s : RevNames) (n : ℕ)
        → IsFinal (table_of rs) r n → IsFinal (table_of rs) s n → r ≡ s }
{}

/// The law that such ranges give a final number to each id that they carry, and to no other but the
/// opening.
pub fn carried_ids_have_numbers()
    ensures each { (rs : Seq Range) → AreInTurn rs → (r : RevNames) → 1 ≤ r.num
        → r.num ≤ carried_count r.session rs → (n : ℕ) × IsFinal (table_of rs) r n }
    ensures only { (rs : Seq Range) → AreInTurn rs → (r : RevNames) (n : ℕ)
        → IsFinal (table_of rs) r n → (r ≡ opening) ⊎ ((1 ≤ r.num)
        × (r.num ≤ carried_count r.session rs)) }
{}

/// The law that a further range leaves each final number as it is.
pub fn final_numbers_stay()
    ensures step { (rs : Seq Range) (q : Range) → table_of (rs ++ q ∷ [])
        ≡ with_range q (table_of rs) }
    ensures stays { (q : Range) (cs : Seq Clusters) (r : RevNames) (n : ℕ) → IsFinal cs r n
        → IsFinal (with_range q cs) r n }
{}

/// The law that the table without the ids of later ranges is the table before these ranges.
pub fn table_is_as_it_was()
    ensures { (rs later : Seq Range) → AreInTurn (rs ++ later) → (r : RevNames) (n : ℕ)
        → IsFinal (table_of rs) r n ↔ IsFinalBefore (table_of (rs ++ later)) later r n }
{}

impl Compressor {
    ghost use Rattle.st_clusters.specs.Ids.{ids_of};

    /// The law that no two ids have one final number, one op-space number or one stable id, also
    /// where the ids of some ranges count as not finalised.
    pub fn names_are_distinct(&self)
        ensures number { (r s : RevNames) (n : ℕ) → IsFinal (ids_of self.now).clusters r n
            → IsFinal (ids_of self.now).clusters s n → r ≡ s }
        ensures op { (later : Seq Range) (own have : ℕ) (r s : RevNames) (z : ℤ)
            → IsOp (ids_of self.now).clusters later own have r z
            → IsOp (ids_of self.now).clusters later own have s z → r ≡ s }
        ensures stable { (r s : RevNames) (u : ℕ) → stable_of (ids_of self.now).sessions r
            ≡ Some u → stable_of (ids_of self.now).sessions s ≡ Some u → r ≡ s }
    {
        let _ = &self.sessions;
    }
}
