// Laws of indexes over records: functions that do nothing, whose clauses are theorems. They are for
// callers' proofs; no code calls them.
ghost use Rattle.std.specs.Prelude.{◌≡◌, ◌<◌, ◌^◌, ◌∷◌, List, pos, ℕ};
ghost use Rattle.tuple_codec.specs.Item.{Item, int};
ghost use Rattle.tuple_codec.specs.Subspace.{BeginsWith, subspace_key};
ghost use Rattle.metadata.specs.declared.index.IndexDefinition.{IndexDefinition};
ghost use Rattle.metadata.specs.Record.{Record, primary_key};
ghost use Rattle.metadata.specs.Records.{IsStorable};
ghost use Rattle.index_maint.specs.Entries.{entry_of};
ghost use Rattle.index_maint.specs.KeptLaws.{BuildEnds, BuildStarts, BuildSteps, BuildWithin};
ghost use Rattle.index_maint.specs.KeptLaws.{KeptFollows, KeptIgnoresOthers, KeptOfAlike, KeptOfPositions};
ghost use Rattle.index_maint.specs.KeptLaws.{KeptOnlyChanges, KeptWithin, KeptWritesWithin};
ghost use Rattle.index_maint.specs.Layout.{entries_prefix, entry_key};
ghost use Rattle.index_maint.specs.Parts.{FirstParts};

/// Records whose entries in an index have one key have one primary key.
pub fn entries_tell_records()
    ensures { (prefix : List ℕ) (index : IndexDefinition) (r s : Record) → IsStorable r → IsStorable s
        → entry_key prefix index.number (entry_of index r) ≡ entry_key prefix index.number (entry_of index s)
        → primary_key r ≡ primary_key s }
{}

/// A key under a store's prefix stands in one place alone: under one number, and among the entries of one index.
pub fn places_are_apart()
    ensures places { (prefix key : List ℕ) (m n : ℕ) (ms ns : List Item) → m < 2 ^ 64 → n < 2 ^ 64
        → BeginsWith (subspace_key prefix (int (pos m) ∷ ms)) key
        → BeginsWith (subspace_key prefix (int (pos n) ∷ ns)) key → m ≡ n }
    ensures indexes { (prefix key : List ℕ) (i j : ℕ) → i < 2 ^ 64 → j < 2 ^ 64
        → BeginsWith (entries_prefix prefix i) key → BeginsWith (entries_prefix prefix j) key → i ≡ j }
{}

/// An index of whatever kind and in whatever state follows its records: where a map has it over the
/// records, it has it over those with the new one in the old one's place once `push_kept_changes`
/// is written, and only what changes is written. A record of another type needs no writes. The
/// writes leave each key that doesn't begin with the index's prefix as it was, and what a map has
/// at such keys doesn't matter, nor does it how the built positions are divided into ranges. Records
/// with nulls in fields that were appended to their type are the same to it as those without.
pub fn kept_indexes_follow()
    ensures follows { KeptFollows }
    ensures only_changes { KeptOnlyChanges }
    ensures ignores_others { KeptIgnoresOthers }
    ensures writes_within { KeptWritesWithin }
    ensures has_within { KeptWithin }
    ensures of_positions { KeptOfPositions }
    ensures of_alike { KeptOfAlike }
{}

/// An index is built range by range: it starts as a write-only one of which nothing is built; where
/// none of a range's positions is built, all of them are once `push_build` is written for the
/// records there; and where every position is built, it has what a readable one has. The writes
/// leave each key that doesn't begin with the index's prefix as it was. The part of a gap up to
/// behind so many records of the type has just these records of it.
pub fn indexes_are_built()
    ensures starts { BuildStarts }
    ensures steps { BuildSteps }
    ensures ends { BuildEnds }
    ensures within { BuildWithin }
    ensures parts { FirstParts }
{}
