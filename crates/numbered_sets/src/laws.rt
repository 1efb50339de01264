//! Laws over the definitions, each on a function that does nothing.
ghost use Rattle.std.specs.Prelude.{◌≡◌, ◌≢◌, ◌||◌, ◌<◌, ◌^◌, ℕ, List, length, map, slice_set, All};
ghost use Rattle.abstract_state.specs.{declared.{table.PlainEntry.{PlainEntry}, value.PartValue.{PartValue}}, ValueOrder.{same_part}};
ghost use Rattle.abstract_state.specs.{Domains.{domains, entry_height, IsSoundEntry, IsBelow}, Tables.{set_at, is_member, entry_values, IsJoin, IsPartOfJoin, IsSetBySet}};
ghost use Rattle.numbered_sets.specs.{declared.numbered_entry.NumberedEntry.{NumberedEntry}, Numbers.{numbers, with_number}};
ghost use Rattle.numbered_sets.specs.NumberedEntries.{numbers_at, number_domains, entry_numbers, numbers_height, AreSoundNumbers, IsBelowNumbers, IsNumberJoin, IsPartOfNumberJoin};
ghost use Rattle.numbered_sets.specs.{Pools.{Values, value_seen, seen_at, values_at, pool_domains, AreValues, IsNumberOf, IsLonger}, Views.{plain_entry, AreNumbersOf}};

/// A pool that grew means the same of every entry whose numbers it had; and it grows by each value that it numbers.
pub fn a_longer_pool_means_the_same()
    ensures entries { (pool after : List Values) (entry : NumberedEntry) → IsLonger pool after → AreNumbersOf pool entry → plain_entry after entry ≡ plain_entry pool entry }
    ensures known { (pool after : List Values) (entry : NumberedEntry) → IsLonger pool after → AreNumbersOf pool entry → AreNumbersOf after entry }
    ensures grows { (pool : List Values) (c : ℕ) (v : PartValue) → c < length pool → IsLonger pool (slice_set pool c (value_seen (seen_at pool c) v)) }
{}

/// Numbered entries are in the order of the entries of their values.
pub fn numbers_are_in_the_order_of_values()
    ensures onward { (pool : List Values) (a b : NumberedEntry) → IsBelowNumbers a b → IsBelow (plain_entry pool a) (plain_entry pool b) }
    ensures back { (pool : List Values) (a b : NumberedEntry) → All AreValues pool → AreNumbersOf pool a → IsBelow (plain_entry pool a) (plain_entry pool b) → IsBelowNumbers a b }
{}
