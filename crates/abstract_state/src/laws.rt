//! Laws over the definitions, each on a function that does nothing.
ghost use Rattle.std.specs.{Prelude.{◌≡◌, ◌↔◌, ℕ, ◌<◌, ◌≤◌, Bool, List, length, IsTrue}, Cmp.{IsTotalOrder}, List.{IsDistinct}, declared.cmp.Ordering.TheVariants.{Equal}};
ghost use Rattle.osek_values.specs.declared.{event.Event.{Event}, numbers.BlockNo.{BlockNo}, status.Status.{Status}};
ghost use Rattle.std.specs.declared.option.Option.{Option};
ghost use Rattle.osek_standard.specs.{declared.{app.App.{App}, state.State.{State}}, Dispatch.{Outcome}, Kernel.{step}, Apps.{the_block, the_counter, source_count, max_of}};
ghost use Rattle.osek_standard.specs.Well.{Well, IsOffsetAt, IsArmed};
ghost use Rattle.osek_standard.specs.declared.point.Point.{Point};
ghost use Rattle.abstract_state.specs.declared.{table.{ValueSet.{ValueSet}, PlainEntry.{PlainEntry}, PlainTable.{PlainTable}}, value.Component.{Component}};
ghost use Rattle.abstract_state.specs.declared.value.{LiveVal.{LiveVal}, RoutineVal.{RoutineVal}, Val.TheVariants.{Live}, PartValue.{PartValue, TheVariants.{OfTask, OfSource}}};
ghost use Rattle.abstract_state.specs.declared.value.SourceVal.TheVariants as source_val;
ghost use Rattle.osek_standard.specs.Points.{point_of, IsPoint, StandsAt};
ghost use Rattle.abstract_state.specs.Components.{component_at, component_count, component_number, abstract_of, IsAllowed, IsComponent};
ghost use Rattle.abstract_state.specs.Concrete.{Free, IsFree, AreAllowed, HasParts, state_of, value_of_source};
ghost use Rattle.abstract_state.specs.Choices.{with_latches, with_offset, with_routine_offset, with_arming, with_counter, with_first, IsQuietState, IsQuietAt, IsQuietWith, IsLatchedAlone};
ghost use Rattle.abstract_state.specs.{Alike.{IsAlike}, Regular.{IsRegular}};
ghost use Rattle.abstract_state.specs.Tables.{Sets, In, Inductive, IsContained, Least, meet, full, IsSubset, IsJoin, IsPartOfJoin, IsSetBySet, set_at, sets_of, HasRow, HasValue};
ghost use Rattle.abstract_state.specs.{ValueOrder.{same_part, part_order, IsAscending}, Domains.{domains, IsSound, IsSoundEntry, IsBelow}};
ghost use Rattle.osek_standard.specs.Outcomes.{Silent, Arrived, Did, shows, IsInstruction, IsArrivalStep};
ghost use Rattle.abstract_state.specs.Edges.{Edge};

/// Containment is a partial order.
pub fn containment_is_a_partial_order()
    ensures itself { (a : Sets) → IsContained a a }
    ensures onward { (a b c : Sets) → IsContained a b → IsContained b c → IsContained a c }
    ensures equal { (a b : Sets) → IsContained a b → IsContained b a → a ≡ b }
{}

/// What two tables have in common is inductive where both are; a state is in it exactly where it is in both, and it is
/// the greatest table that both contain.
pub fn the_meet_is_inductive()
    ensures inductive { (app : App) (a b : Sets) → Inductive app a → Inductive app b → Inductive app (meet a b) }
    ensures states { (app : App) (a b : Sets) (s : State) → In app (meet a b) s ↔ (In app a s × In app b s) }
    ensures left { (a b : Sets) → IsContained (meet a b) a }
    ensures right { (a b : Sets) → IsContained (meet a b) b }
    ensures greatest { (a b c : Sets) → IsContained c a → IsContained c b → IsContained c (meet a b) }
{}

/// The table of everything is inductive, with each well-formed and regular state in it.
pub fn the_full_table_is_inductive()
    ensures inductive { (app : App) → Inductive app full }
    ensures states { (app : App) (s : State) → Well app s → IsRegular app s → In app full s }
{}

/// At most one table is least.
pub fn one_table_is_least()
    ensures { (app : App) (a b : Sets) → Least app a → Least app b → a ≡ b }
{}

/// A larger table has more states in it.
pub fn states_stay_in_larger_tables()
    ensures { (app : App) (a b : Sets) (s : State) → IsContained a b → In app a s → In app b s }
{}

/// Whether a well-formed state is in a table is seen from its point and its components alone: mode, counter values,
/// latches, offsets, due times and cycles are free.
pub fn alike_states_are_in_together()
    ensures components { (app : App) (table : Sets) (s u : State) → Well app u → IsRegular app u → point_of s ≡ point_of u → ((c : ℕ) → c < component_count app → abstract_of app s c ≡ abstract_of app u c) → In app table s → In app table u }
    ensures free { (app : App) (table : Sets) (s u : State) → Well app u → IsAlike s u → In app table s → In app table u }
{}

/// A well-formed state stands at a point of the application, and each component of it, where the right tasks are inside, is
/// what it can be there.
pub fn well_formed_states_have_allowed_parts()
    ensures point { (app : App) (s : State) → Well app s → IsPoint app (point_of s) }
    ensures parts { (app : App) (s : State) → Well app s → IsRegular app s → (c : ℕ) → c < component_count app → IsAllowed app (point_of s) c (abstract_of app s c) }
{}

/// Values that the components can have at a point, one each, are those of a well-formed state there, whatever choice of
/// the rest well-formedness allows; and it allows one.
pub fn allowed_parts_make_a_state()
    ensures state { (app : App) (p : Point) (value : ℕ → PartValue) (free : Free) → AreAllowed app p value → IsFree app p value free → HasParts app p value (state_of app p value free) }
    ensures choice { (app : App) (p : Point) (value : ℕ → PartValue) → IsPoint app p → AreAllowed app p value → (free : Free) × IsFree app p value free }
{}

/// A written table says what stands in its rows.
pub fn a_written_table_says_its_rows()
    ensures entry { (table : PlainTable) (p : Point) → IsTrue ((sets_of table).entry p) ↔ HasRow table p }
    ensures has { (table : PlainTable) (p : Point) (c : ℕ) (v : PartValue) → IsTrue ((sets_of table).has p c v) ↔ HasValue table p c v }
{}

/// The order of values is total, and ties no two.
pub fn values_are_in_a_total_order()
    ensures total { IsTotalOrder part_order }
    ensures ties { (v w : PartValue) → part_order v w ≡ Equal → v ≡ w }
{}

/// The join of two sets is one, the least above both, with no value twice; a join that stopped lies between; where it
/// has no more values it is the first set.
pub fn the_join_is_the_least_set_above_both()
    ensures one { (a b x y : ValueSet) → IsJoin a b x → IsJoin a b y → x ≡ y }
    ensures left { (a b x : ValueSet) → IsJoin a b x → IsSubset a x }
    ensures right { (a b x : ValueSet) → IsJoin a b x → IsSubset b x }
    ensures least { (a b x c : ValueSet) → IsJoin a b x → IsSubset a c → IsSubset b c → IsSubset x c }
    ensures before { (a b p : ValueSet) → IsPartOfJoin a b p → IsSubset a p }
    ensures after { (a b p x : ValueSet) → IsPartOfJoin a b p → IsJoin a b x → IsSubset p x }
    ensures same { (a b x : ValueSet) → IsAscending a.members → IsJoin a b x → length x.members ≡ length a.members → x ≡ a }
    ensures distinct { (a b x : ValueSet) → IsJoin a b x → IsDistinct same_part x.members }
{}

/// Entries join set by set, and where a join stopped each set lies between what it was and the join.
pub fn entries_join_set_by_set()
    ensures one { (a b x y : PlainEntry) → IsSetBySet IsJoin a b x → IsSetBySet IsJoin a b y → x ≡ y }
    ensures before { (a b p : PlainEntry) (c : ℕ) → IsSetBySet IsPartOfJoin a b p → IsSubset (set_at a c) (set_at p c) }
    ensures after { (a b p x : PlainEntry) (c : ℕ) → IsSetBySet IsPartOfJoin a b p → IsSetBySet IsJoin a b x → IsSubset (set_at p c) (set_at x c) }
{}

/// A step does what it shows: an instruction with this outcome and status, the begin of a routine, or nothing that a
/// table keeps.
pub fn a_step_does_what_it_shows()
    ensures did { (app : App) (s : State) (e : Event) (o : Outcome) (x : Option Status) → shows app s e ≡ Did o x → IsInstruction app s e o x }
    ensures arrived { (app : App) (s : State) (e : Event) → shows app s e ≡ Arrived → IsArrivalStep app s e }
    ensures silent { (app : App) (s : State) (e : Event) → shows app s e ≡ Silent → IsAlike s (step app s e).state }
{}

/// An edge begins at a point with an entry, and ends at one where the table is inductive.
pub fn edges_lead_from_entry_to_entry()
    ensures begins { (app : App) (table : Sets) (p q : Point) → Edge app table p q → IsTrue (table.entry p) }
    ensures ends { (app : App) (table : Sets) (p q : Point) → Inductive app table → Edge app table p q → IsTrue (table.entry q) }
{}

/// A sound set has no more members than one that contains it, and where it has as many both have the same values;
/// joins of sound sets are sound.
pub fn sound_sets_grow_by_their_members()
    ensures fewer { (a b : ValueSet) → IsSound a → IsSubset a b → length a.members ≤ length b.members }
    ensures same { (a b : ValueSet) → IsSound a → IsSound b → IsSubset a b → length b.members ≤ length a.members → IsSubset b a }
    ensures joins { (a b x : ValueSet) → IsSound a → IsSound b → a.domain ≡ b.domain → IsJoin a b x → IsSound x }
{}

/// Sound sets of one domain with the same values are equal, and so are sound entries below one another.
pub fn sound_sets_are_their_values()
    ensures sets { (a b : ValueSet) → IsSound a → IsSound b → a.domain ≡ b.domain → IsSubset a b → IsSubset b a → a ≡ b }
    ensures entries { (a b : PlainEntry) → IsSoundEntry a → IsSoundEntry b → domains a ≡ domains b → IsBelow a b → IsBelow b a → a ≡ b }
{}

/// Each component stands at its number.
pub fn components_stand_at_their_numbers()
    ensures here { (app : App) (k : Component) → IsComponent app k → component_at app (component_number app k) ≡ k }
    ensures known { (app : App) (k : Component) → IsComponent app k → component_number app k < component_count app }
{}

/// What a table doesn't keep may be chosen, each part by itself within what well-formedness allows.
pub fn all_else_may_be_chosen()
    ensures latches { (app : App) (p : Point) (value : ℕ → PartValue) (free : Free) → IsFree app p value free → (latched : List Bool) → length latched ≡ source_count app → IsFree app p value (with_latches free latched) }
    ensures offset { (app : App) (p : Point) (value : ℕ → PartValue) (free : Free) → IsFree app p value free → (t o : ℕ) → ((x : LiveVal) → value t ≡ OfTask (Live x) → IsOffsetAt (the_block app x.block.0).kind o) → IsFree app p value (with_offset free t o) }
    ensures routine_offset { (app : App) (p : Point) (value : ℕ → PartValue) (free : Free) → IsFree app p value free → (k o : ℕ) → ((x : RoutineVal) → value_of_source app value k ≡ OfSource (source_val.In x) → IsOffsetAt (the_block app x.block.0).kind o) → IsFree app p value (with_routine_offset free k o) }
    ensures arming { (app : App) (p : Point) (value : ℕ → PartValue) (free : Free) → IsFree app p value free → (a at cycle : ℕ) → IsArmed app a at cycle → IsFree app p value (with_arming free a at cycle) }
    ensures counter { (app : App) (p : Point) (value : ℕ → PartValue) (free : Free) → IsFree app p value free → (c x : ℕ) → x ≤ (the_counter app c).max → IsFree app p value (with_counter free c x) }
    ensures first { (app : App) (p : Point) (value : ℕ → PartValue) (free : Free) → IsFree app p value free → (t : ℕ) → IsFree app p value (with_first free t) }
{}

/// Values that the components can have at a point are those of a state there in which no routine begins and a given task
/// comes first in the line if it stands there, also with the processor so far in its block, with an alarm's time, cycle and
/// counter as well-formedness allows, or of one in which the routine of a given source begins where one may.
pub fn states_are_found_where_they_are_asked_for()
    ensures quiet { (app : App) (p : Point) (value : ℕ → PartValue) → IsPoint app p → AreAllowed app p value → (t : ℕ) → (s : State) × IsQuietState app p value t s }
    ensures at { (app : App) (p : Point) (value : ℕ → PartValue) → IsPoint app p → AreAllowed app p value → (t : ℕ) (b : BlockNo) (o : ℕ) → StandsAt p b → IsOffsetAt (the_block app b.0).kind o → (s : State) × IsQuietAt app p value t b o s }
    ensures armed { (app : App) (p : Point) (value : ℕ → PartValue) → IsPoint app p → AreAllowed app p value → (t a at cycle now : ℕ) → a < length app.alarms → IsArmed app a at cycle → now ≤ max_of app a → (s : State) × IsQuietWith app p value t a at cycle now s }
    ensures latched { (app : App) (p : Point) (value : ℕ → PartValue) → IsPoint app p → AreAllowed app p value → (k : ℕ) → k < source_count app → (s : State) × IsLatchedAlone app p value k s }
{}
