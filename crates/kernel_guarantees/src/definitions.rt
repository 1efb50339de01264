//! The values that definitions compute, each as the one that has a property.
ghost use Rattle.std.specs.Prelude.{◌≡◌, ℕ, ◌+◌, List, length, ◌++◌, Contains, Some, None, true, false};
ghost use Rattle.osek_values.specs.{declared.numbers.{SourceNo.{SourceNo}, TaskNo.{TaskNo}}, Line.{place_in_line, without_first}, Numbers.{source_no, task_no}};
ghost use Rattle.osek_standard.specs.{declared.{app.App.{App}, state.State.{State}}, Priority.{current_priority}, Levels.{level, next_routine}};
ghost use Rattle.osek_standard.specs.{States.{is_in, source_state}};
ghost use Rattle.kernel_guarantees.specs.Properties.{GoesOn, HasNoPlace, IsCurrentPriority, IsLevel, IsParted};

/// A task's current priority is the greatest of its own and of the ceilings of what it has.
pub fn current_priority_is_the_greatest()
    ensures is { (app : App) (s : State) (t : ℕ) → IsCurrentPriority app s t (current_priority app s t) }
    ensures found { (app : App) (s : State) (t n : ℕ) → IsCurrentPriority app s t n → n ≡ current_priority app s t }
{}

/// The interrupt level is the greatest of what keeps routines out, or 0 where there is none.
pub fn level_is_the_greatest()
    ensures is { (app : App) (s : State) → IsLevel app s (level app s) }
    ensures found { (app : App) (s : State) (n : ℕ) → IsLevel app s n → n ≡ level app s }
{}

/// Where a routine ends, the one that goes on is the one that each other one comes behind, and there is none where none is in.
pub fn routine_that_goes_on_has_the_property()
    ensures is { (app : App) (s : State) (k : SourceNo) → next_routine app s ≡ Some k → GoesOn app s k.0 }
    ensures found { (app : App) (s : State) (k : ℕ) → GoesOn app s k → next_routine app s ≡ Some (source_no k) }
    ensures none { (app : App) (s : State) → next_routine app s ≡ None → (k : ℕ) → is_in (source_state s k) ≡ false }
    ensures only_where_none { (app : App) (s : State) → ((k : ℕ) → is_in (source_state s k) ≡ false) → next_routine app s ≡ None }
{}

/// The first place of a task parts the line: its number is the length of what is before, and without it the two parts are left.
pub fn first_place_parts_the_line()
    ensures place { (line before behind : List TaskNo) (t : ℕ) → IsParted line t before behind → place_in_line line t ≡ length before }
    ensures without { (line before behind : List TaskNo) (t : ℕ) → IsParted line t before behind → without_first line t ≡ before ++ behind }
    // a task that has a place has a first one
    ensures some { (line : List TaskNo) (t : ℕ) → Contains line (task_no t) → (before : List TaskNo) × (behind : List TaskNo) × IsParted line t before behind }
    // and tasks that have none come behind all places, by number
    ensures none { (line : List TaskNo) (t : ℕ) → HasNoPlace line t → place_in_line line t ≡ length line + t }
    ensures none_is_lost { (line : List TaskNo) (t : ℕ) → HasNoPlace line t → without_first line t ≡ line }
{}
