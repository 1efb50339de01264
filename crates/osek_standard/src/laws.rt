//! Laws of the definitions, each on a function that does nothing.
ghost use Rattle.std.specs.{Prelude.{◌≡◌, ◌≢◌, ◌⊎◌, ℕ, ◌<◌, Bool, Some, None, true, false, length, map}, List.Sorted.{IsStrictlySortedBy}, Ordering.{nat_cmp}};
ghost use Rattle.osek_values.specs.declared.{event.Event.{Event}, numbers.{BlockNo.{BlockNo}, ModeNo.{ModeNo}, SourceNo.{SourceNo}, TaskNo.{TaskNo}}};
ghost use Rattle.osek_values.specs.declared.limits.TheConstants.{MAX_LINE};
ghost use Rattle.osek_values.specs.Numbers.{task_no, source_no};
ghost use Rattle.osek_standard.specs.{declared.{app.App.{App}, state.State.{State}, point.Point.{Point}, task_state.Activity.TheVariants.{Waiting}}, Counts.{points}};
ghost use Rattle.osek_standard.specs.{Points.{ArePoints, IsPoint, StandsAt, point_number, points_in_order}, TaskStates.{is_live}, States.{task_state, is_latched, task_of}};
ghost use Rattle.osek_standard.specs.{Priority.{best, IsBest}, Effects.{effect}, Arrivals.{arrival, takes_none, IsArrival}, Kernel.{start, step}, Well.{Well}};
ghost use Rattle.osek_standard.specs.{Internal.{IsInside, kept}, Services.{is_full}, Dispatch.{instruction}, Apps.{source_priority}, Levels.{level}};
ghost use Rattle.osek_standard.specs.declared.point.Point.TheVariants as point;

/// The start in each mode is well-formed, and each effect and each event leads from a well-formed state to a
/// well-formed one.
pub fn states_stay_well_formed()
    ensures start { (app : App) (mode : ModeNo) → mode.0 < length app.modes → Well app (start app mode).state }
    ensures effect { (app : App) (s : State) (choice : Bool) → Well app s → Well app (effect app s choice).state }
    ensures step { (app : App) (s : State) (e : Event) → Well app s → Well app (step app s e).state }
{}

/// After the start in each mode, and from then on after each instruction and each event, the running or interrupted task
/// has its INTERNAL resource where it names one, and no task has one that it doesn't name.
pub fn the_right_tasks_are_inside()
    ensures start { (app : App) (mode : ModeNo) → mode.0 < length app.modes → IsInside app (start app mode).state }
    ensures instruction { (app : App) (s : State) (choice : Bool) → Well app s → IsInside app s → IsInside app (instruction app s choice).state }
    ensures step { (app : App) (s : State) (e : Event) → Well app s → IsInside app s → IsInside app (step app s e).state }
    // so a task that keeps the processor without a call of Schedule is as it was
    ensures kept { (app : App) (s : State) → IsInside app s → kept app s ≡ s }
{}

/// A state's line has room for what an effect or an outcome puts there: an activation that is accepted, a task that
/// waits, and the task that runs or is interrupted.
pub fn the_line_has_room()
    ensures to_activate { (app : App) (s : State) → Well app s → (t : ℕ) → t < length app.tasks → is_full app s t ≡ false → length s.line < MAX_LINE }
    ensures for_waiting { (app : App) (s : State) → Well app s → (t : ℕ) (b : BlockNo) → t < length app.tasks → (task_state s t).activity ≡ Waiting b → length s.line < MAX_LINE }
    ensures for_current { (app : App) (s : State) → Well app s → (t : TaskNo) → task_of s.processor ≡ Some t → length s.line < MAX_LINE }
{}

/// The best task is the one that has the property, and there is one exactly where a task is Live.
pub fn best_task_has_the_property()
    ensures is { (app : App) (s : State) (t : TaskNo) → best app s ≡ Some t → IsBest app s t.0 }
    ensures found { (app : App) (s : State) (t : ℕ) → IsBest app s t → best app s ≡ Some (task_no t) }
    ensures none { (app : App) (s : State) → best app s ≡ None → (t : ℕ) → is_live (task_state s t) ≡ false }
    ensures only_where_none { (app : App) (s : State) → ((t : ℕ) → is_live (task_state s t) ≡ false) → best app s ≡ None }
    ensures some { (app : App) (s : State) (u : ℕ) → is_live (task_state s u) ≡ true → (t : TaskNo) × IsBest app s t.0 }
{}

/// The source that arrives is the one that has the property, and there is none exactly where none is taken or each that
/// is latched is below the interrupt level.
pub fn arrival_has_the_property()
    ensures is { (app : App) (s : State) (k : SourceNo) → arrival app s ≡ Some k → IsArrival app s k.0 }
    ensures found { (app : App) (s : State) (k : ℕ) → IsArrival app s k → arrival app s ≡ Some (source_no k) }
    ensures none { (app : App) (s : State) → arrival app s ≡ None → (takes_none app s ≡ true) ⊎ ((k : ℕ) → is_latched s k ≡ true → source_priority app k < level app s) }
    ensures none_taken { (app : App) (s : State) → takes_none app s ≡ true → arrival app s ≡ None }
    ensures all_below { (app : App) (s : State) → ((k : ℕ) → is_latched s k ≡ true → source_priority app k < level app s) → arrival app s ≡ None }
    ensures none_latched { (app : App) (s : State) → ((k : ℕ) → is_latched s k ≡ false) → arrival app s ≡ None }
{}

/// The numbers of points: no two points of an application have one, and they order the points as their words say: halted,
/// idle, and then by block, a block's points over none first and then by the task below.
pub fn numbers_order_the_points()
    ensures one_each { (app : App) (p q : Point) → IsPoint app p → IsPoint app q → point_number p ≡ point_number q → p ≡ q }
    ensures halted_first { (p : Point) → p ≢ point.Halted → point_number point.Halted < point_number p }
    ensures idle_next { (p : Point) → p ≢ point.Halted → p ≢ point.Idle → point_number point.Idle < point_number p }
    ensures by_block { (app : App) (p q : Point) (b c : BlockNo) → IsPoint app p → IsPoint app q → StandsAt p b → StandsAt q c → b.0 < c.0 → point_number p < point_number q }
    ensures over_none_first { (b : BlockNo) (t : TaskNo) → point_number (point.Routine b None) < point_number (point.Routine b (Some t)) }
    ensures by_task { (b : BlockNo) (t u : TaskNo) → t.0 < u.0 → point_number (point.Routine b (Some t)) < point_number (point.Routine b (Some u)) }
{}

/// The points of an application in their order are its points, each once and no other; they are so many as the count says,
/// and their numbers ascend.
pub fn points_are_counted()
    ensures points { (app : App) → ArePoints app (points_in_order app) }
    ensures count { (app : App) → length (points_in_order app) ≡ points app }
    ensures order { (app : App) → IsStrictlySortedBy nat_cmp (map point_number (points_in_order app)) }
{}
