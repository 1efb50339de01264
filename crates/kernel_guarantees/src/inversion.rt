//! Priority inversion (ISO 17356-3, resource management: it is bounded), and the stack that basic tasks may share.
ghost use Rattle.std.specs.Prelude.{◌≡◌, ◌≢◌, ◌⊎◌, ℕ, ◌<◌, ◌≤◌, true, false, None, List};
ghost use Rattle.osek_values.specs.declared.{event.Event.{Event}, numbers.TaskNo.{TaskNo}};
ghost use Rattle.oil_system.specs.declared.objects.Schedule.TheVariants.{Non};
ghost use Rattle.osek_standard.specs.declared.state.Processor.TheVariants as processor;
ghost use Rattle.osek_standard.specs.{declared.{app.App.{App}, state.State.{State}}, Apps.{the_task}, TaskStates.{is_live}, States.{task_of, task_state}, Priority.{base_priority, current_priority}};
ghost use Rattle.kernel_guarantees.specs.{Readiness.{IsReadyAlong}, Reached.{IsReached, after}, Underway.{IsStacked, is_current, is_underway}};

/// Of the tasks below a priority, one at most has that priority or more by what it took.
pub fn one_lower_task_is_raised()
    ensures { (app : App) (s : State) (p t u : ℕ) → IsReached app s → is_live (task_state s t) ≡ true → is_live (task_state s u) ≡ true → base_priority app t < p → p ≤ current_priority app s t → base_priority app u < p → p ≤ current_priority app s u → t ≡ u }
{}

/// A task that began waits for tasks of a higher own priority alone.
pub fn who_began_waits_for_higher_tasks()
    // beside who runs or is interrupted
    ensures waits { (app : App) (s : State) (c u : ℕ) → IsReached app s → is_current s c ≡ true → u ≢ c → is_underway app s u ≡ true → current_priority app s u < base_priority app c }
    // so two that began are of different priorities: basic tasks of one priority may share a stack
    ensures one_of_a_priority { (app : App) (s : State) (t u : ℕ) → IsReached app s → t ≢ u → is_underway app s t ≡ true → is_underway app s u ≡ true → base_priority app t ≢ base_priority app u }
    ensures stacked { (app : App) (s : State) → IsReached app s → IsStacked app s }
{}

/// How long a ready task waits for lower ones: from when it became ready until it gets the processor, instructions of one
/// single task of a lower own priority are done at most.
pub fn one_lower_task_delays_a_ready_one()
    // where a lower one has the processor, no other lower one gets it meanwhile
    ensures one { (app : App) (s : State) (events : List Event) (t a b : ℕ) → IsReached app s → IsReadyAlong app t s events → is_current s a ≡ true → base_priority app a < base_priority app t → is_current (after app s events) b ≡ true → base_priority app b < base_priority app t → a ≡ b }
    // it had the processor when the wait began, or was raised by then
    ensures at_first { (app : App) (s : State) (events : List Event) (t b : ℕ) → IsReached app s → IsReadyAlong app t s events → is_current (after app s events) b ≡ true → base_priority app b < base_priority app t → (is_current s b ≡ true) ⊎ (base_priority app t ≤ current_priority app s b) }
    // at each of its instructions it is raised by what it took, or non-preemptive
    ensures raised { (app : App) (s : State) (c : TaskNo) (t : ℕ) → IsReached app s → s.processor ≡ processor.Running c → is_live (task_state s t) ≡ true → (current_priority app s t ≤ current_priority app s c.0) ⊎ ((the_task app c.0).schedule ≡ Non) }
{}

/// Where no task runs or is interrupted, none is underway: over a routine that interrupted nobody too, until the kernel halts.
pub fn none_is_underway_over_nobody()
    ensures { (app : App) (s : State) (u : ℕ) → IsReached app s → task_of s.processor ≡ None → (s.processor ≡ processor.Halted → ⊥) → is_underway app s u ≡ false }
{}
