//! Who runs (ISO 17356-3, scheduling policy).
ghost use Rattle.std.specs.Prelude.{◌≡◌, ◌≢◌, ℕ, ◌+◌, ◌<◌, ◌≤◌, true, false, Some, List};
ghost use Rattle.osek_values.specs.declared.{event.Event.{Event}, numbers.TaskNo.{TaskNo}};
ghost use Rattle.osek_values.specs.Line.{place_in_line};
ghost use Rattle.oil_system.specs.declared.objects.Schedule.TheVariants.{Full, Non};
ghost use Rattle.osek_standard.specs.{declared.{app.App.{App}, state.State.{State}}, Apps.{the_task}, Effects.{effect, is_schedule}, Kernel.{step}, TaskStates.{is_live}, States.{caller, task_of, task_state}, Priority.{base_priority, current_priority}};
ghost use Rattle.osek_standard.specs.declared.state.Processor.TheVariants as processor;
ghost use Rattle.osek_values.specs.declared.status.Status.TheVariants as status;
ghost use Rattle.kernel_guarantees.specs.{Reached.{IsReached, after}, Readiness.{GoesAhead, IsReady, IsReadyAlong, earlier}, Activations.{ends_along, ends_in}, Scheduling.{DoesInstruction, IsKeptAtSchedule, IsPreemption, gives_up, kind_at, reschedules}, Instructions.{is_end}, Underway.{is_current, is_underway}};

/// A preemptive task runs only where no task that is ready has a higher current priority.
pub fn a_preemptive_task_runs_at_best()
    ensures { (app : App) (s : State) (c : TaskNo) (u : ℕ) → IsReached app s → s.processor ≡ processor.Running c → (the_task app c.0).schedule ≡ Full → is_live (task_state s u) ≡ true → current_priority app s u ≤ current_priority app s c.0 }
{}

/// The processor is idle only where no task is ready.
pub fn idle_only_where_none_is_ready()
    ensures { (app : App) (s : State) (t : ℕ) → IsReached app s → s.processor ≡ processor.Idle → is_live (task_state s t) ≡ false }
{}

/// A non-preemptive task that runs or is interrupted loses the processor only by its own Schedule, TerminateTask, ChainTask
/// or WaitEvent, at its end, or by ShutdownOS.
pub fn a_non_preemptive_task_stays()
    ensures { (app : App) (s : State) (e : Event) (c : TaskNo) → IsReached app s → task_of s.processor ≡ Some c → (the_task app c.0).schedule ≡ Non → gives_up (caller s.processor) (kind_at app s) ≡ false → task_of (step app s e).state.processor ≡ Some c }
{}

/// The task that runs or is interrupted changes only by an instruction at one of the points of rescheduling.
pub fn tasks_change_at_points_of_rescheduling()
    ensures { (app : App) (s : State) (e : Event) → IsReached app s → (task_of (step app s e).state.processor ≡ task_of s.processor → ⊥) → DoesInstruction app s e × (reschedules (caller s.processor) (kind_at app s) ≡ true) }
{}

/// A task that gets the processor had, before the step, a current priority of at least that of each other task that is ready.
pub fn the_greatest_priority_gets_the_processor()
    ensures { (app : App) (s : State) (e : Event) (x u : ℕ) → IsReached app s → is_current s x ≡ false → is_current (step app s e).state x ≡ true → u ≢ x → is_live (task_state (step app s e).state u) ≡ true → current_priority app (step app s e).state u ≤ current_priority app s x }
{}

/// A task is preempted only by one whose own priority is above its current one.
pub fn a_task_is_preempted_by_higher_ones()
    ensures { (app : App) (s : State) (e : Event) (c x : TaskNo) → IsReached app s → IsPreemption app s e c x → current_priority app (step app s e).state c.0 < base_priority app x.0 }
{}

/// Tasks of one priority run in the order in which they became ready, and a preempted one goes on before any of its priority
/// that hasn't begun.
pub fn who_is_ready_first_runs_first()
    // while t is ready, no task of its priority gets the processor that is activated or released later
    ensures first { (app : App) (s : State) (events : List Event) (t u : ℕ) → IsReached app s → IsReadyAlong app t s events → is_live (task_state s u) ≡ false → base_priority app u ≤ current_priority app s t → is_current (after app s events) u ≡ false }
    // t goes ahead of such a task, and of each of its priority that hasn't begun where it is preempted by another one, x
    ensures later { (app : App) (s : State) (t u : ℕ) → IsReached app s → IsReady s t → is_live (task_state s u) ≡ false → base_priority app u ≤ current_priority app s t → GoesAhead app s t u }
    ensures preempted { (app : App) (s : State) (e : Event) (t x : TaskNo) (u : ℕ) → IsReached app s → IsPreemption app s e t x → u ≢ t.0 → is_underway app (step app s e).state u ≡ false → base_priority app u ≤ current_priority app (step app s e).state t.0 → GoesAhead app (step app s e).state t.0 u }
    // who goes ahead does so until it gets the processor
    ensures stays { (app : App) (s : State) (events : List Event) (t u : ℕ) → IsReached app s → GoesAhead app s t u → IsReadyAlong app t s events → GoesAhead app (after app s events) t u }
{}

/// Schedule gives way: where it is accepted and its caller goes on, no ready task is above the caller's own priority.
pub fn schedule_gives_way_to_higher_tasks()
    ensures { (app : App) (s : State) (e : Event) (c : TaskNo) (u : ℕ) → IsReached app s → IsKeptAtSchedule app s e c → is_live (task_state (step app s e).state u) ≡ true → u ≢ c.0 → current_priority app (step app s e).state u ≤ base_priority app c.0 }
{}

/// No activation overtakes an earlier one: while t is ready, a task of no higher own priority begins only activations that came
/// before that of t. These become fewer alone, by each of its ends; one that is accepted later isn't among them.
pub fn no_activation_overtakes_an_earlier_one()
    ensures step { (app : App) (s : State) (e : Event) (t u : ℕ) → IsReached app s → IsReady s t → IsReady (step app s e).state t → t ≢ u → base_priority app u ≤ current_priority app s t → earlier (step app s e).state t u + ends_in app s e u ≤ earlier s t u }
    ensures along { (app : App) (s : State) (events : List Event) (t u : ℕ) → IsReached app s → IsReadyAlong app t s events → t ≢ u → base_priority app u ≤ current_priority app s t → earlier (after app s events) t u + ends_along app s events u ≤ earlier s t u }
    // without an earlier one it doesn't get the processor
    ensures none { (app : App) (s : State) (events : List Event) (t u : ℕ) → IsReached app s → IsReadyAlong app t s events → t ≢ u → base_priority app u ≤ current_priority app s t → earlier s t u ≡ 0 → is_current (after app s events) u ≡ false }
{}
