//! Tasks (ISO 17356-3, task management): what becomes of them.
ghost use Rattle.std.specs.Prelude.{◌≡◌, ℕ, ◌+◌, ◌≤◌, true, false, bit_and};
ghost use Rattle.osek_values.specs.declared.{event.Event.{Event}, numbers.{BlockNo.{BlockNo}, TaskNo.{TaskNo}}};
ghost use Rattle.osek_standard.specs.{Apps.{awaited, is_extended, the_block, the_task}, Services.{share}, TaskStates.{is_live, is_suspended}};
ghost use Rattle.osek_standard.specs.{declared.{app.App.{App}, state.State.{State}, task_state.{Standing.{Standing}, Activity.TheVariants.{Live, Waiting}}}, Kernel.{step}, States.{letter_of, task_state}};
ghost use Rattle.osek_standard.specs.declared.state.Processor.TheVariants as processor;
ghost use Rattle.kernel_guarantees.specs.{Reached.{IsReached}, TaskModel.{MayBecome, MayMove}};

/// No step moves a task that isn't running, takes a resource from it or ends it, whatever else is done: others activate a
/// suspended one and release a waiting one, at their places.
pub fn no_step_touches_another_task()
    ensures { (app : App) (s : State) (e : Event) (u : TaskNo) → IsReached app s → (s.processor ≡ processor.Running u → ⊥) → MayBecome app u.0 (task_state s u.0).activity (task_state (step app s e).state u.0).activity }
{}

/// Each step moves a task as the task state model has it, and an extended task alone waits.
pub fn tasks_move_by_the_model()
    // the instructions and the dispatch of one step together: from running to anything, as the task's own instruction may do
    ensures moves { (app : App) (s : State) (e : Event) (t : ℕ) → IsReached app s → MayMove (letter_of s.processor t (task_state s t)) (letter_of (step app s e).state.processor t (task_state (step app s e).state t)) }
    ensures waits { (app : App) (s : State) (t : ℕ) (b : BlockNo) → IsReached app s → (task_state s t).activity ≡ Waiting b → is_extended app t ≡ true }
    // no more activations are taken than ACTIVATION says: the one that runs and those that wait for it to end
    ensures activations { (app : App) (s : State) (t : ℕ) (x : Standing) → IsReached app s → (task_state s t).activity ≡ Live x → x.further + 1 ≤ (the_task app t).activation }
{}

/// A task that waits has none of the events that it waits for.
pub fn who_waits_has_no_awaited_event()
    ensures { (app : App) (s : State) (t : ℕ) (b : BlockNo) → IsReached app s → (task_state s t).activity ≡ Waiting b → share (task_state s t).events.0 (awaited (the_block app b.0).kind) ≡ false }
{}

/// An event that is set goes by the task's own instruction alone, or by a new activation.
pub fn events_go_by_their_task_alone()
    ensures { (app : App) (s : State) (e : Event) (u : TaskNo) → IsReached app s → (s.processor ≡ processor.Running u → ⊥) → is_suspended (task_state s u.0) ≡ false → bit_and (task_state s u.0).events.0 (task_state (step app s e).state u.0).events.0 ≡ (task_state s u.0).events.0 }
{}

/// A task is released from waiting only where an event is set that it waits for.
pub fn who_is_released_has_an_awaited_event()
    ensures { (app : App) (s : State) (e : Event) (u : TaskNo) (b : BlockNo) → IsReached app s → (task_state s u.0).activity ≡ Waiting b → is_live (task_state (step app s e).state u.0) ≡ true → share (task_state (step app s e).state u.0).events.0 (awaited (the_block app b.0).kind) ≡ true }
{}
