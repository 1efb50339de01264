//! Activations of tasks (ISO 17356-3, activating a task and terminating a task).
ghost use Rattle.std.specs.Prelude.{◌≡◌, ℕ, ◌+◌, ◌<◌, length, List, true};
ghost use Rattle.osek_values.specs.{declared.{event.Event.{Event}, numbers.{BlockNo.{BlockNo}, ModeNo.{ModeNo}}}, Numbers.{task_no}};
ghost use Rattle.osek_standard.specs.{declared.{app.App.{App}, state.State.{State}, task_state.Activity.TheVariants.{Suspended, Waiting}}, TaskStates.{is_live}, States.{task_state}, Kernel.{start, step}};
ghost use Rattle.osek_standard.specs.declared.state.Processor.TheVariants as processor;
ghost use Rattle.kernel_guarantees.specs.{Activations.{activations_along, activations_in, alive, autostarts, ends_along, ends_in}, Instructions.{is_wait}, Reached.{IsReached, after}, Scheduling.{kind_at}};

/// No activation is lost, and none comes from nowhere: what is alive of a task is what was accepted and hasn't ended.
pub fn no_activation_is_lost()
    ensures step { (app : App) (s : State) (e : Event) (t : ℕ) → IsReached app s → alive (step app s e).state t + ends_in app s e t ≡ alive s t + activations_in app s e t }
    ensures along { (app : App) (s : State) (events : List Event) (t : ℕ) → IsReached app s → alive (after app s events) t + ends_along app s events t ≡ alive s t + activations_along app s events t }
    // of a whole run, autostart is the first activation
    ensures run { (app : App) (mode : ModeNo) (events : List Event) (t : ℕ) → mode.0 < length app.modes → t < length app.tasks → alive (after app (start app mode).state events) t + ends_along app (start app mode).state events t ≡ autostarts app mode t + activations_along app (start app mode).state events t }
{}

/// A task ends and waits by its own instructions alone.
pub fn a_task_ends_and_waits_by_itself()
    // it ends only by TerminateTask, ChainTask or at the end of its code
    ensures ends { (app : App) (s : State) (e : Event) (t : ℕ) → IsReached app s → is_live (task_state s t) ≡ true → (task_state (step app s e).state t).activity ≡ Suspended → ends_in app s e t ≡ 1 }
    // and waits only by WaitEvent
    ensures waits { (app : App) (s : State) (e : Event) (t : ℕ) (b : BlockNo) → IsReached app s → is_live (task_state s t) ≡ true → (task_state (step app s e).state t).activity ≡ Waiting b → (s.processor ≡ processor.Running (task_no t)) × (is_wait (kind_at app s) ≡ true) }
{}
