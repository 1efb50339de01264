//! Hook routines (ISO 17356-3, hook routines), where the OS object sets them TRUE.
ghost use Rattle.std.specs.Prelude.{◌≡◌, ◌⊎◌, ◌<◌, true, false, not, ◌&&◌, is_some, length, map, List};
ghost use Rattle.osek_values.specs.declared.{event.Event.{Event}, numbers.ModeNo.{ModeNo}};
ghost use Rattle.osek_standard.specs.{declared.{app.App.{App}, state.State.{State}}, Dispatch.{Stepped}, Kernel.{run, start, step}, States.{task_of}};
ghost use Rattle.osek_standard.specs.declared.state.Processor.TheVariants as processor;
ghost use Rattle.kernel_guarantees.specs.HookNotes.{Alternate, HasTaskHooks, PostTaskHook, PreTaskHook, ShutdownHook, StartupHook, is_halted, is_set_true, is_within_after, runs};
ghost use Rattle.kernel_guarantees.specs.Reached.{IsReached};

/// StartupHook runs at the start and never again; ShutdownHook runs exactly in the step by which the kernel halts.
pub fn startup_and_shutdown_hooks_run_once()
    ensures at_the_start { (app : App) (mode : ModeNo) → is_set_true app StartupHook ≡ true → runs StartupHook (start app mode).notes ≡ true }
    ensures in_no_step { (app : App) (s : State) (e : Event) → is_set_true app StartupHook ≡ true → runs StartupHook (step app s e).notes ≡ false }
    ensures not_at_the_start { (app : App) (mode : ModeNo) → is_set_true app ShutdownHook ≡ true → runs ShutdownHook (start app mode).notes ≡ false }
    ensures at_the_end { (app : App) (s : State) (e : Event) → IsReached app s → is_set_true app ShutdownHook ≡ true → runs ShutdownHook (step app s e).notes ≡ (not (is_halted s.processor) && is_halted (step app s e).state.processor) }
{}

/// PreTaskHook and PostTaskHook alternate: a task is within its hooks exactly while it runs or is interrupted. (ShutdownOS
/// runs no PostTaskHook, by the profile.)
pub fn task_hooks_alternate()
    ensures run { (app : App) (mode : ModeNo) (events : List Event) → HasTaskHooks app → mode.0 < length app.modes → Alternate false (map (λ (x : Stepped). x.notes) (run app mode events)) }
    // PostTaskHook runs only where a task has or had the processor
    ensures post { (app : App) (s : State) (e : Event) → HasTaskHooks app → IsReached app s → runs PostTaskHook (step app s e).notes ≡ true → is_some (task_of s.processor) ≡ true }
    // PreTaskHook only where none has, or after the PostTaskHook of that one
    ensures pre { (app : App) (s : State) (e : Event) → HasTaskHooks app → IsReached app s → runs PreTaskHook (step app s e).notes ≡ true → (is_some (task_of s.processor) ≡ false) ⊎ (runs PostTaskHook (step app s e).notes ≡ true) }
    // and one has it after the step as the hooks say
    ensures within { (app : App) (s : State) (e : Event) → HasTaskHooks app → IsReached app s → (is_some (task_of (step app s e).state.processor) ≡ is_within_after (is_some (task_of s.processor)) (step app s e).notes) ⊎ ((step app s e).state.processor ≡ processor.Halted) }
    // without hooks it is the same one
    ensures same { (app : App) (s : State) (e : Event) → HasTaskHooks app → IsReached app s → runs PostTaskHook (step app s e).notes ≡ false → runs PreTaskHook (step app s e).notes ≡ false → (task_of (step app s e).state.processor ≡ task_of s.processor) ⊎ ((step app s e).state.processor ≡ processor.Halted) }
{}
