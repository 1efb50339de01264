//! The start of the kernel, and its application mode (ISO 17356-3, application modes, StartOS).
ghost use Rattle.std.specs.Prelude.{◌≡◌, ℕ, ◌<◌, false, length, if◌then◌else◌};
ghost use Rattle.osek_values.specs.{Bits.{has_bit}, declared.{event.Event.{Event}, numbers.{ModeNo.{ModeNo}, TaskNo.{TaskNo}}}};
ghost use Rattle.osek_standard.specs.declared.{app.App.{App}, state.{State.{State}, AlarmState.TheVariants.{Armed, Idle}}};
ghost use Rattle.osek_standard.specs.{Apps.{the_alarm, the_task}, Kernel.{initial, start, step}, Priority.{IsBest}, States.{alarm_state, task_state}, TaskStates.{is_live}};
ghost use Rattle.osek_standard.specs.declared.state.Processor.TheVariants as processor;
ghost use Rattle.kernel_guarantees.specs.Reached.{IsReached};

/// The application mode is that of the start, and never changes.
pub fn the_mode_never_changes()
    ensures start { (app : App) (mode : ModeNo) → (start app mode).state.mode ≡ mode }
    ensures step { (app : App) (s : State) (e : Event) → IsReached app s → (step app s e).state.mode ≡ s.mode }
{}

/// At the start the tasks are ready and the alarms armed that AUTOSTART names in the mode, and no others; and the processor
/// goes to the best of the tasks.
pub fn the_start_takes_what_is_autostarted()
    // before the dispatch
    ensures ready { (app : App) (mode : ModeNo) (t : ℕ) → t < length app.tasks → is_live (task_state (initial app mode) t) ≡ has_bit (the_task app t).autostart mode.0 }
    ensures runs { (app : App) (mode : ModeNo) (t : TaskNo) → (start app mode).state.processor ≡ processor.Running t → IsBest app (initial app mode) t.0 }
    ensures idle { (app : App) (mode : ModeNo) (t : ℕ) → (start app mode).state.processor ≡ processor.Idle → t < length app.tasks → has_bit (the_task app t).autostart mode.0 ≡ false }
    // for ALARMTIME and CYCLETIME
    ensures alarms { (app : App) (mode : ModeNo) (a : ℕ) → a < length app.alarms → alarm_state (start app mode).state a ≡ (if has_bit (the_alarm app a).autostart mode.0 then Armed (the_alarm app a).time (the_alarm app a).cycle else Idle) }
{}
