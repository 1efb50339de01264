//! ShutdownOS (ISO 17356-3, system shutdown).
ghost use Rattle.std.specs.Prelude.{◌≡◌, List, Bool};
ghost use Rattle.osek_values.specs.declared.event.Event.{Event};
ghost use Rattle.osek_standard.specs.{declared.{app.App.{App}, state.State.{State}}, Dispatch.{silent}, Kernel.{step}};
ghost use Rattle.osek_standard.specs.declared.state.Processor.TheVariants as processor;

/// Once the kernel halted, a step shows nothing and changes nothing but latches.
pub fn nothing_changes_after_shutdown()
    ensures { (app : App) (s : State) (e : Event) → s.processor ≡ processor.Halted → (latches : List Bool) × (step app s e ≡ silent (record s { latched = latches })) }
{}
