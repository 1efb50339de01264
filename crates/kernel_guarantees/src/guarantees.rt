//! The guarantees of a state, together.
ghost use Rattle.std.specs.Prelude.{ℕ, ◌<◌, length, All, List};
ghost use Rattle.osek_values.specs.declared.{event.Event.{Event}, numbers.ModeNo.{ModeNo}};
ghost use Rattle.osek_standard.specs.{declared.{app.App.{App}, state.State.{State}}, Dispatch.{Stepped}, Kernel.{run}};
ghost use Rattle.kernel_guarantees.specs.{Guarantees.{IsGuaranteed}, Reached.{IsReached}};

/// Each state that a run comes to has all of them.
pub fn each_state_is_guaranteed()
    ensures reached { (app : App) (s : State) → IsReached app s → IsGuaranteed app s }
    ensures run { (app : App) (mode : ModeNo) (events : List Event) → mode.0 < length app.modes → All (λ (x : Stepped). IsGuaranteed app x.state) (run app mode events) }
{}
