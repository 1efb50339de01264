//! The states that runs come to.
ghost use Rattle.std.specs.Prelude.{ℕ, ◌<◌, length, All, List};
ghost use Rattle.osek_values.specs.declared.{event.Event.{Event}, numbers.ModeNo.{ModeNo}};
ghost use Rattle.osek_standard.specs.{declared.{app.App.{App}, state.State.{State}}, Dispatch.{Stepped}, Kernel.{run, step}, Well.{Well}};
ghost use Rattle.kernel_guarantees.specs.Reached.{IsReached};

/// Each state of a run is reached, each step from a reached state leads to one, and each is well-formed.
pub fn states_of_runs_are_reached()
    ensures run { (app : App) (mode : ModeNo) (events : List Event) → mode.0 < length app.modes → All (λ (x : Stepped). IsReached app x.state) (run app mode events) }
    ensures step { (app : App) (s : State) (e : Event) → IsReached app s → IsReached app (step app s e).state }
    ensures well { (app : App) (s : State) → IsReached app s → Well app s }
{}
