//! Laws over the definitions, each on a function that does nothing.
ghost use Rattle.std.specs.Prelude.{◌≡◌, ℕ, List, Contains};
ghost use Rattle.osek_standard.specs.{declared.{app.App.{App}, state.State.{State}, point.Point.{Point}}, Effects.{Effect}, Well.{Well}, Points.{IsPoint}};
ghost use Rattle.abstract_state.specs.declared.{value.PartValue.{PartValue}, table.PlainEntry.{PlainEntry}};
ghost use Rattle.flow_model.specs.{declared.case.{Decision.{Decision}, Leaving.{Leaving}}, Effects.{Asks, LeavesLine, AreAllAllowed}, Scheduling.{Decides}};
ghost use Rattle.flow_exits.specs.{Deciding.{HasValues, GoesFirst, IsKernelDecision}, declared.exit.Exit.{Exit}, Exits.{CoverSteps, CoverInstructions, AreExact}};
ghost use Rattle.flow_exits.specs.Leaving.{AreExits};

/// What the kernel does after an effect is something that the scheduler decides by the values of the tasks; and it does each
/// thing that is decided, where the line is as that wants it.
pub fn the_kernel_does_what_is_decided()
    ensures some { (app : App) (leaving : Leaving) (s : State) (e : Effect) (value : ℕ → PartValue) → Well app e.state → Asks leaving.asked e → LeavesLine leaving.asked leaving.last s e.state → HasValues app e.state value → (d : Decision) × IsKernelDecision app leaving e value d }
    ensures each { (app : App) (leaving : Leaving) (e : Effect) (value : ℕ → PartValue) → Well app e.state → Asks leaving.asked e → HasValues app e.state value → (d : Decision) → Decides app value leaving d → GoesFirst leaving.last e.state d → IsKernelDecision app leaving e value d }
{}

/// The exits of a point are where its steps end, and each is one of some step.
pub fn steps_end_at_exits()
    ensures steps { (app : App) (p : Point) (entry : PlainEntry) (exits : List Exit) → IsPoint app p → AreExits app p entry exits → CoverSteps app p entry exits }
    ensures instructions { (app : App) (p : Point) (entry : PlainEntry) (exits : List Exit) → IsPoint app p → AreExits app p entry exits → CoverInstructions app p entry exits }
    ensures exact { (app : App) (p : Point) (entry : PlainEntry) (exits : List Exit) → IsPoint app p → AreExits app p entry exits → AreAllAllowed app p entry → AreExact app p entry exits }
{}
