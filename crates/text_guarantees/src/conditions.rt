//! The conditions that some guarantees ask of an application.
ghost use Rattle.std.specs.Prelude.{ℕ, List};
ghost use Rattle.oil_system.specs.declared.system.System.{System};
ghost use Rattle.osek_standard.specs.declared.app.App.{App};
ghost use Rattle.kernel_guarantees.specs.Conditions.{IsGuarded};
ghost use Rattle.front_end.specs.Texts.{DeclaresSystem, GivesApp};

/// The application of two texts that are accepted has each of them.
pub fn texts_have_the_conditions()
    ensures { (oil code : List ℕ) (system : System) (app : App) → DeclaresSystem oil system → GivesApp system code app → IsGuarded app }
{}
