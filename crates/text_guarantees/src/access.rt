//! Who may take which resource (ISO 17356-3, resource management), in the application of two texts that are accepted.
ghost use Rattle.std.specs.Prelude.{◌≡◌, ℕ, ◌≤◌, Bool, false, List, Option, Some};
ghost use Rattle.osek_values.specs.declared.numbers.{ResNo.{ResNo}, SourceNo.{SourceNo}, TaskNo.{TaskNo}};
ghost use Rattle.osek_values.specs.declared.status.Status.TheVariants as status;
ghost use Rattle.oil_system.specs.declared.system.System.{System};
ghost use Rattle.osek_standard.specs.declared.{app.App.{App}, call.{Call.TheVariants.{Resource}, ResourceService.TheVariants.{GetResource}}, state.State.{State}};
ghost use Rattle.osek_standard.specs.{Apps.{the_block}, Effects.{effect}, Levels.{interrupt_ceiling, own_level}, Priority.{base_priority, ceiling}, States.{task_state}, TaskStates.{held, holds}, Well.{IsOfRoutine}};
ghost use Rattle.osek_standard.specs.declared.block.Kind.TheVariants as kind;
ghost use Rattle.osek_standard.specs.declared.state.Processor.TheVariants as processor;
ghost use Rattle.kernel_guarantees.specs.{Reached.{IsReached}, Resources.{Holds, IsAtGetResource, OfRoutine}};
ghost use Rattle.front_end.specs.Texts.{DeclaresSystem, GivesApp};
ghost use Rattle.text_guarantees.specs.Naming.{MayTake};

/// A resource's ceiling is at least the priority of each task that may take it, and its interrupt ceiling at least the level of
/// each routine that takes it.
pub fn ceilings_reach_their_users()
    ensures tasks { (oil code : List ℕ) (system : System) (app : App) (t r : ℕ) (declares : DeclaresSystem oil system) → GivesApp system code app
        → MayTake declares.tree.objects app t r → base_priority app t ≤ ceiling app r }
    // by a GetResource of its code
    ensures routines { (oil code : List ℕ) (system : System) (app : App) (k b : ℕ) (r : ResNo) → DeclaresSystem oil system → GivesApp system code app
        → IsOfRoutine app k b → (the_block app b).kind ≡ kind.Call (Resource GetResource r) → own_level app k ≤ interrupt_ceiling app r.0 }
{}

/// So access never waits: GetResource of a resource that the task may take, and each GetResource of a routine, answers E_OK
/// unless the caller itself has taken the resource already.
pub fn access_is_refused_to_holders_alone()
    ensures tasks { (oil code : List ℕ) (system : System) (app : App) (s : State) (c : TaskNo) (r : ResNo) (choice : Bool)
        (declares : DeclaresSystem oil system) → GivesApp system code app
        → IsReached app s → s.processor ≡ processor.Running c → IsAtGetResource app s r → MayTake declares.tree.objects app c.0 r.0
        → holds (held (task_state s c.0)) r.0 ≡ false → (effect app s choice).notes.status ≡ Some status.Ok }
    ensures routines { (oil code : List ℕ) (system : System) (app : App) (s : State) (k : SourceNo) (over : Option TaskNo) (r : ResNo) (choice : Bool)
        → DeclaresSystem oil system → GivesApp system code app
        → IsReached app s → s.processor ≡ processor.Interrupted k over → IsAtGetResource app s r
        → (Holds s (OfRoutine k.0) r.0 → ⊥) → (effect app s choice).notes.status ≡ Some status.Ok }
{}
