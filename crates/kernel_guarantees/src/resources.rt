//! Resources (ISO 17356-3, resource management): who holds them, and who may have them.
ghost use Rattle.std.specs.Prelude.{◌≡◌, ◌≢◌, ◌⊎◌, ℕ, ◌<◌, ◌≤◌, Bool, true, false, Some, Option, [], ◌∷◌, ◌++◌};
ghost use Rattle.osek_values.specs.declared.{event.Event.{Event}, numbers.{ResNo.{ResNo}, SourceNo.{SourceNo}, TaskNo.{TaskNo}}};
ghost use Rattle.osek_values.specs.declared.status.Status.TheVariants as status;
ghost use Rattle.osek_standard.specs.{declared.{app.App.{App}, state.State.{State}}, TaskStates.{held, holds, is_inside}, States.{caller, is_taken, task_of, task_state}};
ghost use Rattle.osek_standard.specs.{Apps.{is_extended, source_priority}, Arrivals.{arrival}, Levels.{interrupt_ceiling}, Effects.{effect, is_error}, Internal.{internal_of}, Priority.{base_priority, ceiling}};
ghost use Rattle.osek_standard.specs.{Dispatch.{instruction}, Kernel.{step}};
ghost use Rattle.osek_standard.specs.declared.call.{Call.TheVariants.{Resource}, ResourceService.TheVariants.{GetResource, ReleaseResource}};
ghost use Rattle.osek_standard.specs.declared.block.Kind.TheVariants as kind;
ghost use Rattle.osek_standard.specs.declared.state.Processor.TheVariants as processor;
ghost use Rattle.kernel_guarantees.specs.{Conditions.{HasGroups, HasTops}, Instructions.{is_wait}, Reached.{IsReached}, Scheduling.{kind_at}, Underway.{is_current}};
ghost use Rattle.kernel_guarantees.specs.{Holding.{IsCaller, StackBecomes, needs_none_held}, Resources.{Holder, Holds, IsHeldOnce, IsRoutineTaking, IsTaking, Occupies, OfRoutine, OfTask, stack_of}};

/// Two tasks, two routines, or a task and a routine never hold one resource at a time.
pub fn no_resource_is_held_twice()
    ensures { (app : App) (s : State) → IsReached app s → IsHeldOnce s }
{}

/// Of the tasks that name one INTERNAL resource, one at most has it.
pub fn one_task_of_a_group_is_inside()
    ensures { (app : App) (s : State) (t u : ℕ) (r : ResNo) → HasGroups app → IsReached app s → internal_of app t ≡ Some r → internal_of app u ≡ Some r → is_inside (task_state s t) ≡ true → is_inside (task_state s u) ≡ true → t ≡ u }
{}

/// Access to a resource never waits: GetResource of a resource whose ceiling is at least the caller's own priority, so of
/// each that the task names, is refused only where the caller has taken it already.
pub fn access_never_waits()
    // nobody has it then
    ensures free { (app : App) (s : State) (c : TaskNo) (r : ℕ) → IsReached app s → s.processor ≡ processor.Running c → base_priority app c.0 ≤ ceiling app r → holds (held (task_state s c.0)) r ≡ false → is_taken s r ≡ false }
    // so the call answers E_OK
    ensures task { (app : App) (s : State) (c : TaskNo) (r : ResNo) (choice : Bool) → IsReached app s → IsTaking app s c r → (effect app s choice).notes.status ≡ Some status.Ok }
    // and so does a routine's, whose own level is at most the interrupt ceiling
    ensures routine { (app : App) (s : State) (k : SourceNo) (over : Option TaskNo) (r : ResNo) (choice : Bool) → HasTops app → IsReached app s → IsRoutineTaking app s k over r → (effect app s choice).notes.status ≡ Some status.Ok }
{}

/// The priority ceiling protocol keeps apart who may want one resource.
pub fn ceilings_keep_apart()
    // two tasks never hold resources of one ceiling
    ensures held { (app : App) (s : State) (t u r q : ℕ) → IsReached app s → t ≢ u → Holds s (OfTask t) r → Holds s (OfTask u) q → ceiling app r ≢ ceiling app q }
    // who runs or is interrupted while another task has a resource is of a priority above its ceiling
    ensures runs { (app : App) (s : State) (c u r : ℕ) → IsReached app s → is_current s c ≡ true → u ≢ c → Occupies app s u r → ceiling app r < base_priority app c }
    // so who has one whose ceiling is at least each task's priority, as RES_SCHEDULER's is, runs or is interrupted
    ensures scheduler { (app : App) (s : State) (u r : ℕ) → IsReached app s → (s.processor ≡ processor.Halted → ⊥) → Occupies app s u r → ((t : ℕ) → base_priority app t ≤ ceiling app r) → is_current s u ≡ true }
{}

/// A routine begins only where its PRIORITY is at least the interrupt ceiling of each resource that is in use.
pub fn routines_begin_above_resources()
    ensures of_routines { (app : App) (s : State) (k : SourceNo) (l r : ℕ) → IsReached app s → arrival app s ≡ Some k → Holds s (OfRoutine l) r → interrupt_ceiling app r ≤ source_priority app k.0 }
    ensures of_interrupted_task { (app : App) (s : State) (k : SourceNo) (c : TaskNo) (r : ℕ) → IsReached app s → arrival app s ≡ Some k → task_of s.processor ≡ Some c → Occupies app s c.0 r → interrupt_ceiling app r ≤ source_priority app k.0 }
    ensures of_tasks { (app : App) (s : State) (k : SourceNo) (u r : ℕ) → HasTops app → IsReached app s → arrival app s ≡ Some k → Occupies app s u r → interrupt_ceiling app r ≤ source_priority app k.0 }
{}

/// What a task or a routine holds changes only by its own GetResource and ReleaseResource that are accepted, last in, first out,
/// or where it ends.
pub fn stacks_change_by_their_holders_alone()
    ensures changes { (app : App) (s : State) (e : Event) (x : Holder) → IsReached app s → (stack_of (step app s e).state x ≡ stack_of s x) ⊎ StackBecomes (caller s.processor) x (kind_at app s) (step app s e).notes.status (stack_of s x) (stack_of (step app s e).state x) }
    // GetResource that is accepted does put the resource on top
    ensures takes { (app : App) (s : State) (choice : Bool) (x : Holder) (r : ResNo) → IsReached app s → IsCaller s x → kind_at app s ≡ kind.Call (Resource GetResource r) → (instruction app s choice).notes.status ≡ Some status.Ok → stack_of (instruction app s choice).state x ≡ stack_of s x ++ r ∷ [] }
    // and ReleaseResource does take it from there
    ensures releases { (app : App) (s : State) (choice : Bool) (x : Holder) (r : ResNo) → IsReached app s → IsCaller s x → kind_at app s ≡ kind.Call (Resource ReleaseResource r) → (instruction app s choice).notes.status ≡ Some status.Ok → stack_of s x ≡ stack_of (instruction app s choice).state x ++ r ∷ [] }
    // what is held is refused, to its holder as to any other
    ensures refused { (app : App) (s : State) (choice : Bool) (x y : Holder) (r : ResNo) → IsReached app s → IsCaller s x → kind_at app s ≡ kind.Call (Resource GetResource r) → Holds s y r.0 → (instruction app s choice).notes.status ≡ Some status.Access }
{}

/// A task that holds a resource neither ends nor waits, nor gives way by Schedule.
pub fn holders_neither_end_nor_wait()
    // WaitEvent is refused before to a task that isn't extended
    ensures refused { (app : App) (s : State) (choice : Bool) (c : TaskNo) (r : ℕ) → IsReached app s → s.processor ≡ processor.Running c → Holds s (OfTask c.0) r → needs_none_held (kind_at app s) ≡ true → (is_wait (kind_at app s) ≡ true → is_extended app c.0 ≡ true) → (instruction app s choice).notes.status ≡ Some status.Resource }
    ensures accepted { (app : App) (s : State) (choice : Bool) (c : TaskNo) → IsReached app s → s.processor ≡ processor.Running c → needs_none_held (kind_at app s) ≡ true → is_error (instruction app s choice).notes.status ≡ false → held (task_state s c.0) ≡ [] }
{}
