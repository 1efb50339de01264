//! Errors of services (ISO 17356-3, error handling).
ghost use Rattle.std.specs.Prelude.{◌≡◌, ◌⊎◌, ℕ, ◌<◌, Bool, true, false, Some, None, List, [], ◌∷◌, ◌++◌};
ghost use Rattle.osek_values.specs.{declared.{event.Event.{Event}, numbers.{ResNo.{ResNo}, SourceNo.{SourceNo}, TaskNo.{TaskNo}}}, Numbers.{mask}};
ghost use Rattle.osek_values.specs.declared.status.Status.TheVariants as status;
ghost use Rattle.osek_standard.specs.{declared.{app.App.{App}, call.Call.{Call}, state.{State.{State}, Caller.TheVariants.{Routine}}}, Apps.{is_extended, the_block}, Dispatch.{instruction}, Effects.{is_error, moved_to}, Kernel.{step}, States.{caller, here, task_state}, Well.{IsActive}};
ghost use Rattle.osek_standard.specs.{Services.{is_full}, TaskStates.{held, is_suspended}};
ghost use Rattle.osek_standard.specs.declared.call.{Call.TheVariants.{Mask, Plain, Resource, SetEvent, Task}, PlainService.TheVariants.{Schedule, TerminateTask}, ResourceService.TheVariants.{GetResource, ReleaseResource}};
ghost use Rattle.osek_standard.specs.declared.call.{TaskService.TheVariants.{ActivateTask, ChainTask}, MaskService.TheVariants.{WaitEvent}};
ghost use Rattle.osek_standard.specs.declared.state.Processor.TheVariants as processor;
ghost use Rattle.osek_standard.specs.declared.block.Kind.TheVariants as kind;
ghost use Rattle.kernel_guarantees.specs.{HookNotes.{ErrorHook, is_set_true, runs}, Holding.{IsCaller, is_for_tasks}, Reached.{IsReached}, Resources.{Holder, ceiling_for, own_rank, stack_of}, Scheduling.{kind_at}};

/// ErrorHook, where the OS object sets it TRUE, runs exactly where a service, or an alarm's action, answers other than E_OK.
pub fn the_error_hook_runs_at_each_error()
    ensures { (app : App) (s : State) (e : Event) → is_set_true app ErrorHook ≡ true → runs ErrorHook (step app s e).notes ≡ is_error (step app s e).notes.status }
{}

/// A service that is refused changes nothing: its caller goes on at its next block, and that is all.
pub fn a_refused_service_changes_nothing()
    ensures { (app : App) (s : State) (choice : Bool) (k : Call) → IsReached app s → IsActive s.processor → kind_at app s ≡ kind.Call k → is_error (instruction app s choice).notes.status ≡ true → (instruction app s choice).state ≡ moved_to s (the_block app (here s).block.0).next }
{}

/// A routine is refused the services of tasks: TerminateTask, ChainTask, Schedule, ClearEvent and WaitEvent.
pub fn routines_are_refused_the_services_of_tasks()
    ensures { (app : App) (s : State) (choice : Bool) (k : SourceNo) → IsReached app s → IsActive s.processor → caller s.processor ≡ Routine k → is_for_tasks (kind_at app s) ≡ true → (instruction app s choice).notes.status ≡ Some status.CallLevel }
{}

/// ActivateTask, SetEvent and GetResource are accepted and refused as the standard says.
pub fn services_are_refused_for_a_reason()
    // ActivateTask is refused exactly where the task takes no more activations
    ensures activates { (app : App) (s : State) (choice : Bool) (t : TaskNo) → IsReached app s → IsActive s.processor → kind_at app s ≡ kind.Call (Task ActivateTask t) → is_full app s t.0 ≡ false → (instruction app s choice).notes.status ≡ Some status.Ok }
    ensures full { (app : App) (s : State) (choice : Bool) (t : TaskNo) → IsReached app s → IsActive s.processor → kind_at app s ≡ kind.Call (Task ActivateTask t) → is_full app s t.0 ≡ true → (instruction app s choice).notes.status ≡ Some status.Limit }
    // SetEvent of an extended task that isn't suspended is accepted
    ensures sets { (app : App) (s : State) (choice : Bool) (t : TaskNo) (m : ℕ) → IsReached app s → IsActive s.processor → kind_at app s ≡ kind.Call (SetEvent t (mask m)) → is_extended app t.0 ≡ true → is_suspended (task_state s t.0) ≡ false → (instruction app s choice).notes.status ≡ Some status.Ok }
    // GetResource is refused to who is above the resource's ceiling
    ensures above { (app : App) (s : State) (choice : Bool) (x : Holder) (r : ResNo) → IsReached app s → IsActive s.processor → IsCaller s x → kind_at app s ≡ kind.Call (Resource GetResource r) → ceiling_for app x r.0 < own_rank app x → (instruction app s choice).notes.status ≡ Some status.Access }
{}

/// A task that holds nothing may end, wait and give way, and who took a resource last may release it.
pub fn services_are_accepted_from_who_may_call_them()
    // TerminateTask and ChainTask answer nothing then
    ensures terminates { (app : App) (s : State) (choice : Bool) (c : TaskNo) → IsReached app s → s.processor ≡ processor.Running c → held (task_state s c.0) ≡ [] → kind_at app s ≡ kind.Call (Plain TerminateTask) → (instruction app s choice).notes.status ≡ None }
    // to itself, or to a task that takes one more activation
    ensures chains { (app : App) (s : State) (choice : Bool) (c t : TaskNo) → IsReached app s → s.processor ≡ processor.Running c → held (task_state s c.0) ≡ [] → kind_at app s ≡ kind.Call (Task ChainTask t) → (t.0 ≡ c.0) ⊎ (is_full app s t.0 ≡ false) → (instruction app s choice).notes.status ≡ None }
    ensures schedules { (app : App) (s : State) (choice : Bool) (c : TaskNo) → IsReached app s → s.processor ≡ processor.Running c → held (task_state s c.0) ≡ [] → kind_at app s ≡ kind.Call (Plain Schedule) → (instruction app s choice).notes.status ≡ Some status.Ok }
    ensures waits { (app : App) (s : State) (choice : Bool) (c : TaskNo) (m : ℕ) → IsReached app s → s.processor ≡ processor.Running c → held (task_state s c.0) ≡ [] → kind_at app s ≡ kind.Call (Mask WaitEvent (mask m)) → is_extended app c.0 ≡ true → (instruction app s choice).notes.status ≡ Some status.Ok }
    ensures releases { (app : App) (s : State) (choice : Bool) (x : Holder) (r : ResNo) (below : List ResNo) → IsReached app s → IsActive s.processor → IsCaller s x → kind_at app s ≡ kind.Call (Resource ReleaseResource r) → stack_of s x ≡ below ++ r ∷ [] → (instruction app s choice).notes.status ≡ Some status.Ok }
{}
