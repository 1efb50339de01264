//! What services tell of the state (ISO 17356-3, GetTaskID, GetTaskState, GetEvent, GetAlarm, GetActiveApplicationMode).
ghost use Rattle.std.specs.Prelude.{◌≡◌, ℕ, Bool, Some};
ghost use Rattle.osek_values.specs.declared.numbers.{AlarmNo.{AlarmNo}, TaskNo.{TaskNo}};
ghost use Rattle.osek_values.specs.declared.status.Status.TheVariants as status;
ghost use Rattle.osek_values.specs.declared.notes.Value.TheVariants as value;
ghost use Rattle.osek_standard.specs.declared.{app.App.{App}, state.{State.{State}, AlarmState.TheVariants.{Armed}}};
ghost use Rattle.osek_standard.specs.declared.call.{Call.TheVariants.{Alarm, Plain, Task}, PlainService.TheVariants.{GetActiveApplicationMode, GetTaskId}, TaskService.TheVariants.{GetEvent, GetTaskState}, AlarmService.TheVariants.{GetAlarm}};
ghost use Rattle.osek_standard.specs.declared.block.Kind.TheVariants as kind;
ghost use Rattle.osek_standard.specs.{Dispatch.{instruction}, Services.{ticks_left}, States.{alarm_state, letter_of, task_of, task_state}, Well.{IsActive}};
ghost use Rattle.kernel_guarantees.specs.{Reached.{IsReached}, Scheduling.{kind_at}};

/// What a service gives back is so: who runs or is interrupted, a task's state, its events, the counts until an alarm
/// expires, and the application mode.
pub fn services_tell_what_is_so()
    ensures task_id { (app : App) (s : State) (choice : Bool) → IsReached app s → IsActive s.processor → kind_at app s ≡ kind.Call (Plain GetTaskId) → (instruction app s choice).notes.value ≡ Some (value.Task (task_of s.processor)) }
    ensures task_state { (app : App) (s : State) (choice : Bool) (t : TaskNo) → IsReached app s → IsActive s.processor → kind_at app s ≡ kind.Call (Task GetTaskState t) → (instruction app s choice).notes.value ≡ Some (value.State (letter_of s.processor t.0 (task_state s t.0))) }
    ensures events { (app : App) (s : State) (choice : Bool) (t : TaskNo) → IsReached app s → IsActive s.processor → kind_at app s ≡ kind.Call (Task GetEvent t) → (instruction app s choice).notes.status ≡ Some status.Ok → (instruction app s choice).notes.value ≡ Some (value.Mask (task_state s t.0).events) }
    ensures alarm { (app : App) (s : State) (choice : Bool) (a : AlarmNo) (at cycle : ℕ) → IsReached app s → IsActive s.processor → alarm_state s a.0 ≡ Armed at cycle → kind_at app s ≡ kind.Call (Alarm GetAlarm a) → (instruction app s choice).notes.value ≡ Some (value.Number (ticks_left app s a.0 at)) }
    ensures mode { (app : App) (s : State) (choice : Bool) → IsReached app s → IsActive s.processor → kind_at app s ≡ kind.Call (Plain GetActiveApplicationMode) → (instruction app s choice).notes.value ≡ Some (value.Mode s.mode) }
{}
