//! Alarms (ISO 17356-3, alarms): by what they change, and when they expire.
ghost use Rattle.std.specs.Prelude.{◌≡◌, ◌≢◌, ◌⊎◌, ℕ, ◌+◌, ◌<◌, ◌≤◌, Bool, true, false, Some, List, length, ◌==◌, if◌then◌else◌};
ghost use Rattle.osek_values.specs.{declared.{event.Event.{Event}, numbers.{AlarmNo.{AlarmNo}, SourceNo.{SourceNo}, TaskNo.{TaskNo}}}, Numbers.{alarm_no, mask}};
ghost use Rattle.osek_values.specs.declared.status.Status.TheVariants as status;
ghost use Rattle.oil_system.specs.declared.objects.Action.TheVariants as action;
ghost use Rattle.osek_standard.specs.{Apps.{is_counter, is_cycle, is_extended, max_of, the_alarm, the_counter}, States.{alarm_state, caller, counter_value, task_state}, TaskStates.{is_suspended}, Services.{is_full, ticks_left}, Dispatch.{instruction}, Kernel.{step}, Well.{IsActive}};
ghost use Rattle.osek_standard.specs.declared.{app.App.{App}, call.ArmService.{ArmService}, state.{State.{State}, AlarmState.TheVariants.{Armed, Idle}, Caller.TheVariants.{Routine}}};
ghost use Rattle.osek_standard.specs.declared.call.{Call.TheVariants.{Alarm, Arm}, AlarmService.TheVariants.{CancelAlarm, GetAlarm}, ArmService.TheVariants.{SetAbsAlarm, SetRelAlarm}};
ghost use Rattle.osek_standard.specs.declared.block.Kind.TheVariants as kind;
ghost use Rattle.kernel_guarantees.specs.{Alarms.{AlarmBecomes, IsCount, StaysAs, counter_of, counts, counts_in}, Events.{IsDue}, Reached.{IsReached, after}, Scheduling.{kind_at}};

/// An alarm changes only by SetRelAlarm, SetAbsAlarm or CancelAlarm of it, or where it expires.
pub fn alarms_change_by_their_services_alone()
    ensures changes { (app : App) (s : State) (e : Event) (a : ℕ) → IsReached app s → (alarm_state (step app s e).state a ≡ alarm_state s a) ⊎ AlarmBecomes app s a (kind_at app s) (alarm_state (step app s e).state a) }
    // one that is idle is armed by SetRelAlarm or SetAbsAlarm
    ensures armed { (app : App) (s : State) (e : Event) (a at cycle : ℕ) → IsReached app s → alarm_state s a ≡ Idle → alarm_state (step app s e).state a ≡ Armed at cycle → (service : ArmService) × (time : ℕ) × (kind_at app s ≡ kind.Call (Arm service (alarm_no a) time cycle)) }
    // one that is armed is disarmed by CancelAlarm, or where it expires and has no cycle
    ensures disarmed { (app : App) (s : State) (e : Event) (a at cycle : ℕ) → IsReached app s → alarm_state s a ≡ Armed at cycle → alarm_state (step app s e).state a ≡ Idle → (kind_at app s ≡ kind.Call (Alarm CancelAlarm (alarm_no a))) ⊎ ((kind_at app s ≡ kind.Expire (alarm_no a)) × IsDue app s a × (cycle ≡ 0)) }
    // and is armed anew only where it expires
    ensures anew { (app : App) (s : State) (e : Event) (a at cycle : ℕ) → IsReached app s → alarm_state s a ≡ Armed at cycle → alarm_state (step app s e).state a ≢ Armed at cycle → alarm_state (step app s e).state a ≢ Idle → (kind_at app s ≡ kind.Expire (alarm_no a)) × IsDue app s a }
{}

/// A counter counts in its own tick routine alone, one tick at a time, and from its greatest value to 0.
pub fn counters_count_one_tick_at_a_time()
    ensures { (app : App) (s : State) (e : Event) (c : ℕ) → IsReached app s → (counter_value (step app s e).state c ≡ counter_value s c) ⊎ (IsCount app s c (kind_at app s) × (counter_value (step app s e).state c ≡ (if counter_value s c == (the_counter app c).max then 0 else counter_value s c + 1))) }
{}

/// An alarm that is armed is due exactly after the counts that were left.
pub fn alarms_expire_on_time()
    // SetRelAlarm(a, i, c) that is accepted leaves i counts
    ensures relative { (app : App) (s : State) (choice : Bool) (a : AlarmNo) (i c : ℕ) → IsReached app s → a.0 < length app.alarms → IsActive s.processor → kind_at app s ≡ kind.Call (Arm SetRelAlarm a i c) → (instruction app s choice).notes.status ≡ Some status.Ok → (at : ℕ) × (alarm_state (instruction app s choice).state a.0 ≡ Armed at c) × (ticks_left app (instruction app s choice).state a.0 at ≡ i) }
    // SetAbsAlarm(a, v, c) that is accepted arms it for the value v
    ensures absolute { (app : App) (s : State) (choice : Bool) (a : AlarmNo) (v c : ℕ) → IsReached app s → a.0 < length app.alarms → IsActive s.processor → kind_at app s ≡ kind.Call (Arm SetAbsAlarm a v c) → (instruction app s choice).notes.status ≡ Some status.Ok → alarm_state (instruction app s choice).state a.0 ≡ Armed v c }
    // while it stays so, each count of its counter lowers by one what is left
    ensures counting { (app : App) (s : State) (events : List Event) (a at c : ℕ) → IsReached app s → a < length app.alarms → StaysAs app s a (Armed at c) events → counts app s (counter_of app a) events < ticks_left app s a at → ticks_left app (after app s events) a at + counts app s (counter_of app a) events ≡ ticks_left app s a at }
    // and at the last it is due
    ensures due { (app : App) (s : State) (events : List Event) (a at c : ℕ) → IsReached app s → a < length app.alarms → StaysAs app s a (Armed at c) events → counts app s (counter_of app a) events ≡ ticks_left app s a at → IsDue app (after app s events) a }
    // where it expires, a cycle c leaves c counts until the next time
    ensures cyclic { (app : App) (s : State) (choice : Bool) (a : AlarmNo) (at c : ℕ) → IsReached app s → a.0 < length app.alarms → IsActive s.processor → kind_at app s ≡ kind.Expire a → alarm_state s a.0 ≡ Armed at c → IsDue app s a.0 → c ≢ 0 → (next : ℕ) × (alarm_state (instruction app s choice).state a.0 ≡ Armed next c) × (ticks_left app (instruction app s choice).state a.0 next ≡ c) }
    // and without a cycle it is idle
    ensures single { (app : App) (s : State) (choice : Bool) (a : AlarmNo) (at : ℕ) → IsReached app s → a.0 < length app.alarms → IsActive s.processor → kind_at app s ≡ kind.Expire a → alarm_state s a.0 ≡ Armed at 0 → IsDue app s a.0 → alarm_state (instruction app s choice).state a.0 ≡ Idle }
{}

/// An alarm that a count made due expires before its counter counts again, unless it is cancelled before or the kernel halts:
/// while it stays as it is, there is no count.
pub fn a_due_alarm_expires_before_the_next_count()
    ensures { (app : App) (s : State) (e : Event) (events : List Event) (a at c : ℕ) → IsReached app s → a < length app.alarms → counts_in app s e (counter_of app a) ≡ true → IsDue app (step app s e).state a → StaysAs app (step app s e).state a (Armed at c) events → counts app (step app s e).state (counter_of app a) events ≡ 0 }
{}

/// CancelAlarm that is accepted, a count, and an alarm that is due do what they say.
pub fn alarms_and_counters_do_what_they_say()
    ensures cancels { (app : App) (s : State) (choice : Bool) (a : AlarmNo) → IsReached app s → a.0 < length app.alarms → IsActive s.processor → kind_at app s ≡ kind.Call (Alarm CancelAlarm a) → (instruction app s choice).notes.status ≡ Some status.Ok → alarm_state (instruction app s choice).state a.0 ≡ Idle }
    // in the tick routine of counter k
    ensures counts { (app : App) (s : State) (choice : Bool) (k : SourceNo) → IsReached app s → IsActive s.processor → caller s.processor ≡ Routine k → is_counter app k.0 ≡ true → kind_at app s ≡ kind.CountUp → counter_value (instruction app s choice).state k.0 ≡ (if counter_value s k.0 == (the_counter app k.0).max then 0 else counter_value s k.0 + 1) }
    // the task takes the activation of a due alarm unless it is full, so that its activation counts as accepted
    ensures activates { (app : App) (s : State) (choice : Bool) (a : AlarmNo) (t : TaskNo) → IsReached app s → IsActive s.processor → kind_at app s ≡ kind.Expire a → IsDue app s a.0 → (the_alarm app a.0).action ≡ action.ActivateTask t → is_full app s t.0 ≡ false → (instruction app s choice).notes.status ≡ Some status.Ok }
    // and its SetEvent is accepted unless the task is suspended
    ensures sets { (app : App) (s : State) (choice : Bool) (a : AlarmNo) (t : TaskNo) (m : ℕ) → IsReached app s → IsActive s.processor → kind_at app s ≡ kind.Expire a → IsDue app s a.0 → (the_alarm app a.0).action ≡ action.SetEvent t (mask m) → is_extended app t.0 ≡ true → is_suspended (task_state s t.0) ≡ false → (instruction app s choice).notes.status ≡ Some status.Ok }
{}

/// Services of alarms are accepted and refused as the standard says: only an idle alarm is set, and only an armed one is cancelled
/// or asked for its time.
pub fn alarm_services_are_refused_for_a_reason()
    ensures relative { (app : App) (s : State) (choice : Bool) (a : AlarmNo) (i c : ℕ) → IsReached app s → IsActive s.processor → alarm_state s a.0 ≡ Idle → kind_at app s ≡ kind.Call (Arm SetRelAlarm a i c) → 0 < i → i ≤ max_of app a.0 → is_cycle app a.0 c ≡ true → (instruction app s choice).notes.status ≡ Some status.Ok }
    ensures absolute { (app : App) (s : State) (choice : Bool) (a : AlarmNo) (v c : ℕ) → IsReached app s → IsActive s.processor → alarm_state s a.0 ≡ Idle → kind_at app s ≡ kind.Call (Arm SetAbsAlarm a v c) → v ≤ max_of app a.0 → is_cycle app a.0 c ≡ true → (instruction app s choice).notes.status ≡ Some status.Ok }
    ensures armed { (app : App) (s : State) (choice : Bool) (a : AlarmNo) (at cycle n c : ℕ) → IsReached app s → IsActive s.processor → alarm_state s a.0 ≡ Armed at cycle → (kind_at app s ≡ kind.Call (Arm SetRelAlarm a n c)) ⊎ (kind_at app s ≡ kind.Call (Arm SetAbsAlarm a n c)) → (instruction app s choice).notes.status ≡ Some status.State }
    ensures cancels { (app : App) (s : State) (choice : Bool) (a : AlarmNo) (at cycle : ℕ) → IsReached app s → IsActive s.processor → alarm_state s a.0 ≡ Armed at cycle → kind_at app s ≡ kind.Call (Alarm CancelAlarm a) → (instruction app s choice).notes.status ≡ Some status.Ok }
    ensures idle { (app : App) (s : State) (choice : Bool) (a : AlarmNo) → IsReached app s → IsActive s.processor → alarm_state s a.0 ≡ Idle → (kind_at app s ≡ kind.Call (Alarm CancelAlarm a)) ⊎ (kind_at app s ≡ kind.Call (Alarm GetAlarm a)) → (instruction app s choice).notes.status ≡ Some status.NoFunc }
{}
