//! Events (ISO 17356-3, event mechanism): by what they are set and cleared, and who is released from waiting.
ghost use Rattle.std.specs.{Prelude.{◌≡◌, ◌⊎◌, ℕ, Bool, true, false, Some, bit_or}, Int.{bit_at}};
ghost use Rattle.osek_values.specs.{declared.{event.Event.{Event}, numbers.{BlockNo.{BlockNo}, TaskNo.{TaskNo}}}, Numbers.{mask}};
ghost use Rattle.osek_values.specs.declared.status.Status.TheVariants as status;
ghost use Rattle.osek_standard.specs.{Apps.{awaited, the_block}, Services.{own_events, share}, TaskStates.{is_live, is_suspended}, Dispatch.{instruction}, Well.{IsActive}};
ghost use Rattle.osek_standard.specs.{declared.{app.App.{App}, state.State.{State}, task_state.Activity.TheVariants.{Waiting}}, Kernel.{step}, States.{here, task_state}};
ghost use Rattle.osek_standard.specs.declared.call.{Call.TheVariants.{Mask}, MaskService.TheVariants.{ClearEvent, WaitEvent}};
ghost use Rattle.osek_standard.specs.declared.block.Kind.TheVariants as kind;
ghost use Rattle.osek_standard.specs.declared.state.Processor.TheVariants as processor;
ghost use Rattle.kernel_guarantees.specs.{Events.{ActivatesTask, ClearsEvents, SetsEvents}, Reached.{IsReached}, Scheduling.{kind_at}};

/// Event i of task t comes only by a SetEvent that names it, of a call or of an alarm that expires; and it goes only where t
/// itself clears it, or where t is activated.
pub fn events_come_by_set_event_and_go_by_clear_event()
    ensures comes { (app : App) (s : State) (e : Event) (t i : ℕ) → IsReached app s → bit_at (task_state s t).events.0 i ≡ 0 → bit_at (task_state (step app s e).state t).events.0 i ≡ 1 → (m : ℕ) × SetsEvents app s t m × (bit_at m i ≡ 1) }
    ensures goes { (app : App) (s : State) (e : Event) (t i : ℕ) → IsReached app s → bit_at (task_state s t).events.0 i ≡ 1 → bit_at (task_state (step app s e).state t).events.0 i ≡ 0 → ((m : ℕ) × ClearsEvents app s t m × (bit_at m i ≡ 1)) ⊎ ActivatesTask app s t }
{}

/// A task that waits is released exactly where a SetEvent, of a call or of an alarm that expires, names one of the events that
/// it waits for.
pub fn a_waiting_task_is_released_by_what_it_waits_for()
    ensures only { (app : App) (s : State) (e : Event) (t : ℕ) (b : BlockNo) → IsReached app s → (task_state s t).activity ≡ Waiting b → is_live (task_state (step app s e).state t) ≡ true → (m : ℕ) × SetsEvents app s t m × (share (awaited (the_block app b.0).kind) (own_events app s t m) ≡ true) }
    ensures always { (app : App) (s : State) (t m : ℕ) (b : BlockNo) (choice : Bool) → IsReached app s → (task_state s t).activity ≡ Waiting b → IsActive s.processor → SetsEvents app s t m → share (awaited (the_block app b.0).kind) (own_events app s t m) ≡ true → is_live (task_state (instruction app s choice).state t) ≡ true }
{}

/// SetEvent, ClearEvent and WaitEvent that are accepted do what they say, and an activation clears the events.
pub fn accepted_services_set_clear_and_wait()
    // of a call, or of an alarm that expires
    ensures sets { (app : App) (s : State) (choice : Bool) (t m : ℕ) → IsReached app s → IsActive s.processor → SetsEvents app s t m → (instruction app s choice).notes.status ≡ Some status.Ok → (task_state (instruction app s choice).state t).events.0 ≡ bit_or (task_state s t).events.0 (own_events app s t m) }
    ensures clears { (app : App) (s : State) (choice : Bool) (c : TaskNo) (m : ℕ) → IsReached app s → s.processor ≡ processor.Running c → kind_at app s ≡ kind.Call (Mask ClearEvent (mask m)) → (instruction app s choice).notes.status ≡ Some status.Ok → share (task_state (instruction app s choice).state c.0).events.0 m ≡ false }
    // without one of the events the caller waits, at its WaitEvent
    ensures waits { (app : App) (s : State) (choice : Bool) (c : TaskNo) (m : ℕ) → IsReached app s → s.processor ≡ processor.Running c → kind_at app s ≡ kind.Call (Mask WaitEvent (mask m)) → share (task_state s c.0).events.0 m ≡ false → (instruction app s choice).notes.status ≡ Some status.Ok → (task_state (instruction app s choice).state c.0).activity ≡ Waiting (here s).block }
    ensures activated { (app : App) (s : State) (e : Event) (t : ℕ) → IsReached app s → is_suspended (task_state s t) ≡ true → is_live (task_state (step app s e).state t) ≡ true → (task_state (step app s e).state t).events.0 ≡ 0 }
{}
