//! Interrupt service routines (ISO 17356-3, interrupt processing).
ghost use Rattle.std.specs.Prelude.{◌≡◌, ◌≢◌, ◌⊎◌, ℕ, ◌<◌, ◌≤◌, Bool, true, false, Option, Some};
ghost use Rattle.osek_values.specs.{declared.{event.Event.{Event, TheVariants.{Run}}, numbers.{SourceNo.{SourceNo}, TaskNo.{TaskNo}}}, Numbers.{source_no}};
ghost use Rattle.osek_standard.specs.{declared.{app.App.{App}, state.State.{State}}, Apps.{source_priority}, Levels.{task_level}, States.{is_latched, source_state, task_of}, Arrivals.{arrival}, Dispatch.{instruction}, Kernel.{step}};
ghost use Rattle.osek_standard.specs.declared.state.Processor.TheVariants as processor;
ghost use Rattle.osek_standard.specs.{States.{here, is_interrupted, is_source_at, place_in, place_of_source, task_state}, Levels.{level}, Outcomes.{IsArrivalStep}, Well.{IsActive}};
ghost use Rattle.osek_standard.specs.declared.call.Call.TheVariants.{ShutdownOs};
ghost use Rattle.osek_standard.specs.declared.block.Kind.TheVariants as kind;
ghost use Rattle.kernel_guarantees.specs.{Conditions.{HasQuietLocks}, Locks.{is_locked_at}, Nesting.{GoesBackTo, IsDuring, IsEndOf, IsIn, StandsAsIn, level_of}, Reached.{IsReached}, Scheduling.{kind_at}};

/// Routines that began and haven't ended are nested by priority.
pub fn routines_nest()
    // no two are of one priority
    ensures priorities { (app : App) (s : State) (k l : ℕ) → IsReached app s → k ≢ l → IsIn s k → IsIn s l → source_priority app k ≢ source_priority app l }
    // that of the greatest has the processor
    ensures greatest { (app : App) (s : State) (k : SourceNo) (over : Option TaskNo) (l : ℕ) → IsReached app s → s.processor ≡ processor.Interrupted k over → IsIn s l → source_priority app l ≤ source_priority app k.0 }
    // of two the level of one, by what it holds, doesn't keep the other out
    ensures levels { (app : App) (s : State) (k l : ℕ) → IsReached app s → k ≢ l → IsIn s k → IsIn s l → (level_of app s k ≤ source_priority app l) ⊎ (level_of app s l ≤ source_priority app k) }
    // nor does what the interrupted task has
    ensures task { (app : App) (s : State) (k : ℕ) → IsReached app s → IsIn s k → task_level app s (task_of s.processor) ≤ source_priority app k }
{}

/// An interrupt that came and that no routine took waits until its routine begins; none is lost.
pub fn a_latch_stays_until_its_routine_begins()
    ensures { (app : App) (s : State) (e : Event) (k : ℕ) → IsReached app s → is_latched s k ≡ true → (is_latched (step app s e).state k ≡ true) ⊎ (arrival app s ≡ Some (source_no k)) }
{}

/// A routine that is interrupted stands where it stood, with what it held, until it has the processor again or the kernel halts.
pub fn an_interrupted_routine_stays_as_it_is()
    ensures { (app : App) (s : State) (e : Event) (k : SourceNo) → IsReached app s → IsIn s k.0 → ((over : Option TaskNo) → s.processor ≡ processor.Interrupted k over → ⊥) → (source_state (step app s e).state k.0 ≡ source_state s k.0) ⊎ ((step app s e).state.processor ≡ processor.Halted) }
{}

/// A lock keeps each routine out: none begins while who has the processor stands at a locked block.
pub fn no_routine_begins_at_a_lock()
    ensures begins { (app : App) (s : State) (k : SourceNo) → IsActive s.processor → arrival app s ≡ Some k → is_locked_at app (here s) ≡ false }
    // so each routine that is interrupted stands outside of locks
    ensures routines { (app : App) (s : State) (k : ℕ) → IsReached app s → IsIn s k → is_source_at s.processor k ≡ false → is_locked_at app (place_of_source (source_state s k)) ≡ false }
    // and the task that is interrupted does
    ensures task { (app : App) (s : State) (k : SourceNo) (t : TaskNo) → IsReached app s → s.processor ≡ processor.Interrupted k (Some t) → is_locked_at app (place_in (task_state s t.0).activity) ≡ false }
{}

/// Whatever comes while a lock is open, the processor stays with who has it.
pub fn a_lock_keeps_the_processor()
    ensures { (app : App) (s : State) (e : Event) → HasQuietLocks app → IsActive s.processor → is_locked_at app (here s) ≡ true → (step app s e).state.processor ≡ s.processor }
{}

/// While an interrupt waits whose PRIORITY is at least the interrupt level, the next that the processor does is to begin a
/// routine, unless a lock is open or the kernel halted.
pub fn an_interrupt_waits_only_for_a_level_or_a_lock()
    ensures { (app : App) (s : State) (choice : Bool) (k : ℕ) → (s.processor ≡ processor.Halted → ⊥) → is_latched s k ≡ true → IsArrivalStep app s (Run choice) ⊎ ((is_locked_at app (here s) ≡ true) ⊎ (source_priority app k < level app s)) }
{}

/// Routines end last in, first out. What routine k interrupts in a state s stands as it stood until k ends, and then has the
/// processor.
pub fn what_was_interrupted_goes_on()
    // each routine that was in, also those under others
    ensures routines { (app : App) (s n : State) (k : SourceNo) (l : ℕ) → IsReached app s → IsDuring app s k n → IsIn s l → source_state n l ≡ source_state s l }
    // the task that ran or was interrupted
    ensures current { (app : App) (s n : State) (k : SourceNo) → IsReached app s → IsDuring app s k n → task_of n.processor ≡ task_of s.processor }
    ensures task { (app : App) (s n : State) (k : SourceNo) (t : TaskNo) → IsReached app s → IsDuring app s k n → task_of s.processor ≡ Some t → StandsAsIn s n t.0 }
    // the end of k gives the processor back to the routine that had it
    ensures to_routine { (app : App) (s n : State) (k : SourceNo) (choice : Bool) → IsReached app s → IsDuring app s k n → IsEndOf app n k → is_interrupted s.processor ≡ true → (instruction app n choice).state.processor ≡ s.processor }
    // or to the task
    ensures to_task { (app : App) (s n : State) (k : SourceNo) (t : TaskNo) (choice : Bool) → IsReached app s → IsDuring app s k n → IsEndOf app n k → s.processor ≡ processor.Running t → GoesBackTo app n t (instruction app n choice).state.processor }
    // or where none ran, to one that became ready, if there is one
    ensures to_idle { (app : App) (s n : State) (k : SourceNo) (choice : Bool) → IsReached app s → IsDuring app s k n → IsEndOf app n k → s.processor ≡ processor.Idle → ((instruction app n choice).state.processor ≡ processor.Idle) ⊎ ((x : TaskNo) × ((instruction app n choice).state.processor ≡ processor.Running x)) }
{}

/// As long as a routine has the processor, what it does leaves the interrupted task interrupted, and as it stood.
pub fn routines_leave_the_interrupted_task_alone()
    ensures current { (app : App) (s : State) (e : Event) → IsReached app s → is_interrupted s.processor ≡ true → is_interrupted (step app s e).state.processor ≡ true → task_of (step app s e).state.processor ≡ task_of s.processor }
    ensures task { (app : App) (s : State) (e : Event) (t : TaskNo) → IsReached app s → is_interrupted s.processor ≡ true → is_interrupted (step app s e).state.processor ≡ true → task_of s.processor ≡ Some t → StandsAsIn s (step app s e).state t.0 }
    // and one loses it only at the end of the last of them, or by ShutdownOS
    ensures last { (app : App) (s : State) (e : Event) (k : SourceNo) (over : Option TaskNo) → IsReached app s → s.processor ≡ processor.Interrupted k over → is_interrupted (step app s e).state.processor ≡ false → ((kind_at app s ≡ kind.IsrEnd) × ((l : ℕ) → IsIn s l → l ≡ k.0)) ⊎ (kind_at app s ≡ kind.Call ShutdownOs) }
{}
