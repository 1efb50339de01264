//! The effect of an instruction.
ghost use Rattle.std.specs.Prelude.{◌≡◌, ℕ, ◌+◌, ◌<◌, nat_lt, Some, None, IfSome, IfNone, is_some, if◌then◌else◌, false, map};
ghost use Rattle.osek_standard.specs.{Validity.{NamesEntries}, Apps.{tables, the_block, is_counter}, States.{caller, here as here_of, IfRoutine}};
ghost use Rattle.osek_standard.specs.Services.{answer, wait_event as wait_event_row};
ghost use Rattle.osek_standard.specs.Effects.{effected, moved, moved_to, place_at, asked_by as asked_by_row, called, asks_as, goes_on_unless_left, returned as returned_row};
ghost use Rattle.osek_standard.specs.Effects.{shut_down as shut_down_row, effect_at as effect_at_row, effect as effect_row, halted_by};
ghost use Rattle.osek_standard.specs.{Dispatch.{nothing_noted}, Well.{Well, IsActive, InOwner, IsWaitEvent}, declared.call.Call.{Call}};
ghost use Rattle.osek_standard.specs.declared.block.Kind.TheVariants as a_kind;
ghost use Rattle.osek_standard.specs.declared.state.Source.TheVariants as source;
ghost use Rattle.event_alarm.specs.Waiting.{StandsAtWaitEvent};
ghost use Rattle.generic_kernel.specs.{Changes.{ChangesOwn, is_silent}, Levels.{IsReady, level as level_of}, Moves.{IsKnownCaller, MayDispatch}};

use crate::calls::{call, count};
use crate::changes::named_here;
use crate::nests::next_routine;
use crate::places::{here, move_to};
use crate::queue::go_first;
use crate::ready::Ready;
use crate::replies::{Effect, Reply, noted};
use crate::services::end_task;
use event_alarm::wait_event;
use osek_standard::{
    App, Call, Caller, Kind, MaskService, Place, PlainService, Processor, Schedule, Source, State,
};
use osek_values::{Ask, BlockNo, HookSet, Mask, Notes, Seq};

/// The caller goes on to the first instruction of a block.
fn go_to(app: &App, state: &mut State, block: BlockNo)
    requires well { Well app.now state.old }
    requires own { InOwner app.now state.old.processor block.0 }
    ensures moved { moved_to state.old block ≡ state.new }
    ensures well { Well app.now state.new }
    ensures processor { state.new.processor ≡ state.old.processor }
{
    move_to(app, state, Place { block, offset: 0 });
}

/// The caller goes on to the next unit of its work, or to the next block.
fn work_on(app: &App, state: &mut State, place: Place, count: u16, next: BlockNo)
    requires well { Well app.now state.old }
    requires work { (the_block app.now place.block.0).kind ≡ a_kind.Work count }
    requires unit { place.offset < count }
    requires own { InOwner app.now state.old.processor place.block.0 }
    requires next { InOwner app.now state.old.processor next.0 }
    ensures moved { (if nat_lt (place.offset + 1) count then moved state.old (place_at place.block (place.offset + 1)) else moved_to state.old next) ≡ state.new }
{
    if place.offset + 1 < count {
        let further = Place {
            block: place.block,
            offset: place.offset + 1,
        };
        move_to(app, state, further);
    } else {
        go_to(app, state, next);
    }
}

/// What a caller's call asks: at interrupt level nothing. A non-preemptive task asks Maybe at Schedule alone, and Left
/// where it ends, as any other task does.
fn asked_by(app: &App, caller: Caller, kind: Kind, ask: Ask) -> Ask
    requires { IsKnownCaller app.now caller }
    ensures { result ≡ asked_by_row app.now caller kind ask }
{
    match caller {
        Caller::Nobody | Caller::Routine(_) => Ask::No,
        Caller::Task(task) => match ask {
            Ask::No | Ask::Left | Ask::Free => ask,
            Ask::Maybe => match app.task(task).schedule {
                Schedule::Full => Ask::Maybe,
                Schedule::Non => match kind {
                    Kind::Call(Call::Plain(PlainService::Schedule)) => Ask::Maybe,
                    _ => Ask::No,
                },
            },
        },
    }
}

/// A call: the caller goes on, and then the row of its service applies.
fn go_and_call(app: &App, state: &mut State, next: BlockNo, kind: Kind) -> Reply
    requires operands { NamesEntries (tables app.now) kind }
    requires isr { (c : Call) → kind ≡ a_kind.Call c → IfRoutine (caller state.old.processor) (λ k. is_counter app.now k.0 ≡ false) }
    requires goes_on { IsWaitEvent kind → ⊥ }
    requires well { Well app.now state.old }
    requires active { IsActive state.old.processor }
    requires own { InOwner app.now state.old.processor next.0 }
    ensures { asks_as app.now (caller state.old.processor) kind (called app.now (moved_to state.old next) (caller state.old.processor) kind) ≡ answer state.new result.status result.value result.ask }
{
    let caller = state.caller();
    go_to(app, state, next);
    let reply = call(app, state, kind);
    Reply {
        ask: asked_by(app, caller, kind, reply.ask),
        ..reply
    }
}

/// WaitEvent: the caller waits where it stands, or goes on.
fn wait_or_go(app: &App, state: &mut State, next: BlockNo, mask: Mask) -> Reply
    requires well { Well app.now state.old }
    requires active { IsActive state.old.processor }
    requires stands { StandsAtWaitEvent app.now state.old (caller state.old.processor) }
    requires own { InOwner app.now state.old.processor next.0 }
    ensures { goes_on_unless_left next (wait_event_row app.now state.old (caller state.old.processor) mask.0) ≡ answer state.new result.status result.value result.ask }
{
    let (status, ask) = wait_event(app, state, mask);
    if ask != Ask::Left {
        go_to(app, state, next);
    }
    Reply::of(Some(status), ask)
}

/// The end of a routine: the next one that was entered goes on, or else the processor goes back to what they
/// interrupted.
fn return_from_routine(app: &App, state: &mut State) -> Ask
    requires { Well app.now state.old }
    ensures { returned_row app.now state.old ≡ answer state.new None None result }
{
    let Processor::Interrupted { source, over } = state.processor else {
        return Ask::No;
    };
    state.sources.put(source.index(), Source::Out);
    if let Some(next) = next_routine(app, state) {
        state.processor = Processor::Interrupted { source: next, over };
        return Ask::No;
    }
    match over {
        None => {
            state.processor = Processor::Idle;
            Ask::Free
        }
        Some(task) => {
            state.processor = Processor::Running(task);
            match app.task(task).schedule {
                Schedule::Full => Ask::Maybe,
                Schedule::Non => Ask::No,
            }
        }
    }
}

/// No routine is left.
fn put_all_out(sources: &mut Seq<Source>)
    ensures { sources.new ≡ map (λ _. source.Out) sources.old }
{
    for index in 0..sources.len() {
        sources.put(index, Source::Out);
    }
}

/// The kernel halts.
fn halt(app: &App, state: &mut State)
    requires { Well app.now state.old }
    ensures { halted_by state.old state.old.processor ≡ state.new }
{
    go_first(app, state);
    if let Processor::Interrupted { .. } = state.processor {
        put_all_out(&mut state.sources);
    }
    state.processor = Processor::Halted;
}

/// ShutdownOS, once its caller went on: the kernel halts, all routines are over, and the task that runs or is interrupted
/// goes first in the line.
fn shut_down(app: &App, state: &mut State) -> Effect
    requires well { Well app.now state.old }
    ensures { shut_down_row app.now state.old ≡ effected state.new result.notes result.ask }
{
    halt(app, state);
    Effect {
        notes: Notes {
            status: None,
            value: None,
            hooks: app.hooks.among(HookSet::SHUTDOWN),
        },
        ask: Ask::No,
    }
}

/// The effect of the instruction at the place where the processor stands.
fn effect_at(app: &App, state: &mut State, choice: bool, place: Place) -> Effect
    requires well { Well app.now state.old }
    requires active { IsActive state.old.processor }
    requires here { here_of state.old ≡ place }
    ensures { effect_at_row app.now state.old choice place (the_block app.now place.block.0) (the_block app.now place.block.0).kind ≡ effected state.new result.notes result.ask }
{
    let block = app.block(place.block);
    match block.kind {
        Kind::Work(count) => {
            work_on(app, state, place, count, block.next);
            noted(app, Reply::unnoted(Ask::No))
        }
        Kind::Choice(other) => {
            go_to(app, state, if choice { block.next } else { other });
            noted(app, Reply::unnoted(Ask::No))
        }
        Kind::Call(Call::Mask(MaskService::WaitEvent, mask)) => {
            let reply = wait_or_go(app, state, block.next, mask);
            noted(app, reply)
        }
        Kind::Call(Call::ShutdownOs) => {
            go_to(app, state, block.next);
            shut_down(app, state)
        }
        Kind::TaskEnd => {
            let ask = end_task(app, state);
            noted(app, Reply::unnoted(ask))
        }
        Kind::IsrEnd => {
            let ask = return_from_routine(app, state);
            noted(app, Reply::unnoted(ask))
        }
        kind => {
            let reply = go_and_call(app, state, block.next, kind);
            noted(app, reply)
        }
    }
}

/// The same, where it is one that notes nothing and leaves each task as it is but for its place: a move, a tick, or the end
/// of a routine. It answers what is asked, and of any other instruction nothing, which isn't done.
#[tactic(auto, using(crate::proofs::SilentLaws::nothing_wanted))]
fn silent_at(app: &App, state: &mut State, choice: bool, place: Place) -> Option<Ask>
    requires well { Well app.now state.old }
    requires active { IsActive state.old.processor }
    requires here { here_of state.old ≡ place }
    ensures row { IfSome result (λ ask. effect_at_row app.now state.old choice place (the_block app.now place.block.0) (the_block app.now place.block.0).kind ≡ effected state.new nothing_noted ask) }
    ensures which { is_some result ≡ is_silent (the_block app.now place.block.0).kind }
    ensures other { IfNone result (state.new ≡ state.old) }
    ensures levels { (t : ℕ) → level_of app.now state.new t ≡ level_of app.now state.old t }
{
    let block = app.block(place.block);
    match block.kind {
        Kind::Work(count) => {
            work_on(app, state, place, count, block.next);
            Some(Ask::No)
        }
        Kind::Choice(other) => {
            go_to(app, state, if choice { block.next } else { other });
            Some(Ask::No)
        }
        Kind::Loop | Kind::Call(Call::Lock(_)) => {
            go_to(app, state, block.next);
            Some(Ask::No)
        }
        Kind::CountUp => {
            go_to(app, state, block.next);
            count(app, state);
            Some(Ask::No)
        }
        Kind::IsrEnd => Some(return_from_routine(app, state)),
        Kind::Call(_) | Kind::TaskEnd | Kind::Expire(_) => None,
    }
}

/// The effect of the instruction at the processor, where it is one that notes nothing and leaves each task as it is but for
/// its place: a move, a tick, or the end of a routine. It answers what is asked, and of any other instruction nothing, which
/// isn't done.
pub fn silent_effect(app: &App, state: &mut State, choice: bool, place: Place) -> Option<Ask>
    requires well { Well app.now state.old }
    requires active { IsActive state.old.processor }
    requires here { here_of state.old ≡ place }
    ensures row { IfSome result (λ ask. effect_row app.now state.old choice ≡ effected state.new nothing_noted ask) }
    ensures which { is_some result ≡ is_silent (the_block app.now place.block.0).kind }
    ensures other { IfNone result (state.new ≡ state.old) }
    ensures well { Well app.now state.new }
    ensures levels { (t : ℕ) → level_of app.now state.new t ≡ level_of app.now state.old t }
    ensures dispatch { IfSome result (MayDispatch app.now state.new) }
{
    silent_at(app, state, choice, place)
}

/// The effect of the instruction at the processor, on the state.
fn perform(app: &App, state: &mut State, choice: bool) -> Effect
    requires well { Well app.now state.old }
    requires active { IsActive state.old.processor }
    ensures row { effect_row app.now state.old choice ≡ effected state.new result.notes result.ask }
    ensures well { Well app.now state.new }
    ensures dispatch { MayDispatch app.now state.new result.ask }
{
    let place = here(app, state);
    effect_at(app, state, choice, place)
}

/// The effect of the instruction at the processor, with the choice that an opaque condition takes. A non-preemptive
/// caller asks Maybe at Schedule alone. A caller that left, and a routine that ended over no task, leave the processor
/// idle; a routine that ended over a task gives it back to that task. The Live tasks stay those of the state.
pub fn effect(app: &App, state: &mut State, ready: &mut Ready, choice: bool) -> Effect
    requires well { Well app.now state.old }
    requires ready { IsReady app.now state.old ready.old }
    requires active { IsActive state.old.processor }
    ensures row { effect_row app.now state.old choice ≡ effected state.new result.notes result.ask }
    ensures well { Well app.now state.new }
    ensures ready { IsReady app.now state.new ready.new }
    ensures dispatch { MayDispatch app.now state.new result.ask }
    ensures own { ChangesOwn app.now state.old state.new }
{
    let own = state.current();
    let named = named_here(app, state);
    let done = perform(app, state, choice);
    ready.take_in(app, state, own, named);
    done
}
