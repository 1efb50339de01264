//! Interrupts: the routine that begins now.
ghost use Rattle.std.specs.Prelude.{◌≡◌, ◌<◌, length, is_some, ◌+◌, nat_le};
ghost use Rattle.osek_standard.specs.{Apps.{source_count, source_priority}, States.{is_latched as is_latched_of}, Arrivals.{arrival as arrival_of, entered, takes_none as takes_none_of}, Levels.{level as level_of}, Well.{Well}};
ghost use Rattle.generic_kernel.specs.{Moves.{entered_if}, Nests.{IsFirstBelow}};

use crate::nests::first_of;
use crate::places::here;
use ceiling_rules::level;
use osek_standard::{App, Place, Processor, RoutineStanding, Source, State};
use osek_values::{Held, SourceNo};

/// Whether no routine begins where the processor stands.
fn takes_none(app: &App, state: &State) -> bool
    requires { Well app.now state.now }
    ensures { result ≡ takes_none_of app.now state.now }
{
    match state.processor {
        Processor::Halted => true,
        Processor::Idle => false,
        Processor::Running(_) | Processor::Interrupted { .. } => {
            app.block(here(app, state).block).locked
        }
    }
}

fn is_latched(state: &State, source: SourceNo) -> bool
    requires { source.0 < length state.now.latched }
    ensures { result ≡ is_latched_of state.now source.0 }
{
    *state.latched.at(source.index())
}

// the first of the sources so far and the next one, where that is latched
fn with_latched(
    app: &App,
    state: &State,
    found: Option<SourceNo>,
    next: SourceNo,
) -> Option<SourceNo>
    requires next { next.0 < source_count app.now }
    requires latched { length state.now.latched ≡ source_count app.now }
    requires found { IsFirstBelow app.now (is_latched_of state.now) next.0 found }
    ensures { IsFirstBelow app.now (is_latched_of state.now) (next.0 + 1) result }
{
    if is_latched(state, next) {
        Some(first_of(app, found, next))
    } else {
        found
    }
}

/// The latched source that goes before each other.
fn first_latched(app: &App, state: &State) -> Option<SourceNo>
    requires { length state.now.latched ≡ source_count app.now }
    ensures { IsFirstBelow app.now (is_latched_of state.now) (length state.now.latched) result }
{
    let mut found = None;
    for index in 0..state.latched.len() {
        found = with_latched(app, state, found, SourceNo(index as u8));
    }
    found
}

/// Whether the level lets a source in. It is above the routine that has the processor, so a source that doesn't go before
/// that one is kept out without a look at the others.
fn is_let_in(app: &App, state: &State, source: SourceNo) -> bool
    requires known { source.0 < source_count app.now }
    requires well { Well app.now state.now }
    ensures { result ≡ nat_le (level_of app.now state.now) (source_priority app.now source.0) }
{
    if let Processor::Interrupted { source: top, .. } = state.processor {
        if app.source_priority(source) <= app.source_priority(top) {
            return false;
        }
    }
    level(app, state) <= app.source_priority(source) as u32
}

/// The source whose routine begins now. Where the level keeps the first of the latched sources out, it keeps all of them
/// out.
fn arrival(app: &App, state: &State) -> Option<SourceNo>
    requires { Well app.now state.now }
    ensures { result ≡ arrival_of app.now state.now }
{
    if takes_none(app, state) {
        return None;
    }
    match first_latched(app, state) {
        None => None,
        Some(source) => {
            if is_let_in(app, state, source) {
                Some(source)
            } else {
                None
            }
        }
    }
}

/// The routine of a source begins at its first block, over the task that runs or over none.
fn enter(app: &App, state: &mut State, source: SourceNo)
    requires known { source.0 < source_count app.now }
    requires sources { length state.old.sources ≡ source_count app.now }
    requires latched { length state.old.latched ≡ source_count app.now }
    ensures { entered app.now state.old source ≡ state.new }
{
    state.latched.put(source.index(), false);
    state.sources.put(
        source.index(),
        Source::In(RoutineStanding {
            at: Place {
                block: app.routine_start(source),
                offset: 0,
            },
            held: Held::new(),
        }),
    );
    state.processor = Processor::Interrupted {
        source,
        over: state.current(),
    };
}

/// Begins the routine of the source whose turn it is, and answers whether one began.
pub fn take_arrival(app: &App, state: &mut State) -> bool
    requires { Well app.now state.old }
    ensures entered { result ≡ is_some (arrival_of app.now state.old) }
    ensures state { entered_if app.now state.old (arrival_of app.now state.old) ≡ state.new }
    ensures well { Well app.now state.new }
    ensures tasks { state.new.tasks ≡ state.old.tasks }
{
    let Some(source) = arrival(app, state) else {
        return false;
    };
    enter(app, state, source);
    true
}
