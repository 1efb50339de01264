//! Where the processor stands, and how a caller goes on.
ghost use Rattle.std.specs.Prelude.{◌≡◌};
ghost use Rattle.osek_standard.specs.{Apps.{the_block}, Points.{point_of as point_of_state}, States.{here as here_of}, Effects.{moved as moved_of}};
ghost use Rattle.osek_standard.specs.Well.{Well, IsActive, InOwner, IsOffsetAt};

use osek_standard::{Activity, App, Place, Point, Processor, Source, State};

/// Where the task or the routine stands that has the processor.
pub fn here(app: &App, state: &State) -> Place
    requires well { Well app.now state.now }
    requires active { IsActive state.now.processor }
    ensures place { result ≡ here_of state.now }
    ensures own { InOwner app.now state.now.processor result.block.0 }
{
    match state.processor {
        Processor::Halted | Processor::Idle => unreachable!(),
        Processor::Running(task) => match &state.task(task).activity {
            Activity::Live(standing) => standing.at,
            Activity::Suspended | Activity::Waiting(_) => unreachable!(),
        },
        Processor::Interrupted { source, .. } => match state.sources.at(source.index()) {
            Source::Out => unreachable!(),
            Source::In(standing) => standing.at,
        },
    }
}

/// Where the processor stands, by the block alone.
pub fn point_of(app: &App, state: &State) -> Point
    requires { Well app.now state.now }
    ensures { result ≡ point_of_state state.now }
{
    match state.processor {
        Processor::Halted => Point::Halted,
        Processor::Idle => Point::Idle,
        Processor::Running(_) => Point::Task(here(app, state).block),
        Processor::Interrupted { over, .. } => Point::Routine {
            block: here(app, state).block,
            over,
        },
    }
}

/// Who has the processor goes to a place in its own blocks.
pub fn move_to(app: &App, state: &mut State, place: Place)
    requires well { Well app.now state.old }
    requires own { InOwner app.now state.old.processor place.block.0 }
    requires offset { IsOffsetAt (the_block app.now place.block.0).kind place.offset }
    ensures moved { moved_of state.old place ≡ state.new }
    ensures well { Well app.now state.new }
    ensures processor { state.new.processor ≡ state.old.processor }
{
    match state.processor {
        Processor::Halted | Processor::Idle => {}
        Processor::Running(task) => {
            if let Activity::Live(standing) = &mut state.task_mut(task).activity {
                standing.at = place;
            }
        }
        Processor::Interrupted { source, .. } => {
            if let Source::In(standing) = state.sources.at_mut(source.index()) {
                standing.at = place;
            }
        }
    }
}
